// The version that a command would make.
ghost use Rattle.std.specs.Prelude.{◌≡◌, ◌<◌, ◌∷◌, [], List, length, IfOk};
ghost use Rattle.std.specs.List.{AllZip};
ghost use Rattle.std.specs.Option.{option_to_list};
ghost use Rattle.photo_device.specs.Held.{entry_of, entries_of};
ghost use Rattle.photo_model.specs.Device.{ModelDevice, new_entry};
ghost use Rattle.photo_device.specs.Device.{Shows};
ghost use Rattle.fleet_model.specs.Contents.{IsWithin, devices_of};
ghost use Rattle.fleet_model.specs.Runs.{device_at};
ghost use Rattle.fleet_steps.specs.Between.{HaveRoom};
ghost use Rattle.live_fleet.specs.Entries.{entry_if_made};

use photo_device::{Device, Held};
use photo_record::{PicNo, Record};
use photo_script::Command;
use photo_version::Version;
use std::alloc::AllocError;

/// The version that a command makes if it isn't refused, as the log records it. Its only error is want of memory.
pub(crate) fn held_if_made(
    command: &Command,
    devices: &[Device],
) -> Result<Option<Held>, AllocError>
    requires within { IsWithin (length devices.now) command.now }
    requires room { HaveRoom devices.now }
    ensures { IfOk result (λ held. (models : List ModelDevice) → AllZip Shows devices.now models
        → entries_of (option_to_list held)
        ≡ option_to_list (entry_if_made command.now (device_at models (devices_of command.now).0))) }
{
    match command {
        Command::New {
            device,
            picture,
            record,
        }
        | Command::Edit {
            device,
            picture,
            record,
        } => next_on(devices, *device, *picture, record),
        Command::Remove { device, picture } => {
            next_on(devices, *device, *picture, &Record::Removed)
        }
        _ => Ok(None),
    }
}

// The next version of the device at a place.
fn next_on(
    devices: &[Device],
    place: u16,
    picture: PicNo,
    content: &Record,
) -> Result<Option<Held>, AllocError>
    requires within { place < length devices.now }
    requires room { HaveRoom devices.now }
    ensures { IfOk result (λ held. (models : List ModelDevice) → AllZip Shows devices.now models
        → entries_of (option_to_list held) ≡ new_entry (device_at models place) picture content.now ∷ []) }
{
    let held = next_of(&devices[usize::from(place)], picture, content)?;
    Ok(Some(held))
}

// The next version of a device.
fn next_of(device: &Device, picture: PicNo, content: &Record) -> Result<Held, AllocError>
    requires { device.now.counter < 4_294_967_295 }
    ensures { IfOk result (λ held. (m : ModelDevice) → Shows device.now m → entry_of held ≡ new_entry m picture content.now) }
{
    let version = Version::new(device.author(), device.counter() + 1).unwrap();
    let made_with = device.knowledge().of(picture)?;
    let content = content.try_clone()?;
    Ok(Held {
        picture,
        version,
        made_with,
        content,
    })
}
