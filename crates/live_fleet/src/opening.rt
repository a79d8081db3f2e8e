// The devices of a new fleet.
ghost use Rattle.std.specs.Prelude.{◌≡◌, ◌≤◌, length, IfOk};
ghost use Rattle.std.specs.List.{AllZip};
ghost use Rattle.photo_device.specs.Device.{Shows};
ghost use Rattle.fleet_model.specs.Runs.{opening_from};
ghost use Rattle.fleet_steps.specs.Between.{AreSettled};

use fleet_steps::opening_device;
use photo_device::Device;
use photo_filter_rules::Filter;
use photo_script::Script;
use std::alloc::{AllocError, Global};

/// Makes a device for each filter, in their order; none has made or holds anything. Its only error is want of memory.
pub(crate) fn opening_devices(alloc: Global, filters: &[Filter]) -> Result<Vec<Device>, AllocError>
    requires { length filters.now ≤ 65_536 }
    ensures shown { IfOk result (λ devices. AllZip Shows devices.items (opening_from 0 filters.now)) }
    ensures settled { IfOk result (λ devices. AreSettled devices.items) }
{
    let mut devices = Vec::new(alloc);
    for place in 0..filters.len() {
        devices.push(opening_device(alloc, place as u16, &filters[place])?)?;
    }
    Ok(devices)
}

/// Makes the devices of a script in order of declaration; none has made or holds anything. Its only error is want of memory.
pub(crate) fn devices_of_script(alloc: Global, script: &Script) -> Result<Vec<Device>, AllocError>
    ensures shown { IfOk result (λ devices. AllZip Shows devices.items (opening_from 0 script.now.filters)) }
    ensures settled { IfOk result (λ devices. AreSettled devices.items) }
    ensures long { IfOk result (λ devices. length devices.items ≡ length script.now.names) }
{
    let mut devices = Vec::new(alloc);
    for place in 0..script.devices() {
        let place = place as u16;
        devices.push(opening_device(alloc, place, script.filter(place))?)?;
    }
    Ok(devices)
}
