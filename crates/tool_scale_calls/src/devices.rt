//! The calls of `photo_device` on one device, which has made many versions, and those of `fleet_steps` on what it holds.
ghost use Rattle.std.specs.Prelude.{◌≡◌, ◌<◌, ◌==◌, ◌&&◌, ℕ, [], ◌∷◌};
ghost use Rattle.photo_version.specs.Author.{author, device_of_author, epoch_of_author};
ghost use Rattle.photo_version.specs.Version as versions;
ghost use Rattle.photo_version.specs.Vector.{denotes};
ghost use Rattle.item_knowledge.specs.Fragments.{knows};

use crate::told::tell;
use fleet_steps::{IssueLog, run_command};
use item_knowledge::Knowledge;
use photo_device::{
    Change, Device, Gain, Held, HeldSet, Selection, SharedHeld, SharedList, told_by,
};
use photo_record::{PicNo, Record};
use photo_script::Command;
use photo_version::Author;
use std::alloc::Global;
use tool_value_refusals::{filter_of, rated, told};

/// Makes the calls on devices of `count` versions: on one whose filter selects none, and on one that stores all until its
/// filter is narrowed.
pub fn make(rt: HostRuntime, count: u32) {
    let made = rated(rt.alloc(), 4);
    if let Some(content) = &made {
        on_out(rt, content, count);
        on_store(rt, content, count);
    }
    drop(made);
}

fn on_out(rt: HostRuntime, content: &Record, count: u32) {
    let mut made = opened(rt.alloc(), "none");
    tell(rt, "photo_device::Device::new", made.is_some());
    if let Some(device) = &mut made {
        let done = has_made(device, content, count);
        tell(rt, "photo_device::Device::make", done);
        on_device(rt, device, content);
    }
    drop(made);
}

fn on_store(rt: HostRuntime, content: &Record, count: u32) {
    let mut made = opened(rt.alloc(), "all");
    if let Some(device) = &mut made {
        let done = has_made(device, content, count) && is_narrowed(rt.alloc(), device);
        tell(rt, "photo_device::Device::narrow", done);
    }
    drop(made);
}

fn opened(alloc: Global, text: &str) -> Option<Device> {
    let filter = filter_of(alloc, text)?;
    Device::new(alloc, Author::new(0), filter).ok()
}

// Makes a version of each of the first `count` pictures.
fn has_made(device: &mut Device, content: &Record, count: u32) -> bool {
    for i in 0..count {
        let done = match PicNo::new(i.saturating_add(1)) {
            Some(picture) if device.counter() < u32::MAX => device.make(picture, content).is_ok(),
            _ => false,
        };
        if !done {
            return false;
        }
    }
    true
}

fn is_narrowed(alloc: Global, device: &mut Device) -> bool {
    match filter_of(alloc, "rating >= 5") {
        Some(filter) => device.narrow(filter).is_ok(),
        None => false,
    }
}

fn on_device(rt: HostRuntime, device: &mut Device, content: &Record) {
    if let Some(picture) = PicNo::new(1) {
        change(rt, device, picture, content);
    }
    of_set(rt, device.out());
    let done = device.try_clone().is_ok();
    tell(rt, "photo_device::Device::try_clone", done);
    let done = device.conflicts().is_ok();
    tell(rt, "photo_device::Device::conflicts", done);
    refilter(rt, device);
    if device.author().value() == 0 {
        stage(rt, device);
    }
}

fn change(rt: HostRuntime, device: &mut Device, picture: PicNo, content: &Record) {
    if device.counter() < u32::MAX {
        let done = device.edit(picture, content).is_ok();
        tell(rt, "photo_device::Device::edit", done);
    }
    if device.counter() < u32::MAX {
        let done = device.remove(picture).is_ok();
        tell(rt, "photo_device::Device::remove", done);
    }
    if device.counter() < u32::MAX && device.author().epoch() < u32::MAX {
        let done = is_command_run(rt.alloc(), device, picture);
        tell(rt, "fleet_steps::run_command", done);
    }
}

fn is_command_run(alloc: Global, device: &mut Device, picture: PicNo) -> bool
    requires room { device.old.counter < 4_294_967_295 }
    requires epoch { epoch_of_author device.old.author < 4_294_967_295 }
{
    let command = Command::Remove { device: 0, picture };
    let done = run_command(alloc, &command, device).is_ok();
    drop(command);
    done
}

fn of_set(rt: HostRuntime, set: &HeldSet) {
    let made = set.to_list();
    tell(rt, "photo_device::HeldSet::to_list", made.is_ok());
    if let Ok(list) = made {
        let done = IssueLog::new(rt.alloc(), list.into_vec()).is_ok();
        tell(rt, "fleet_steps::IssueLog::new", done);
    }
    if !set.is_empty() {
        of_held(rt, set.get(0));
    }
}

fn of_held(rt: HostRuntime, held: &Held) {
    let made = held.try_clone();
    tell(rt, "photo_device::Held::try_clone", made.is_ok());
    if let Ok(copy) = made {
        share(rt, copy);
    }
}

fn share(rt: HostRuntime, held: Held) {
    let made = SharedHeld::new(rt.alloc(), held);
    tell(rt, "photo_device::SharedHeld::new", made.is_ok());
    if let Ok(shared) = &made {
        let done = shared.try_clone().is_ok();
        tell(rt, "photo_device::SharedHeld::try_clone", done);
    }
    drop(made);
}

// From here on it knows each of its versions by itself.
fn refilter(rt: HostRuntime, device: &mut Device) {
    if device.author().epoch() < u32::MAX {
        if let Some(filter) = filter_of(rt.alloc(), "rating >= 5") {
            let done = device.refilter(filter).is_ok();
            tell(rt, "photo_device::Device::refilter", done);
        }
    }
    if device.author().epoch() < u32::MAX {
        if let Some(filter) = filter_of(rt.alloc(), "rating >= 5") {
            let done = device.begin(u32::MAX, filter).is_ok();
            tell(rt, "photo_device::Device::begin", done);
        }
    }
}

fn stage(rt: HostRuntime, device: &mut Device)
    requires { device_of_author device.old.author ≡ 0 }
{
    let made = told(rt.alloc(), 7, 3);
    if let Some(gain) = &made {
        let done = is_staged(rt.alloc(), device, gain) && is_staged_told(rt.alloc(), device);
        tell(rt, "photo_device::Device::stage", done);
    }
    drop(made);
}

// Stages what another device knows.
fn is_staged(alloc: Global, device: &mut Device, gain: &Knowledge) -> bool
    requires zero { device_of_author device.old.author ≡ 0 }
    requires gain { (p : ℕ) (v : versions.Version) → 0 < p
        → knows gain.now.known p v ≡ ((7 == p) && denotes ((author 1, 3) ∷ []) v) }
{
    let change = Change {
        drops: nothing_dropped(alloc),
        takes: SharedList::new(Vec::new(alloc)),
        gain: Gain::Known(gain),
    };
    device.stage(change, 2).is_ok()
}

// Stages that versions tell nothing.
fn is_staged_told(alloc: Global, device: &mut Device) -> bool {
    let Ok(told) = told_by(alloc, &[], &[]) else {
        return false;
    };
    let change = Change {
        drops: nothing_dropped(alloc),
        takes: SharedList::new(Vec::new(alloc)),
        gain: Gain::Told(&told),
    };
    device.stage(change, 2).is_ok()
}

fn nothing_dropped(alloc: Global) -> Selection
    ensures stored { result.stored.items ≡ [] }
    ensures waiting { result.waiting.items ≡ [] }
{
    Selection {
        stored: Vec::new(alloc),
        waiting: Vec::new(alloc),
    }
}
