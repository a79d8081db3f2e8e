// Tests of reports on what a device holds.
ghost use Rattle.std.specs.Prelude.{◌≡◌, ◌<◌, ◌≤◌, length, IfSome};

use super::reports::{is_reported, version};
use photo_device::{Held, SharedHeld, SharedList};
use photo_record::{PicNo, Record};
use photo_script::{Command, Report, Script};
use photo_version::{Vector, Version};
use std::alloc::Global;

// A held version of the picture that a command makes.
fn held(alloc: Global, script: &Script, number: u32, version: Version) -> Option<SharedHeld>
    requires first { 0 < number }
    requires within { number ≤ length script.now.commands }
    ensures { IfSome result (λ held. held.version ≡ version) }
{
    let Command::New {
        picture,
        record,
        ..
    } = script.command(number)
    else {
        return None;
    };
    shared(alloc, *picture, version, record.try_clone().ok()?)
}

// A held version without a history.
fn shared(alloc: Global, picture: PicNo, version: Version, content: Record) -> Option<SharedHeld>
    ensures { IfSome result (λ held. held.version ≡ version) }
{
    let held = Held {
        picture,
        version,
        made_with: Vector::new(alloc),
        content,
    };
    SharedHeld::new(alloc, held).ok()
}

/// Whether the listing of a store with the first command's picture has that text.
pub fn is_store_listed(alloc: Global, script: &Script, number: u32, wanted: &str) -> bool {
    if script.devices() != 2 || script.commands() != 2 {
        return false;
    }
    let Some(version) = version(0, 1) else {
        return false;
    };
    let Some(beach) = held(alloc, script, 1, version) else {
        return false;
    };
    let Ok(items) = vec![in alloc; beach] else {
        return false;
    };
    let listed = Report::Listed {
        device: 0,
        store: SharedList::new(items),
        out: SharedList::new(Vec::new(alloc)),
    };
    is_reported(alloc, script, number, &listed, wanted)
}

/// Whether the listing of an out with the second command's picture, removed and then not removed, has that text.
pub fn is_out_listed(alloc: Global, script: &Script, number: u32, wanted: &str) -> bool {
    if script.devices() != 2 || script.commands() != 2 {
        return false;
    }
    let Some(version) = version(1, 100_000) else {
        return false;
    };
    let Some(old) = held(alloc, script, 2, version) else {
        return false;
    };
    let Some(removed) = shared(alloc, old.picture(), version, Record::Removed) else {
        return false;
    };
    let Ok(items) = vec![in alloc; removed, old] else {
        return false;
    };
    let listed = Report::Listed {
        device: 1,
        store: SharedList::new(Vec::new(alloc)),
        out: SharedList::new(items),
    };
    is_reported(alloc, script, number, &listed, wanted)
}
