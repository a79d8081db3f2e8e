//! Whether a device stores exactly what its filter selects of the newest versions that it knows.
ghost use Rattle.std.specs.Prelude.{◌≡◌, ◌||◌, Some};
ghost use Rattle.std.specs.List.{list_all};
ghost use Rattle.fleet_audit.specs.Current.{is_outdated};
ghost use Rattle.photo_device.specs.Held.{entries_of};
ghost use Rattle.photo_model.specs.Device.{ModelDevice};
ghost use Rattle.photo_device.specs.Device.{Shows};
ghost use Rattle.fleet_model.specs.Sound as sound;
ghost use Rattle.fleet_audit.specs.Audited.{has, is_placed, is_wanted};

use crate::current::{current_of, is_outdated};
use crate::stretch::stretch_len;
use fleet_steps::IssueLog;
use photo_device::{Device, Held, HeldSet, SharedHeld};

/// Whether a device stores exactly what it should store of a log.
pub fn is_sound(device: &Device, log: &IssueLog) -> bool
    ensures { (m : ModelDevice) → Shows device.now m → result ≡ sound.is_sound (entries_of log.now) m }
{
    // `by_picture()` is called because its contract says that the index has the log's versions, and `store()` because its
    // contract states the invariants of every device.
    let _versions = log.by_picture();
    let _store = device.store();
    stores_wanted(device, log) && stores_nothing_else(device, log)
}

// Whether the device stores every version that it knows and selects and of which it knows none newer.
fn stores_wanted(device: &Device, log: &IssueLog) -> bool
    ensures { result ≡ list_all (λ h. is_outdated (Some device.now) log.now h || is_placed device.now h) log.now }
{
    let mut rest = log.by_picture();
    while !rest.is_empty() {
        let (stretch, others) = rest.split_at(stretch_len(rest));
        if !are_placed(device, current_of(Some(device), log, stretch)) {
            return false;
        }
        rest = others;
    }
    true
}

fn are_placed(device: &Device, helds: &[SharedHeld]) -> bool
    ensures { result ≡ list_all (is_placed device.now) helds.now }
{
    helds.iter().all(|held| is_placed(device, held.as_held()))
}

// Whether the device doesn't know the version, doesn't select it, or stores it.
fn is_placed(device: &Device, held: &Held) -> bool
    ensures { result ≡ is_placed device.now held.now }
{
    if !device.knowledge().knows(held.picture, held.version) {
        return true;
    }
    !device.filter().matches(&held.content) || has(device.store(), held)
}

// Whether a set has the version. It searches by picture first.
fn has(store: &HeldSet, held: &Held) -> bool
    ensures { result ≡ has store.now held.now.version }
{
    store.has(held.picture, held.version) || store.find(held.version).is_some()
}

// Whether the device stores only versions that it knows and selects and of which it knows none newer.
fn stores_nothing_else(device: &Device, log: &IssueLog) -> bool
    ensures { result ≡ list_all (is_wanted log.now device.now) device.now.store }
{
    for block in device.store().blocks() {
        if !are_wanted(device, log, block) {
            return false;
        }
    }
    true
}

fn are_wanted(device: &Device, log: &IssueLog, helds: &[SharedHeld]) -> bool
    ensures { result ≡ list_all (is_wanted log.now device.now) helds.now }
{
    helds
        .iter()
        .all(|held| is_wanted(device, log, held.as_held()))
}

fn is_wanted(device: &Device, log: &IssueLog, held: &Held) -> bool
    ensures { result ≡ is_wanted log.now device.now held.now }
{
    device.knowledge().knows(held.picture, held.version)
        && device.filter().matches(&held.content)
        && !is_outdated(Some(device), log, held)
}
