//! Calls of `photo_device`, and `fleet_steps::run_command`.
ghost use Rattle.std.specs.Prelude.{◌≡◌, ◌<◌, ◌==◌, ◌&&◌, ℕ, [], ◌∷◌};
ghost use Rattle.photo_version.specs.Author.{author, device_of_author};
ghost use Rattle.photo_version.specs.Version as versions;
ghost use Rattle.photo_version.specs.Vector.{denotes};
ghost use Rattle.item_knowledge.specs.Fragments.{knows};

use crate::questions;
use crate::runs::{logs, runs_command};
use item_knowledge::Knowledge;
use photo_device::{
    Change, ChangeFault, Conflict, Device, Gain, Held, HeldSet, NarrowFault, Place, Selection,
    SharedHeld, SharedList,
};
use photo_filter_rules::Filter;
use photo_record::{PicNo, Record};
use photo_version::{Author, Version};
use std::alloc::{AllocError, Global};
use tool_value_refusals::{Verdict, filter_of, judged, mark, rated, same_filter, told};

/// The verdict on a call of `photo_device`.
pub fn verdict(alloc: Global, call: &str) -> Option<Verdict> {
    match call {
        "Device::new" => new(alloc),
        "Device::make first" => on_device(alloc, 0, Call::Make),
        "Device::make" => on_device(alloc, 2, Call::Make),
        "Device::edit" => on_device(alloc, 2, Call::Edit),
        "Device::remove" => on_device(alloc, 2, Call::Remove),
        "Device::try_clone" => on_device(alloc, 4, Call::Copy),
        _ => verdict_on_others(alloc, call),
    }
}

fn verdict_on_others(alloc: Global, call: &str) -> Option<Verdict> {
    match call {
        "Device::stage" => on_device(alloc, 2, Call::Stage),
        "Device::unknown_of" => on_device(alloc, 2, Call::Ask),
        "Device::unknown_by" => on_device(alloc, 2, Call::AskLent),
        "Device::narrow" => on_device(alloc, 2, Call::Narrow),
        "Device::refilter" => on_device(alloc, 2, Call::Refilter),
        "Device::begin" => on_device(alloc, 2, Call::Begin),
        "Device::conflicts" => questions::verdict(alloc, call),
        "Held::try_clone" => on_device(alloc, 1, Call::CopyHeld),
        "SharedHeld::new" => on_device(alloc, 1, Call::Share),
        "SharedHeld::try_clone" => on_device(alloc, 1, Call::CopyShared),
        "HeldSet::to_list" => on_device(alloc, 2, Call::List),
        "IssueLog::new" => on_device(alloc, 2, Call::Log),
        _ => None,
    }
}

#[derive(Clone, Copy)]
enum Call {
    Copy,
    Make,
    Edit,
    Remove,
    Stage,
    Ask,
    AskLent,
    Narrow,
    Refilter,
    Begin,
    CopyHeld,
    Share,
    CopyShared,
    List,
    Log,
    Command,
}

/// The verdict on `fleet_steps::run_command`.
pub fn verdict_on_command(alloc: Global) -> Option<Verdict> {
    on_device(alloc, 2, Call::Command)
}

// The verdict on a call on a device that has made `count` versions.
fn on_device(alloc: Global, count: u8, call: Call) -> Option<Verdict> {
    let mut made = device(alloc, count);
    let verdict = match &mut made {
        Some(device) => beside_twin(alloc, device, count, call),
        None => None,
    };
    drop(made);
    verdict
}

fn beside_twin(alloc: Global, device: &mut Device, count: u8, call: Call) -> Option<Verdict> {
    let made = self::device(alloc, count);
    let verdict = match &made {
        Some(twin) => on_twins(alloc, device, twin, call),
        None => None,
    };
    drop(made);
    verdict
}

fn on_twins(alloc: Global, device: &mut Device, twin: &Device, call: Call) -> Option<Verdict> {
    match call {
        Call::Narrow => narrow(alloc, device, twin),
        Call::Refilter => refilter(alloc, device, twin, 1),
        Call::Begin => refilter(alloc, device, twin, 3),
        call => {
            let right = calls(alloc, device, call);
            Some(judged(right, same_device(device, twin)))
        }
    }
}

fn calls(alloc: Global, device: &mut Device, call: Call) -> Option<bool> {
    match call {
        Call::Copy => copies(alloc, device),
        Call::Make => makes(alloc, device),
        Call::Edit => edits(alloc, device),
        Call::Remove => removes(alloc, device),
        Call::Stage => stages(alloc, device),
        Call::Ask => asks(alloc, device, Call::Ask),
        Call::AskLent => asks(alloc, device, Call::AskLent),
        Call::Command => runs_command(alloc, device),
        call => calls_of_set(alloc, device.store(), call),
    }
}

fn calls_of_set(alloc: Global, set: &HeldSet, call: Call) -> Option<bool> {
    if set.is_empty() {
        return Some(false);
    }
    match call {
        Call::CopyHeld => copies_held(alloc, set.get(0)),
        Call::Share => shares(alloc, set.get(0)),
        Call::CopyShared => copies_shared(alloc, set.get(0)),
        Call::Log => logs(alloc, set),
        _ => lists(alloc, set),
    }
}

fn copies(alloc: Global, device: &Device) -> Option<bool> {
    mark(alloc);
    let made = device.try_clone();
    mark(alloc);
    let right = match &made {
        Ok(copy) => Some(same_device(copy, device)),
        Err(_) => None,
    };
    drop(made);
    right
}

fn same_held(one: &HeldSet, other: &HeldSet) -> bool {
    if one.len() != other.len() {
        return false;
    }
    for i in 0..one.len() {
        if one.get(i) != other.get(i) {
            return false;
        }
    }
    true
}

/// Whether two devices are the same, as far as the public readers show.
pub fn same_device(one: &Device, other: &Device) -> bool {
    one.author() == other.author()
        && one.counter() == other.counter()
        && same_filter(one.filter(), other.filter())
        && same_held(one.store(), other.store())
        && same_held(one.out(), other.out())
        && one.knowledge().same(other.knowledge())
}

/// Whether two lists of devices are the same, as far as the public readers show.
pub fn same_devices(devices: &[Device], others: &[Device]) -> bool {
    if devices.len() != others.len() {
        return false;
    }
    for i in 0..devices.len() {
        if !same_device(&devices[i], &others[i]) {
            return false;
        }
    }
    true
}

// Whether a version of each of the first `count` pictures was made, with falling ratings.
fn has_made_all(alloc: Global, device: &mut Device, count: u8) -> bool {
    for n in 0..count {
        if !has_made_one(alloc, device, n) {
            return false;
        }
    }
    true
}

fn has_made_one(alloc: Global, device: &mut Device, n: u8) -> bool {
    let made = rated(alloc, 5u8.saturating_sub(n));
    let right = match (&made, PicNo::new(u32::from(n) + 1)) {
        (Some(content), Some(picture)) if device.counter() < u32::MAX => {
            device.make(picture, content).is_ok()
        }
        _ => false,
    };
    drop(made);
    right
}

fn opened(alloc: Global, author: u16, text: &str) -> Option<Device> {
    match filter_of(alloc, text) {
        Some(filter) => Device::new(alloc, Author::new(author), filter).ok(),
        None => None,
    }
}

// A device with that filter that has made `count` versions, of pictures 1, 2 and so on.
fn device_of(alloc: Global, author: u16, text: &str, count: u8) -> Option<Device> {
    match opened(alloc, author, text) {
        Some(mut device) => {
            if has_made_all(alloc, &mut device, count) {
                return Some(device);
            }
            drop(device);
            None
        }
        None => None,
    }
}

/// A device that has made `count` versions, of pictures 1, 2 and so on, and keeps ratings of 4 or more.
pub fn device(alloc: Global, count: u8) -> Option<Device> {
    device_of(alloc, 0, "rating >= 4", count)
}

fn new(alloc: Global) -> Option<Verdict> {
    let made = filter_of(alloc, "rating >= 4");
    let verdict = match &made {
        Some(twin) => new_beside(alloc, twin),
        None => None,
    };
    drop(made);
    verdict
}

fn new_beside(alloc: Global, twin: &Filter) -> Option<Verdict> {
    match filter_of(alloc, "rating >= 4") {
        Some(filter) => Some(new_with(alloc, filter, twin)),
        None => None,
    }
}

fn new_with(alloc: Global, filter: Filter, twin: &Filter) -> Verdict {
    mark(alloc);
    let made = Device::new(alloc, Author::new(0), filter);
    mark(alloc);
    let verdict = match &made {
        Ok(device) => judged(Some(is_fresh(device, twin)), true),
        Err((filter, _)) => judged(None, same_filter(filter, twin)),
    };
    drop(made);
    verdict
}

fn is_fresh(device: &Device, filter: &Filter) -> bool {
    device.author() == Author::new(0)
        && device.counter() == 0
        && same_filter(device.filter(), filter)
        && device.store().is_empty()
        && device.out().is_empty()
        && device.knowledge().fragments() == 1
}

/// Whether a device has made a version of that number of that picture, and holds it at that place.
pub fn has_made(
    device: &Device,
    made: (Version, Place),
    n: u32,
    picture: PicNo,
    place: Place,
) -> bool {
    let set = match place {
        Place::Store => device.store(),
        Place::Out => device.out(),
    };
    made.0.n() == n
        && made.1 == place
        && device.counter() == n
        && set.has(picture, made.0)
        && device.knowledge().knows(picture, made.0)
}

fn makes(alloc: Global, device: &mut Device) -> Option<bool> {
    let record = rated(alloc, 4);
    let right = match &record {
        Some(content) => makes_of(alloc, device, content),
        None => None,
    };
    drop(record);
    right
}

fn makes_of(alloc: Global, device: &mut Device, content: &Record) -> Option<bool> {
    let picture = PicNo::new(9)?;
    let next = device.counter().checked_add(1)?;
    mark(alloc);
    let made = device.make(picture, content);
    mark(alloc);
    let made = made.ok()?;
    Some(has_made(device, made, next, picture, Place::Store))
}

fn edits(alloc: Global, device: &mut Device) -> Option<bool> {
    let record = rated(alloc, 1);
    let right = match &record {
        Some(content) => edits_to(alloc, device, content),
        None => None,
    };
    drop(record);
    right
}

fn edits_to(alloc: Global, device: &mut Device, content: &Record) -> Option<bool> {
    let picture = PicNo::new(1)?;
    let next = device.counter().checked_add(1)?;
    mark(alloc);
    let made = device.edit(picture, content);
    mark(alloc);
    has_changed(device, made, next, picture)
}

// Whether a change went into the out, and the device holds nothing else of the picture. `None` where memory was refused.
fn has_changed(
    device: &Device,
    made: Result<(Version, Place), ChangeFault>,
    next: u32,
    picture: PicNo,
) -> Option<bool> {
    match made {
        Ok(made) => Some(
            has_made(device, made, next, picture, Place::Out)
                && device.store().len() == 1
                && device.out().len() == 1,
        ),
        Err(ChangeFault::NoMemory) => None,
        Err(ChangeFault::NotHeld) => Some(false),
    }
}

fn removes(alloc: Global, device: &mut Device) -> Option<bool> {
    let picture = PicNo::new(1)?;
    let next = device.counter().checked_add(1)?;
    mark(alloc);
    let made = device.remove(picture);
    mark(alloc);
    has_changed(device, made, next, picture)
}

// Lends a device the knowledge of three versions of another device, and makes it take and drop nothing.
fn stages(alloc: Global, device: &mut Device) -> Option<bool> {
    if device.author().value() != 0 {
        return None;
    }
    let made = told(alloc, 7, 3);
    let right = match &made {
        Some(gain) => stages_gain(alloc, device, gain),
        None => None,
    };
    drop(made);
    right
}

// Lends a device what another one knows. `None` where memory was refused, nothing is staged, and the change came back.
fn stages_gain(alloc: Global, device: &mut Device, gain: &Knowledge) -> Option<bool>
    requires zero { device_of_author device.old.author ≡ 0 }
    requires gain { (p : ℕ) (v : versions.Version) → 0 < p
        → knows gain.now.known p v ≡ ((7 == p) && denotes ((author 1, 3) ∷ []) v) }
{
    let drops = Selection {
        stored: Vec::new(alloc),
        waiting: Vec::new(alloc),
    };
    let takes = SharedList::new(Vec::new(alloc));
    let gain = Gain::Known(gain);
    let change = Change { drops, takes, gain };
    mark(alloc);
    let done = device.stage(change, 2);
    mark(alloc);
    let right = match &done {
        Ok(()) => Some(device.staged()),
        Err((change, _)) => {
            if has_nothing_staged(device) && change.takes.is_empty() {
                None
            } else {
                Some(false)
            }
        }
    };
    drop(done);
    right
}

// Whether a device equals its twin and has nothing staged.
fn is_as_before(device: &Device, twin: &Device) -> bool {
    same_device(device, twin) && has_nothing_staged(device)
}

fn narrow(alloc: Global, device: &mut Device, twin: &Device) -> Option<Verdict> {
    match filter_of(alloc, "rating >= 5") {
        Some(filter) => Some(narrows(alloc, device, filter, twin)),
        None => None,
    }
}

fn narrows(alloc: Global, device: &mut Device, filter: Filter, twin: &Device) -> Verdict {
    mark(alloc);
    let moved = device.narrow(filter);
    mark(alloc);
    let verdict = match &moved {
        Ok(count) => judged(Some(*count == 1 && has_moved(device)), true),
        Err((filter, NarrowFault::NoMemory)) => {
            judged(None, same_device(device, twin) && is_five(alloc, filter))
        }
        Err(_) => Verdict::Wrong,
    };
    drop(moved);
    verdict
}

fn refilter(alloc: Global, device: &mut Device, twin: &Device, epoch: u32) -> Option<Verdict> {
    match filter_of(alloc, "rating >= 5") {
        Some(filter) => refilters(alloc, device, filter, twin, epoch),
        None => None,
    }
}

// Gives a device in its first epoch a filter that matches the first of its two versions: `refilter` begins the next epoch, and
// `begin` a later one.
fn refilters(
    alloc: Global,
    device: &mut Device,
    filter: Filter,
    twin: &Device,
    epoch: u32,
) -> Option<Verdict> {
    if device.author().epoch() != 0 || epoch == 0 {
        drop(filter);
        return None;
    }
    mark(alloc);
    let sizes = match epoch {
        1 => device.refilter(filter),
        _ => device.begin(epoch, filter),
    };
    mark(alloc);
    let verdict = match &sizes {
        Ok(sizes) => judged(
            Some(*sizes == (1, 1) && has_begun_anew(alloc, device, epoch)),
            true,
        ),
        Err((filter, _)) => judged(None, is_as_before(device, twin) && is_five(alloc, filter)),
    };
    drop(sizes);
    Some(verdict)
}

// Whether a device is in that epoch, has made nothing in it, and knows each of its two versions only of the version's
// picture.
fn has_begun_anew(alloc: Global, device: &Device, epoch: u32) -> bool {
    device.author() == Author::at(0, epoch)
        && device.counter() == 0
        && has_moved(device)
        && device.knowledge().fragments() == 3
        && has_nothing_staged(device)
        && is_five(alloc, device.filter())
}

// Whether nothing is staged on a device or on its knowledge.
fn has_nothing_staged(device: &Device) -> bool {
    !device.staged() && !device.knowledge().staged()
}

fn has_moved(device: &Device) -> bool {
    device.store().len() == 1 && device.out().len() == 1
}

fn is_five(alloc: Global, filter: &Filter) -> bool {
    let made = filter_of(alloc, "rating >= 5");
    let right = match &made {
        Some(twin) => same_filter(filter, twin),
        None => false,
    };
    drop(made);
    right
}

/// Whether a device finds that it holds two versions of picture 7, and no other conflict. `None` where memory was refused.
pub fn finds_conflicts(alloc: Global, device: &Device) -> Option<bool> {
    mark(alloc);
    let found = device.conflicts();
    mark(alloc);
    let right = match &found {
        Ok(found) => Some(are_of_seven(found)),
        Err(_) => None,
    };
    drop(found);
    right
}

fn are_of_seven(found: &[Conflict]) -> bool {
    match found {
        [conflict] => conflict.picture.value() == 7 && conflict.versions.len() == 2,
        _ => false,
    }
}

fn copies_held(alloc: Global, held: &Held) -> Option<bool> {
    mark(alloc);
    let made = held.try_clone();
    mark(alloc);
    let right = match &made {
        Ok(copy) => Some(*copy == *held),
        Err(_) => None,
    };
    drop(made);
    right
}

fn shares(alloc: Global, held: &Held) -> Option<bool> {
    match held.try_clone() {
        Ok(copy) => shares_copy(alloc, copy, held),
        Err(_) => None,
    }
}

fn shares_copy(alloc: Global, copy: Held, held: &Held) -> Option<bool> {
    mark(alloc);
    let made = SharedHeld::new(alloc, copy);
    mark(alloc);
    let right = is_shared(&made, held);
    drop(made);
    right
}

// Whether the shared version that was made is that version. `None` where memory was refused.
fn is_shared(made: &Result<SharedHeld, AllocError>, held: &Held) -> Option<bool> {
    match made {
        Ok(shared) => Some(shared.as_held() == held),
        Err(_) => None,
    }
}

fn copies_shared(alloc: Global, held: &Held) -> Option<bool> {
    match held.try_clone() {
        Ok(copy) => copies_shared_copy(alloc, copy, held),
        Err(_) => None,
    }
}

fn copies_shared_copy(alloc: Global, copy: Held, held: &Held) -> Option<bool> {
    let shared = SharedHeld::new(alloc, copy);
    let right = match &shared {
        Ok(shared) => copies_of_shared(alloc, shared, held),
        Err(_) => None,
    };
    drop(shared);
    right
}

fn copies_of_shared(alloc: Global, shared: &SharedHeld, held: &Held) -> Option<bool> {
    mark(alloc);
    let made = shared.try_clone();
    mark(alloc);
    let right = is_shared(&made, held);
    drop(made);
    right
}

fn lists(alloc: Global, set: &HeldSet) -> Option<bool> {
    mark(alloc);
    let made = set.to_list();
    mark(alloc);
    let right = match &made {
        Ok(list) => Some(set.len() == 2 && are_those_of(list.as_slice(), set)),
        Err(_) => None,
    };
    drop(made);
    right
}

// Asks a device what it doesn't know of another one's store.
fn asks(alloc: Global, device: &mut Device, call: Call) -> Option<bool> {
    // The other device has made two versions.
    let made = device_of(alloc, 1, "all", 2);
    let right = match &made {
        Some(other) => asks_for(alloc, device, other, call),
        None => None,
    };
    drop(made);
    right
}

fn asks_for(alloc: Global, device: &mut Device, other: &Device, call: Call) -> Option<bool> {
    match call {
        Call::Ask => asks_of(alloc, device, other.store()),
        _ => asks_lent(alloc, device, other.store()),
    }
}

fn asks_of(alloc: Global, device: &mut Device, set: &HeldSet) -> Option<bool> {
    mark(alloc);
    let found = device.unknown_of(alloc, set);
    mark(alloc);
    let right = is_all_of(&found, set);
    drop(found);
    right
}

fn asks_lent(alloc: Global, device: &Device, set: &HeldSet) -> Option<bool> {
    mark(alloc);
    let found = device.unknown_by(alloc, set);
    mark(alloc);
    let right = is_all_of(&found, set);
    drop(found);
    right
}

// Whether exactly all versions of a set were found. `None` where memory was refused.
fn is_all_of(found: &Result<Vec<SharedHeld>, AllocError>, set: &HeldSet) -> Option<bool> {
    match found {
        Ok(found) => Some(are_those_of(found, set)),
        Err(_) => None,
    }
}

fn are_those_of(found: &[SharedHeld], set: &HeldSet) -> bool {
    if found.len() != set.len() {
        return false;
    }
    for i in 0..found.len() {
        if found[i].as_held() != set.get(i) {
            return false;
        }
    }
    true
}
