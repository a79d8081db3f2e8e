//! Calls on what is staged on a device, on what it hands over, and on the knowledge that it is given.
ghost use Rattle.std.specs.Prelude.{◌≡◌, ◌<◌, ◌==◌, ◌&&◌, ℕ, [], ◌∷◌, length, if◌then◌else◌};
ghost use Rattle.photo_version.specs.Author as authors;
ghost use Rattle.photo_version.specs.Version as versions;
ghost use Rattle.photo_version.specs.Vector.{denotes};
ghost use Rattle.item_knowledge.specs.Fragments.{knows};
ghost use Rattle.item_knowledge.specs.Kept.{star_bound};

use crate::devices::{has_made, opened};
use item_knowledge::Knowledge;
use photo_device::laws::with_knowledge;
use photo_device::{Change, Device, Gain, Selection, SharedList};
use photo_record::PicNo;
use photo_version::{Author, Version};
use std::alloc::Global;
use tool_value_counts::first_known;
use tool_value_refusals::told;

fn stages(alloc: Global, device: &mut Device, gain: &Knowledge) -> bool
    requires { (p : ℕ) (v : versions.Version) → 0 < p
        → knows gain.now.known p v ≡ ((7 == p) && denotes ((authors.author 1, 3) ∷ []) v) }
{
    if device.author().value() != 0 {
        return false;
    }
    stages_gain(alloc, device, gain)
}

fn stages_gain(alloc: Global, device: &mut Device, gain: &Knowledge) -> bool
    requires zero { authors.device_of_author device.old.author ≡ 0 }
    requires gain { (p : ℕ) (v : versions.Version) → 0 < p
        → knows gain.now.known p v ≡ ((7 == p) && denotes ((authors.author 1, 3) ∷ []) v) }
{
    let drops = Selection {
        stored: Vec::new(alloc),
        waiting: Vec::new(alloc),
    };
    let takes = SharedList::new(Vec::new(alloc));
    let gain = Gain::Known(gain);
    device.stage(Change { drops, takes, gain }, 0).is_ok()
}

fn stages_another(alloc: Global, device: &mut Device) -> bool {
    let made = told(alloc, 7, 3);
    let right = match &made {
        Some(gain) => stages(alloc, device, gain),
        None => false,
    };
    drop(made);
    right
}

/// `hand_over`; and, on a device with another's knowledge staged, `staged`, `unstage`, whose first round drops what is staged,
/// and `commit`, once if any calls are asked for.
pub fn answer(alloc: Global, device: &mut Device, group: &str, times: u32) -> Option<bool> {
    if group == "handing" {
        return Some(has_made(alloc, device, 1_000, 2) && hands(device, times));
    }
    if !stages_another(alloc, device) {
        return None;
    }
    Some(match group {
        "staged" => is_staged(device, times),
        "unstage" => unstages(device, times),
        _ => times == 0 || commits(alloc, device),
    })
}

fn is_staged(device: &Device, times: u32) -> bool {
    for _ in 0..times {
        if !device.staged() {
            return false;
        }
    }
    true
}

fn unstages(device: &mut Device, times: u32) -> bool {
    for _ in 0..times {
        device.unstage();
    }
    device.staged() == (times == 0)
}

fn commits(alloc: Global, device: &mut Device) -> bool {
    if !device.staged() {
        return false;
    }
    device.commit(Vec::new(alloc));
    !device.staged() && device.knowledge().fragments() == 2
}

// Each round hands over one of a thousand versions in the out.
fn hands(device: &mut Device, times: u32) -> bool {
    for n in 0..times {
        if !is_handed(device, n + 1) {
            return false;
        }
    }
    true
}

fn is_handed(device: &mut Device, n: u32) -> bool {
    let (Some(picture), Some(version)) = (PicNo::new(n), Version::new(Author::new(0), n)) else {
        return false;
    };
    let before = device.out().len();
    let Some(held) = device.out().of(picture, version) else {
        return false;
    };
    let Ok(held) = held.try_clone() else {
        return false;
    };
    device.hand_over(&[held]);
    device.out().len() < before
}

/// `with_knowledge`, once if any calls are asked for.
pub fn answer_given(alloc: Global, times: u32) -> Option<bool> {
    match opened(alloc, 1) {
        Some(device) => Some(is_given(alloc, device, times)),
        None => None,
    }
}

fn is_given(alloc: Global, device: Device, times: u32) -> bool {
    match first_known(alloc) {
        Some(knowledge) => is_given_one(device, knowledge, times),
        None => {
            drop(device);
            false
        }
    }
}

fn is_given_one(device: Device, knowledge: Knowledge, times: u32) -> bool
    requires star { (a : authors.Author) → star_bound knowledge.known a ≡ (if authors.same_author (authors.author 0) a then 1 else 0) }
    requires known { (p : ℕ) (v : versions.Version) → 0 < p
        → knows knowledge.known p v ≡ versions.same_version (versions.version (authors.author 0) 1) v }
{
    let is_first = device.author().value() == 0;
    if is_first || device.counter() != 0 || !device.store().is_empty() || !device.out().is_empty() {
        drop(device);
        drop(knowledge);
        return false;
    }
    if times == 0 {
        drop(device);
        drop(knowledge);
        return true;
    }
    is_given_first(device, knowledge)
}

fn is_given_first(device: Device, knowledge: Knowledge) -> bool
    requires other { 0 < authors.device_of_author device.author }
    requires none { device.counter ≡ 0 }
    requires store { length device.store ≡ 0 }
    requires out { length device.out ≡ 0 }
    requires star { (a : authors.Author) → star_bound knowledge.known a ≡ (if authors.same_author (authors.author 0) a then 1 else 0) }
    requires known { (p : ℕ) (v : versions.Version) → 0 < p
        → knows knowledge.known p v ≡ versions.same_version (versions.version (authors.author 0) 1) v }
{
    let given = with_knowledge(device, knowledge);
    let right = given.knowledge().fragments() == 1;
    drop(given);
    right
}
