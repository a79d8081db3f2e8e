// Tests of staged changes and of copies of devices.
ghost use Rattle.std.specs.Prelude.{◌≡◌, true, false, [], ◌∷◌, IfSome};
ghost use Rattle.std.specs.List.{AllByRecursion};
ghost use Rattle.photo_device.specs.Held.{has_version_of};

use super::changing::makes;
use super::steps::Step;
use super::{Run, is_run};
use item_knowledge::Knowledge;
use photo_device::{Change, Device, Gain, Place, Selection, SharedHeld, SharedList};
use photo_record::PicNo;
use photo_version::Version;
use std::alloc::Global;

/// Whether the device stores its version of that number, of the picture with the same number, and stages dropping it,
/// with capacity for `room` more.
pub fn stages(alloc: Global, device: &mut Device, n: u32, room: usize) -> bool {
    let Some(held) = held_of(device, n) else {
        return false;
    };
    if !device.store().has(held.picture(), held.version()) {
        return false;
    }
    let Some(stored) = one(alloc, held) else {
        return false;
    };
    let drops = Selection {
        stored,
        waiting: Vec::new(alloc),
    };
    stages_drops(alloc, device, drops, room)
}

/// Whether the device stages dropping a version of its store and one of its out, each of the picture with its number.
pub fn stages_both(alloc: Global, device: &mut Device, in_store: u32, in_out: u32) -> bool {
    let (Some(held), Some(other)) = (held_of(device, in_store), held_of(device, in_out)) else {
        return false;
    };
    if !device.store().has(held.picture(), held.version()) {
        return false;
    }
    if !device.out().has(other.picture(), other.version()) {
        return false;
    }
    let (Some(stored), Some(waiting)) = (one(alloc, held), one(alloc, other)) else {
        return false;
    };
    stages_drops(alloc, device, Selection { stored, waiting }, 0)
}

/// The device's version of that number, of the picture with the same number, if it holds it.
pub fn held_of(device: &Device, n: u32) -> Option<SharedHeld> {
    let version = Version::new(device.author(), n)?;
    device.held_of(PicNo::new(n)?, version)?.try_clone().ok()
}

// A list of one version.
fn one(alloc: Global, held: SharedHeld) -> Option<Vec<SharedHeld>>
    ensures { IfSome result (λ list. list.items ≡ held ∷ []) }
{
    let mut list = Vec::new(alloc);
    list.push(held).ok()?;
    Some(list)
}

// Whether the device stages dropping those versions, and takes and learns nothing.
fn stages_drops(alloc: Global, device: &mut Device, drops: Selection, room: usize) -> bool
    requires stored { AllByRecursion (λ h. has_version_of h.picture h.version device.old.store ≡ true) drops.stored.items }
    requires waiting { AllByRecursion (λ h. has_version_of h.picture h.version device.old.out ≡ true) drops.waiting.items }
{
    match Knowledge::new(alloc) {
        Ok(known) => {
            let takes = SharedList::new(Vec::new(alloc));
            let gain = Gain::Known(&known);
            let change = Change { drops, takes, gain };
            device.stage(change, room).is_ok()
        }
        Err(_) => false,
    }
}

/// Whether the device commits what is staged, if anything is.
pub fn commits(alloc: Global, device: &mut Device) -> bool {
    if !device.staged() {
        return false;
    }
    device.commit(Vec::new(alloc));
    !device.staged()
}

/// Whether a copy of a device that has made five versions knows the same, has nothing staged, and makes a sixth version that
/// the device doesn't know.
pub fn copies(alloc: Global, device: &Device) -> bool {
    match device.try_clone() {
        Ok(mut copy) => goes_its_own_way(alloc, device, &mut copy),
        Err(_) => false,
    }
}

fn goes_its_own_way(alloc: Global, device: &Device, copy: &mut Device) -> bool {
    copy.knowledge().same(device.knowledge())
        && !copy.staged()
        && makes(alloc, copy, 3, Some(0), (6, Place::Out))
        && !copy.knowledge().same(device.knowledge())
}

const RUNS: &[Run] = &[
    (
        "a change is dropped by the next one",
        0,
        "all",
        &[
            Step::Make(1, Some(5), (1, Place::Store)),
            Step::Make(2, Some(5), (2, Place::Store)),
            Step::Make(3, Some(5), (3, Place::Store)),
            Step::Stage(2, 0, true),
            Step::IsStaged(true),
            Step::Has(&[(1, 1), (2, 2), (3, 3)], &[]),
            Step::Make(4, Some(5), (4, Place::Store)),
            Step::IsStaged(false),
            Step::Has(&[(1, 1), (2, 2), (3, 3), (4, 4)], &[]),
        ],
    ),
    (
        "a change is committed",
        1,
        "all",
        &[
            Step::Make(1, Some(5), (1, Place::Store)),
            Step::Make(2, Some(5), (2, Place::Store)),
            Step::Make(3, Some(5), (3, Place::Store)),
            Step::Stage(2, 0, true),
            Step::Has(&[(1, 1), (2, 2), (3, 3)], &[]),
            Step::Commit,
            Step::IsStaged(false),
            Step::Has(&[(1, 1), (3, 3)], &[]),
            Step::Holds(2, None),
            Step::Stage(2, 0, false),
        ],
    ),
    (
        "nothing stays staged in what is known",
        0,
        "all",
        &[
            Step::Make(1, Some(5), (1, Place::Store)),
            Step::Make(2, Some(5), (2, Place::Store)),
            Step::Make(3, Some(5), (3, Place::Store)),
            Step::Stage(2, 0, true),
            Step::Narrow("rating >= 4", Some(0)),
            Step::IsStaged(false),
            Step::Stage(2, 0, true),
            Step::HandOver(2, false),
            Step::IsStaged(false),
            Step::Stage(2, usize::MAX, false),
            Step::IsStaged(false),
            Step::Has(&[(1, 1), (2, 2), (3, 3)], &[]),
        ],
    ),
    (
        "a copy goes its own way",
        2,
        "rating >= 3",
        &[
            Step::Make(1, Some(5), (1, Place::Store)),
            Step::Make(2, Some(1), (2, Place::Out)),
            Step::Make(3, Some(4), (3, Place::Store)),
            Step::Make(4, Some(2), (4, Place::Out)),
            Step::Make(5, Some(5), (5, Place::Store)),
            Step::Stage(3, 0, true),
            Step::Copy,
            Step::IsStaged(true),
            Step::Is(2, 0, 5),
            Step::Has(&[(1, 1), (3, 3), (5, 5)], &[(2, 2), (4, 4)]),
            Step::Knows(9, (2, 0, 5), true),
            Step::Knows(9, (2, 0, 6), false),
        ],
    ),
    (
        "what is dropped leaves the store and the out",
        0,
        "rating >= 3",
        &[
            Step::Make(1, Some(5), (1, Place::Store)),
            Step::Make(2, Some(1), (2, Place::Out)),
            Step::Make(3, Some(4), (3, Place::Store)),
            Step::Make(4, Some(2), (4, Place::Out)),
            Step::Make(5, Some(5), (5, Place::Store)),
            Step::StageBoth(3, 2, true),
            Step::Has(&[(1, 1), (3, 3), (5, 5)], &[(2, 2), (4, 4)]),
            Step::Commit,
            Step::Has(&[(1, 1), (5, 5)], &[(4, 4)]),
        ],
    ),
    (
        "what stands elsewhere isn't given up",
        0,
        "rating >= 3",
        &[
            Step::Make(1, Some(5), (1, Place::Store)),
            Step::Make(2, Some(1), (2, Place::Out)),
            Step::StageBoth(2, 1, false),
            Step::StageBoth(1, 2, true),
            Step::Commit,
            Step::Has(&[], &[]),
        ],
    ),
];

#[test]
fn staging(rt: HostRuntime) {
    for run in RUNS {
        assert!(rt; is_run(rt.alloc(), run), "{}", run.0);
    }
}
