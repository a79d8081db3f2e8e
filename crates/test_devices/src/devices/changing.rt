// Tests of new versions, edits and removals.
use super::steps::{Step, content_of};
use super::{Run, is_run};
use photo_device::{ChangeFault, Device, Place};
use photo_record::PicNo;
use photo_version::Version;
use std::alloc::Global;

/// The number and the place of the version that is made, or why none is.
pub type Changed = Result<(u32, Place), ChangeFault>;

/// Whether the device makes that version of a picture with a rating.
pub fn makes(
    alloc: Global,
    device: &mut Device,
    number: u32,
    rating: Option<u8>,
    (n, wanted): (u32, Place),
) -> bool {
    let (Some(picture), Some(content)) = (PicNo::new(number), content_of(alloc, rating)) else {
        return false;
    };
    if device.counter() == u32::MAX {
        return false;
    }
    match device.make(picture, &content) {
        Ok((version, place)) => {
            Version::new(device.author(), n) == Some(version) && place == wanted
        }
        Err(_) => false,
    }
}

/// Whether an edit of a picture has that result.
pub fn edits(alloc: Global, device: &mut Device, number: u32, rating: u8, wanted: Changed) -> bool {
    let (Some(picture), Some(content)) = (PicNo::new(number), content_of(alloc, Some(rating)))
    else {
        return false;
    };
    if device.counter() == u32::MAX {
        return false;
    }
    told(device.edit(picture, &content)) == wanted
}

/// Whether the removal of a picture has that result.
pub fn removes(device: &mut Device, number: u32, wanted: Changed) -> bool {
    match PicNo::new(number) {
        Some(picture) if device.counter() < u32::MAX => told(device.remove(picture)) == wanted,
        _ => false,
    }
}

fn told(change: Result<(Version, Place), ChangeFault>) -> Changed {
    match change {
        Ok((version, place)) => Ok((version.n(), place)),
        Err(fault) => Err(fault),
    }
}

/// Whether that is the text of the fault `NotHeld`.
pub fn is_shown(alloc: Global, wanted: &str) -> bool {
    match ChangeFault::NotHeld.to_string(alloc) {
        Ok(text) => text.as_str() == wanted,
        Err(_) => false,
    }
}

// The version that removes a picture goes to the out, whatever the filter is.
const REMOVED: &[Step] = &[
    Step::Make(7, None, (1, Place::Out)),
    Step::Has(&[], &[(7, 1)]),
    Step::Holds(1, Some((7, None))),
];

const RUNS: &[Run] = &[
    ("a removed picture", 0, "all", REMOVED),
    ("a removed picture", 0, "not none", REMOVED),
    ("a removed picture", 0, "not all", REMOVED),
    ("a removed picture", 0, "rating >= 0", REMOVED),
    (
        "an edit goes where its record belongs",
        0,
        "rating >= 2",
        &[
            Step::Make(7, Some(5), (1, Place::Store)),
            Step::Edit(7, 1, Ok((2, Place::Out))),
            Step::Edit(7, 0, Ok((3, Place::Out))),
            Step::Edit(7, 4, Ok((4, Place::Store))),
            Step::Has(&[(7, 4)], &[]),
        ],
    ),
    (
        "a removed version is held",
        0,
        "all",
        &[
            Step::Make(7, Some(5), (1, Place::Store)),
            Step::Remove(7, Ok((2, Place::Out))),
            Step::Remove(7, Ok((3, Place::Out))),
            Step::Has(&[], &[(7, 3)]),
        ],
    ),
    (
        "what is not held stays so",
        0,
        "all",
        &[
            Step::Make(8, Some(5), (1, Place::Store)),
            Step::Edit(7, 5, Err(ChangeFault::NotHeld)),
            Step::Remove(7, Err(ChangeFault::NotHeld)),
            Step::Is(0, 0, 1),
            Step::Has(&[(8, 1)], &[]),
        ],
    ),
];

#[test]
fn changing(rt: HostRuntime) {
    for run in RUNS {
        assert!(rt; is_run(rt.alloc(), run), "{}", run.0);
    }
}
