// Tests of a device that is asked what it doesn't know of another one's store.
use super::changing::makes;
use super::steps::{Step, are, opened};
use super::{Run, is_run};
use photo_device::{Device, HeldSet, Place};
use std::alloc::Global;

/// The pictures that the device makes, those that the other one makes, and what the device then doesn't know of the other's
/// store.
pub type Round = (&'static [u32], &'static [u32], &'static [(u32, u32)]);

/// Whether the device and another one, of that number, make pictures and answer as the rounds say.
pub fn asks(alloc: Global, device: &mut Device, author: u16, rounds: &[Round]) -> bool {
    let mut other = opened(alloc, author, "all");
    asks_one(alloc, device, &mut other, rounds)
}

fn asks_one(
    alloc: Global,
    device: &mut Device,
    other: &mut Option<Device>,
    rounds: &[Round],
) -> bool {
    match other {
        Some(other) => asks_all(alloc, device, other, rounds),
        None => false,
    }
}

fn asks_all(alloc: Global, device: &mut Device, other: &mut Device, rounds: &[Round]) -> bool {
    for (mine, theirs, unknown) in rounds {
        if !makes_all(alloc, device, mine)
            || !makes_all(alloc, other, theirs)
            || !is_unknown(alloc, device, other.store(), unknown)
        {
            return false;
        }
    }
    true
}

fn makes_all(alloc: Global, device: &mut Device, pictures: &[u32]) -> bool {
    for number in pictures {
        let n = device.counter().saturating_add(1);
        if !makes(alloc, device, *number, Some(3), (n, Place::Store)) {
            return false;
        }
    }
    true
}

// Whether exactly these versions of a set are new to the device, both where it notes the answer and where it doesn't; it is
// asked three times.
fn is_unknown(alloc: Global, device: &mut Device, set: &HeldSet, wanted: &[(u32, u32)]) -> bool {
    for _ in 0..3u8 {
        if !matches!(device.unknown_by(alloc, set), Ok(found) if are(&found, wanted)) {
            return false;
        }
        if !matches!(device.unknown_of(alloc, set), Ok(found) if are(&found, wanted)) {
            return false;
        }
    }
    true
}

const RUNS: &[Run] = &[
    // the other device has the same author, so the device knows its versions up to its own last one
    (
        "a device knows what it made as another holds it",
        3,
        "all",
        &[Step::Ask(
            3,
            &[
                (&[1, 2, 3], &[1, 2, 3], &[]),
                (&[], &[9, 2], &[(2, 5), (9, 4)]),
                (&[7], &[], &[(2, 5)]),
                (&[7], &[], &[]),
            ],
        )],
    ),
    (
        "a device knows nothing of another",
        3,
        "all",
        &[Step::Ask(
            4,
            &[
                (&[], &[], &[]),
                (&[1, 2, 3], &[1, 2, 3], &[(1, 1), (2, 2), (3, 3)]),
            ],
        )],
    ),
];

#[test]
fn asking(rt: HostRuntime) {
    for run in RUNS {
        assert!(rt; is_run(rt.alloc(), run), "{}", run.0);
    }
}
