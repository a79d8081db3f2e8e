// Tests of narrower filters, of any other filters, and of handing over.
use super::staging::held_of;
use super::steps::{Step, filter_of};
use super::{Run, is_run};
use photo_device::{Device, NarrowFault, Place};
use std::alloc::Global;

/// Whether narrowing moves that many versions to the out, or is refused because the filter doesn't cover the new one.
pub fn narrows(alloc: Global, device: &mut Device, text: &str, wanted: Option<u64>) -> bool {
    let Some(filter) = filter_of(alloc, text) else {
        return false;
    };
    match device.narrow(filter) {
        Ok(moved) => wanted == Some(moved),
        Err((_, fault)) => wanted.is_none() && fault == NarrowFault::NotNarrower,
    }
}

/// Whether the device's store and out have that many versions after it gets another filter.
pub fn refilters(alloc: Global, device: &mut Device, text: &str, wanted: (u64, u64)) -> bool {
    if device.author().epoch() == u32::MAX {
        return false;
    }
    match filter_of(alloc, text) {
        Some(filter) => matches!(device.refilter(filter), Ok(sizes) if sizes == wanted),
        None => false,
    }
}

/// Whether the device hands over its version of that number, of the picture with the same number.
pub fn hands_over(device: &mut Device, n: u32) -> bool {
    let Some(held) = held_of(device, n) else {
        return false;
    };
    let before = device.out().len();
    device.hand_over(&[held]);
    device.out().len() < before
}

const RUNS: &[Run] = &[
    (
        "what no longer matches goes to the out",
        0,
        "rating >= 2",
        &[
            Step::Make(1, Some(2), (1, Place::Store)),
            Step::Make(2, Some(3), (2, Place::Store)),
            Step::Make(3, Some(5), (3, Place::Store)),
            Step::Make(4, Some(1), (4, Place::Out)),
            Step::Narrow("rating >= 4", Some(2)),
            Step::Has(&[(3, 3)], &[(1, 1), (2, 2), (4, 4)]),
            Step::Narrow("rating >= 3", None),
            Step::Has(&[(3, 3)], &[(1, 1), (2, 2), (4, 4)]),
            Step::Make(5, Some(3), (5, Place::Out)),
            Step::Make(6, Some(4), (6, Place::Store)),
        ],
    ),
    (
        "the out hands over versions",
        0,
        "rating >= 3",
        &[
            Step::Make(1, Some(2), (1, Place::Out)),
            Step::Make(2, Some(3), (2, Place::Store)),
            Step::Make(3, Some(1), (3, Place::Out)),
            Step::HandOver(3, true),
            Step::HandOver(2, false),
            Step::HandOver(1, true),
            Step::HandOver(1, false),
            Step::Has(&[(2, 2)], &[]),
        ],
    ),
    // each version of its picture is known with its history, and no version of other pictures
    (
        "what is held is sorted anew",
        0,
        "rating >= 2",
        &[
            Step::Make(1, Some(2), (1, Place::Store)),
            Step::Make(2, Some(3), (2, Place::Store)),
            Step::Make(3, Some(1), (3, Place::Out)),
            Step::Make(2, Some(4), (4, Place::Store)),
            Step::Refilter("rating >= 3", (1, 2)),
            Step::Has(&[(2, 4)], &[(1, 1), (3, 3)]),
            Step::Is(0, 1, 0),
            Step::Knows(1, (0, 0, 1), true),
            Step::Knows(1, (0, 0, 2), false),
            Step::Knows(2, (0, 0, 2), true),
            Step::Knows(2, (0, 0, 4), true),
            Step::Knows(3, (0, 0, 3), true),
            Step::Knows(3, (0, 0, 4), false),
            Step::Knows(4, (0, 0, 1), false),
            Step::Fragments(4),
        ],
    ),
    (
        "it makes versions in its next epoch",
        0,
        "rating >= 2",
        &[
            Step::Make(1, Some(2), (1, Place::Store)),
            Step::Make(2, Some(3), (2, Place::Store)),
            Step::Refilter("rating >= 3", (1, 1)),
            Step::Make(2, Some(5), (1, Place::Store)),
            Step::Make(7, Some(3), (2, Place::Store)),
            Step::Is(0, 1, 2),
            Step::Has(&[(2, 1), (7, 2)], &[(1, 1)]),
            Step::Knows(9, (0, 1, 1), true),
            Step::Refilter("all", (3, 0)),
            Step::Is(0, 2, 0),
            Step::Knows(2, (0, 1, 1), true),
            Step::Knows(2, (0, 0, 2), true),
            Step::Knows(7, (0, 0, 2), false),
            Step::Knows(9, (0, 1, 1), false),
        ],
    ),
];

#[test]
fn filtering(rt: HostRuntime) {
    for run in RUNS {
        assert!(rt; is_run(rt.alloc(), run), "{}", run.0);
    }
}
