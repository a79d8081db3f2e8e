// Tests of the versions that a device makes and of what it knows of them.
use super::steps::Step;
use super::{Run, is_run};
use photo_device::Place;

const RUNS: &[Run] = &[
    (
        "a new device holds nothing",
        2,
        "rating >= 3",
        &[
            Step::Is(2, 0, 0),
            Step::Has(&[], &[]),
            Step::Fragments(1),
            Step::Finds(1, (2, 1), false),
            Step::GoneOver(0, 0),
        ],
    ),
    (
        "versions are numbered, and listed by picture",
        2,
        "all",
        &[
            Step::Make(7, Some(5), (1, Place::Store)),
            Step::Make(3, Some(4), (2, Place::Store)),
            Step::Make(999_999_999, Some(0), (3, Place::Store)),
            Step::Make(5, Some(1), (4, Place::Store)),
            Step::Is(2, 0, 4),
            Step::Has(&[(3, 2), (5, 4), (7, 1), (999_999_999, 3)], &[]),
            Step::Holds(1, Some((7, Some(5)))),
            Step::Holds(2, Some((3, Some(4)))),
            Step::Holds(3, Some((999_999_999, Some(0)))),
            Step::Holds(4, Some((5, Some(1)))),
            Step::Holds(5, None),
        ],
    ),
    (
        "versions are found",
        2,
        "all",
        &[
            Step::Make(5, Some(4), (1, Place::Store)),
            Step::Make(9, Some(1), (2, Place::Store)),
            Step::Make(3, Some(5), (3, Place::Store)),
            Step::Make(999_999_999, Some(0), (4, Place::Store)),
            Step::Finds(5, (2, 1), true),
            Step::Finds(9, (2, 2), true),
            Step::Finds(3, (2, 3), true),
            Step::Finds(999_999_999, (2, 4), true),
            Step::Finds(3, (2, 1), false),
            Step::Finds(5, (2, 2), false),
            Step::Finds(5, (1, 1), false),
            Step::Finds(10, (2, 2), false),
            Step::Finds(1, (2, 5), false),
        ],
    ),
    (
        "a version takes the place of the one before",
        0,
        "all",
        &[
            Step::Make(7, Some(3), (1, Place::Store)),
            Step::Make(8, Some(4), (2, Place::Store)),
            Step::Make(7, Some(1), (3, Place::Store)),
            Step::Has(&[(7, 3), (8, 2)], &[]),
            Step::Holds(1, None),
            Step::Holds(3, Some((7, Some(1)))),
        ],
    ),
    (
        "a version below the filter goes to the out",
        1,
        "rating >= 3",
        &[
            Step::Make(8, Some(2), (1, Place::Out)),
            Step::Make(7, Some(3), (2, Place::Store)),
            Step::Make(6, Some(0), (3, Place::Out)),
            Step::Make(9, Some(5), (4, Place::Store)),
            Step::Has(&[(7, 2), (9, 4)], &[(6, 3), (8, 1)]),
            Step::Holds(1, Some((8, Some(2)))),
            Step::Finds(8, (1, 1), false),
            Step::Finds(7, (1, 2), true),
        ],
    ),
    (
        "a picture is held in one place",
        0,
        "not rating <= 2",
        &[
            Step::Make(7, Some(4), (1, Place::Store)),
            Step::Has(&[(7, 1)], &[]),
            Step::Make(7, Some(1), (2, Place::Out)),
            Step::Has(&[], &[(7, 2)]),
            Step::Holds(1, None),
            Step::Make(7, Some(2), (3, Place::Out)),
            Step::Has(&[], &[(7, 3)]),
            Step::Make(7, Some(3), (4, Place::Store)),
            Step::Has(&[(7, 4)], &[]),
            Step::Make(7, Some(5), (5, Place::Store)),
            Step::Has(&[(7, 5)], &[]),
            Step::Holds(4, None),
        ],
    ),
    (
        "a device knows what it made",
        3,
        "rating >= 3",
        &[
            Step::Knows(7, (3, 0, 1), false),
            Step::Fragments(1),
            Step::Make(7, Some(5), (1, Place::Store)),
            Step::Make(8, Some(1), (2, Place::Out)),
            Step::Make(9, Some(0), (3, Place::Out)),
            Step::Knows(1, (3, 0, 3), true),
            Step::Knows(7, (3, 0, 3), true),
            Step::Knows(999_999_999, (3, 0, 3), true),
            Step::Knows(1, (3, 0, 4), false),
            Step::Knows(7, (3, 0, 4), false),
            Step::Knows(8, (3, 0, 4), false),
            Step::Knows(1, (2, 0, 1), false),
            Step::Knows(7, (2, 0, 1), false),
            Step::Fragments(1),
            Step::MadeWith(1, 0),
            Step::MadeWith(2, 1),
            Step::MadeWith(3, 2),
        ],
    ),
    (
        "a history has what was replaced",
        3,
        "all",
        &[
            Step::Make(7, Some(5), (1, Place::Store)),
            Step::Make(7, Some(4), (2, Place::Store)),
            Step::Make(7, Some(3), (3, Place::Store)),
            Step::Holds(2, None),
            Step::MadeWith(3, 2),
        ],
    ),
];

#[test]
fn making(rt: HostRuntime) {
    for run in RUNS {
        assert!(rt; is_run(rt.alloc(), run), "{}", run.0);
    }
}
