//! Tests of scripts that make, edit and remove versions.
use super::memory::runs;

pub const VERSIONS: &[(&str, &str)] = &[
    (
        "device a rating >= 2\nnew a 7 5 2024-01-01 -\nedit a 7 1 2024-01-01 -\nremove a 7\nedit a 7 4 2024-01-01 -\nremove a 9\nlist a\n",
        "1 made a:1 store\n2 made a:2 out\n3 made a:3 out\n4 made a:4 store\n5 refused C1 NotHeld\n6 list a store 1 out 0\n  store 7 a:4 rating 4 day 2024-01-01 words -\n",
    ),
    // devices don't hold each other's versions, and a refused command makes no version
    (
        "device a all\ndevice b all\nnew a 7 5 2024-01-01 -\nedit b 7 5 2024-01-01 -\nremove b 7\nnew b 8 5 2024-01-01 -\nedit b 8 3 2024-01-01 x\nlist b\n",
        "1 made a:1 store\n2 refused C1 NotHeld\n3 refused C1 NotHeld\n4 made b:1 store\n5 made b:2 store\n6 list b store 1 out 0\n  store 8 b:2 rating 3 day 2024-01-01 words x\n",
    ),
    // a removed picture is listed, and may be removed again
    (
        "device a all\nnew a 7 5 2024-01-01 -\nremove a 7\nremove a 7\nlist a\n",
        "1 made a:1 store\n2 made a:2 out\n3 made a:3 out\n4 list a store 0 out 1\n  out 7 a:3 removed\n",
    ),
];

#[test]
fn versions_of_a_picture(rt: HostRuntime) {
    for (script, reports) in VERSIONS {
        assert!(rt; runs(rt, rt.alloc(), script, reports, ""), "{script}");
    }
}

const REFUSED_LINES: &[(&str, &str)] = &[
    ("edit", "line 1: F6 WrongFields"),
    ("edit a 7 5 2024-01-01", "line 1: F6 WrongFields"),
    ("edit a 7 5 2024-01-01 - -", "line 1: F6 WrongFields"),
    ("edit b 0 6 x ,", "line 1: F8 UnknownDevice"),
    ("device a all\nedit a 0 6 x ,", "line 2: F11 BadNumber"),
    (
        "device a all\nedit a 07 5 2024-01-01 -",
        "line 2: F11 BadNumber",
    ),
    ("device a all\nedit a 7 6 x ,", "line 2: F12 BadRating"),
    (
        "device a all\nedit a 7 5 2023-02-29 ,",
        "line 2: F13 BadDate",
    ),
    (
        "device a all\nedit a 7 5 2024-01-01 x,x",
        "line 2: F14 BadKeyword",
    ),
    ("remove a", "line 1: F6 WrongFields"),
    ("remove a 7 -", "line 1: F6 WrongFields"),
    ("remove b 0", "line 1: F8 UnknownDevice"),
    ("device a all\nremove a 0", "line 2: F11 BadNumber"),
    ("device a all\nremove a 1000000000", "line 2: F11 BadNumber"),
    (
        "device a all\nremove a 7\ndevice b all",
        "line 3: F10 LateDevice",
    ),
    (
        "device a all\nEdit a 7 5 2024-01-01 -",
        "line 2: F5 UnknownCommand",
    ),
];

#[test]
fn lines_that_are_refused(rt: HostRuntime) {
    for (script, error) in REFUSED_LINES {
        assert!(rt; runs(rt, rt.alloc(), script, "", error), "{script}");
    }
}
