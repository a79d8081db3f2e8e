//! Tests of scripts that ask what devices know.
use super::memory::runs;

const KNOWN: &[(&str, &str)] = &[
    // a device knows each version that it made, of every picture, and no later one
    (
        "device a rating >= 2\nnew a 7 5 2024-01-01 -\nedit a 7 1 2024-01-01 -\nremove a 7\nedit a 7 4 2024-01-01 -\nremove a 9\nlist a\nknowledge a\nknows a 9 a:4\nknows a 7 a:5\n",
        "1 made a:1 store\n2 made a:2 out\n3 made a:3 out\n4 made a:4 store\n5 refused C1 NotHeld\n6 list a store 1 out 0\n  store 7 a:4 rating 4 day 2024-01-01 words -\n7 knowledge a 1\n  * a:4\n8 knows yes\n9 knows no\n",
    ),
    // a device knows a version in its out too
    (
        "device frame rating >= 4\nnew frame 1 3 2024-05-01 -\nlist frame\nknowledge frame\n",
        "1 made frame:1 out\n2 list frame store 0 out 1\n  out 1 frame:1 rating 3 day 2024-05-01 words -\n3 knowledge frame 1\n  * frame:1\n",
    ),
    // a version that is never made, and versions of another device
    (
        "device cam all\ndevice b all\nknows b 7 cam:100000\nknowledge b\nnew cam 7 5 2024-01-01 -\nknows b 7 cam:1\nknows cam 8 cam:1\nknowledge cam\n",
        "1 knows no\n2 knowledge b 1\n  * -\n3 made cam:1 store\n4 knows no\n5 knows yes\n6 knowledge cam 1\n  * cam:1\n",
    ),
];

#[test]
fn what_devices_know(rt: HostRuntime) {
    for (script, reports) in KNOWN {
        assert!(rt; runs(rt, rt.alloc(), script, reports, ""), "{script}");
    }
}

const REFUSED: &[(&str, &str)] = &[
    ("device a all\nknowledge\n", "line 2: F6 WrongFields"),
    ("device a all\nknowledge a a\n", "line 2: F6 WrongFields"),
    ("device a all\nknowledge b\n", "line 2: F8 UnknownDevice"),
    ("device a all\nknows a 7\n", "line 2: F6 WrongFields"),
    (
        "device a all\nknows a 7 a:1 a:2\n",
        "line 2: F6 WrongFields",
    ),
    ("device a all\nknows b 0 c\n", "line 2: F8 UnknownDevice"),
    ("device a all\nknows a 0 c\n", "line 2: F11 BadNumber"),
    ("device a all\nknows a 7 c\n", "line 2: F11 BadNumber"),
    ("device a all\nknows a 7 c:x\n", "line 2: F8 UnknownDevice"),
    ("device a all\nknows a 7 :1\n", "line 2: F8 UnknownDevice"),
    ("device a all\nknows a 7 A:1\n", "line 2: F8 UnknownDevice"),
    ("device a all\nknows a 7 a:\n", "line 2: F11 BadNumber"),
    ("device a all\nknows a 7 a:0\n", "line 2: F11 BadNumber"),
    ("device a all\nknows a 7 a:01\n", "line 2: F11 BadNumber"),
    ("device a all\nknows a 7 a:1:1\n", "line 2: F11 BadNumber"),
    (
        "device a all\nknows a 7 a:100001\n",
        "line 2: F11 BadNumber",
    ),
];

#[test]
fn questions_that_are_refused(rt: HostRuntime) {
    for (script, error) in REFUSED {
        assert!(rt; runs(rt, rt.alloc(), script, "", error), "{script}");
    }
}
