//! Tests of scripts whose devices have filters: where versions go, which filters are refused, and filters' limits.
use super::memory::runs;

const PLACES: &[(&str, &str)] = &[
    (
        "device frame rating >= 4\nnew frame 1 3 2024-05-01 -\nlist frame\n",
        "1 made frame:1 out\n2 list frame store 0 out 1\n  out 1 frame:1 rating 3 day 2024-05-01 words -\n",
    ),
    // the letter é in one form in the filter and in the other in the picture
    (
        "device a keyword \u{e9}\nnew a 1 0 2024-02-29 e\u{301}\nlist a\n",
        "1 made a:1 store\n2 list a store 1 out 0\n  store 1 a:1 rating 0 day 2024-02-29 words \u{e9}\n",
    ),
    (
        "device a keyword e\u{301}\nnew a 1 0 2024-02-29 \u{e9}\n",
        "1 made a:1 store\n",
    ),
    // each device by its own filter
    (
        "device a rating <= 2\ndevice b none\ndevice c not rating <= 2\nnew a 1 3 2024-05-01 -\nnew b 2 3 2024-05-01 -\nnew c 3 3 2024-05-01 -\nnew a 4 2 2024-05-01 -\nnew c 5 2 2024-05-01 -\nlist a\n",
        "1 made a:1 out\n2 made b:1 out\n3 made c:1 store\n4 made a:2 store\n5 made c:2 out\n6 list a store 1 out 1\n  store 4 a:2 rating 2 day 2024-05-01 words -\n  out 1 a:1 rating 3 day 2024-05-01 words -\n",
    ),
];

#[test]
fn places_of_new_versions(rt: HostRuntime) {
    for (script, reports) in PLACES {
        assert!(rt; runs(rt, rt.alloc(), script, reports, ""), "{script}");
    }
}

const REFUSED_FILTERS: &[(&str, &str)] = &[
    ("device a rating >= 6\n", "line 1: F15 BadFilter"),
    ("device a all\ndevice b all all\n", "line 2: F15 BadFilter"),
    // the filter's fault comes before that of a later line
    ("device a ( all\nfrob\n", "line 1: F15 BadFilter"),
    ("device a rating >=4\nlist b\n", "line 1: F15 BadFilter"),
    // the fault of an earlier field or line comes before the filter's
    ("device A rating >= 6\n", "line 1: F7 BadName"),
    ("frob\ndevice a rating >= 6\n", "line 1: F5 UnknownCommand"),
];

#[test]
fn filters_that_are_refused(rt: HostRuntime) {
    for (script, error) in REFUSED_FILTERS {
        assert!(rt; runs(rt, rt.alloc(), script, "", error), "{script}");
    }
}

// A filter with 31 times `not`, and one with 32.
const HIGHEST: &str =
    "device a not not not not not not not not not not not not not not not not not not not not not not not not not not not not not not not all\n";

const HIGHER: &str =
    "device a not not not not not not not not not not not not not not not not not not not not not not not not not not not not not not not not all\n";

// A filter of eight words by eight, and one of five by thirteen.
const WIDEST: &str =
    "device a (keyword x0 or keyword x1 or keyword x2 or keyword x3 or keyword x4 or keyword x5 or keyword x6 or keyword x7) and (keyword y0 or keyword y1 or keyword y2 or keyword y3 or keyword y4 or keyword y5 or keyword y6 or keyword y7)\nnew a 1 0 2024-05-01 x7,y0\nnew a 2 0 2024-05-01 x1,x2\n";

const WIDER: &str =
    "device a (keyword x0 or keyword x1 or keyword x2 or keyword x3 or keyword x4) and (keyword y0 or keyword y1 or keyword y2 or keyword y3 or keyword y4 or keyword y5 or keyword y6 or keyword y7 or keyword y8 or keyword y9 or keyword y10 or keyword y11 or keyword y12)\nnew a 1 0 2024-05-01 x7,y0\nnew a 2 0 2024-05-01 x1,x2\n";

const LIMITS: &[(&str, &str, &str)] = &[
    (HIGHEST, "", ""),
    (HIGHER, "", "line 1: F15 BadFilter"),
    (WIDEST, "1 made a:1 store\n2 made a:2 out\n", ""),
    (WIDER, "", "line 1: F15 BadFilter"),
];

#[test]
fn heights_and_widths_of_filters(rt: HostRuntime) {
    for (script, output, error) in LIMITS {
        assert!(rt; runs(rt, rt.alloc(), script, output, error), "{script}");
    }
}
