//! Tests of scripts that pull, preview pulls, and give devices other filters.
use super::memory::runs;

pub const PULLS: &[(&str, &str)] = &[
    // two versions of one picture, neither made with the other; then one made with both
    (
        "device a rating >= 1\ndevice b rating <= 4\nnew a 7 3 2024-01-01 -\npull b a\nedit a 7 4 2024-01-01 -\nedit b 7 2 2024-01-01 -\npull a b\nconflicts a\nknowledge a\nedit a 7 3 2024-01-01 -\npull b a\n",
        "1 made a:1 store\n2 pulled taken 1 handed 0 notices 0 dropped 0 learned no\n3 made a:2 store\n4 made b:1 store\n5 pulled taken 1 handed 0 notices 0 dropped 0 learned no\n6 conflicts a 1\n  7 a:2 b:1\n7 knowledge a 2\n  * a:2\n  7 a:2 b:1\n8 made a:3 store\n9 pulled taken 1 handed 0 notices 0 dropped 1 learned no\n",
    ),
    // if its filter isn't covered, a target learns of the versions that it takes, and of no others
    (
        "device cam rating >= 4\ndevice srv all\ndevice tab all\nnew cam 7 5 2024-01-01 -\nnew cam 8 1 2024-01-01 -\nnew cam 9 4 2024-01-01 -\npull srv cam\nknowledge srv\nknows srv 8 cam:3\npull tab cam\nknows tab 8 cam:2\n",
        "1 made cam:1 store\n2 made cam:2 out\n3 made cam:3 store\n4 pulled taken 2 handed 1 notices 0 dropped 0 learned no\n5 knowledge srv 4\n  * -\n  7 cam:1\n  8 cam:2\n  9 cam:3\n6 knows no\n7 pulled taken 2 handed 0 notices 0 dropped 0 learned no\n8 knows no\n",
    ),
    // if its filter is covered, a target learns all that the source knows
    (
        "device cam all\ndevice frame rating >= 4\nnew cam 1 5 2024-01-01 -\nnew cam 2 2 2024-01-01 -\npull frame cam\nknowledge frame\npull frame cam\n",
        "1 made cam:1 store\n2 made cam:2 store\n3 pulled taken 1 handed 0 notices 0 dropped 0 learned yes\n4 knowledge frame 1\n  * cam:2\n5 pulled taken 0 handed 0 notices 0 dropped 0 learned yes\n",
    ),
    // a version made with both ends a conflict
    (
        "device a all\ndevice b all\nnew a 7 3 2024-01-01 -\npull b a\nedit a 7 4 2024-01-01 -\nedit b 7 5 2024-01-01 -\npull a b\nconflicts a\nedit a 7 2 2024-01-01 -\nconflicts a\n",
        "1 made a:1 store\n2 pulled taken 1 handed 0 notices 0 dropped 0 learned yes\n3 made a:2 store\n4 made b:1 store\n5 pulled taken 1 handed 0 notices 0 dropped 0 learned yes\n6 conflicts a 1\n  7 a:2 b:1\n7 made a:3 store\n8 conflicts a 0\n",
    ),
    // the next version supersedes a version that the device knows and doesn't hold
    (
        "device s all\ndevice f rating >= 4\nnew s 7 5 2024-01-01 -\npull f s\nedit f 7 4 2024-01-01 -\nedit s 7 2 2024-01-01 -\npull f s\nknows f 7 s:2\nedit f 7 5 2024-01-01 -\npull s f\nknowledge s\n",
        "1 made s:1 store\n2 pulled taken 1 handed 0 notices 0 dropped 0 learned yes\n3 made f:1 store\n4 made s:2 store\n5 pulled taken 0 handed 0 notices 0 dropped 0 learned yes\n6 knows yes\n7 made f:2 store\n8 pulled taken 1 handed 0 notices 0 dropped 1 learned no\n9 knowledge s 2\n  * s:2\n  7 s:2 f:2\n",
    ),
    // a version that the target's filter doesn't match supersedes one that it holds
    (
        "device s day >= 2024-01-01\ndevice f rating >= 4\nnew s 7 5 2024-01-01 -\npull f s\nedit s 7 1 2024-01-01 -\npull f s\nknowledge f\n",
        "1 made s:1 store\n2 pulled taken 1 handed 0 notices 0 dropped 0 learned no\n3 made s:2 store\n4 pulled taken 0 handed 0 notices 1 dropped 1 learned no\n5 knowledge f 2\n  * -\n  7 s:2\n",
    ),
    // a removal goes from device to device
    (
        "device cam all\ndevice srv all\ndevice tab all\ndevice frame rating >= 4\nnew cam 7 5 2024-01-01 -\npull srv cam\npull tab cam\npull frame srv\nremove cam 7\npull srv cam\npull frame srv\npull tab cam\nlist frame\nlist tab\n",
        "1 made cam:1 store\n2 pulled taken 1 handed 0 notices 0 dropped 0 learned yes\n3 pulled taken 1 handed 0 notices 0 dropped 0 learned yes\n4 pulled taken 1 handed 0 notices 0 dropped 0 learned yes\n5 made cam:2 out\n6 pulled taken 0 handed 1 notices 0 dropped 1 learned yes\n7 pulled taken 0 handed 1 notices 0 dropped 1 learned yes\n8 pulled taken 0 handed 0 notices 0 dropped 1 learned yes\n9 list frame store 0 out 1\n  out 7 cam:2 removed\n10 list tab store 0 out 0\n",
    ),
    // the target knows what is handed over, of its picture, with its history
    (
        "device cam rating >= 4\ndevice srv all\ndevice tab all\nnew cam 7 5 2024-01-01 -\npull tab cam\nedit cam 7 1 2024-01-01 -\npull srv cam\nedit tab 7 4 2024-01-01 -\npull cam tab\nedit cam 7 5 2024-01-01 -\npull srv cam\nconflicts srv\nknowledge srv\n",
        "1 made cam:1 store\n2 pulled taken 1 handed 0 notices 0 dropped 0 learned no\n3 made cam:2 out\n4 pulled taken 0 handed 1 notices 0 dropped 0 learned no\n5 made tab:1 store\n6 pulled taken 1 handed 0 notices 0 dropped 0 learned yes\n7 made cam:3 store\n8 pulled taken 1 handed 0 notices 0 dropped 1 learned no\n9 conflicts srv 0\n10 knowledge srv 2\n  * -\n  7 cam:3 tab:1\n",
    ),
];

#[test]
fn pulls_between_devices(rt: HostRuntime) {
    for (script, reports) in PULLS {
        assert!(rt; runs(rt, rt.alloc(), script, reports, ""), "{script}");
    }
}

pub const NARROWED: &[(&str, &str)] = &[
    // a version that the new filter doesn't select goes to the out, and a filter that isn't covered is refused
    (
        "device a rating >= 2\nnew a 1 2 2024-01-01 -\nnew a 2 3 2024-01-01 -\nnew a 3 5 2024-01-01 -\nnarrow a rating >= 4\nlist a\nnarrow a rating >= 3\nedit a 9 5 2024-01-01 -\nremove a 1\n",
        "1 made a:1 store\n2 made a:2 store\n3 made a:3 store\n4 narrowed 2\n5 list a store 1 out 2\n  store 3 a:3 rating 5 day 2024-01-01 words -\n  out 1 a:1 rating 2 day 2024-01-01 words -\n  out 2 a:2 rating 3 day 2024-01-01 words -\n6 refused C2 NotNarrower\n7 refused C1 NotHeld\n8 made a:4 out\n",
    ),
    // a version that went to the out is handed over to the next device that pulls, whatever its filter
    (
        "device a all\ndevice b rating >= 4\nnew a 1 2 2024-01-01 -\nnarrow a rating >= 3\npull b a\nlist b\nlist a\n",
        "1 made a:1 store\n2 narrowed 1\n3 pulled taken 0 handed 1 notices 0 dropped 0 learned yes\n4 list b store 0 out 1\n  out 1 a:1 rating 2 day 2024-01-01 words -\n5 list a store 0 out 0\n",
    ),
];

#[test]
fn narrower_filters(rt: HostRuntime) {
    for (script, reports) in NARROWED {
        assert!(rt; runs(rt, rt.alloc(), script, reports, ""), "{script}");
    }
}

pub const REFILTERED: &[(&str, &str)] = &[
    // a device gets any filter with a fresh author: the next pull brings back what it forgot
    (
        "device s all\ndevice f rating >= 4\nnew s 7 2 2024-01-01 -\nnew s 8 5 2024-01-01 -\npull f s\nrefilter f all\nknowledge f\nknows f 7 s:1\npull f s\nedit f 7 3 2024-01-01 -\nknowledge f\nknows s 7 f.1:1\npull s f\nlist s\nrefilter f rating >= 4\nknowledge f\nedit f 8 5 2024-01-01 -\n",
        "1 made s:1 store\n2 made s:2 store\n3 pulled taken 1 handed 0 notices 0 dropped 0 learned yes\n4 refiltered store 1 out 0\n5 knowledge f 2\n  * -\n  8 s:2\n6 knows no\n7 pulled taken 1 handed 0 notices 0 dropped 0 learned yes\n8 made f.1:1 store\n9 knowledge f 1\n  * s:2 f.1:1\n10 knows no\n11 pulled taken 1 handed 0 notices 0 dropped 1 learned yes\n12 list s store 2 out 0\n  store 7 f.1:1 rating 3 day 2024-01-01 words -\n  store 8 s:2 rating 5 day 2024-01-01 words -\n13 refiltered store 1 out 1\n14 knowledge f 3\n  * -\n  7 s:2 f.1:1\n  8 s:2\n15 made f.2:1 store\n",
    ),
    // the device keeps what it holds with its history, in the out where the new filter doesn't select it
    (
        "device a all\ndevice b rating >= 4\nnew a 1 5 2024-01-01 -\nedit a 1 2 2024-01-01 -\nremove a 1\nrefilter a none\nlist a\nknowledge a\nknows a 1 a:1\nknows a 2 a:1\nrefilter a all\nedit a 1 3 2024-01-01 -\npull b a\n",
        "1 made a:1 store\n2 made a:2 store\n3 made a:3 out\n4 refiltered store 0 out 1\n5 list a store 0 out 1\n  out 1 a:3 removed\n6 knowledge a 2\n  * -\n  1 a:3\n7 knows yes\n8 knows no\n9 refiltered store 0 out 1\n10 made a.2:1 store\n11 pulled taken 0 handed 0 notices 0 dropped 0 learned yes\n",
    ),
    // a device that holds nothing forgets everything
    (
        "device a all\nrefilter a rating = 5\nknowledge a\nnew a 7 5 2024-01-01 -\nknowledge a\n",
        "1 refiltered store 0 out 0\n2 knowledge a 1\n  * -\n3 made a.1:1 store\n4 knowledge a 1\n  * a.1:1\n",
    ),
    // a preview's counts, before the pull and after it
    (
        "device cam all\ndevice frame rating >= 4\nnew cam 1 5 2024-01-01 -\nnew cam 2 2 2024-01-01 -\npreview frame cam\npull frame cam\npreview frame cam\nlist frame\n",
        "1 made cam:1 store\n2 made cam:2 store\n3 preview taken 1 handed 0 notices 0 dropped 0 learned yes\n4 pulled taken 1 handed 0 notices 0 dropped 0 learned yes\n5 preview taken 0 handed 0 notices 0 dropped 0 learned yes\n6 list frame store 1 out 0\n  store 1 cam:1 rating 5 day 2024-01-01 words -\n",
    ),
];

#[test]
fn other_filters_and_previews(rt: HostRuntime) {
    for (script, reports) in REFILTERED {
        assert!(rt; runs(rt, rt.alloc(), script, reports, ""), "{script}");
    }
}

const REFUSED_PULLS: &[(&str, &str)] = &[
    ("device a all\npull a a\n", "line 2: F19 SameDevice"),
    ("device a all\npull a b\n", "line 2: F8 UnknownDevice"),
    ("device a all\npull a\n", "line 2: F6 WrongFields"),
    ("device a all\npreview a a\n", "line 2: F19 SameDevice"),
    (
        "device a all\nrefilter a rating >= 6\n",
        "line 2: F15 BadFilter",
    ),
];

#[test]
fn pulls_that_are_refused(rt: HostRuntime) {
    for (script, error) in REFUSED_PULLS {
        assert!(rt; runs(rt, rt.alloc(), script, "", error), "{script}");
    }
}
