//! Tests of the totals and logs of runs.
use fleet_runner::{IssueLog, Outcome, run_plain};
use photo_script::{Script, Totals, read_script};
use std::alloc::Global;

// Whether a log has exactly those versions: each of that picture, by that device in that epoch, with that number.
fn logs(log: &IssueLog, wanted: &[(u32, u16, u32, u32)]) -> bool {
    if log.len() != wanted.len() || log.is_empty() != wanted.is_empty() {
        return false;
    }
    for i in 0..log.len() {
        let held = log.get(i);
        let (picture, device, epoch, n) = wanted[i];
        if held.picture.value() != picture
            || held.version.author().value() != device
            || held.version.author().epoch() != epoch
            || held.version.n() != n
        {
            return false;
        }
    }
    true
}

/// The totals of changes, pulls, reports and moved versions.
pub fn totals([changes, pulls, reports, moved]: [u64; 4]) -> Totals {
    Totals {
        changes,
        pulls,
        reports,
        moved,
    }
}

/// Whether an outcome has those totals and that log.
pub fn is_outcome(outcome: &Outcome, wanted: [u64; 4], log: &[(u32, u16, u32, u32)]) -> bool {
    outcome.totals == totals(wanted) && logs(&outcome.log, log)
}

fn ends_in(alloc: Global, script: &Script, totals: [u64; 4], log: &[(u32, u16, u32, u32)]) -> bool {
    match run_plain(alloc, script) {
        Ok(outcome) => is_outcome(&outcome, totals, log),
        Err(_) => false,
    }
}

// Whether a script's run ends with those totals (changes, pulls, reports, moved) and that log.
fn runs_to(alloc: Global, text: &str, totals: [u64; 4], log: &[(u32, u16, u32, u32)]) -> bool {
    match read_script(alloc, text.as_bytes()) {
        Ok(script) => ends_in(alloc, &script, totals, log),
        Err(_) => false,
    }
}

const OUTCOMES: &[(&str, [u64; 4], &[(u32, u16, u32, u32)])] = &[
    ("", [0, 0, 0, 0], &[]),
    ("device a all", [0, 0, 0, 0], &[]),
    // a removal reaches the devices that hold the picture, through the server and without it
    (
        "device cam all\ndevice srv all\ndevice tab all\ndevice frame rating >= 4\nnew cam 7 5 2024-01-01 -\npull srv cam\npull tab cam\npull frame srv\nremove cam 7\npull srv cam\npull frame srv\npull tab cam\nlist frame\nlist tab\n",
        [2, 6, 2, 5],
        &[(7, 0, 0, 1), (7, 0, 0, 2)],
    ),
    // a refused change counts, and makes no version
    (
        "device a all\ndevice b all\nnew b 8 1 2024-01-01 -\nedit a 8 2 2024-01-01 -\nnew a 7 5 2024-01-01 -\npull a b\nedit a 8 2 2024-01-01 -\nnarrow a rating >= 2\n",
        [5, 1, 0, 1],
        &[(8, 1, 0, 1), (7, 0, 0, 1), (8, 0, 0, 2)],
    ),
    // a refilter counts as a change, and makes no version
    (
        "device s all\ndevice f rating >= 4\nnew s 7 2 2024-01-01 -\nnew s 8 5 2024-01-01 -\npull f s\nrefilter f all\nknowledge f\nknows f 7 s:1\npull f s\nedit f 7 3 2024-01-01 -\nknowledge f\nknows s 7 f.1:1\npull s f\nlist s\nrefilter f rating >= 4\nknowledge f\nedit f 8 5 2024-01-01 -\n",
        [6, 3, 6, 3],
        &[(7, 0, 0, 1), (8, 0, 0, 2), (7, 1, 1, 1), (8, 1, 2, 1)],
    ),
    // a preview counts as a report, and moves nothing
    (
        "device cam all\ndevice frame rating >= 4\nnew cam 1 5 2024-01-01 -\nnew cam 2 2 2024-01-01 -\npreview frame cam\npull frame cam\npreview frame cam\nlist frame\n",
        [2, 1, 3, 1],
        &[(1, 0, 0, 1), (2, 0, 0, 2)],
    ),
];

#[test]
fn totals_and_logs(rt: HostRuntime) {
    for (text, totals, log) in OUTCOMES {
        assert!(rt; runs_to(rt.alloc(), text, *totals, log), "{text}");
    }
}
