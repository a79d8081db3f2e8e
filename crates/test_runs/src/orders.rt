//! Tests of replays, in lawful orders and in others, and of the texts of plans.
use super::memory::{Full, Sink};
use super::totals::is_outcome;
use fleet_runner::{RunError, replay, write_plan, write_reports};
use photo_batcher::plan;
use photo_script::{Script, read_script};
use std::alloc::Global;

/// Two devices make a picture each. A second device pulls each picture, and then a third.
pub const FOUR_DEVICES: &str =
    "device a all\ndevice b all\ndevice c all\ndevice d all\nnew a 1 5 2024-01-01 -\nnew c 2 4 2024-01-01 -\npull b a\npull d c\npull c b\nlist a\npull d a\n";

/// The output of that script.
pub const REPORTS: &str =
    "1 made a:1 store\n2 made c:1 store\n3 pulled taken 1 handed 0 notices 0 dropped 0 learned yes\n4 pulled taken 1 handed 0 notices 0 dropped 0 learned yes\n5 pulled taken 1 handed 0 notices 0 dropped 0 learned yes\n6 list a store 1 out 0\n  store 1 a:1 rating 5 day 2024-01-01 words -\n7 pulled taken 1 handed 0 notices 0 dropped 0 learned yes\n";

const PLAN: &str =
    "1 batch 0 after -\n2 batch 0 after -\n3 batch 1 after 1\n4 batch 1 after 2\n5 batch 2 after 4\n6 batch 2 after 3\n7 batch 3 after 6\nbatches 4\n";

// Whether a replay of the script in that order prints that output, and ends with those totals and that log.
fn replays(
    alloc: Global,
    script: &Script,
    order: &[u32],
    output: &str,
    totals: [u64; 4],
    log: &[(u32, u16, u32, u32)],
) -> bool {
    match replay(alloc, script, order) {
        Ok(outcome) => {
            let mut sink = Sink::new(alloc);
            write_reports(alloc, &mut sink, script, outcome.reports.as_slice()).is_ok()
                && sink.taken.as_slice() == output.as_bytes()
                && is_outcome(&outcome, totals, log)
        }
        Err(_) => false,
    }
}

fn gives_the_run(
    alloc: Global,
    text: &str,
    order: &[u32],
    output: &str,
    totals: [u64; 4],
    log: &[(u32, u16, u32, u32)],
) -> bool {
    match read_script(alloc, text.as_bytes()) {
        Ok(script) => replays(alloc, &script, order, output, totals, log),
        Err(_) => false,
    }
}

#[test]
fn lawful_orders_give_the_run(rt: HostRuntime) {
    let totals = [2, 4, 1, 4];
    assert!(rt;
        gives_the_run(
            rt.alloc(),
            FOUR_DEVICES,
            &[2, 1, 4, 3, 6, 5, 7],
            REPORTS,
            totals,
            &[(2, 2, 0, 1), (1, 0, 0, 1)]
        )
    );
    assert!(rt;
        gives_the_run(
            rt.alloc(),
            FOUR_DEVICES,
            &[1, 2, 3, 4, 5, 6, 7],
            REPORTS,
            totals,
            &[(1, 0, 0, 1), (2, 2, 0, 1)]
        )
    );
}

#[test]
fn a_script_with_no_commands_in_order(rt: HostRuntime) {
    for text in ["", "device a all"] {
        assert!(rt;
            gives_the_run(rt.alloc(), text, &[], "", [0, 0, 0, 0], &[]),
            "{text}"
        );
    }
}

const UNLAWFUL: &[&[u32]] = &[
    &[3, 1, 2, 4, 5, 6, 7],
    &[1, 2, 3, 4, 5, 6],
    &[1, 1, 2, 3, 4, 5, 6, 7],
    &[],
];

fn refuses(alloc: Global, script: &Script) -> bool {
    for order in UNLAWFUL {
        match replay(alloc, script, order) {
            Ok(_) => return false,
            Err(error) => {
                if error != RunError::NotLawful {
                    return false;
                }
            }
        }
    }
    true
}

#[test]
fn orders_that_are_not_lawful(rt: HostRuntime) {
    assert!(rt;
        match read_script(rt.alloc(), FOUR_DEVICES.as_bytes()) {
            Ok(script) => refuses(rt.alloc(), &script),
            Err(_) => false,
        }
    );
}

// The result of writing a script's plan to that writer.
fn planned(alloc: Global, text: &str, sink: &mut Sink) -> Result<(), RunError> {
    match read_script(alloc, text.as_bytes()) {
        Ok(script) => written(alloc, &script, sink),
        Err(fault) => Err(RunError::Script(fault)),
    }
}

fn written(alloc: Global, script: &Script, sink: &mut Sink) -> Result<(), RunError> {
    match plan(alloc, script) {
        Ok(plan) => write_plan(alloc, sink, &plan),
        Err(_) => Err(RunError::NoMemory),
    }
}

fn is_planned(alloc: Global, text: &str, step: usize, output: &str) -> bool {
    let mut sink = Sink::new(alloc);
    sink.step = step;
    planned(alloc, text, &mut sink) == Ok(()) && sink.taken.as_slice() == output.as_bytes()
}

#[test]
fn plans_as_text(rt: HostRuntime) {
    assert!(rt; is_planned(rt.alloc(), FOUR_DEVICES, usize::MAX, PLAN));
    assert!(rt; is_planned(rt.alloc(), FOUR_DEVICES, 1, PLAN));
    assert!(rt; is_planned(rt.alloc(), "", usize::MAX, "batches 0\n"));
}

fn is_cut(alloc: Global, room: usize, full: Full) -> bool {
    let mut sink = Sink::of_room(alloc, room, full);
    planned(alloc, FOUR_DEVICES, &mut sink) == Err(RunError::Write)
        && sink.taken.as_slice() == &PLAN.as_bytes()[..room.min(PLAN.len())]
}

#[test]
fn a_plan_for_a_writer_that_fills(rt: HostRuntime) {
    for full in [Full::Error, Full::Zero] {
        for room in [0, 1, 18, 19, PLAN.len() - 1] {
            assert!(rt; is_cut(rt.alloc(), room, full), "{room}");
        }
    }
}

fn is_unflushed(alloc: Global) -> bool {
    let mut sink = Sink::new(alloc);
    sink.flush_fails = true;
    planned(alloc, FOUR_DEVICES, &mut sink) == Err(RunError::Write)
        && sink.taken.as_slice() == PLAN.as_bytes()
}

#[test]
fn a_plan_whose_flush_fails(rt: HostRuntime) {
    assert!(rt; is_unflushed(rt.alloc()));
}
