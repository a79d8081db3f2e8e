//! Calls on a plan, of the audit, and on the number of workers.
use crate::fleets::answer_log;
use fleet_runner::{Outcome, Workers, audit, run_plain};
use photo_batcher::{Plan, places_of, plan};
use photo_script::Script;
use std::alloc::Global;

/// The readers of a plan, and the places of a command's devices.
pub fn answer_plan(alloc: Global, script: &Script, times: u32) -> Option<bool> {
    let made = plan(alloc, script);
    let right = match &made {
        Ok(plan) => Some(answer_of_plan(script, plan, times)),
        Err(_) => None,
    };
    drop(made);
    right
}

fn answer_of_plan(script: &Script, plan: &Plan, times: u32) -> bool {
    for _ in 0..times {
        if !has_batches(plan) || !has_last(plan) || !has_places(script) {
            return false;
        }
    }
    true
}

fn has_places(script: &Script) -> bool {
    script.commands() == 4
        && places_of(script.command(2)) == (1, None)
        && places_of(script.command(3)) == (1, Some(0))
}

fn has_batches(plan: &Plan) -> bool {
    plan.batches() == 3 && plan.members(0) == [1, 2].as_slice()
}

fn has_last(plan: &Plan) -> bool {
    plan.commands() == 4 && plan.batch_of(4) == 2 && plan.after(4) == Some(3)
}

/// `audit`, or the calls on a log, for the outcome of a script's run.
pub fn answer_outcome(alloc: Global, script: &Script, group: &str, times: u32) -> Option<bool> {
    let run = run_plain(alloc, script);
    let right = match &run {
        Ok(outcome) if group == "log" => Some(answer_log(script, outcome, times)),
        Ok(outcome) => Some(answer_of_audits(outcome, times)),
        Err(_) => None,
    };
    drop(run);
    right
}

fn answer_of_audits(outcome: &Outcome, times: u32) -> bool {
    for _ in 0..times {
        if !audit(outcome.devices.as_slice(), &outcome.log) {
            return false;
        }
    }
    true
}

/// `Workers::new`.
pub fn answer_workers(times: u32) -> bool {
    for _ in 0..times {
        if Workers::new(0).is_some() || Workers::new(256).is_none() || Workers::new(257).is_some() {
            return false;
        }
    }
    true
}
