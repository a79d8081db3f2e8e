//! Calls of `photo_batcher`, and the writing of a plan.
ghost use Rattle.std.specs.Prelude.{◌<◌};

use crate::scripts::unless_changed;
use crate::streams;
use photo_batcher::{Plan, lawful, plan};
use photo_script::Script;
use std::alloc::{AllocError, Global};
use tool_value_refusals::mark;

/// A lawful order for the script of four devices.
pub const LAWFUL: &[u32] = &[2, 1, 4, 3, 6, 5, 7];

/// Whether a call on the script of four devices gives the right answer. The outer `None` means that no call has the name, the
/// inner one that memory was refused.
pub fn calls_on_script(alloc: Global, script: &Script, call: &str) -> Option<Option<bool>> {
    match call {
        "plan" => Some(plans(alloc, script)),
        "lawful" => Some(judges_order(alloc, script)),
        "Plan::chain_of" => calls_on_plan(alloc, script, call),
        _ => None,
    }
}

/// The same for a call on the script's plan.
pub fn calls_on_plan(alloc: Global, script: &Script, call: &str) -> Option<Option<bool>> {
    let made = plan(alloc, script);
    let right = match &made {
        Ok(plan) => Some(calls_of(alloc, plan, call)),
        Err(_) => None,
    };
    drop(made);
    right
}

fn calls_of(alloc: Global, plan: &Plan, call: &str) -> Option<bool> {
    let right = match call {
        "Plan::chain_of" => follows(alloc, plan),
        _ => streams::writes_out_plan(alloc, plan),
    };
    unless_changed(right, is_planned(plan))
}

// Whether it is the plan of the script of four devices.
fn is_planned(plan: &Plan) -> bool {
    plan.commands() == 7
        && plan.batches() == 4
        && plan.members(0) == [1, 2].as_slice()
        && plan.members(1) == [3, 4].as_slice()
        && plan.members(2) == [5, 6].as_slice()
        && plan.after(7) == Some(6)
}

fn plans(alloc: Global, script: &Script) -> Option<bool> {
    mark(alloc);
    let made = plan(alloc, script);
    mark(alloc);
    let right = match &made {
        Ok(plan) => Some(is_planned(plan)),
        Err(_) => None,
    };
    drop(made);
    right
}

fn judges_order(alloc: Global, script: &Script) -> Option<bool> {
    mark(alloc);
    let answer = lawful(alloc, script, LAWFUL);
    mark(alloc);
    answer.ok()
}

fn follows(alloc: Global, plan: &Plan) -> Option<bool> {
    if plan.commands() != 7 {
        return Some(false);
    }
    mark(alloc);
    let chain = plan.chain_of(alloc, 7);
    mark(alloc);
    let right = is_chain(&chain);
    drop(chain);
    right
}

fn is_chain(chain: &Result<Vec<u32>, AllocError>) -> Option<bool> {
    match chain {
        Ok(chain) => Some(chain.as_slice() == [1, 3, 6, 7].as_slice()),
        Err(_) => None,
    }
}
