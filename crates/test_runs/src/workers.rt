//! Tests that compare runs by workers with the run command by command: reports, totals and devices are the same, and so is the
//! log except for its order.
ghost use Rattle.std.specs.Prelude.{◌<◌, IfSome};
ghost use Rattle.std.specs.Arc.{arc_value};
ghost use Rattle.fleet_steps.specs.Outcomes.{IsOutcome};

use super::audits::HOUSEHOLD;
use super::changes::VERSIONS;
use super::drawn::{ALL_KINDS, COMMANDS, SOME_KINDS, drawn};
use super::memory::Sink;
use super::orders::FOUR_DEVICES;
use super::pulling::{NARROWED, PULLS, REFILTERED};
use super::same::all_same;
use super::totals::totals;
use fleet_runner::{
    Gate, IssueLog, OpenGate, Outcome, Workers, replay, run_fleet, run_plain, write_reports,
};
use photo_batcher::{Plan, plan};
use photo_device::Held;
use photo_script::{Script, read_script};
use std::alloc::{AllocError, Global};
use std::sync::{Arc, Wait};
use std::thread::Threads;

fn shared(alloc: Global, text: &str) -> Option<Arc<Script>> {
    match read_script(alloc, text.as_bytes()) {
        Ok(script) => Arc::new(alloc, script).ok(),
        Err(_) => None,
    }
}

// The outcome of a run by that many workers.
fn run_by<G: Gate + 'static, R: Threads + Wait + Copy + Send + 'static>(
    rt: R,
    alloc: Global,
    script: &Arc<Script>,
    count: u16,
    gate: &Arc<G>,
) -> Option<Outcome>
    ensures { IfSome result (IsOutcome (arc_value script.now)) }
{
    let Some(workers) = Workers::new(count) else {
        return None;
    };
    let Ok(gate) = Arc::try_clone(gate) else {
        return None;
    };
    match run_fleet(rt, alloc, script, workers, gate) {
        Ok(outcome) => Some(outcome),
        Err(_) => None,
    }
}

// Whether an outcome's reports are printed as that, behind what the writer has.
fn print(alloc: Global, script: &Script, outcome: &Outcome, sink: &mut Sink) -> bool
    requires { IsOutcome script.now outcome.now }
{
    write_reports(alloc, sink, script, outcome.reports.as_slice()).is_ok()
}

fn is_printed(alloc: Global, script: &Script, outcome: &Outcome, output: &str) -> bool
    requires { IsOutcome script.now outcome.now }
{
    let mut sink = Sink::new(alloc);
    print(alloc, script, outcome, &mut sink) && sink.taken.as_slice() == output.as_bytes()
}

/// Whether a run of the script by that many workers under a gate prints that, with those totals (changes, pulls, reports,
/// moved).
pub fn prints_by<G: Gate + 'static, R: Threads + Wait + Copy + Send + 'static>(
    rt: R,
    alloc: Global,
    text: &str,
    count: u16,
    gate: &Arc<G>,
    output: &str,
    wanted: [u64; 4],
) -> bool {
    let Some(script) = shared(alloc, text) else {
        return false;
    };
    match run_by(rt, alloc, &script, count, gate) {
        Some(outcome) => {
            outcome.totals == totals(wanted) && is_printed(alloc, &*script, &outcome, output)
        }
        None => false,
    }
}

fn has(log: &IssueLog, held: &Held) -> bool {
    for i in 0..log.len() {
        if log.get(i) == held {
            return true;
        }
    }
    false
}

// Whether each version is in both logs. No two versions within a log are equal.
fn same_logs(log: &IssueLog, other: &IssueLog) -> bool {
    if log.len() != other.len() {
        return false;
    }
    for i in 0..log.len() {
        if !has(other, log.get(i)) {
            return false;
        }
    }
    true
}

fn same_texts(alloc: Global, script: &Script, one: &Outcome, other: &Outcome) -> bool
    requires one { IsOutcome script.now one.now }
    requires other { IsOutcome script.now other.now }
{
    let mut sink = Sink::new(alloc);
    let mut second = Sink::new(alloc);
    print(alloc, script, one, &mut sink)
        && print(alloc, script, other, &mut second)
        && sink.taken.as_slice() == second.taken.as_slice()
}

fn same(alloc: Global, script: &Script, one: &Outcome, other: &Outcome) -> bool
    requires one { IsOutcome script.now one.now }
    requires other { IsOutcome script.now other.now }
{
    one.totals == other.totals
        && all_same(one.devices.as_slice(), other.devices.as_slice())
        && same_logs(&one.log, &other.log)
        && same_texts(alloc, script, one, other)
}

fn is_same_by<R: Threads + Wait + Copy + Send + 'static>(
    rt: R,
    alloc: Global,
    script: &Arc<Script>,
    plain: &Outcome,
    count: u16,
    gate: &Arc<OpenGate>,
) -> bool
    requires { IsOutcome (arc_value script.now) plain.now }
{
    match run_by(rt, alloc, script, count, gate) {
        Some(outcome) => same(alloc, &**script, plain, &outcome),
        None => false,
    }
}

// Whether 1, 2, 7, 64 and 256 workers give that outcome.
fn is_same_by_any<R: Threads + Wait + Copy + Send + 'static>(
    rt: R,
    alloc: Global,
    script: &Arc<Script>,
    plain: &Outcome,
) -> bool
    requires { IsOutcome (arc_value script.now) plain.now }
{
    let Ok(gate) = Arc::new(alloc, OpenGate) else {
        return false;
    };
    for count in [1, 2, 7, 64, 256] {
        if !is_same_by(rt, alloc, script, plain, count, &gate) {
            return false;
        }
    }
    true
}

// The commands batch by batch, in each batch in falling order.
fn falling(alloc: Global, plan: &Plan) -> Result<Vec<u32>, AllocError> {
    let mut order = Vec::new(alloc);
    for batch in 0..plan.batches() {
        push_falling(&mut order, plan.members(batch))?;
    }
    Ok(order)
}

fn push_falling(order: &mut Vec<u32>, members: &[u32]) -> Result<(), AllocError> {
    for number in members.iter().rev() {
        order.push(*number)?;
    }
    Ok(())
}

fn falling_order(alloc: Global, script: &Script) -> Option<Vec<u32>> {
    match plan(alloc, script) {
        Ok(plan) => falling(alloc, &plan).ok(),
        Err(_) => None,
    }
}

fn is_same_in_order(alloc: Global, script: &Script, plain: &Outcome, order: &[u32]) -> bool
    requires { IsOutcome script.now plain.now }
{
    match replay(alloc, script, order) {
        Ok(outcome) => same(alloc, script, plain, &outcome),
        Err(_) => false,
    }
}

// Whether a run with each batch in falling order gives that outcome.
fn is_same_falling(alloc: Global, script: &Script, plain: &Outcome) -> bool
    requires { IsOutcome script.now plain.now }
{
    match falling_order(alloc, script) {
        Some(order) => is_same_in_order(alloc, script, plain, order.as_slice()),
        None => false,
    }
}

fn shared_is_right<R: Threads + Wait + Copy + Send + 'static>(
    rt: R,
    alloc: Global,
    script: &Arc<Script>,
) -> bool {
    match run_plain(alloc, &**script) {
        Ok(plain) => {
            is_same_by_any(rt, alloc, script, &plain) && is_same_falling(alloc, &**script, &plain)
        }
        Err(_) => false,
    }
}

// Whether all runs of a script give what the run command by command gives.
fn is_right<R: Threads + Wait + Copy + Send + 'static>(rt: R, alloc: Global, text: &str) -> bool {
    match shared(alloc, text) {
        Some(script) => shared_is_right(rt, alloc, &script),
        None => false,
    }
}

#[test]
fn examples_by_workers(rt: HostRuntime) {
    for text in ["", "device a all", FOUR_DEVICES, HOUSEHOLD] {
        assert!(rt; is_right(rt, rt.alloc(), text), "{text}");
    }
    for table in [PULLS, NARROWED, REFILTERED, VERSIONS] {
        for (text, _) in table {
            assert!(rt; is_right(rt, rt.alloc(), text), "{text}");
        }
    }
}

fn drawn_is_right<R: Threads + Wait + Copy + Send + 'static>(
    rt: R,
    alloc: Global,
    seed: u16,
    kinds: u32,
) -> bool
    requires { 0 < kinds }
{
    match drawn(alloc, seed, kinds, COMMANDS) {
        Ok(text) => is_right(rt, alloc, text.as_str()),
        Err(_) => false,
    }
}

#[test]
fn drawn_scripts_by_workers(rt: HostRuntime) {
    for seed in 1..21 {
        assert!(rt;
            drawn_is_right(rt, rt.alloc(), seed, SOME_KINDS),
            "seed {seed}"
        );
        assert!(rt;
            drawn_is_right(rt, rt.alloc(), seed, ALL_KINDS),
            "seed {seed}"
        );
    }
}
