//! Calls of `fleet_runner` and `fleet_workers`.
use crate::plans::calls_on_plan;
use crate::pulls::COUNTS;
use crate::runs::is_run;
use crate::scripts::{FOUR_DEVICES, is_four, is_read, script_of, unless_changed};
use fleet_runner::{
    OpenGate, RunError, Workers, plain_stream, plan_stream, read_source, replay_stream, run_fleet,
    run_stream, write_plan, write_reports,
};
use photo_batcher::Plan;
use photo_script::{Report, Script, ScriptFault};
use std::alloc::Global;
use std::sync::{Arc, Wait};
use std::thread::Threads;
use tool_value_refusals::{Verdict, judged, mark};

/// The verdict on a call of `fleet_runner` that needs no script and never waits.
pub fn verdict(alloc: Global, call: &str) -> Option<Verdict> {
    match call {
        "read_source" => Some(judged(reads(alloc), true)),
        "plain_stream" => plain(alloc),
        "replay_stream" => replayed(alloc),
        "plan_stream" => planned(alloc),
        _ => None,
    }
}

/// Whether a call on the script of four devices gives the right answer. The outer `None` means that no call has the name, the
/// inner one that memory was refused.
pub fn calls_on_script(alloc: Global, script: &Script, call: &str) -> Option<Option<bool>> {
    match call {
        "write_reports" => Some(reports(alloc, script)),
        "write_plan" => calls_on_plan(alloc, script, call),
        _ => None,
    }
}

/// The verdict on `run_fleet` with two workers.
pub fn verdict_on_fleet<R: Threads + Wait + Copy + Send + 'static>(
    rt: R,
    alloc: Global,
    call: &str,
) -> Option<Verdict> {
    if call != "run_fleet" {
        return None;
    }
    match shared_script(alloc) {
        Some(script) => {
            let verdict = runs_open(rt, alloc, &script);
            drop(script);
            verdict
        }
        None => None,
    }
}

/// The script of four devices, shared.
pub fn shared_script(alloc: Global) -> Option<Arc<Script>> {
    match script_of(alloc, FOUR_DEVICES) {
        Some(script) => Arc::new(alloc, script).ok(),
        None => None,
    }
}

fn runs_open<R: Threads + Wait + Copy + Send + 'static>(
    rt: R,
    alloc: Global,
    script: &Arc<Script>,
) -> Option<Verdict> {
    let gate = Arc::new(alloc, OpenGate).ok()?;
    let right = runs(rt, alloc, script, gate);
    Some(judged(right, is_four(&**script)))
}

/// The verdict on `run_stream` with two workers.
pub fn verdict_on_stream<R: Threads + Wait + Copy + Send + 'static>(
    rt: R,
    alloc: Global,
) -> Option<Verdict> {
    let mut output = room(alloc)?;
    let gate = Arc::new(alloc, OpenGate).ok()?;
    let right = runs_stream(rt, alloc, &mut output, gate);
    Some(judged(right, is_front(output.as_slice())))
}

// Capacity for all output.
fn room(alloc: Global) -> Option<Vec<u8>> {
    Vec::with_capacity(alloc, 1000).ok()
}

fn reads(alloc: Global) -> Option<bool> {
    let mut source = FOUR_DEVICES.as_bytes();
    mark(alloc);
    let script = read_source(alloc, &mut source);
    mark(alloc);
    let right = is_read(&script);
    drop(script);
    right
}

// Whether the output of a writing or of a run is `wanted`. `None` where memory was refused.
fn is_written(done: Result<(), RunError>, output: &[u8], wanted: &str) -> Option<bool> {
    match done {
        Ok(()) => Some(output == wanted.as_bytes()),
        Err(RunError::NoMemory) | Err(RunError::Script(ScriptFault::NoMemory)) => None,
        Err(_) => Some(false),
    }
}

const TWO_REPORTS: &str =
    "1 pulled taken 1 handed 0 notices 0 dropped 1 learned no\n2 refused C1 NotHeld\n";

fn reports(alloc: Global, script: &Script) -> Option<bool> {
    let mut output = room(alloc)?;
    let right = writes(alloc, script, &mut output);
    unless_changed(right, is_first_of_two(output.as_slice()))
}

// Whether the output is the text of the first report, or empty.
fn is_first_of_two(output: &[u8]) -> bool {
    output.is_empty()
        || output == "1 pulled taken 1 handed 0 notices 0 dropped 1 learned no\n".as_bytes()
}

fn writes(alloc: Global, script: &Script, output: &mut Vec<u8>) -> Option<bool> {
    let reports = [Report::Pulled(COUNTS), Report::NotHeld];
    mark(alloc);
    let done = write_reports(alloc, output, script, &reports);
    mark(alloc);
    drop(reports);
    is_written(done, output.as_slice(), TWO_REPORTS)
}

const PLAN: &str =
    "1 batch 0 after -\n2 batch 0 after -\n3 batch 1 after 1\n4 batch 1 after 2\n5 batch 2 after 4\n6 batch 2 after 3\n7 batch 3 after 6\nbatches 4\n";

/// Whether a plan is written rightly. `None` where memory was refused.
pub fn writes_out_plan(alloc: Global, plan: &Plan) -> Option<bool> {
    let mut output = room(alloc)?;
    let right = writes_plan(alloc, plan, &mut output);
    unless_changed(right, PLAN.as_bytes().starts_with(output.as_slice()))
}

fn writes_plan(alloc: Global, plan: &Plan, output: &mut Vec<u8>) -> Option<bool> {
    mark(alloc);
    let done = write_plan(alloc, output, plan);
    mark(alloc);
    is_written(done, output.as_slice(), PLAN)
}

const SCRIPT: &str = "device cam all\nnew cam 7 5 2024-05-01 sun,beach\nlist cam\n";

const OUTPUT: &str =
    "1 made cam:1 store\n2 list cam store 1 out 0\n  store 7 cam:1 rating 5 day 2024-05-01 words beach,sun\n";

// Whether the output is the text of the first report, or empty.
fn is_front(output: &[u8]) -> bool {
    output.is_empty() || output == "1 made cam:1 store\n".as_bytes()
}

fn plain(alloc: Global) -> Option<Verdict> {
    let mut output = room(alloc)?;
    let right = runs_plain(alloc, &mut output);
    Some(judged(right, is_front(output.as_slice())))
}

fn runs_plain(alloc: Global, output: &mut Vec<u8>) -> Option<bool> {
    let mut source = SCRIPT.as_bytes();
    mark(alloc);
    let done = plain_stream(alloc, &mut source, output);
    mark(alloc);
    is_written(done, output.as_slice(), OUTPUT)
}

fn replayed(alloc: Global) -> Option<Verdict> {
    let mut output = room(alloc)?;
    let mut order = Vec::with_capacity(alloc, 2).ok()?;
    order.push(1).ok()?;
    order.push(2).ok()?;
    let right = replays_stream(alloc, &mut output, order);
    Some(judged(right, is_front(output.as_slice())))
}

fn replays_stream(alloc: Global, output: &mut Vec<u8>, order: Vec<u32>) -> Option<bool> {
    let mut source = SCRIPT.as_bytes();
    mark(alloc);
    let done = replay_stream(alloc, &mut source, output, order);
    mark(alloc);
    is_written(done, output.as_slice(), OUTPUT)
}

const SCRIPT_PLAN: &str = "1 batch 0 after -\n2 batch 1 after 1\nbatches 2\n";

fn planned(alloc: Global) -> Option<Verdict> {
    let mut output = room(alloc)?;
    let right = plans_stream(alloc, &mut output);
    Some(judged(right, SCRIPT_PLAN.as_bytes().starts_with(output.as_slice())))
}

fn plans_stream(alloc: Global, output: &mut Vec<u8>) -> Option<bool> {
    let mut source = SCRIPT.as_bytes();
    mark(alloc);
    let done = plan_stream(alloc, &mut source, output);
    mark(alloc);
    is_written(done, output.as_slice(), SCRIPT_PLAN)
}

fn runs_stream<R: Threads + Wait + Copy + Send + 'static>(
    rt: R,
    alloc: Global,
    output: &mut Vec<u8>,
    gate: Arc<OpenGate>,
) -> Option<bool> {
    let workers = Workers::new(2)?;
    let mut source = SCRIPT.as_bytes();
    mark(alloc);
    let done = run_stream(rt, alloc, &mut source, output, workers, gate);
    mark(alloc);
    if done == Err(RunError::NoWorker) && output.is_empty() {
        return None;
    }
    is_written(done, output.as_slice(), OUTPUT)
}

fn runs<R: Threads + Wait + Copy + Send + 'static>(
    rt: R,
    alloc: Global,
    script: &Arc<Script>,
    gate: Arc<OpenGate>,
) -> Option<bool> {
    let workers = Workers::new(2)?;
    mark(alloc);
    let outcome = run_fleet(rt, alloc, script, workers, gate);
    mark(alloc);
    match outcome {
        Err(RunError::NoWorker) => None,
        outcome => is_run(outcome),
    }
}
