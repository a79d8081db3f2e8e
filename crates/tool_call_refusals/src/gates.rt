//! One command of a run by a worker, between the two calls of the run's gate.
use crate::runs::is_run;
use crate::scripts::is_four;
use crate::streams::shared_script;
use fleet_runner::{Gate, Workers, run_fleet};
use photo_script::{Script, Totals};
use std::alloc::Global;
use std::sync::{Arc, Wait};
use std::thread::Threads;
use tool_value_refusals::{Verdict, judged, mark};

// The number of the command that is marked, a pull.
const MARKED: u32 = 5;

// Marks the beginning and the end of that command.
#[derive(Drop)]
struct Marks {
    alloc: Global,
}

impl Marks {
    fn called(&self, number: u32) {
        if number == MARKED {
            mark(self.alloc);
        }
    }
}

impl Gate for Marks {
    fn before(&self, number: u32) {
        self.called(number);
    }

    fn after(&self, number: u32, _seen: Totals) {
        self.called(number);
    }
}

/// The verdict on `run_fleet` with one worker, where only one command's requests for memory are counted.
pub fn verdict<R: Threads + Wait + Copy + Send + 'static>(rt: R, alloc: Global) -> Option<Verdict> {
    match shared_script(alloc) {
        Some(script) => {
            let verdict = verdict_on(rt, alloc, &script);
            drop(script);
            verdict
        }
        None => None,
    }
}

fn verdict_on<R: Threads + Wait + Copy + Send + 'static>(
    rt: R,
    alloc: Global,
    script: &Arc<Script>,
) -> Option<Verdict> {
    let gate = Arc::new(alloc, Marks { alloc }).ok()?;
    let right = runs(rt, alloc, script, gate);
    Some(judged(right, is_four(&**script)))
}

fn runs<R: Threads + Wait + Copy + Send + 'static>(
    rt: R,
    alloc: Global,
    script: &Arc<Script>,
    gate: Arc<Marks>,
) -> Option<bool> {
    let workers = Workers::new(1)?;
    let right = is_run(run_fleet(rt, alloc, script, workers, gate));
    if right.is_none() {
        // The gate isn't called after a command that was refused memory.
        mark(alloc);
    }
    right
}
