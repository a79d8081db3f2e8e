//! The runs of a script from its bytes to those of its reports, and the run by workers.
use crate::scripts::in_order;
use crate::told::tell;
use fleet_runner::{
    OpenGate, Workers, plain_stream, plan_stream, replay_stream, run_fleet, run_stream,
};
use photo_script::{Script, read_script};
use std::alloc::Global;
use std::sync::{Arc, Wait};
use std::thread::Threads;

/// Makes those on one thread on the script of these bytes.
pub fn make(rt: HostRuntime, source: &[u8]) {
    let done = is_plain_stream(rt.alloc(), source);
    tell(rt, "fleet_runner::plain_stream", done);
    let done = is_plan_stream(rt.alloc(), source);
    tell(rt, "fleet_runner::plan_stream", done);
    let made = read_script(rt.alloc(), source);
    if let Ok(script) = &made {
        let done = is_replay_stream(rt.alloc(), source, script);
        tell(rt, "fleet_runner::replay_stream", done);
    }
    drop(made);
}

fn is_plain_stream(alloc: Global, source: &[u8]) -> bool {
    let mut reader = source;
    let mut output = Vec::new(alloc);
    plain_stream(alloc, &mut reader, &mut output).is_ok()
}

fn is_plan_stream(alloc: Global, source: &[u8]) -> bool {
    let mut reader = source;
    let mut output = Vec::new(alloc);
    plan_stream(alloc, &mut reader, &mut output).is_ok()
}

fn is_replay_stream(alloc: Global, source: &[u8], script: &Script) -> bool {
    let Ok(order) = in_order(alloc, script) else {
        return false;
    };
    let mut reader = source;
    let mut output = Vec::new(alloc);
    replay_stream(alloc, &mut reader, &mut output, order).is_ok()
}

/// Whether the run of the script by 256 workers is written.
pub fn is_run_stream<R: Threads + Wait + Copy + Send + 'static>(
    rt: R,
    alloc: Global,
    source: &[u8],
) -> bool {
    let mut reader = source;
    let mut output = Vec::new(alloc);
    match (Workers::new(256), Arc::new(alloc, OpenGate)) {
        (Some(workers), Ok(gate)) => {
            run_stream(rt, alloc, &mut reader, &mut output, workers, gate).is_ok()
        }
        _ => false,
    }
}

/// Whether the script runs by 256 workers.
pub fn is_run<R: Threads + Wait + Copy + Send + 'static>(
    rt: R,
    alloc: Global,
    source: &[u8],
) -> bool {
    match read_script(alloc, source) {
        Ok(script) => is_script_run(rt, alloc, script),
        Err(_) => false,
    }
}

fn is_script_run<R: Threads + Wait + Copy + Send + 'static>(
    rt: R,
    alloc: Global,
    script: Script,
) -> bool {
    match (
        Workers::new(256),
        Arc::new(alloc, OpenGate),
        Arc::new(alloc, script),
    ) {
        (Some(workers), Ok(gate), Ok(script)) => {
            run_fleet(rt, alloc, &script, workers, gate).is_ok()
        }
        _ => false,
    }
}
