//! Runs a script by four workers, writes its reports, and audits what it led to: an example of docs/LIBRARY.md.
#![tactic(auto)]

use fleet_runner::{OpenGate, RunError, Workers, audit, read_source, run_fleet, write_reports};
use std::alloc::Global;
use std::io::{self, Read, Write};
use std::sync::{Arc, Wait};
use std::thread::Threads;

// Whether each device is sound afterwards, and nothing that is current is lost.
fn example_run_and_audit<R: Read, W: Write, T: Threads + Wait + Copy + Send + 'static>(
    rt: T,
    alloc: Global,
    source: &mut R,
    out: &mut W,
) -> Result<bool, RunError> {
    let script = read_source(alloc, source).map_err(RunError::Script)?;
    let script = Arc::new(alloc, script)?;
    let gate = Arc::new(alloc, OpenGate)?;
    let workers = Workers::new(4).unwrap();
    let outcome = run_fleet(rt, alloc, &script, workers, gate)?;
    write_reports(alloc, out, &script, &outcome.reports)?;
    Ok(audit(&outcome.devices, &outcome.log))
}

fn main(rt: HostRuntime) -> io::Result<()> {
    let (mut source, mut out) = (rt.stdin(), rt.stdout());
    match example_run_and_audit(rt, rt.alloc(), &mut source, &mut out) {
        Ok(sound) => println!(rt; "sound: {sound}"),
        Err(error) => println!(rt; "{error}"),
    }
}
