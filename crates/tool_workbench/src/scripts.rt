//! Scripts on standard input: their texts, and audits of their runs.
use fleet_runner::{Outcome, audit, read_source, run_plain};
use photo_script::Script;
use script_text::script_text;
use std::alloc::Global;
use std::io;

/// Writes the script's text, or its fault.
pub fn write_text(rt: HostRuntime) -> io::Result<()> {
    match read_source(rt.alloc(), &mut rt.stdin()) {
        Ok(script) => print_text(rt, &script),
        Err(fault) => println!(rt; "{fault}"),
    }
}

fn print_text(rt: HostRuntime, script: &Script) -> io::Result<()> {
    match script_text(rt.alloc(), script)? {
        Some(text) => print!(rt; "{text}"),
        None => println!(rt; "it has no text within the limits"),
    }
}

/// Whether each of `times` audits of the outcome of the script's run says yes.
pub fn is_audited(rt: HostRuntime, times: u32) -> bool {
    match read_source(rt.alloc(), &mut rt.stdin()) {
        Ok(script) => runs_well(rt.alloc(), &script, times),
        Err(_) => false,
    }
}

fn runs_well(alloc: Global, script: &Script, times: u32) -> bool {
    match run_plain(alloc, script) {
        Ok(outcome) => is_well(&outcome, times),
        Err(_) => false,
    }
}

fn is_well(outcome: &Outcome, times: u32) -> bool {
    for _ in 0..times {
        if !audit(outcome.devices.as_slice(), &outcome.log) {
            return false;
        }
    }
    true
}
