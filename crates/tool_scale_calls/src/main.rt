//! Makes each public call that may want memory once, with memory there, on values as large as they get: the one word is a number
//! of pictures, and standard input has a script. Prints a line a call, such as `photo_pull::pull: answered`, or `refused` where
//! it wanted memory. `tools/gate/run-long` runs it at the limits and compares the calls with those that the libraries have.
#![tactic(auto)]

mod devices;
mod fleets;
mod growing;
mod knowledges;
mod pulls;
mod questions;
mod scripts;
mod sessions;
mod streams;
mod table;
mod told;
mod values;

use std::io::Read;
use std::process::ExitCode;
use std::{env, io};
use told::tell;

fn main(rt: HostRuntime) -> ExitCode {
    let Some(count) = count_of(rt) else {
        return ExitCode::from(2);
    };
    make_of(rt, count);
    let Ok(source) = source(rt) else {
        return ExitCode::from(1);
    };
    scripts::make(rt, &source);
    growing::make(rt, &source);
    streams::make(rt, &source);
    let done = streams::is_run_stream(rt, rt.alloc(), &source);
    tell(rt, "fleet_runner::run_stream", done);
    let done = streams::is_run(rt, rt.alloc(), &source);
    tell(rt, "fleet_workers::run_fleet", done);
    ExitCode::SUCCESS
}

// The number that is the one word of the command line.
fn count_of(rt: HostRuntime) -> Option<u32> {
    let words: Vec<String> = env::args(&rt).ok()?.collect(rt.alloc()).ok()?;
    match words.as_slice() {
        [_, count] => count.as_str().parse::<u32>().ok(),
        _ => None,
    }
}

fn source(rt: HostRuntime) -> io::Result<Vec<u8>> {
    let mut source = Vec::new(rt.alloc());
    rt.stdin().read_to_end(&mut source)?;
    Ok(source)
}

// Makes the calls on values, devices and fleets of `count` pictures.
fn make_of(rt: HostRuntime, count: u32) {
    values::make(rt, count);
    knowledges::make(rt, count);
    devices::make(rt, count);
    pulls::make(rt, count);
    fleets::make(rt, count);
}
