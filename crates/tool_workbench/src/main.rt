//! Runs work on the libraries for the tools that measure and compare them. The first word of the command line names the work,
//! and the input follows on standard input:
//!
//!     tool_workbench knowledge      lines such as `learn_all 1000 5`: a kind of work, a number of pictures and how often
//!     tool_workbench text           a script: writes its text in its one form, or its fault
//!     tool_workbench audit TIMES    a script: runs it, and audits the outcome that many times
//!
//! The status is 0 where the command line is one of these, all work was done and each audit said yes.
#![tactic(auto)]

mod growing;
mod questions;
mod rounds;
mod scripts;
mod table;
mod work;

use std::process::ExitCode;
use std::{env, io};

fn main(rt: HostRuntime) -> ExitCode {
    ExitCode::from(u8::from(!is_done(rt)))
}

fn is_done(rt: HostRuntime) -> bool {
    match words_of(rt) {
        Some(words) => does(rt, &words),
        None => false,
    }
}

// The words of the command line, the program's name first.
fn words_of(rt: HostRuntime) -> Option<Vec<String>> {
    env::args(&rt).ok()?.collect(rt.alloc()).ok()
}

fn does(rt: HostRuntime, words: &[String]) -> bool {
    match words {
        [_, kind] => does_kind(rt, kind.as_str()),
        [_, kind, times] => kind.as_str() == "audit" && audits(rt, times.as_str()),
        _ => false,
    }
}

fn does_kind(rt: HostRuntime, kind: &str) -> bool {
    match kind {
        "knowledge" => works(rt).is_ok(),
        "text" => scripts::write_text(rt).is_ok(),
        _ => false,
    }
}

fn audits(rt: HostRuntime, times: &str) -> bool {
    match times.parse::<u32>() {
        Ok(times) => scripts::is_audited(rt, times),
        Err(_) => false,
    }
}

fn works(rt: HostRuntime) -> io::Result<()> {
    for line in rt.lines(rt.alloc()) {
        tell(rt, &line?)?;
    }
    Ok(())
}

fn tell(rt: HostRuntime, line: &str) -> io::Result<()> {
    let done = work::of_line(rt.alloc(), line)?;
    println!(rt; "{done}")
}
