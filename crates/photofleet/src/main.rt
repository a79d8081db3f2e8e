//! Runs scripts of a photo collection and prints the reports, or says which commands can run at once. **Its words, files and
//! outputs are the system's**; `photofleet_cli` does the rest.
//!
//! Tests: those in `src/tests.rt`.
#![tactic(auto)]

mod arguments;
mod opener;

use arguments::Arguments;
use opener::FileOpener;
use photofleet_cli::{serve, without_memory, without_words};
use std::io::BufWriter;
use std::process::ExitCode;
use std::sync::Wait;
use std::thread::Threads;

fn main(rt: HostRuntime) -> ExitCode {
    ExitCode::from(status(&rt, rt))
}

// The exit status of the program for its command line. Output is buffered, and workers run in `threads`.
fn status<T: Threads + Wait + Copy + Send + 'static>(rt: &HostRuntime, threads: T) -> u8 {
    let mut err = rt.stderr();
    let given = match Arguments::read(rt, rt.alloc()) {
        Ok(given) => given,
        Err(error) => return without_words(rt.alloc(), error.kind(), &mut err),
    };
    let words = match given.words(rt.alloc()) {
        Ok(words) => words,
        Err(error) => return without_words(rt.alloc(), error.kind(), &mut err),
    };
    let Ok(mut out) = BufWriter::new(rt.alloc(), rt.stdout()) else {
        return without_memory(&mut err);
    };
    let mut opener = FileOpener::new(rt, rt.stdin());
    serve(
        threads,
        rt.alloc(),
        words.as_slice(),
        &mut opener,
        &mut out,
        &mut err,
    )
}

#[cfg(test)]
mod tests;
