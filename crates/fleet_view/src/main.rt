//! Shows scripts of a photo collection to people: where each picture is once a script has run, its run as a chart or a page, and
//! what is wrong with a script that is refused. Its invariant: **a status says what was shown**: the view that the words ask for,
//! whole, which the libraries of views make; else nothing but why.
//!
//! Tests: `tools/gate/check-view`.
#![tactic(auto)]

mod helps;
mod orders;
mod remarks;
mod serve;
mod words;

use script_programs::{without_memory, without_words};
use serve::serve;
use std::alloc::Global;
use std::env;
use std::io::{self, BufWriter, Write};
use std::process::ExitCode;
use words::command_line;

fn main(rt: HostRuntime) -> ExitCode {
    ExitCode::from(status(&rt))
}

// The exit status of the program on the words of its command line.
fn status(rt: &HostRuntime) -> u8 {
    let mut err = rt.stderr();
    match given_words(rt, rt.alloc()) {
        Ok(words) => answer(rt, &words, &mut err),
        Err(error) => {
            let command = command_line(rt.alloc());
            without_words(rt.alloc(), error.kind(), command, &mut err)
        }
    }
}

// Output is gathered before it is written.
fn answer<E: Write>(rt: &HostRuntime, words: &[String], err: &mut E) -> u8 {
    match BufWriter::new(rt.alloc(), rt.stdout()) {
        Ok(mut out) => serve(rt, rt.alloc(), words, &mut rt.stdin(), &mut out, err),
        Err(_) => without_memory(err),
    }
}

// The words of the command line, the program's name first.
fn given_words(rt: &HostRuntime, alloc: Global) -> io::Result<Vec<String>> {
    let mut words = Vec::new(alloc);
    for word in env::args(rt)? {
        words.push(word)?;
    }
    Ok(words)
}
