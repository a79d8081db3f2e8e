//! A fleet to talk to: a script is given line by line, and each report is told at once. Its invariant: **the lines that were taken
//! are a script, and what was told of each is what its run adds to the reports**. A line that is refused changes nothing.
//!
//! Tests: `tools/gate/check-shell`.
#![tactic(auto)]

mod answer;
mod helps;
mod input;
mod kind;
mod lines;
mod opening;
mod own;
mod serve;
mod talk;
mod words;

use input::Input;
use script_programs::{without_memory, without_words};
use serve::serve;
use std::alloc::Global;
use std::env;
use std::io::{self, BufWriter, IsTerminal, Write};
use std::process::ExitCode;
use words::command_line;

fn main(rt: HostRuntime) -> ExitCode {
    ExitCode::from(status(&rt))
}

// The exit status of the program on the words of its command line.
fn status(rt: &HostRuntime) -> u8 {
    let mut err = rt.stderr();
    match given_words(rt, rt.alloc()) {
        Ok(words) => answered(rt, &words, &mut err),
        Err(error) => {
            let command = command_line(rt.alloc());
            without_words(rt.alloc(), error.kind(), command, &mut err)
        }
    }
}

// Talks on the standard streams. Each answer is gathered before it is written.
fn answered<E: Write>(rt: &HostRuntime, words: &[String], err: &mut E) -> u8 {
    let (stdin, stdout) = (rt.stdin(), rt.stdout());
    let is_typed = stdin.is_terminal() && stdout.is_terminal();
    let Ok(mut input) = Input::new(rt.alloc(), stdin, is_typed) else {
        return without_memory(err);
    };
    match BufWriter::new(rt.alloc(), stdout) {
        Ok(mut out) => serve(rt, rt.alloc(), words, &mut input, &mut out, err),
        Err(_) => without_memory(err),
    }
}

// The words of the command line, the program's name first.
fn given_words(rt: &HostRuntime, alloc: Global) -> io::Result<Vec<String>> {
    let mut words = Vec::new(alloc);
    for word in env::args(rt)? {
        words.push(word)?;
    }
    Ok(words)
}
