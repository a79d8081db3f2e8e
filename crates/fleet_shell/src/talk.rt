//! The talk: line after line is read and answered at once.
use crate::answer::{Answer, answer_to, write_answer};
use crate::input::{Input, Next};
use crate::lines::Lines;
use photo_script::ScriptFault;
use script_faults::fault_view;
use std::alloc::Global;
use std::io::{self, Read, Write};
use std::rt::Files;

/// What asks for a line on a terminal.
const PROMPT: &[u8] = b"> ";

/// Why a talk ends before its input does.
#[derive(Drop)]
pub enum Broken {
    /// The output can't be written.
    Output,
    /// The input can't be read, for that reason.
    Input(io::Error),
}

/// Answers line after line, up to `quit` or the input's end. Each answer is flushed. Whoever types gets a prompt before each line,
/// and a line's end behind the input's end.
pub fn talk<F: Files, I: Read + Drop, W: Write>(
    files: &F,
    alloc: Global,
    lines: &mut Lines,
    input: &mut Input<I>,
    out: &mut W,
) -> Result<(), Broken> {
    for _ in 0..u64::MAX {
        prompt(out, PROMPT, input.is_typed)?;
        match input.next_line() {
            Next::End => return prompt(out, b"\n", input.is_typed),
            Next::Failed(error) => return Err(Broken::Input(error)),
            next => {
                let answer = answer_to_next(files, alloc, lines, next);
                if let Answer::Quit = answer {
                    return Ok(());
                }
                tell(out, &answer)?;
            }
        }
    }
    Ok(())
}

// Answers what came of the input.
fn answer_to_next<F: Files>(files: &F, alloc: Global, lines: &mut Lines, next: Next) -> Answer {
    match next {
        Next::Line(line) => answer_to(files, alloc, lines, &line),
        Next::TooLong => too_long(alloc),
        Next::NoMemory => Answer::NoMemory,
        Next::End | Next::Failed(_) => Answer::Quit,
    }
}

// The answer to a line with more bytes than a script may have.
fn too_long(alloc: Global) -> Answer {
    match fault_view(alloc, &[], ScriptFault::TooLarge) {
        Ok(text) => Answer::Fault(ScriptFault::TooLarge, text),
        Err(_) => Answer::NoMemory,
    }
}

// Writes what only one who types gets.
fn prompt<W: Write>(out: &mut W, text: &[u8], is_typed: bool) -> Result<(), Broken> {
    if is_typed && (out.write_all(text).is_err() || out.flush().is_err()) {
        return Err(Broken::Output);
    }
    Ok(())
}

fn tell<W: Write>(out: &mut W, answer: &Answer) -> Result<(), Broken> {
    match write_answer(out, answer) {
        Ok(()) => Ok(()),
        Err(_) => Err(Broken::Output),
    }
}
