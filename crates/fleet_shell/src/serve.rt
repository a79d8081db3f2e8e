//! What the program does, from the words to the exit status.
use crate::helps::OVERVIEW;
use crate::input::Input;
use crate::opening::{Closed, opened};
use crate::talk::{Broken, talk};
use crate::words::file_of;
use photo_script::ScriptFault;
use run_error::RunError;
use script_programs::{BAD_SCRIPT, refused, status_of};
use std::alloc::Global;
use std::convert::AsStr;
use std::io::{self, Read, Write};
use std::rt::Files;

/// Talks as the words ask for, and gives the exit status. `words` begins with the program's name.
///
/// 0: the talk is over, or help was asked for. 2: the words were refused. 3: the file or the input can't be read, or the file
/// has no script. 4: memory was refused before the talk. 5: a write failed. What went wrong is told to `err`.
pub fn serve<S: AsStr, F: Files, I: Read + Drop, W: Write, E: Write>(
    files: &F,
    alloc: Global,
    words: &[S],
    input: &mut Input<I>,
    out: &mut W,
    err: &mut E,
) -> u8 {
    match file_of(alloc, words) {
        Ok(file) => talked(files, alloc, file, input, out, err),
        Err(refusal) => refused(alloc, &refusal, OVERVIEW, out, err),
    }
}

// Talks from the lines of a file on.
fn talked<F: Files, I: Read + Drop, W: Write, E: Write>(
    files: &F,
    alloc: Global,
    file: Option<&str>,
    input: &mut Input<I>,
    out: &mut W,
    err: &mut E,
) -> u8 {
    match opened(files, alloc, file, out) {
        Ok(mut lines) => {
            let done = talk(files, alloc, &mut lines, input, out);
            status_of_talk(done, err)
        }
        Err(Closed::Unread(reason)) => unread(file.unwrap_or(""), &reason, err),
        Err(Closed::Run(error)) => status_of(Err(error), err),
    }
}

fn status_of_talk<E: Write>(done: Result<(), Broken>, err: &mut E) -> u8 {
    match done {
        Ok(()) => status_of(Ok(()), err),
        Err(Broken::Output) => status_of(Err(RunError::Write), err),
        Err(Broken::Input(reason)) => unread("standard input", &reason, err),
    }
}

// Tells that a file can't be read, and the system's reason.
fn unread<E: Write>(file: &str, reason: &io::Error, err: &mut E) -> u8 {
    let fault = ScriptFault::Read;
    let _ = writeln!(err, "script fault: {fault}\nknown:    {file}: {reason}");
    BAD_SCRIPT
}
