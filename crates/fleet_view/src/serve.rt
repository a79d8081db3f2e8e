//! What the program does, from the words to the exit status.
use crate::helps::OVERVIEW;
use crate::orders::push_order;
use crate::remarks::push_remarks;
use crate::words::{Request, View, request_of};
use photo_script::{Script, ScriptFault, read_script};
use run_error::RunError;
use script_faults::fault_view;
use script_pages::{push_chart, push_page};
use script_programs::{BAD_SCRIPT, DONE, Unread, read_file, read_input, refused, status_of};
use script_views::{push_story, push_whereabouts};
use std::alloc::{AllocError, Global};
use std::convert::AsStr;
use std::io::{self, Read, Write};
use std::rt::Files;
use std::str::from_utf8;

// What is told of a script that has no fault.
const NO_FAULT: &str = "no fault: it is a script\n";

/// Does what a command line asks for, and gives the exit status. `words` begins with the program's name.
///
/// 0: what was asked for is written to `out`. 2: the words were refused. 3: the file can't be read or has no script; `fault`
/// wrote why, or why an order isn't lawful. 4: memory was refused. 5: a write failed. What went wrong is told to `err`.
pub fn serve<S: AsStr, R: Files, I: Read, W: Write, E: Write>(
    rt: &R,
    alloc: Global,
    words: &[S],
    input: &mut I,
    out: &mut W,
    err: &mut E,
) -> u8 {
    match request_of(alloc, words) {
        Ok(request) => {
            let source = if request.file == "-" {
                read_input(alloc, input)
            } else {
                read_file(rt, alloc, request.file)
            };
            answer(alloc, &request, &source, out, err)
        }
        Err(refusal) => refused(alloc, &refusal, OVERVIEW, out, err),
    }
}

// Answers by what was read.
fn answer<W: Write, E: Write>(
    alloc: Global,
    request: &Request<'_>,
    source: &Result<Vec<u8>, Unread>,
    out: &mut W,
    err: &mut E,
) -> u8 {
    match perform(alloc, request, source, out) {
        Ok(status) => status,
        Err(error) => {
            let status = status_of(Err(error), err);
            if let Err(Unread::System(reason)) = source {
                let file = request.file;
                let _ = writeln!(err, "known:    {file}: {reason}");
            }
            status
        }
    }
}

// Writes what is asked for of a file, once all of it is made, and gives the status.
fn perform<W: Write>(
    alloc: Global,
    request: &Request<'_>,
    source: &Result<Vec<u8>, Unread>,
    out: &mut W,
) -> Result<u8, RunError> {
    let mut text = String::new(alloc);
    let status = match source {
        Ok(bytes) => push_answer(alloc, &mut text, bytes, request)?,
        Err(Unread::Script(fault)) => push_fault(alloc, &mut text, &[], *fault, &request.view)?,
        Err(Unread::System(reason)) => push_unread(&mut text, request, reason)?,
    };
    write_whole(out, &text, status)
}

// Tells why a file can't be read, where its fault is asked for.
fn push_unread(
    text: &mut String,
    request: &Request<'_>,
    reason: &io::Error,
) -> Result<u8, RunError> {
    let View::Fault(_) = request.view else {
        return Err(RunError::Script(ScriptFault::Read));
    };
    let (file, fault) = (request.file, ScriptFault::Read);
    let pushed = write!(
        text,
        "script fault: {fault}\nknown:    {file}: {reason}\nmend:     look at its name, and whether it is a folder\n"
    );
    match pushed {
        Ok(()) => Ok(BAD_SCRIPT),
        Err(_) => Err(RunError::NoMemory),
    }
}

// Appends to a text what is asked for of a file's bytes.
fn push_answer(
    alloc: Global,
    text: &mut String,
    bytes: &[u8],
    request: &Request<'_>,
) -> Result<u8, RunError> {
    match read_script(alloc, bytes) {
        Ok(script) => push_view(alloc, text, bytes, &script, request),
        Err(fault) => push_fault(alloc, text, bytes, fault, &request.view),
    }
}

fn push_view(
    alloc: Global,
    text: &mut String,
    bytes: &[u8],
    script: &Script,
    request: &Request<'_>,
) -> Result<u8, RunError> {
    let pushed = match &request.view {
        View::Where(asked) => push_whereabouts(alloc, text, script, asked),
        View::Story(picture) => push_story(alloc, text, script, *picture),
        View::Page => push_page(alloc, text, script, request.name()),
        View::Chart(columns) => push_chart(alloc, text, script, *columns),
        View::Fault(order) => return push_no_fault(alloc, text, bytes, script, order),
    };
    match pushed {
        Ok(()) => Ok(DONE),
        Err(_) => Err(RunError::NoMemory),
    }
}

// What is said of a script that has no fault, and of an order of its commands where one is given.
fn push_no_fault(
    alloc: Global,
    text: &mut String,
    bytes: &[u8],
    script: &Script,
    order: &[u32],
) -> Result<u8, RunError> {
    let told = if order.is_empty() {
        push_remarked(text, bytes)
    } else {
        push_order(alloc, text, script, order)
    };
    match told {
        Ok(true) => Ok(DONE),
        Ok(false) => Ok(BAD_SCRIPT),
        Err(_) => Err(RunError::NoMemory),
    }
}

fn push_remarked(text: &mut String, bytes: &[u8]) -> Result<bool, AllocError> {
    text.push_str(NO_FAULT)?;
    push_remarks(text, from_utf8(bytes).unwrap_or(""))?;
    Ok(true)
}

// Tells a script's fault where that is asked for. Else it is an error, and want of memory is as that of any command.
fn push_fault(
    alloc: Global,
    text: &mut String,
    bytes: &[u8],
    fault: ScriptFault,
    view: &View,
) -> Result<u8, RunError> {
    match (view, fault) {
        (_, ScriptFault::NoMemory) => Err(RunError::Script(fault)),
        (View::Fault(_), _) => match fault_view(alloc, bytes, fault) {
            Ok(told) => {
                *text = told;
                Ok(BAD_SCRIPT)
            }
            Err(_) => Err(RunError::NoMemory),
        },
        _ => Err(RunError::Script(fault)),
    }
}

// Writes a text, flushes the writer, and passes the status on.
fn write_whole<W: Write>(out: &mut W, text: &str, status: u8) -> Result<u8, RunError> {
    if out.write_all(text.as_bytes()).is_err() || out.flush().is_err() {
        return Err(RunError::Write);
    }
    Ok(status)
}
