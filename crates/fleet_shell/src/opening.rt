//! The lines of a file, before the talk begins.
use crate::lines::Lines;
use live_script::Refusal;
use run_error::RunError;
use script_programs::{Unread, read_file};
use std::alloc::Global;
use std::io::{self, Write};
use std::rt::Files;

/// Why there are no lines to begin with.
#[derive(Drop)]
pub enum Closed {
    /// The system's reason why the file can't be read.
    Unread(io::Error),
    /// The file has no script, or memory was refused, or a write failed.
    Run(RunError),
}

/// The lines of a file, whose reports are written to `out`; no lines where no file is named.
pub fn opened<F: Files, W: Write>(
    files: &F,
    alloc: Global,
    file: Option<&str>,
    out: &mut W,
) -> Result<Lines, Closed> {
    let Some(file) = file else {
        return Ok(Lines::none());
    };
    match read_file(files, alloc, file) {
        Ok(bytes) => match told_lines(alloc, &bytes, out) {
            Ok(lines) => Ok(lines),
            Err(error) => Err(Closed::Run(error)),
        },
        Err(Unread::System(error)) => Err(Closed::Unread(error)),
        Err(Unread::Script(fault)) => Err(Closed::Run(RunError::Script(fault))),
    }
}

// The lines of a file with these bytes, whose reports are written.
fn told_lines<W: Write>(alloc: Global, bytes: &[u8], out: &mut W) -> Result<Lines, RunError> {
    match Lines::of(alloc, bytes) {
        Ok((lines, told)) => {
            if out.write_all(&told).is_err() || out.flush().is_err() {
                return Err(RunError::Write);
            }
            Ok(lines)
        }
        Err(refusal) => Err(error_of(refusal)),
    }
}

fn error_of(refusal: Refusal) -> RunError {
    match refusal {
        Refusal::Script(fault) => RunError::Script(fault),
        Refusal::NoMemory => RunError::NoMemory,
    }
}
