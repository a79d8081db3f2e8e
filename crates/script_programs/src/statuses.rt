//! The exit statuses, and what is said beside them on the error output.
ghost use Rattle.std.specs.Prelude.{◌≡◌};
ghost use Rattle.script_programs.specs.Statuses.{status_of};

use run_error::RunError;
use std::io::Write;

/// Done, or help was asked for.
pub const DONE: u8 = 0;
/// The words of the command line were refused.
pub const BAD_WORDS: u8 = 2;
/// The file can't be read, or has no script.
pub const BAD_SCRIPT: u8 = 3;
// Memory was refused.
const NO_RUN: u8 = 4;
// The output could not be written.
const BAD_OUTPUT: u8 = 5;

/// The status of what was done, whose error is told.
pub fn status_of<E: Write>(done: Result<(), RunError>, err: &mut E) -> u8
    ensures { result ≡ status_of done }
{
    match done {
        Ok(()) => DONE,
        Err(RunError::Script(fault)) => {
            let _ = writeln!(err, "script fault: {fault}");
            BAD_SCRIPT
        }
        Err(error @ (RunError::NoMemory | RunError::NoWorker | RunError::NotLawful)) => {
            let _ = writeln!(err, "run error: {error}");
            NO_RUN
        }
        Err(error @ RunError::Write) => {
            let _ = writeln!(err, "write fault: {error}");
            BAD_OUTPUT
        }
    }
}

/// Tells that memory was refused before anything was done, and gives the status.
pub fn without_memory<E: Write>(err: &mut E) -> u8
    ensures { result ≡ 4 }
{
    status_of(Err(RunError::NoMemory), err)
}
