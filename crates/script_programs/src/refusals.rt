//! Answers to command lines that ask for no work: help, the version, or why words are refused.
ghost use Rattle.std.specs.Prelude.{◌≡◌, ◌≢◌, ◌⊎◌, ◌<◌, length, true};
ghost use Rattle.std.specs.declared.io.ErrorKind.TheVariants.{OutOfMemory};
ghost use Rattle.clap.specs.Words.{kind_of};
ghost use Rattle.script_programs.specs.Helps.{AppendsSome, IsWish};
ghost use Rattle.script_programs.specs.Statuses.{is_status};

use crate::statuses::{BAD_WORDS, DONE, status_of, without_memory};
use clap::Command;
use clap::error::ErrorKind;
use run_error::RunError;
use std::alloc::{AllocError, Global};
use std::io::{self, Write};

/// Writes the help or the version to `out`, if that is asked for; else says on `err` why the words are refused. Gives the status.
/// `overview` is written where `clap` has no text, of which no contract says that it isn't empty.
///
/// 0: help or the version was asked for. 2: the words are refused. 4: memory was refused. 5: the text can't be written.
pub fn refused<W: Write, E: Write>(
    alloc: Global,
    refusal: &clap::Error,
    overview: &str,
    out: &mut W,
    err: &mut E,
) -> u8
    requires { 0 < length overview.now }
    ensures status { is_status result ≡ true }
    ensures of_words { result ≢ 3 }
    ensures help { (result ≡ 0) ⊎ (result ≡ 5) → IsWish (kind_of refusal.now) }
    ensures done { result ≡ 0 → AppendsSome (W.contents out.old) (W.contents out.new) }
    ensures words { result ≡ 2 → (IsWish (kind_of refusal.now) → ⊥) × (kind_of refusal.now ≢ ErrorKind.OutOfMemory) }
    ensures nothing { (result ≡ 2) ⊎ (result ≡ 4) → out.new ≡ out.old }
{
    match refusal.kind() {
        ErrorKind::OutOfMemory => without_memory(err),
        ErrorKind::DisplayHelp | ErrorKind::DisplayVersion => {
            shown(alloc, refusal, overview, out, err)
        }
        _ => bad_words(alloc, refusal, err),
    }
}

fn shown<W: Write, E: Write>(
    alloc: Global,
    wish: &clap::Error,
    overview: &str,
    out: &mut W,
    err: &mut E,
) -> u8
    requires { 0 < length overview.now }
    ensures status { (result ≡ 0) ⊎ ((result ≡ 4) ⊎ (result ≡ 5)) }
    ensures done { result ≡ 0 → AppendsSome (W.contents out.old) (W.contents out.new) }
    ensures nothing { result ≡ 4 → out.new ≡ out.old }
{
    let Ok(text) = wish.to_string(alloc) else {
        return without_memory(err);
    };
    let shown = if text.is_empty() {
        overview
    } else {
        text.as_str()
    };
    if out.write_all(shown.as_bytes()).is_err() || out.flush().is_err() {
        return status_of(Err(RunError::Write), err);
    }
    DONE
}

// Says on `err` why the words are refused.
fn bad_words<E: Write>(alloc: Global, refusal: &clap::Error, err: &mut E) -> u8
    ensures { (result ≡ 2) ⊎ (result ≡ 4) }
{
    let Ok(text) = refusal.to_string(alloc) else {
        return without_memory(err);
    };
    let _ = err.write_all(text.as_bytes());
    BAD_WORDS
}

/// Says on `err` why the command line gave no words, and gives the status: a word that isn't UTF-8 is refused. `command` is the
/// program's command line, if there was memory for that.
pub fn without_words<E: Write>(
    alloc: Global,
    why: io::ErrorKind,
    command: Result<Command<'_>, AllocError>,
    err: &mut E,
) -> u8
    ensures status { (result ≡ 2) ⊎ (result ≡ 4) }
    ensures memory { why ≡ OutOfMemory → result ≡ 4 }
{
    if why == io::ErrorKind::OutOfMemory {
        return without_memory(err);
    }
    match not_utf8(command) {
        Ok(refusal) => bad_words(alloc, &refusal, err),
        Err(_) => without_memory(err),
    }
}

fn not_utf8(command: Result<Command<'_>, AllocError>) -> Result<clap::Error, AllocError> {
    command?.error(
        ErrorKind::InvalidValue,
        "invalid UTF-8 was detected in one or more arguments",
    )
}
