//! A fleet that is saved as it changes, and loaded.
use crate::same::same;
use live_fleet::Session;
use photo_script::{GrowingScript, Script};
use std::alloc::Global;

/// Appends a line that the script takes to the text. False where the script refuses it, or memory was refused.
pub fn declare(growing: &mut GrowingScript, text: &mut String, line: &str) -> bool {
    !line.as_bytes().contains(&b'\n') && growing.push(line.as_bytes()).is_ok() && put(text, line)
}

/// What became of a change.
#[derive(Clone, Copy, PartialEq, Eq, Drop)]
pub enum Became {
    /// It ran, and its line stands in the text.
    Saved,
    /// No text can have its line, so it didn't run.
    Refused,
    /// Its run failed, and its line was taken back.
    Failed,
}

/// Makes the change of a line, as `LIBRARY.md` has it. Where `fails` is set it is run by a session without devices, which
/// refuses it. `None` where memory was refused.
pub fn change(
    alloc: Global,
    growing: &mut GrowingScript,
    text: &mut String,
    session: &mut Session,
    line: &str,
    fails: bool,
) -> Option<Became> {
    if line.as_bytes().contains(&b'\n') || growing.push(line.as_bytes()).is_err() {
        return Some(Became::Refused);
    }
    if !runs(alloc, growing.script(), session, fails) {
        growing.take_back();
        return Some(Became::Failed);
    }
    if put(text, line) {
        Some(Became::Saved)
    } else {
        None
    }
}

fn runs(alloc: Global, script: &Script, session: &mut Session, fails: bool) -> bool {
    let number = script.commands() as u32;
    if !fails {
        return session.run_number(script, number).is_ok();
    }
    match Session::new(alloc, &[]) {
        Ok(mut without) => without.run_number(script, number).is_ok(),
        Err(_) => false,
    }
}

// An LF stands between two lines, and none at the end: a script at the limit has no room for one more.
fn put(text: &mut String, line: &str) -> bool {
    (text.is_empty() || text.push_str("\n").is_ok()) && text.push_str(line).is_ok()
}

/// Whether the fleet that a text saves is this one.
pub fn is_loaded(alloc: Global, text: &str, saved: &Session) -> bool {
    let Ok(growing) = GrowingScript::of(alloc, text.as_bytes()) else {
        return false;
    };
    let Ok(mut loaded) = Session::of_script(alloc, growing.script()) else {
        return false;
    };
    runs_all(growing.script(), &mut loaded) && same(&loaded, saved)
}

fn runs_all(script: &Script, session: &mut Session) -> bool {
    for place in 0..script.commands() {
        if session.run_number(script, place as u32 + 1).is_err() {
            return false;
        }
    }
    true
}
