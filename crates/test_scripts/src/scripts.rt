// Tests of texts: each is a script, with its own text and tally, or has a fault.
mod built;
mod grown;
mod known;
mod listed;
mod reports;
mod tables;
mod totals;

use photo_script::{Script, ScriptFault, Tally, read_script};
use script_text::{command_text, script_text};
use std::alloc::Global;

// Each function here owns its value and takes no `rt`, and each table is a constant: this keeps the proofs short. A proof grows
// with the square of the tables that its function names, so each table has a test of its own.

/// The expected result of reading a text.
#[derive(Clone, Copy)]
pub enum Wanted<'a> {
    /// A script, where the text is `read`, or a fault with this text.
    Is(&'a str),
    /// A script that is printed as this text.
    Printed(&'a str),
    /// A script, and whether it has a text.
    HasText(bool),
    /// A script whose command of that number has this line.
    Line(u32, &'a str),
    /// A script with that many changes, pulls and reports.
    Tally(u64, u64, u64),
}

/// Whether reading a text's bytes gives the expected result.
pub fn is_so(alloc: Global, bytes: &[u8], wanted: &Wanted<'_>) -> bool {
    match (read_script(alloc, bytes), wanted) {
        (Ok(script), wanted) => is_script(alloc, &script, wanted),
        (Err(fault), Wanted::Is(text)) => is_told(alloc, fault, text),
        _ => false,
    }
}

// Whether a fault has that text.
fn is_told(alloc: Global, fault: ScriptFault, wanted: &str) -> bool {
    match fault.to_string(alloc) {
        Ok(text) => text.as_str() == wanted,
        Err(_) => false,
    }
}

fn is_script(alloc: Global, script: &Script, wanted: &Wanted<'_>) -> bool {
    match wanted {
        Wanted::Is(text) => *text == "read",
        Wanted::Printed(text) => match script_text(alloc, script) {
            Ok(Some(printed)) => printed.as_str() == *text,
            _ => false,
        },
        Wanted::HasText(has) => match script_text(alloc, script) {
            Ok(printed) => printed.is_some() == *has,
            Err(_) => false,
        },
        Wanted::Line(number, line) => has_line(alloc, script, *number, line),
        Wanted::Tally(changes, pulls, reports) => {
            let wanted = Tally {
                changes: *changes,
                pulls: *pulls,
                reports: *reports,
            };
            script.tally() == wanted
        }
    }
}

// Whether the command of that number of a script has that line.
fn has_line(alloc: Global, script: &Script, number: u32, wanted: &str) -> bool {
    if number == 0 || number as usize > script.commands() {
        return false;
    }
    match command_text(alloc, script, script.command(number)) {
        Ok(line) => line.as_str() == wanted,
        Err(_) => false,
    }
}

/// Whether the two texts, one behind the other, are a script, or have that fault.
pub fn is_answered(alloc: Global, front: &str, text: &str, wanted: &str) -> bool {
    match format!(in alloc; "{front}{text}") {
        Ok(whole) => is_so(alloc, whole.as_bytes(), &Wanted::Is(wanted)),
        Err(_) => false,
    }
}
