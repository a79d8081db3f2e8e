//! Calls on a script.
use crate::runs;
use photo_script::{CommandKind, Report, Script, devices_of, kind_of, read_script, totals_of};
use script_reader::{LineFault, ScriptFault, is_name, read_picture};
use std::alloc::{AllocError, Global};

// A script of two devices and four commands.
const TEXT: &str =
    "device cam all\ndevice frame rating >= 3\nnew cam 1 4 2024-01-01 sea\nknows frame 1 cam:1\npull frame cam\nlist cam\n";

/// The groups of calls on that script: `devices_of`, `kind_of`, `totals_of`, fields of a line and its readers, and those on its plan and on its run's
/// outcome.
pub fn answer(alloc: Global, group: &str, times: u32) -> Option<bool> {
    let read = read_script(alloc, TEXT.as_bytes());
    let right = match &read {
        Ok(script) => answer_of_group(alloc, script, group, times),
        Err(_) => None,
    };
    drop(read);
    right
}

fn answer_of_group(alloc: Global, script: &Script, group: &str, times: u32) -> Option<bool> {
    match group {
        "script" => Some(answer_of(script, times)),
        "plan" => runs::answer_plan(alloc, script, times),
        _ => runs::answer_outcome(alloc, script, group, times),
    }
}

fn answer_of(script: &Script, times: u32) -> bool {
    for _ in 0..times {
        if !has_devices(script) || !has_commands(script) || !has_totals(script) {
            return false;
        }
        if !has_fields() || !has_fault_texts() {
            return false;
        }
    }
    true
}

fn has_fields() -> bool {
    is_name("cam")
        && !is_name("Cam")
        && matches!(read_picture("70"), Some(picture) if picture.value() == 70)
        && read_picture("070").is_none()
}

fn has_fault_texts() -> bool {
    let fault = LineFault::BadRating;
    fault.text() == "F12 BadRating" && ScriptFault::Line { line: 3, fault }.text() == fault.text()
}

fn has_devices(script: &Script) -> bool {
    script.devices() == 2 && script.name(1) == "frame" && script.filter(1).alternatives() == 1
}

fn has_commands(script: &Script) -> bool {
    if script.commands() != 4 {
        return false;
    }
    let tally = script.tally();
    devices_of(script.command(2)) == (1, None)
        && devices_of(script.command(3)) == (1, Some(0))
        && kind_of(script.command(3)) == CommandKind::Pull
        && tally.changes == 1
        && tally.pulls == 1
        && tally.reports == 2
}

/// Reads a script of `times` lines with equal words, which share them.
pub fn answer_same_words(alloc: Global, times: u32) -> Option<bool> {
    let mut text = String::new(alloc);
    Some(push_edits(&mut text, times).is_ok() && reads(alloc, &text, times))
}

fn push_edits(text: &mut String, times: u32) -> Result<(), AllocError> {
    text.push_str("device cam all\n")?;
    for _ in 0..times {
        text.push_str("edit cam 1 4 2024-01-01 sea,ball,sun\n")?;
    }
    Ok(())
}

fn reads(alloc: Global, text: &str, times: u32) -> bool {
    let read = read_script(alloc, text.as_bytes());
    let right = match &read {
        Ok(script) => script.commands() == times as usize,
        Err(_) => false,
    };
    drop(read);
    right
}

// Whether the totals are right for the report of a single question, which moves nothing.
fn has_totals(script: &Script) -> bool {
    let totals = totals_of(script, &[Report::Knows(false)]);
    totals.changes == 1 && totals.pulls == 1 && totals.reports == 2 && totals.moved == 0
}
