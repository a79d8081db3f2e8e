//! The script on which calls are made, and the calls of `photo_script`.
use crate::pulls::COUNTS;
use crate::{fleets, plans, runs, sessions, streams, texts};
use photo_script::{
    Report, Script, ScriptFault, push_report, push_unnumbered, read_script, report_text,
};
use std::alloc::Global;
use tool_value_refusals::{Verdict, judged, mark};

/// Four devices, and seven commands in four batches.
pub const FOUR_DEVICES: &str =
    "device a all\ndevice b all\ndevice c all\ndevice d all\nnew a 1 5 2024-01-01 -\nnew c 2 4 2024-01-01 -\npull b a\npull d c\npull c b\nlist a\npull d a\n";

/// The script of that text.
pub fn script_of(alloc: Global, text: &str) -> Option<Script> {
    read_script(alloc, text.as_bytes()).ok()
}

/// Whether it is the script of four devices.
pub fn is_four(script: &Script) -> bool {
    script.devices() == 4
        && script.commands() == 7
        && script.name(0) == "a"
        && script.name(3) == "d"
        && script.filter(3).alternatives() == 1
        && script.tally().pulls == 4
}

/// The verdict on a call on the script of four devices.
pub fn verdict(alloc: Global, library: &str, call: &str) -> Option<Verdict> {
    let made = script_of(alloc, FOUR_DEVICES);
    let verdict = match &made {
        Some(script) => verdict_on(alloc, script, library, call),
        None => None,
    };
    drop(made);
    verdict
}

fn verdict_on(alloc: Global, script: &Script, library: &str, call: &str) -> Option<Verdict> {
    let right = match library {
        "photo_script" => calls_on_script(alloc, script, call),
        "script_text" => texts::calls_on_script(alloc, script, call),
        "photo_batcher" => plans::calls_on_script(alloc, script, call),
        "fleet_steps" => runs::calls_on_script(alloc, script, call),
        _ => of_fleets(alloc, script, library, call),
    };
    Some(judged(right?, is_four(script)))
}

fn of_fleets(alloc: Global, script: &Script, library: &str, call: &str) -> Option<Option<bool>> {
    match library {
        "live_fleet" if call.starts_with("Session::") => {
            sessions::calls_on_script(alloc, script, call)
        }
        "live_fleet" => fleets::calls_on_script(alloc, script, call),
        "fleet_runner" => streams::calls_on_script(alloc, script, call),
        _ => None,
    }
}

/// Turns want of memory into a wrong answer if something changed that has to be as it was.
pub fn unless_changed(right: Option<bool>, unchanged: bool) -> Option<bool> {
    if right.is_none() && !unchanged {
        return Some(false);
    }
    right
}

/// Whether the script that was read is that of four devices. `None` where memory was refused.
pub fn is_read(read: &Result<Script, ScriptFault>) -> Option<bool> {
    match read {
        Ok(script) => Some(is_four(script)),
        Err(ScriptFault::NoMemory) => None,
        Err(_) => Some(false),
    }
}

/// The verdict on reading a script.
pub fn verdict_on_reading(alloc: Global) -> Option<Verdict> {
    mark(alloc);
    let read = read_script(alloc, FOUR_DEVICES.as_bytes());
    mark(alloc);
    let right = is_read(&read);
    drop(read);
    Some(judged(right, true))
}

fn calls_on_script(alloc: Global, script: &Script, call: &str) -> Option<Option<bool>> {
    match call {
        "report_text" => Some(writes(alloc, script)),
        "push_report" => Some(push(alloc, script, Some(8))),
        "push_unnumbered" => Some(push(alloc, script, None)),
        _ => None,
    }
}

const TEXT: &str = "8 pulled taken 1 handed 0 notices 0 dropped 1 learned no\n";

fn writes(alloc: Global, script: &Script) -> Option<bool> {
    let report = Report::Pulled(COUNTS);
    mark(alloc);
    let text = report_text(alloc, script, 8, &report);
    mark(alloc);
    drop(report);
    let right = match &text {
        Ok(text) => Some(text.as_str() == TEXT),
        Err(_) => None,
    };
    drop(text);
    right
}

fn push(alloc: Global, script: &Script, number: Option<u32>) -> Option<bool> {
    let mut text = String::new(alloc);
    let right = if text.push_str("-").is_ok() {
        pushes(alloc, &mut text, script, number)
    } else {
        None
    };
    drop(text);
    right
}

// Appends a report to a dash, with a number or without one. After want of memory a part of the report's text may be there.
fn pushes(alloc: Global, text: &mut String, script: &Script, number: Option<u32>) -> Option<bool> {
    let report = Report::Pulled(COUNTS);
    mark(alloc);
    let done = match number {
        Some(number) => push_report(text, script, number, &report).is_ok(),
        None => push_unnumbered(text, script, &report).is_ok(),
    };
    mark(alloc);
    drop(report);
    if done {
        return Some(text.strip_prefix("-") == text_of(number));
    }
    unless_changed(None, text.starts_with("-"))
}

// The report's text, with its number or without it.
fn text_of(number: Option<u32>) -> Option<&'static str> {
    match number {
        Some(_) => Some(TEXT),
        None => TEXT.strip_prefix("8 "),
    }
}
