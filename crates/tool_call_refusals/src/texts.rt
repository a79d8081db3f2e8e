//! Calls of `script_text`.
use crate::scripts::FOUR_DEVICES;
use photo_script::Script;
use script_text::{command_text, script_text};
use std::alloc::Global;
use tool_value_refusals::mark;

/// Whether a call on the script of four devices gives the right answer. The outer `None` means that no call has the name, the
/// inner one that memory was refused.
pub fn calls_on_script(alloc: Global, script: &Script, call: &str) -> Option<Option<bool>> {
    match call {
        "script_text" => Some(writes(alloc, script)),
        "command_text" => Some(writes_line(alloc, script)),
        _ => None,
    }
}

fn writes(alloc: Global, script: &Script) -> Option<bool> {
    mark(alloc);
    let text = script_text(alloc, script);
    mark(alloc);
    let right = match &text {
        Ok(Some(text)) => Some(text.as_str() == FOUR_DEVICES),
        Ok(None) => Some(false),
        Err(_) => None,
    };
    drop(text);
    right
}

fn writes_line(alloc: Global, script: &Script) -> Option<bool> {
    if script.commands() < 3 {
        return Some(false);
    }
    mark(alloc);
    let line = command_text(alloc, script, script.command(3));
    mark(alloc);
    let right = match &line {
        Ok(line) => Some(line.as_str() == "pull b a"),
        Err(_) => None,
    };
    drop(line);
    right
}
