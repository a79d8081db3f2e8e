//! The calls of a script that grows by lines.
use crate::scripts::{FOUR_DEVICES, is_four, unless_changed};
use photo_script::{GrowingScript, Said, ScriptFault};
use std::alloc::Global;
use tool_value_refusals::{Verdict, judged, mark};

const LINE: &str = "new d 3 5 2024-01-01 x,y";

/// The verdict on a call. `None` where no call has that name, or where the script that is to grow can't be made.
pub fn verdict(alloc: Global, call: &str) -> Option<Verdict> {
    match call {
        "GrowingScript::of" => Some(judged(made(alloc), true)),
        "GrowingScript::push" => Some(judged(grows(alloc)?, true)),
        _ => None,
    }
}

// Whether it has the lines of the script of four devices, of which the last one is empty.
fn is_at_its_start(grown: &GrowingScript) -> bool {
    grown.lines() == 12 && is_four(grown.script())
}

fn made(alloc: Global) -> Option<bool> {
    mark(alloc);
    let made = GrowingScript::of(alloc, FOUR_DEVICES.as_bytes());
    mark(alloc);
    let right = match &made {
        Ok(grown) => Some(is_at_its_start(grown)),
        Err(ScriptFault::NoMemory) => None,
        Err(_) => Some(false),
    };
    drop(made);
    right
}

fn grows(alloc: Global) -> Option<Option<bool>> {
    let Ok(mut grown) = GrowingScript::of(alloc, FOUR_DEVICES.as_bytes()) else {
        return None;
    };
    let right = pushed(alloc, &mut grown, LINE);
    drop(grown);
    Some(right)
}

// Puts a line behind the others. After want of memory they have to be as they were.
fn pushed(alloc: Global, grown: &mut GrowingScript, line: &str) -> Option<bool> {
    if line.as_bytes().contains(&b'\n') {
        return Some(false);
    }
    mark(alloc);
    let said = grown.push(line.as_bytes());
    mark(alloc);
    match said {
        Ok(said) => Some(said == Said::Command && grown.script().commands() == 8),
        Err(ScriptFault::NoMemory) => unless_changed(None, is_at_its_start(grown)),
        Err(_) => Some(false),
    }
}
