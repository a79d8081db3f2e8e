//! The calls of a script that runs as it grows.
use crate::scripts::{FOUR_DEVICES, unless_changed};
use live_script::{LiveScript, Refusal, plain_text};
use photo_script::ScriptFault;
use std::alloc::Global;
use tool_value_refusals::{Verdict, judged, mark};

// A line that comes behind the script of four devices, and what the run prints of it.
const LINE: &str = "new d 3 5 2024-01-01 x,y";

const TOLD: &str = "8 made d:1 store\n";

/// The verdict on a call. `None` where no call has that name, or where the script that is to grow can't be made.
pub fn verdict(alloc: Global, call: &str) -> Option<Verdict> {
    match call {
        "LiveScript::of" => Some(judged(made(alloc), true)),
        "LiveScript::begin" => Some(judged(begun(alloc), true)),
        "LiveScript::give" | "LiveScript::ask" => Some(judged(on_script(alloc, call)?, true)),
        "plain_text" => Some(judged(printed(alloc), true)),
        _ => None,
    }
}

// Whether memory was what was refused.
fn is_memory(refusal: Refusal) -> bool {
    matches!(
        refusal,
        Refusal::NoMemory | Refusal::Script(ScriptFault::NoMemory)
    )
}

fn is_at_its_start(live: &LiveScript) -> bool {
    live.text() == FOUR_DEVICES.as_bytes()
}

fn made(alloc: Global) -> Option<bool> {
    mark(alloc);
    let made = LiveScript::of(alloc, FOUR_DEVICES.as_bytes());
    mark(alloc);
    let right = match &made {
        Ok(live) => Some(is_at_its_start(live)),
        Err(refusal) if is_memory(*refusal) => None,
        Err(_) => Some(false),
    };
    drop(made);
    right
}

fn begun(alloc: Global) -> Option<bool> {
    mark(alloc);
    let begun = LiveScript::begin(alloc, FOUR_DEVICES.as_bytes());
    mark(alloc);
    let right = match &begun {
        Ok((live, told)) => Some(is_at_its_start(live) && told.starts_with(b"1 made a:1 store\n")),
        Err(refusal) if is_memory(*refusal) => None,
        Err(_) => Some(false),
    };
    drop(begun);
    right
}

// What comes of a call on the script of four devices. `None` where that can't be made.
fn on_script(alloc: Global, call: &str) -> Option<Option<bool>> {
    let Ok(mut live) = LiveScript::of(alloc, FOUR_DEVICES.as_bytes()) else {
        return None;
    };
    let right = if call == "LiveScript::give" {
        given(alloc, &mut live)
    } else {
        asked(alloc, &mut live)
    };
    drop(live);
    Some(right)
}

// After want of memory the lines have to be as they were.
fn given(alloc: Global, live: &mut LiveScript) -> Option<bool> {
    mark(alloc);
    let told = live.give(LINE.as_bytes(), 100);
    mark(alloc);
    let right = match &told {
        Ok(told) => Some(told.is_taken && told.text.as_slice() == TOLD.as_bytes()),
        Err(refusal) if is_memory(*refusal) => unless_changed(None, is_at_its_start(live)),
        Err(_) => Some(false),
    };
    drop(told);
    right
}

fn asked(alloc: Global, live: &mut LiveScript) -> Option<bool> {
    mark(alloc);
    let told = live.ask(LINE.as_bytes());
    mark(alloc);
    let right = match &told {
        Ok(text) => Some(text.as_slice() == TOLD.as_bytes() && is_at_its_start(live)),
        Err(refusal) if is_memory(*refusal) => unless_changed(None, is_at_its_start(live)),
        Err(_) => Some(false),
    };
    drop(told);
    right
}

fn printed(alloc: Global) -> Option<bool> {
    mark(alloc);
    let text = plain_text(alloc, FOUR_DEVICES.as_bytes());
    mark(alloc);
    let right = match &text {
        Ok(text) => Some(text.as_str().starts_with("1 made a:1 store\n")),
        Err(refusal) if is_memory(*refusal) => None,
        Err(_) => Some(false),
    };
    drop(text);
    right
}
