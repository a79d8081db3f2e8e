//! Calls on a script that grows, with its fleet or without one.
use live_script::LiveScript;
use photo_script::{GrowingScript, Said};
use std::alloc::Global;

// A device, a command, and an empty line behind them.
const TEXT: &str = "device cam all\nlist cam\n";

/// `new`, the readers and `take_back` of a script that grows.
pub fn answer(alloc: Global, times: u32) -> Option<bool> {
    let made = GrowingScript::of(alloc, TEXT.as_bytes());
    match made {
        Ok(mut grown) => {
            let right = answer_of(alloc, &mut grown, times);
            drop(grown);
            Some(right)
        }
        Err(_) => None,
    }
}

fn answer_of(alloc: Global, grown: &mut GrowingScript, times: u32) -> bool {
    for _ in 0..times {
        if !is_new_empty(alloc) || !grows_back(grown) {
            return false;
        }
    }
    true
}

fn is_new_empty(alloc: Global) -> bool {
    let made = GrowingScript::new(alloc);
    let right = made.lines() == 0 && made.script().devices() == 0;
    drop(made);
    right
}

// An empty line needs no memory.
fn grows_back(grown: &mut GrowingScript) -> bool {
    let said = grown.push(b"");
    let is_there = said == Ok(Said::Nothing) && grown.lines() == 4;
    grown.take_back();
    is_there && grown.lines() == 3 && grown.script().commands() == 1
}

/// The text of a script that runs as it grows, that script and its fleet.
pub fn answer_live(alloc: Global, times: u32) -> Option<bool> {
    let made = LiveScript::of(alloc, TEXT.as_bytes());
    match made {
        Ok(live) => {
            let right = has_text(&live, times);
            drop(live);
            Some(right)
        }
        Err(_) => None,
    }
}

fn has_text(live: &LiveScript, times: u32) -> bool {
    for _ in 0..times {
        if live.text() != TEXT.as_bytes() || live.script().commands() != 1 {
            return false;
        }
        if !live.fleet().is_some_and(|fleet| fleet.devices().len() == 1) {
            return false;
        }
    }
    true
}
