//! A fleet whose text is as long as a script's may be, and one with as many commands.
use crate::saved::{Became, change, declare, is_loaded};
use live_fleet::Session;
use photo_script::{GrowingScript, MAX_COMMANDS, MAX_TEXT_BYTES};
use std::alloc::Global;

// A remark of 1,024 bytes with its LF.
fn remark(alloc: Global) -> Option<String> {
    let mut line = String::new(alloc);
    line.push_str("#").ok()?;
    for _ in 0..1_022 {
        line.push_str("-").ok()?;
    }
    Some(line)
}

// Fills the text with remarks, up to its last 1,024 bytes.
fn fill(alloc: Global, growing: &mut GrowingScript, text: &mut String) -> bool {
    let Some(line) = remark(alloc) else {
        return false;
    };
    for _ in 0..MAX_TEXT_BYTES / 1_024 - 1 {
        if !declare(growing, text, line.as_str()) {
            return false;
        }
    }
    true
}

// Makes pictures by the same line until the text takes no more: what became of the first and of the last one.
fn made_until_full(
    alloc: Global,
    growing: &mut GrowingScript,
    text: &mut String,
    session: &mut Session,
) -> Option<(Became, Became)> {
    let first = change(
        alloc,
        growing,
        text,
        session,
        "new a 7 5 2026-07-01 x",
        false,
    )?;
    let mut last = first;
    for _ in 0..60 {
        last = change(
            alloc,
            growing,
            text,
            session,
            "edit a 7 5 2026-07-01 x",
            false,
        )?;
    }
    Some((first, last))
}

fn is_full_text_saved(alloc: Global) -> bool {
    let mut growing = GrowingScript::new(alloc);
    let mut text = String::new(alloc);
    if !declare(&mut growing, &mut text, "device a all") || !fill(alloc, &mut growing, &mut text) {
        return false;
    }
    let Ok(mut session) = Session::of_script(alloc, growing.script()) else {
        return false;
    };
    let made = made_until_full(alloc, &mut growing, &mut text, &mut session);
    made == Some((Became::Saved, Became::Refused)) && is_loaded(alloc, text.as_str(), &session)
}

// Lists a device as often as a script has room for, and makes a picture then: what became of that.
fn made_after_all(
    alloc: Global,
    growing: &mut GrowingScript,
    text: &mut String,
    session: &mut Session,
) -> Option<Became> {
    for _ in 0..MAX_COMMANDS {
        if change(alloc, growing, text, session, "remove a 7", false)? != Became::Saved {
            return None;
        }
    }
    change(
        alloc,
        growing,
        text,
        session,
        "new a 7 5 2026-07-01 x",
        false,
    )
}

fn are_all_commands_saved(alloc: Global) -> bool {
    let mut growing = GrowingScript::new(alloc);
    let mut text = String::new(alloc);
    if !declare(&mut growing, &mut text, "device a all") {
        return false;
    }
    let Ok(mut session) = Session::of_script(alloc, growing.script()) else {
        return false;
    };
    let made = made_after_all(alloc, &mut growing, &mut text, &mut session);
    made == Some(Became::Refused) && is_loaded(alloc, text.as_str(), &session)
}

#[test]
fn a_full_text(rt: HostRuntime) {
    assert!(rt; is_full_text_saved(rt.alloc()));
}

#[test]
fn all_commands(rt: HostRuntime) {
    assert!(rt; are_all_commands_saved(rt.alloc()));
}
