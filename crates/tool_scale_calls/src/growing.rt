//! The calls on a script that grows, with its fleet and without one.
use crate::told::tell;
use live_script::{LiveScript, Refusal, plain_text};
use photo_script::{GrowingScript, LineFault, ScriptFault};

// Two lines, of which the second one has a fault. They are shorter than a line of a script, so they have room in its place.
const FAULTY: &[u8] = b"#\nx";

/// Makes them: the last line of these bytes comes after the others, and then the last two lines at once.
pub fn make(rt: HostRuntime, source: &[u8]) {
    let Some((before, line)) = cut(source) else {
        return;
    };
    grow(rt, before, line);
    live(rt, before, line);
    if let Some((first, lines)) = cut_two(source) {
        live(rt, first, lines);
    }
    let done = plain_text(rt.alloc(), source).is_ok();
    tell(rt, "live_script::plain_text", done);
}

// A text, which ends with an LF, before its last line, and that line.
fn cut(source: &[u8]) -> Option<(&[u8], &[u8])> {
    let (_, lines) = source.split_last()?;
    let at = lines.iter().rposition(|byte| *byte == b'\n')?;
    let (before, rest) = lines.split_at(at);
    let (_, line) = rest.split_first()?;
    Some((before, line))
}

// The same with the last two lines, and the LF between them.
fn cut_two(source: &[u8]) -> Option<(&[u8], &[u8])> {
    let (_, lines) = source.split_last()?;
    let (before, _) = cut(source)?;
    let at = before.iter().rposition(|byte| *byte == b'\n')?;
    Some((before.get(0..at)?, lines.get(at + 1..lines.len())?))
}

fn grow(rt: HostRuntime, before: &[u8], line: &[u8]) {
    let made = GrowingScript::of(rt.alloc(), before);
    tell(rt, "script_reader::GrowingScript::of", made.is_ok());
    if let Ok(mut grown) = made {
        push(rt, &mut grown, line);
        drop(grown);
    }
}

fn push(rt: HostRuntime, grown: &mut GrowingScript, line: &[u8]) {
    if !line.contains(&b'\n') {
        let done = grown.push(line).is_ok();
        tell(rt, "script_reader::GrowingScript::push", done);
    }
}

fn live(rt: HostRuntime, before: &[u8], line: &[u8]) {
    let made = LiveScript::of(rt.alloc(), before);
    tell(rt, "live_script::LiveScript::of", made.is_ok());
    drop(made);
    let begun = LiveScript::begin(rt.alloc(), before);
    tell(rt, "live_script::LiveScript::begin", begun.is_ok());
    if let Ok((mut script, _told)) = begun {
        give_faulty(rt, &mut script);
        give(rt, &mut script, line);
        drop(script);
    }
}

fn give(rt: HostRuntime, script: &mut LiveScript, line: &[u8]) {
    let done = script.ask(line).is_ok();
    tell(rt, "live_script::LiveScript::ask", done);
    let done = matches!(script.give(line, usize::MAX), Ok(told) if told.is_taken);
    tell(rt, "live_script::LiveScript::give", done);
}

// The fault of the second one of two lines is told, with its number, and no want of memory.
fn give_faulty(rt: HostRuntime, script: &mut LiveScript) {
    let before = script.text().split(|byte| *byte == b'\n').count();
    let number = before.saturating_add(2);
    let asked = script.ask(FAULTY);
    let given = script.give(FAULTY, usize::MAX);
    let done = matches!(asked, Err(refusal) if is_unknown(refusal, number))
        && matches!(given, Err(refusal) if is_unknown(refusal, number));
    tell(rt, "live_script::LiveScript::give", done);
}

fn is_unknown(refusal: Refusal, number: usize) -> bool {
    match refusal {
        Refusal::Script(ScriptFault::Line { line, fault }) => {
            line as usize == number && fault == LineFault::UnknownCommand
        }
        _ => false,
    }
}
