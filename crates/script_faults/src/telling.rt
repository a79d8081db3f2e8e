//! The text that explains a fault: what is wrong with a script, where, and how to mend it.
use crate::cause::Cause;
use crate::field_cause as causes;
use crate::filter_cause::bad_filter;
use crate::lines::{Line, Span};
use crate::number_cause::bad_number;
use crate::odd::odd_of;
use crate::word_cause::bad_words;
use script_reader::{LineFault, ScriptFault};
use std::alloc::{AllocError, Global};
use std::str::from_utf8;
use unicode_width::UnicodeWidthStr;

// At most that many bytes of a line are shown.
const SHOWN: usize = 1024;

/// The text that explains the fault of a script's bytes, as far as they could be read.
pub fn fault_view(alloc: Global, bytes: &[u8], fault: ScriptFault) -> Result<String, AllocError> {
    let mut text = String::new(alloc);
    push_fault(alloc, &mut text, bytes, fault)?;
    Ok(text)
}

fn push_fault(
    alloc: Global,
    text: &mut String,
    bytes: &[u8],
    fault: ScriptFault,
) -> Result<(), AllocError> {
    writeln!(text, "script fault: {fault}")?;
    match fault {
        ScriptFault::Read => text.push_str(
            "known:    the file can't be opened or read\nmend:     look at its name, and whether it is a folder\n",
        ),
        ScriptFault::TooLarge => text.push_str(
            "known:    it has more than 8,388,608 bytes\nmend:     leave some lines out\n",
        ),
        ScriptFault::NotUtf8 => push_not_utf8(text, bytes),
        ScriptFault::NoMemory => text.push_str("mend:     run it where there is more memory\n"),
        ScriptFault::Line { line, fault } => {
            push_line_fault(alloc, text, from_utf8(bytes).unwrap_or(""), line, fault)
        }
    }
}

// Says where the bytes stop being UTF-8.
fn push_not_utf8(text: &mut String, bytes: &[u8]) -> Result<(), AllocError> {
    let good = match from_utf8(bytes) {
        Ok(_) => bytes.len(),
        Err(error) => error.valid_up_to(),
    };
    let mut line = 1usize;
    for byte in bytes.iter().take(good) {
        if *byte == b'\n' {
            line = line.saturating_add(1);
        }
    }
    write!(
        text,
        "known:    the first {good} bytes are UTF-8, up to line {line}\nmend:     save the text as UTF-8\n"
    )
}

fn push_line_fault(
    alloc: Global,
    text: &mut String,
    script: &str,
    number: u32,
    fault: LineFault,
) -> Result<(), AllocError> {
    let place = (number as usize).saturating_sub(1);
    let line = Line::of(script.split('\n').nth(place).unwrap_or(""), number);
    let cause = cause_of(alloc, script, line, fault)?;
    push_marked(alloc, text, line, cause.span)?;
    let (expected, mend) = (cause.expected, cause.mend);
    writeln!(text, "expected: {expected}")?;
    cause.known.push_to(text)?;
    writeln!(text, "mend:     {mend}")
}

fn cause_of<'a>(
    alloc: Global,
    script: &'a str,
    line: Line<'a>,
    fault: LineFault,
) -> Result<Cause<'a>, AllocError> {
    match fault {
        LineFault::LineTooLong => Ok(causes::too_long(line)),
        LineFault::UnknownCommand => causes::unknown_command(alloc, line),
        LineFault::WrongFields => Ok(causes::wrong_fields(script, line)),
        LineFault::BadName => Ok(causes::bad_name(line)),
        LineFault::UnknownDevice => causes::unknown_device(alloc, script, line),
        LineFault::RepeatedDevice => Ok(causes::repeated_device(script, line)),
        LineFault::LateDevice => Ok(causes::late_device(script, line)),
        LineFault::BadNumber => Ok(bad_number(line)),
        LineFault::BadRating => Ok(causes::bad_rating(line)),
        LineFault::BadDate => Ok(causes::bad_date(line)),
        LineFault::BadKeyword => bad_words(alloc, line),
        LineFault::BadFilter => bad_filter(alloc, line),
        LineFault::RepeatedPicture => Ok(causes::repeated_picture(script, line)),
        LineFault::TooMany => Ok(causes::too_many(line)),
        LineFault::SameDevice => Ok(causes::same_device(line)),
    }
}

// Appends the line, and below it carets under a part of it.
fn push_marked(
    alloc: Global,
    text: &mut String,
    line: Line<'_>,
    span: Span,
) -> Result<(), AllocError> {
    let number = line.number;
    let start = text.len();
    write!(text, "  {number}")?;
    let margin = text.len().saturating_sub(start);
    text.push_str(" | ")?;
    push_shown(text, line.text)?;
    text.push_str("\n")?;
    push_repeated(text, ' ', margin)?;
    push_carets(alloc, text, line, span)
}

fn push_carets(
    alloc: Global,
    text: &mut String,
    line: Line<'_>,
    span: Span,
) -> Result<(), AllocError> {
    let before = shown_width(alloc, line.text.get(..span.from).unwrap_or(line.text))?;
    let missing = span.from.saturating_sub(line.text.len());
    let marked = shown_width(alloc, line.at(span))?;
    text.push_str(" | ")?;
    push_repeated(text, ' ', before.saturating_add(missing))?;
    push_repeated(text, '^', marked.max(1))?;
    text.push_str("\n")
}

// Appends a text as it is shown: a mark replaces each character that is easily overlooked.
fn push_shown(text: &mut String, part: &str) -> Result<(), AllocError> {
    let start = text.len();
    for c in part.chars() {
        if text.len().saturating_sub(start) >= SHOWN {
            return text.push_str("\u{2026}");
        }
        text.push(if odd_of(c).is_some() { '\u{fffd}' } else { c })?;
    }
    Ok(())
}

// How many columns a text takes when it is shown.
fn shown_width(alloc: Global, part: &str) -> Result<usize, AllocError> {
    let mut shown = String::new(alloc);
    push_shown(&mut shown, part)?;
    Ok(shown.as_str().width())
}

// Appends a character `count` times.
fn push_repeated(text: &mut String, c: char, count: usize) -> Result<(), AllocError> {
    for _ in 0..count {
        text.push(c)?;
    }
    Ok(())
}
