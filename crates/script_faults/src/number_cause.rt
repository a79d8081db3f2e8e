//! The causes of faults in numbers: of pictures, versions and epochs.
use crate::cause::{Cause, Known};
use crate::lines::{Line, Span};

// The greatest number of a picture, and the greatest number of a version or an epoch.
const MOST_PICTURES: u32 = 999_999_999;

const MOST_VERSIONS: u32 = 100_000;

/// F11: a picture's number isn't one, or a version isn't one.
pub fn bad_number<'a>(line: Line<'a>) -> Cause<'a> {
    number_cause(line).unless_odd(line)
}

fn number_cause<'a>(line: Line<'a>) -> Cause<'a> {
    match NumberFault::of(line.field(2), MOST_PICTURES) {
        Some(fault) => Cause {
            span: line.span(2),
            expected: "a picture's number from 1 to 999999999",
            known: fault.known(MOST_PICTURES),
            mend: fault.mend(),
        },
        None => version_cause(line),
    }
}

// The fault is in a version: it has no colon, or its epoch or its number isn't one.
fn version_cause<'a>(line: Line<'a>) -> Cause<'a> {
    let (author, epoch) = author_in(line);
    let whole = line.span(3);
    let Some((_, number)) = line.at(whole).split_once(':') else {
        return Cause {
            span: whole,
            expected: "a version, NAME:N or NAME.E:N",
            known: Known::Said("it has no colon"),
            mend: "write a colon and the version's number behind the device's name",
        };
    };
    if let Some(span) = epoch {
        if let Some(fault) = NumberFault::of(line.at(span), MOST_VERSIONS) {
            return epoch_cause(span, fault);
        }
    }
    let from = epoch.unwrap_or(author).to.saturating_add(1);
    let fault = NumberFault::of(number, MOST_VERSIONS).unwrap_or(NumberFault::NoDigit);
    Cause {
        span: Span { from, to: whole.to },
        expected: "the version's number from 1 to 100000",
        known: fault.known(MOST_VERSIONS),
        mend: fault.mend(),
    }
}

// The fault is in a version's epoch.
fn epoch_cause<'a>(span: Span, fault: NumberFault) -> Cause<'a> {
    Cause {
        span,
        expected: "an epoch from 1 to 100000; the first one isn't written",
        known: fault.known(MOST_VERSIONS),
        mend: match fault {
            NumberFault::Empty | NumberFault::Zero =>
                "leave the dot and the epoch out for the first epoch",
            _ => fault.mend(),
        },
    }
}

/// The device's name in the version of the fourth field, and the text between that name and the colon.
pub fn author_in(line: Line<'_>) -> (Span, Option<Span>) {
    let Span { from, to } = line.span(3);
    let text = line.at(Span { from, to });
    let colon = text.find(':').unwrap_or(text.len());
    let author = text.get(..colon).unwrap_or(text);
    let to = from.saturating_add(colon);
    match author.find('.') {
        Some(dot) => {
            let end = from.saturating_add(dot);
            let epoch = Span {
                from: end.saturating_add(1),
                to,
            };
            (Span { from, to: end }, Some(epoch))
        }
        None => (Span { from, to }, None),
    }
}

/// Whether a text is the number of a picture.
pub fn is_picture(text: &str) -> bool {
    NumberFault::of(text, MOST_PICTURES).is_none()
}

// Why a text isn't a number from 1 to a greatest one.
#[derive(Clone, Copy)]
enum NumberFault {
    Empty,
    NoDigit,
    Zero,
    LeadingZero,
    TooGreat,
}

impl NumberFault {
    // The text's first fault.
    fn of(text: &str, greatest: u32) -> Option<NumberFault> {
        if text.is_empty() {
            return Some(NumberFault::Empty);
        }
        let (mut has_others, mut has_value) = (false, false);
        for c in text.chars() {
            has_others |= !c.is_ascii_digit();
            has_value |= c != '0';
        }
        if has_others {
            return Some(NumberFault::NoDigit);
        }
        if !has_value {
            return Some(NumberFault::Zero);
        }
        if text.starts_with('0') {
            return Some(NumberFault::LeadingZero);
        }
        match text.parse::<u32>() {
            Ok(number) if number <= greatest => None,
            _ => Some(NumberFault::TooGreat),
        }
    }

    fn known<'a>(self, greatest: u32) -> Known<'a> {
        match self {
            NumberFault::Empty => Known::Said("nothing stands there"),
            NumberFault::NoDigit => Known::Said("it has a character that is no digit from 0 to 9"),
            NumberFault::Zero => Known::Said("it is zero"),
            NumberFault::LeadingZero => Known::Said("it begins with a zero"),
            NumberFault::TooGreat => Known::Counted("it is greater than ", greatest as usize, ""),
        }
    }

    fn mend(self) -> &'static str {
        match self {
            NumberFault::Empty => "write a number there",
            NumberFault::NoDigit => "write the number in digits alone",
            NumberFault::Zero => "count from 1",
            NumberFault::LeadingZero => "leave out the zeros in front",
            NumberFault::TooGreat => "take a smaller number",
        }
    }
}
