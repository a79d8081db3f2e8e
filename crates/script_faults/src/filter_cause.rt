//! The cause of a filter's fault.
use crate::cause::{Cause, Known};
use crate::filter_hint::{Hint, Place, hint_at};
use crate::lines::{Line, Span};
use crate::word_cause::of_word;
use photo_filter_text::{FilterFault, read};
use photo_record::{Word, WordFault};
use std::alloc::{AllocError, Global};

const EXPECTED: &str =
    "a filter: tests joined by and, or and not, with brackets; a test is all, none, rating OP 4, day OP 2026-12-31 or keyword WORD";

/// F15: the text from the third field on isn't a filter, or is a filter that is too wide.
pub fn bad_filter<'a>(alloc: Global, line: Line<'a>) -> Result<Cause<'a>, AllocError> {
    let whole = line.rest(2);
    let fault = filter_fault(alloc, line.at(whole));
    let span = match fault {
        Some(FilterFault::NoMemory) => return Err(AllocError),
        Some(FilterFault::Unexpected(k)) => return unexpected(alloc, line, whole, k),
        Some(FilterFault::BadWord) => return bad_word(alloc, line, whole),
        Some(FilterFault::EndsEarly) => line.end(),
        _ => whole,
    };
    Ok(told(span, fault))
}

// The report on the filter in a part of its line; a filter without a fault of its text is too wide.
fn told(span: Span, fault: Option<FilterFault>) -> Cause<'static> {
    let (known, mend) = match fault {
        Some(FilterFault::EndsEarly) => (
            "the filter ends too early",
            "close each bracket, and write a test behind each and, or and not",
        ),
        Some(FilterFault::TooDeep) => (
            "its tests are nested too deeply: over 32 levels",
            "write it with fewer levels",
        ),
        Some(FilterFault::TooManyTokens) => ("it has over 256 tokens", "write a shorter filter"),
        Some(FilterFault::Empty) => ("it is empty", "write all, or another test"),
        _ => (
            "it is too wide: written out, it or a part of it has over 64 alternatives",
            "join fewer tests by or inside of and",
        ),
    };
    Cause {
        span,
        expected: EXPECTED,
        known: Known::Said(known),
        mend,
    }
}

// Why a text isn't a filter.
fn filter_fault(alloc: Global, text: &str) -> Option<FilterFault> {
    match read(alloc, text) {
        Ok(_) => None,
        Err(fault) => Some(fault),
    }
}

// The filter, which is a part of a line, has its fault at token k, counted from 1.
fn unexpected<'a>(
    alloc: Global,
    line: Line<'a>,
    whole: Span,
    k: usize,
) -> Result<Cause<'a>, AllocError> {
    let (span, place) = token_at(line, whole, k);
    let behind = Span {
        from: span.to,
        to: whole.to,
    };
    let stands_before = k == 1 && filter_fault(alloc, line.at(behind)).is_none();
    let hint = if stands_before {
        before_filter(line.field(0))
    } else {
        hint_at(alloc, place, line.at(span))?
    };
    let cause = Cause {
        span,
        expected: EXPECTED,
        known: hint.known.unwrap_or(Known::Token(k, line.at(span))),
        mend: hint.mend,
    };
    Ok(cause.unless_odd(line))
}

// Token k of the filter, and what may stand in its place.
fn token_at(line: Line<'_>, whole: Span, k: usize) -> (Span, Place) {
    let mut behind = whole;
    let (mut span, mut place) = (line.end(), Place::Test);
    for i in 0..k {
        if i > 0 {
            place = place.behind(line.at(span));
        }
        span = first_token(line, behind).unwrap_or(line.end());
        behind.from = span.to;
    }
    (span, place)
}

// The report on a token in front of a text that is a filter by itself.
fn before_filter<'a>(word: &str) -> Hint<'a> {
    Hint {
        known: Some(Known::Said("what stands behind it is a filter")),
        mend: if word == "device" {
            "leave it out, or write the name as one word"
        } else {
            "leave it out"
        },
    }
}

// The first token in a part of a line: a bracket, or the text up to the next bracket or space.
fn first_token(line: Line<'_>, part: Span) -> Option<Span> {
    let mut open = None;
    for (i, byte) in line.text.bytes().enumerate().take(part.to).skip(part.from) {
        let is_bracket = byte == b'(' || byte == b')';
        match open {
            Some(from) if is_bracket || byte == b' ' => return Some(Span { from, to: i }),
            None if is_bracket => {
                return Some(Span {
                    from: i,
                    to: i.saturating_add(1),
                });
            }
            None if byte != b' ' => open = Some(i),
            _ => {}
        }
    }
    match open {
        Some(from) => Some(Span { from, to: part.to }),
        None => None,
    }
}

// The first token in the place of a keyword's word that isn't a word.
fn bad_word<'a>(alloc: Global, line: Line<'a>, whole: Span) -> Result<Cause<'a>, AllocError> {
    let mut behind = whole;
    let mut is_word = false;
    for _ in 0..line.text.len() {
        let Some(span) = first_token(line, behind) else {
            return Ok(told_of_word(whole, WordFault::Empty));
        };
        let token = line.at(span);
        if is_word {
            if let Some(fault) = word_fault(alloc, token)? {
                return Ok(told_of_word(span, fault).unless_odd(line));
            }
        }
        is_word = !is_word && token == "keyword";
        behind.from = span.to;
    }
    Ok(told_of_word(whole, WordFault::Empty))
}

fn told_of_word<'a>(span: Span, fault: WordFault) -> Cause<'a> {
    let (known, mend) = match fault {
        WordFault::BadCharacter => (
            "the word has a comma, a double quote or a control character",
            "write one word behind each keyword, without that character",
        ),
        WordFault::TooLong => of_word(fault),
        _ => (
            "it stands in the place of a keyword's word and is none",
            "write a word without commas, quotes and brackets",
        ),
    };
    Cause {
        span,
        expected: EXPECTED,
        known: Known::Said(known),
        mend,
    }
}

// Why a text isn't a word.
fn word_fault(alloc: Global, text: &str) -> Result<Option<WordFault>, AllocError> {
    match Word::read(alloc, text) {
        Ok(_) => Ok(None),
        Err(WordFault::NoMemory) => Err(AllocError),
        Err(fault) => Ok(Some(fault)),
    }
}
