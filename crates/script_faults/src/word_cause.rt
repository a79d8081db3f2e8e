//! The cause of a fault in a picture's words.
use crate::cause::{Cause, Known};
use crate::lines::{Line, Span};
use photo_record::{Word, WordFault};
use std::alloc::{AllocError, Global};

const EXPECTED: &str = "- for no words, or at most 16 different words with commas between them";

// The mend for words where no single one is known to be wrong.
const COMMAS: &str = "write the words with commas between them";

// The most words of a picture.
const MOST_WORDS: usize = 16;

/// F14: the first piece between commas that isn't a word, is one too many, or repeats an earlier one.
pub fn bad_words<'a>(alloc: Global, line: Line<'a>) -> Result<Cause<'a>, AllocError> {
    let whole = line.span(5);
    let words = line.at(whole);
    let mut from = whole.from;
    for (place, piece) in words.split(',').enumerate() {
        let to = from.saturating_add(piece.len());
        if let Some((known, mend)) = piece_fault(alloc, words, place, piece)? {
            let cause = told(Span { from, to }, known, mend);
            return Ok(if has_control(piece) {
                cause.unless_odd(line)
            } else {
                cause
            });
        }
        from = to.saturating_add(1);
    }
    Ok(told(whole, "", COMMAS))
}

fn has_control(piece: &str) -> bool {
    piece.chars().any(|c| c.is_control())
}

fn told<'a>(span: Span, known: &'static str, mend: &'static str) -> Cause<'a> {
    Cause {
        span,
        expected: EXPECTED,
        known: if known.is_empty() {
            Known::Nothing
        } else {
            Known::Said(known)
        },
        mend,
    }
}

// What is wrong with the piece at a place, and how to mend it; `None` where it is a word that no earlier piece repeats.
fn piece_fault(
    alloc: Global,
    words: &str,
    place: usize,
    piece: &str,
) -> Result<Option<(&'static str, &'static str)>, AllocError> {
    if place >= MOST_WORDS {
        return Ok(Some(("it is the seventeenth word", "leave some words out")));
    }
    match Word::read(alloc, piece) {
        Ok(word) => repetition(alloc, words, place, &word),
        Err(WordFault::NoMemory) => Err(AllocError),
        Err(fault) => Ok(Some(of_word(fault))),
    }
}

// The fault of the piece at a place if an earlier piece reads as the same word.
fn repetition(
    alloc: Global,
    words: &str,
    place: usize,
    word: &Word,
) -> Result<Option<(&'static str, &'static str)>, AllocError> {
    for piece in words.split(',').take(place) {
        if reads_as(alloc, piece, word)? {
            return Ok(Some(("the word stands there already", "write each word once")));
        }
    }
    Ok(None)
}

fn reads_as(alloc: Global, piece: &str, word: &Word) -> Result<bool, AllocError> {
    match Word::read(alloc, piece) {
        Ok(other) => Ok(other.text() == word.text()),
        Err(WordFault::NoMemory) => Err(AllocError),
        Err(_) => Ok(false),
    }
}

/// What is known of a text that isn't a word, and how to mend it.
pub fn of_word(fault: WordFault) -> (&'static str, &'static str) {
    match fault {
        WordFault::Empty => (
            "no word stands there",
            "leave out the comma that is too much",
        ),
        WordFault::BadCharacter => (
            "the word has a double quote, a bracket or a control character",
            "leave that character out",
        ),
        WordFault::TooLong => (
            "the word has over 64 bytes in Unicode's form C",
            "write a shorter word",
        ),
        _ => ("", COMMAS),
    }
}
