//! Calls of `photo_record`.
use crate::verdict::{Verdict, judged, mark};
use photo_record::{Day, Rating, Record, Word, WordFault, Words};
use std::alloc::Global;

/// The verdict on a call of `photo_record`.
pub fn verdict(alloc: Global, call: &str) -> Option<Verdict> {
    match call {
        "Word::read" => Some(judged(reads_word(alloc), true)),
        "Words::read" => Some(judged(reads_words(alloc), true)),
        "Word::try_clone" => words_copy(alloc, true),
        "Words::try_clone" => words_copy(alloc, false),
        "Record::try_clone" => record_copy(alloc),
        _ => None,
    }
}

fn reads_word(alloc: Global) -> Option<bool> {
    mark(alloc);
    let word = Word::read(alloc, "cafe\u{301}");
    mark(alloc);
    match word {
        Ok(word) => Some(word.text() == "caf\u{e9}"),
        Err(WordFault::NoMemory) => None,
        Err(_) => Some(false),
    }
}

fn has_three(words: &Words) -> bool {
    words.len() == 3
        && words.get(0).text() == "ball"
        && words.get(1).text() == "sea"
        && words.get(2).text() == "tree"
}

fn reads_words(alloc: Global) -> Option<bool> {
    mark(alloc);
    let words = Words::read(alloc, "tree,sea,ball");
    mark(alloc);
    match words {
        Ok(words) => Some(has_three(&words)),
        Err(WordFault::NoMemory) => None,
        Err(_) => Some(false),
    }
}

// The verdict on copying a set, or its first word.
fn words_copy(alloc: Global, of_word: bool) -> Option<Verdict> {
    let made = Words::read(alloc, "tree,sea,ball");
    let verdict = match &made {
        Ok(words) => Some(on_words(alloc, words, of_word)),
        Err(_) => None,
    };
    drop(made);
    verdict
}

fn on_words(alloc: Global, words: &Words, of_word: bool) -> Verdict {
    let right = if of_word && !words.is_empty() {
        copies_word(alloc, words.get(0))
    } else {
        copies_words(alloc, words)
    };
    judged(right, has_three(words))
}

fn copies_word(alloc: Global, word: &Word) -> Option<bool> {
    mark(alloc);
    let copy = word.try_clone();
    mark(alloc);
    match copy {
        Ok(copy) => Some(copy.text() == "ball"),
        Err(_) => None,
    }
}

fn copies_words(alloc: Global, words: &Words) -> Option<bool> {
    mark(alloc);
    let copy = words.try_clone();
    mark(alloc);
    match copy {
        Ok(copy) => Some(has_three(&copy)),
        Err(_) => None,
    }
}

/// A record with that rating and three words. `None` where the rating is out of range, or memory is refused.
pub fn rated(alloc: Global, rating: u8) -> Option<Record> {
    let rating = Rating::new(rating)?;
    let day = Day::read("2024-05-01")?;
    match Words::read(alloc, "tree,sea,ball") {
        Ok(words) => Some(Record::Picture { rating, day, words }),
        Err(_) => None,
    }
}

fn record_copy(alloc: Global) -> Option<Verdict> {
    match rated(alloc, 4) {
        Some(record) => Some(judged(copies_record(alloc, &record), is_rated(&record))),
        None => None,
    }
}

// Whether a record has the rating 4 and the three words.
fn is_rated(record: &Record) -> bool {
    match record {
        Record::Picture { rating, day, words } => {
            rating.value() == 4 && day.number() == 19_844 && has_three(words)
        }
        Record::Removed => false,
    }
}

fn copies_record(alloc: Global, record: &Record) -> Option<bool> {
    mark(alloc);
    let copy = record.try_clone();
    mark(alloc);
    match copy {
        Ok(copy) => Some(copy == *record),
        Err(_) => None,
    }
}
