//! Calls on ratings, days, picture numbers and words.
use photo_record::{Day, PicNo, Rating, Words};
use std::alloc::Global;

/// `Rating::new`, `Rating::read`, `Day::read`, `PicNo::new`, and their readers.
pub fn are_fields_right() -> bool {
    let (Some(rating), Some(day), Some(picture)) = (
        Rating::new(4),
        Day::read("2024-02-29"),
        PicNo::new(7),
    ) else {
        return false;
    };
    Rating::read("4") == Some(rating)
        && rating.value() == 4
        && picture.value() == 7
        && is_leap_day(day)
}

fn is_leap_day(day: Day) -> bool {
    day.number() == 19_782 && day.year() == 2024 && day.month() == 2 && day.day() == 29
}

/// The readers of a set of words, and its copy, which shares them.
pub fn answer_words(alloc: Global, times: u32) -> Option<bool> {
    match Words::read(alloc, "sea,ball,sun,tree,sand") {
        Ok(words) => Some(answer_of(&words, times)),
        Err(_) => None,
    }
}

fn answer_of(words: &Words, times: u32) -> bool {
    for _ in 0..times {
        if !has_words(words) {
            return false;
        }
    }
    true
}

fn has_words(words: &Words) -> bool {
    if words.len() != 5 || words.is_empty() || words.get(0).text() != "ball" {
        return false;
    }
    for word in words.iter() {
        if !words.has(word) || word.text().len() > 4 {
            return false;
        }
    }
    match words.try_clone() {
        Ok(copy) => copy == *words,
        Err(_) => false,
    }
}
