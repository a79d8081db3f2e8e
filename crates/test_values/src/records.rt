//! Tests of ratings, picture numbers, days, words and records: how they are read and shown.
use crate::answers::{is_answer, is_shown};
use photo_record::{Day, PicNo, Rating, Record, Word, WordFault, Words};
use std::alloc::Global;

const DAYS: &[(&str, Option<(i32, u16, u8, u8)>)] = &[
    ("0000-01-01", Some((-719_528, 0, 1, 1))),
    ("0000-02-29", Some((-719_469, 0, 2, 29))),
    ("1969-12-31", Some((-1, 1969, 12, 31))),
    ("1970-01-01", Some((0, 1970, 1, 1))),
    ("2000-03-01", Some((11_017, 2000, 3, 1))),
    ("2024-02-29", Some((19_782, 2024, 2, 29))),
    ("9999-12-31", Some((2_932_896, 9999, 12, 31))),
    ("2023-02-29", None),
    ("1900-02-29", None),
    ("2024-04-31", None),
    ("2024-00-10", None),
    ("2024-13-01", None),
    ("2024-01-00", None),
    ("2024-2-29", None),
    ("2024-02-9", None),
    ("10000-01-01", None),
    ("-001-01-01", None),
    ("+001-01-01", None),
    (" 2024-01-01", None),
    ("2024-01-01 ", None),
    ("2024/01/01", None),
    ("2024-01-0\u{663}", None),
    ("2024-01-\u{661}", None),
    ("", None),
];

#[test]
fn days(rt: HostRuntime) {
    for (text, date) in DAYS {
        assert!(rt; date_of(text) == *date, "at {text:?}");
    }
}

fn date_of(text: &str) -> Option<(i32, u16, u8, u8)> {
    let day = Day::read(text)?;
    Some((day.number(), day.year(), day.month(), day.day()))
}

// A word of 64 bytes, and one of 65.
const LONGEST: &str = "aaaaaaaaaaaaaaaaaaaaaaaaaaaaaaaaaaaaaaaaaaaaaaaaaaaaaaaaaaaaaaaa";

const LONGER: &str = "aaaaaaaaaaaaaaaaaaaaaaaaaaaaaaaaaaaaaaaaaaaaaaaaaaaaaaaaaaaaaaaaa";

// Texts, and what is shown of the word read from each, or the fault.
const WORDS: &[(&str, &str)] = &[
    ("x", "x"),
    ("-", "-"),
    ("e\u{301}", "é"),
    ("é", "é"),
    ("\u{a0}", "\u{a0}"),
    ("\u{212b}", "\u{c5}"),
    ("!#'*+./:;\\{}~", "!#'*+./:;\\{}~"),
    (LONGEST, LONGEST),
    (
        "e\u{301}e\u{301}e\u{301}e\u{301}e\u{301}e\u{301}e\u{301}e\u{301}e\u{301}e\u{301}e\u{301}e\u{301}e\u{301}e\u{301}e\u{301}e\u{301}e\u{301}e\u{301}e\u{301}e\u{301}e\u{301}e\u{301}e\u{301}a",
        "éééééééééééééééééééééééa",
    ),
    ("", "Empty"),
    (" ", "BadCharacter"),
    ("\0", "BadCharacter"),
    ("a\u{1f}", "BadCharacter"),
    ("\u{7f}", "BadCharacter"),
    ("\u{85}", "BadCharacter"),
    ("\u{9f}a", "BadCharacter"),
    ("a\"", "BadCharacter"),
    ("(a", "BadCharacter"),
    ("a)", "BadCharacter"),
    ("a,b", "BadCharacter"),
    (LONGER, "TooLong"),
    (
        "\u{958}\u{958}\u{958}\u{958}\u{958}\u{958}\u{958}\u{958}\u{958}\u{958}\u{958}",
        "TooLong",
    ),
    (
        "aaaaaaaaaaaaaaaaaaaaaaaaaaaaaaaaaaaaaaaaaaaaaaaaaaaaaaaaaaaaaaaa ",
        "BadCharacter",
    ),
];

#[test]
fn words(rt: HostRuntime) {
    for (text, want) in WORDS {
        assert!(rt; is_word(rt.alloc(), text, want), "at {text:?}");
    }
}

fn is_word(alloc: Global, text: &str, want: &str) -> bool {
    is_answer(alloc, &Word::read(alloc, text), want)
}

// Texts, and what is shown of the set read from each, or the fault.
const SETS: &[(&str, &str)] = &[
    ("-", "-"),
    ("-,x", "-,x"),
    ("b,a,B", "B,a,b"),
    ("z,e\u{301},ab,a", "a,ab,z,é"),
    // U+1F600 sorts behind U+FF5E by bytes, and before it by 16-bit units.
    ("\u{1f600},\u{ff5e}", "\u{ff5e},\u{1f600}"),
    (
        "p,o,n,m,l,k,j,i,h,g,f,e,d,c,b,a",
        "a,b,c,d,e,f,g,h,i,j,k,l,m,n,o,p",
    ),
    ("", "Empty"),
    (",", "Empty"),
    ("x,", "Empty"),
    ("x,,y", "Empty"),
    ("x,x", "Repeated"),
    ("e\u{301},\u{e9}", "Repeated"),
    ("x, y", "BadCharacter"),
    ("(,x,x", "BadCharacter"),
    ("x,x,(", "Repeated"),
    ("a,b,c,d,e,f,g,h,i,j,k,l,m,n,o,p,q", "TooMany"),
    ("a,b,c,d,e,f,g,h,i,j,k,l,m,n,o,p,", "TooMany"),
    ("a,b,c,d,e,f,g,h,i,j,k,l,m,n,o,p,a", "TooMany"),
    ("a,b,c,d,e,f,g,h,i,j,k,l,m,n,o,a,q", "Repeated"),
];

#[test]
fn sets(rt: HostRuntime) {
    for (text, want) in SETS {
        assert!(rt; is_set(rt.alloc(), text, want), "at {text:?}");
    }
}

fn is_set(alloc: Global, text: &str, want: &str) -> bool {
    is_answer(alloc, &Words::read(alloc, text), want)
}

fn is_copied_word(word: &Word) -> bool {
    match word.try_clone() {
        Ok(copy) => copy == *word,
        Err(_) => false,
    }
}

fn is_copied_set(words: &Words) -> bool {
    match words.try_clone() {
        Ok(copy) => copy == *words,
        Err(_) => false,
    }
}

// Whether there are three words, `a` is the second, and copies of each and of all equal them.
fn are_three(words: &Words) -> bool {
    if words.len() != 3 || words.is_empty() || words.get(1).text() != "a" {
        return false;
    }
    for word in words {
        if !words.has(word) || !is_copied_word(word) {
            return false;
        }
    }
    is_copied_set(words)
}

fn three_are_read(alloc: Global) -> bool {
    match Words::read(alloc, "b,a,B") {
        Ok(words) => are_three(&words),
        Err(_) => false,
    }
}

#[test]
fn a_set_has_its_words(rt: HostRuntime) {
    assert!(rt; three_are_read(rt.alloc()));
}

// The texts from which a record is read, and its shown text.
type Shown = (&'static str, &'static str, &'static str, &'static str);

const SHOWN: &[Shown] = &[
    (
        "5",
        "2024-05-01",
        "sun,beach",
        "rating 5 day 2024-05-01 words beach,sun",
    ),
    ("3", "0007-02-09", "-", "rating 3 day 0007-02-09 words -"),
    (
        "0",
        "9999-12-31",
        "e\u{301},a,b",
        "rating 0 day 9999-12-31 words a,b,é",
    ),
];

fn record_of(alloc: Global, rating: &str, day: &str, words: &str) -> Option<Record> {
    let rating = Rating::read(rating)?;
    let day = Day::read(day)?;
    match Words::read(alloc, words) {
        Ok(words) => Some(Record::Picture { rating, day, words }),
        Err(_) => None,
    }
}

fn is_copied(record: &Record) -> bool {
    match record.try_clone() {
        Ok(copy) => copy == *record && copy != Record::Removed,
        Err(_) => false,
    }
}

fn is_record(alloc: Global, (rating, day, words, text): Shown) -> bool {
    match record_of(alloc, rating, day, words) {
        Some(record) => is_shown(alloc, &record, text) && is_copied(&record),
        None => false,
    }
}

#[test]
fn records_are_shown(rt: HostRuntime) {
    for shown in SHOWN {
        assert!(rt; is_record(rt.alloc(), *shown), "{shown:?}");
    }
}

// Whether numbers at their limits are accepted, and numbers beyond refused.
fn are_limits_kept() -> bool {
    let new = Rating::new(5).is_some() && Rating::new(6).is_none();
    let read = Rating::read("5") == Rating::new(5) && Rating::read("6").is_none();
    let other = Rating::read("05").is_none() && Rating::read("\u{665}").is_none();
    let first = PicNo::new(0).is_none() && PicNo::new(1).is_some();
    let last = PicNo::new(999_999_999).is_some() && PicNo::new(1_000_000_000).is_none();
    new && read && other && first && last
}

// Whether a record's parts are shown rightly, also in a column of eight, and how a removal and a fault are shown.
fn are_parts_shown(alloc: Global) -> Option<bool> {
    let (rating, picture) = (Rating::new(4)?, PicNo::new(1_200)?);
    let numbers = is_shown(alloc, &rating, "4") && is_shown(alloc, &picture, "1200");
    let removed = is_shown(alloc, &Record::Removed, "removed");
    let fault = is_shown(alloc, &WordFault::NoMemory, "NoMemory");
    match format!(in alloc; "{picture:>8}|") {
        Ok(text) => Some(numbers && removed && fault && text.as_str() == "    1200|"),
        Err(_) => None,
    }
}

#[test]
fn numbers_and_parts(rt: HostRuntime) {
    assert!(rt; are_limits_kept());
    assert!(rt; are_parts_shown(rt.alloc()) == Some(true));
}
