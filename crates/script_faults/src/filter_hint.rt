//! How to mend a filter at a token that can't stand there, by what may stand in its place.
use crate::cause::{Known, REMARK};
use crate::field_cause::{date_fault, rating_fault};
use crate::nearest::Nearest;
use std::alloc::{AllocError, Global};

/// What may stand at a place in a filter.
#[derive(Clone, Copy)]
pub enum Place {
    /// A test, or `not` or a bracket before one.
    Test,
    /// An operator, behind `rating` or `day`.
    Operator { of_day: bool },
    /// A rating or a date, behind an operator.
    Value { of_day: bool },
    /// A word, behind `keyword`.
    Word,
    /// `and` or `or`, or a bracket that closes.
    Joint,
}

impl Place {
    /// The place after this one, behind a token that may stand here.
    pub fn behind(self, token: &str) -> Place {
        match (self, token) {
            (Place::Test, "rating") => Place::Operator { of_day: false },
            (Place::Test, "day") => Place::Operator { of_day: true },
            (Place::Test, "keyword") => Place::Word,
            (Place::Test, "not" | "(") | (Place::Joint, "and" | "or") => Place::Test,
            (Place::Operator { of_day }, _) => Place::Value { of_day },
            _ => Place::Joint,
        }
    }
}

/// The report on a token that can't stand there: what else is known of it, and how to mend the filter.
#[derive(Clone, Copy)]
pub struct Hint<'a> {
    pub known: Option<Known<'a>>,
    pub mend: &'static str,
}

impl<'a> Hint<'a> {
    // Nothing more is known.
    fn mend(mend: &'static str) -> Hint<'a> {
        Hint { known: None, mend }
    }

    fn said(known: &'static str, mend: &'static str) -> Hint<'a> {
        Hint {
            known: Some(Known::Said(known)),
            mend,
        }
    }
}

const SMALL: &str = "write and, or, not and the tests' names small";

// The words of filters.
const WORDS: &[&str] = &[
    "all", "none", "rating", "day", "keyword", "not", "and", "or",
];

// What people write in place of some of these words.
const OTHERS: &[(&str, &[&str])] = &[
    (
        "say all in its place",
        &["everything", "every", "any", "anything", "*"],
    ),
    ("say none in its place", &["nothing", "no"]),
    (
        "say day in its place",
        &["date", "year", "before", "after", "since"],
    ),
    (
        "say rating in its place",
        &["stars", "star", "rate", "rated"],
    ),
    (
        "say keyword in its place",
        &["tag", "word", "words", "keywords", "label"],
    ),
];

/// The report on a token that can't stand at that place.
pub fn hint_at<'a>(alloc: Global, place: Place, token: &'a str) -> Result<Hint<'a>, AllocError> {
    if token.starts_with('#') {
        return Ok(Hint::mend(REMARK));
    }
    match place {
        Place::Test => test_hint(alloc, token),
        Place::Operator { .. } => Ok(Hint::mend(
            "the operators are >=, <= and =, with a space on either side",
        )),
        Place::Value { of_day: true } => {
            let (known, mend) = date_fault(token);
            Ok(Hint::said(known, mend))
        }
        Place::Value { of_day: false } => Ok(Hint::said(
            rating_fault(token),
            "a rating is one digit from 0 to 5",
        )),
        Place::Word => Ok(Hint::mend(
            "say keyword and one word for each word, as in (keyword sea or keyword sun)",
        )),
        Place::Joint => Ok(Hint::mend(joint_mend(token))),
    }
}

// The hint for a place where a test has to stand.
fn test_hint<'a>(alloc: Global, token: &'a str) -> Result<Hint<'a>, AllocError> {
    if let Some(mend) = mend_of_test(token) {
        return Ok(Hint::mend(mend));
    }
    let mut nearest = Nearest::new();
    for word in WORDS {
        nearest.try_name(alloc, token, word)?;
    }
    Ok(match nearest.known(token) {
        Known::Nothing => Hint::mend("write keyword in front of each word"),
        known => Hint {
            known: Some(known),
            mend: "write it so, or write keyword in front of a word",
        },
    })
}

fn mend_of_test(token: &str) -> Option<&'static str> {
    if token == ")" {
        return Some("write a test in front of it, or leave the brackets out");
    }
    if token == "and" || token == "or" {
        return Some("write a test in front of it, or leave it out");
    }
    if token.starts_with(['<', '>', '=']) {
        return Some("write rating or day in front of the operator");
    }
    if token.contains(['<', '>', '=']) {
        return Some("write spaces round the operator, as in rating >= 4");
    }
    if token.starts_with('!') {
        return Some("say not in place of !");
    }
    if token.starts_with(|c: char| c.is_ascii_digit()) {
        return Some("write rating or day, and an operator, in front of it");
    }
    mend_of_name(token)
}

// The mend for a word that isn't one of a filter's.
fn mend_of_name(token: &str) -> Option<&'static str> {
    for (mend, others) in OTHERS {
        if others.contains(&token) {
            return Some(*mend);
        }
    }
    let bare = token.trim_end_matches(|c: char| !c.is_alphanumeric());
    for word in WORDS {
        if word.eq_ignore_ascii_case(token) {
            return Some(SMALL);
        }
        if *word == bare {
            return Some("leave out the sign at its end");
        }
    }
    None
}

// The mend where something other than `and`, `or` or a closing bracket follows a whole test.
fn joint_mend(token: &str) -> &'static str {
    match token {
        ")" => "leave this bracket out, or write ( where its part begins",
        "," | ";" | "&" | "&&" | "+" | "|" | "||" | "but" => "say and or or in its place",
        _ if token.eq_ignore_ascii_case("and") || token.eq_ignore_ascii_case("or") => SMALL,
        _ => "put and or or between two tests, and keyword before each word",
    }
}
