//! What is reported of a line's fault beside its name: where it is, what may stand there, its cause, and a mend.
use crate::lines::{Line, Span};
use crate::odd::odd_in;
use std::alloc::AllocError;

/// The report on a line's fault.
#[derive(Clone, Copy)]
pub struct Cause<'a> {
    /// The part of the line that has the fault.
    pub span: Span,
    /// What may stand there.
    pub expected: &'static str,
    /// What is known about the cause.
    pub known: Known<'a>,
    /// How to mend the line.
    pub mend: &'static str,
}

impl<'a> Cause<'a> {
    /// This cause; but if its part of the line has a character that is easily overlooked, that character is the cause.
    pub fn unless_odd(self, line: Line<'a>) -> Cause<'a> {
        self.unless_odd_in(line, self.span)
    }

    /// The same for another part of the line.
    pub fn unless_odd_in(self, line: Line<'a>, part: Span) -> Cause<'a> {
        match odd_in(line, part) {
            Some((span, odd)) => Cause {
                span,
                expected: self.expected,
                known: Known::Said(odd.known),
                mend: odd.mend,
            },
            None => self,
        }
    }
}

/// The mend for a remark behind something else.
pub const REMARK: &str = "put the remark on a line of its own, which begins with #";

/// What is known about a fault's cause.
#[derive(Clone, Copy)]
pub enum Known<'a> {
    /// Nothing more.
    Nothing,
    /// This text.
    Said(&'static str),
    /// A number between two texts.
    Counted(&'static str, usize, &'static str),
    /// The line has the first number of fields, and its form has the second.
    Fields(usize, usize),
    /// A name that is close to the text.
    Near(&'a str),
    /// The filter's token of that number, from 1, can't stand there.
    Token(usize, &'a str),
}

impl Known<'_> {
    /// Appends a line that says what is known; appends nothing where nothing is known.
    pub fn push_to(&self, text: &mut String) -> Result<(), AllocError> {
        match *self {
            Known::Nothing => Ok(()),
            Known::Said(known) => writeln!(text, "known:    {known}"),
            Known::Counted(before, number, behind) => writeln!(
                text,
                "known:    {before}{number}{behind}"
            ),
            Known::Fields(1, wanted) => writeln!(
                text,
                "known:    the line has 1 field, and its form has {wanted}"
            ),
            Known::Fields(found, wanted) => writeln!(
                text,
                "known:    the line has {found} fields, and its form has {wanted}"
            ),
            Known::Near(name) => writeln!(text, "known:    it is near to '{name}'"),
            Known::Token(k, token) => writeln!(
                text,
                "known:    token {k} of the filter, '{token}', can't stand there"
            ),
        }
    }
}

/// The words with which a line may begin, each with the form of its line.
pub const LINES: &[(&str, &str)] = &[
    ("device", "device NAME FILTER"),
    ("new", "new DEV PIC RATING DATE WORDS"),
    ("edit", "edit DEV PIC RATING DATE WORDS"),
    ("remove", "remove DEV PIC"),
    ("pull", "pull TARGET SOURCE"),
    ("narrow", "narrow DEV FILTER"),
    ("refilter", "refilter DEV FILTER"),
    ("preview", "preview TARGET SOURCE"),
    ("list", "list DEV"),
    ("conflicts", "conflicts DEV"),
    ("knowledge", "knowledge DEV"),
    ("knows", "knows DEV PIC VERSION"),
];

/// The form of a line that begins with that word.
pub fn form_of(word: &str) -> &'static str {
    for (name, form) in LINES {
        if *name == word {
            return form;
        }
    }
    "a word that a line may begin with, and its fields"
}
