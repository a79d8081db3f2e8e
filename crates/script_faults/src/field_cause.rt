//! The causes of faults in a line's fields, except for numbers, words and filters.
use crate::cause::{Cause, Known, LINES, REMARK, form_of};
use crate::lines::{Line, Span, count_fields, earlier, first_command};
use crate::nearest::Nearest;
use crate::number_cause::{author_in, is_picture};
use photo_record::{Day, Rating};
use std::alloc::{AllocError, Global};

/// F4: the line is too long.
pub fn too_long<'a>(line: Line<'a>) -> Cause<'a> {
    Cause {
        span: Span { from: 0, to: 1 },
        expected: "a line of at most 1,024 bytes, be it a comment",
        known: Known::Counted("the line has ", line.text.len(), " bytes"),
        mend: if line.text.contains('\r') {
            "end each line with a line feed (LF): a carriage return (CR) alone ends none"
        } else {
            "cut the line"
        },
    }
}

/// F5: no line begins with that word.
pub fn unknown_command<'a>(alloc: Global, line: Line<'a>) -> Result<Cause<'a>, AllocError> {
    let known = nearest_word(alloc, line.field(0))?;
    let cause = Cause {
        span: line.span(0),
        expected: "device, new, edit, remove, pull, narrow, refilter, preview, list, conflicts, knowledge or knows",
        known,
        mend: "begin the line with one of these words, or with # where it is a comment",
    };
    Ok(cause.unless_odd(line))
}

// The nearest word with which a line may begin.
fn nearest_word<'a>(alloc: Global, word: &str) -> Result<Known<'a>, AllocError> {
    let mut nearest = Nearest::new();
    for (name, _) in LINES {
        nearest.try_name(alloc, word, name)?;
    }
    Ok(nearest.known(word))
}

/// F6: there are too many fields or too few.
pub fn wrong_fields<'a>(text: &str, line: Line<'a>) -> Cause<'a> {
    let form = form_of(line.field(0));
    let (found, wanted) = (count_fields(line.text), count_fields(form));
    if found > wanted {
        return too_many_fields(text, line, form, Known::Fields(found, wanted));
    }
    let whole = Span {
        from: 0,
        to: line.text.len(),
    };
    let cause = Cause {
        span: line.end(),
        expected: form,
        known: Known::Fields(found, wanted),
        mend: if form.ends_with("WORDS") {
            "say what is missing; a picture without words has - in their place"
        } else {
            "say what is missing"
        },
    };
    cause.unless_odd_in(line, whole)
}

// If one field is too much, that field is marked, otherwise everything behind the last field of the form.
fn too_many_fields<'a>(
    text: &str,
    line: Line<'a>,
    form: &'static str,
    known: Known<'a>,
) -> Cause<'a> {
    let stray = stray_field(text, line, form);
    let span = stray.unwrap_or(line.rest(count_fields(form)));
    let mend = if line.at(span).starts_with('#') {
        REMARK
    } else if stray.is_some() {
        "leave this field out"
    } else if form.ends_with("WORDS") {
        "leave out what is too much; a picture's words have commas between them and no spaces"
    } else {
        "leave out what is too much; behind # a line of its own may say anything"
    };
    Cause {
        span,
        expected: form,
        known,
        mend,
    }
}

// The first field that doesn't fit its name in the line's form, provided that the next field fits that name.
fn stray_field(text: &str, line: Line<'_>, form: &str) -> Option<Span> {
    for (i, name) in form.split(' ').enumerate().skip(1) {
        if !fits(text, line, i, name) {
            let next = i.saturating_add(1);
            return if fits(text, line, next, name) {
                Some(line.span(i))
            } else {
                None
            };
        }
    }
    None
}

// Whether a field of the line fits that name of a form.
fn fits(text: &str, line: Line<'_>, i: usize, name: &str) -> bool {
    let field = line.field(i);
    match name {
        "DEV" | "TARGET" | "SOURCE" => earlier(text, line.number, "device", 1, field).is_some(),
        "PIC" => is_picture(field),
        "RATING" => Rating::read(field).is_some(),
        "DATE" => Day::read(field).is_some(),
        "VERSION" => field.contains(':'),
        _ => true,
    }
}

/// F7: a declared name isn't a name.
pub fn bad_name<'a>(line: Line<'a>) -> Cause<'a> {
    let (known, mend) = name_fault(line.field(1));
    let cause = Cause {
        span: line.span(1),
        expected: "a letter from a to z, and then at most 15 such letters and digits",
        known,
        mend,
    };
    cause.unless_odd(line)
}

// Why a text isn't a name, and how to mend it.
fn name_fault<'a>(name: &str) -> (Known<'a>, &'static str) {
    let small = "write the name small and without other signs, as attic for Attic";
    let count = name.chars().count();
    match name.chars().next() {
        Some(first) if !first.is_ascii_lowercase() => (
            Known::Said("it doesn't begin with a small letter from a to z"),
            small,
        ),
        _ if count > 16 => (
            Known::Counted("it has ", count, " characters"),
            "write a shorter name",
        ),
        _ => (
            Known::Said("it has a character that is no small letter from a to z and no digit"),
            small,
        ),
    }
}

/// F8: no line declares the device.
pub fn unknown_device<'a>(
    alloc: Global,
    text: &'a str,
    line: Line<'a>,
) -> Result<Cause<'a>, AllocError> {
    let span = unknown_span(text, line);
    let known = nearest_device(alloc, text, line.number, line.at(span))?;
    let cause = Cause {
        span,
        expected: "the name of a device that a line above declares",
        known,
        mend: "spell the name as its 'device' line does, or declare the device above all commands",
    };
    Ok(cause.unless_odd(line))
}

// The nearest name that one of the first `lines` lines declares.
fn nearest_device<'a>(
    alloc: Global,
    text: &'a str,
    lines: u32,
    name: &str,
) -> Result<Known<'a>, AllocError> {
    let mut nearest = Nearest::new();
    for row in text.split('\n').take(lines as usize) {
        let above = Line::of(row, lines);
        if above.field(0) == "device" {
            nearest.try_name(alloc, name, above.field(1))?;
        }
    }
    Ok(nearest.known(name))
}

// The name in the line that no earlier line declares.
fn unknown_span(text: &str, line: Line<'_>) -> Span {
    if earlier(text, line.number, "device", 1, line.field(1)).is_none() {
        return line.span(1);
    }
    match line.field(0) {
        "knows" => author_in(line).0,
        _ => line.span(2),
    }
}

/// F9: an earlier line declares the name.
pub fn repeated_device<'a>(text: &str, line: Line<'a>) -> Cause<'a> {
    let first = earlier(text, line.number, "device", 1, line.field(1));
    Cause {
        span: line.span(1),
        expected: "a name that no line above declares",
        known: Known::Counted("line ", first.unwrap_or(0) as usize, " declares it"),
        mend: "give the second device another name",
    }
}

/// F10: a device is declared after a command.
pub fn late_device<'a>(text: &str, line: Line<'a>) -> Cause<'a> {
    let first = first_command(text, line.number);
    Cause {
        span: line.span(0),
        expected: "a command: declarations stand above all commands",
        known: Known::Counted(
            "the first command is in line ",
            first.unwrap_or(0) as usize,
            "",
        ),
        mend: "move the line up to the other declarations",
    }
}

/// F12: a rating isn't one.
pub fn bad_rating<'a>(line: Line<'a>) -> Cause<'a> {
    let cause = Cause {
        span: line.span(3),
        expected: "a rating, one digit from 0 to 5",
        known: Known::Said(rating_fault(line.field(3))),
        mend: "give the picture a rating from 0 to 5",
    };
    cause.unless_odd(line)
}

/// Why a text isn't a rating.
pub fn rating_fault(text: &str) -> &'static str {
    let mut characters = text.chars();
    match (characters.next(), characters.next()) {
        (_, Some(_)) => "it has more than one character",
        (Some(digit), None) if digit.is_ascii_digit() => "it is greater than 5",
        _ => "it is no digit from 0 to 5",
    }
}

/// F13: a date isn't one.
pub fn bad_date<'a>(line: Line<'a>) -> Cause<'a> {
    let (known, mend) = date_fault(line.field(4));
    let cause = Cause {
        span: line.span(4),
        expected: "a date of the calendar, YYYY-MM-DD",
        known: Known::Said(known),
        mend,
    };
    cause.unless_odd(line)
}

/// Why a text isn't a date, and how to mend it.
pub fn date_fault(text: &str) -> (&'static str, &'static str) {
    if has_form_of_date(text) {
        (
            "the calendar has no such day",
            "take a day that its month has",
        )
    } else {
        (
            "it is not written as four digits, two and two, with - between them",
            "write 2026-07-03 for the third of July 2026",
        )
    }
}

// Whether a text is four digits, two and two, with `-` between them.
fn has_form_of_date(text: &str) -> bool {
    let mut places = 0usize;
    for c in text.chars() {
        let is_right = match places {
            4 | 7 => c == '-',
            _ => c.is_ascii_digit(),
        };
        if !is_right {
            return false;
        }
        places = places.saturating_add(1);
    }
    places == 10
}

/// F16: an earlier line makes the picture.
pub fn repeated_picture<'a>(text: &str, line: Line<'a>) -> Cause<'a> {
    let first = earlier(text, line.number, "new", 2, line.field(2));
    Cause {
        span: line.span(2),
        expected: "the number of a picture that no line above makes",
        known: Known::Counted("line ", first.unwrap_or(0) as usize, " makes it"),
        mend: "say 'edit' for a further version, or take a fresh number",
    }
}

/// F17: there are too many devices or commands.
pub fn too_many<'a>(line: Line<'a>) -> Cause<'a> {
    Cause {
        span: line.span(0),
        expected: "at most 256 declarations and 100,000 commands",
        known: Known::Said(match line.field(0) {
            "device" => "it is the 257th declaration",
            _ => "it is the 100,001st command",
        }),
        mend: "leave some out",
    }
}

/// F19: both devices are the same.
pub fn same_device<'a>(line: Line<'a>) -> Cause<'a> {
    Cause {
        span: line.span(2),
        expected: "another device than the target",
        known: Known::Said("both names are those of one device"),
        mend: "name the device from which the first one is to learn",
    }
}
