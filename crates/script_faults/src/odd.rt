//! Characters that are easily overlooked: they are invisible, or look like the space that separates fields.
use crate::lines::{Line, Span};

/// The report on such a character.
#[derive(Clone, Copy)]
pub struct Odd {
    /// What it is.
    pub known: &'static str,
    /// How to mend the line.
    pub mend: &'static str,
}

const SPACE: &str = "write a space (U+0020) in its place";

const LEAVE_OUT: &str = "leave it out";

/// The report on a character, or `None` where people see it as it is.
pub fn odd_of(c: char) -> Option<Odd> {
    let (known, mend) = match c {
        '\t' => ("it is a tab, which is no space", SPACE),
        '\r' => (
            "it is a carriage return (CR), which alone ends no line",
            "end each line with a line feed (LF)",
        ),
        '\u{feff}' => (
            "it is a byte order mark (U+FEFF)",
            "save the text as UTF-8 without a byte order mark",
        ),
        '\u{a0}' | '\u{202f}' => ("it is a no-break space, which is no space", SPACE),
        '\u{1680}' | '\u{2000}'..='\u{200a}' | '\u{205f}' | '\u{3000}' => (
            "it is a space of another kind than U+0020",
            SPACE,
        ),
        '\u{ad}' | '\u{200b}'..='\u{200f}' | '\u{2028}'..='\u{202e}' | '\u{2060}'..='\u{2064}' => (
            "it is a character that isn't seen",
            LEAVE_OUT,
        ),
        c if c.is_control() => ("it is a control character", LEAVE_OUT),
        _ => return None,
    };
    Some(Odd { known, mend })
}

/// The first such character in a part of a line.
pub fn odd_in(line: Line<'_>, part: Span) -> Option<(Span, Odd)> {
    let mut from = part.from;
    for c in line.at(part).chars() {
        let to = from.saturating_add(c.len_utf8());
        if let Some(odd) = odd_of(c) {
            return Some((Span { from, to }, odd));
        }
        from = to;
    }
    None
}
