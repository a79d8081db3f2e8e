//! A script's text in lines and fields, as the script reader splits it.

/// A part of a line: the bytes from `from` up to `to`.
#[derive(Clone, Copy)]
pub struct Span {
    pub from: usize,
    pub to: usize,
}

/// A line of a script, and its number, from 1.
#[derive(Clone, Copy)]
pub struct Line<'a> {
    pub text: &'a str,
    pub number: u32,
}

impl<'a> Line<'a> {
    /// A line from the text between two line feeds, without the one CR that belongs to its end.
    pub fn of(row: &'a str, number: u32) -> Line<'a> {
        Line {
            text: row.strip_suffix('\r').unwrap_or(row),
            number,
        }
    }

    /// The text of a part.
    pub fn at(&self, span: Span) -> &'a str {
        self.text.get(span.from..span.to).unwrap_or("")
    }

    /// The part of a field, counted from 0; behind the line's end where there are fewer fields.
    pub fn span(&self, i: usize) -> Span {
        let mut left = i;
        let mut from = 0usize;
        for piece in self.text.split(' ') {
            let to = from.saturating_add(piece.len());
            if !piece.is_empty() {
                if left == 0 {
                    return Span { from, to };
                }
                left -= 1;
            }
            from = to.saturating_add(1);
        }
        self.end()
    }

    /// The text of a field, counted from 0; empty where there are fewer fields.
    pub fn field(&self, i: usize) -> &'a str {
        self.at(self.span(i))
    }

    // Where the last field ends; 0 where there is none.
    fn last(&self) -> usize {
        let mut to = 0usize;
        for (i, byte) in self.text.bytes().enumerate() {
            if byte != b' ' {
                to = i.saturating_add(1);
            }
        }
        to
    }

    /// The part behind the last field.
    pub fn end(&self) -> Span {
        let from = match self.last() {
            0 => 0,
            last => last.saturating_add(1),
        };
        Span { from, to: from }
    }

    /// The part from a field to the end of the last one.
    pub fn rest(&self, i: usize) -> Span {
        let to = self.last();
        Span {
            from: self.span(i).from.min(to),
            to,
        }
    }
}

/// How many fields a text has; spaces separate them.
pub fn count_fields(text: &str) -> usize {
    let mut count = 0usize;
    for piece in text.split(' ') {
        if !piece.is_empty() {
            count = count.saturating_add(1);
        }
    }
    count
}

/// The number of the first line before line `before` whose first field is `word` and whose field `i` is `field`.
pub fn earlier(text: &str, before: u32, word: &str, i: usize, field: &str) -> Option<u32> {
    let mut number = 0u32;
    for row in text.split('\n') {
        number = number.saturating_add(1);
        if number >= before {
            return None;
        }
        let line = Line::of(row, number);
        if line.field(0) == word && line.field(i) == field {
            return Some(number);
        }
    }
    None
}

/// The number of the first command line before line `before`.
pub fn first_command(text: &str, before: u32) -> Option<u32> {
    let mut number = 0u32;
    for row in text.split('\n') {
        number = number.saturating_add(1);
        if number >= before {
            return None;
        }
        let word = Line::of(row, number).field(0);
        if !word.is_empty() && !word.starts_with('#') && word != "device" {
            return Some(number);
        }
    }
    None
}
