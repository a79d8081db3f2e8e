//! Which lines are words of the shell's own.
ghost use Rattle.std.specs.Prelude.{◌≡◌};
ghost use Rattle.std.specs.Str.Lines.{strip_carriage_return};
ghost use Rattle.script_reader.specs.Lines.{fields_of};
ghost use Rattle.fleet_shell.specs.Kinds.{kind_of, kind_of_fields, kind_of_word};

use std::str::from_utf8;

/// What a line is.
#[derive(Clone, Copy, Debug, PartialEq, Eq)]
pub enum Kind {
    /// A line of a script.
    Line,
    /// `where [PICTURE ..]`
    Where,
    /// `story PICTURE`
    Story,
    /// `undo`
    Undo,
    /// `save FILE`
    Save,
    /// `help`
    Help,
    /// `quit`
    Quit,
}

/// What a line is, by its first word. A line that isn't UTF-8 is a script's, which is refused for that.
pub fn kind_of(line: &[u8]) -> Kind
    ensures { result ≡ kind_of line.now }
{
    match from_utf8(line) {
        Ok(text) => kind_of_text(without_return(text)),
        Err(_) => Kind::Line,
    }
}

/// A line without the CR that it may end in.
pub fn without_return(line: &str) -> &str
    ensures { result.now ≡ strip_carriage_return line.now }
{
    line.strip_suffix('\r').unwrap_or(line)
}

// What a text is, by its first word.
fn kind_of_text(text: &str) -> Kind
    ensures { result ≡ kind_of_fields (fields_of text.now) }
{
    for piece in text.split(' ') {
        if !piece.is_empty() {
            return kind_of_word(piece);
        }
    }
    Kind::Line
}

#[tactic(auto, unfolding(crate::specs::Kinds::kind_of_word))]
fn kind_of_word(word: &str) -> Kind
    ensures { result ≡ kind_of_word word.now }
{
    match word {
        "where" => Kind::Where,
        "story" => Kind::Story,
        "undo" => Kind::Undo,
        "save" => Kind::Save,
        "help" => Kind::Help,
        "quit" => Kind::Quit,
        _ => Kind::Line,
    }
}
