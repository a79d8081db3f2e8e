//! Escaping of texts for JSON within HTML.
ghost use Rattle.std.specs.Prelude.{◌≡◌, option_map};
ghost use Rattle.script_pages.specs.Escapes.{json_escape_of};

use std::alloc::AllocError;

/// The escape of a character in a JSON string, if it needs one: nothing that ends the text or
/// that HTML reads as a mark stands there as it is, and no control character.
pub fn json_escape_of(c: char) -> Option<&'static str>
    ensures { option_map (λ s. s.now) result ≡ json_escape_of c }
{
    match c {
        '"' => Some("\\\""),
        '\\' => Some("\\\\"),
        '\n' => Some("\\n"),
        '<' => Some("\\u003c"),
        '>' => Some("\\u003e"),
        '&' => Some("\\u0026"),
        '\u{2028}' => Some("\\u2028"),
        '\u{2029}' => Some("\\u2029"),
        '\0'..='\x1f' => Some("\u{fffd}"),
        _ => None,
    }
}

/// Appends a text to another as a JSON string.
pub fn push_quoted(text: &mut String, plain: &str) -> Result<(), AllocError> {
    text.push_str("\"")?;
    push_escapes(text, plain)?;
    text.push_str("\"")
}

fn push_escapes(text: &mut String, plain: &str) -> Result<(), AllocError> {
    for c in plain.chars() {
        match json_escape_of(c) {
            Some(escape) => text.push_str(escape)?,
            None => text.push(c)?,
        }
    }
    Ok(())
}
