//! Escaping of texts for XML.
ghost use Rattle.std.specs.Prelude.{◌≡◌, option_map};
ghost use Rattle.script_pages.specs.Escapes.{escape_of};

use std::alloc::AllocError;

/// The escape of a character in XML, if it needs one: the marks of tags and entities have names, and what
/// no XML may have is shown as U+FFFD.
pub fn escape_of(c: char) -> Option<&'static str>
    ensures { option_map (λ s. s.now) result ≡ escape_of c }
{
    match c {
        '&' => Some("&amp;"),
        '<' => Some("&lt;"),
        '>' => Some("&gt;"),
        '"' => Some("&quot;"),
        '\0'..='\x1f' | '\u{fffe}' | '\u{ffff}' => Some("\u{fffd}"),
        _ => None,
    }
}

/// Appends a text to another, escaped for XML.
pub fn push_escaped(text: &mut String, plain: &str) -> Result<(), AllocError> {
    for c in plain.chars() {
        match escape_of(c) {
            Some(escape) => text.push_str(escape)?,
            None => text.push(c)?,
        }
    }
    Ok(())
}
