//! Remarks on a script without a fault.
use std::alloc::AllocError;

/// Appends to a text a remark on what is no fault in a script's text, and rarely meant: a line that has a word with `;` in it,
/// and lines that carriage returns alone would end.
pub fn push_remarks(text: &mut String, script: &str) -> Result<(), AllocError> {
    if script.contains('\r') && !script.contains('\n') {
        text.push_str(
            "remark:   the text is one line, since a carriage return (CR) alone ends none\n",
        )?;
    }
    for (place, line) in script.split('\n').enumerate() {
        if let Some(word) = joined_word(line) {
            let number = place.saturating_add(1);
            return writeln!(
                text,
                "remark:   in line {number} '{word}' is one word: words have commas between them"
            );
        }
    }
    Ok(())
}

// The first word of the record in a line, or of the filter, that has `;` in it.
fn joined_word(line: &str) -> Option<&str> {
    let mut fields = line.split(' ').filter(|field| !field.is_empty());
    let first = match fields.next()? {
        "new" | "edit" => 4usize,
        "device" | "narrow" | "refilter" => 1,
        _ => return None,
    };
    for field in fields.skip(first) {
        for word in field.split([',', '(', ')', '\r']) {
            if word.contains(';') {
                return Some(word);
            }
        }
    }
    None
}
