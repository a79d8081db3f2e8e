//! The lines that tell the faults of scripts, as the program writes them.
ghost use Rattle.std.specs.Prelude.{◌≡◌, ◌+◌, ◌<◌, ◌≤◌, ◌++◌, codes, length};
ghost use Rattle.std.specs.Fmt.InlineText.{inline_text};
ghost use Rattle.std.specs.Fmt.{decimal};
ghost use Rattle.photofleet_c.specs.Lines.{fault_line};

use itoa::Buffer;
use photo_script::ScriptFault;
use std::fmt::InlineText;

/// A text with room for the line of each fault.
pub type FaultLine = InlineText<128>;

/// Gives the line of a fault, with its LF.
pub fn fault_line(fault: ScriptFault) -> FaultLine
    ensures { inline_text result ≡ fault_line fault }
{
    let begun = and(FaultLine::new(), "script fault: ");
    let numbered = match fault {
        ScriptFault::Line { line, .. } => and_line_number(begun, line),
        _ => begun,
    };
    and(and(numbered, fault.text()), "\n")
}

// Appends the number of the line that has the fault.
fn and_line_number(begun: FaultLine, line: u32) -> FaultLine
    requires { length (inline_text begun) ≤ 20 }
    ensures text { inline_text result ≡ inline_text begun ++ (codes "line " ++ decimal line ++ codes ": ") }
    ensures short { length (inline_text result) ≤ 80 }
{
    let mut buffer = Buffer::new();
    let named = and(begun, "line ");
    and(and(named, buffer.format(line)), ": ")
}

// Appends a text, for which there is room.
fn and(text: FaultLine, part: &str) -> FaultLine
    requires { length (inline_text text) + length part.now < 128 }
    ensures text { inline_text result ≡ inline_text text ++ part.now }
    ensures length { length (inline_text result) ≡ length (inline_text text) + length part.now }
{
    text.and_str(part, part.len())
}
