//! A script that grows by lines. Each line is judged by the lines before it, and the last line can be taken back.
ghost use Rattle.std.specs.Prelude.{◌≡◌, ◌≢◌, ◌≤◌, ◌==◌, ℕ, List, [], length, false, OnOk, OnErr, IfOk, IfErr, Err};
ghost use Rattle.std.specs.List.{list_any};
ghost use Rattle.fleet_model.specs.Contents.{Contents};
ghost use Rattle.script_reader.specs.Limits.{max_text_bytes, max_line_bytes};
ghost use Rattle.script_reader.specs.Lines.{fields_of, pieces_of};
ghost use Rattle.script_reader.specs.Growing.{Adds, GoesBackTo, Grows, HasNoneToTakeBack, IsGrown, ReadsLine, TakesBackTheSame, script_in, with_line};
ghost use Rattle.script_reader.specs.Reading.{script_of, MayWantMemory};
ghost use Rattle.script_reader.specs.declared.refusal.Refusal.TheVariants.{Memory};
ghost use Rattle.script_reader.specs.declared.fault.ScriptFault.TheVariants.{NoMemory, Read};

use crate::field::made_by;
use crate::limits::MAX_TEXT_BYTES;
use crate::reader::{Reader, without_return};
use crate::refusal::Refusal;
use crate::{Script, ScriptFault};
use std::alloc::Global;
use std::str;

/// What a line adds to a script.
#[derive(Clone, Copy, Debug, PartialEq, Eq, Drop)]
pub enum Said {
    /// Nothing: the line is empty or a remark.
    Nothing,
    /// A device.
    Device,
    /// A command.
    Command,
}

/// A script that grows by lines.
#[derive(Drop)]
pub struct GrowingScript {
    reader: Reader,
    lines: u32,
    bytes: usize,
    last: Option<Last>,
}

// The size of the script before its last line, and the picture that this line makes.
#[derive(Clone, Copy, Debug, Drop)]
struct Last {
    bytes: usize,
    devices: usize,
    commands: usize,
    made: Option<u32>,
}

impl GrowingScript {
    /// Makes a script without lines. It takes no memory.
    pub fn new(alloc: Global) -> GrowingScript
        ensures grown { IsGrown [] result }
        ensures lines { result.lines ≡ 0 }
        ensures none { HasNoneToTakeBack result }
    {
        GrowingScript {
            reader: Reader::new(alloc),
            lines: 0,
            bytes: 0,
            last: None,
        }
    }

    /// Reads a text as a script that can grow. The text after the last LF counts as a line, even if it is empty.
    ///
    /// Its errors are those of [`crate::read_script`].
    pub fn of(alloc: Global, text: &[u8]) -> Result<GrowingScript, ScriptFault>
        ensures grown { IfOk result (IsGrown text.now) }
        ensures lines { IfOk result (λ script. script.lines ≡ length (pieces_of text.now)) }
        ensures none { IfOk result HasNoneToTakeBack }
        ensures refused { IfErr result (λ fault. fault ≢ NoMemory → script_of text.now ≡ Err fault) }
        ensures no_memory { result ≡ Err NoMemory → MayWantMemory text.now }
        ensures no_read { result ≢ Err Read }
    {
        if text.len() > MAX_TEXT_BYTES {
            return Err(ScriptFault::TooLarge);
        }
        let Ok(text) = str::from_utf8(text) else {
            return Err(ScriptFault::NotUtf8);
        };
        read_text(alloc, text)
    }

    /// Gives the script of the lines so far.
    pub fn script(&self) -> &Script
        ensures { result.now ≡ script_in self.now }
    {
        &self.reader.script
    }

    /// Tells how many lines the script has.
    pub fn lines(&self) -> u32
        ensures { result ≡ self.now.lines }
    {
        self.lines
    }

    /// Appends a line, which has no LF, and tells what it adds.
    ///
    /// Its errors are the faults of the text of all lines, joined by LF: `TooLarge`, `NotUtf8`, or the line's own fault with its
    /// number; the first of them is told. `NoMemory` comes where memory is refused before a later fault is found. After each
    /// error the script is as it was.
    pub fn push(&mut self, line: &[u8]) -> Result<Said, ScriptFault>
        requires one { list_any (λ b. b == 10) line.now ≡ false }
        ensures grown { OnOk result ((text : List ℕ) → IsGrown text self.old → IsGrown (with_line self.old.lines text line.now) self.new) }
        ensures said { IfOk result (λ said. (text : List ℕ) → IsGrown text self.old → Adds said (script_in self.old) (script_in self.new)) }
        ensures back { OnOk result ((text : List ℕ) → IsGrown text self.old → GoesBackTo text self.old.lines self.new) }
        ensures refused { IfErr result (λ fault. (text : List ℕ) → IsGrown text self.old
            → fault ≢ NoMemory → script_of (with_line self.old.lines text line.now) ≡ Err fault) }
        ensures no_memory { (text : List ℕ) → IsGrown text self.old
            → result ≡ Err NoMemory → MayWantMemory (with_line self.old.lines text line.now) }
        ensures kept { OnErr result ((text : List ℕ) → IsGrown text self.old → IsGrown text self.new) }
        ensures lines { OnErr result (self.new.lines ≡ self.old.lines) }
        ensures last { OnErr result (TakesBackTheSame self.old self.new) }
        ensures still_back { OnErr result ((text : List ℕ) (lines : ℕ) → GoesBackTo text lines self.old → GoesBackTo text lines self.new) }
        ensures no_read { result ≢ Err Read }
    {
        let bytes = self.bytes_with(line);
        if bytes > MAX_TEXT_BYTES {
            return Err(ScriptFault::TooLarge);
        }
        let Ok(text) = str::from_utf8(line) else {
            return Err(ScriptFault::NotUtf8);
        };
        let (devices, commands) = (self.script().devices(), self.script().commands());
        let number = self.lines.saturating_add(1);
        match read(&mut self.reader, without_return(text)) {
            Ok(made) => {
                self.last = Some(Last {
                    bytes: self.bytes,
                    devices,
                    commands,
                    made,
                });
                self.bytes = bytes;
                self.lines = number;
                Ok(said_in(self.script(), devices, commands))
            }
            Err(refusal) => Err(refusal.in_line(number)),
        }
    }

    /// Removes the last line, so the script is what it was before that line. It takes no memory. It does nothing if no line was
    /// appended since a line was last removed, or since the script was read from a text.
    pub fn take_back(&mut self)
        ensures back { (text : List ℕ) (lines : ℕ) → GoesBackTo text lines self.old → IsGrown text self.new × (self.new.lines ≡ lines) }
        ensures once { HasNoneToTakeBack self.new }
        ensures none { HasNoneToTakeBack self.old → self.new ≡ self.old }
    {
        let Some(last) = self.last else {
            return;
        };
        self.last = None;
        self.bytes = last.bytes;
        self.lines = self.lines.saturating_sub(1);
        self.reader.go_back(last.devices, last.commands, last.made);
    }

    // Counts the bytes of the text with that line appended.
    fn bytes_with(&self, line: &[u8]) -> usize
        ensures { (text : List ℕ) → IsGrown text self.now → result ≡ length (with_line self.now.lines text line.now) }
    {
        if self.lines == 0 {
            line.len()
        } else {
            self.bytes.saturating_add(line.len() + 1)
        }
    }
}

// Reads a line, and gives the picture that it makes.
fn read(reader: &mut Reader, line: &str) -> Result<Option<u32>, Refusal>
    ensures reads { ReadsLine reader.old line.now result reader.new }
    ensures memory { result ≡ Err Memory → length line.now ≤ max_line_bytes }
    ensures has_field { result ≡ Err Memory → fields_of line.now ≢ [] }
{
    let mut fields = Vec::new(reader.alloc);
    match reader.read_line(line, &mut fields) {
        Ok(()) => Ok(made_by(fields.as_slice())),
        Err(refusal) => Err(refusal),
    }
}

// Tells what a line added to a script that had `devices` devices and `commands` commands before it.
fn said_in(script: &Script, devices: usize, commands: usize) -> Said
    ensures { (old : Contents) → length old.names ≡ devices → length old.commands ≡ commands → Grows old script.now → Adds result old script.now }
{
    if script.commands() > commands {
        Said::Command
    } else if script.devices() > devices {
        Said::Device
    } else {
        Said::Nothing
    }
}

// Reads the lines of a text as a script that can grow.
fn read_text(alloc: Global, text: &str) -> Result<GrowingScript, ScriptFault>
    requires { length text.now ≤ max_text_bytes }
    ensures grown { IfOk result (IsGrown text.now) }
    ensures lines { IfOk result (λ script. script.lines ≡ length (pieces_of text.now)) }
    ensures none { IfOk result HasNoneToTakeBack }
    ensures refused { IfErr result (λ fault. fault ≢ NoMemory → script_of text.now ≡ Err fault) }
    ensures no_memory { result ≡ Err NoMemory → MayWantMemory text.now }
    ensures no_read { result ≢ Err Read }
{
    let mut reader = Reader::new(alloc);
    let mut fields = Vec::new(alloc);
    match reader.read_pieces(text, &mut fields) {
        Ok(lines) => Ok(GrowingScript {
            reader,
            lines,
            bytes: text.len(),
            last: None,
        }),
        Err(fault) => Err(fault),
    }
}
