//! The lines that were taken, and the fleet that shows their run.
ghost use Rattle.std.specs.Prelude.{◌≡◌, ◌≢◌, ◌≤◌, ◌<◌, ◌-◌, ℕ, None, Some, drop, length, slice_index, Ok, IfErr, IfOk, IfSome, MatchOption, OnErr, OnOk};
ghost use Rattle.std.specs.Io.KnownBytes.{Appends};
ghost use Rattle.fleet_model.specs.Contents.{Contents};
ghost use Rattle.script_reader.specs.Reading.{script_of};
ghost use Rattle.live_script.specs.Live.{ShowsRun};
ghost use Rattle.live_script.specs.Printed.{IsPrinted};
ghost use Rattle.live_script.specs.Refused.{IsWhy};
ghost use Rattle.fleet_shell.specs.Lines.{AreOf, IsLast, IsWhyOf, Prints, Tells, bytes_of, text_of, with_line};

use live_fleet::Fleet;
use live_script::{LiveScript, Refusal};
use photo_script::Script;
use std::alloc::{AllocError, Global};
use std::io::{self, Write};

/// The lines that were taken: none, or a script that runs as it grows.
#[derive(Drop)]
pub struct Lines {
    live: Option<LiveScript>,
}

impl Lines {
    /// No lines.
    pub fn none() -> Lines
        ensures { result.live ≡ None }
    {
        Lines { live: None }
    }

    /// The lines of a file with these bytes, and what their run prints. An LF at the end begins no further line.
    pub fn of(alloc: Global, bytes: &[u8]) -> Result<(Lines, Vec<u8>), Refusal>
        ensures lines { IfOk result (λ begun. AreOf bytes.now begun.0.live) }
        ensures told { IfOk result (λ begun. Prints begun.0.live begun.1.items) }
        ensures refused { IfErr result (IsWhyOf bytes.now) }
    {
        match bytes.split_last() {
            None => Ok((Lines::none(), Vec::new(alloc))),
            Some((b'\n', front)) => Lines::with_text(alloc, front),
            Some(_) => Lines::with_text(alloc, bytes),
        }
    }

    // The lines of a text, which has one at least, and what their run prints.
    fn with_text(alloc: Global, text: &[u8]) -> Result<(Lines, Vec<u8>), Refusal>
        ensures lines { IfOk result (λ begun. begun.0.live ≡ Some text.now) }
        ensures told { IfOk result (λ begun. IsPrinted text.now begun.1.items) }
        ensures refused { IfErr result (IsWhy text.now) }
    {
        match LiveScript::begin(alloc, text) {
            Ok((live, told)) => Ok((Lines { live: Some(live) }, told)),
            Err(refusal) => Err(refusal),
        }
    }

    /// The script of the lines, if there are any.
    pub fn script(&self) -> Option<&Script>
        ensures { MatchOption result (self.now.live ≡ None) (λ script. script_of (text_of self.now.live) ≡ Ok script.now) }
    {
        match &self.live {
            Some(live) => Some(live.script()),
            None => None,
        }
    }

    /// The fleet that ran the lines, if it is there.
    pub fn fleet(&self) -> Option<&Fleet>
        ensures { IfSome result (λ fleet. (script : Contents) → script_of (text_of self.now.live) ≡ Ok script → ShowsRun script fleet.now) }
    {
        match &self.live {
            Some(live) => live.fleet(),
            None => None,
        }
    }

    /// The text of the lines with one more behind them.
    pub fn with_line(&self, alloc: Global, line: &[u8]) -> Result<Vec<u8>, AllocError>
        ensures { IfOk result (λ all. all.items ≡ with_line self.now.live line.now) }
    {
        let Some(live) = &self.live else {
            return Vec::from_slice(alloc, line);
        };
        let mut all = Vec::from_slice(alloc, live.text())?;
        all.push(b'\n')?;
        all.extend_from_slice(line)?;
        Ok(all)
    }

    /// Gives a line, and tells what is printed of it. After a refusal the lines are as they were.
    pub fn give(&mut self, alloc: Global, line: &[u8]) -> Result<Vec<u8>, Refusal>
        ensures told { IfOk result (λ text. Tells self.old.live line.now text.items) }
        ensures taken { OnOk result (self.new.live ≡ Some (with_line self.old.live line.now)) }
        ensures refused { IfErr result (IsWhy (with_line self.old.live line.now)) }
        ensures kept { OnErr result (self.new.live ≡ self.old.live) }
    {
        match &mut self.live {
            Some(live) => give_behind(live, line),
            None => match LiveScript::begin(alloc, line) {
                Ok((live, told)) => {
                    self.live = Some(live);
                    Ok(told)
                }
                Err(refusal) => Err(refusal),
            },
        }
    }

    /// Takes the last line back, and tells which it was, if there is one. The others run anew. The only error is want of memory,
    /// behind which the lines are as they were.
    pub fn undo(&mut self, alloc: Global) -> Result<Option<Vec<u8>>, AllocError>
        ensures undone { IfOk result (λ last. MatchOption last ((self.old.live ≡ None) × (self.new.live ≡ self.old.live))
            (λ line. IsLast self.old.live self.new.live line.items)) }
        ensures kept { OnErr result (self.new.live ≡ self.old.live) }
    {
        let Some(live) = &self.live else {
            return Ok(None);
        };
        let text = live.text();
        let start = last_start(text);
        let line = Vec::from_slice(alloc, &text[start..])?;
        let before = before_last(alloc, text, start)?;
        self.live = before;
        Ok(Some(line))
    }

    /// Writes the lines as a file has them.
    pub fn write<W: Write>(&self, to: &mut W) -> io::Result<()>
        ensures { OnOk result (Appends (W.contents to.old) (W.contents to.new) (bytes_of self.now.live)) }
    {
        let Some(live) = &self.live else {
            return to.flush();
        };
        to.write_all(live.text())?;
        to.write_all(b"\n")?;
        to.flush()
    }
}

// Gives a line to a script that has lines.
fn give_behind(live: &mut LiveScript, line: &[u8]) -> Result<Vec<u8>, Refusal>
    ensures told { IfOk result (λ text. Tells (Some live.old) line.now text.items) }
    ensures taken { OnOk result (live.new ≡ with_line (Some live.old) line.now) }
    ensures refused { IfErr result (IsWhy (with_line (Some live.old) line.now)) }
    ensures kept { OnErr result (live.new ≡ live.old) }
{
    match live.give(line, usize::MAX) {
        Ok(told) => Ok(told.text),
        Err(refusal) => Err(refusal),
    }
}

// Where the last line of a text begins.
fn last_start(text: &[u8]) -> usize
    ensures within { result ≤ length text.now }
    ensures behind { 0 < result → slice_index text.now (result - 1) ≡ 10 }
    ensures one { (k : ℕ) → result ≤ k → k < length text.now → slice_index text.now k ≢ 10 }
{
    for back in 0..text.len() {
        let place = text.len() - back;
        if text[place - 1] == b'\n' {
            return place;
        }
    }
    0
}

// The lines of a text before its last one, which begins there. They are a script, so each refusal is want of memory.
fn before_last(alloc: Global, text: &[u8], start: usize) -> Result<Option<LiveScript>, AllocError>
    requires within { start ≤ length text.now }
    requires behind { 0 < start → slice_index text.now (start - 1) ≡ 10 }
    ensures { IfOk result (λ before. text.now ≡ with_line before (drop start text.now)) }
{
    if start == 0 {
        return Ok(None);
    }
    match LiveScript::of(alloc, &text[..start - 1]) {
        Ok(live) => Ok(Some(live)),
        Err(_) => Err(AllocError),
    }
}
