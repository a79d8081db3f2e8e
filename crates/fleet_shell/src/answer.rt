//! What is answered to a line.
ghost use Rattle.std.specs.Prelude.{◌≡◌, ◌≢◌, ◌↔◌, ◌++◌, ◌∷◌, [], codes, OnOk};
ghost use Rattle.std.specs.Io.KnownBytes.{Appends};
ghost use Rattle.fleet_shell.specs.Answers.{IsGiven, IsUndone, shown};
ghost use Rattle.fleet_shell.specs.Kinds.{kind_of};
ghost use Rattle.fleet_shell.specs.declared.answer.Answer.TheVariants as answer;
ghost use Rattle.fleet_shell.specs.declared.kind.Kind.TheVariants as kind;

use crate::kind::{Kind, kind_of};
use crate::lines::Lines;
use crate::own::said_of;
use live_script::Refusal;
use photo_script::ScriptFault;
use script_faults::fault_view;
use std::alloc::{AllocError, Global};
use std::io::{self, Write};
use std::rt::Files;

/// What is answered to a line.
#[derive(Drop)]
pub enum Answer {
    /// The line was taken: what its run prints of it.
    Report(Vec<u8>),
    /// The line has that fault, which the text explains.
    Fault(ScriptFault, String),
    /// What a word of the shell's own tells.
    Said(String),
    /// The last line, which was taken back.
    TakenBack(Vec<u8>),
    /// Memory was refused, so the lines are as they were.
    NoMemory,
    /// The talk ends.
    Quit,
}

/// Does what a line says, and gives the answer.
pub fn answer_to<F: Files>(files: &F, alloc: Global, lines: &mut Lines, line: &[u8]) -> Answer
    ensures given { kind_of line.now ≡ kind.Line → IsGiven lines.old.live line.now lines.new.live result }
    ensures undone { kind_of line.now ≡ kind.Undo → IsUndone lines.old.live lines.new.live result }
    ensures kept { kind_of line.now ≢ kind.Line → kind_of line.now ≢ kind.Undo → lines.new.live ≡ lines.old.live }
    ensures quits { (result ≡ answer.Quit) ↔ (kind_of line.now ≡ kind.Quit) }
{
    match kind_of(line) {
        Kind::Line => given(alloc, lines, line),
        Kind::Undo => undone(alloc, lines),
        Kind::Quit => Answer::Quit,
        own => said(files, alloc, lines, own, line),
    }
}

// Gives a line of a script.
fn given(alloc: Global, lines: &mut Lines, line: &[u8]) -> Answer
    ensures given { IsGiven lines.old.live line.now lines.new.live result }
    ensures stays { result ≢ answer.Quit }
{
    match lines.give(alloc, line) {
        Ok(text) => Answer::Report(text),
        Err(Refusal::NoMemory) => Answer::NoMemory,
        Err(Refusal::Script(fault)) => match explained(alloc, lines, line, fault) {
            Ok(text) => Answer::Fault(fault, text),
            Err(_) => Answer::NoMemory,
        },
    }
}

// The text that explains the fault of the lines with one more behind them.
fn explained(
    alloc: Global,
    lines: &Lines,
    line: &[u8],
    fault: ScriptFault,
) -> Result<String, AllocError> {
    let all = lines.with_line(alloc, line)?;
    fault_view(alloc, &all, fault)
}

// `undo`
fn undone(alloc: Global, lines: &mut Lines) -> Answer
    ensures undone { IsUndone lines.old.live lines.new.live result }
    ensures stays { result ≢ answer.Quit }
{
    match lines.undo(alloc) {
        Ok(Some(line)) => Answer::TakenBack(line),
        Ok(None) => match String::from_str(alloc, "undo: there is no line\n") {
            Ok(text) => Answer::Said(text),
            Err(_) => Answer::NoMemory,
        },
        Err(_) => Answer::NoMemory,
    }
}

// What another word of the shell's own tells, which changes nothing.
fn said<F: Files>(files: &F, alloc: Global, lines: &Lines, own: Kind, line: &[u8]) -> Answer
    ensures { result ≢ answer.Quit }
{
    match said_of(files, alloc, lines, own, line) {
        Ok(text) => Answer::Said(text),
        Err(_) => Answer::NoMemory,
    }
}

/// Writes an answer, and flushes the writer.
pub fn write_answer<W: Write>(out: &mut W, answer: &Answer) -> io::Result<()>
    ensures { OnOk result (Appends (W.contents out.old) (W.contents out.new) (shown answer.now)) }
{
    match answer {
        Answer::Report(text) => out.write_all(text)?,
        Answer::Fault(_, text) | Answer::Said(text) => out.write_all(text.as_bytes())?,
        Answer::TakenBack(line) => write_taken_back(out, line)?,
        Answer::NoMemory => out.write_all(b"run error: E1 NoMemory\n")?,
        Answer::Quit => {}
    }
    out.flush()
}

fn write_taken_back<W: Write>(out: &mut W, line: &[u8]) -> io::Result<()>
    ensures { OnOk result (Appends (W.contents out.old) (W.contents out.new) (codes "taken back: " ++ line.now ++ 10 ∷ [])) }
{
    out.write_all(b"taken back: ")?;
    out.write_all(line)?;
    out.write_all(b"\n")
}
