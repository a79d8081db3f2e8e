//! Writes reports.
ghost use Rattle.std.specs.Prelude.{◌≡◌, ◌≤◌, length, map, OnOk, OnErr, IfErr, Err};
ghost use Rattle.std.specs.List.{AllByRecursion};
ghost use Rattle.fleet_model.specs.Limits.{max_commands};
ghost use Rattle.std.specs.Io.KnownBytes.{Appends};
ghost use Rattle.photo_script.specs.Reports.{answer_of, texts_from, IsAbout};
ghost use Rattle.run_error.specs.declared.error.RunError.TheVariants.{NoMemory, Write};
ghost use Rattle.fleet_runner.specs.Outputs.{AppendsFirst, AppendsFront, IsOfWriting};

use crate::RunError;
use photo_script::{Report, Script, push_report};
use std::alloc::Global;
use std::io::Write;

/// Writes the texts of the reports, numbered from 1, one after another, and flushes the writer.
///
/// After want of memory the whole texts of some first reports are written, perhaps of none. An error or a 0 of the writer is
/// `Write`; then a front of all texts is written.
pub fn write_reports<W: Write>(
    alloc: Global,
    writer: &mut W,
    script: &Script,
    reports: &[Report],
) -> Result<(), RunError>
    requires few { length reports.now ≤ max_commands }
    requires about { AllByRecursion (IsAbout script.now) (map answer_of reports.now) }
    ensures written { OnOk result
        (Appends (W.contents writer.old) (W.contents writer.new) (texts_from script.now 1 (map answer_of reports.now))) }
    ensures first { result ≡ Err NoMemory
        → AppendsFirst (W.contents writer.old) (W.contents writer.new) script.now (map answer_of reports.now) }
    ensures front { result ≡ Err Write
        → AppendsFront (W.contents writer.old) (W.contents writer.new) (texts_from script.now 1 (map answer_of reports.now)) }
    ensures err { IfErr result IsOfWriting }
{
    write_texts(alloc, writer, script, reports)?;
    if writer.flush().is_err() {
        return Err(RunError::Write);
    }
    Ok(())
}

fn write_texts<W: Write>(
    alloc: Global,
    writer: &mut W,
    script: &Script,
    reports: &[Report],
) -> Result<(), RunError>
    requires few { length reports.now ≤ max_commands }
    requires about { AllByRecursion (IsAbout script.now) (map answer_of reports.now) }
    ensures written { OnOk result
        (Appends (W.contents writer.old) (W.contents writer.new) (texts_from script.now 1 (map answer_of reports.now))) }
    ensures first { result ≡ Err NoMemory
        → AppendsFirst (W.contents writer.old) (W.contents writer.new) script.now (map answer_of reports.now) }
    ensures front { result ≡ Err Write
        → AppendsFront (W.contents writer.old) (W.contents writer.new) (texts_from script.now 1 (map answer_of reports.now)) }
    ensures err { IfErr result IsOfWriting }
{
    let mut text = String::new(alloc);
    let mut number = 0;
    for report in reports {
        number += 1;
        text.clear();
        push_report(&mut text, script, number, report)?;
        write_text(writer, text.as_bytes())?;
    }
    Ok(())
}

// Writes a text, whatever pieces the writer takes.
pub(crate) fn write_text<W: Write>(writer: &mut W, text: &[u8]) -> Result<(), RunError>
    ensures written { OnOk result (Appends (W.contents writer.old) (W.contents writer.new) text.now) }
    ensures front { OnErr result (AppendsFront (W.contents writer.old) (W.contents writer.new) text.now) }
    ensures err { IfErr result (λ e. e ≡ Write) }
{
    let mut rest = text;
    while !rest.is_empty() {
        match writer.write(rest) {
            Ok(0) | Err(_) => return Err(RunError::Write),
            Ok(count) => rest = &rest[count..],
        }
    }
    Ok(())
}
