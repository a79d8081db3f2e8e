//! Writes the text of a plan.
ghost use Rattle.std.specs.Prelude.{◌≡◌, ◌<◌, ◌≤◌, ◌++◌, length, string_bytes, codes, OnOk, IfErr, Err};
ghost use Rattle.std.specs.Fmt.{decimal};
ghost use Rattle.std.specs.Io.KnownBytes.{Appends};
ghost use Rattle.run_error.specs.declared.error.RunError.TheVariants.{NoMemory, Write};
ghost use Rattle.fleet_runner.specs.OrderStreams.{AppendsLines};
ghost use Rattle.fleet_runner.specs.Outputs.{AppendsFront, IsOfWriting};
ghost use Rattle.fleet_runner.specs.PlanTexts.{after_text, command_line, plan_text};

use crate::RunError;
use crate::reports::write_text;
use itoa::Buffer;
use photo_batcher::Plan;
use std::alloc::{AllocError, Global};
use std::io::Write;

/// Writes a plan, and flushes the writer. Each command, in the order of their numbers, has a line with its batch and the
/// command that it goes after; the last line has the number of batches.
///
/// After want of memory the lines of some first commands are written, perhaps of none. An error or a 0 of the writer is
/// `Write`; then a front of the text is written.
pub fn write_plan<W: Write>(alloc: Global, writer: &mut W, plan: &Plan) -> Result<(), RunError>
    ensures written { OnOk result (Appends (W.contents writer.old) (W.contents writer.new) (plan_text plan.now)) }
    ensures first { result ≡ Err NoMemory → AppendsLines (W.contents writer.old) (W.contents writer.new) plan.now }
    ensures front { result ≡ Err Write → AppendsFront (W.contents writer.old) (W.contents writer.new) (plan_text plan.now) }
    ensures err { IfErr result IsOfWriting }
{
    write_lines(alloc, writer, plan)?;
    if writer.flush().is_err() {
        return Err(RunError::Write);
    }
    Ok(())
}

fn write_lines<W: Write>(alloc: Global, writer: &mut W, plan: &Plan) -> Result<(), RunError>
    ensures written { OnOk result (Appends (W.contents writer.old) (W.contents writer.new) (plan_text plan.now)) }
    ensures first { result ≡ Err NoMemory → AppendsLines (W.contents writer.old) (W.contents writer.new) plan.now }
    ensures front { result ≡ Err Write → AppendsFront (W.contents writer.old) (W.contents writer.new) (plan_text plan.now) }
    ensures err { IfErr result IsOfWriting }
{
    let mut text = String::new(alloc);
    for place in 0..plan.commands() {
        text.clear();
        push_command(&mut text, plan, place + 1)?;
        write_text(writer, text.as_bytes())?;
    }
    text.clear();
    push_count(&mut text, plan.batches())?;
    write_text(writer, text.as_bytes())
}

fn push_command(text: &mut String, plan: &Plan, number: u32) -> Result<(), AllocError>
    requires first { 0 < number }
    requires within { number ≤ length plan.now.batches }
    ensures { OnOk result (string_bytes text.new ≡ string_bytes text.old ++ command_line plan.now number) }
{
    push_decimal(text, number)?;
    text.push_str(" batch ")?;
    push_decimal(text, plan.batch_of(number))?;
    text.push_str(" after ")?;
    push_after(text, plan.after(number))?;
    text.push_str("\n")?;
    Ok(())
}

fn push_after(text: &mut String, after: Option<u32>) -> Result<(), AllocError>
    ensures { OnOk result (string_bytes text.new ≡ string_bytes text.old ++ after_text after) }
{
    match after {
        Some(number) => push_decimal(text, number)?,
        None => text.push_str("-")?,
    }
    Ok(())
}

fn push_count(text: &mut String, batches: u32) -> Result<(), AllocError>
    ensures { OnOk result (string_bytes text.new ≡ string_bytes text.old ++ codes "batches " ++ decimal batches ++ codes "\n") }
{
    text.push_str("batches ")?;
    push_decimal(text, batches)?;
    text.push_str("\n")?;
    Ok(())
}

fn push_decimal(text: &mut String, number: u32) -> Result<(), AllocError>
    ensures { OnOk result (string_bytes text.new ≡ string_bytes text.old ++ decimal number) }
{
    let mut buffer = Buffer::new();
    text.push_str(buffer.format(number))?;
    Ok(())
}
