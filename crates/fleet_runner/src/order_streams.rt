//! Streams for a run in an order and for the text of a plan.
ghost use Rattle.std.specs.Prelude.{◌≡◌, ◌≢◌, ◌⊎◌, ◌+◌, OnOk, IfErr, IfSome, Err};
ghost use Rattle.bounded_read.specs.Taking.{TakesAtMost};
ghost use Rattle.script_reader.specs.Limits.{max_text_bytes};
ghost use Rattle.script_reader.specs.Reading.{script_of};
ghost use Rattle.script_reader.specs.declared.fault.ScriptFault.{ScriptFault};
ghost use Rattle.script_reader.specs.declared.fault.ScriptFault.TheVariants as script;
ghost use Rattle.run_error.specs.declared.error.RunError.TheVariants.{NoMemory, NoWorker, NotLawful, Script, Write};
ghost use Rattle.fleet_runner.specs.Outputs.{IsOfPlainRun};
ghost use Rattle.fleet_runner.specs.OrderStreams.{IsScript, IsUnlawfulFor, WritesReplay, WritesReplayFirst, WritesReplayFront};
ghost use Rattle.fleet_runner.specs.OrderStreams.{WritesPlan, WritesPlanFirst, WritesPlanFront};

use crate::stream::script_read;
use crate::{RunError, replay, write_plan, write_reports};
use photo_batcher::plan;
use std::alloc::Global;
use std::io::{Read, Write};

/// Reads a script, runs its commands in the order of these numbers, if that is lawful, and then writes its reports.
///
/// After a `Script` fault and after `NotLawful` nothing is written. The fault is the first one of the bytes read, unless reading
/// or memory failed. After `NoMemory` the bytes are a script, and the whole texts of some first reports are written, perhaps of
/// none; after `Write` a front of all texts. At most 8,388,609 bytes are read.
pub fn replay_stream<R: Read, W: Write>(
    alloc: Global,
    reader: &mut R,
    writer: &mut W,
    order: Vec<u32>,
) -> Result<(), RunError>
    ensures written { OnOk result (IfSome (R.remaining reader.old) (WritesReplay order.items (W.contents writer.old)
        (W.contents writer.new))) }
    ensures first { result ≡ Err NoMemory → (writer.new ≡ writer.old)
        ⊎ IfSome (R.remaining reader.old) (WritesReplayFirst order.items (W.contents writer.old) (W.contents writer.new)) }
    ensures front { result ≡ Err Write
        → IfSome (R.remaining reader.old) (WritesReplayFront order.items (W.contents writer.old) (W.contents writer.new)) }
    ensures unlawful { result ≡ Err NotLawful → (writer.new ≡ writer.old)
        × IfSome (R.remaining reader.old) (λ input. IsUnlawfulFor input order.items) }
    ensures refused { (fault : ScriptFault) → result ≡ Err (Script fault) → fault ≢ script.Read → fault ≢ script.NoMemory
        → IfSome (R.remaining reader.old) (λ input. script_of input ≡ Err fault) }
    ensures nothing { (fault : ScriptFault) → result ≡ Err (Script fault) → writer.new ≡ writer.old }
    ensures read { result ≡ Err NoMemory → IfSome (R.remaining reader.old) IsScript }
    ensures taken { TakesAtMost (R.remaining reader.old) (R.remaining reader.new) (max_text_bytes + 1) }
    ensures err { IfErr result (λ e. e ≢ NoWorker) }
{
    let script = script_read(alloc, reader)?;
    let outcome = replay(alloc, &script, &order)?;
    // Freed early: freeing this large block last is slow in malloc.
    drop(order);
    write_reports(alloc, writer, &script, outcome.reports.as_slice())
}

/// Reads a script and writes its plan.
///
/// After a `Script` fault nothing is written. The fault is the first one of the bytes read, unless reading or memory failed.
/// After `NoMemory` the bytes are a script, and the lines of some first commands are written, perhaps of none; after `Write` a
/// front of the plan's text. At most 8,388,609 bytes are read.
pub fn plan_stream<R: Read, W: Write>(
    alloc: Global,
    reader: &mut R,
    writer: &mut W,
) -> Result<(), RunError>
    ensures written { OnOk result (IfSome (R.remaining reader.old) (WritesPlan (W.contents writer.old) (W.contents writer.new))) }
    ensures first { result ≡ Err NoMemory → (writer.new ≡ writer.old)
        ⊎ IfSome (R.remaining reader.old) (WritesPlanFirst (W.contents writer.old) (W.contents writer.new)) }
    ensures front { result ≡ Err Write
        → IfSome (R.remaining reader.old) (WritesPlanFront (W.contents writer.old) (W.contents writer.new)) }
    ensures refused { (fault : ScriptFault) → result ≡ Err (Script fault) → fault ≢ script.Read → fault ≢ script.NoMemory
        → IfSome (R.remaining reader.old) (λ input. script_of input ≡ Err fault) }
    ensures nothing { (fault : ScriptFault) → result ≡ Err (Script fault) → writer.new ≡ writer.old }
    ensures read { result ≡ Err NoMemory → IfSome (R.remaining reader.old) IsScript }
    ensures taken { TakesAtMost (R.remaining reader.old) (R.remaining reader.new) (max_text_bytes + 1) }
    ensures err { IfErr result IsOfPlainRun }
{
    let script = script_read(alloc, reader)?;
    let plan = plan(alloc, &script)?;
    write_plan(alloc, writer, &plan)
}
