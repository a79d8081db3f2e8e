//! Streams from a reader's bytes to the bytes of the reports, on one thread or by workers.
ghost use Rattle.std.specs.Prelude.{◌≡◌, ◌≢◌, ◌+◌, OnOk, IfOk, IfErr, IfSome, Ok, Err};
ghost use Rattle.bounded_read.specs.Taking.{TakesAtMost};
ghost use Rattle.script_reader.specs.Limits.{max_text_bytes};
ghost use Rattle.script_reader.specs.Reading.{script_of};
ghost use Rattle.script_reader.specs.declared.fault.ScriptFault.{ScriptFault};
ghost use Rattle.script_reader.specs.declared.fault.ScriptFault.TheVariants as script;
ghost use Rattle.fleet_steps.specs.Laws.{AcceptedStaysSound};
ghost use Rattle.run_error.specs.declared.error.RunError.TheVariants.{NoMemory, NoWorker, Script, Write};
ghost use Rattle.fleet_runner.specs.Outputs.{IsOfReading, IsOfPlainRun, IsOfWorkersRun, WritesOutput};
ghost use Rattle.fleet_runner.specs.Outputs.{WritesFirst, WritesFront};

use crate::{Gate, RunError, Workers, read_source, run_fleet, run_plain, write_reports};
use fleet_steps::laws::accepted_stays_sound;
use std::alloc::Global;
use std::io::{Read, Write};
use std::sync::{Arc, Wait};
use std::thread::Threads;

/// Reads a script, runs it command by command, and then writes its reports.
///
/// Nothing is written before the run has succeeded: a `Script` fault leaves the writer as it was. The fault is the first one of
/// the bytes read, unless reading or memory failed. After `NoMemory` the whole texts of some first reports are written, perhaps
/// of none, and after `Write` a front of all texts. At most 8,388,609 bytes are read. After each command of the script its
/// devices are sound, and no current version is lost.
pub fn plain_stream<R: Read, W: Write>(
    alloc: Global,
    reader: &mut R,
    writer: &mut W,
) -> Result<(), RunError>
    ensures written { OnOk result (IfSome (R.remaining reader.old) (WritesOutput (W.contents writer.old) (W.contents writer.new))) }
    ensures first { result ≡ Err NoMemory → IfSome (R.remaining reader.old) (WritesFirst (W.contents writer.old) (W.contents writer.new)) }
    ensures front { result ≡ Err Write → IfSome (R.remaining reader.old) (WritesFront (W.contents writer.old) (W.contents writer.new)) }
    ensures refused { (fault : ScriptFault) → result ≡ Err (Script fault) → fault ≢ script.Read → fault ≢ script.NoMemory
        → IfSome (R.remaining reader.old) (λ input. script_of input ≡ Err fault) }
    ensures nothing { (fault : ScriptFault) → result ≡ Err (Script fault) → writer.new ≡ writer.old }
    ensures taken { TakesAtMost (R.remaining reader.old) (R.remaining reader.new) (max_text_bytes + 1) }
    ensures err { IfErr result IsOfPlainRun }
{
    let script = script_read(alloc, reader)?;
    let outcome = run_plain(alloc, &script)?;
    write_reports(alloc, writer, &script, outcome.reports.as_slice())
}

/// Reads a script, runs it by several workers, the first of them on the calling thread, and then writes its reports. The bytes
/// written are those of [`plain_stream`].
///
/// Nothing is written before the run has succeeded: a `Script` fault leaves the writer as it was, and so does `NoWorker`, where
/// a thread couldn't be started. The fault is the first one of the bytes read, unless reading or memory failed. After
/// `NoMemory` the whole texts of some first reports are written, perhaps of none, and after `Write` a front of all texts. At
/// most 8,388,609 bytes are read.
pub fn run_stream<R: Read, W: Write, G: Gate + 'static, T: Threads + Wait + Copy + Send + 'static>(
    rt: T,
    alloc: Global,
    reader: &mut R,
    writer: &mut W,
    workers: Workers,
    gate: Arc<G>,
) -> Result<(), RunError>
    ensures written { OnOk result (IfSome (R.remaining reader.old) (WritesOutput (W.contents writer.old) (W.contents writer.new))) }
    ensures first { result ≡ Err NoMemory → IfSome (R.remaining reader.old) (WritesFirst (W.contents writer.old) (W.contents writer.new)) }
    ensures front { result ≡ Err Write → IfSome (R.remaining reader.old) (WritesFront (W.contents writer.old) (W.contents writer.new)) }
    ensures refused { (fault : ScriptFault) → result ≡ Err (Script fault) → fault ≢ script.Read → fault ≢ script.NoMemory
        → IfSome (R.remaining reader.old) (λ input. script_of input ≡ Err fault) }
    ensures nothing { (fault : ScriptFault) → result ≡ Err (Script fault) → writer.new ≡ writer.old }
    ensures nothing_without_worker { result ≡ Err NoWorker → writer.new ≡ writer.old }
    ensures taken { TakesAtMost (R.remaining reader.old) (R.remaining reader.new) (max_text_bytes + 1) }
    ensures err { IfErr result IsOfWorkersRun }
{
    let script = script_read(alloc, reader)?;
    let script = Arc::new(alloc, script)?;
    let outcome = run_fleet(rt, alloc, &script, workers, gate)?;
    write_reports(alloc, writer, &*script, outcome.reports.as_slice())
}

// Reads a script, and states that every accepted script stays sound.
pub(crate) fn script_read<R: Read>(
    alloc: Global,
    reader: &mut R,
) -> Result<photo_script::Script, RunError>
    ensures read { IfOk result (λ script. IfSome (R.remaining reader.old) (λ input. script_of input ≡ Ok script)) }
    ensures sound { AcceptedStaysSound }
    ensures refused { (fault : ScriptFault) → result ≡ Err (Script fault) → fault ≢ script.Read → fault ≢ script.NoMemory
        → IfSome (R.remaining reader.old) (λ input. script_of input ≡ Err fault) }
    ensures taken { TakesAtMost (R.remaining reader.old) (R.remaining reader.new) (max_text_bytes + 1) }
    ensures err { IfErr result IsOfReading }
{
    // The clause `sound` needs this law, which does nothing at run time.
    accepted_stays_sound();
    match read_source(alloc, reader) {
        Ok(script) => Ok(script),
        Err(fault) => Err(RunError::Script(fault)),
    }
}
