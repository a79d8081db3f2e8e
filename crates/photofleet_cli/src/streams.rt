//! Streams a run by workers, from a reader's bytes to what it prints.
ghost use Rattle.std.specs.Prelude.{◌≡◌, ◌⊎◌, OnOk, IfErr, IfSome, Err};
ghost use Rattle.script_reader.specs.declared.fault.ScriptFault.{ScriptFault};
ghost use Rattle.run_error.specs.declared.error.RunError.TheVariants.{NoMemory, NoWorker, Script, Write};
ghost use Rattle.fleet_runner.specs.Outputs.{IsOfWorkersRun};
ghost use Rattle.photofleet_cli.specs.Asked.{run};
ghost use Rattle.photofleet_cli.specs.Doing.{WritesAll, WritesSome, WritesPart};

use fleet_runner::{OpenGate, RunError, Workers, run_stream};
use std::alloc::Global;
use std::io::{Read, Write};
use std::sync::{Arc, Wait};
use std::thread::Threads;

/// Reads a script, runs it by several workers, and then writes its reports.
///
/// After a `Script` fault and after `NoWorker` nothing is written. After `NoMemory` the whole texts of some first reports are
/// written, perhaps of none, and after `Write` a front of all texts.
pub fn workers_stream<R: Read, W: Write, T: Threads + Wait + Copy + Send + 'static>(
    rt: T,
    alloc: Global,
    reader: &mut R,
    writer: &mut W,
    workers: Workers,
) -> Result<(), RunError>
    ensures written { OnOk result (IfSome (R.remaining reader.old) (WritesAll (W.contents writer.old)
        (W.contents writer.new) (run workers))) }
    ensures first { result ≡ Err NoMemory → (writer.new ≡ writer.old)
        ⊎ IfSome (R.remaining reader.old) (WritesSome (W.contents writer.old) (W.contents writer.new) (run workers)) }
    ensures front { result ≡ Err Write
        → IfSome (R.remaining reader.old) (WritesPart (W.contents writer.old) (W.contents writer.new) (run workers)) }
    ensures nothing { (fault : ScriptFault) → result ≡ Err (Script fault) → writer.new ≡ writer.old }
    ensures nothing_without_worker { result ≡ Err NoWorker → writer.new ≡ writer.old }
    ensures err { IfErr result IsOfWorkersRun }
{
    let gate = Arc::new(alloc, OpenGate)?;
    run_stream(rt, alloc, reader, writer, workers, gate)
}
