//! The whole program, from the words to the exit status.
ghost use Rattle.std.specs.Prelude.{◌≡◌, ◌⊎◌, ℕ, List, true, map, Err, OnOk, IfSome};
ghost use Rattle.script_reader.specs.declared.fault.ScriptFault as script;
ghost use Rattle.run_error.specs.declared.error.RunError.TheVariants.{Script, Write};
ghost use Rattle.script_programs.specs.Helps.{AppendsSome};
ghost use Rattle.script_programs.specs.Statuses.{is_status, status_of};
ghost use Rattle.photofleet_cli.specs.Asked.{Work, work_of, AsksForHelp, AreRefused, Asks, OfFile};
ghost use Rattle.photofleet_cli.specs.Doing.{WritesAll, WritesSome, WritesPart};

use crate::helps::OVERVIEW;
use crate::opener::Opener;
use crate::streams::workers_stream;
use crate::words::{Job, Request, request_of};
use fleet_runner::{RunError, plain_stream, plan_stream, replay_stream};
use script_programs::{refused, status_of};
use std::alloc::Global;
use std::convert::AsStr;
use std::io::Write;
use std::mem::replace;
use std::sync::Wait;
use std::thread::Threads;

/// Does what a command line asks for, and gives the exit status. `words` begins with the program's name.
///
/// - 0: The words asked for help or for the version, and at least one byte of it was written to `out`. Or they named a file
///   whose bytes are a script, and exactly what they asked for was written: what its run prints, also for a run by several
///   workers or in a given order, which is then lawful; or its plan.
/// - 2: The words were refused. Nothing was written to `out`.
/// - 3: The words named a file that can't be opened or read, or whose bytes are no script, or memory was refused while its
///   script was read. Nothing was written to `out`.
/// - 4: Memory was refused elsewhere, or a worker's thread couldn't be started, or the order isn't lawful. Nothing was
///   written to `out`, or the whole texts of some first reports, or the lines of the plan's first commands.
/// - 5: A write failed. A front of what was asked for was written, or of help or the version.
///
/// `err` gets the reason of a failure; a failed write to `err` changes no status. `clap`'s contracts for the program's command
/// line say which words ask for help, are refused or name a file.
pub fn serve<S: AsStr, O: Opener, W: Write, E: Write, T: Threads + Wait + Copy + Send + 'static>(
    rt: T,
    alloc: Global,
    words: &[S],
    opener: &mut O,
    out: &mut W,
    err: &mut E,
) -> u8
    ensures status { is_status result ≡ true }
    ensures done { result ≡ 0 → (AsksForHelp (map S.text words.now)
        × AppendsSome (W.contents out.old) (W.contents out.new))
        ⊎ OfFile (O.content opener.old) (map S.text words.now) (WritesAll (W.contents out.old) (W.contents out.new)) }
    ensures refused { result ≡ 2 → AreRefused (map S.text words.now) }
    ensures file { result ≡ 3 → (file : List ℕ) × (work : Work) × Asks (map S.text words.now) file work }
    ensures nothing { (result ≡ 2) ⊎ (result ≡ 3) → out.new ≡ out.old }
    ensures first { result ≡ 4 → (out.new ≡ out.old)
        ⊎ OfFile (O.content opener.old) (map S.text words.now) (WritesSome (W.contents out.old) (W.contents out.new)) }
    ensures front { result ≡ 5 → AsksForHelp (map S.text words.now)
        ⊎ OfFile (O.content opener.old) (map S.text words.now) (WritesPart (W.contents out.old) (W.contents out.new)) }
{
    match request_of(alloc, words) {
        Ok(mut request) => {
            let done = perform(rt, alloc, &mut request, opener, out);
            status_of(done, err)
        }
        Err(refusal) => refused(alloc, &refusal, OVERVIEW, out, err),
    }
}

// Does what the command line asks for, and writes the result. It takes an order out of the request.
fn perform<O: Opener, W: Write, T: Threads + Wait + Copy + Send + 'static>(
    rt: T,
    alloc: Global,
    request: &mut Request<'_>,
    opener: &mut O,
    out: &mut W,
) -> Result<(), RunError>
    ensures written { OnOk result (IfSome (O.content opener.old request.old.file.now) (WritesAll (W.contents out.old)
        (W.contents out.new) (work_of request.old.job))) }
    ensures first { status_of result ≡ 4 → (out.new ≡ out.old)
        ⊎ IfSome (O.content opener.old request.old.file.now) (WritesSome (W.contents out.old)
        (W.contents out.new) (work_of request.old.job)) }
    ensures front { result ≡ Err Write
        → IfSome (O.content opener.old request.old.file.now) (WritesPart (W.contents out.old)
        (W.contents out.new) (work_of request.old.job)) }
    ensures nothing { (fault : script.ScriptFault) → result ≡ Err (Script fault) → out.new ≡ out.old }
{
    let mut source = opener.open(request.file).map_err(RunError::Script)?;
    match &mut request.job {
        Job::Plain => plain_stream(alloc, &mut source, out),
        Job::Run(workers) => workers_stream(rt, alloc, &mut source, out, *workers),
        Job::Replay(order) => {
            let order = replace(order, Vec::new(alloc));
            replay_stream(alloc, &mut source, out, order)
        }
        Job::Batches => plan_stream(alloc, &mut source, out),
    }
}
