//! Runs of scripts, whose errors are those of a program's run.
ghost use Rattle.std.specs.Prelude.{◌≡◌, ◌⊎◌, OnOk, IfOk, IfErr};
ghost use Rattle.std.specs.Arc.{arc_value};
ghost use Rattle.photo_device.specs.Held.{entries_of};
ghost use Rattle.fleet_model.specs.Runs.{run, run_in_order};
ghost use Rattle.photo_batcher.specs.Orders.{IsLawful};
ghost use Rattle.fleet_steps.specs.Outcomes.{IsOutcome};
ghost use Rattle.run_error.specs.declared.error.RunError.TheVariants.{NoMemory, NoWorker, NotLawful};

use crate::{Gate, RunError, Workers};
use fleet_steps::{Outcome, ReplayError};
use fleet_workers::WorkersError;
use photo_script::Script;
use std::alloc::Global;
use std::sync::{Arc, Wait};
use std::thread::Threads;

/// Does what `fleet_steps::run_plain` does. Its only error is `NoMemory`.
pub fn run_plain(alloc: Global, script: &Script) -> Result<Outcome, RunError>
    ensures ok { IfOk result (IsOutcome script.now) }
    ensures log { IfOk result (λ outcome. entries_of outcome.log ≡ (run script.now).log) }
    ensures err { IfErr result (λ e. e ≡ NoMemory) }
{
    match fleet_steps::run_plain(alloc, script) {
        Ok(outcome) => Ok(outcome),
        Err(_) => Err(RunError::NoMemory),
    }
}

/// Does what `fleet_steps::replay` does. `NotLawful` comes only where the order isn't lawful; then nothing has run. The other
/// error is `NoMemory`.
pub fn replay(alloc: Global, script: &Script, order: &[u32]) -> Result<Outcome, RunError>
    ensures ok { IfOk result (IsOutcome script.now) }
    ensures log { IfOk result (λ outcome. entries_of outcome.log ≡ (run_in_order script.now order.now).log) }
    ensures lawful { OnOk result (IsLawful script.now order.now) }
    ensures err { IfErr result (λ e. (e ≡ NoMemory) ⊎ ((e ≡ NotLawful) × (IsLawful script.now order.now → ⊥))) }
{
    match fleet_steps::replay(alloc, script, order) {
        Ok(outcome) => Ok(outcome),
        Err(ReplayError::NoMemory) => Err(RunError::NoMemory),
        Err(ReplayError::NotLawful) => Err(RunError::NotLawful),
    }
}

/// Does what `fleet_workers::run_fleet` does. Where memory was refused (`NoMemory`) or a thread couldn't be started (`NoWorker`),
/// all workers that were started have been joined, and there is no outcome.
pub fn run_fleet<G: Gate + 'static, R: Threads + Wait + Copy + Send + 'static>(
    rt: R,
    alloc: Global,
    script: &Arc<Script>,
    workers: Workers,
    gate: Arc<G>,
) -> Result<Outcome, RunError>
    ensures ok { IfOk result (IsOutcome (arc_value script.now)) }
    ensures err { IfErr result (λ e. (e ≡ NoMemory) ⊎ (e ≡ NoWorker)) }
{
    match fleet_workers::run_fleet(rt, alloc, script, workers, gate) {
        Ok(outcome) => Ok(outcome),
        Err(WorkersError::NoMemory) => Err(RunError::NoMemory),
        Err(WorkersError::NoWorker) => Err(RunError::NoWorker),
    }
}
