// Runs a script in an order that the caller chooses.
ghost use Rattle.std.specs.Prelude.{◌≡◌, ◌⊎◌, OnOk, IfOk, IfErr};
ghost use Rattle.photo_device.specs.Held.{entries_of};
ghost use Rattle.fleet_model.specs.Runs.{run_in_order};
ghost use Rattle.photo_batcher.specs.Orders.{IsLawful};
ghost use Rattle.fleet_steps.specs.Outcomes.{IsOutcome};
ghost use Rattle.fleet_steps.specs.declared.fault.ReplayError.TheVariants.{NoMemory, NotLawful};

use crate::ordered::run_ordered;
use crate::{Outcome, ReplayError};
use photo_batcher::lawful;
use photo_script::Script;
use std::alloc::Global;

/// Runs a script's commands in the order of these numbers, if it is lawful. The devices, the report under each number and the
/// totals are those of a run in the order of the numbers. Only the log differs: it has the versions in the order in which they
/// were made.
///
/// `NotLawful` comes only where the order isn't lawful; then nothing has run. The other error is want of memory.
pub fn replay(alloc: Global, script: &Script, order: &[u32]) -> Result<Outcome, ReplayError>
    ensures ok { IfOk result (IsOutcome script.now) }
    ensures log { IfOk result (λ outcome. entries_of outcome.log ≡ (run_in_order script.now order.now).log) }
    ensures lawful { OnOk result (IsLawful script.now order.now) }
    ensures err { IfErr result (λ e. (e ≡ NoMemory) ⊎ ((e ≡ NotLawful) × (IsLawful script.now order.now → ⊥))) }
{
    if !lawful(alloc, script, order)? {
        return Err(ReplayError::NotLawful);
    }
    Ok(run_ordered(alloc, script, order)?)
}
