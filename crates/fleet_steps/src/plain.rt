// Runs a script in the order of its commands' numbers.
ghost use Rattle.std.specs.Prelude.{◌≡◌, ◌≤◌, IfOk};
ghost use Rattle.photo_device.specs.Held.{entries_of};
ghost use Rattle.fleet_model.specs.Limits.{max_commands};
ghost use Rattle.fleet_model.specs.Runs.{numbers_to, run};
ghost use Rattle.fleet_steps.specs.Outcomes.{IsOutcome};

use crate::Outcome;
use crate::ordered::run_ordered;
use photo_script::Script;
use std::alloc::{AllocError, Global};

/// Runs a script's commands in the order of their numbers; the log has the versions in the order in which they were made. Its
/// only error is want of memory.
pub fn run_plain(alloc: Global, script: &Script) -> Result<Outcome, AllocError>
    ensures ok { IfOk result (IsOutcome script.now) }
    ensures log { IfOk result (λ outcome. entries_of outcome.log ≡ (run script.now).log) }
{
    let numbers = numbers_to(alloc, script.commands())?;
    run_ordered(alloc, script, numbers.as_slice())
}

// The numbers from 1 to `last`.
fn numbers_to(alloc: Global, last: usize) -> Result<Vec<u32>, AllocError>
    requires { last ≤ max_commands }
    ensures { IfOk result (λ numbers. numbers.items ≡ numbers_to last) }
{
    let mut numbers = Vec::new(alloc);
    for place in 0..last {
        numbers.push(place as u32 + 1)?;
    }
    Ok(numbers)
}
