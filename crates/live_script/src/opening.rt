//! Builds the fleet of a script, and the text that the run of its later commands prints.
ghost use Rattle.std.specs.Prelude.{◌≡◌, ◌≤◌, length, string_bytes, IfOk, OnOk};
ghost use Rattle.fleet_model.specs.Limits.{max_commands};
ghost use Rattle.live_script.specs.Live.{IsAnswered, IsToldOf, ShowsRun, first_of};

use live_fleet::Fleet;
use photo_script::{Script, push_report};
use std::alloc::{AllocError, Global};

/// Makes the fleet of a script's devices, and runs the script's first `count` commands on it. Its only error is want of memory.
pub fn fleet_of(alloc: Global, script: &Script, count: usize) -> Result<Fleet, AllocError>
    requires within { count ≤ length script.now.commands }
    requires few { count ≤ max_commands }
    ensures shown { IfOk result (ShowsRun (first_of count script.now)) }
    ensures few { IfOk result (λ fleet. fleet.commands ≤ count) }
    ensures answered { OnOk result (IsAnswered (first_of count script.now)) }
{
    let mut fleet = Fleet::of_script(alloc, script)?;
    run_first(script, count, &mut fleet)?;
    Ok(fleet)
}

// Runs the first commands of a script on its fleet. Its only error is want of memory.
fn run_first(script: &Script, count: usize, fleet: &mut Fleet) -> Result<(), AllocError>
    requires within { count ≤ length script.now.commands }
    requires few { count ≤ max_commands }
    requires opening { ShowsRun (first_of 0 script.now) fleet.old }
    requires none { fleet.old.commands ≡ 0 }
    ensures shown { OnOk result (ShowsRun (first_of count script.now) fleet.new) }
    ensures few { OnOk result (fleet.new.commands ≤ count) }
    ensures answered { OnOk result (IsAnswered (first_of count script.now)) }
{
    for place in 0..count {
        fleet.run(script.command(place as u32 + 1))?;
    }
    Ok(())
}

/// Makes the fleet of a script's devices and runs all its commands on it. Returns the fleet, and what the run prints of the commands
/// after the first `count`. Its only error is want of memory.
pub fn told_fleet(
    alloc: Global,
    script: &Script,
    count: usize,
) -> Result<(Fleet, Vec<u8>), AllocError>
    requires within { count ≤ length script.now.commands }
    requires few { count ≤ max_commands }
    ensures shown { IfOk result (λ more. ShowsRun script.now more.0) }
    ensures answered { OnOk result (IsAnswered script.now) }
    ensures told { IfOk result (λ more. IsToldOf (first_of count script.now) script.now more.1.items) }
{
    let mut fleet = fleet_of(alloc, script, count)?;
    match run_others(alloc, script, count, &mut fleet) {
        Ok(text) => Ok((fleet, text.into_bytes())),
        Err(error) => Err(error),
    }
}

// Runs the commands of a script after the first `count` on the fleet of these, and returns what the run prints of them. Its only
// error is want of memory.
fn run_others(
    alloc: Global,
    script: &Script,
    count: usize,
    fleet: &mut Fleet,
) -> Result<String, AllocError>
    requires within { count ≤ length script.now.commands }
    requires shown { ShowsRun (first_of count script.now) fleet.old }
    requires answered { IsAnswered (first_of count script.now) }
    requires count { fleet.old.commands ≤ count }
    ensures shown { OnOk result (ShowsRun script.now fleet.new) }
    ensures answered { OnOk result (IsAnswered script.now) }
    ensures told { IfOk result (λ text. IsToldOf (first_of count script.now) script.now (string_bytes text)) }
{
    let mut text = String::new(alloc);
    for place in count..script.commands() {
        let number = place as u32 + 1;
        let report = fleet.run(script.command(number))?;
        push_report(&mut text, script, number, &report)?;
    }
    Ok(text)
}
