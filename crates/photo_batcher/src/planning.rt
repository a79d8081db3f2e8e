// Planning, one command at a time.
ghost use Rattle.std.specs.Prelude.{◌≡◌, ◌<◌, ◌≤◌, ◌-◌, ◌∷◌, [], ◌++◌, ℕ, map, length, IfSome, IfOk, OnOk, slice_index};
ghost use Rattle.fleet_model.specs.Limits.{max_commands};
ghost use Rattle.photo_batcher.specs.Greedy.{free_behind, first_free, before_it};
ghost use Rattle.photo_batcher.specs.Plans.{entry_of, IsPlan};
ghost use Rattle.photo_batcher.specs.Steps.{IsPlannedTo, with_member};

use crate::Plan;
use crate::places::{last_on, note, places_at};
use script_reader::Script;
use std::alloc::{AllocError, Global};

/// Plans a script in one pass: each command goes into the first batch after those of the last commands on its devices. Its only
/// error is want of memory.
pub fn plan(alloc: Global, script: &Script) -> Result<Plan, AllocError>
    ensures { IfOk result (IsPlan script.now) }
{
    let mut last = vec![in alloc; 0; script.devices()]?;
    let mut batches = Vec::new(alloc);
    let mut afters = Vec::new(alloc);
    let mut members = Vec::new(alloc);
    for place in 0..script.commands() {
        let number = place as u32 + 1;
        let batch = plan_next(
            script,
            number,
            last.as_mut_slice(),
            &mut batches,
            &mut afters,
        )?;
        add_member(alloc, &mut members, batch, number)?;
    }
    Ok(Plan {
        batches,
        afters,
        members,
    })
}

// Plans one more command and returns its batch.
fn plan_next(
    script: &Script,
    number: u32,
    last: &mut [u32],
    batches: &mut Vec<u32>,
    afters: &mut Vec<u32>,
) -> Result<u32, AllocError>
    requires first { 0 < number }
    requires within { number ≤ length script.now.commands }
    requires few { number ≤ max_commands }
    requires so_far { IsPlannedTo script.now (number - 1) last.old batches.old.items afters.old.items }
    ensures planned { OnOk result (IsPlannedTo script.now number last.new batches.new.items afters.new.items) }
    ensures batch { IfOk result (λ batch. batches.new.items ≡ batches.old.items ++ batch ∷ []) }
{
    let (first, second) = places_at(script, number);
    let (batch, after) = place_behind(batches.as_slice(), last[first], last_on(last, second));
    batches.push(batch)?;
    afters.push(after)?;
    note(last, number, first, second);
    Ok(batch)
}

// Adds a command to its batch, which may be a new last one.
fn add_member(
    alloc: Global,
    members: &mut Vec<Vec<u32>>,
    batch: u32,
    number: u32,
) -> Result<(), AllocError>
    requires { batch ≤ length members.old.items }
    ensures { OnOk result (map (λ v. v.items) members.new.items ≡ with_member batch number (map (λ v. v.items) members.old.items)) }
{
    if batch as usize == members.len() {
        let mut row = Vec::new(alloc);
        row.push(number)?;
        members.push(row)?;
    } else {
        members[batch as usize].push(number)?;
    }
    Ok(())
}

// The first free batch after the last commands on one or two devices, and the command among them that a command in it goes
// after.
fn place_behind(batches: &[u32], last: u32, other: Option<u32>) -> (u32, u32)
    requires last { last ≤ length batches.now }
    requires other { IfSome other (λ n. n ≤ length batches.now) }
    requires few { length batches.now ≤ max_commands }
    requires low { (k : ℕ) → k < length batches.now → slice_index batches.now k ≤ k }
    ensures batch { result.0 ≡ first_free (entry_of batches.now) last other }
    ensures after { result.1 ≡ before_it (entry_of batches.now) last other }
{
    let free = free_behind(batches, last);
    match other {
        None => (free, last),
        Some(other) => {
            let other_free = free_behind(batches, other);
            if other_free < free {
                (free, last)
            } else if free < other_free {
                (other_free, other)
            } else {
                (free, last.max(other))
            }
        }
    }
}

// The first free batch after a command; 0 if there is no command.
fn free_behind(batches: &[u32], last: u32) -> u32
    requires last { last ≤ length batches.now }
    requires few { length batches.now ≤ max_commands }
    requires low { (k : ℕ) → k < length batches.now → slice_index batches.now k ≤ k }
    ensures { result ≡ free_behind (entry_of batches.now) last }
{
    if last == 0 {
        0
    } else {
        batches[last as usize - 1] + 1
    }
}
