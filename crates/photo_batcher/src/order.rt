// Lawful orders.
ghost use Rattle.std.specs.Prelude.{◌≡◌, ◌<◌, ◌↔◌, true, length, IfSome, IfOk};
ghost use Rattle.photo_batcher.specs.Orders.{IsLawful};
ghost use Rattle.photo_batcher.specs.Steps.{IsAbove};

use crate::places::{note, places_at};
use script_reader::Script;
use std::alloc::{AllocError, Global};

/// Whether the order is lawful: it has each command's number once and no other, and of two commands that work on a common
/// device the earlier one comes first. Its only error is want of memory.
pub fn lawful(alloc: Global, script: &Script, order: &[u32]) -> Result<bool, AllocError>
    ensures { IfOk result (λ answer. (answer ≡ true) ↔ IsLawful script.now order.now) }
{
    if order.len() != script.commands() {
        return Ok(false);
    }
    let mut last = vec![in alloc; 0; script.devices()]?;
    for number in order {
        if *number == 0 || *number as usize > script.commands() {
            return Ok(false);
        }
        let (first, second) = places_at(script, *number);
        if !is_above(last.as_slice(), *number, first, second) {
            return Ok(false);
        }
        note(last.as_mut_slice(), *number, first, second);
    }
    Ok(true)
}

// Whether the command's number is above the last ones on its devices.
fn is_above(last: &[u32], number: u32, first: usize, second: Option<usize>) -> bool
    requires first { first < length last.now }
    requires second { IfSome second (λ k. k < length last.now) }
    ensures { (result ≡ true) ↔ IsAbove last.now number first second }
{
    if last[first] >= number {
        return false;
    }
    match second {
        Some(place) => last[place] < number,
        None => true,
    }
}
