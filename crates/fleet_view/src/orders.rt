//! Why the commands of a script may not run in an order.
ghost use Rattle.std.specs.Prelude.{◌≡◌, ◌↔◌, true, IfOk};
ghost use Rattle.photo_batcher.specs.Orders.{IsLawful};

use photo_batcher::lawful;
use photo_script::{Script, devices_of};
use script_views::device_name;
use std::alloc::{AllocError, Global};

// What makes an order unlawful.
#[derive(Clone, Copy)]
enum Breach {
    // No command has that number.
    NoCommand(u32),
    // A number stands there twice.
    Twice(u32),
    // A number is missing.
    Missing(u32),
    // A command stands behind a later one that works on the same device.
    Behind {
        number: u32,
        later: u32,
        device: u16,
    },
}

/// Appends to a text why the commands of the script may not run in an order, by the first number at which that shows, and
/// gives whether they may. Its only error is want of memory, behind which the text is unfinished.
pub fn push_order(
    alloc: Global,
    text: &mut String,
    script: &Script,
    order: &[u32],
) -> Result<bool, AllocError>
    ensures { IfOk result (λ answer. (answer ≡ true) ↔ IsLawful script.now order.now) }
{
    if lawful(alloc, script, order)? {
        text.push_str("no fault: it is a script, and its commands may run in that order\n")?;
        return Ok(true);
    }
    text.push_str("run error: E3 NotLawful\n")?;
    if let Some(breach) = breach_of(alloc, script, order)? {
        push_breach(text, script, breach)?;
    }
    Ok(false)
}

fn push_breach(text: &mut String, script: &Script, breach: Breach) -> Result<(), AllocError> {
    let commands = script.commands();
    match breach {
        Breach::NoCommand(number) => write!(
            text,
            "known:    no command has the number {number}: there are {commands}\nmend:     leave {number} out\n"
        ),
        Breach::Twice(number) => write!(
            text,
            "known:    {number} stands there twice\nmend:     write each number once\n"
        ),
        Breach::Missing(number) => write!(
            text,
            "known:    {number} is missing\nmend:     write each number once\n"
        ),
        Breach::Behind {
            number,
            later,
            device,
        } => {
            let name = device_name(script, device);
            write!(
                text,
                "known:    {number} stands behind {later}, and both work on {name}\nmend:     write {number} in front of {later}\n"
            )
        }
    }
}

// The first breach in an order.
fn breach_of(alloc: Global, script: &Script, order: &[u32]) -> Result<Option<Breach>, AllocError> {
    let mut seen = vec![in alloc; false; script.commands()]?;
    let mut latest = vec![in alloc; 0u32; script.devices()]?;
    for number in order {
        if let Some(breach) = breach_at(script, &mut seen, &mut latest, *number) {
            return Ok(Some(breach));
        }
    }
    for (place, is_there) in seen.iter().enumerate() {
        if !*is_there {
            return Ok(Some(Breach::Missing(place as u32 + 1)));
        }
    }
    Ok(None)
}

// What is wrong with a number, behind those that were seen; of each device the latest command is known that works on it.
fn breach_at(
    script: &Script,
    seen: &mut [bool],
    latest: &mut [u32],
    number: u32,
) -> Option<Breach> {
    if number == 0 || number as usize > script.commands() {
        return Some(Breach::NoCommand(number));
    }
    if let Some(is_there) = seen.get_mut(number as usize - 1) {
        if *is_there {
            return Some(Breach::Twice(number));
        }
        *is_there = true;
    }
    let (device, source) = devices_of(script.command(number));
    let breach = breach_on(latest, number, device);
    match (breach, source) {
        (None, Some(source)) => breach_on(latest, number, source),
        _ => breach,
    }
}

// Notes that a command works on a device, unless a later one stands before it.
fn breach_on(latest: &mut [u32], number: u32, device: u16) -> Option<Breach> {
    let last = latest.get_mut(usize::from(device))?;
    if *last > number {
        return Some(Breach::Behind {
            number,
            later: *last,
            device,
        });
    }
    *last = number;
    None
}
