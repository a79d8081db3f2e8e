//! The devices of a command, and the last command on each device.
ghost use Rattle.std.specs.Prelude.{◌≡◌, ◌<◌, ◌≤◌, length, IfSome, slice_set};
ghost use Rattle.fleet_model.specs.Contents.{devices_of};
ghost use Rattle.photo_batcher.specs.Steps.{ArePlaces, read_second, with_place};

use script_reader::{Command, Script, devices_of};

/// The places of the devices of a command, which is given by its number.
pub(crate) fn places_at(script: &Script, number: u32) -> (usize, Option<usize>)
    requires first { 0 < number }
    requires within { number ≤ length script.now.commands }
    ensures { ArePlaces script.now number result.0 result.1 }
{
    places_of(script.command(number))
}

/// The places of a command's devices among the script's: `devices_of`, as indices.
pub fn places_of(command: &Command) -> (usize, Option<usize>)
    ensures first { result.0 ≡ (devices_of command.now).0 }
    ensures second { result.1 ≡ (devices_of command.now).1 }
{
    match devices_of(command) {
        (first, None) => (usize::from(first), None),
        (first, Some(second)) => (usize::from(first), Some(usize::from(second))),
    }
}

/// The last command on a second device, if there is one.
pub(crate) fn last_on(last: &[u32], second: Option<usize>) -> Option<u32>
    requires { IfSome second (λ k. k < length last.now) }
    ensures { result ≡ read_second last.now second }
{
    match second {
        Some(place) => Some(last[place]),
        None => None,
    }
}

/// Records the command as the last one on its devices.
pub(crate) fn note(last: &mut [u32], number: u32, first: usize, second: Option<usize>)
    requires first { first < length last.old }
    requires second { IfSome second (λ k. k < length last.old) }
    ensures { last.new ≡ with_place second number (slice_set last.old first number) }
{
    last[first] = number;
    if let Some(place) = second {
        last[place] = number;
    }
}
