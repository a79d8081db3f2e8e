// Tests of a device: tables of steps, and the steps that devices take.
mod asking;
mod changing;
mod filtering;
mod making;
mod pulling;
mod showing;
mod staging;
mod steps;

use std::alloc::Global;
use steps::{Step, does, opened};

// Each table has a test of its own, since a function's proof grows with the square of the tables that it names.

/// A name, a new device by its number and its filter's text, and its steps.
pub type Run = (&'static str, u16, &'static str, &'static [Step]);

/// Whether a new device passes all of the steps.
pub fn is_run(alloc: Global, (_, author, text, steps): &Run) -> bool {
    match opened(alloc, *author, text) {
        Some(mut device) => does(alloc, &mut device, steps),
        None => false,
    }
}

#[test]
fn a_refusal_is_shown(rt: HostRuntime) {
    assert!(rt; changing::is_shown(rt.alloc(), "C1 NotHeld"));
}
