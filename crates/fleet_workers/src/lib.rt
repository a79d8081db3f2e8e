//! Runs scripts by several workers: the first on the calling thread, each other one on a thread of its own. Its invariant: **no
//! two workers have one device** at a time.
//!
//! Tests: `test_runs`.
#![tactic(auto)]

mod batch;
mod crew;
mod deal;
mod fault;
mod fleet;
mod gate;
mod number;
mod one;
mod parcel;
mod shared;
mod slots;
mod tally;
mod work;
mod worker;

pub use fault::WorkersError;
pub use fleet::run_fleet;
pub use gate::{Gate, OpenGate};
pub use number::Workers;
