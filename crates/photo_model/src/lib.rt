//! Devices as definitions see them: entries, supersession, making, narrowing, refiltering, conflicts and pulls. The crate has
//! definitions and laws only; it uses no code that carries them out.
//!
//! Tests: `test_list_device`.
#![tactic(auto)]

mod counts;
pub mod laws;
mod place;

pub use counts::PullCounts;
pub use place::Place;
