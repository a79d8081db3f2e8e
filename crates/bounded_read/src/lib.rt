//! Reads a source to its end, or up to one byte beyond a limit. Invariant: **what is read is the whole source, however it comes
//! in pieces**, and no more than the limit and one byte is taken from it.
//!
//! Tests: `test_runs`, `tools/gate/check-shell`.
#![tactic(auto)]

mod fault;
mod whole;

pub use fault::ReadFault;
pub use whole::read_whole;
