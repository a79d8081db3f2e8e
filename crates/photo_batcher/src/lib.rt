//! Which commands of a script may run side by side, and in which orders they may run. Invariant: **each command is in the least
//! batch that any schedule allows, and a plan has the fewest batches** (`IsPlan`).
//!
//! Tests: `test_batches`.
#![tactic(auto)]

mod batches;
pub mod laws;
mod order;
mod places;
mod planning;

pub use batches::Plan;
pub use order::lawful;
pub use places::places_of;
pub use planning::plan;
