//! A pull: a device takes and learns from another what it doesn't know. Its invariant: **whatever may be refused comes before
//! either device changes**.
//!
//! Tests: `test_scripts`.
#![tactic(auto)]

mod change;
mod delta;
mod filtered;
pub mod laws;
mod news;
mod previewing;
mod pulling;
mod quiet_range;
mod selection;
mod set_cursor;
mod staging;
mod superseding;

pub use photo_model::PullCounts;
pub use previewing::preview;
pub use pulling::pull;
pub use staging::{StagedPull, stage_pull};
