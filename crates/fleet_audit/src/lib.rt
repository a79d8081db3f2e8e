//! Audits devices and a log: each device stores exactly what it should, and no current version is lost. Its invariant: **yes
//! exactly where all devices are sound and all that is current is kept**, for any devices and any log.
//!
//! Tests: `test_runs`.
#![tactic(auto)]

mod current;
mod kept;
mod sound;
mod stretch;
mod whole;

pub use whole::audit;
