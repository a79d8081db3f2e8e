//! Runs one command on devices, and whole scripts on one thread. Its invariant: **every run is sound and keeps what is
//! current**. All ways to run use the one call that runs a command.
//!
//! Tests: `test_runs`.
#![tactic(auto)]

mod command;
mod fault;
mod issue_log;
pub mod laws;
mod logging;
mod ordered;
mod outcome;
mod plain;
mod replaying;
mod step;

pub use command::{run_between, run_command, run_pull};
pub use fault::ReplayError;
pub use issue_log::IssueLog;
pub use logging::made_on;
pub use ordered::{no_reports, opening_device, opening_devices};
pub use outcome::Outcome;
pub use plain::run_plain;
pub use replaying::replay;
pub use step::run_on;
