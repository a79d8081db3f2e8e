//! Runs scripts, on one thread or by several workers, from a reader's bytes to the bytes of the reports. Its invariant: **what is
//! written is the texts of the right reports**.
//!
//! Tests: `test_runs`.
#![tactic(auto)]

pub mod laws;
mod order_streams;
mod plans;
mod reports;
mod running;
mod source;
mod stream;

pub use fleet_audit::audit;
pub use fleet_steps::{IssueLog, Outcome, run_between, run_command, run_on, run_pull};
pub use fleet_workers::{Gate, OpenGate, Workers};
pub use order_streams::{plan_stream, replay_stream};
pub use plans::write_plan;
pub use reports::write_reports;
pub use run_error::RunError;
pub use running::{replay, run_fleet, run_plain};
pub use source::read_source;
pub use stream::{plain_stream, run_stream};
