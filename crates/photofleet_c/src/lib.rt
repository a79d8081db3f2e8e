//! The proved core for C, Rust and Python: a whole script in one call, or a session line by line. A call's status tells what it
//! did to the caller's memory; it touched nothing else there.
//!
//! Tests: `tools/gate/check-c`.
#![tactic(auto)]

mod exports;
mod fault_lines;
mod handle;
mod loose;
mod placing;
mod refusal;
mod session;
mod sessions;
mod statuses;
mod steps;

pub use exports::photofleet_plain;
pub use sessions::{photofleet_ask, photofleet_close, photofleet_give, photofleet_open};
