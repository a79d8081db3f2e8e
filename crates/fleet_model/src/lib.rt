//! Scripts, what each command does to model devices, runs, and the proof that every run is sound and keeps what is current. The
//! crate has definitions, laws and their proofs; it uses no code that runs a script.
//!
//! Tests: `test_list_device`.
#![tactic(auto)]

mod command;
pub mod laws;
mod tally;

pub use command::{Command, CommandKind};
pub use tally::{Tally, Totals};
