//! Why a program's run of a script fails: what can go wrong between a reader's bytes and a writer's.
//!
//! Tests: `test_runs`.
#![tactic(auto)]

mod error;

pub use error::RunError;
