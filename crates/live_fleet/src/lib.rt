//! A fleet of devices that runs commands one after another, by hand or from a script, and answers questions. Its invariant:
//! **every fleet came about by commands** (`CameAbout`), so its devices are sound and no current version is lost. No question
//! changes anything. A [`Session`] is a fleet whose calls have no precondition: **after a refusal the fleet is as it was**, and
//! the answer says why.
//!
//! Tests: `test_batches`, `test_saving`.
#![tactic(auto)]

mod answer;
mod asking;
mod copying;
mod entry;
mod fault;
mod fleet;
pub mod laws;
mod opening;
mod questions;
mod ranges;
mod session;
mod step;

pub use fault::FleetFault;
pub use fleet::Fleet;
pub use questions::{Moves, holding, knowing, lacking, pull_moves, selected};
pub use session::Session;
