//! A script that runs as it grows: a line is judged behind those before it, its command runs, and what the run prints of it is
//! told. Its invariant (`IsLive`): **the fleet, if it is there, shows the run of the lines so far**. What is told of a line is
//! what the run of all lines prints behind what it printed before.
//!
//! Tests: `tools/gate/check-shell`, `tools/gate/check-c`.
#![tactic(auto)]

mod lines;
mod live;
mod opening;
mod plain;
mod playing;
mod refusal;
mod several;

pub use live::{LiveScript, Told};
pub use plain::plain_text;
pub use refusal::Refusal;
