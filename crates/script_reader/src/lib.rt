//! Reads scripts of a photo collection: devices, and commands on them in order. Its invariant (`IsScript`): **a script's commands
//! name its devices**, two different ones where they name two, **and its records are in range**. The numbers of devices and of
//! commands are within the limits.
//!
//! Tests: `test_scripts`.
#![tactic(auto)]

mod command;
mod fault;
mod field;
mod growing;
pub mod laws;
mod limits;
mod names;
mod reader;
mod refusal;
mod script;
mod single;
mod tally;
mod word_sets;

pub use command::{devices_of, kind_of};
pub use fault::{LineFault, ScriptFault};
pub use field::is_name;
pub use fleet_model::{Command, CommandKind, Tally};
pub use growing::{GrowingScript, Said};
pub use limits::{MAX_COMMANDS, MAX_DEVICES, MAX_TEXT_BYTES};
pub use reader::read_script;
pub use refusal::Refusal;
pub use script::Script;
pub use single::{read_filter, read_picture, read_record};
