//! Reports on the commands of a script, and their texts. Invariant: **a report's text is the definition's, and each command has
//! at most one right answer** (`Tells`). Scripts and their reader are re-exported from `script_reader`.
//!
//! Tests: `test_scripts`.
#![tactic(auto)]

mod conflict_report;
mod known_report;
pub mod laws;
mod moved_report;
mod report;
mod tally;

pub use fleet_model::{Command, CommandKind, Tally, Totals};
pub use report::{Report, push_report, push_unnumbered, report_text};
pub use script_reader::{
    GrowingScript, LineFault, MAX_COMMANDS, MAX_DEVICES, MAX_TEXT_BYTES, Said, Script, ScriptFault,
    devices_of, kind_of, read_script,
};
pub use tally::totals_of;
