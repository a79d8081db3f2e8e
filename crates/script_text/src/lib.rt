//! The text of a script, with the law that reading it gives the script back. So a program can save what a user did and load it
//! by running the script. A text that is returned reads as its script.
//!
//! Tests: `test_scripts`, `test_saving`.
#![tactic(auto)]

mod field;
mod fit;
pub mod laws;
mod limits;
mod line;
mod made;
mod name;
mod text;

pub use line::command_text;
pub use text::script_text;
