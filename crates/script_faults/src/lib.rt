//! Explains to people what is wrong with a script: the line, what is wrong in it, what may stand there, and how to mend it. It
//! finds all this again from the script's text and the fault that the reader gave, by public calls alone.
//!
//! Tests: `tools/gate/check-view`.
#![tactic(auto)]

mod cause;
mod field_cause;
mod filter_cause;
mod filter_hint;
mod lines;
mod nearest;
mod number_cause;
mod odd;
mod telling;
mod word_cause;

pub use telling::fault_view;
