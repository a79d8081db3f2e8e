//! What all programs share: the bytes of a file, exit statuses, and the answers to words that ask for no work. Its invariant:
//! **a status is that of what was done**.
//!
//! Tests: `tools/gate/check-view`, `tools/gate/check-shell`.
#![tactic(auto)]

mod refusals;
mod source;
mod statuses;

pub use refusals::{refused, without_words};
pub use source::{Unread, read_file, read_input};
pub use statuses::{BAD_SCRIPT, BAD_WORDS, DONE, status_of, without_memory};
