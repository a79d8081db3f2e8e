//! The program, from the words of its command line to its exit status, over any files and writers. Its invariant: **a status
//! says what was written**, for every opener and writer that state their bytes.
//!
//! Tests: `photofleet`.
#![tactic(auto)]

mod helps;
pub mod laws;
mod opener;
mod refusals;
mod serving;
mod streams;
mod words;

pub use opener::Opener;
pub use refusals::without_words;
pub use script_programs::without_memory;
pub use serving::serve;
