//! The filter language: the trees of filters, reading them from text, and printing them. Invariant: **a tree that is read is
//! the one that the grammar gives its tokens**, and a printed text has the tree that was printed.
//!
//! Tests: `test_values`.
#![tactic(auto)]

mod fault;
pub mod laws;
mod printing;
mod reader;
mod reading;
mod show;
mod symbol;
mod tokens;
mod tree;

pub use fault::FilterFault;
pub use printing::print;
pub use reading::read;
pub use tree::{Cmp, FilterTree};
