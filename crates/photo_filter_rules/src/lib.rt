//! Filters at work: which records a filter matches, and which filter covers which. Invariant: **a filter's alternatives are its
//! tree's**, and no part of the tree is too wide. Matching and covering use the alternatives.
//!
//! Tests: `test_values`.
#![tactic(auto)]

mod alternative;
mod copies;
mod fault;
mod filter;
pub mod laws;
mod list;
mod polarity;
mod span;
mod words;

pub use fault::BuildFault;
pub use filter::{Filter, covers};
