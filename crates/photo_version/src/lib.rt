//! Versions of pictures, their authors, and sets of versions. Invariant: **a vector is a set of versions** that has with each
//! version all earlier ones of its author, a device in an epoch. It has one entry for each author, in order, with a bound above
//! 0.
//!
//! Tests: `test_values`.
#![tactic(auto)]

mod author;
mod bounds;
mod each_entry;
pub mod laws;
mod show;
mod vector;
mod version;

pub use author::Author;
pub use vector::Vector;
pub use version::Version;
