//! What a device knows: a set of pairs of a picture and a version.
//!
//! Its invariant: **fragments are in normal form**, so each set of pairs has one list of fragments. The first fragment is the star.
//! It is always there, lists no picture and has what is known of every picture. Each other fragment lists at least one picture, in
//! rising order, and its vector has all that the star has and something more. No two fragments have the same vector, no picture
//! stands in two, and they stand in the order of their first pictures.
//!
//! In memory the star stands once, and a fragment's row has only the bounds that exceed the star's. An index leads from each
//! listed picture to its fragment. What is staged stands in spare rows of the same form. It isn't known before it is committed,
//! and a refusal leaves nothing staged.
//!
//! Tests: `test_values`, `test_devices`.
#![tactic(auto)]

mod bound_filter;
mod distinct_union;
mod fragment;
mod group;
mod grouping;
mod index;
mod join;
mod knowledge;
mod knowledge_rows;
pub mod laws;
mod operand;
mod pair_cursor;
mod rows;
mod search;
mod told;
mod union;
mod vector_index;

pub use fragment::{Fragment, FragmentEntries};
pub use knowledge::Knowledge;
pub use told::Told;
