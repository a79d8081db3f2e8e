//! The tests of a photo collection's values, over their crates' public calls: records, filters, versions, knowledges, and the
//! lists and arenas that store them.
//!
//! Its laws work out examples of relations that those crates' contracts cite.
#![tactic(auto)]

#[cfg(test)]
mod answers;
#[cfg(test)]
mod arenas;
#[cfg(test)]
mod filter_texts;
#[cfg(test)]
mod filters;
#[cfg(test)]
mod knowledges;
pub mod laws;
#[cfg(test)]
mod lists;
#[cfg(test)]
mod records;
#[cfg(test)]
mod versions;
