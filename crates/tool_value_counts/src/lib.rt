//! The calls of `tool_memory_counts` on records, versions, lists, arenas and knowledges.
#![tactic(auto)]

mod arenas;
mod epochs;
mod groups;
mod knowledges;
mod lists;
mod records;
mod vectors;

pub use groups::answer_on_values;
pub use knowledges::first_known;
