//! The calls of `tool_call_refusals` on values and ledgers, and the words for the verdict on any call.
#![tactic(auto)]

mod arenas;
mod calls;
mod filters;
mod knowledges;
mod ledgers;
mod lists;
mod records;
mod vectors;
mod verdict;

pub use calls::verdict_on;
pub use filters::{filter_of, same_filter};
pub use knowledges::told;
pub use records::rated;
pub use verdict::{Verdict, judged, mark, word_of};
