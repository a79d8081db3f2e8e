//! Calls by the names of their libraries.
use crate::verdict::Verdict;
use crate::{arenas, filters, knowledges, ledgers, lists, records, vectors};
use std::alloc::Global;

/// The verdict on a call of a library. `None` where the library has no call of that name, or where the values for the call
/// can't be made.
pub fn verdict_on(alloc: Global, library: &str, call: &str) -> Option<Verdict> {
    match library {
        "photo_record" => records::verdict(alloc, call),
        "photo_filter_text" => filters::verdict_on_texts(alloc, call),
        "photo_filter_rules" => filters::verdict_on_rules(alloc, call),
        "photo_version" => vectors::verdict(alloc, call),
        _ => on_lists(alloc, library, call),
    }
}

fn on_lists(alloc: Global, library: &str, call: &str) -> Option<Verdict> {
    match library {
        "fragment_arena" => arenas::verdict(alloc, call),
        "item_knowledge" => knowledges::verdict(alloc, call),
        "block_list" => lists::verdict(alloc, call),
        "work_ledger" => ledgers::verdict(alloc, call),
        _ => None,
    }
}
