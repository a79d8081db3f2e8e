//! Groups of calls by their names.
use crate::{arenas, epochs, knowledges, lists, records, vectors};
use std::alloc::Global;

/// Whether each call of a group gives the right answer, as often as asked. `None` where no group has that name, or where the
/// values for it can't be made. The groups `vector_with`, `knowledge_copy` and `list_cut` do take memory: unless their
/// allocations are counted, the other counts prove nothing.
pub fn answer_on_values(alloc: Global, group: &str, times: u32) -> Option<bool> {
    match group {
        "fields" | "versions" | "epochs" => Some(answer_fields(group, times)),
        "words" => records::answer_words(alloc, times),
        "vector" | "vector_with" => vectors::answer(alloc, group, times),
        "arena" => arenas::answer(alloc, times),
        "raw_words" => arenas::answer_raw(alloc, times),
        _ => of_parts(alloc, group, times),
    }
}

fn of_parts(alloc: Global, group: &str, times: u32) -> Option<bool> {
    match group {
        "knowledge" | "fragment" | "knowledge_staging" | "knowledge_commit" | "knowledge_copy" => {
            knowledges::answer(alloc, group, times)
        }
        "knowledge_raising" => knowledges::answer_raising(alloc, times),
        "list" | "list_removing" | "list_cut" => lists::answer(alloc, group, times),
        "list_growing" => lists::answer_growing(alloc, times),
        _ => None,
    }
}

// Calls on values that each round makes anew.
fn answer_fields(group: &str, times: u32) -> bool {
    for _ in 0..times {
        let right = match group {
            "fields" => records::are_fields_right(),
            "versions" => vectors::is_version_right(),
            _ => epochs::are_epochs_right(),
        };
        if !right {
            return false;
        }
    }
    true
}
