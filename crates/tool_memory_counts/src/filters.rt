//! Calls on a filter.
use photo_filter_rules::{Filter, covers};
use photo_filter_text::FilterTree;
use photo_record::Record;
use std::alloc::Global;
use tool_value_refusals::{filter_of, rated};

/// `covers`, `matches` and the readers of a filter.
pub fn answer(alloc: Global, times: u32) -> Option<bool> {
    let wide = filter_of(alloc, "rating >= 3 or keyword sea or day >= 2024-06-01");
    let narrow = filter_of(alloc, "rating >= 4 and not keyword ball");
    let record = rated(alloc, 4);
    let right = answer_of_all(&wide, &narrow, &record, times);
    drop(wide);
    drop(narrow);
    drop(record);
    right
}

fn answer_of_all(
    wide: &Option<Filter>,
    narrow: &Option<Filter>,
    record: &Option<Record>,
    times: u32,
) -> Option<bool> {
    match (wide, narrow, record) {
        (Some(wide), Some(narrow), Some(record)) => Some(answer_of(wide, narrow, record, times)),
        _ => None,
    }
}

fn answer_of(wide: &Filter, narrow: &Filter, record: &Record, times: u32) -> bool {
    for _ in 0..times {
        if !select(wide, narrow, record) {
            return false;
        }
    }
    true
}

fn select(wide: &Filter, narrow: &Filter, record: &Record) -> bool {
    covers(wide, narrow)
        && !covers(narrow, wide)
        && is_both(narrow.tree())
        && wide.matches(record)
        && !narrow.matches(record)
        && wide.alternatives() == 3
}

fn is_both(tree: &FilterTree) -> bool {
    match tree {
        FilterTree::Both(..) => true,
        _ => false,
    }
}
