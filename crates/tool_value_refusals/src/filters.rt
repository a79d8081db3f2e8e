//! Calls of `photo_filter_text` and `photo_filter_rules`.
use crate::verdict::{Verdict, judged, mark};
use photo_filter_rules::{BuildFault, Filter};
use photo_filter_text::{FilterFault, FilterTree, print, read};
use std::alloc::Global;

const TEXT: &str = "rating >= 4 and not keyword ball";

// The same text with all brackets.
const PRINTED: &str = "( rating >= 4 and not keyword ball )";

/// The verdict on a call of `photo_filter_text`.
pub fn verdict_on_texts(alloc: Global, call: &str) -> Option<Verdict> {
    match call {
        "read" => Some(judged(reads(alloc), true)),
        "print" => on_tree(alloc, false),
        "FilterTree::try_clone" => on_tree(alloc, true),
        _ => None,
    }
}

/// The verdict on a call of `photo_filter_rules`.
pub fn verdict_on_rules(alloc: Global, call: &str) -> Option<Verdict> {
    match call {
        "Filter::build" => build(alloc),
        "Filter::try_clone" => filter_copy(alloc),
        _ => None,
    }
}

fn reads(alloc: Global) -> Option<bool> {
    mark(alloc);
    let made = read(alloc, TEXT);
    mark(alloc);
    let right = match &made {
        Ok(tree) => Some(is_text_of(alloc, tree)),
        Err(FilterFault::NoMemory) => None,
        Err(_) => Some(false),
    };
    drop(made);
    right
}

// Whether a tree is printed as the text with all brackets.
fn is_text_of(alloc: Global, tree: &FilterTree) -> bool {
    match print(alloc, tree) {
        Ok(text) => text.as_str() == PRINTED,
        Err(_) => false,
    }
}

// The verdict on copying a tree, or on printing it.
fn on_tree(alloc: Global, is_copied: bool) -> Option<Verdict> {
    let made = read(alloc, TEXT);
    let verdict = match &made {
        Ok(tree) => Some(on_read(alloc, tree, is_copied)),
        Err(_) => None,
    };
    drop(made);
    verdict
}

fn on_read(alloc: Global, tree: &FilterTree, is_copied: bool) -> Verdict {
    let right = if is_copied {
        copies_tree(alloc, tree)
    } else {
        prints(alloc, tree)
    };
    judged(right, is_text_of(alloc, tree))
}

fn prints(alloc: Global, tree: &FilterTree) -> Option<bool> {
    mark(alloc);
    let text = print(alloc, tree);
    mark(alloc);
    match text {
        Ok(text) => Some(text.as_str() == PRINTED),
        Err(_) => None,
    }
}

fn copies_tree(alloc: Global, tree: &FilterTree) -> Option<bool> {
    mark(alloc);
    let made = tree.try_clone();
    mark(alloc);
    let right = match &made {
        Ok(copy) => Some(*copy == *tree),
        Err(_) => None,
    };
    drop(made);
    right
}

fn build(alloc: Global) -> Option<Verdict> {
    match read(alloc, TEXT) {
        Ok(tree) => Some(build_of(alloc, tree)),
        Err(_) => None,
    }
}

fn build_of(alloc: Global, tree: FilterTree) -> Verdict {
    mark(alloc);
    let built = Filter::build(alloc, tree);
    mark(alloc);
    let verdict = match &built {
        Ok(filter) => judged(Some(is_filter(alloc, filter)), true),
        Err((tree, BuildFault::NoMemory)) => judged(None, is_text_of(alloc, tree)),
        Err(_) => Verdict::Wrong,
    };
    drop(built);
    verdict
}

// Whether the filter is that of the text.
fn is_filter(alloc: Global, filter: &Filter) -> bool {
    filter.alternatives() == 1 && is_text_of(alloc, filter.tree())
}

/// The filter with that text. `None` where the text isn't a filter, or where memory is refused.
pub fn filter_of(alloc: Global, text: &str) -> Option<Filter> {
    let tree = read(alloc, text).ok()?;
    Filter::build(alloc, tree).ok()
}

/// Whether two filters are the same, as far as the public readers show.
pub fn same_filter(one: &Filter, other: &Filter) -> bool {
    one.alternatives() == other.alternatives() && one.tree() == other.tree()
}

fn filter_copy(alloc: Global) -> Option<Verdict> {
    let made = filter_of(alloc, TEXT);
    let verdict = match &made {
        Some(filter) => Some(judged(copies_filter(alloc, filter), is_filter(alloc, filter))),
        None => None,
    };
    drop(made);
    verdict
}

fn copies_filter(alloc: Global, filter: &Filter) -> Option<bool> {
    mark(alloc);
    let made = filter.try_clone();
    mark(alloc);
    let right = match &made {
        Ok(copy) => Some(same_filter(copy, filter)),
        Err(_) => None,
    };
    drop(made);
    right
}
