//! Calls of `block_list`.
use crate::verdict::{Verdict, judged, mark};
use block_list::BlockList;
use std::alloc::Global;

/// The verdict on a call of `block_list`.
pub fn verdict(alloc: Global, call: &str) -> Option<Verdict> {
    match call {
        "BlockList::insert" => on_evens(alloc, 0, call),
        "BlockList::insert halving" => on_evens(alloc, 127, call),
        "BlockList::replace_between" => on_evens(alloc, 0, call),
        // a list with one block, which is full
        "BlockList::room" => on_evens(alloc, 64, call),
        _ => None,
    }
}

// The verdict on a call on a list of `count` even numbers.
fn on_evens(alloc: Global, count: u32, call: &str) -> Option<Verdict> {
    match evens(alloc, count) {
        Some(mut list) => {
            let right = match call {
                "BlockList::replace_between" => replaces(alloc, &mut list),
                "BlockList::room" => takes_room(alloc, &mut list),
                _ => inserts(alloc, &mut list, count),
            };
            Some(judged(right, has_evens(&list, count as usize)))
        }
        None => None,
    }
}

// The first `count` even numbers, from 0 on.
fn evens(alloc: Global, count: u32) -> Option<BlockList<u32>> {
    let mut list = BlockList::new(alloc);
    for i in 0..count {
        let end = list.len();
        list.insert(end, i.saturating_mul(2)).ok()?;
    }
    Some(list)
}

fn has_evens(list: &BlockList<u32>, count: usize) -> bool {
    if list.len() != count {
        return false;
    }
    let mut wanted: u32 = 0;
    for i in 0..list.len() {
        if *list.get(i) != wanted {
            return false;
        }
        wanted = wanted.saturating_add(2);
    }
    true
}

// Appends the next even number.
fn inserts(alloc: Global, list: &mut BlockList<u32>, count: u32) -> Option<bool> {
    let end = list.len();
    mark(alloc);
    let done = list.insert(end, count.saturating_mul(2));
    mark(alloc);
    done.ok()?;
    Some(has_evens(list, count as usize + 1))
}

fn replaces(alloc: Global, list: &mut BlockList<u32>) -> Option<bool> {
    mark(alloc);
    let done = list.replace_between(|x| *x < 7, |x| *x <= 7, 7);
    mark(alloc);
    done.ok()?;
    Some(list.len() == 1 && *list.get(0) == 7)
}

fn takes_room(alloc: Global, list: &mut BlockList<u32>) -> Option<bool> {
    mark(alloc);
    let room = list.room(3);
    mark(alloc);
    let _room = room.ok()?;
    Some(has_evens(list, 64))
}
