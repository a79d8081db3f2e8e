//! Calls of `fragment_arena`.

use crate::verdict::{Verdict, judged, mark};
use fragment_arena::{FragmentArena, RawWords};
use std::alloc::Global;

/// The verdict on a call of `fragment_arena`.
pub fn verdict(alloc: Global, call: &str) -> Option<Verdict> {
    match call {
        "FragmentArena::reserve" => on_one_row(alloc, false),
        "FragmentArena::place" => place(alloc),
        "FragmentArena::try_clone" => on_one_row(alloc, true),
        "RawWords::make" => Some(judged(makes(alloc), true)),
        _ => None,
    }
}

// An arena with one row.
fn one_row(alloc: Global) -> Option<FragmentArena> {
    let mut arena = FragmentArena::new(alloc);
    if arena.place(&[3, 5]).is_ok() {
        Some(arena)
    } else {
        None
    }
}

fn has_one_row(arena: &FragmentArena) -> bool {
    arena.rows() == 1 && arena.words_of_run(0, 1) == Some(2)
}

// The verdict on copying an arena with one row, or on reserving there.
fn on_one_row(alloc: Global, is_copied: bool) -> Option<Verdict> {
    match one_row(alloc) {
        Some(mut arena) => {
            let right = if is_copied {
                copies(alloc, &arena)
            } else {
                reserves(alloc, &mut arena)
            };
            Some(judged(right, has_one_row(&arena)))
        }
        None => None,
    }
}

fn reserves(alloc: Global, arena: &mut FragmentArena) -> Option<bool> {
    mark(alloc);
    let done = arena.reserve(1000, 10);
    mark(alloc);
    match done {
        Ok(()) => {
            let row = arena.place_reserved(&[9, 9]);
            Some(arena.row(row) == [9, 9].as_slice() && arena.rows() == 2)
        }
        Err(_) => None,
    }
}

fn place(alloc: Global) -> Option<Verdict> {
    let mut arena = FragmentArena::new(alloc);
    let right = places(alloc, &mut arena);
    let unchanged = arena.rows() == 0;
    Some(judged(right, unchanged))
}

fn places(alloc: Global, arena: &mut FragmentArena) -> Option<bool> {
    mark(alloc);
    let row = arena.place(&[3, 5]);
    mark(alloc);
    match row {
        Ok(row) => Some(arena.row(row) == [3, 5].as_slice() && arena.rows() == 1),
        Err(_) => None,
    }
}

fn copies(alloc: Global, arena: &FragmentArena) -> Option<bool> {
    mark(alloc);
    let copy = arena.try_clone();
    mark(alloc);
    match copy {
        Ok(copy) => Some(has_one_row(&copy)),
        Err(_) => None,
    }
}

fn makes(alloc: Global) -> Option<bool> {
    mark(alloc);
    let words = RawWords::make(alloc, 4);
    mark(alloc);
    match words {
        Ok(mut words) => {
            words.write(&[3, 5]);
            Some(words.room() == 2 && words.slice(0, 2) == [3, 5].as_slice())
        }
        Err(_) => None,
    }
}
