//! Calls on an arena.
ghost use Rattle.std.specs.Prelude.{◌≤◌, length};

use fragment_arena::{FragmentArena, RawWords, Row};
use std::alloc::Global;

// An arena of two rows.
fn two_rows(alloc: Global) -> Option<FragmentArena> {
    let mut arena = FragmentArena::new(alloc);
    if arena.place(&[1, 2, 3]).is_ok() && arena.place(&[4]).is_ok() {
        Some(arena)
    } else {
        None
    }
}

/// All calls on an arena except `place`, `try_clone`, and `reserve` beyond the capacity that it has had.
pub fn answer(alloc: Global, times: u32) -> Option<bool> {
    match two_rows(alloc) {
        Some(arena) => Some(answer_beside(alloc, &arena, times)),
        None => None,
    }
}

fn answer_beside(alloc: Global, arena: &FragmentArena, times: u32) -> bool {
    let mut other = FragmentArena::new(alloc);
    is_worked(arena, &mut other) && answer_of(alloc, arena, &mut other, times)
}

fn answer_of(alloc: Global, arena: &FragmentArena, other: &mut FragmentArena, times: u32) -> bool {
    for _ in 0..times {
        if FragmentArena::new(alloc).rows() != 0 {
            return false;
        }
        if !is_worked(arena, other) || !is_paired(other) {
            return false;
        }
    }
    true
}

// Clears the other arena, reserves capacity that it has had before, and places there a row of its own and both rows of the
// first.
fn is_worked(arena: &FragmentArena, other: &mut FragmentArena) -> bool {
    other.clear();
    if arena.rows() != 2 || arena.words_of_run(0, 2) != Some(4) || other.reserve(6, 3).is_err() {
        return false;
    }
    other.place_reserved(&[5, 6]);
    other.place_run(arena, 0, 2);
    other.rows() == 3 && has_rows(other)
}

fn has_rows(arena: &FragmentArena) -> bool
    requires { 3 ≤ length arena.now.rows }
{
    if arena.row(Row::at(1)).len() != 3 {
        return false;
    }
    arena.row(Row::at(1)) == [1, 2, 3].as_slice() && arena.row(Row::at(2)).len() == 1
}

// Reserves capacity that it has had before, and places two rows there at once.
fn is_paired(other: &mut FragmentArena) -> bool {
    other.clear();
    if other.reserve(6, 3).is_err() {
        return false;
    }
    let reserved = other.has_reserved(6) && other.has_reserved_pair(5);
    let second = other.place_reserved_pair(5, &[6, 7]);
    let (blocks, _words) = other.memory();
    reserved && second.place() == 1 && other.rows() == 2 && blocks > 0
}

/// All calls on a block of raw words except `make`.
pub fn answer_raw(alloc: Global, times: u32) -> Option<bool> {
    match RawWords::make(alloc, 3) {
        Ok(mut words) => Some(answer_of_raw(&mut words, times)),
        Err(_) => None,
    }
}

fn answer_of_raw(words: &mut RawWords, times: u32) -> bool {
    for _ in 0..times {
        if !are_written(words) {
            return false;
        }
    }
    true
}

// Writes three words.
fn are_written(words: &mut RawWords) -> bool {
    words.clear();
    if words.room() != 3 {
        return false;
    }
    words.write(&[1, 2, 3]);
    words.len() == 3 && words.capacity() == 3 && words.slice(1, 2) == [2, 3].as_slice()
}
