//! Tests of arenas: rows that are placed, reserved, copied and cleared.
ghost use Rattle.std.specs.Prelude.{◌≡◌, IfOk};

use fragment_arena::{FragmentArena, RawWords, Row};
use std::alloc::{AllocError, Global};
use std::snapshot::Snapshot;
use std::thread;
use std::thread::{Promise, Threads};

// Whether a row has these words.
fn has_row(arena: &FragmentArena, place: usize, words: &[u64]) -> bool {
    place < arena.rows() && arena.row(Row::at(place)) == words
}

// Whether two rows are at their places, and whether a row that is placed after clearing is.
fn places_rows(arena: &mut FragmentArena) -> bool {
    if arena.place(&[3, 5]).is_err() || arena.place(&[]).is_err() {
        return false;
    }
    if arena.rows() != 2 || arena.row(Row::at(0)).len() != 2 {
        return false;
    }
    let read = has_row(arena, 0, &[3, 5]) && has_row(arena, 1, &[]);
    arena.clear();
    if arena.rows() != 0 || arena.reserve(2, 1).is_err() || arena.has_reserved(3) {
        return false;
    }
    let row = arena.place_reserved(&[9, 9]);
    read && row.place() == 0 && has_row(arena, 0, &[9, 9]) && !arena.has_reserved(0)
}

// Whether two pairs of rows are where they were placed, up to the last reserved one.
fn places_pairs(arena: &mut FragmentArena) -> bool {
    arena.clear();
    if arena.place(&[4]).is_err() || arena.reserve(5, 4).is_err() {
        return false;
    }
    let second = arena.place_reserved_pair(11, &[12, 13]);
    let left = arena.has_reserved_pair(1) && !arena.has_reserved_pair(2);
    let last = arena.place_reserved_pair(14, &[15]);
    let full = second.place() == 2 && last.place() == 4 && !arena.has_reserved_pair(0);
    let first = has_row(arena, 0, &[4]) && has_row(arena, 1, &[11]);
    let behind = has_row(arena, 2, &[12, 13]) && has_row(arena, 3, &[14]);
    left && full && first && behind && has_row(arena, 4, &[15])
}

fn rows_are_placed(alloc: Global) -> bool {
    let mut arena = FragmentArena::new(alloc);
    places_rows(&mut arena) && places_pairs(&mut arena)
}

#[test]
fn rows_stand_at_their_places(rt: HostRuntime) {
    assert!(rt; rows_are_placed(rt.alloc()));
}

// Whether a larger block replaces a block without rows, and whether a block with rows stays beside one four times as large.
fn gives_way(arena: &mut FragmentArena) -> bool {
    if arena.reserve(40, 1).is_err() || arena.reserve(1000, 1).is_err() {
        return false;
    }
    let alone = arena.memory() == (1, 1000);
    if arena.place(&[7]).is_err() || arena.reserve(3000, 2).is_err() {
        return false;
    }
    alone && arena.memory() == (2, 4000) && has_row(arena, 0, &[7])
}

fn a_block_gives_way(alloc: Global) -> bool {
    let mut arena = FragmentArena::new(alloc);
    gives_way(&mut arena)
}

#[test]
fn a_block_without_rows_gives_way(rt: HostRuntime) {
    assert!(rt; a_block_gives_way(rt.alloc()));
}

// Whether 10,000 rounds of one size take no more memory than the first.
fn rounds_take_no_more(alloc: Global) -> bool {
    let mut arena = FragmentArena::new(alloc);
    let mut first = (0, 0);
    for round in 0..10_000 {
        arena.clear();
        if arena.reserve(40, 2).is_err() || arena.place(&[round, 7]).is_err() {
            return false;
        }
        if round == 0 {
            first = arena.memory();
        }
    }
    arena.memory() == first
}

#[test]
fn memory_does_not_grow(rt: HostRuntime) {
    assert!(rt; rounds_take_no_more(rt.alloc()));
}

// Places rows of 0 to 299 words; each word is the row's number.
fn place_stairs(alloc: Global, arena: &mut FragmentArena) -> Result<(), AllocError> {
    for i in 0..300 {
        let row = vec![in alloc; i as u64; i]?;
        arena.place(&row)?;
    }
    Ok(())
}

fn stairs(alloc: Global) -> Result<FragmentArena, AllocError> {
    let mut arena = FragmentArena::new(alloc);
    match place_stairs(alloc, &mut arena) {
        Ok(()) => Ok(arena),
        Err(error) => Err(error),
    }
}

// Whether the rows are those of the stairs.
fn are_stairs(arena: &FragmentArena) -> bool {
    if arena.rows() != 300 {
        return false;
    }
    for i in 0..300 {
        let row = arena.row(Row::at(i));
        if row.len() != i || row.first() != row.last() || (i > 0 && row[0] != i as u64) {
            return false;
        }
    }
    true
}

// Whether rows in several blocks are read back in each round, and whether rounds of one size take no more memory.
fn climbs(alloc: Global, arena: &mut FragmentArena) -> bool {
    let mut memory = arena.memory();
    for round in 0..5 {
        arena.clear();
        if place_stairs(alloc, arena).is_err() || !are_stairs(arena) {
            return false;
        }
        if round > 2 && arena.memory() != memory {
            return false;
        }
        memory = arena.memory();
    }
    true
}

#[derive(Drop)]
struct Same(Snapshot<FragmentArena>);

impl Promise<FragmentArena> for Same {
    ghost kept_by = { λ p r. r ≡ p.0.value };
}

// Sends an arena to another thread and back.
fn there_and_back<R: Threads>(rt: &R, arena: FragmentArena) -> Result<FragmentArena, AllocError>
    ensures { IfOk result (λ a. a ≡ arena) }
{
    let promise = Same(Snapshot::of(&arena));
    let child = thread::spawn_with(rt, promise, move || arena)?;
    Ok(child.join(rt))
}

// Whether stairs can be climbed again after they were in another thread.
fn stand_after_a_thread<R: Threads>(rt: &R, alloc: Global) -> bool {
    let Ok(arena) = stairs(alloc) else {
        return false;
    };
    match there_and_back(rt, arena) {
        Ok(mut arena) => are_stairs(&arena) && climbs(alloc, &mut arena),
        Err(_) => false,
    }
}

#[test]
fn rows_lie_in_many_blocks_and_cross_threads(rt: HostRuntime) {
    assert!(rt; stand_after_a_thread(&rt, rt.alloc()));
}

// Runs of the stairs, each with its first row, the row behind its last one, and its number of words. The first blocks have 32,
// 128, 512 and 2,048 words, so they begin with rows 0, 8, 18 and 36.
const RUNS: &[(usize, usize, usize)] = &[
    (0, 0, 0),
    (9, 9, 0),
    (300, 300, 0),
    (0, 8, 28),
    (8, 18, 125),
    (9, 13, 42),
    (18, 19, 18),
    (17, 19, 35),
    (8, 36, 602),
    (7, 37, 645),
    (299, 300, 299),
    (0, 300, 44_850),
];

// Whether the rows from an index on are those of another arena's run, and are the last.
fn have_run(
    arena: &FragmentArena,
    first: usize,
    other: &FragmentArena,
    (from, to): (usize, usize),
) -> bool {
    let mut place = first;
    for row in from..to {
        if row >= other.rows() || !has_row(arena, place, other.row(Row::at(row))) {
            return false;
        }
        place = place.wrapping_add(1);
    }
    place == arena.rows()
}

// Whether a run has that many words, and is appended to another arena's rows.
fn takes_run(
    other: &mut FragmentArena,
    arena: &FragmentArena,
    (from, to, words): (usize, usize, usize),
) -> bool {
    if from > to || to > arena.rows() || arena.words_of_run(from, to) != Some(words) {
        return false;
    }
    if other.place(&[1, 2, 3]).is_err() || other.reserve(words, to - from).is_err() {
        return false;
    }
    let first = other.rows();
    other.place_run(arena, from, to);
    have_run(other, first, arena, (from, to))
}

fn takes_runs(alloc: Global, arena: &FragmentArena) -> bool {
    let mut other = FragmentArena::new(alloc);
    for run in RUNS {
        if !takes_run(&mut other, arena, *run) {
            return false;
        }
    }
    true
}

fn runs_are_taken(alloc: Global) -> bool {
    match stairs(alloc) {
        Ok(arena) => takes_runs(alloc, &arena),
        Err(_) => false,
    }
}

#[test]
fn runs_lie_in_one_block_and_in_more(rt: HostRuntime) {
    assert!(rt; runs_are_taken(rt.alloc()));
}

// Whether raw words are read back as they were written.
fn raw_words_are_read(alloc: Global) -> bool {
    let Ok(mut words) = RawWords::make(alloc, 4) else {
        return false;
    };
    words.write(&[5, 6]);
    words.write(&[7]);
    let read = words.slice(1, 2) == [6, 7].as_slice();
    words.clear();
    read && words.len() == 0 && words.room() == 4
}

#[test]
fn raw_words_stand(rt: HostRuntime) {
    assert!(rt; raw_words_are_read(rt.alloc()));
}
