//! Tests of lists that grow, shrink and are searched: their elements and their blocks.
use block_list::{BlockList, Position};
use std::alloc::{AllocError, Global};

mod rooms;
mod taken;

// Each function here owns its list and takes no `rt`, and each table is a constant: this keeps the proofs short.

// The numbers 0 to n - 1, each inserted at the front or at the end.
fn counted(alloc: Global, n: u32, falls: bool) -> Result<BlockList<u32>, AllocError> {
    let mut list = BlockList::new(alloc);
    for i in 0..n {
        let (place, item) = if falls {
            (0, n - 1 - i)
        } else {
            (list.len(), i)
        };
        list.insert(place, item)?;
    }
    Ok(list)
}

// How many blocks there are, and how many elements the first has.
type Shape = (usize, usize);

fn shape(list: &BlockList<u32>) -> Shape {
    let blocks = list.as_blocks();
    match blocks.first() {
        Some(block) => (blocks.len(), block.len()),
        None => (0, 0),
    }
}

// Whether the list is 0 to n - 1, in blocks of that shape.
fn counts_to(list: &BlockList<u32>, n: u32, wanted: Shape) -> bool {
    let mut next = 0;
    for item in list {
        if *item != next {
            return false;
        }
        next = next.wrapping_add(1);
    }
    next == n && shape(list) == wanted
}

fn grows(alloc: Global, n: u32, falls: bool, wanted: Shape) -> bool {
    match counted(alloc, n, falls) {
        Ok(list) => counts_to(&list, n, wanted),
        Err(_) => false,
    }
}

// How long a list is, whether it grew at its front, and the shape of its blocks.
const GROWN: &[(u32, bool, Shape)] = &[
    (0, true, (0, 0)),
    (127, true, (1, 127)),
    (128, true, (2, 64)),
    (129, true, (2, 65)),
    (192, true, (3, 64)),
    (1_024, true, (16, 64)),
    (127, false, (1, 127)),
    (128, false, (2, 127)),
    (254, false, (2, 127)),
    (255, false, (3, 127)),
    (2_000, false, (16, 127)),
];

#[test]
fn a_list_grows_in_blocks(rt: HostRuntime) {
    for (n, falls, wanted) in GROWN {
        assert!(rt; grows(rt.alloc(), *n, *falls, *wanted), "{n}, {falls}");
    }
}

// An edit of the numbers from one up to before another.
enum Edit {
    Remove(u32, u32),
    Retain(u32, u32),
    // Replaces the numbers by 1,000.
    Replace(u32, u32),
}

// Whether a list of 275 numbers could be edited.
fn edits(list: &mut BlockList<u32>, edit: &Edit) -> bool {
    match edit {
        Edit::Remove(from, to) if *from <= *to && *to as usize <= list.len() => {
            list.remove_range(*from as usize, *to as usize);
            true
        }
        Edit::Remove(..) => false,
        Edit::Retain(from, to) => {
            let (from, to) = (*from, *to);
            list.retain(|item| *item >= from && *item < to);
            true
        }
        Edit::Replace(from, to) => {
            let (from, to) = (*from, *to);
            let done = list.replace_between(|item| *item < from, |item| *item < to, 1_000);
            done.is_ok()
        }
    }
}

// Whether a list of 275 numbers has, after an edit, that length and shape, and that number at an index.
fn is_edited(
    list: &mut BlockList<u32>,
    edit: &Edit,
    len: usize,
    wanted: Shape,
    (place, item): (usize, u32),
) -> bool {
    edits(list, edit)
        && list.len() == len
        && shape(list) == wanted
        && (place >= list.len() || *list.get(place) == item)
}

fn grows_and_is_edited(alloc: Global, (edit, len, wanted, item): &Edited) -> bool {
    match counted(alloc, 275, false) {
        Ok(mut list) => is_edited(&mut list, edit, *len, *wanted, *item),
        Err(_) => false,
    }
}

type Edited = (Edit, usize, Shape, (usize, u32));

const EDITED: &[Edited] = &[
    (Edit::Remove(5, 5), 275, (3, 127), (5, 5)),
    (Edit::Remove(0, 1), 274, (3, 126), (0, 1)),
    (Edit::Remove(126, 128), 273, (3, 126), (126, 128)),
    (Edit::Remove(100, 260), 115, (2, 100), (100, 260)),
    (Edit::Remove(0, 127), 148, (2, 127), (0, 127)),
    (Edit::Remove(127, 254), 148, (2, 127), (127, 254)),
    (Edit::Remove(127, 275), 127, (1, 127), (126, 126)),
    (Edit::Remove(0, 273), 2, (1, 2), (0, 273)),
    (Edit::Remove(0, 275), 0, (0, 0), (0, 0)),
    (Edit::Retain(0, 275), 275, (3, 127), (274, 274)),
    (Edit::Retain(1, 274), 273, (3, 126), (0, 1)),
    (Edit::Retain(127, 254), 127, (1, 127), (0, 127)),
    (Edit::Retain(126, 255), 129, (3, 1), (0, 126)),
    (Edit::Retain(200, 210), 10, (1, 10), (9, 209)),
    (Edit::Retain(5, 5), 0, (0, 0), (0, 0)),
    (Edit::Replace(0, 0), 276, (4, 64), (0, 1_000)),
    (Edit::Replace(127, 127), 276, (4, 64), (127, 1_000)),
    (Edit::Replace(275, 275), 276, (3, 127), (275, 1_000)),
    (Edit::Replace(0, 1), 275, (3, 127), (0, 1_000)),
    (Edit::Replace(126, 128), 274, (3, 127), (126, 1_000)),
    (Edit::Replace(127, 128), 275, (3, 127), (127, 1_000)),
    (Edit::Replace(0, 275), 1, (1, 1), (0, 1_000)),
];

#[test]
fn a_list_is_edited_over_blocks(rt: HostRuntime) {
    for i in 0..EDITED.len() {
        assert!(rt; grows_and_is_edited(rt.alloc(), &EDITED[i]), "at {i}");
    }
}

// Whether a search in a list of 275 finds a number, or none beyond the last.
fn finds(list: &BlockList<u32>, wanted: u32) -> bool {
    let below = |item: &u32| *item < wanted;
    let (found, _) = list.find_failing_at(&below);
    let place = list.partition_point(&below);
    place == (wanted as usize).min(275)
        && found == list.find_failing(&below)
        && found.copied().unwrap_or(275) as usize == place
}

const WANTED: &[u32] = &[0, 1, 126, 127, 128, 253, 254, 274, 275, 277];

fn finds_each(list: &BlockList<u32>) -> bool {
    for wanted in WANTED {
        if !finds(list, *wanted) {
            return false;
        }
    }
    true
}

// A hint to the first number that isn't below the wanted one.
fn spot_of(list: &BlockList<u32>, wanted: u32) -> Position {
    list.find_failing_at(|item| *item < wanted).1
}

// Whether searches are right in a list of 2,000 numbers of which only the first 275 stay.
fn is_searched(list: &mut BlockList<u32>) -> bool {
    if list.len() != 2_000 {
        return false;
    }
    list.remove_range(275, 2_000);
    finds_each(list)
}

fn grows_and_is_searched(alloc: Global) -> bool {
    match counted(alloc, 2_000, false) {
        Ok(mut list) => is_searched(&mut list),
        Err(_) => false,
    }
}

#[test]
fn elements_are_found(rt: HostRuntime) {
    assert!(rt; grows_and_is_searched(rt.alloc()));
}
