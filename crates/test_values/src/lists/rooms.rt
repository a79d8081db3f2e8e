//! Tests of lists that grow in reserved capacity.
ghost use Rattle.std.specs.Prelude.{◌<◌, ◌≤◌, length};

use super::{Shape, shape};
use block_list::{BlockList, Reservation};
use std::alloc::{AllocError, Global};
use std::mem;

/// The first `n` multiples of 1,000, from 1,000 on, in blocks of 127.
fn thousands(alloc: Global, n: u32) -> Result<BlockList<u32>, AllocError> {
    let mut list = BlockList::new(alloc);
    for i in 0..n {
        let end = list.len();
        list.insert(end, i.saturating_add(1).saturating_mul(1_000))?;
    }
    Ok(list)
}

/// `n` numbers below `end`, in no order.
fn scattered(alloc: Global, n: u32, end: u32) -> Result<Vec<u32>, AllocError>
    requires { 0 < end }
{
    let mut numbers = Vec::new(alloc);
    for i in 0..n {
        numbers.push(i.wrapping_mul(7_919) % end)?;
    }
    Ok(numbers)
}

/// Inserts the numbers, each at its place in the order.
fn grow(alloc: Global, list: &mut BlockList<u32>, room: Reservation<u32>, numbers: &[u32])
    requires most { length list.old ≤ room.most }
    requires more { length numbers.now ≤ room.more }
{
    let given = mem::replace(list, BlockList::new(alloc));
    let mut roomy = given.open(room);
    for number in numbers {
        let number = *number;
        roomy.insert_behind(|item| *item < number, number);
    }
    *list = roomy.close();
}

fn is_in_order(list: &BlockList<u32>) -> bool {
    let mut last = 0;
    for item in list {
        if *item < last {
            return false;
        }
        last = *item;
    }
    true
}

/// Whether the list grows by the numbers in reserved capacity, and is in order afterwards.
fn grows_in_order(alloc: Global, list: &mut BlockList<u32>, numbers: &[u32]) -> bool {
    let len = list.len();
    match list.room(numbers.len()) {
        Ok(room) => {
            grow(alloc, list, room, numbers);
            is_in_order(list) && list.len().wrapping_sub(len) == numbers.len()
        }
        Err(_) => false,
    }
}

/// Whether `n` multiples of 1,000 grow by the numbers, and then have that shape, if one is given.
fn grow_to(alloc: Global, n: u32, numbers: &[u32], wanted: Option<Shape>) -> bool {
    match thousands(alloc, n) {
        Ok(mut list) => {
            grows_in_order(alloc, &mut list, numbers)
                && (wanted.is_none() || wanted == Some(shape(&list)))
        }
        Err(_) => false,
    }
}

/// How many multiples of 1,000 there are, what is inserted, and the shape of the list afterwards.
const GROWTHS: &[(u32, &[u32], Shape)] = &[
    (0, &[], (0, 0)),
    (0, &[5], (1, 1)),
    (0, &[5, 3, 9, 1], (1, 4)),
    (3, &[], (1, 3)),
    (3, &[500], (1, 4)),
    (3, &[1_500, 1_600, 1_400], (2, 4)),
    (3, &[9_000], (1, 4)),
    (127, &[999_000, 999_001, 999_002], (2, 128)),
    (254, &[5, 4, 3], (3, 128)),
];

#[test]
fn a_list_grows_in_its_room(rt: HostRuntime) {
    for (n, numbers, wanted) in GROWTHS {
        assert!(rt;
            grow_to(rt.alloc(), *n, numbers, Some(*wanted)),
            "{n}, {numbers:?}"
        );
    }
}

/// Whether two full blocks grow by a thousand numbers between theirs.
fn grow_by_a_thousand(alloc: Global) -> bool {
    match scattered(alloc, 1_000, 300_000) {
        Ok(numbers) => grow_to(alloc, 254, &numbers, None),
        Err(_) => false,
    }
}

const FORTY: [u32; 40] = [5; 40];

/// Whether 40 numbers before the first fill the free places, a spare block and a part of another block, where one more goes.
fn full_blocks_spill(alloc: Global) -> bool {
    match thousands(alloc, 254) {
        Ok(mut list) => {
            grows_in_order(alloc, &mut list, &FORTY)
                && shape(&list) == (4, 128)
                && grows_in_order(alloc, &mut list, &[5])
                && shape(&list) == (4, 128)
        }
        Err(_) => false,
    }
}

#[test]
fn full_blocks_grow(rt: HostRuntime) {
    assert!(rt; grow_by_a_thousand(rt.alloc()));
    assert!(rt; full_blocks_spill(rt.alloc()));
}

/// Whether a list grows in capacity that a longer one reserved.
fn grows_in_room_of(alloc: Global, longer: &mut BlockList<u32>, list: &mut BlockList<u32>) -> bool {
    if longer.len() < list.len() {
        return false;
    }
    match longer.room(3) {
        Ok(room) => {
            grow(alloc, list, room, &[1, 3, 2]);
            is_in_order(list)
        }
        Err(_) => false,
    }
}

fn grow_beside(alloc: Global, longer: &mut BlockList<u32>, n: u32, wanted: Shape) -> bool {
    match thousands(alloc, n) {
        Ok(mut list) => grows_in_room_of(alloc, longer, &mut list) && shape(&list) == wanted,
        Err(_) => false,
    }
}

/// Whether capacity reserved for a list of 600 serves shorter ones, even one that has no place for another block, and whether
/// endless capacity is refused.
fn room_serves(alloc: Global) -> bool {
    match thousands(alloc, 600) {
        Ok(mut longer) => {
            grow_beside(alloc, &mut longer, 254, (3, 128))
                && grow_beside(alloc, &mut longer, 508, (1, 511))
                && longer.room(usize::MAX).is_err()
                && shape(&longer) == (5, 127)
        }
        Err(_) => false,
    }
}

/// Four blocks have no place for a fifth, since none was reserved for it, so the list is gathered into one block.
#[test]
fn room_serves_a_shorter_list(rt: HostRuntime) {
    assert!(rt; room_serves(rt.alloc()));
}
