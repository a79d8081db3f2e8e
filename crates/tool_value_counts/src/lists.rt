//! Calls on a list of blocks.
ghost use Rattle.std.specs.Prelude.{◌≤◌, length};

use block_list::{BlockList, Position, Reservation};
use std::alloc::Global;

// The numbers 0 to n - 1.
fn list_of(alloc: Global, n: u32) -> Option<BlockList<u32>> {
    let mut list = BlockList::new(alloc);
    for i in 0..n {
        let end = list.len();
        list.insert(end, i).ok()?;
    }
    Some(list)
}

/// The calls on a list by their groups: the readers; `remove_range`, `retain` and `take_near`, which take the first number and
/// one from the middle away in each round; and `insert`, which takes memory where a block has grown long and is halved.
pub fn answer(alloc: Global, group: &str, times: u32) -> Option<bool> {
    match list_of(alloc, 2_500) {
        Some(mut list) => Some(answer_of(alloc, &mut list, group, times)),
        None => None,
    }
}

fn answer_of(alloc: Global, list: &mut BlockList<u32>, group: &str, times: u32) -> bool {
    for n in 0..times {
        let right = match group {
            "list" => reads(alloc, list),
            "list_removing" => removes(list, n),
            _ => cuts(list, n),
        };
        if !right {
            return false;
        }
    }
    true
}

fn reads(alloc: Global, list: &BlockList<u32>) -> bool {
    let is_there = BlockList::<u32>::new(alloc).is_empty() && !list.as_blocks().is_empty();
    is_there && has_all(list) && finds(list)
}

fn has_all(list: &BlockList<u32>) -> bool {
    list.len() == 2_500 && *list.get(700) == 700 && list.iter().all(|x| *x < 2_500)
}

fn finds(list: &BlockList<u32>) -> bool {
    list.find_failing_at(is_small).0 == Some(&1_000)
        && list.find_failing(is_small) == Some(&1_000)
        && list.partition_point(is_small) == 1_000
}

fn is_small(x: &u32) -> bool {
    *x < 1_000
}

fn removes(list: &mut BlockList<u32>, n: u32) -> bool {
    if list.is_empty() {
        return false;
    }
    list.remove_range(0, 1);
    list.retain(|x| *x != 1_000);
    let middle = n.saturating_add(1_200);
    let (taken, _spot) = list.take_near(Position::start(), |x| *x == middle);
    taken == Some(middle)
}

fn cuts(list: &mut BlockList<u32>, n: u32) -> bool {
    let middle = list.len() / 2;
    list.insert(middle, n).is_ok()
}

/// `insert_behind`, which in each round puts a number into the capacity that was reserved for a thousand; and `open` and
/// `close`, once if any calls are asked for.
pub fn answer_growing(alloc: Global, times: u32) -> Option<bool> {
    if times > 1_000 {
        return None;
    }
    match list_of(alloc, 1_500) {
        Some(mut list) => match list.room(1_000) {
            Ok(room) if times > 0 => Some(answer_of_growth(list, room, times)),
            Ok(_) => Some(true),
            Err(_) => None,
        },
        None => None,
    }
}

fn answer_of_growth(list: BlockList<u32>, room: Reservation<u32>, times: u32) -> bool
    requires most { length list ≤ room.most }
    requires more { times ≤ room.more }
{
    let mut roomy = list.open(room);
    for n in 0..times {
        roomy.insert_behind(|x| *x < n, n);
    }
    !roomy.close().is_empty()
}
