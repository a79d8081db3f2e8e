//! Tests of single elements that are taken out of a list, from a hint on.
use super::{counted, spot_of};
use block_list::{BlockList, Position};
use std::alloc::Global;

/// Takes out a number that isn't below `least`, searching from the hint on.
fn takes(list: &mut BlockList<u32>, near: Position, least: u32) -> (Option<u32>, Position) {
    list.take_near(near, |item| *item >= least)
}

/// Takes the numbers from `from` up to before `to` out in order, each with the hint that the last one gave.
fn takes_in_order(list: &mut BlockList<u32>, from: u32, to: u32) -> bool {
    let mut near = Position::start();
    for wanted in from..to {
        let (taken, further) = takes(list, near, wanted);
        if taken != Some(wanted) {
            return false;
        }
        near = further;
    }
    true
}

/// Takes all numbers below `end` out, the greatest first, each with the hint that the last one gave.
fn takes_in_falling_order(list: &mut BlockList<u32>, end: u32) -> bool {
    let mut near = Position::start();
    for wanted in (0..end).rev() {
        let (taken, further) = takes(list, near, wanted);
        if taken != Some(wanted) {
            return false;
        }
        near = further;
    }
    true
}

/// Whether the list has that many numbers in that many blocks.
fn has(list: &BlockList<u32>, len: usize, blocks: usize) -> bool {
    list.len() == len && list.as_blocks().len() == blocks
}

/// Whether some of 1,000 numbers can be taken out, also from hints behind and beyond them, where a block goes away, and where
/// no number that passes is left.
fn loses_some(list: &mut BlockList<u32>) -> bool {
    let (behind, beyond) = (spot_of(list, 255), spot_of(list, 1_000));
    takes_in_order(list, 100, 300)
        && has(list, 800, 7)
        && takes(list, behind, 0).0 == Some(381)
        && takes(list, beyond, 700).0 == Some(700)
        && takes(list, behind, 1_000).0.is_none()
        && takes(list, Position::start(), 98).0 == Some(98)
        && takes(list, Position::start(), 98).0 == Some(99)
        && takes(list, Position::start(), 98).0 == Some(300)
        && has(list, 795, 7)
}

fn some_are_lost(alloc: Global) -> bool {
    match counted(alloc, 1_000, false) {
        Ok(mut list) => loses_some(&mut list),
        Err(_) => false,
    }
}

/// Whether all of 1,000 numbers can be taken out, in order or the last first, of a list that grew at its front or its end.
fn is_emptied(alloc: Global, falls: bool, in_order: bool) -> bool {
    match counted(alloc, 1_000, falls) {
        Ok(mut list) => {
            let all = if in_order {
                takes_in_order(&mut list, 0, 1_000)
            } else {
                takes_in_falling_order(&mut list, 1_000)
            };
            all && has(&list, 0, 0) && takes(&mut list, Position::start(), 0).0.is_none()
        }
        Err(_) => false,
    }
}

#[test]
fn elements_are_taken_in_any_order(rt: HostRuntime) {
    assert!(rt; some_are_lost(rt.alloc()));
    assert!(rt; is_emptied(rt.alloc(), false, true));
    assert!(rt; is_emptied(rt.alloc(), true, true));
    assert!(rt; is_emptied(rt.alloc(), false, false));
}
