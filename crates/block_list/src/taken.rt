//! Removes one element from the blocks of a list. No block is empty.
ghost use Rattle.std.specs.Prelude.{◌≡◌, ◌+◌, ◌<◌, Bool, true, false, ◌++◌, length, take, drop, slice_get, Some, IfNone, IfSome};
ghost use Rattle.std.specs.List.{list_any};
ghost use Rattle.std.specs.Fn.{ComputesKey};
ghost use Rattle.block_list.specs.Blocks.{joined, AreFilled, start_of, IsAt, passes};

use crate::blocks::drop_if_empty;
use crate::search::passes;

/// The place of an element that passes the test, if there is one: its block, and its place in the block. Searches from block
/// `near` to the end, then the blocks before it.
#[tactic(auto, using(std::proofs::lemmas::Grind::common_steps, crate::proofs::Passing::none_in_turn, crate::proofs::Passing::found_in_list, crate::proofs::Passing::none_in_blocks))]
pub fn spot_passing<T, P: Fn(&T) -> bool>(
    blocks: &[Vec<T>],
    near: usize,
    pred: P,
) -> Option<(usize, usize)>
    requires { P.IsAlwaysCallable pred }
    ensures element { IfSome result (λ spot. IsAt blocks.now spot.0 spot.1 1) }
    ensures passes { IfSome result (λ spot. (p : T → Bool) → ComputesKey P.FnMut p pred
        → passes p (slice_get (joined blocks.now) (start_of blocks.now spot.0 + spot.1)) ≡ true) }
    ensures absent { IfNone result ((p : T → Bool) → ComputesKey P.FnMut p pred → list_any p (joined blocks.now) ≡ false) }
{
    let from = near.min(blocks.len());
    let behind = blocks.len() - from;
    for i in 0..blocks.len() {
        let block = if i < behind { from + i } else { i - behind };
        if let Some(place) = first_passing(&blocks[block], &pred) {
            return Some((block, place));
        }
    }
    None
}

// The place of the first element that passes the test.
fn first_passing<T, P: Fn(&T) -> bool>(items: &[T], pred: &P) -> Option<usize>
    requires { P.IsAlwaysCallable pred.now }
    ensures bound { IfSome result (λ place. place < length items.now) }
    ensures passes { IfSome result (λ place. (p : T → Bool) → ComputesKey P.FnMut p pred.now
        → passes p (slice_get items.now place) ≡ true) }
    ensures absent { IfNone result ((p : T → Bool) → ComputesKey P.FnMut p pred.now → list_any p items.now ≡ false) }
{
    for place in 0..items.len() {
        if passes(Some(&items[place]), pred) {
            return Some(place);
        }
    }
    None
}

/// Removes an element of a block, and the block with it if no other element is left there.
#[tactic(auto, using(crate::proofs::Joined::read_at, crate::proofs::Joined::joined_drop))]
pub fn take_at<T: Drop>(blocks: &mut Vec<Vec<T>>, block: usize, place: usize) -> T
    requires filled { AreFilled blocks.old.items }
    requires element { IsAt blocks.old.items block place 1 }
    ensures item { slice_get (joined blocks.old.items) (start_of blocks.old.items block + place) ≡ Some result }
    ensures rest { joined blocks.new.items ≡ take (start_of blocks.old.items block + place) (joined blocks.old.items)
        ++ drop (start_of blocks.old.items block + place + 1) (joined blocks.old.items) }
    ensures filled { AreFilled blocks.new.items }
{
    let item = blocks[block].remove(place);
    drop_if_empty(blocks, block);
    item
}
