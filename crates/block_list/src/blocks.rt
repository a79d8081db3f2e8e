//! Operations on the blocks of a list. No block is empty.
ghost use Rattle.std.specs.Prelude.{◌≡◌, ℕ, ◌+◌, ◌<◌, ◌≤◌, ◌++◌, length, take, drop, slice_set, slice_index_or, Vec, OnOk, OnErr};
ghost use Rattle.std.specs.declared.alloc.Global.{Global};
ghost use Rattle.std.specs.List.{insert};
ghost use Rattle.block_list.specs.Blocks.{joined, AreFilled, start_of, IsAt};

use crate::placed::place_within;
use std::alloc::AllocError;

// A block of this length is cut in two after an insertion. An insertion moves the later elements of its block, and a cut moves
// the later blocks, so blocks are neither long nor many.
const LONG: usize = 128;

/// The place of element `i`: its block, and its place in the block.
pub fn element_at<T>(blocks: &[Vec<T>], i: usize) -> (usize, usize)
    requires { i < length (joined blocks.now) }
    ensures place { IsAt blocks.now result.0 result.1 1 }
    ensures start { start_of blocks.now result.0 + result.1 ≡ i }
{
    let mut block = 0;
    let mut place = i;
    while blocks[block].len() <= place {
        place -= blocks[block].len();
        block += 1;
    }
    (block, place)
}

// Cuts a block in two if it is long and memory allows it. The list stays the same.
//
// The cut is in the middle; but a list that grows at its end gets full blocks.
#[tactic(auto, using(std::proofs::lemmas::Grind::common_steps, crate::proofs::Joined::joined_cut, crate::proofs::Joined::filled_cut))]
fn cut_long<T: Drop>(blocks: &mut Vec<Vec<T>>, block: usize, inserted: usize)
    requires filled { AreFilled blocks.old.items }
    requires in_range { block < length blocks.old.items }
    ensures same { joined blocks.new.items ≡ joined blocks.old.items }
    ensures filled { AreFilled blocks.new.items }
{
    let len = blocks[block].len();
    if len < LONG || blocks.reserve(1).is_err() {
        return;
    }
    let at_end = block == blocks.len() - 1 && inserted == len - 1;
    let front = if at_end { len - 1 } else { len / 2 };
    let Ok(back) = blocks[block].split_off(front) else {
        return;
    };
    place_within(blocks, block + 1, back);
}

/// Inserts an element before element `i`, or at the end. An error leaves the list as it was.
pub fn insert_at<T: Drop>(blocks: &mut Vec<Vec<T>>, i: usize, item: T) -> Result<(), AllocError>
    requires filled { AreFilled blocks.old.items }
    requires in_range { i ≤ length (joined blocks.old.items) }
    ensures ok { OnOk result (joined blocks.new.items ≡ insert (joined blocks.old.items) i item) }
    ensures err { OnErr result (joined blocks.new.items ≡ joined blocks.old.items) }
    ensures filled { AreFilled blocks.new.items }
{
    if blocks.is_empty() {
        let mut block = Vec::new(*blocks.allocator());
        block.push(item)?;
        blocks.push(block)?;
        return Ok(());
    }
    if i == 0 {
        return insert_in(blocks, 0, 0, item);
    }
    let (block, place) = element_at(blocks, i - 1);
    insert_in(blocks, block, place + 1, item)
}

/// Inserts an element before a place in a block, or at the block's end. An error leaves the list as it was.
#[tactic(auto, using(crate::proofs::Joined::joined_same, crate::proofs::Joined::joined_insert))]
pub fn insert_in<T: Drop>(
    blocks: &mut Vec<Vec<T>>,
    block: usize,
    place: usize,
    item: T,
) -> Result<(), AllocError>
    requires filled { AreFilled blocks.old.items }
    requires place { IsAt blocks.old.items block place 0 }
    ensures ok { OnOk result (joined blocks.new.items ≡ insert (joined blocks.old.items) (start_of blocks.old.items block + place) item) }
    ensures err { OnErr result (joined blocks.new.items ≡ joined blocks.old.items) }
    ensures filled { AreFilled blocks.new.items }
{
    blocks[block].insert(place, item)?;
    cut_long(blocks, block, place);
    Ok(())
}

/// Puts an element in place of one in a block.
#[tactic(auto, using(crate::proofs::Joined::joined_write))]
pub fn set_in<T: Drop>(blocks: &mut Vec<Vec<T>>, block: usize, place: usize, item: T)
    requires filled { AreFilled blocks.old.items }
    requires element { IsAt blocks.old.items block place 1 }
    ensures set { joined blocks.new.items ≡ slice_set (joined blocks.old.items) (start_of blocks.old.items block + place) item }
    ensures filled { AreFilled blocks.new.items }
{
    blocks[block][place] = item;
}

/// Removes a block if it is empty. The other blocks aren't empty.
#[tactic(auto, using(std::proofs::lemmas::Grind::common_steps, crate::proofs::Joined::joined_remove))]
pub fn drop_if_empty<T: Drop>(blocks: &mut Vec<Vec<T>>, block: usize)
    requires in_range { block < length blocks.old.items }
    requires others { (b : ℕ) (d : Vec T Global) → b < length blocks.old.items → (b ≡ block → ⊥) → 0 < length (slice_index_or blocks.old.items b d).items }
    ensures same { joined blocks.new.items ≡ joined blocks.old.items }
    ensures filled { AreFilled blocks.new.items }
{
    if blocks[block].is_empty() {
        blocks.remove(block);
    }
}

// Removes the elements of a block from place `from` to before place `to`.
fn remove_part<T: Drop>(block: &mut Vec<T>, from: usize, to: usize)
    requires order { from ≤ to }
    requires in_range { to ≤ length block.old.items }
    ensures { block.new.items ≡ take from block.old.items ++ drop to block.old.items }
{
    block.drain(from..to);
}

/// Removes at most `count` elements from element `i` on: those in its block. Returns how many.
#[tactic(auto, using(std::proofs::lemmas::Grind::common_steps, crate::proofs::Joined::joined_drop))]
pub fn remove_some<T: Drop>(blocks: &mut Vec<Vec<T>>, i: usize, count: usize) -> usize
    requires filled { AreFilled blocks.old.items }
    requires some { 0 < count }
    requires in_range { i + count ≤ length (joined blocks.old.items) }
    ensures some { 0 < result }
    ensures bound { result ≤ count }
    ensures rest { joined blocks.new.items ≡ take i (joined blocks.old.items) ++ drop (i + result) (joined blocks.old.items) }
    ensures filled { AreFilled blocks.new.items }
{
    let (block, place) = element_at(blocks, i);
    let gone = count.min(blocks[block].len() - place);
    remove_part(&mut blocks[block], place, place + gone);
    drop_if_empty(blocks, block);
    gone
}
