//! Insertions that take no memory.
ghost use Rattle.std.specs.Prelude.{◌≡◌, ◌+◌, ◌<◌, ◌≤◌, [], ◌∷◌, ◌++◌, length, vec_len, vec_capacity};
ghost use Rattle.std.specs.List.{insert, All};
ghost use Rattle.block_list.specs.Blocks.{joined, AreFilled, start_of, IsAt};
ghost use Rattle.block_list.specs.Spares.{IsSpare};

/// Inserts an element into a block that isn't full.
pub fn place_within<T: Drop>(block: &mut Vec<T>, place: usize, item: T)
    requires place { place ≤ length block.old.items }
    requires room { vec_len block.old < vec_capacity block.old }
    ensures items { block.new.items ≡ insert block.old.items place item }
    ensures capacity { vec_capacity block.old ≤ vec_capacity block.new }
{
    let Ok(()) = block.insert(place, item) else {
        unreachable!()
    };
}

// Inserts an element into a full block, and returns the block's last element, which gives way.
fn push_out<T: Drop>(block: &mut Vec<T>, place: usize, item: T) -> T
    requires { place ≤ length block.old.items }
    ensures items { block.new.items ++ result ∷ [] ≡ insert block.old.items place item }
    ensures len { length block.new.items ≡ length block.old.items }
{
    if place == block.len() {
        return item;
    }
    let Some(last) = block.pop() else {
        unreachable!()
    };
    place_within(block, place, item);
    last
}

/// Inserts an element before those of a block, or behind all blocks: into that block, or into a spare block before it.
#[tactic(auto, using(crate::proofs::Joined::joined_first, crate::proofs::Joined::joined_open, crate::proofs::Joined::filled_insert))]
pub fn place_first<T: Drop>(
    blocks: &mut Vec<Vec<T>>,
    spare: &mut Vec<Vec<T>>,
    block: usize,
    item: T,
)
    requires in_range { block ≤ length blocks.old.items }
    requires filled { AreFilled blocks.old.items }
    requires places { vec_len blocks.old < vec_capacity blocks.old }
    requires some { 0 < length spare.old.items }
    requires spares { All IsSpare spare.old.items }
    ensures list { joined blocks.new.items ≡ insert (joined blocks.old.items) (start_of blocks.old.items block) item }
    ensures filled { AreFilled blocks.new.items }
    ensures spares { All IsSpare spare.new.items }
    ensures capacity { vec_capacity spare.new ≡ vec_capacity spare.old }
{
    if block < blocks.len() && blocks[block].len() < blocks[block].capacity() {
        place_within(&mut blocks[block], 0, item);
        return;
    }
    let Some(mut opened) = spare.pop() else {
        unreachable!()
    };
    opened.push_reserved(item);
    place_within(blocks, block, opened);
}

/// Inserts an element before a place in a block, or at the block's end. The last element of a full block gives way.
#[tactic(auto, using(crate::proofs::Joined::joined_insert, crate::proofs::Joined::joined_push_out))]
pub fn place_in<T: Drop>(
    blocks: &mut Vec<Vec<T>>,
    spare: &mut Vec<Vec<T>>,
    block: usize,
    place: usize,
    item: T,
)
    requires place { IsAt blocks.old.items block place 0 }
    requires filled { AreFilled blocks.old.items }
    requires places { vec_len blocks.old < vec_capacity blocks.old }
    requires some { 0 < length spare.old.items }
    requires spares { All IsSpare spare.old.items }
    ensures list { joined blocks.new.items ≡ insert (joined blocks.old.items) (start_of blocks.old.items block + place) item }
    ensures filled { AreFilled blocks.new.items }
    ensures spares { All IsSpare spare.new.items }
    ensures capacity { vec_capacity spare.new ≡ vec_capacity spare.old }
{
    if blocks[block].len() < blocks[block].capacity() {
        place_within(&mut blocks[block], place, item);
        return;
    }
    let last = push_out(&mut blocks[block], place, item);
    place_first(blocks, spare, block + 1, last);
}
