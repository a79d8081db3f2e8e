//! Spare blocks, which are made before the elements come.
ghost use Rattle.std.specs.Prelude.{◌≡◌, ◌+◌, ◌<◌, ◌≤◌, ◌++◌, [], length, vec_capacity, IfOk};
ghost use Rattle.std.specs.List.{All};
ghost use Rattle.block_list.specs.Blocks.{joined};
ghost use Rattle.block_list.specs.Spares.{IsSpare};

use std::alloc::{AllocError, Global};
use std::mem::replace;

// How many elements a spare block has room for. Many blocks are opened for few elements, so a spare block is short.
const SPARE_LEN: usize = 32;

/// Empty blocks that suffice for `more` elements that come to a list of so many blocks, or as many as memory allows, and a
/// place for at least one. The only error is refused memory.
///
/// A full block opens a spare block behind it, and another one when that is full too. That makes one for each block that an
/// element may come to, and at most two for each spare block that fills up.
pub fn spare_blocks<T: Drop>(
    alloc: Global,
    blocks: usize,
    more: usize,
) -> Result<Vec<Vec<T>>, AllocError>
    ensures spares { IfOk result (λ spare. All IsSpare spare.items) }
    ensures place { IfOk result (λ spare. 0 < vec_capacity spare) }
{
    let count = (more / (SPARE_LEN / 2) + 1).saturating_add(blocks.min(more));
    let Ok(mut spare) = Vec::with_capacity(alloc, count) else {
        return Vec::with_capacity(alloc, 1);
    };
    for i in 0..count {
        let Ok(block) = Vec::with_capacity(alloc, SPARE_LEN) else {
            return Ok(spare);
        };
        spare.push_reserved(block);
    }
    Ok(spare)
}

/// Moves the elements of all blocks into one block with room for them, behind the elements that it has.
pub fn gather<T: Drop>(blocks: &mut Vec<Vec<T>>, whole: &mut Vec<T>)
    requires { length whole.old.items + length (joined blocks.old.items) ≤ vec_capacity whole.old }
    ensures none { blocks.new.items ≡ [] }
    ensures items { whole.new.items ≡ whole.old.items ++ joined blocks.old.items }
    ensures capacity { vec_capacity whole.old ≤ vec_capacity whole.new }
{
    let none = Vec::new(*blocks.allocator());
    for mut block in replace(blocks, none) {
        let Ok(()) = whole.append(&mut block) else {
            unreachable!()
        };
    }
}
