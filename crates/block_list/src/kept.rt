//! Keeps the elements of blocks that pass a test.
ghost use Rattle.std.specs.Prelude.{◌≡◌, ◌+◌, ◌^◌, ◌<◌, Bool, length, filter};
ghost use Rattle.std.specs.Fn.{ComputesKey};
ghost use Rattle.block_list.specs.Blocks.{joined, AreFilled};

// Keeps the elements of a block that pass the test. Returns how many it removes.
fn retain_block<T: Drop, P: Fn(&T) -> bool>(block: &mut Vec<T>, pred: &P) -> usize
    requires { P.IsAlwaysCallable pred.now }
    ensures items { (p : T → Bool) → ComputesKey P.FnMut p pred.now → block.new.items ≡ filter p block.old.items }
    ensures count { result + length block.new.items ≡ length block.old.items }
{
    let len = block.len();
    block.retain(pred);
    len - block.len()
}

// Removes the empty blocks. The list stays the same.
fn drop_empty<T: Drop>(blocks: &mut Vec<Vec<T>>)
    ensures same { joined blocks.new.items ≡ joined blocks.old.items }
    ensures filled { AreFilled blocks.new.items }
{
    blocks.retain(|block| !block.is_empty());
}

/// Keeps the elements that pass the test. Returns how many it removes.
#[tactic(auto, using(std::proofs::lemmas::Grind::common_steps, crate::proofs::Filtered::filter_set, crate::proofs::Filtered::passing_more, crate::proofs::Filtered::length_set_block, crate::proofs::Joined::start_more))]
pub fn retain_in<T: Drop, P: Fn(&T) -> bool>(blocks: &mut Vec<Vec<T>>, pred: P) -> usize
    requires callable { P.IsAlwaysCallable pred }
    requires fits { length (joined blocks.old.items) < 2 ^ 64 }
    ensures items { (p : T → Bool) → ComputesKey P.FnMut p pred → joined blocks.new.items ≡ filter p (joined blocks.old.items) }
    ensures count { result + length (joined blocks.new.items) ≡ length (joined blocks.old.items) }
    ensures filled { AreFilled blocks.new.items }
{
    let mut gone = 0;
    for i in 0..blocks.len() {
        gone += retain_block(&mut blocks[i], &pred);
    }
    drop_empty(blocks);
    gone
}
