//! Binary search over the blocks of a list.
ghost use Rattle.std.specs.Prelude.{◌≡◌, ◌+◌, ◌^◌, ◌<◌, ◌≤◌, Bool, true, false, length, slice_get};
ghost use Rattle.std.specs.Option.{option_copied};
ghost use Rattle.std.specs.List.Sorted.{IsPartitionedBy, IsPartitionPoint};
ghost use Rattle.std.specs.Fn.{ComputesKey};
ghost use Rattle.block_list.specs.Blocks.{joined, AreFilled, start_of, IsAt, passes};

/// Whether there is an element that passes the test.
pub fn passes<T, P: Fn(&T) -> bool>(found: Option<&T>, pred: &P) -> bool
    requires { P.IsAlwaysCallable pred.now }
    ensures { (p : T → Bool) → ComputesKey P.FnMut p pred.now → result ≡ passes p (option_copied found.entry) }
{
    match found {
        Some(item) => pred(item),
        None => false,
    }
}

/// The place of the first element that fails the test: a block, and a place in it or behind its last. In the list, those that
/// pass must stand before those that fail. Counts no blocks.
#[tactic(auto, using(crate::proofs::Joined::start_more))]
pub fn spot_of<T, P: Fn(&T) -> bool>(blocks: &[Vec<T>], pred: P) -> (usize, usize)
    requires callable { P.IsAlwaysCallable pred }
    requires filled { AreFilled blocks.now }
    ensures place { 0 < length blocks.now → IsAt blocks.now result.0 result.1 0 }
    ensures in_range { result.0 ≤ length blocks.now }
    ensures bound { start_of blocks.now result.0 + result.1 ≤ length (joined blocks.now) }
    ensures partitioned { (p : T → Bool) → ComputesKey P.FnMut p pred → IsPartitionedBy p (joined blocks.now)
        → IsPartitionPoint (λ y. p y ≡ true) (λ y. p y ≡ false) (joined blocks.now)
        (start_of blocks.now result.0 + result.1) }
{
    let turn = blocks.partition_point(
        |block|
            requires { P.IsAlwaysCallable pred }
        { passes(block.first(), &pred) },
    );
    if turn == 0 {
        return (0, 0);
    }
    (turn - 1, blocks[turn - 1].partition_point(pred))
}

/// The place in the list that a place in a block has.
#[tactic(auto, using(crate::proofs::Joined::start_more))]
pub fn index_of<T>(blocks: &[Vec<T>], block: usize, place: usize) -> usize
    requires in_range { block ≤ length blocks.now }
    requires bound { start_of blocks.now block + place ≤ length (joined blocks.now) }
    requires fits { length (joined blocks.now) < 2 ^ 64 }
    ensures { result ≡ start_of blocks.now block + place }
{
    let mut count = 0;
    for i in 0..block {
        count += blocks[i].len();
    }
    count + place
}

/// The element at a place in a block, or, behind its last, the first element of the next block.
#[tactic(auto, using(std::proofs::lemmas::Grind::common_steps, crate::proofs::Joined::read_at, crate::proofs::Joined::read_behind, crate::proofs::Joined::read_past))]
pub fn element_behind<T>(blocks: &[Vec<T>], block: usize, place: usize) -> Option<&T>
    requires filled { AreFilled blocks.now }
    requires place { 0 < length blocks.now → IsAt blocks.now block place 0 }
    ensures { option_copied result ≡ slice_get (joined blocks.now) (start_of blocks.now block + place) }
{
    if let Some(here) = blocks.get(block)?.get(place) {
        return Some(here);
    }
    blocks.get(block + 1)?.first()
}
