//! Iteration over a list in blocks.
ghost use Rattle.std.specs.Prelude.{◌≡◌, ◌++◌, List, [], length, Some, IfSome};
ghost use Rattle.std.specs.Iterator.{YieldsFirstRef, UpTo, item_count};
ghost use Rattle.std.specs.Iterator.SizeHint.{IsWithinCount};
ghost use Rattle.block_list.specs.Blocks.{joined, AreFilled};

use crate::BlockList;
use std::iter::FusedIterator;
use std::marker::Model;

/// The elements that an iteration hasn't visited. Contracts see the list of them.
#[derive(Drop)]
pub struct Iter<'a, T> {
    // The rest of a block, and the blocks behind it.
    pub(crate) block: &'a [T],
    pub(crate) blocks: &'a [Vec<T>],
    pub(crate) len: usize,
}

impl<'a, T> Model for Iter<'a, T> {
    ghost Value = { List T };

    ghost view = { λ it. it.block.now ++ joined it.blocks.now };

    ghost invariant = { λ it. AreFilled it.blocks.now × (it.len ≡ length (it.block.now ++ joined it.blocks.now)) };
}

impl<'a, T> Iterator for Iter<'a, T> {
    type Item = &'a T;

    ghost next_gives = { YieldsFirstRef (λ left. left) };

    ghost remaining = { item_count (λ left. left) };

    fn next(&mut self) -> Option<&'a T> {
        let (block, blocks) = opened(self.block, self.blocks);
        let (item, block) = block.split_first()?;
        self.block = block;
        self.blocks = blocks;
        self.len -= 1;
        Some(item)
    }

    fn size_hint(&self) -> (usize, Option<usize>)
        ensures lower { IsWithinCount result.0 (item_count (λ left. left) self.now) }
        ensures upper { IfSome result.1 (UpTo (item_count (λ left. left) self.now)) }
        ensures exact { result ≡ (length self.now, Some (length self.now)) }
    {
        (self.len, Some(self.len))
    }
}

// The same elements; if there are any, the first one is in the part of a block.
fn opened<'a, T>(block: &'a [T], blocks: &'a [Vec<T>]) -> (&'a [T], &'a [Vec<T>])
    requires { AreFilled blocks.now }
    ensures elements { result.0.now ++ joined result.1.now ≡ block.now ++ joined blocks.now }
    ensures filled { AreFilled result.1.now }
    ensures none { result.0.now ≡ [] → joined result.1.now ≡ [] }
{
    if !block.is_empty() {
        return (block, blocks);
    }
    match blocks.split_first() {
        Some((first, others)) => (first.as_slice(), others),
        None => (block, blocks),
    }
}

impl<'a, T> ExactSizeIterator for Iter<'a, T> {
    fn len(&self) -> usize {
        self.len
    }
}

impl<'a, T> FusedIterator for Iter<'a, T> {}

impl<'a, T> IntoIterator for &'a BlockList<T> {
    type Item = &'a T;

    type IntoIter = Iter<'a, T>;

    ghost into_iter_gives = { λ list items. items ≡ list.now };

    fn into_iter(self) -> Iter<'a, T> {
        self.iter()
    }
}
