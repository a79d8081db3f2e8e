//! The list in blocks: what contracts see of it, and its calls.
ghost use Rattle.std.specs.Prelude.{◌≡◌, ◌<◌, ◌≤◌, ◌==◌, Bool, true, false, not, List, [], ◌∷◌, ◌++◌, length, take, drop, filter};
ghost use Rattle.std.specs.Prelude.{slice_get, Some, IfOk, IfNone, IfSome, OnOk, OnErr};
ghost use Rattle.std.specs.Option.{option_copied};
ghost use Rattle.std.specs.List.{find, insert, list_any};
ghost use Rattle.std.specs.List.Sorted.{IsPartitionedBy, IsPartitionPoint};
ghost use Rattle.std.specs.Fn.{ComputesKey};
ghost use Rattle.block_list.specs.Blocks.{joined, IsKept, IsReplaced};
ghost use Rattle.block_list.specs.Taken.{IsTakenOut};

use crate::blocks::{element_at, insert_at, insert_in, remove_some, set_in};
use crate::kept::retain_in;
use crate::search::{element_behind, index_of, passes, spot_of};
use crate::spare::spare_blocks;
use crate::taken::{spot_passing, take_at};
use crate::{GrowingList, Iter, Position, Reservation};
use std::alloc::{AllocError, Global};
use std::marker::Model;

/// A list in blocks. Contracts see the blocks joined, as one list.
///
/// A walk over the lengths of the blocks finds an element's place. Only an insertion takes memory: it halves a block that has
/// grown long, if there is memory.
#[derive(Debug, Drop)]
pub struct BlockList<T> {
    pub(crate) blocks: Vec<Vec<T>>,
    pub(crate) len: usize,
}

impl<T> Model for BlockList<T> {
    ghost Value = { List T };

    ghost view = { λ l. joined l.blocks.items };

    ghost invariant = { λ l. IsKept l.blocks.items l.len };
}

impl<T> BlockList<T> {
    /// An empty list. Takes no memory.
    pub fn new(alloc: Global) -> BlockList<T>
        ensures { result ≡ [] }
    {
        BlockList {
            blocks: Vec::new(alloc),
            len: 0,
        }
    }

    /// How many elements the list has.
    pub fn len(&self) -> usize
        ensures { result ≡ length self.now }
    {
        self.len
    }

    /// Whether the list is empty.
    pub fn is_empty(&self) -> bool
        ensures { result ≡ (length self.now == 0) }
    {
        self.len == 0
    }

    /// The element at place `i`, from 0. To visit all elements, use `as_blocks`.
    #[tactic(auto, using(std::proofs::lemmas::Grind::common_steps, crate::proofs::Joined::at_read, crate::proofs::Joined::read_at))]
    pub fn get(&self, i: usize) -> &T
        requires { i < length self.now }
        ensures { slice_get self.now i ≡ Some result.now }
    {
        let (block, place) = element_at(&self.blocks, i);
        &self.blocks[block][place]
    }

    /// The elements, in order.
    pub fn iter(&self) -> Iter<'_, T>
        ensures { result ≡ self.now }
    {
        Iter {
            block: &[],
            blocks: &self.blocks,
            len: self.len,
        }
    }

    /// The blocks; joined, they are the list.
    pub fn as_blocks(&self) -> &[Vec<T>]
        ensures { joined result.now ≡ self.now }
    {
        self.blocks.as_slice()
    }

    /// How many elements pass the test. In the list, those that pass must stand before those that fail.
    pub fn partition_point<P: Fn(&T) -> bool>(&self, pred: P) -> usize
        requires { P.IsAlwaysCallable pred }
        ensures bound { result ≤ length self.now }
        ensures partitioned { (p : T → Bool) → ComputesKey P.FnMut p pred → IsPartitionedBy p self.now
            → IsPartitionPoint (λ y. p y ≡ true) (λ y. p y ≡ false) self.now result }
    {
        // Reading `len` tells the proof that the list has fewer than 2 ^ 64 elements.
        let _len = self.len;
        let (block, place) = spot_of(&self.blocks, pred);
        index_of(&self.blocks, block, place)
    }

    /// The first element that fails the test. In the list, those that pass must stand before those that fail. Counts no blocks.
    pub fn find_failing<P: Fn(&T) -> bool>(&self, pred: P) -> Option<&T>
        requires { P.IsAlwaysCallable pred }
        ensures { (p : T → Bool) → ComputesKey P.FnMut p pred → IsPartitionedBy p self.now
            → option_copied result ≡ find (λ y. not (p y)) self.now }
    {
        self.find_failing_at(pred).0
    }

    /// What `find_failing` returns, and a hint for `take_near`.
    pub fn find_failing_at<P: Fn(&T) -> bool>(&self, pred: P) -> (Option<&T>, Position)
        requires { P.IsAlwaysCallable pred }
        ensures { (p : T → Bool) → ComputesKey P.FnMut p pred → IsPartitionedBy p self.now
            → option_copied result.0 ≡ find (λ y. not (p y)) self.now }
    {
        let blocks = self.blocks.as_slice();
        let (block, place) = spot_of(blocks, pred);
        let found = element_behind(blocks, block, place);
        (found, Position { block, place })
    }
}

impl<T: Drop> BlockList<T> {
    /// Inserts an element before element `i`, or at the end.
    ///
    /// The only error is refused memory, also for a list of `usize::MAX` elements. It leaves the list as it was.
    pub fn insert(&mut self, i: usize, item: T) -> Result<(), AllocError>
        requires { i ≤ length self.old }
        ensures ok { OnOk result (self.new ≡ insert self.old i item) }
        ensures err { OnErr result (self.new ≡ self.old) }
    {
        if self.len == usize::MAX {
            return Err(AllocError);
        }
        insert_at(&mut self.blocks, i, item)?;
        self.len += 1;
        Ok(())
    }

    /// Puts an element in place of those that fail the first test and pass the second, or where they would stand.
    ///
    /// In the list, the elements that pass a test must stand before those that fail it, and what passes the first test
    /// must pass the second. Where at most one element is replaced, this seldom counts blocks. The only error is
    /// refused memory, also for a list of `usize::MAX` elements. It leaves the list as it was.
    pub fn replace_between<P: Fn(&T) -> bool, Q: Fn(&T) -> bool>(
        &mut self,
        before: P,
        through: Q,
        item: T,
    ) -> Result<(), AllocError>
        requires before { P.IsAlwaysCallable before }
        requires through { Q.IsAlwaysCallable through }
        ensures ok { OnOk result
            ((p q : T → Bool) → ComputesKey P.FnMut p before → ComputesKey Q.FnMut q through → IsPartitionedBy p self.old
            → IsPartitionedBy q self.old → ((y : T) → p y ≡ true → q y ≡ true) → IsReplaced p q self.old item self.new) }
        ensures err { OnErr result (self.new ≡ self.old) }
    {
        if self.blocks.is_empty() {
            return self.insert(0, item);
        }
        let blocks = self.blocks.as_slice();
        let (block, place) = spot_of(blocks, before);
        if !passes(element_behind(blocks, block, place), &through) {
            if self.len == usize::MAX {
                return Err(AllocError);
            }
            insert_in(&mut self.blocks, block, place, item)?;
            self.len += 1;
            return Ok(());
        }
        if place < blocks[block].len()
            && !passes(element_behind(blocks, block, place + 1), &through)
        {
            set_in(&mut self.blocks, block, place, item);
            return Ok(());
        }
        let from = index_of(blocks, block, place);
        let to = self.partition_point(through);
        self.replace_range(from, to, item);
        Ok(())
    }

    /// Removes an element that passes the test, if there is one, and returns a hint for the next search. Takes no
    /// memory. Any hint will do.
    ///
    /// A call does little work if it gets the last call's hint, and its element stands behind the one that call removed.
    #[tactic(auto, using(crate::proofs::Passing::taken_out))]
    pub fn take_near<P: Fn(&T) -> bool>(&mut self, near: Position, pred: P) -> (Option<T>, Position)
        requires { P.IsAlwaysCallable pred }
        ensures none { IfNone result.0 (self.new ≡ self.old) }
        ensures absent { IfNone result.0 ((p : T → Bool) → ComputesKey P.FnMut p pred → list_any p self.old ≡ false) }
        ensures taken { IfSome result.0
            (λ x. (p : T → Bool) → ComputesKey P.FnMut p pred → IsTakenOut p self.old x self.new) }
    {
        let Some((block, place)) = spot_passing(&self.blocks, near.block, pred) else {
            return (None, near);
        };
        let taken = take_at(&mut self.blocks, block, place);
        self.len -= 1;
        (Some(taken), Position { block, place: 0 })
    }

    /// Removes the elements from place `from` to before place `to`. Takes no memory.
    #[tactic(auto, using(std::proofs::lemmas::Grind::common_steps, crate::proofs::Joined::removed_more))]
    pub fn remove_range(&mut self, from: usize, to: usize)
        requires order { from ≤ to }
        requires in_range { to ≤ length self.old }
        ensures { self.new ≡ take from self.old ++ drop to self.old }
    {
        let mut left = to - from;
        while left > 0 {
            left -= remove_some(&mut self.blocks, from, left);
        }
        self.len -= to - from;
    }

    // Puts an element in place of those from place `from` to before place `to`; there must be at least one.
    fn replace_range(&mut self, from: usize, to: usize, item: T)
        requires in_range { to ≤ length self.old }
        ensures { from < to → self.new ≡ take from self.old ++ item ∷ drop to self.old }
    {
        if from < to {
            let (block, place) = element_at(&self.blocks, from);
            set_in(&mut self.blocks, block, place, item);
            self.remove_range(from + 1, to);
        }
    }

    /// Keeps the elements that pass the test, in their order. Takes no memory.
    pub fn retain<P: Fn(&T) -> bool>(&mut self, pred: P)
        requires { P.IsAlwaysCallable pred }
        ensures { (p : T → Bool) → ComputesKey P.FnMut p pred → self.new ≡ filter p self.old }
    {
        // Reading `len` tells the proof that the list has fewer than 2 ^ 64 elements.
        let _len = self.len;
        self.len -= retain_in(&mut self.blocks, pred);
    }

    /// Reserves room for `more` elements. After `open` has given the list this room, their insertion takes no memory.
    ///
    /// The list may lose elements before it is opened. The room is a block for all elements and, if there is memory,
    /// spare blocks for the new ones. With spare blocks an insertion moves elements only within their block, or to the
    /// next one. The work is proportional to `more`. The only error is refused memory.
    pub fn room(&mut self, more: usize) -> Result<Reservation<T>, AllocError>
        ensures kept { self.new ≡ self.old }
        ensures most { IfOk result (λ room. room.most ≡ length self.old) }
        ensures more { IfOk result (λ room. room.more ≡ more) }
    {
        let all = self.len.checked_add(more).ok_or(AllocError)?;
        let alloc = *self.blocks.allocator();
        let whole = Vec::with_capacity(alloc, all)?;
        let spare = spare_blocks(alloc, self.blocks.len(), more)?;
        let _refused = self.blocks.reserve(spare.len()).is_err();
        Ok(Reservation {
            spare,
            whole,
            most: self.len,
            more,
        })
    }

    /// The list with the room that was reserved for it. Takes no memory.
    pub fn open(self, room: Reservation<T>) -> GrowingList<T>
        requires { length self ≤ room.most }
        ensures items { result.items ≡ self }
        ensures more { result.more ≡ room.more }
    {
        GrowingList {
            blocks: self.blocks,
            spare: room.spare,
            whole: room.whole,
            len: self.len,
            more: room.more,
        }
    }
}
