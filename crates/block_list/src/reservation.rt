//! Memory that is reserved before a list grows, and a list that grows in it.
ghost use Rattle.std.specs.Prelude.{◌≡◌, ◌+◌, ◌<◌, Bool, [], ◌++◌};
ghost use Rattle.std.specs.List.Sorted.{IsPartitionedBy};
ghost use Rattle.std.specs.Fn.{ComputesKey};
ghost use Rattle.block_list.specs.Blocks.{joined, IsReplaced};
ghost use Rattle.block_list.specs.Reservation.{Reserved, Growing};
ghost use Rattle.block_list.specs.Spares.{HasRoom, IsGrowingList};

use crate::BlockList;
use crate::placed::{place_first, place_in, place_within};
use crate::search::spot_of;
use crate::spare::gather;
use std::marker::Model;

/// Memory that is reserved before a list grows, so that growing takes none.
///
/// Contracts see two numbers: `most`, how many elements the list may have when it is opened, and `more`, how many may come.
#[derive(Debug, Drop)]
pub struct Reservation<T> {
    // Blocks to be put between others, and an empty block with room for all elements.
    pub(crate) spare: Vec<Vec<T>>,
    pub(crate) whole: Vec<T>,
    pub(crate) most: usize,
    pub(crate) more: usize,
}

impl<T> Model for Reservation<T> {
    ghost Value = { Reserved };

    ghost view = { λ r. record { most = r.most; more = r.more } };

    ghost invariant = { λ r. (r.whole.items ≡ []) × HasRoom r.spare r.whole (r.most + r.more) };
}

/// A list with room for new elements. Contracts see its elements, and how many more there is room for.
#[derive(Debug, Drop)]
pub struct GrowingList<T> {
    // The elements are in blocks; after the spare blocks ran out, all are in the block with room for them.
    pub(crate) blocks: Vec<Vec<T>>,
    pub(crate) spare: Vec<Vec<T>>,
    pub(crate) whole: Vec<T>,
    pub(crate) len: usize,
    pub(crate) more: usize,
}

impl<T> Model for GrowingList<T> {
    ghost Value = { Growing T };

    ghost view = { λ r. record { items = r.whole.items ++ joined r.blocks.items; more = r.more } };

    ghost invariant = { λ r. IsGrowingList r.blocks.items r.spare r.whole r.len r.more };
}

impl<T: Drop> GrowingList<T> {
    /// Inserts an element behind those that pass the test. In the list, those that pass must stand before those that
    /// fail. Takes no memory.
    pub fn insert_behind<P: Fn(&T) -> bool>(&mut self, before: P, item: T)
        requires before { P.IsAlwaysCallable before }
        requires room { 0 < self.old.more }
        ensures list { (p : T → Bool) → ComputesKey P.FnMut p before → IsPartitionedBy p self.old.items
            → IsReplaced p p self.old.items item self.new.items }
        ensures room { self.new.more + 1 ≡ self.old.more }
    {
        self.len += 1;
        self.more -= 1;
        let has_place = self.blocks.len() < self.blocks.capacity();
        if has_place && self.whole.is_empty() && !self.spare.is_empty() {
            if self.blocks.is_empty() {
                place_first(&mut self.blocks, &mut self.spare, 0, item);
                return;
            }
            let (block, place) = spot_of(&self.blocks, before);
            place_in(&mut self.blocks, &mut self.spare, block, place, item);
            return;
        }
        gather(&mut self.blocks, &mut self.whole);
        let place = self.whole.partition_point(before);
        place_within(&mut self.whole, place, item);
    }

    /// The list alone. Gives unused room back. Takes no memory.
    pub fn close(self) -> BlockList<T>
        ensures { result ≡ self.items }
    {
        let len = self.len;
        if self.whole.is_empty() {
            return BlockList {
                blocks: self.blocks,
                len,
            };
        }
        let mut blocks = self.spare;
        blocks.clear();
        blocks.push_reserved(self.whole);
        BlockList { blocks, len }
    }
}
