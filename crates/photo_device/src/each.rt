// Iteration over the held versions of a set, and over the items of a list.
ghost use Rattle.std.specs.Prelude.{◌≡◌};
ghost use Rattle.std.specs.Slice.Iter.{iter_rest};

use crate::{HeldSet, ItemList, SharedHeld};
use std::slice;

impl<'a> IntoIterator for &'a HeldSet {
    type Item = &'a SharedHeld;

    type IntoIter = block_list::Iter<'a, SharedHeld>;

    ghost into_iter_gives = { λ set items. items ≡ set.now };

    fn into_iter(self) -> block_list::Iter<'a, SharedHeld> {
        self.iter()
    }
}

impl<T> ItemList<T> {
    ghost use Rattle.std.specs.Iterator.Adapters.{IterYieldsInOrder};

    /// The items, in order.
    pub fn iter(&self) -> slice::Iter<'_, T>
        ensures items { iter_rest result ≡ self.now }
        ensures in_order { IterYieldsInOrder T }
    {
        self.as_slice().iter()
    }
}

impl<'a, T> IntoIterator for &'a ItemList<T> {
    type Item = &'a T;

    type IntoIter = slice::Iter<'a, T>;

    ghost into_iter_gives = { λ list items. iter_rest items ≡ list.now };

    fn into_iter(self) -> slice::Iter<'a, T> {
        self.iter()
    }
}
