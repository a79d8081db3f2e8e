//! Iteration over the words of a set.
ghost use Rattle.std.specs.Prelude.{◌≡◌};
ghost use Rattle.std.specs.Slice.Iter.{iter_rest};
ghost use Rattle.std.specs.Iterator.Adapters.{IterYieldsInOrder};

use crate::{Word, Words};
use std::slice;

impl Words {
    /// The words, in the order of their bytes.
    pub fn iter(&self) -> slice::Iter<'_, Word>
        ensures words { iter_rest result ≡ self.now }
        ensures in_order { IterYieldsInOrder Word }
    {
        self.as_slice().iter()
    }
}

impl<'a> IntoIterator for &'a Words {
    type Item = &'a Word;

    type IntoIter = slice::Iter<'a, Word>;

    ghost into_iter_gives = { λ words items. iter_rest items ≡ words.now };

    fn into_iter(self) -> slice::Iter<'a, Word> {
        self.iter()
    }
}
