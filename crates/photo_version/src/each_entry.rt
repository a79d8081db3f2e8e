// Iteration over the entries of a vector.
ghost use Rattle.std.specs.Prelude.{◌≡◌, true};
ghost use Rattle.std.specs.Slice.Iter.{iter_rest};
ghost use Rattle.std.specs.Iterator.Adapters.{IterYieldsInOrder};
ghost use Rattle.photo_version.specs.Vector.{Bound, is_vector};

use crate::{Author, Vector};
use std::slice;

impl Vector {
    /// The entries, in the order of authors: each author with the number of its last version in the set.
    pub fn iter(&self) -> slice::Iter<'_, (Author, u32)>
        ensures entries { iter_rest result ≡ self.now }
        ensures in_order { IterYieldsInOrder Bound }
        ensures vector { is_vector self.now ≡ true }
    {
        self.entries().iter()
    }
}

impl<'a> IntoIterator for &'a Vector {
    type Item = &'a (Author, u32);

    type IntoIter = slice::Iter<'a, (Author, u32)>;

    ghost into_iter_gives = { λ vector items. iter_rest items ≡ vector.now };

    fn into_iter(self) -> slice::Iter<'a, (Author, u32)> {
        self.iter()
    }
}
