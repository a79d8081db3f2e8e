// The type `Vector` and its methods.
ghost use Rattle.std.specs.Cmp as laws;
ghost use Rattle.std.specs.Cmp.Lexicographic.{lists_per, lists_equiv};
ghost use Rattle.photo_version.specs.Author.{author_word};
ghost use Rattle.photo_version.specs.Vector.{Bound, same_bounds};

use crate::bounds::{self, Bound};
use crate::{Author, Version};
use std::alloc::{AllocError, Global};
use std::marker::Model;
use std::sync::Arc;

/// A set of versions that has with each version all earlier ones of its author. Contracts see its entries: each author with its
/// last version, in the order of authors. Copies share the entries.
#[derive(Debug, Drop)]
pub struct Vector {
    entries: Option<Arc<Vec<Bound>>>,
    alloc: Global,
}

impl Model for Vector {
    ghost use Rattle.std.specs.Prelude.{◌≡◌, true, List};
    ghost use Rattle.photo_version.specs.Vector.{Bound, is_vector};
    ghost use Rattle.photo_version.specs.Shared.{items_of};

    ghost Value = { List Bound };

    ghost view = { λ v. items_of v.entries };

    ghost invariant = { λ v. is_vector (items_of v.entries) ≡ true };
}

impl Vector {
    ghost use Rattle.std.specs.Prelude.{◌≡◌, ◌<◌, ◌==◌, ◌||◌, ◌↔◌, true, [], ◌∷◌, length, slice_get, Some, IfOk};
    ghost use Rattle.photo_version.specs.Version.{Version};
    ghost use Rattle.photo_version.specs.Vector.{denotes, is_vector, raised, joined, is_within};

    /// The empty set. It takes no memory. `alloc` is used for the sets made from it.
    pub fn new(alloc: Global) -> Vector
        ensures { result ≡ [] }
    {
        Vector {
            entries: None,
            alloc,
        }
    }

    /// The set with those entries, which are in the order of authors and above 0. Its only error is want of memory.
    pub fn from_entries(alloc: Global, entries: Vec<(Author, u32)>) -> Result<Vector, AllocError>
        requires { is_vector entries.items ≡ true }
        ensures { IfOk result (λ r. r ≡ entries.items) }
    {
        if entries.is_empty() {
            return Ok(Vector::new(alloc));
        }
        Ok(Vector {
            entries: Some(Arc::new(alloc, entries)?),
            alloc,
        })
    }

    /// Whether the version is in the set.
    pub fn has(&self, version: Version) -> bool
        ensures { result ≡ denotes self.now version }
    {
        bounds::has(self.entries(), version)
    }

    /// Whether each version of this set is in the other.
    pub fn leq(&self, other: &Vector) -> bool
        ensures value { result ≡ is_within self.now other.now }
        ensures inclusion { (result ≡ true) ↔ ((v : Version) → denotes self.now v ≡ true → denotes other.now v ≡ true) }
    {
        bounds::is_within(self.entries(), other.entries())
    }

    /// The number of entries: one for each author that has a version in the set.
    pub fn len(&self) -> usize
        ensures value { result ≡ length self.now }
        ensures vector { is_vector self.now ≡ true }
    {
        self.entries().len()
    }

    /// Whether the set is empty.
    pub fn is_empty(&self) -> bool
        ensures { result ≡ (length self.now == 0) }
    {
        self.entries().is_empty()
    }

    /// The entry at index `i`, from 0, in the order of authors: an author and the number of its last version in the set.
    pub fn entry(&self, i: usize) -> (Author, u32)
        requires { i < length self.now }
        ensures value { slice_get self.now i ≡ Some result }
        ensures above_zero { 0 < result.1 }
    {
        self.entries()[i]
    }

    /// The union with the other set. Its only error is want of memory.
    pub fn join(&self, other: &Vector) -> Result<Vector, AllocError>
        ensures value { IfOk result (λ r. r ≡ joined self.now other.now) }
        ensures union { IfOk result (λ r. (v : Version) → denotes r v ≡ (denotes self.now v || denotes other.now v)) }
        ensures vector { IfOk result (λ r. is_vector r ≡ true) }
    {
        let entries = self.entries();
        let others = other.entries();
        if bounds::is_within(others, entries) {
            return self.try_clone();
        }
        if bounds::is_within(entries, others) {
            return other.try_clone();
        }
        Vector::from_entries(self.alloc, bounds::joined(self.alloc, entries, others)?)
    }

    /// The set with the version and all earlier ones of its author added. Its only error is want of memory.
    pub fn with(&self, version: Version) -> Result<Vector, AllocError>
        ensures value { IfOk result (λ r. r ≡ raised (version.author, version.number) self.now) }
        ensures union { IfOk result
            (λ r. (v : Version) → denotes r v ≡ (denotes ((version.author, version.number) ∷ []) v || denotes self.now v)) }
        ensures vector { IfOk result (λ r. is_vector r ≡ true) }
    {
        let entries = self.entries();
        if bounds::has(entries, version) {
            return self.try_clone();
        }
        let bound = (version.author(), version.n());
        Vector::from_entries(self.alloc, bounds::joined(self.alloc, &[bound], entries)?)
    }

    /// An equal set that shares the entries and takes no memory. Its only error is that the entries have too many owners to
    /// count.
    pub fn try_clone(&self) -> Result<Vector, AllocError>
        ensures { IfOk result (λ copy. copy ≡ self.now) }
    {
        let entries = match &self.entries {
            Some(shared) => Some(Arc::try_clone(shared)?),
            None => None,
        };
        Ok(Vector {
            entries,
            alloc: self.alloc,
        })
    }

    pub(crate) fn entries(&self) -> &[Bound]
        ensures value { result.now ≡ self.now }
        ensures vector { is_vector result.now ≡ true }
    {
        match &self.entries {
            Some(shared) => shared.as_slice(),
            None => &[],
        }
    }
}

impl PartialEq for Vector {
    ghost eq = { same_bounds };

    ghost laws = { lists_per (laws.and_per
        (laws.partial_equiv_from_equiv (laws.on_equiv (λ (b : Bound). author_word b.0) laws.nat_eq_equiv))
        (laws.partial_equiv_from_equiv (laws.on_equiv (λ (b : Bound). b.1) laws.nat_eq_equiv))) };

    fn eq(&self, other: &Vector) -> bool {
        self.entries() == other.entries()
    }
}

impl Eq for Vector {
    ghost laws = { lists_equiv (laws.and_equiv
        (laws.on_equiv (λ (b : Bound). author_word b.0) laws.nat_eq_equiv)
        (laws.on_equiv (λ (b : Bound). b.1) laws.nat_eq_equiv)) };
}
