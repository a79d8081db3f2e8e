//! The tree of a filter.
ghost use Rattle.std.specs.Prelude.{◌≡◌, ◌≤◌, IsTrue, ◌↔◌, IfOk};
ghost use Rattle.photo_filter_text.specs.Tree.{tree_of, height, Not, Both, Either};

use photo_record::{Day, Rating, Word};
use std::alloc::{AllocError, Global};

/// How a test compares a picture's rating or day with its own value.
#[derive(Clone, Copy, Debug, PartialEq, Eq)]
pub enum Cmp {
    /// At least the test's value: `>=`.
    AtLeast,
    /// At most the test's value: `<=`.
    AtMost,
    /// Equal to the test's value: `=`.
    Equal,
}

/// A filter as a tree of tests. Contracts see it through `tree_of`, without the places of its parts in memory.
#[derive(Debug, PartialEq, Eq, Drop)]
pub enum FilterTree {
    /// Every picture.
    All,
    /// No picture.
    Nothing,
    /// The pictures whose rating compares so with this rating.
    Rate(Cmp, Rating),
    /// The pictures whose day compares so with this day.
    On(Cmp, Day),
    /// The pictures that have the word.
    Keyword(Word),
    /// The pictures that the part doesn't select.
    Not(Box<FilterTree>),
    /// The pictures that both parts select.
    Both(Box<FilterTree>, Box<FilterTree>),
    /// The pictures that at least one of the parts selects.
    Either(Box<FilterTree>, Box<FilterTree>),
}

impl FilterTree {
    /// An equal tree. Its only error is want of memory.
    pub fn try_clone(&self) -> Result<FilterTree, AllocError>
        ensures { IfOk result (λ copy. tree_of copy ≡ tree_of self.now) }
    {
        match self {
            FilterTree::All => Ok(FilterTree::All),
            FilterTree::Nothing => Ok(FilterTree::Nothing),
            FilterTree::Rate(cmp, rating) => Ok(FilterTree::Rate(*cmp, *rating)),
            FilterTree::On(cmp, day) => Ok(FilterTree::On(*cmp, *day)),
            FilterTree::Keyword(word) => Ok(FilterTree::Keyword(word.try_clone()?)),
            FilterTree::Not(part) => {
                let alloc = *Box::allocator(part);
                FilterTree::negation(alloc, part.try_clone()?)
            }
            FilterTree::Both(left, right) => {
                let alloc = *Box::allocator(left);
                FilterTree::conjunction(alloc, left.try_clone()?, right.try_clone()?)
            }
            FilterTree::Either(left, right) => {
                let alloc = *Box::allocator(left);
                FilterTree::disjunction(alloc, left.try_clone()?, right.try_clone()?)
            }
        }
    }

    /// The filter for the pictures that the part doesn't select. Its only error is want of memory.
    pub(crate) fn negation(alloc: Global, part: FilterTree) -> Result<FilterTree, AllocError>
        ensures { IfOk result (λ tree. tree_of tree ≡ Not (tree_of part)) }
    {
        Ok(FilterTree::Not(Box::new(alloc, part)?))
    }

    /// The filter for the pictures that both parts select. Its only error is want of memory.
    pub(crate) fn conjunction(
        alloc: Global,
        left: FilterTree,
        right: FilterTree,
    ) -> Result<FilterTree, AllocError>
        ensures { IfOk result (λ tree. tree_of tree ≡ Both (tree_of left) (tree_of right)) }
    {
        Ok(FilterTree::Both(Box::new(alloc, left)?, Box::new(alloc, right)?))
    }

    /// The filter for the pictures that at least one part selects. Its only error is want of memory.
    pub(crate) fn disjunction(
        alloc: Global,
        left: FilterTree,
        right: FilterTree,
    ) -> Result<FilterTree, AllocError>
        ensures { IfOk result (λ tree. tree_of tree ≡ Either (tree_of left) (tree_of right)) }
    {
        Ok(FilterTree::Either(Box::new(alloc, left)?, Box::new(alloc, right)?))
    }

    /// Whether the tree's height is at most the limit.
    pub(crate) fn height_is_at_most(&self, limit: u32) -> bool
        ensures { IsTrue result ↔ (height (tree_of self.now) ≤ limit) }
    {
        if limit == 0 {
            return false;
        }
        match self {
            FilterTree::Not(part) => part.height_is_at_most(limit - 1),
            FilterTree::Both(left, right) | FilterTree::Either(left, right) => {
                left.height_is_at_most(limit - 1) && right.height_is_at_most(limit - 1)
            }
            _ => true,
        }
    }
}
