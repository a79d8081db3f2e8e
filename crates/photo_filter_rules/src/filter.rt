//! Filters: building, matching and covering.
ghost use Rattle.std.specs.Prelude.{◌≡◌, length, IfOk, IfErr, OnOk, true, false};
ghost use Rattle.photo_filter_text.specs.Tree.{tree_of};
ghost use Rattle.photo_filter_rules.specs.declared.polarity.Polarity.TheVariants.{Plain};
ghost use Rattle.photo_filter_rules.specs.Matching.{matches};
ghost use Rattle.photo_filter_rules.specs.Alternatives.{alternatives_of, is_too_wide};
ghost use Rattle.photo_filter_rules.specs.Covers.{covers};

use crate::alternative::Alternative;
use crate::copies::copied;
use crate::polarity::Polarity;
use crate::{BuildFault, list};
use photo_filter_text::FilterTree;
use photo_record::Record;
use std::alloc::{AllocError, Global};
use std::marker::Model;

/// A filter: a tree of tests and its alternatives, at most 64. Contracts see the tree.
#[derive(Debug, Drop)]
pub struct Filter {
    tree: FilterTree,
    alternatives: Vec<Alternative>,
}

impl Model for Filter {
    ghost use Rattle.std.specs.Prelude.{◌≡◌, false};
    ghost use Rattle.photo_filter_text.specs.Tree.{Tree, tree_of};
    ghost use Rattle.photo_filter_rules.specs.Coding.{tree_code};
    ghost use Rattle.photo_filter_rules.specs.declared.polarity.Polarity.TheVariants.{Plain};
    ghost use Rattle.photo_filter_rules.specs.Alternatives.{alternatives_of, is_too_wide};

    ghost Value = { Tree };

    ghost coded = { tree_code };

    ghost view = { λ f. tree_of f.tree };

    ghost invariant = { λ f. (f.alternatives.items ≡ alternatives_of (tree_of f.tree) Plain)
        × (is_too_wide (tree_of f.tree) Plain ≡ false) };
}

impl Filter {
    /// Builds the filter of a tree. `TooWide` means that the tree or one of its parts, in its own polarity, has over 64
    /// alternatives. `NoMemory` may come in place of either answer. An error gives the tree back.
    pub fn build(alloc: Global, tree: FilterTree) -> Result<Filter, (FilterTree, BuildFault)>
        ensures built { IfOk result (λ filter. filter ≡ tree_of tree) }
        ensures narrow { OnOk result (is_too_wide (tree_of tree) Plain ≡ false) }
        ensures returned { IfErr result (λ e. e.0 ≡ tree) }
        ensures wide { IfErr result (λ e. e.1 ≡ BuildFault.TooWide → is_too_wide (tree_of tree) Plain ≡ true) }
    {
        match list::alternatives_of(alloc, &tree, Polarity::Plain) {
            Ok(alternatives) => Ok(Filter { tree, alternatives }),
            Err(fault) => Err((tree, fault)),
        }
    }

    /// Whether the filter matches the record; no filter matches a removal. It takes no memory.
    pub fn matches(&self, record: &Record) -> bool
        ensures { result ≡ matches self.now «record».now }
    {
        match record {
            Record::Picture { rating, day, words } => {
                list::any_fits(&self.alternatives, rating.value(), day.number(), words)
            }
            Record::Removed => false,
        }
    }

    /// The number of alternatives, 0 to 64. It takes no memory.
    pub fn alternatives(&self) -> usize
        ensures { result ≡ length (alternatives_of self.now Plain) }
    {
        self.alternatives.len()
    }

    /// The tree from which the filter was built.
    pub fn tree(&self) -> &FilterTree
        ensures { tree_of result.now ≡ self.now }
    {
        &self.tree
    }

    /// An equal filter. Its only error is want of memory.
    pub fn try_clone(&self) -> Result<Filter, AllocError>
        ensures { IfOk result (λ copy. copy ≡ self.now) }
    {
        Ok(Filter {
            tree: self.tree.try_clone()?,
            alternatives: copied(&self.alternatives)?,
        })
    }
}

/// Whether the first filter covers the second: for each alternative of the second, the first has one that asks no more. Then
/// the first matches whatever the second matches. It takes no memory.
pub fn covers(first: &Filter, second: &Filter) -> bool
    ensures { result ≡ covers first.now second.now }
{
    list::has_room_for_all(&first.alternatives, &second.alternatives)
}
