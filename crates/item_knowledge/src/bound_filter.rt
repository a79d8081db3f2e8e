// A Bloom filter with one hash, over the rows of vectors.
ghost use Rattle.std.specs.Prelude.{◌≡◌, ◌<◌, true, length, IfOk};
ghost use Rattle.item_knowledge.specs.BoundFilter as spec;

use crate::vector_index::{mixed, share};
use std::alloc::{AllocError, Global};

// The number of places for each marked row. With so many, few rows share a place.
const PLACES: usize = 32;

/// A Bloom filter over the rows of vectors. A row without a mark was never marked. A row with a mark may be an unmarked one that
/// shares its place with a marked one.
#[derive(Debug, Drop)]
pub(crate) struct BoundFilter {
    pub(crate) marks: Vec<bool>,
}

// The place of a row's mark, among `count` places. Only the row's last bound counts.
#[tactic(auto, using(crate::proofs::BoundFilterLemmas::mixed_share))]
fn place_of(row: &[u64], count: usize) -> usize
    ensures value { result ≡ spec.place_of count row.now }
    ensures below { 0 < count → result < count }
{
    if row.len() < 2 {
        return 0;
    }
    let hash = mixed(row[row.len() - 2], row[row.len() - 1]);
    share(hash, count)
}

impl BoundFilter {
    ghost use Rattle.std.specs.Prelude.{◌≡◌, ◌<◌, true, length, IfOk};

    /// A filter without marks, with places for `count` rows.
    pub(crate) fn new(alloc: Global, count: usize) -> Result<BoundFilter, AllocError>
        ensures { IfOk result (λ marks. 0 < length marks.marks.items) }
    {
        let slots = count.saturating_mul(PLACES).saturating_add(1);
        Ok(BoundFilter {
            marks: vec![in alloc; false; slots]?,
        })
    }

    /// Marks a row.
    #[tactic(auto, using(crate::proofs::BoundFilterLemmas::set_marks, crate::proofs::BoundFilterLemmas::set_keeps))]
    pub(crate) fn mark(&mut self, row: &[u64])
        requires { 0 < length self.old.marks.items }
        ensures some { 0 < length self.new.marks.items }
        ensures marked { spec.is_marked self.new.marks.items row.now ≡ true }
        ensures kept { spec.HasMarks self.old.marks.items self.new.marks.items }
    {
        let place = place_of(row, self.marks.len());
        self.marks[place] = true;
    }

    /// Whether a row has a mark.
    pub(crate) fn has(&self, row: &[u64]) -> bool
        requires { 0 < length self.now.marks.items }
        ensures { result ≡ spec.is_marked self.now.marks.items row.now }
    {
        self.marks[place_of(row, self.marks.len())]
    }
}
