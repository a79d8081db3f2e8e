// An operand of a union.
ghost use Rattle.item_knowledge.specs.Excess.{IsExcess};
ghost use Rattle.item_knowledge.specs.Gathering.{IsOperand};
ghost use Rattle.item_knowledge.specs.Rows.{AreRows, fragments_of};

use crate::index::IndexEntry;
use crate::rows::Rows;

/// A star, the rows of what exceeds it, and the index that leads from each picture to its fragment in these rows.
#[derive(Clone, Copy)]
pub(crate) struct Operand<'a> {
    pub(crate) star: &'a [u64],
    pub(crate) rows: &'a Rows,
    pub(crate) index: &'a [IndexEntry],
    ghost whole: { AreRows rows.now },
    ghost excess: { IsExcess star.now rows.now },
    ghost operand: { IsOperand (fragments_of rows.now) index.now },
}
