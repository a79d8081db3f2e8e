// What is told of pictures, still to be learned.
ghost use Rattle.std.specs.Prelude.{◌≡◌, true, IfOk, OnOk};
ghost use Rattle.item_knowledge.specs.Entries.{is_vector};
ghost use Rattle.item_knowledge.specs.Rows.{flat};
ghost use Rattle.item_knowledge.specs.TableRows as spec;

use crate::index::{IndexEntry, to_u32};
use crate::knowledge_rows::KnowledgeRows;
use crate::rows::Rows;
use crate::union::begin;
use photo_record::PicNo;
use photo_version::Vector;
use std::alloc::{AllocError, Global};
use std::marker::Model;

/// What is told of pictures, still to be learned: pairs of a picture and a version. Its value is a list of fragments that denote
/// these pairs, in any order and form.
#[derive(Debug, Drop)]
pub struct Told {
    live: KnowledgeRows,
    index: Vec<IndexEntry>,
}

impl Model for Told {
    ghost use Rattle.std.specs.Prelude.{List};
    ghost use Rattle.item_knowledge.specs.Coding.{fragments_code};
    ghost use Rattle.item_knowledge.specs.Fragments.{Fragment};
    ghost use Rattle.item_knowledge.specs.Rows.{fragments_of};
    ghost use Rattle.item_knowledge.specs.TableRows.{IsTelling};

    ghost Value = { List Fragment };

    ghost coded = { fragments_code };

    ghost view = { λ t. fragments_of t.live };

    ghost invariant = { λ t. IsTelling t.live t.index.items };
}

impl Told {
    ghost use Rattle.std.specs.Prelude.{◌≡◌, ℕ, ◌<◌, [], true, IfOk};
    ghost use Rattle.photo_version.specs.Version.{Version};
    ghost use Rattle.photo_version.specs.Vector.{denotes};
    ghost use Rattle.item_knowledge.specs.Fragments.{knows};
    ghost use Rattle.item_knowledge.specs.Rows.{fragments_of};
    ghost use Rattle.item_knowledge.specs.Tables.{in_order, at};
    ghost use Rattle.item_knowledge.specs.TableRows.{IsTelling};

    /// What a table tells: of each of its pictures all versions of the vector beside it. Its only error is want of memory.
    pub fn of_table(alloc: Global, table: &[(PicNo, Vector)]) -> Result<Told, AllocError>
        requires { in_order table.now ≡ true }
        ensures { IfOk result (λ told. (p : ℕ) (v : Version) → 0 < p → knows told p v ≡ denotes (at [] table.now p) v) }
    {
        let (live, index) = rows_of(alloc, table)?;
        Ok(Told { live, index })
    }

    /// Its rows and their index.
    pub(crate) fn parts(&self) -> (&KnowledgeRows, &[IndexEntry])
        ensures telling { IsTelling result.0.now result.1.now }
        ensures value { fragments_of result.0.now ≡ self.now }
    {
        (&self.live, &self.index)
    }
}

// Replaces `row` by the entries of a vector, two words each.
fn write_row(vector: &Vector, row: &mut Vec<u64>) -> Result<(), AllocError>
    ensures row { OnOk result (row.new.items ≡ flat (spec.entries_of vector.now)) }
    ensures vector { OnOk result (is_vector (spec.entries_of vector.now) ≡ true) }
{
    row.clear();
    for i in 0..vector.len() {
        let (author, n) = vector.entry(i);
        row.push(author.word())?;
        row.push(u64::from(n))?;
    }
    Ok(())
}

// The rows of what a table tells, with their index.
#[tactic(auto, using(crate::proofs::TableRowLemmas::none_told, crate::proofs::TableRowLemmas::told_star))]
fn rows_of(
    alloc: Global,
    table: &[(PicNo, Vector)],
) -> Result<(KnowledgeRows, Vec<IndexEntry>), AllocError>
    ensures { IfOk result (λ all. spec.IsTold table.now all.0 all.1.items) }
{
    let mut rows = Rows::new(alloc);
    begin(table.len(), table.len().saturating_mul(4), &mut rows)?;
    let mut index = Vec::with_capacity(alloc, table.len())?;
    let mut row = Vec::new(alloc);
    for i in 0..table.len() {
        let one = &table[i];
        let picture = one.0.value();
        write_row(&one.1, &mut row)?;
        rows.place_fragment(&[u64::from(picture)], &row)?;
        let number = to_u32(i + 1)?;
        index.push((picture, number))?;
    }
    let live = KnowledgeRows::of_rows(alloc, rows)?;
    Ok((live, index))
}
