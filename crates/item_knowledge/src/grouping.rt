// Puts pictures into the groups of their vectors.
ghost use Rattle.std.specs.Prelude.{◌≡◌, ◌<◌, [], length, OnOk, IfOk};
ghost use Rattle.item_knowledge.specs.Entries.{same_entries};
ghost use Rattle.item_knowledge.specs.Gathering.{IsAdded};
ghost use Rattle.item_knowledge.specs.VectorIndex.{AreGrouped, vectors_at};
ghost use Rattle.item_knowledge.specs.Rows.{pairs, IsRow, grouped};

use crate::group::Group;
use crate::rows::Rows;
use crate::vector_index::VectorIndex;
use std::alloc::{AllocError, Global};

/// Whether a row has no entries.
pub(crate) fn is_nothing(row: &[u64]) -> bool
    requires { IsRow row.now }
    ensures { result ≡ same_entries [] (pairs row.now) }
{
    row.is_empty()
}

/// Puts a picture into the group of its vector, or into a new last group if none has this vector. Gives the group's place. The
/// vectors of all groups stand in rows.
pub(crate) fn add(
    alloc: Global,
    groups: &mut Vec<Group>,
    vectors: &mut Rows,
    by_vector: &mut VectorIndex,
    picture: u32,
    row: &[u64],
) -> Result<usize, AllocError>
    requires placed { AreGrouped by_vector.old vectors.old groups.old.items }
    requires row { IsRow row.now }
    ensures added { IfOk result (λ k. IsAdded picture (pairs row.now) (grouped groups.old.items (vectors_at vectors.old by_vector.old.numbers.items))
        (grouped groups.new.items (vectors_at vectors.new by_vector.new.numbers.items)) k) }
    ensures placed { OnOk result (AreGrouped by_vector.new vectors.new groups.new.items) }
    ensures below { IfOk result (λ k. k < length groups.new.items) }
{
    let (bucket, found) = by_vector.find(vectors, row);
    if let Some(k) = found {
        groups[k].push(u64::from(picture))?;
        return Ok(k);
    }
    groups.push(Group::new(alloc, u64::from(picture)))?;
    let k = by_vector.len();
    vectors.place_fragment(&[], row)?;
    by_vector.push(bucket, k)?;
    Ok(k)
}
