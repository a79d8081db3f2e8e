// The union of two operands, as rows of what exceeds its star and an index.
ghost use Rattle.std.specs.Prelude.{◌≡◌, ℕ, List, ◌+◌, ◌*◌, ◌<◌, [], ◌∷◌, true, length, get_or, IfOk, OnOk};
ghost use Rattle.item_knowledge.specs.Excess.{AllDiffer, union_vector};
ghost use Rattle.item_knowledge.specs.Fragments.{entries_at};
ghost use Rattle.item_knowledge.specs.Gathering.{star_first, IsGathered};
ghost use Rattle.item_knowledge.specs.Written.{IsWritten, union_table};
ghost use Rattle.item_knowledge.specs.VectorIndex.{IsIndexed, AreGrouped, vectors_at};
ghost use Rattle.item_knowledge.specs.Rows.{pairs, IsRow, AreRows, fragments_of, rows_of, grouped};
ghost use Rattle.item_knowledge.specs.Operand.{fragments};
ghost use Rattle.item_knowledge.specs.Tables.{in_order};

use crate::distinct_union::distinct_union;
use crate::group::Group;
use crate::grouping::{add, is_nothing};
use crate::index::{IndexEntry, pictures_together, to_u32};
use crate::join::join;
use crate::operand::Operand;
use crate::pair_cursor::PairCursor;
use crate::rows::Rows;
use crate::vector_index::VectorIndex;
use std::alloc::{AllocError, Global};

/// The entries of fragment number `number`, as a row of words.
#[tactic(auto, using(crate::proofs::RowLemmas::rows_read))]
pub(crate) fn entries(rows: &Rows, number: usize) -> &[u64]
    requires rows { AreRows rows.now }
    requires number { number < length (fragments_of rows.now) }
    ensures words { result.now ≡ get_or rows.now (2 * number + 1) [] }
    ensures row { IsRow result.now }
    ensures entries { pairs result.now ≡ entries_at (fragments_of rows.now) number }
{
    // `rows` is called because it counts the rows in a `usize`, so `2 * number + 1` can't overflow.
    let _count = rows.rows();
    rows.row(2 * number + 1)
}

/// The join of two fragments, one of each operand, beyond the star: a row of words, written into `room`.
#[inline(always)]
pub(crate) fn pair<'a>(
    left: Operand<'_>,
    right: Operand<'_>,
    numbers: (usize, usize),
    star: &[u64],
    room: &'a mut Vec<u64>,
) -> Result<&'a [u64], AllocError>
    requires a { numbers.0 < length (fragments left) }
    requires b { numbers.1 < length (fragments right) }
    requires star_row { IsRow star.now }
    requires star { in_order (pairs star.now) ≡ true }
    ensures row { IfOk result (λ row. IsRow row.now) }
    ensures entries { IfOk result (λ row. pairs row.now ≡ union_vector (pairs star.now) (fragments left.entry) (fragments right.entry) numbers) }
{
    join(
        entries(left.rows, numbers.0),
        entries(right.rows, numbers.1),
        star,
        room,
    )?;
    Ok(room)
}

/// Replaces `out` by the rows of a star without entries, and reserves memory for `count` more fragments and `words` words.
pub(crate) fn begin(count: usize, words: usize, out: &mut Rows) -> Result<(), AllocError>
    ensures { OnOk result (out.new ≡ [] ∷ [] ∷ []) }
{
    out.clear();
    out.reserve(count.saturating_mul(2).saturating_add(2), words)?;
    out.place_fragment(&[], &[])?;
    Ok(())
}

// Replaces `out` by the rows of a star without entries and of the groups, which list so many pictures together.
fn write(
    groups: &[Group],
    pictures: usize,
    vectors: &Rows,
    by_vector: &VectorIndex,
    out: &mut Rows,
) -> Result<(), AllocError>
    requires { AreGrouped by_vector.now vectors.now groups.now }
    ensures { OnOk result (out.new ≡ rows_of (star_first [] (grouped groups.now (vectors_at vectors.now by_vector.now.numbers.items)))) }
{
    let words = pictures.saturating_add(vectors.words());
    begin(groups.len(), words, out)?;
    for k in 0..groups.len() {
        groups[k].place(out)?;
        out.place(by_vector.vector(vectors, k))?;
    }
    Ok(())
}

// The groups of the union of two operands, and their index. The star is given. Groups are found by their vectors, which are written
// into rows.
fn groups(
    alloc: Global,
    left: Operand<'_>,
    right: Operand<'_>,
    star: &[u64],
    vectors: &mut Rows,
    by_vector: &mut VectorIndex,
) -> Result<(Vec<Group>, Vec<IndexEntry>), AllocError>
    requires star_row { IsRow star.now }
    requires star { in_order (pairs star.now) ≡ true }
    requires empty { vectors.old ≡ [] }
    requires none { by_vector.old.numbers.items ≡ [] }
    requires found { (rows : List (List ℕ)) → IsIndexed by_vector.old rows }
    ensures placed { IfOk result (λ all. AreGrouped by_vector.new vectors.new all.0.items) }
    ensures gathered { IfOk result (λ all. IsGathered
        (union_table (pairs star.now) (fragments left.entry) (fragments right.entry) left.entry.index.now right.entry.index.now)
        [] (grouped all.0.items (vectors_at vectors.new by_vector.new.numbers.items)) all.1.items) }
{
    let mut groups = Vec::new(alloc);
    let mut index = Vec::with_capacity(alloc, pictures_together(left.index, right.index))?;
    let mut room = Vec::new(alloc);
    let mut cursor = PairCursor::new();
    while let Some((picture, numbers)) = cursor.next_picture(left, right) {
        let row = pair(left, right, numbers, star, &mut room)?;
        if is_nothing(row) {
            continue;
        }
        let k = add(alloc, &mut groups, vectors, by_vector, picture, row)?;
        let number = to_u32(k + 1)?;
        index.push((picture, number))?;
    }
    Ok((groups, index))
}

// Writes the groups of the union of two operands, and gives its index. The star is given.
fn gathered(
    alloc: Global,
    left: Operand<'_>,
    right: Operand<'_>,
    star: &[u64],
    out: &mut Rows,
) -> Result<Vec<IndexEntry>, AllocError>
    requires star_row { IsRow star.now }
    requires star { in_order (pairs star.now) ≡ true }
    ensures { IfOk result (λ index. IsWritten (pairs star.now) (fragments left.entry) left.entry.index.now
        (fragments right.entry) right.entry.index.now out.new index.items) }
{
    let buckets = pictures_together(left.index, right.index);
    let mut vectors = Rows::new(alloc);
    let mut by_vector = VectorIndex::new(alloc, 0, buckets, out.seed())?;
    let (listed, index) = groups(alloc, left, right, star, &mut vectors, &mut by_vector)?;
    write(&listed, index.len(), &vectors, &by_vector, out)?;
    Ok(index)
}

/// Writes the normal form of the operands' union, without the entries of its star, and gives its index. The star is given, and the
/// left's vectors differ.
pub(crate) fn union(
    alloc: Global,
    left: Operand<'_>,
    right: Operand<'_>,
    star: &[u64],
    out: &mut Rows,
) -> Result<Vec<IndexEntry>, AllocError>
    requires differ { AllDiffer (fragments left) }
    requires star_row { IsRow star.now }
    requires star { in_order (pairs star.now) ≡ true }
    ensures { IfOk result (λ index. IsWritten (pairs star.now) (fragments left.entry) left.entry.index.now
        (fragments right.entry) right.entry.index.now out.new index.items) }
{
    if let Some(index) = distinct_union(alloc, left, right, star, out)? {
        return Ok(index);
    }
    gathered(alloc, left, right, star, out)
}
