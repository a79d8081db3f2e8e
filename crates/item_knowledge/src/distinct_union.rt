// A union in which each listed picture has a fragment of its own. One loop writes the fragments: it copies those of the left that
// stay as they are in runs of neighbours, and joins all others. After the loop one test finds out whether all vectors differ.
ghost use Rattle.std.specs.Prelude.{◌≡◌, ◌+◌, ◌*◌, ◌<◌, ◌≤◌, [], ◌∷◌, ◌++◌, true, false, length, get_or, map, IfOk, IfSome, OnOk};
ghost use Rattle.fragment_arena.specs.Arena.{run};
ghost use Rattle.item_knowledge.specs.DistinctUnion.{Stays, AreThere, AreOthers, AreAllDistinct, IsSpread, spread_of};
ghost use Rattle.item_knowledge.specs.Excess.{AllDiffer, exceeding, exceeds_all, is_covered};
ghost use Rattle.item_knowledge.specs.BoundFilter.{AreMarked};
ghost use Rattle.item_knowledge.specs.VectorIndex.{IsIndexed};
ghost use Rattle.item_knowledge.specs.Written.{IsWritten};
ghost use Rattle.item_knowledge.specs.Rows.{pairs, IsRow, AreRows, fragments_of};
ghost use Rattle.item_knowledge.specs.Tables.{in_order};
ghost use Rattle.item_knowledge.specs.Operand.{fragments};

use crate::bound_filter::BoundFilter;
use crate::grouping::is_nothing;
use crate::index::{IndexEntry, pictures_together, to_u32};
use crate::join::join;
use crate::operand::Operand;
use crate::pair_cursor::PairCursor;
use crate::rows::Rows;
use crate::search::{SortedPairs, bound_of, entry_at, entry_count, place_near, value_at};
use crate::union::{begin, entries, pair};
use crate::vector_index::VectorIndex;
use std::alloc::{AllocError, Global};

// The pictures of the written fragments, each with the number of its fragment.
#[derive(Drop)]
struct Lists {
    index: Vec<IndexEntry>,
    // Those whose fragments were joined and not copied from the left.
    joined: Vec<IndexEntry>,
}

// Whether each bound of a row is above the star's bound of the same author.
#[inline(always)]
fn exceeds(row: &[u64], star: &[u64]) -> bool
    requires row { IsRow row.now }
    requires order { in_order (pairs row.now) ≡ true }
    requires star_row { IsRow star.now }
    requires star { in_order (pairs star.now) ≡ true }
    ensures { result ≡ exceeds_all (pairs star.now) (pairs row.now) }
{
    let bounds = SortedPairs::Row(star);
    let mut place = 0;
    for i in 0..entry_count(row) {
        let (author, n) = entry_at(row, i);
        place = place_near(bounds, place, author);
        if n <= value_at(bounds, place, author) {
            return false;
        }
    }
    true
}

// Whether each bound of a row is at most the other row's or the star's bound of the same author.
#[inline(always)]
fn adds_nothing(row: &[u64], other: &[u64], star: &[u64]) -> bool
    requires row { IsRow row.now }
    requires order { in_order (pairs row.now) ≡ true }
    requires other_row { IsRow other.now }
    requires star_row { IsRow star.now }
    requires other { in_order (pairs other.now) ≡ true }
    requires star { in_order (pairs star.now) ≡ true }
    ensures { result ≡ is_covered (pairs star.now) (pairs other.now) (pairs row.now) }
{
    let bounds = SortedPairs::Row(other);
    let mut place = 0;
    for i in 0..entry_count(row) {
        let (author, n) = entry_at(row, i);
        place = place_near(bounds, place, author);
        if n > value_at(bounds, place, author) && n > bound_of(star, author) {
            return false;
        }
    }
    true
}

// Whether a fragment lists this picture and no other.
#[tactic(auto, using(crate::proofs::RowLemmas::rows_read))]
fn is_alone(rows: &Rows, number: usize, picture: u32) -> bool
    requires rows { AreRows rows.now }
    requires number { number < length (fragments_of rows.now) }
    ensures { result ≡ true → get_or rows.now (2 * number) [] ≡ picture ∷ [] }
{
    // `rows` is called because it counts the rows in a `usize`, so `2 * number` can't overflow.
    let _count = rows.rows();
    let pictures = rows.row(2 * number);
    if pictures.len() != 1 {
        return false;
    }
    pictures[0] == u64::from(picture)
}

// Whether the left's fragment of a picture stays as it is in the union: it lists this picture alone, its bounds are all above the
// star's, and the right's fragment adds nothing. `risen` lists only the bounds that the union's star has above the left's star;
// the left's fragment exceeds all other bounds of the star anyway.
#[inline(always)]
fn stays(
    left: Operand<'_>,
    right: Operand<'_>,
    star: &[u64],
    risen: &[u64],
    picture: u32,
    numbers: (usize, usize),
) -> bool
    requires a { numbers.0 < length (fragments left) }
    requires b { numbers.1 < length (fragments right) }
    requires star_row { IsRow star.now }
    requires star { in_order (pairs star.now) ≡ true }
    requires risen_row { IsRow risen.now }
    requires risen { pairs risen.now ≡ exceeding (pairs left.star.now) (pairs star.now) }
    ensures { result ≡ true → Stays (pairs star.now) left.entry.rows.now right.entry.rows.now picture numbers }
{
    let (a, b) = numbers;
    if a == 0 {
        return false;
    }
    if !is_alone(left.rows, a, picture) {
        return false;
    }
    let row = entries(left.rows, a);
    if !risen.is_empty() {
        if !exceeds(row, risen) {
            return false;
        }
    }
    b == 0 || adds_nothing(entries(right.rows, b), row, star)
}

// Writes a run of the left's fragments, from number `from` up to `to`, which is left out.
#[tactic(auto, using(crate::proofs::RowLemmas::rows_read))]
#[inline(always)]
fn place_run(left: &Rows, from: usize, to: usize, out: &mut Rows) -> Result<(), AllocError>
    requires left { AreRows left.now }
    requires order { from ≤ to }
    requires there { to ≤ length (fragments_of left.now) }
    ensures { OnOk result (out.new ≡ out.old ++ run left.now (2 * from) (2 * to)) }
{
    // `rows` is called because it counts the rows in a `usize`, so `2 * to` can't overflow.
    let _count = left.rows();
    out.place_run(left, 2 * from, 2 * to)?;
    Ok(())
}

// Makes way for the left's fragment `a` after an unwritten run from `from` up to `to`. If `a` isn't `to`, it doesn't continue this
// run, and the run is written. Gives the number with which the run of `a` begins.
fn run_to(
    left: &Rows,
    from: usize,
    to: usize,
    a: usize,
    out: &mut Rows,
) -> Result<usize, AllocError>
    requires left { AreRows left.now }
    requires order { from ≤ to }
    requires end { to ≤ length (fragments_of left.now) }
    ensures order { IfOk result (λ start. start ≤ a) }
    ensures run { IfOk result (λ start. out.new ++ run left.now (2 * start) (2 * a) ≡ out.old ++ run left.now (2 * from) (2 * to)) }
{
    if a == to {
        return Ok(from);
    }
    place_run(left, from, to, out)?;
    Ok(a)
}

// Writes a fragment for each picture of which more is known than the star, and lists it. The star is written already.
fn spread(
    alloc: Global,
    left: Operand<'_>,
    right: Operand<'_>,
    star: &[u64],
    lists: &mut Lists,
    out: &mut Rows,
) -> Result<(), AllocError>
    requires differ { AllDiffer (fragments left) }
    requires star_row { IsRow star.now }
    requires star { in_order (pairs star.now) ≡ true }
    requires index { lists.old.index.items ≡ [] }
    requires joined { lists.old.joined.items ≡ [] }
    requires out { out.old ≡ [] ∷ [] ∷ [] }
    ensures { OnOk result (IsSpread left.entry.rows.now
        (spread_of (pairs star.now) (fragments left.entry) (fragments right.entry) left.entry.index.now right.entry.index.now)
        out.new lists.new.index.items lists.new.joined.items) }
{
    // `rows` is called because it counts the rows in a `usize`, so `to` can't overflow.
    let _count = left.rows.rows();
    let mut risen = Vec::new(alloc);
    join(star, &[], left.star, &mut risen)?;
    let mut room = Vec::new(alloc);
    let mut from = 1;
    let mut to = 1;
    let mut cursor = PairCursor::new();
    while let Some((picture, numbers)) = cursor.next_picture(left, right) {
        if stays(left, right, star, &risen, picture, numbers) {
            from = run_to(left.rows, from, to, numbers.0, out)?;
            to = numbers.0 + 1;
            let number = to_u32(lists.index.len() + 1)?;
            lists.index.push((picture, number))?;
            continue;
        }
        let row = pair(left, right, numbers, star, &mut room)?;
        if is_nothing(row) {
            continue;
        }
        place_run(left.rows, from, to, out)?;
        out.place_fragment(&[u64::from(picture)], row)?;
        from = to;
        let number = to_u32(lists.index.len() + 1)?;
        lists.index.push((picture, number))?;
        lists.joined.push((picture, number))?;
    }
    place_run(left.rows, from, to, out)?;
    Ok(())
}

// An index of the listed fragments by their vectors, or none if two of them have the same vector.
fn vector_index_of(
    alloc: Global,
    rows: &Rows,
    listed: &[IndexEntry],
) -> Result<Option<VectorIndex>, AllocError>
    requires rows { AreRows rows.now }
    requires there { AreThere rows.now listed.now }
    ensures found { IfOk result (λ found. IfSome found (λ by_vector. IsIndexed by_vector rows.now)) }
    ensures numbers { IfOk result (λ found. IfSome found (λ by_vector. by_vector.numbers.items ≡ map (λ x. x.1) listed.now)) }
{
    // Vectors mostly differ, so at least half of the buckets are to stay free.
    let buckets = listed.len().saturating_mul(2);
    let mut by_vector = VectorIndex::new(alloc, listed.len(), buckets, rows.seed())?;
    for i in 0..listed.len() {
        let (_picture, kept) = listed[i];
        let number = kept as usize;
        let (bucket, place) = by_vector.find(rows, entries(rows, number));
        if place.is_some() {
            return Ok(None);
        }
        by_vector.push(bucket, number)?;
    }
    Ok(Some(by_vector))
}

// A filter in which the vector of each listed fragment has a mark.
fn marks_of(alloc: Global, rows: &Rows, listed: &[IndexEntry]) -> Result<BoundFilter, AllocError>
    requires rows { AreRows rows.now }
    requires there { AreThere rows.now listed.now }
    ensures some { IfOk result (λ marks. 0 < length marks.marks.items) }
    ensures marked { IfOk result (λ marks. AreMarked marks.marks.items rows.now listed.now) }
{
    let mut marks = BoundFilter::new(alloc, listed.len())?;
    for i in 0..listed.len() {
        let (_picture, number) = listed[i];
        marks.mark(entries(rows, number as usize));
    }
    Ok(marks)
}

// Whether each fragment of an index was joined, or has a vector that no joined fragment has.
fn are_others(
    rows: &Rows,
    index: &[IndexEntry],
    joined: &[IndexEntry],
    by_vector: &VectorIndex,
    marks: &BoundFilter,
) -> bool
    requires rows { AreRows rows.now }
    requires there { AreThere rows.now index.now }
    requires found { IsIndexed by_vector.now rows.now }
    requires numbers { by_vector.now.numbers.items ≡ map (λ x. x.1) joined.now }
    requires some { 0 < length marks.now.marks.items }
    requires marked { AreMarked marks.now.marks.items rows.now joined.now }
    ensures { result ≡ true → AreOthers rows.now index.now joined.now }
{
    let mut next = 0;
    for i in 0..index.len() {
        if next < joined.len() && joined[next].1 == index[i].1 {
            next += 1;
            continue;
        }
        let row = entries(rows, index[i].1 as usize);
        if !marks.has(row) {
            continue;
        }
        if by_vector.find(rows, row).1.is_some() {
            return false;
        }
    }
    true
}

// Whether all fragments of an index have different vectors. Those that weren't joined are the left's, and the left's differ.
fn are_all_distinct(
    alloc: Global,
    rows: &Rows,
    index: &[IndexEntry],
    joined: &[IndexEntry],
) -> Result<bool, AllocError>
    requires rows { AreRows rows.now }
    requires index { AreThere rows.now index.now }
    requires joined { AreThere rows.now joined.now }
    ensures { IfOk result (λ apart. apart ≡ true → AreAllDistinct rows.now index.now joined.now) }
{
    if joined.is_empty() {
        return Ok(true);
    }
    let Some(by_vector) = vector_index_of(alloc, rows, joined)? else {
        return Ok(false);
    };
    let marks = marks_of(alloc, rows, joined)?;
    Ok(are_others(rows, index, joined, &by_vector, &marks))
}

/// Writes the normal form of the operands' union, without the entries of its star, and gives its index. If two pictures have the
/// same vector, and not the star's, it gives none, and what it wrote is of no use. The star is given, and the left's vectors
/// differ.
pub(crate) fn distinct_union(
    alloc: Global,
    left: Operand<'_>,
    right: Operand<'_>,
    star: &[u64],
    out: &mut Rows,
) -> Result<Option<Vec<IndexEntry>>, AllocError>
    requires differ { AllDiffer (fragments left) }
    requires star_row { IsRow star.now }
    requires star { in_order (pairs star.now) ≡ true }
    ensures { IfOk result (λ found. IfSome found (λ index. IsWritten (pairs star.now) (fragments left.entry) left.entry.index.now
        (fragments right.entry) right.entry.index.now out.new index.items)) }
{
    // Pictures that share a fragment of an operand mostly share one in the union too.
    if left.rows.rows() / 2 <= left.index.len() || right.rows.rows() / 2 <= right.index.len() {
        return Ok(None);
    }
    let count = pictures_together(left.index, right.index);
    let mut lists = Lists {
        index: Vec::with_capacity(alloc, count)?,
        joined: Vec::new(alloc),
    };
    let words = left
        .rows
        .words()
        .max(right.rows.words())
        .saturating_add(count.saturating_mul(2));
    begin(count, words, out)?;
    spread(alloc, left, right, star, &mut lists, out)?;
    if are_all_distinct(alloc, out, &lists.index, &lists.joined)? {
        return Ok(Some(lists.index));
    }
    Ok(None)
}
