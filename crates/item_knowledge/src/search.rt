// A binary search, for a picture in an index and for an author in a row.
ghost use Rattle.std.specs.Prelude.{◌≡◌, ◌<◌, true, length, get_or};
ghost use Rattle.item_knowledge.specs.Tables.{in_order, at};
ghost use Rattle.item_knowledge.specs.Entries.{bound};
ghost use Rattle.item_knowledge.specs.Rows.{pairs, IsRow, IsPlaceOf};
ghost use Rattle.item_knowledge.specs.Searching.{pairs_in, key_limit, IsWhole, IsUpTo, IsBetween};

use crate::index::IndexEntry;

// So many pairs are walked before a search goes on by halves.
const NEAR: usize = 8;

/// A lent list of pairs, sorted by key: the pictures of an index with the numbers of their fragments, or the authors of a row with
/// their bounds.
#[derive(Clone, Copy)]
pub(crate) enum SortedPairs<'a> {
    Index(&'a [IndexEntry]),
    Row(&'a [u64]),
}

/// The number of entries of a row.
#[tactic(auto, using(crate::proofs::RowLemmas::row_length))]
pub(crate) fn entry_count(row: &[u64]) -> usize
    requires { IsRow row.now }
    ensures { result ≡ length (pairs row.now) }
{
    row.len() / 2
}

/// The entry at place `i` of a row: the author's word and the bound.
#[tactic(auto, using(crate::proofs::RowLemmas::row_length, crate::proofs::RowLemmas::row_entry))]
pub(crate) fn entry_at(row: &[u64], i: usize) -> (u64, u64)
    requires row { IsRow row.now }
    requires place { i < length (pairs row.now) }
    ensures { result ≡ get_or (pairs row.now) i (0, 0) }
{
    // `len` is called because the length of a slice is bounded, so `2 * i` can't overflow.
    let _count = row.len();
    (row[2 * i], row[2 * i + 1])
}

/// The number of pairs.
#[inline(always)]
pub(crate) fn pair_count(list: SortedPairs<'_>) -> usize
    requires { IsWhole list }
    ensures { result ≡ length (pairs_in list.entry) }
{
    match list {
        SortedPairs::Index(index) => index.len(),
        SortedPairs::Row(row) => entry_count(row),
    }
}

/// The pair at place `i`.
#[inline(always)]
pub(crate) fn pair_at(list: SortedPairs<'_>, i: usize) -> (u64, u64)
    requires whole { IsWhole list }
    requires place { i < length (pairs_in list) }
    ensures pair { result ≡ get_or (pairs_in list.entry) i (0, 0) }
    ensures limit { result.0 < key_limit list.entry }
{
    match list {
        SortedPairs::Index(index) => {
            let (picture, number) = index[i];
            (u64::from(picture), u64::from(number))
        }
        SortedPairs::Row(row) => entry_at(row, i),
    }
}

// The first place from `from` on whose key isn't smaller, or the list's end. It is searched for by halves.
fn place_from(list: SortedPairs<'_>, from: usize, key: u64) -> usize
    requires whole { IsWhole list }
    requires order { in_order (pairs_in list) ≡ true }
    requires from { IsUpTo key (pairs_in list) from }
    ensures { IsBetween key (pairs_in list.entry) result result }
{
    let mut low = from;
    let mut high = pair_count(list);
    while low < high {
        let middle = low + (high - low) / 2;
        let (found, _value) = pair_at(list, middle);
        if found < key {
            low = middle + 1;
            continue;
        }
        high = middle;
    }
    low
}

/// The first place from `from` on whose key isn't smaller, or the list's end. It is mostly near, so a few pairs are walked before
/// the search goes on by halves.
pub(crate) fn place_near(list: SortedPairs<'_>, from: usize, key: u64) -> usize
    requires whole { IsWhole list }
    requires order { in_order (pairs_in list) ≡ true }
    requires from { IsUpTo key (pairs_in list) from }
    ensures { IsBetween key (pairs_in list.entry) result result }
{
    let end = pair_count(list).min(from.saturating_add(NEAR));
    let mut place = from;
    while place < end {
        let (found, _value) = pair_at(list, place);
        if found >= key {
            return place;
        }
        place += 1;
    }
    place_from(list, place, key)
}

/// The value beside a key, if `place` is the first whose key isn't smaller; 0 where the list hasn't got the key.
#[inline(always)]
pub(crate) fn value_at(list: SortedPairs<'_>, place: usize, key: u64) -> u64
    requires whole { IsWhole list }
    requires order { in_order (pairs_in list) ≡ true }
    requires place { IsBetween key (pairs_in list) place place }
    ensures { result ≡ at 0 (pairs_in list.entry) key }
{
    if place >= pair_count(list) {
        return 0;
    }
    let (found, value) = pair_at(list, place);
    if found == key { value } else { 0 }
}

// The value beside a key, 0 where the list hasn't got the key.
#[inline(always)]
fn value_of(list: SortedPairs<'_>, key: u64) -> u64
    requires whole { IsWhole list }
    requires order { in_order (pairs_in list) ≡ true }
    ensures { result ≡ at 0 (pairs_in list.entry) key }
{
    value_at(list, place_from(list, 0, key), key)
}

/// The number of the fragment to which an index leads from a picture, 0 for the star.
#[inline(always)]
pub(crate) fn number_of(index: &[IndexEntry], picture: u32) -> usize
    requires { in_order index.now ≡ true }
    ensures { result ≡ at 0 index.now picture }
{
    value_of(SortedPairs::Index(index), u64::from(picture)) as usize
}

/// The bound of an author in a row of sorted entries, 0 where it has none.
#[inline(always)]
pub(crate) fn bound_of(row: &[u64], author: u64) -> u64
    requires row { IsRow row.now }
    requires order { in_order (pairs row.now) ≡ true }
    ensures { result ≡ bound (pairs row.now) author }
{
    value_of(SortedPairs::Row(row), author)
}

/// The place of an author's entry in a row of sorted entries that has one.
pub(crate) fn entry_place(row: &[u64], author: u64) -> usize
    requires row { IsRow row.now }
    requires order { in_order (pairs row.now) ≡ true }
    ensures { 0 < bound (pairs row.now) author → IsPlaceOf (pairs row.now) result author }
{
    place_from(SortedPairs::Row(row), 0, author)
}
