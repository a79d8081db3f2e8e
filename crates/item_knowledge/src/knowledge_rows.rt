// The rows of what is known: the star's entries once, and for each group the entries that exceed the star's.
ghost use Rattle.std.specs.Prelude.{◌≡◌, ℕ, ◌<◌, true, length};
ghost use Rattle.item_knowledge.specs.Fragments.{entries_at};
ghost use Rattle.item_knowledge.specs.Gathering.{IsOperand};
ghost use Rattle.item_knowledge.specs.Kept.{is_operand_within};
ghost use Rattle.item_knowledge.specs.Rows.{AreRows, fragments_of};
ghost use Rattle.item_knowledge.specs.Tables.{in_order};

use crate::Fragment;
use crate::index::IndexEntry;
use crate::join::join;
use crate::operand::Operand;
use crate::rows::Rows;
use crate::search::{
    SortedPairs, bound_of, entry_at, entry_count, entry_place, place_near, value_at,
};
use crate::union::{begin, entries, union};
use std::alloc::{AllocError, Global};
use std::marker::Model;

/// The rows of what is known. The star stands once, and the row of each other fragment has only the bounds above the star's. A row
/// with all bounds would be as long as there are authors, and each rise of the star would change it. Its value is the rows of whole
/// vectors.
#[derive(Debug, Drop)]
pub(crate) struct KnowledgeRows {
    // The star's entries, two words each.
    star: Vec<u64>,
    // The first fragment has no entries; each other one has the bounds above the star's.
    rows: Rows,
}

impl Model for KnowledgeRows {
    ghost use Rattle.std.specs.Prelude.{ℕ, List};
    ghost use Rattle.std.specs.Coded.{coded_ℕ, coded_list};
    ghost use Rattle.item_knowledge.specs.Excess.{shown, IsExcess};

    ghost Value = { List (List ℕ) };

    ghost coded = { coded_list (coded_list coded_ℕ) };

    ghost view = { λ r. shown r.star.items r.rows };

    ghost invariant = { λ r. IsExcess r.star.items r.rows };
}

impl KnowledgeRows {
    ghost use Rattle.std.specs.Prelude.{◌≡◌, ◌<◌, true, [], ◌∷◌, length, get_or, IfOk, OnOk};
    ghost use Rattle.std.specs.List.{list_all};
    ghost use Rattle.item_knowledge.specs.Tables.{in_order};
    ghost use Rattle.item_knowledge.specs.Entries.{bound, leq, is_vector};
    ghost use Rattle.item_knowledge.specs.Fragments.{entries_at, nothing, is_normal};
    ghost use Rattle.item_knowledge.specs.Gathering.{IsOperand, IsUnion};
    ghost use Rattle.item_knowledge.specs.Raising.{all_raised, IsWaiting};
    ghost use Rattle.item_knowledge.specs.Rows.{AreRows, IsRow, pairs, fragments_of, rows_of};

    /// No rows. Takes no memory.
    pub(crate) fn none(alloc: Global) -> KnowledgeRows
        ensures { result ≡ [] }
    {
        KnowledgeRows {
            star: Vec::new(alloc),
            rows: Rows::new(alloc),
        }
    }

    /// The rows of a star alone.
    pub(crate) fn of_star(alloc: Global, star: &[u64]) -> Result<KnowledgeRows, AllocError>
        requires row { IsRow star.now }
        requires vector { is_vector (pairs star.now) ≡ true }
        ensures { IfOk result (λ rows. rows ≡ [] ∷ star.now ∷ []) }
    {
        let star = star.to_vec(alloc)?;
        let mut rows = Rows::new(alloc);
        begin(0, 0, &mut rows)?;
        Ok(KnowledgeRows { star, rows })
    }

    /// The rows of fragments, the first of which is a star without entries.
    #[tactic(auto, using(crate::proofs::KnowledgeRowLemmas::plain_shown))]
    pub(crate) fn of_rows(alloc: Global, rows: Rows) -> Result<KnowledgeRows, AllocError>
        requires rows { AreRows rows }
        requires star { entries_at (fragments_of rows) 0 ≡ [] }
        requires vectors { list_all (λ f. is_vector f.entries) (fragments_of rows) ≡ true }
        ensures { IfOk result (λ live. live ≡ rows) }
    {
        Ok(KnowledgeRows {
            star: Vec::new(alloc),
            rows,
        })
    }

    /// The number of fragments, with the star.
    #[tactic(auto, using(crate::proofs::KnowledgeRowLemmas::shown_size))]
    pub(crate) fn len(&self) -> usize
        requires { AreRows self.now }
        ensures { result ≡ length (fragments_of self.now) }
    {
        self.rows.rows() / 2
    }

    /// The bound of an author in fragment number `k`, 0 where it has none.
    #[tactic(auto, using(crate::proofs::KnowledgeRowLemmas::shown_count, crate::proofs::JoinLemmas::vector_order))]
    #[inline(always)]
    pub(crate) fn bound(&self, k: usize, author: u64) -> u64
        requires rows { AreRows self.now }
        requires number { k < length (fragments_of self.now) }
        requires order { in_order (entries_at (fragments_of self.now) k) ≡ true }
        ensures { result ≡ bound (entries_at (fragments_of self.now) k) author }
    {
        let beyond = bound_of(entries(&self.rows, k), author);
        if beyond > 0 {
            return beyond;
        }
        bound_of(&self.star, author)
    }

    /// Fragment number `k`. It is lent, and nothing is copied.
    #[tactic(auto, using(crate::proofs::KnowledgeRowLemmas::shown_size, crate::proofs::KnowledgeRowLemmas::shown_count))]
    pub(crate) fn fragment(&self, k: usize) -> Fragment<'_>
        requires rows { AreRows self.now }
        requires number { k < length (fragments_of self.now) }
        requires vector { is_vector (entries_at (fragments_of self.now) k) ≡ true }
        ensures { result ≡ get_or (fragments_of self.now) k nothing }
    {
        // `rows` is called because it counts the rows in a `usize`, so `2 * k` can't overflow.
        let _count = self.rows.rows();
        Fragment::new(self.rows.row(2 * k), entries(&self.rows, k), &self.star)
    }

    // Whether each bound of a row is at most the bound of the same author in fragment number `k`.
    #[inline(always)]
    fn has_row(&self, k: usize, row: &[u64]) -> bool
        requires rows { AreRows self.now }
        requires number { k < length (fragments_of self.now) }
        requires order { in_order (entries_at (fragments_of self.now) k) ≡ true }
        requires row { IsRow row.now }
        ensures { result ≡ leq (pairs row.now) (entries_at (fragments_of self.now) k) }
    {
        for i in 0..entry_count(row) {
            let (author, n) = entry_at(row, i);
            if self.bound(k, author) < n {
                return false;
            }
        }
        true
    }

    /// Whether each bound of the star is at most the other star's bound of the same author.
    #[tactic(auto, using(crate::proofs::KnowledgeRowLemmas::shown_star))]
    pub(crate) fn is_star_leq(&self, others: &KnowledgeRows) -> bool
        requires rows { AreRows self.now }
        requires others { AreRows others.now }
        requires some { 0 < length (fragments_of self.now) }
        requires other { 0 < length (fragments_of others.now) }
        requires order { in_order (entries_at (fragments_of others.now) 0) ≡ true }
        ensures { result ≡ leq (entries_at (fragments_of self.now) 0) (entries_at (fragments_of others.now) 0) }
    {
        others.has_row(0, &self.star)
    }

    /// Whether each bound of fragment number `k` is at most the bound of the same author in the others' fragment number `l`. That
    /// fragment has all that the star here has.
    #[tactic(auto, using(crate::proofs::KnowledgeRowLemmas::shown_count, crate::proofs::KnowledgeRowLemmas::leq_beyond))]
    #[inline(always)]
    pub(crate) fn is_leq(&self, k: usize, others: &KnowledgeRows, l: usize) -> bool
        requires rows { AreRows self.now }
        requires others { AreRows others.now }
        requires number { k < length (fragments_of self.now) }
        requires other { l < length (fragments_of others.now) }
        requires order { in_order (entries_at (fragments_of others.now) l) ≡ true }
        requires star { leq (entries_at (fragments_of self.now) 0) (entries_at (fragments_of others.now) l) ≡ true }
        ensures { result ≡ leq (entries_at (fragments_of self.now) k) (entries_at (fragments_of others.now) l) }
    {
        others.has_row(l, entries(&self.rows, k))
    }

    /// Raises the author's bound to `n` in each fragment. The star has a bound of the author, and no fragment has a greater one. It
    /// takes no memory, and changes the star alone.
    #[tactic(auto, using(crate::proofs::JoinLemmas::vector_order))]
    pub(crate) fn raise(&mut self, author: u64, n: u64)
        requires rows { AreRows self.old }
        requires waiting { IsWaiting (author, n) (fragments_of self.old) }
        ensures { self.new ≡ rows_of (all_raised (author, n) (fragments_of self.old)) }
    {
        let place = entry_place(&self.star, author);
        self.star[2 * place + 1] = n;
    }

    /// Removes all rows.
    pub(crate) fn clear(&mut self)
        ensures { self.new ≡ [] }
    {
        // (the rows keep their largest block for later ones)
        self.star.clear();
        self.rows.clear();
    }

    /// Writes the normal form of the operands' union, and gives its index. An error leaves no rows.
    #[tactic(auto, using(crate::proofs::JoinLemmas::vector_order))]
    pub(crate) fn union(
        &self,
        alloc: Global,
        index: &[IndexEntry],
        others: &KnowledgeRows,
        others_index: &[IndexEntry],
        out: &mut KnowledgeRows,
    ) -> Result<Vec<IndexEntry>, AllocError>
        requires rows { AreRows self.now }
        requires others { AreRows others.now }
        requires left { IsOperand (fragments_of self.now) index.now }
        requires right { IsOperand (fragments_of others.now) others_index.now }
        requires normal { is_normal (fragments_of self.now) ≡ true }
        ensures rows { OnOk result (AreRows out.new) }
        ensures union { IfOk result (λ written. IsUnion (fragments_of self.now) index.now (fragments_of others.now) others_index.now
            (fragments_of out.new) written.items) }
    {
        out.clear();
        let mut star = Vec::new(alloc);
        join(&self.star, &others.star, &[], &mut star)?;
        let left = Operand {
            star: &self.star,
            rows: &self.rows,
            index,
        };
        let right = Operand {
            star: &others.star,
            rows: &others.rows,
            index: others_index,
        };
        match union(alloc, left, right, &star, &mut out.rows) {
            Ok(written) => {
                out.star = star;
                Ok(written)
            }
            Err(refused) => {
                out.rows.clear();
                Err(refused)
            }
        }
    }

    /// A copy.
    pub(crate) fn try_clone(&self, alloc: Global) -> Result<KnowledgeRows, AllocError>
        ensures { IfOk result (λ copy. copy ≡ self.now) }
    {
        let star = self.star.to_vec(alloc)?;
        let rows = self.rows.try_clone()?;
        Ok(KnowledgeRows { star, rows })
    }
}

/// Whether each vector of the first operand is at most the second's vector of the same picture. Takes no memory.
#[tactic(auto, using(crate::proofs::UnionLemmas::entries_order, crate::proofs::UnionLemmas::number_below))]
pub(crate) fn is_within(
    rows: &KnowledgeRows,
    index: &[IndexEntry],
    others: &KnowledgeRows,
    others_index: &[IndexEntry],
) -> bool
    requires rows { AreRows rows.now }
    requires others { AreRows others.now }
    requires left { IsOperand (fragments_of rows.now) index.now }
    requires right { IsOperand (fragments_of others.now) others_index.now }
    ensures { result ≡ is_operand_within (fragments_of rows.now) index.now (fragments_of others.now) others_index.now }
{
    if !rows.is_star_leq(others) {
        return false;
    }
    let numbers = SortedPairs::Index(others_index);
    let mut place = 0;
    for i in 0..index.len() {
        let (picture, own) = index[i];
        let number = own as usize;
        let key = u64::from(picture);
        place = place_near(numbers, place, key);
        let other = value_at(numbers, place, key) as usize;
        if !rows.is_leq(number, others, other) {
            return false;
        }
    }
    true
}
