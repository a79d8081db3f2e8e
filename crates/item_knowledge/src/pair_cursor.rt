// A cursor along two sorted lists of pairs at once: along two indexes, or two rows of entries.
ghost use Rattle.item_knowledge.specs.PairCursor as spec;

use crate::operand::Operand;
use crate::search::{SortedPairs, pair_at, pair_count};

/// A cursor along two sorted lists of pairs at once: the place of the next pair in each.
#[derive(Debug, Clone, Copy)]
pub(crate) struct PairCursor {
    pub left: usize,
    pub right: usize,
}

impl PairCursor {
    ghost use Rattle.std.specs.Prelude.{◌≡◌, ◌<◌, ◌∷◌, [], None, IfSome, true, max, length};
    ghost use Rattle.item_knowledge.specs.Operand.{fragments};
    ghost use Rattle.item_knowledge.specs.Rows.{pairs, IsRow};
    ghost use Rattle.item_knowledge.specs.Searching.{pairs_in, key_limit, IsWhole};
    ghost use Rattle.item_knowledge.specs.Tables.{in_order};

    /// A cursor at the first pairs of both.
    pub(crate) fn new() -> PairCursor
        ensures left { result.left ≡ 0 }
        ensures right { result.right ≡ 0 }
    {
        PairCursor { left: 0, right: 0 }
    }

    // The next key of either list, and the values beside it in both, 0 where a list hasn't got it.
    #[tactic(auto, using(crate::proofs::SearchLemmas::next_left, crate::proofs::SearchLemmas::next_right, crate::proofs::SearchLemmas::next_both))]
    #[inline(always)]
    fn next(&mut self, xs: SortedPairs<'_>, ys: SortedPairs<'_>) -> Option<(u64, (u64, u64))>
        requires left_whole { IsWhole xs }
        requires right_whole { IsWhole ys }
        requires left { in_order (pairs_in xs) ≡ true }
        requires right { in_order (pairs_in ys) ≡ true }
        ensures next { IfSome result (λ r. spec.left_of self.old (pairs_in xs.entry) (pairs_in ys.entry)
            ≡ r ∷ spec.left_of self.new (pairs_in xs.entry) (pairs_in ys.entry)) }
        ensures limit { IfSome result (λ r. r.0 < max (key_limit xs.entry) (key_limit ys.entry)) }
        ensures further { IfSome result (λ _. spec.to_come self.new (pairs_in xs.entry) (pairs_in ys.entry)
            < spec.to_come self.old (pairs_in xs.entry) (pairs_in ys.entry)) }
        ensures none { result ≡ None → spec.left_of self.old (pairs_in xs.entry) (pairs_in ys.entry) ≡ [] }
        ensures over { result ≡ None → self.new ≡ self.old }
    {
        if self.left >= pair_count(xs) {
            if self.right >= pair_count(ys) {
                return None;
            }
            let y = pair_at(ys, self.right);
            self.right += 1;
            return Some((y.0, (0, y.1)));
        }
        let x = pair_at(xs, self.left);
        if self.right >= pair_count(ys) {
            self.left += 1;
            return Some((x.0, (x.1, 0)));
        }
        let y = pair_at(ys, self.right);
        if x.0 < y.0 {
            self.left += 1;
            return Some((x.0, (x.1, 0)));
        }
        self.right += 1;
        if y.0 < x.0 {
            return Some((y.0, (0, y.1)));
        }
        self.left += 1;
        Some((x.0, (x.1, y.1)))
    }

    /// The next picture that either operand's index names, and the numbers of its fragments in both operands, 0 for the star.
    #[tactic(auto, using(crate::proofs::CursorLemmas::left_number, crate::proofs::CursorLemmas::right_number))]
    #[inline(always)]
    pub(crate) fn next_picture(
        &mut self,
        left: Operand<'_>,
        right: Operand<'_>,
    ) -> Option<(u32, (usize, usize))>
        ensures next { IfSome result (λ r. spec.left_of self.old left.entry.index.now right.entry.index.now
            ≡ r ∷ spec.left_of self.new left.entry.index.now right.entry.index.now) }
        ensures left { IfSome result (λ r. r.1.0 < length (fragments left.entry)) }
        ensures right { IfSome result (λ r. r.1.1 < length (fragments right.entry)) }
        ensures further { IfSome result (λ _. spec.to_come self.new left.entry.index.now right.entry.index.now
            < spec.to_come self.old left.entry.index.now right.entry.index.now) }
        ensures none { result ≡ None → spec.left_of self.old left.entry.index.now right.entry.index.now ≡ [] }
    {
        let (picture, (a, b)) = self.next(
            SortedPairs::Index(left.index),
            SortedPairs::Index(right.index),
        )?;
        Some((picture as u32, (a as usize, b as usize)))
    }

    /// The next entry of the join of two rows: an author of either row, and the greater of its bounds.
    #[tactic(auto, using(crate::proofs::CursorLemmas::next_joined, crate::proofs::CursorLemmas::none_joined))]
    #[inline(always)]
    pub(crate) fn next_entry(&mut self, xs: &[u64], ys: &[u64]) -> Option<(u64, u64)>
        requires left_row { IsRow xs.now }
        requires right_row { IsRow ys.now }
        requires left { in_order (pairs xs.now) ≡ true }
        requires right { in_order (pairs ys.now) ≡ true }
        ensures next { IfSome result (λ e. spec.entries_left self.old xs.now ys.now ≡ e ∷ spec.entries_left self.new xs.now ys.now) }
        ensures further { IfSome result (λ _. spec.to_come self.new (pairs xs.now) (pairs ys.now)
            < spec.to_come self.old (pairs xs.now) (pairs ys.now)) }
        ensures none { result ≡ None → spec.entries_left self.old xs.now ys.now ≡ [] }
        ensures over { result ≡ None → self.new ≡ self.old }
    {
        let (author, (n, m)) = self.next(SortedPairs::Row(xs), SortedPairs::Row(ys))?;
        Some((author, n.max(m)))
    }
}
