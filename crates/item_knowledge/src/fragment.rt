// A lent fragment, and a cursor along its entries.
use crate::pair_cursor::PairCursor;
use photo_version::{Author, Vector};
use std::alloc::{AllocError, Global};
use std::marker::Model;

/// Some pictures and what is known of each of them, lent by a knowledge. The star stands for all pictures and lists none.
#[derive(Debug, Drop)]
pub struct Fragment<'a> {
    pictures: &'a [u64],
    // The entries that exceed the star's, two words each.
    row: &'a [u64],
    star: &'a [u64],
}

impl<'a> Model for Fragment<'a> {
    ghost use Rattle.item_knowledge.specs.Entries.{joined};
    ghost use Rattle.item_knowledge.specs.Fragments as spec;
    ghost use Rattle.item_knowledge.specs.Coding.{fragment_code};
    ghost use Rattle.item_knowledge.specs.Excess.{IsLent};
    ghost use Rattle.item_knowledge.specs.Rows.{pairs};

    ghost Value = { spec.Fragment };

    ghost coded = { fragment_code };

    ghost view = { λ f. record { pictures = f.pictures.now; entries = joined (pairs f.row.now) (pairs f.star.now) } };

    ghost invariant = { λ f. IsLent f.row.now f.star.now };
}

impl<'a> Fragment<'a> {
    ghost use Rattle.std.specs.Prelude.{◌≡◌, ◌<◌, true, length, get_or, IfOk};
    ghost use Rattle.photo_version.specs.Author.{author_word, author_of_word};
    ghost use Rattle.item_knowledge.specs.Entries.{joined};
    ghost use Rattle.item_knowledge.specs.Excess.{IsLent};
    ghost use Rattle.item_knowledge.specs.Fragments.{is_empty};
    ghost use Rattle.item_knowledge.specs.Rows.{pairs};
    ghost use Rattle.item_knowledge.specs.TableRows.{entries_of};

    pub(crate) fn new(pictures: &'a [u64], row: &'a [u64], star: &'a [u64]) -> Fragment<'a>
        requires { IsLent row.now star.now }
        ensures { result ≡ record { pictures = pictures.now; entries = joined (pairs row.now) (pairs star.now) } }
    {
        Fragment {
            pictures,
            row,
            star,
        }
    }

    /// Whether this is the star.
    #[tactic(auto, using(crate::proofs::PictureLemmas::empty_length))]
    pub fn star(&self) -> bool
        ensures { result ≡ is_empty self.now.pictures }
    {
        self.pictures.is_empty()
    }

    /// The numbers of its pictures, in rising order; none for the star.
    pub fn pictures(&self) -> &'a [u64]
        ensures { result.now ≡ self.now.pictures }
    {
        self.pictures
    }

    /// The number of entries, one for each author of whom a version is known. The call goes over all entries.
    #[tactic(auto, using(crate::proofs::RowLemmas::row_length, crate::proofs::JoinLemmas::joined_length))]
    pub fn len(&self) -> usize
        ensures { result ≡ length self.now.entries }
    {
        // `len` is called because the lengths of slices are bounded, so `count` can't overflow.
        let _lengths = (self.row.len(), self.star.len());
        let mut count: usize = 0;
        let mut entries = self.entries();
        while let Some(_) = entries.next_entry() {
            count += 1;
        }
        count
    }

    /// A cursor along its entries, from the first on. They are lent.
    pub fn entries(&self) -> FragmentEntries<'a>
        ensures { result ≡ self.now.entries }
    {
        FragmentEntries {
            row: self.row,
            star: self.star,
            cursor: PairCursor::new(),
        }
    }

    /// The author at place `i`, from 0, in order, and the number, above 0, up to which its versions are known. The call goes over
    /// all earlier entries; [`Fragment::entries`] goes over each entry once.
    #[tactic(auto, using(crate::proofs::JoinLemmas::entry_next))]
    pub fn entry(&self, i: usize) -> (Author, u32)
        requires { i < length self.now.entries }
        ensures author { result.0 ≡ author_of_word (get_or self.now.entries i (0, 0)).0 }
        ensures word { author_word result.0 ≡ (get_or self.now.entries i (0, 0)).0 }
        ensures number { result.1 ≡ (get_or self.now.entries i (0, 0)).1 }
        ensures above_zero { 0 < result.1 }
    {
        let mut entries = self.entries();
        for place in 0..i {
            let _before = entries.next_entry();
        }
        entries.next_entry().unwrap()
    }

    /// The vector of what is known of each of its pictures.
    pub(crate) fn vector(&self, alloc: Global) -> Result<Vector, AllocError>
        ensures { IfOk result (λ vector. entries_of vector ≡ self.now.entries) }
    {
        // A field is read because the proof then knows the invariant: the entries are a vector.
        let _star = self.star;
        let mut bounds = Vec::with_capacity(alloc, self.len())?;
        let mut entries = self.entries();
        while let Some(bound) = entries.next_entry() {
            bounds.push(bound)?;
        }
        Vector::from_entries(alloc, bounds)
    }
}

/// The entries of a fragment that are still to come, lent by a knowledge.
#[derive(Debug, Drop)]
pub struct FragmentEntries<'a> {
    row: &'a [u64],
    star: &'a [u64],
    cursor: PairCursor,
}

impl<'a> Model for FragmentEntries<'a> {
    ghost use Rattle.std.specs.Prelude.{◌≡◌, true, List};
    ghost use Rattle.std.specs.Coded.{coded×, coded_ℕ, coded_list};
    ghost use Rattle.item_knowledge.specs.Entries.{Entry, is_vector};
    ghost use Rattle.item_knowledge.specs.Excess.{IsLent};
    ghost use Rattle.item_knowledge.specs.PairCursor.{entries_left};

    ghost Value = { List Entry };

    ghost coded = { coded_list (coded× coded_ℕ coded_ℕ) };

    ghost view = { λ e. entries_left e.cursor e.row.now e.star.now };

    ghost invariant = { λ e. IsLent e.row.now e.star.now × (is_vector (entries_left e.cursor e.row.now e.star.now) ≡ true) };
}

impl<'a> FragmentEntries<'a> {
    ghost use Rattle.std.specs.Prelude.{◌≡◌, ◌<◌, ◌∷◌, [], None, IfSome};
    ghost use Rattle.photo_version.specs.Author.{author_word, author_of_word};

    /// The next author, in order, and the number, above 0, up to which its versions are known; none after the last author.
    #[tactic(auto, using(crate::proofs::JoinLemmas::vector_order))]
    pub fn next_entry(&mut self) -> Option<(Author, u32)>
        ensures next { IfSome result (λ e. self.old ≡ (author_word e.0, e.1) ∷ self.new) }
        ensures above_zero { IfSome result (λ e. 0 < e.1) }
        ensures none { result ≡ None → self.old ≡ [] }
    {
        let (word, number) = self.cursor.next_entry(self.row, self.star)?;
        Some((Author::of_word(word), number as u32))
    }
}
