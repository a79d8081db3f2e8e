// Rows of fragments in an arena.
use fragment_arena::{FragmentArena, Row};
use std::alloc::{AllocError, Global};
use std::marker::Model;

// The most words that are reserved ahead, 2 GiB. Rows beyond them get memory as they are placed.
const MOST_AHEAD: usize = 0x1000_0000;

// The step from a seed to the next one: an odd number, so that a seed comes back only after 2^64 steps.
const SEED_STEP: u64 = 11_400_714_819_323_198_485;

/// Rows of words in an arena, at places from 0 on.
#[derive(Debug, Drop)]
pub(crate) struct Rows {
    alloc: Global,
    arena: FragmentArena,
    // The number of words in all rows together. Only estimates of what to reserve depend on it.
    words: usize,
    // The seed of the hashes of these rows. Each union clears the rows that it writes, and `clear` changes the seed. So rows whose
    // hashes collide in one union mostly don't in another.
    seed: u64,
}

impl Model for Rows {
    ghost use Rattle.std.specs.Prelude.{ℕ, List};
    ghost use Rattle.std.specs.Coded.{coded_ℕ, coded_list};

    ghost Value = { List (List ℕ) };

    ghost coded = { coded_list (coded_list coded_ℕ) };

    ghost view = { λ r. r.arena.rows };
}

impl Rows {
    ghost use Rattle.fragment_arena.specs.Arena.{run};
    ghost use Rattle.std.specs.Prelude.{◌≡◌, ◌<◌, ◌≤◌, [], ◌∷◌, ◌++◌, length, get_or, OnOk, OnErr, IfOk};

    /// No rows. Takes no memory.
    pub(crate) fn new(alloc: Global) -> Rows
        ensures { result ≡ [] }
    {
        Rows {
            alloc,
            arena: FragmentArena::new(alloc),
            words: 0,
            seed: 0,
        }
    }

    /// Reserves memory for `count` more rows and for `words` more words, up to 2 GiB of these.
    pub(crate) fn reserve(&mut self, count: usize, words: usize) -> Result<(), AllocError>
        ensures { self.new ≡ self.old }
    {
        self.arena.reserve(words.min(MOST_AHEAD), count)?;
        Ok(())
    }

    /// The number of words in all rows together, or somewhat more.
    pub(crate) fn words(&self) -> usize {
        self.words
    }

    /// The seed of the hashes of these rows. Nothing but time depends on it.
    pub(crate) fn seed(&self) -> u64 {
        self.seed
    }

    /// Appends a row. A refusal changes nothing.
    pub(crate) fn place(&mut self, words: &[u64]) -> Result<(), AllocError>
        ensures placed { OnOk result (self.new ≡ self.old ++ words.now ∷ []) }
        ensures refused { OnErr result (self.new ≡ self.old) }
    {
        let _row = if self.arena.has_reserved(words.len()) {
            self.arena.place_reserved(words)
        } else {
            self.arena.place(words)?
        };
        self.words = self.words.saturating_add(words.len());
        Ok(())
    }

    /// Appends the two rows of a fragment.
    #[inline(always)]
    pub(crate) fn place_fragment(
        &mut self,
        pictures: &[u64],
        words: &[u64],
    ) -> Result<(), AllocError>
        ensures { OnOk result (self.new ≡ (self.old ++ pictures.now ∷ []) ++ words.now ∷ []) }
    {
        if pictures.len() == 1 && self.arena.has_reserved_pair(words.len()) {
            let _row = self.arena.place_reserved_pair(pictures[0], words);
            self.words = self.words.saturating_add(words.len()).saturating_add(1);
            return Ok(());
        }
        self.place(pictures)?;
        self.place(words)?;
        Ok(())
    }

    /// Appends a row of one word and others after it.
    pub(crate) fn place_first(&mut self, first: u64, others: &[u64]) -> Result<(), AllocError>
        ensures { OnOk result (self.new ≡ self.old ++ (first ∷ others.now) ∷ []) }
    {
        if others.is_empty() {
            return self.place(&[first]);
        }
        let mut row = Vec::with_capacity(self.alloc, others.len().saturating_add(1))?;
        row.push(first)?;
        row.extend_from_slice(others)?;
        self.place(&row)
    }

    /// Appends the other's rows from place `from` up to `to`, which is left out.
    #[inline(always)]
    pub(crate) fn place_run(
        &mut self,
        other: &Rows,
        from: usize,
        to: usize,
    ) -> Result<(), AllocError>
        requires order { from ≤ to }
        requires there { to ≤ length other.now }
        ensures { OnOk result (self.new ≡ self.old ++ run other.now from to) }
    {
        if from == to {
            return Ok(());
        }
        // More words than a `usize` can count can't be reserved.
        let Some(words) = other.arena.words_of_run(from, to) else {
            return Err(AllocError);
        };
        self.arena.reserve(words, to - from)?;
        self.arena.place_run(&other.arena, from, to);
        self.words = self.words.saturating_add(words);
        Ok(())
    }

    /// The row at a place.
    pub(crate) fn row(&self, place: usize) -> &[u64]
        requires { place < length self.now }
        ensures { result.now ≡ get_or self.now place [] }
    {
        self.arena.row(Row::at(place))
    }

    /// The number of rows.
    pub(crate) fn rows(&self) -> usize
        ensures { result ≡ length self.now }
    {
        self.arena.rows()
    }

    /// Removes all rows. The largest block stays for later rows, but no word of the old ones is kept.
    pub(crate) fn clear(&mut self)
        ensures { self.new ≡ [] }
    {
        self.arena.clear();
        self.words = 0;
        self.seed = self.seed.wrapping_add(SEED_STEP);
    }

    /// A copy.
    pub(crate) fn try_clone(&self) -> Result<Rows, AllocError>
        ensures { IfOk result (λ copy. copy ≡ self.now) }
    {
        let arena = self.arena.try_clone()?;
        Ok(Rows {
            alloc: self.alloc,
            arena,
            words: self.words,
            seed: self.seed,
        })
    }
}
