// Consecutive rows in one block.
use crate::ends::push_moved;
use crate::raw_words::RawWords;
use std::alloc::{AllocError, Global};
use std::marker::Model;

/// Consecutive rows of words in one block, and capacity for more. It keeps the end of each row, where the next one begins. The
/// block never moves.
#[derive(Drop)]
pub(crate) struct RowBlock {
    words: RawWords,
    ends: Vec<u32>,
}

impl Model for RowBlock {
    ghost use Rattle.std.specs.Prelude.{◌-◌, length, vec_len, vec_capacity};
    ghost use Rattle.fragment_arena.specs.Rows.{Rows, rows_code, cut_at, AreEnds};

    ghost Value = { Rows };

    ghost coded = { rows_code };

    ghost view = { λ b.
        record { rows = cut_at b.words.words 0 b.ends.items; room = b.words.room; slots = vec_capacity b.ends - vec_len b.ends } };

    ghost invariant = { λ b. AreEnds 0 b.ends.items (length b.words.words) };
}

impl RowBlock {
    ghost use Rattle.std.specs.Prelude.{◌≡◌, ◌+◌, ◌-◌, ◌^◌, ◌<◌, ◌≤◌, [], ◌∷◌, ◌++◌, length, take, get_or};
    ghost use Rattle.std.specs.Prelude.{IfOk, OnOk, OnErr};
    ghost use Rattle.fragment_arena.specs.Arena.{run, words_in};

    /// A block without rows, with capacity for so many words and rows. Its only error is want of memory.
    pub(crate) fn make(alloc: Global, words: usize, rows: usize) -> Result<RowBlock, AllocError>
        ensures rows { IfOk result (λ b. b.rows ≡ []) }
        ensures room { IfOk result (λ b. b.room ≡ words) }
        ensures slots { IfOk result (λ b. rows ≤ b.slots) }
    {
        let ends = Vec::with_capacity(alloc, rows)?;
        let words = RawWords::make(alloc, words)?;
        Ok(RowBlock { words, ends })
    }

    /// The number of rows.
    pub(crate) fn rows(&self) -> usize
        ensures value { result ≡ length self.now.rows }
        ensures fits { result < 2 ^ 63 }
    {
        self.ends.len()
    }

    /// The number of words that can still be written.
    pub(crate) fn room(&self) -> usize
        ensures { result ≡ self.now.room }
    {
        self.words.room()
    }

    /// The number of words in the block, written or not.
    pub(crate) fn capacity(&self) -> usize {
        self.words.capacity()
    }

    /// Ensures capacity for so many more rows. A refusal changes nothing.
    pub(crate) fn make_slots(&mut self, rows: usize) -> Result<(), AllocError>
        ensures rows { self.new.rows ≡ self.old.rows }
        ensures room { self.new.room ≡ self.old.room }
        ensures slots { OnOk result (rows ≤ self.new.slots) }
        ensures refused { OnErr result (self.new.slots ≡ self.old.slots) }
    {
        self.ends.reserve(rows)
    }

    /// Appends a row. Takes no memory.
    pub(crate) fn place(&mut self, words: &[u64])
        requires room { length words.now ≤ self.old.room }
        requires slot { 0 < self.old.slots }
        ensures rows { self.new.rows ≡ self.old.rows ++ words.now ∷ [] }
        ensures room { self.new.room + length words.now ≡ self.old.room }
        ensures slots { self.new.slots + 1 ≡ self.old.slots }
    {
        self.words.write(words);
        // `capacity` is called because its contract says that the block has fewer than 2 ^ 32 words, so `end` fits in a `u32`.
        let _capacity = self.words.capacity();
        let end = self.words.len();
        self.ends.push_reserved(end as u32);
    }

    // Where a row begins, after the words of the rows before it; for the number of rows, where the last one ends.
    fn begin(&self, row: usize) -> usize
        requires { row ≤ length self.now.rows }
        ensures { result ≡ words_in (take row self.now.rows) }
    {
        if row == 0 {
            return 0;
        }
        self.ends[row - 1] as usize
    }

    /// The number of words in the rows from `from` up to `to`.
    pub(crate) fn words_of_run(&self, from: usize, to: usize) -> usize
        requires order { from ≤ to }
        requires there { to ≤ length self.now.rows }
        ensures { result ≡ words_in (run self.now.rows from to) }
    {
        self.begin(to) - self.begin(from)
    }

    /// Appends the rows from `from` up to `to` of another block, with one copy. Takes no memory.
    pub(crate) fn place_run(&mut self, other: &RowBlock, from: usize, to: usize)
        requires order { from ≤ to }
        requires there { to ≤ length other.now.rows }
        requires room { words_in (run other.now.rows from to) ≤ self.old.room }
        requires slots { to - from ≤ self.old.slots }
        ensures rows { self.new.rows ≡ self.old.rows ++ run other.now.rows from to }
        ensures room { self.new.room + words_in (run other.now.rows from to) ≡ self.old.room }
        ensures slots { self.old.slots ≤ self.new.slots + (to - from) }
    {
        let first = other.begin(from);
        let words = other.words_of_run(from, to);
        let at = self.words.len();
        self.words.write(other.words.slice(first, words));
        // `capacity` is called because its contract says that the block has fewer than 2 ^ 32 words, so the moved ends fit in a
        // `u32`.
        let _capacity = self.words.capacity();
        push_moved(&mut self.ends, &other.ends[from..to], first, at);
    }

    /// The words of a row.
    pub(crate) fn row(&self, row: usize) -> &[u64]
        requires { row < length self.now.rows }
        ensures { result.now ≡ get_or self.now.rows row [] }
    {
        let from = self.begin(row);
        let end = self.ends[row] as usize;
        self.words.slice(from, end - from)
    }

    /// A block with equal rows and no capacity for more words. Its only error is want of memory.
    pub(crate) fn copy(&self, alloc: Global) -> Result<RowBlock, AllocError>
        ensures { IfOk result (λ copy. copy.rows ≡ self.now.rows) }
    {
        let ends = self.ends.to_vec(alloc)?;
        let mut words = RawWords::make(alloc, self.words.len())?;
        words.write(self.words.slice(0, self.words.len()));
        Ok(RowBlock { words, ends })
    }

    /// Removes the rows, so that all is unwritten capacity.
    pub(crate) fn clear(&mut self)
        ensures { self.new.rows ≡ [] }
    {
        self.words.clear();
        self.ends.clear();
    }
}
