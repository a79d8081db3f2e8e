// The type `FragmentArena` and its methods.
use crate::blocks;
use crate::row::Row;
use crate::row_block::RowBlock;
use std::alloc::{AllocError, Global};
use std::fmt;
use std::marker::Model;

/// Rows of words. Rows are numbered from 0 and lie in blocks that never move while rows exist; each row lies in one block.
/// Capacity for rows and words can be reserved; placing rows in it takes no memory.
#[derive(Drop)]
pub struct FragmentArena {
    alloc: Global,
    blocks: Vec<RowBlock>,
    count: usize,
    reserved_words: usize,
    reserved_rows: usize,
}

impl Model for FragmentArena {
    ghost use Rattle.fragment_arena.specs.Arena.{Arena, arena_code};
    ghost use Rattle.fragment_arena.specs.Rows.{rows_of, IsArena};

    ghost Value = { Arena };

    ghost coded = { arena_code };

    ghost view = { λ a.
        record { rows = rows_of a.blocks.items; reserved_words = a.reserved_words; reserved_rows = a.reserved_rows } };

    ghost invariant = { λ a. IsArena a.blocks.items a.count a.reserved_words a.reserved_rows };
}

impl FragmentArena {
    ghost use Rattle.std.specs.Prelude.{◌≡◌, ◌+◌, ◌-◌, ◌^◌, ◌<◌, ◌≤◌, ◌&&◌, nat_le, nat_lt, [], ◌∷◌, ◌++◌};
    ghost use Rattle.std.specs.Prelude.{max, length, get_or, IfOk, IfSome, OnOk, OnErr};
    ghost use Rattle.fragment_arena.specs.Arena.{arena, run, words_in};

    /// An arena without rows and without reserved capacity. Takes no memory.
    pub fn new(alloc: Global) -> FragmentArena
        ensures { result ≡ arena [] 0 0 }
    {
        FragmentArena {
            alloc,
            blocks: Vec::new(alloc),
            count: 0,
            reserved_words: 0,
            reserved_rows: 0,
        }
    }

    /// Reserves capacity for at least so many words and so many rows. A refusal changes nothing. 2^32 words (32 GiB) or more
    /// are refused as if there were no memory for them.
    pub fn reserve(&mut self, words: usize, rows: usize) -> Result<(), AllocError>
        ensures reserved { OnOk result
            (self.new ≡ arena self.old.rows (max self.old.reserved_words words) (max self.old.reserved_rows rows)) }
        ensures refused { OnErr result (self.new ≡ self.old) }
    {
        let words = self.reserved_words.max(words);
        let rows = self.reserved_rows.max(rows);
        blocks::make_room(self.alloc, &mut self.blocks, self.count, words, rows)?;
        self.reserved_words = words;
        self.reserved_rows = rows;
        Ok(())
    }

    /// Appends a row and returns its place; no capacity stays reserved. A refusal changes nothing. A row of 2^32 words (32 GiB)
    /// or more is refused as if there were no memory for it.
    pub fn place(&mut self, words: &[u64]) -> Result<Row, AllocError>
        ensures row { IfOk result (λ row. row ≡ length self.old.rows) }
        ensures placed { OnOk result (self.new ≡ arena (self.old.rows ++ words.now ∷ []) 0 0) }
        ensures refused { OnErr result (self.new ≡ self.old) }
    {
        blocks::make_room(self.alloc, &mut self.blocks, self.count, words.len(), 1)?;
        self.reserved_words = words.len();
        self.reserved_rows = 1;
        Ok(self.place_reserved(words))
    }

    /// Whether a row of so many words fits in the reserved capacity.
    pub fn has_reserved(&self, words: usize) -> bool
        ensures { result ≡ (nat_le words self.now.reserved_words && nat_lt 0 self.now.reserved_rows) }
    {
        words <= self.reserved_words && self.reserved_rows > 0
    }

    /// Whether two rows, one of a single word and one of so many words, fit in the reserved capacity.
    pub fn has_reserved_pair(&self, words: usize) -> bool
        ensures { result ≡ (nat_lt words self.now.reserved_words && nat_lt 1 self.now.reserved_rows) }
    {
        words < self.reserved_words && self.reserved_rows > 1
    }

    /// Appends a row in reserved capacity and returns its place. Takes no memory.
    pub fn place_reserved(&mut self, words: &[u64]) -> Row
        requires words { length words.now ≤ self.old.reserved_words }
        requires row { 0 < self.old.reserved_rows }
        ensures row { result ≡ length self.old.rows }
        ensures rows { self.new.rows ≡ self.old.rows ++ words.now ∷ [] }
        ensures words { self.new.reserved_words + length words.now ≡ self.old.reserved_words }
        ensures slots { self.new.reserved_rows + 1 ≡ self.old.reserved_rows }
    {
        self.reserved_words -= words.len();
        self.reserved_rows -= 1;
        let place = self.count;
        let last = self.blocks.len() - 1;
        self.blocks[last].place(words);
        self.count += 1;
        Row::at(place)
    }

    /// Appends two rows in reserved capacity, the first of a single word, and returns the second one's place. Takes no memory.
    pub fn place_reserved_pair(&mut self, word: u64, words: &[u64]) -> Row
        requires words { length words.now + 1 ≤ self.old.reserved_words }
        requires slots { 2 ≤ self.old.reserved_rows }
        ensures row { result ≡ length self.old.rows + 1 }
        ensures rows { self.new.rows ≡ (self.old.rows ++ (word ∷ []) ∷ []) ++ words.now ∷ [] }
        ensures words { self.new.reserved_words + (length words.now + 1) ≡ self.old.reserved_words }
        ensures slots { self.new.reserved_rows + 2 ≡ self.old.reserved_rows }
    {
        self.place_reserved(&[word]);
        self.place_reserved(words)
    }

    /// Appends the rows from `from` up to `to` of another arena, in reserved capacity. Takes no memory.
    pub fn place_run(&mut self, other: &FragmentArena, from: usize, to: usize)
        requires order { from ≤ to }
        requires there { to ≤ length other.now.rows }
        requires words { words_in (run other.now.rows from to) ≤ self.old.reserved_words }
        requires slots { to - from ≤ self.old.reserved_rows }
        ensures rows { self.new.rows ≡ self.old.rows ++ run other.now.rows from to }
        ensures words { self.new.reserved_words + words_in (run other.now.rows from to) ≡ self.old.reserved_words }
        ensures slots { self.new.reserved_rows + (to - from) ≡ self.old.reserved_rows }
    {
        let mut place = from;
        while place < to {
            place = self.place_stretch(other, place, to);
        }
    }

    // Appends the rows from `from` on, up to `to`, that lie in one block, with one copy. Returns the place after the last of
    // them.
    fn place_stretch(&mut self, other: &FragmentArena, from: usize, to: usize) -> usize
        requires order { from < to }
        requires there { to ≤ length other.now.rows }
        requires words { words_in (run other.now.rows from to) ≤ self.old.reserved_words }
        requires slots { to - from ≤ self.old.reserved_rows }
        ensures further { from < result }
        ensures there { result ≤ to }
        ensures rows { self.new.rows ≡ self.old.rows ++ run other.now.rows from result }
        ensures words { self.new.reserved_words + words_in (run other.now.rows from result) ≡ self.old.reserved_words }
        ensures slots { self.new.reserved_rows + (result - from) ≡ self.old.reserved_rows }
    {
        let (block, first, end) = blocks::stretch(&other.blocks, from, to);
        let other = &other.blocks[block];
        self.reserved_words -= other.words_of_run(first, end);
        self.reserved_rows -= end - first;
        self.count += end - first;
        let last = self.blocks.len() - 1;
        self.blocks[last].place_run(other, first, end);
        from + (end - first)
    }

    /// The number of words in the rows from `from` up to `to`; `None` if it exceeds `usize`.
    pub fn words_of_run(&self, from: usize, to: usize) -> Option<usize>
        requires order { from ≤ to }
        requires there { to ≤ length self.now.rows }
        ensures { IfSome result (λ words. words ≡ words_in (run self.now.rows from to)) }
    {
        let mut words: usize = 0;
        let mut place = from;
        while place < to {
            let (block, first, end) = blocks::stretch(&self.blocks, place, to);
            words = words.checked_add(self.blocks[block].words_of_run(first, end))?;
            place += end - first;
        }
        Some(words)
    }

    /// The words of a row.
    pub fn row(&self, row: Row) -> &[u64]
        requires { row < length self.now.rows }
        ensures { result.now ≡ get_or self.now.rows row [] }
    {
        let (block, row) = blocks::find(&self.blocks, row.place());
        self.blocks[block].row(row)
    }

    /// The number of rows.
    pub fn rows(&self) -> usize
        ensures value { result ≡ length self.now.rows }
        ensures fits { result < 2 ^ 63 }
    {
        self.count
    }

    /// An arena with equal rows and without reserved capacity. Its only error is want of memory.
    pub fn try_clone(&self) -> Result<FragmentArena, AllocError>
        ensures { IfOk result (λ copy. copy ≡ arena self.now.rows 0 0) }
    {
        let blocks = blocks::copies_of(self.alloc, &self.blocks)?;
        Ok(FragmentArena {
            alloc: self.alloc,
            blocks,
            count: self.count,
            reserved_words: 0,
            reserved_rows: 0,
        })
    }

    /// The number of blocks, and the capacity of the last one in words, written or not. Contracts don't see the memory that
    /// rows take.
    pub fn memory(&self) -> (usize, usize) {
        match self.blocks.last() {
            Some(last) => (self.blocks.len(), last.capacity()),
            None => (0, 0),
        }
    }

    /// Removes all rows and reservations.
    pub fn clear(&mut self)
        ensures { self.new ≡ arena [] 0 0 }
    {
        // (the largest block stays for later rows)
        self.count = 0;
        blocks::clear(&mut self.blocks);
        self.reserved_words = 0;
        self.reserved_rows = 0;
    }
}

impl fmt::Debug for FragmentArena {
    fn fmt<W: fmt::Write>(&self, f: &mut fmt::Formatter<W>) -> fmt::Result {
        f.write_str("FragmentArena")
    }
}
