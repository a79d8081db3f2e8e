// A hash index from a vector to its fragment.
ghost use Rattle.std.specs.Prelude.{◌≡◌, ℕ, ◌<◌, ◌∷◌, ◌++◌, List, [], length, get_or, Some, None, IfOk, OnOk};
ghost use Rattle.item_knowledge.specs.VectorIndex as spec;

use crate::index::to_u32;
use crate::rows::Rows;
use std::alloc::{AllocError, Global};

// The factor of a hash after each word. It spreads the word over the higher bits.
const MULTIPLIER: u64 = 11_400_714_819_323_198_485;

// The bits by which a hash is rotated before each word. This brings its high bits below the others.
const TURN: u32 = 23;

/// A hash index from vectors to fragments of some rows, which stand elsewhere. The vectors differ. Those in the same bucket are
/// chained, the latest first.
#[derive(Debug, Drop)]
pub(crate) struct VectorIndex {
    /// The seed of each hash. Only the buckets depend on it.
    pub(crate) seed: u64,
    /// For each bucket, one more than the place of its latest vector, 0 for none.
    pub(crate) heads: Vec<u32>,
    /// For each vector, one more than the place of the one before it in its bucket, 0 for none.
    pub(crate) before: Vec<u32>,
    /// For each vector, the number of its fragment.
    pub(crate) numbers: Vec<u32>,
}

// The hash after one more word.
pub(crate) fn mixed(hash: u64, word: u64) -> u64
    ensures { result ≡ spec.mixed hash word }
{
    (hash.rotate_left(TURN) ^ word).wrapping_mul(MULTIPLIER)
}

// The hash of a row, from a seed on.
fn hash_of(seed: u64, row: &[u64]) -> u64
    ensures { result ≡ spec.hashed (spec.mixed seed 0) row.now }
{
    let mut hash = mixed(seed, 0);
    for word in row {
        hash = mixed(hash, *word);
    }
    hash
}

// The bucket of a hash, among `count`: hashes, in rising order, are divided evenly among the buckets.
pub(crate) fn share(hash: u64, count: usize) -> usize
    ensures { result ≡ spec.share count hash }
{
    ((hash as u128 * count as u128) >> 64) as usize
}

impl VectorIndex {
    /// An index without fragments, with so many buckets and memory for `count` fragments.
    pub(crate) fn new(
        alloc: Global,
        count: usize,
        buckets: usize,
        seed: u64,
    ) -> Result<VectorIndex, AllocError>
        ensures none { IfOk result (λ by_vector. by_vector.numbers.items ≡ []) }
        ensures found { IfOk result (λ by_vector. (rows : List (List ℕ)) → spec.IsIndexed by_vector rows) }
    {
        Ok(VectorIndex {
            seed,
            heads: vec![in alloc; 0; buckets.max(1)]?,
            before: Vec::with_capacity(alloc, count)?,
            numbers: Vec::with_capacity(alloc, count)?,
        })
    }

    /// The number of vectors.
    pub(crate) fn len(&self) -> usize
        ensures { result ≡ length self.now.numbers.items }
    {
        self.numbers.len()
    }

    /// The vector at a place.
    pub(crate) fn vector<'a>(&self, rows: &'a Rows, k: usize) -> &'a [u64]
        requires found { spec.IsIndexed self.now rows.now }
        requires place { k < length self.now.numbers.items }
        ensures { result.now ≡ get_or (spec.vectors_at rows.now self.now.numbers.items) k [] }
    {
        let number = self.numbers[k] as usize;
        rows.row(2 * number + 1)
    }

    // The bucket of a vector.
    fn bucket(&self, row: &[u64]) -> usize
        ensures { result ≡ spec.bucket self.now.seed (length self.now.heads.items) row.now }
    {
        share(hash_of(self.seed, row), self.heads.len())
    }

    /// The bucket of a vector, and the vector's place if the index has it.
    #[inline(always)]
    pub(crate) fn find(&self, rows: &Rows, row: &[u64]) -> (usize, Option<usize>)
        requires { spec.IsIndexed self.now rows.now }
        ensures bucket { result.0 ≡ spec.bucket self.now.seed (length self.now.heads.items) row.now }
        ensures inside { result.0 < length self.now.heads.items }
        ensures below { (k : ℕ) → result.1 ≡ Some k → k < length self.now.numbers.items }
        ensures found { (k : ℕ) → result.1 ≡ Some k → get_or (spec.vectors_at rows.now self.now.numbers.items) k [] ≡ row.now }
        ensures absent { result.1 ≡ None → spec.is_new (spec.vectors_at rows.now self.now.numbers.items) row.now }
    {
        let bucket = self.bucket(row);
        let mut place = self.heads[bucket] as usize;
        while place > 0 {
            let k = place - 1;
            if self.vector(rows, k) == row {
                return (bucket, Some(k));
            }
            place = self.before[k] as usize;
        }
        (bucket, None)
    }

    /// Adds a fragment. Its vector belongs in this bucket.
    #[inline(always)]
    pub(crate) fn push(&mut self, bucket: usize, number: usize) -> Result<(), AllocError>
        requires { bucket < length self.old.heads.items }
        ensures numbers { OnOk result (self.new.numbers.items ≡ self.old.numbers.items ++ number ∷ []) }
        ensures found { OnOk result ((rows : List (List ℕ)) → spec.CanIndex self.old rows bucket number → spec.IsIndexed self.new rows) }
    {
        let next = to_u32(self.before.len() + 1)?;
        let kept = to_u32(number)?;
        self.before.push(self.heads[bucket])?;
        self.numbers.push(kept)?;
        self.heads[bucket] = next;
        Ok(())
    }
}
