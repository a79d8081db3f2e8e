// A cache of versions that are known, by device and number.
ghost use Rattle.std.specs.Prelude.{◌≡◌, ◌++◌, ◌-◌, ◌<◌, ◌≤◌, true, length, replicate, List, IfSome};
ghost use Rattle.item_knowledge.specs.Fragments.{Fragment, knows};
ghost use Rattle.photo_device.specs.Cached.{AreKnown, IsSmall, author_of_row};

use photo_record::PicNo;
use photo_version::{Author, Version};
use std::alloc::Global;

// Stands at a place where no version is cached. No picture has this number.
const NOTHING: u32 = 0;

// Versions of this number and above are never cached, so a row has at most 1,250,030 places, in 5 MiB.
const MOST: u32 = 1_000_000;

// How many devices are cached, and how many epochs of each, so the list of rows takes at most 200 KiB.
const DEVICES: usize = 256;

const EPOCHS: usize = 32;

/// Versions that were found to be known or were taken, with their pictures. The cache is there for speed alone: a look-up takes
/// a few steps, while a knowledge is searched.
///
/// Each device has a row for each of its epochs. A row has a place for each version that the device made in that epoch, by its
/// number: the picture, or 0 where the version isn't cached. Versions of late epochs and great numbers are never cached.
#[derive(Debug, Drop)]
pub(crate) struct KnownCache {
    rows: Vec<Vec<u32>>,
    alloc: Global,
}

impl KnownCache {
    ghost use Rattle.std.specs.Prelude.{[]};

    /// An empty cache. Takes no memory.
    pub fn new(alloc: Global) -> KnownCache
        ensures { result.rows.items ≡ [] }
    {
        KnownCache {
            rows: Vec::new(alloc),
            alloc,
        }
    }

    /// Empties the cache. Takes no memory.
    pub fn clear(&mut self)
        ensures { self.new.rows.items ≡ [] }
    {
        self.rows.clear();
    }

    /// Whether that version of that picture is cached. Takes no memory.
    #[tactic(auto, using(crate::proofs::CacheLemmas::known_here))]
    pub fn has(&self, picture: PicNo, version: Version) -> bool
        ensures { result ≡ true → (known : List Fragment) → AreKnown known self.now.rows.items
            → knows known picture version ≡ true }
    {
        let Some(place) = row_of(version.author()) else {
            return false;
        };
        if place >= self.rows.len() {
            return false;
        }
        let row = &self.rows[place];
        let number = version.n() as usize;
        number < row.len() && row[number] == picture.value()
    }

    /// Caches a known version, if it has a place. Takes no memory.
    #[tactic(auto, using(crate::proofs::CacheLemmas::cached_more))]
    pub fn insert(&mut self, picture: PicNo, version: Version)
        ensures { (known : List Fragment) → knows known picture version ≡ true → AreKnown known self.old.rows.items
            → AreKnown known self.new.rows.items }
    {
        let Some(place) = row_of(version.author()) else {
            return;
        };
        if place >= self.rows.len() {
            return;
        }
        let row = &mut self.rows[place];
        let number = version.n() as usize;
        if number < row.len() {
            row[number] = picture.value();
        }
    }

    /// Reserves places for the author's versions up to this one, and some beyond. Nothing is reserved if the author has
    /// no row, the number is too great, or memory is refused. A version without a place isn't cached.
    #[tactic(auto, using(std::proofs::lemmas::Grind::common_steps, crate::proofs::CacheLemmas::known_behind, crate::proofs::CacheLemmas::known_still, crate::proofs::CacheLemmas::small_behind, crate::proofs::CacheLemmas::small_still, crate::proofs::CacheLemmas::short_here))]
    pub fn reserve(&mut self, version: Version)
        ensures small { IsSmall self.old.rows.items → IsSmall self.new.rows.items }
        ensures known { (known : List Fragment) → AreKnown known self.old.rows.items → AreKnown known self.new.rows.items }
    {
        if version.n() >= MOST {
            return;
        }
        let Some(place) = row_of(version.author()) else {
            return;
        };
        while self.rows.len() <= place {
            let Ok(()) = self.rows.push(Vec::new(self.alloc)) else {
                return;
            };
        }
        if place < self.rows.len() {
            fill(&mut self.rows[place], version.n());
        }
    }
}

// The place of an author's row. Rows of later epochs stand behind those of earlier ones.
fn row_of(author: Author) -> Option<usize>
    ensures author { IfSome result (λ place. author_of_row place ≡ author) }
    ensures few { IfSome result (λ place. place < 8192) }
{
    let (device, epoch) = (usize::from(author.value()), author.epoch() as usize);
    if device >= DEVICES || epoch >= EPOCHS {
        return None;
    }
    Some(epoch * DEVICES + device)
}

// Makes a row reach beyond a place, if there is memory. The row grows by at least a quarter, so that it is seldom copied.
fn fill(row: &mut Vec<u32>, number: u32)
    ensures short { number < 1_000_000 → length row.old.items ≤ 1_250_030 → length row.new.items ≤ 1_250_030 }
    ensures zeros { row.new.items ≡ row.old.items ++ replicate (length row.new.items - length row.old.items) 0 }
{
    let number = number as usize;
    if number < row.len() {
        return;
    }
    let Ok(()) = row.resize(number + number / 4 + 32, NOTHING) else {
        return;
    };
}
