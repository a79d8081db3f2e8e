// Authors: devices in their epochs.
ghost use Rattle.std.specs.Prelude.{Some};
ghost use Rattle.std.specs.Ordering.{nat_cmp, on, as_partial_cmp};
ghost use Rattle.std.specs.Cmp.{on_equiv, partial_equiv_from_equiv, partial_order_from_own_ties};
ghost use Rattle.std.specs.Cmp.Rules.{comparing, hashing};
ghost use Rattle.std.specs.Cmp as laws;
ghost use Rattle.std.specs.Hash as fed;
ghost use Rattle.std.proofs.Common.{rules};
ghost use Rattle.photo_version.specs.Author.{Author, same_author, author_word};

use std::cmp::Ordering;
use std::hash::{Hash, Hasher};
use std::marker::Model;

// The number of epochs that a device has.
const EPOCHS: u64 = 4_294_967_296;

/// Who made a version: a device in one of its epochs. Devices are numbered from 0 in order of declaration, epochs from 0.
/// Authors are ordered by device, then by epoch.
#[derive(Clone, Copy, Debug)]
pub struct Author {
    epoch: u32,
    // Below 65,536. The field is as wide as the epoch, so that the author's bytes in memory are its word.
    device: u32,
}

impl Model for Author {
    ghost use Rattle.std.specs.Prelude.{◌<◌};
    ghost use Rattle.photo_version.specs.Author as spec;
    ghost use Rattle.photo_version.specs.Words.{device_back, epoch_back};

    ghost Value = { spec.Author };

    ghost view = { λ a. spec.author_at a.device a.epoch };

    ghost invariant = { λ a. (a.device < 65536) × (a.epoch < 4294967296) };

    ghost inverse = { λ a. record { device = spec.device_of_author a; epoch = spec.epoch_of_author a } };

    ghost inverse_ok = { λ a h i. record { device = device_back a.device a.epoch h.1 i; epoch = epoch_back a.device a.epoch h.1 i } };
}

impl Author {
    ghost use Rattle.std.specs.Prelude.{◌≡◌, ◌<◌, true, SomeIff};
    ghost use Rattle.photo_version.specs.Author.{author, author_at, device_of_author, epoch_of_author, next_author, author_word, is_author_word, author_of_word};

    /// The device of that number in epoch 0.
    pub fn new(device: u16) -> Author
        ensures { result ≡ author device }
    {
        Author::at(device, 0)
    }

    /// The device of that number in that epoch.
    pub fn at(device: u16, epoch: u32) -> Author
        ensures { result ≡ author_at device epoch }
    {
        Author {
            epoch,
            device: u32::from(device),
        }
    }

    /// The device's number.
    pub fn value(&self) -> u16
        ensures { result ≡ device_of_author self.now }
    {
        self.device as u16
    }

    /// The device's epoch, from 0.
    pub fn epoch(&self) -> u32
        ensures { result ≡ epoch_of_author self.now }
    {
        self.epoch
    }

    /// The same device in its next epoch; `None` in the last epoch, 4,294,967,295.
    pub fn next(&self) -> Option<Author>
        ensures { SomeIff result (epoch_of_author self.now < 4294967295) (next_author self.now) }
    {
        let epoch = self.epoch.checked_add(1)?;
        Some(Author {
            epoch,
            device: self.device,
        })
    }

    /// The author as one number. Numbers are ordered as authors are, and differ where authors differ.
    pub fn word(&self) -> u64
        ensures value { result ≡ author_word self.now }
        ensures of_author { is_author_word result ≡ true }
    {
        u64::from(self.device) * EPOCHS + u64::from(self.epoch)
    }

    /// The author whose `word` this is.
    pub fn of_word(word: u64) -> Author
        requires { is_author_word word ≡ true }
        ensures { result ≡ author_of_word word }
    {
        Author {
            epoch: (word % EPOCHS) as u32,
            device: (word / EPOCHS) as u32,
        }
    }
}

impl PartialEq for Author {
    ghost eq = { same_author };

    ghost laws = { partial_equiv_from_equiv (on_equiv (λ (a : Author). author_word a) laws.nat_eq_equiv) };

    fn eq(&self, other: &Author) -> bool {
        self.word() == other.word()
    }
}

impl Eq for Author {
    ghost laws = { on_equiv (λ (a : Author). author_word a) laws.nat_eq_equiv };
}

impl Ord for Author {
    ghost cmp = { on author_word nat_cmp };

    ghost total = { Prim.search (comparing, rules) };

    ghost matches_partial_cmp = { Prim.search (comparing, rules) };

    ghost matches_eq = { Prim.search (comparing, rules) };

    fn cmp(&self, other: &Author) -> Ordering {
        self.word().cmp(&other.word())
    }
}

impl PartialOrd for Author {
    ghost partial_cmp = { as_partial_cmp (on author_word nat_cmp) };

    ghost laws = { partial_order_from_own_ties (Prim.search (comparing, rules))
        (Prim.search (comparing, rules)) };

    fn partial_cmp(&self, other: &Author) -> Option<Ordering> {
        Some(self.cmp(other))
    }
}

impl Hash for Author {
    ghost hash_input = { λ a. fed.u64 (author_word a) };

    ghost respects_eq = { Prim.search (hashing, rules) };

    fn hash<H: Hasher>(&self, state: &mut H) {
        self.word().hash(state);
    }
}
