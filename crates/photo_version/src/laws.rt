//! Laws of authors, versions and vectors. Each function's contract states a law; its body is empty.
ghost use Rattle.std.specs.Prelude.{◌≡◌, ℕ, true, ◌+◌, ◌<◌, ◌==◌, ◌&&◌, ◌||◌, ◌↔◌, nat_lt, List};
ghost use Rattle.std.specs.Ordering.{is_lt};
ghost use Rattle.photo_version.specs.Author.{Author, author_at, device_of_author, epoch_of_author, same_author, same_device, author_before, next_author, author_word, author_of_word};
ghost use Rattle.photo_version.specs.Version.{Version, same_version, version_before};
ghost use Rattle.photo_version.specs.Vector.{Bound, denotes, is_vector};
ghost use Rattle.photo_version.specs.Examples.{TheEpochs, TheTexts, TheVectors};

/// `==` and the order of authors are as defined.
pub fn authors_compare()
    ensures equality { (a b : Author) → ⟦<crate::Author as PartialEq>⟧.eq a b ≡ same_author a b }
    ensures order { (a b : Author) → is_lt (⟦<crate::Author as Ord>⟧.cmp a b) ≡ author_before a b }
    ensures same { (a b : Author) → (same_author a b ≡ true) ↔ (a ≡ b) }
{}

/// An author is a device in an epoch. Authors are ordered by device, then by epoch.
pub fn authors_are_devices_in_epochs()
    ensures device { (device epoch : ℕ) → epoch < 4294967296 → device_of_author (author_at device epoch) ≡ device }
    ensures epoch { (device epoch : ℕ) → epoch < 4294967296 → epoch_of_author (author_at device epoch) ≡ epoch }
    ensures back { (a : Author) → author_at (device_of_author a) (epoch_of_author a) ≡ a }
    ensures order { (a b : Author) → author_before a b
        ≡ (nat_lt (device_of_author a) (device_of_author b) || (same_device a b && nat_lt (epoch_of_author a) (epoch_of_author b))) }
    ensures next { (a : Author) → epoch_of_author a < 4294967295
        → next_author a ≡ author_at (device_of_author a) (epoch_of_author a + 1) }
{}

/// `==` and the order of versions are as defined: by author, then by number.
pub fn versions_compare()
    ensures equality { (v w : Version) → ⟦<crate::Version as PartialEq>⟧.eq v w ≡ same_version v w }
    ensures order { (v w : Version) → is_lt (⟦<crate::Version as Ord>⟧.cmp v w) ≡ version_before v w }
    ensures same { (v w : Version) → (same_version v w ≡ true) ↔ (v ≡ w) }
{}

/// The words of authors are ordered as the authors are, differ where authors differ, and give the authors back.
pub fn words_tell_authors_apart()
    ensures order { (a b : Author) → nat_lt (author_word a) (author_word b) ≡ author_before a b }
    ensures equality { (a b : Author) → (author_word a == author_word b) ≡ same_author a b }
    ensures back { (a : Author) → author_of_word (author_word a) ≡ a }
{}

/// Vectors that denote the same versions are equal, and `==` tells whether vectors are equal.
pub fn vectors_are_one()
    ensures one { (bounds others : List Bound) → is_vector bounds ≡ true → is_vector others ≡ true
        → ((v : Version) → denotes bounds v ≡ denotes others v) → bounds ≡ others }
    ensures equality { (bounds others : List Bound) → (⟦<crate::Vector as PartialEq>⟧.eq bounds others ≡ true) ↔ (bounds ≡ others) }
{}

/// The definitions, worked for some vectors and texts.
pub fn examples()
    ensures vectors { TheVectors }
    ensures epochs { TheEpochs }
    ensures texts { TheTexts }
{}
