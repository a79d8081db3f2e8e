// Versions.
use crate::Author;
use std::marker::Model;

/// The nth version that its author made, from 1. Versions are ordered by author, then by number.
#[derive(Clone, Copy, Debug, PartialEq, Eq, PartialOrd, Ord, Hash)]
pub struct Version {
    author: Author,
    number: u32,
}

impl Model for Version {
    ghost use Rattle.std.specs.Prelude.{◌<◌};
    ghost use Rattle.photo_version.specs.Version as spec;

    ghost Value = { spec.Version };

    ghost view = { λ v. spec.version v.author v.number };

    ghost invariant = { λ v. 0 < v.number };

    ghost inverse = { λ v. record { author = v.author; number = v.number } };
}

impl Version {
    ghost use Rattle.std.specs.Prelude.{◌≡◌, ◌<◌, SomeIff};
    ghost use Rattle.photo_version.specs.Version as spec;

    /// The author's `n`th version; `None` for 0.
    pub fn new(author: Author, n: u32) -> Option<Version>
        ensures { SomeIff result (0 < n) (spec.version author n) }
    {
        if n == 0 {
            return None;
        }
        Some(Version { author, number: n })
    }

    /// The author that made the version.
    pub fn author(&self) -> Author
        ensures { result ≡ self.now.author }
    {
        self.author
    }

    /// The version's number among its author's versions, from 1.
    pub fn n(&self) -> u32
        ensures value { result ≡ self.now.number }
        ensures above_zero { 0 < result }
    {
        self.number
    }
}
