//! Records.
ghost use Rattle.std.specs.Prelude.{◌≡◌, IfOk};

use crate::{Day, Rating, Words};
use std::alloc::AllocError;

/// What a version says of its picture: its rating, its day and its words, or that it was removed.
#[derive(Debug, PartialEq, Eq, Drop)]
pub enum Record {
    Picture {
        rating: Rating,
        day: Day,
        words: Words,
    },
    Removed,
}

impl Record {
    /// An equal record that shares its words with this one and takes no memory. Its only error is that of [`Words::try_clone`].
    pub fn try_clone(&self) -> Result<Record, AllocError>
        ensures { IfOk result (λ copy. copy ≡ self.now) }
    {
        match self {
            Record::Picture { rating, day, words } => Ok(Record::Picture {
                rating: *rating,
                day: *day,
                words: words.try_clone()?,
            }),
            Record::Removed => Ok(Record::Removed),
        }
    }
}
