// An entry of a list device, which shares nothing.
ghost use Rattle.std.specs.Prelude.{◌≡◌, IfOk};
ghost use Rattle.photo_model.specs.Entry.{entry_before, supersedes};
ghost use Rattle.test_list_device.specs.Entries.{entry_of};

use crate::known::has;
use photo_record::{PicNo, Record};
use photo_version::Version;
use std::alloc::{AllocError, Global};

/// A version of a picture, with its history of the picture and its record. The history has all versions of the picture that its
/// maker knew.
#[derive(Debug, Drop)]
pub struct ListEntry {
    pub picture: PicNo,
    pub version: Version,
    pub history: Vec<Version>,
    pub content: Record,
}

impl ListEntry {
    /// A copy, with its own copy of the history. Its only error is want of memory.
    pub(crate) fn try_clone(&self, alloc: Global) -> Result<ListEntry, AllocError>
        ensures { IfOk result (λ copy. entry_of copy ≡ entry_of self.now) }
    {
        Ok(ListEntry {
            picture: self.picture,
            version: self.version,
            history: Vec::from_slice(alloc, &self.history)?,
            content: self.content.try_clone()?,
        })
    }

    /// Whether the entry sorts before another, by picture and then version.
    pub(crate) fn is_before(&self, other: &ListEntry) -> bool
        ensures { result ≡ entry_before (entry_of self.now) (entry_of other.now) }
    {
        self.picture < other.picture
            || (self.picture == other.picture && self.version < other.version)
    }

    /// Whether the entry supersedes another.
    pub(crate) fn supersedes(&self, other: &ListEntry) -> bool
        ensures { result ≡ supersedes (entry_of self.now) (entry_of other.now) }
    {
        self.picture == other.picture && has(&self.history, other.version)
    }
}
