// A held version, with its history and its record.
ghost use Rattle.std.specs.Prelude.{◌≡◌, IfOk};

use photo_record::{PicNo, Record};
use photo_version::{Vector, Version};
use std::alloc::AllocError;

/// A version of a picture that a device holds. Its history, `made_with`, is what its author knew of the picture before it made
/// the version. `content` is the record that the version gives the picture.
#[derive(Debug, PartialEq, Eq, Drop)]
pub struct Held {
    pub picture: PicNo,
    pub version: Version,
    pub made_with: Vector,
    pub content: Record,
}

impl Held {
    /// An equal held version. The only error is refused memory.
    pub fn try_clone(&self) -> Result<Held, AllocError>
        ensures { IfOk result (λ copy. copy ≡ self.now) }
    {
        Ok(Held {
            picture: self.picture,
            version: self.version,
            made_with: self.made_with.try_clone()?,
            content: self.content.try_clone()?,
        })
    }
}
