//! Copying lists.
ghost use Rattle.std.specs.Prelude.{◌≡◌, IfOk};

use photo_record::Word;
use std::alloc::AllocError;

/// A value that can be copied, unless memory is refused.
pub trait TryClone: Drop {
    /// An equal value. Its only error is want of memory.
    fn try_clone(&self) -> Result<Self, AllocError>
        ensures { IfOk result (λ copy. copy ≡ self.now) };
}

impl TryClone for Word {
    fn try_clone(&self) -> Result<Word, AllocError> {
        Word::try_clone(self)
    }
}

/// A list of equal values in the same order. Its only error is want of memory.
pub fn copied<T: TryClone>(items: &Vec<T>) -> Result<Vec<T>, AllocError>
    ensures { IfOk result (λ copy. copy.items ≡ items.now.items) }
{
    let alloc = *items.allocator();
    let mut copy = Vec::with_capacity(alloc, items.len())?;
    for item in items {
        copy.push(item.try_clone()?)?;
    }
    Ok(copy)
}
