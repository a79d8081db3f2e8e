//! The words with which the program was called.
ghost use Rattle.std.specs.Prelude.{◌≤◌, length, IfOk, IfSome};

use std::alloc::{AllocError, Global};
use std::env::{Env, FillError};
use std::io;

// The initial capacity of the text, in bytes.
const ROOM: usize = 256;

/// The words with which the program was called, its name first. An order may have 100,000 words, and `std::env::args` gives
/// each a string with a capacity of 256 bytes, so all words share one text.
#[derive(Drop)]
pub struct Arguments {
    // The words, without anything between them.
    text: String,
    // The index in `text` at which each word ends.
    ends: Vec<usize>,
}

impl Arguments {
    /// Reads the words. The error is `OutOfMemory`, or `InvalidData` where all words together aren't UTF-8.
    pub fn read<E: Env>(env: &E, alloc: Global) -> io::Result<Arguments> {
        let mut bytes = vec![in alloc; 0; ROOM]?;
        let mut ends = Vec::new(alloc);
        let mut last = 0;
        for i in 0..usize::MAX {
            let Some(end) = filled(env, i, &mut bytes, last)? else {
                break;
            };
            ends.push(end)?;
            last = end;
        }
        bytes.truncate(last);
        match String::from_utf8(bytes) {
            Ok(text) => Ok(Arguments { text, ends }),
            Err(_) => Err(io::ErrorKind::InvalidData.into()),
        }
    }

    /// The words. The error is `OutOfMemory`, or `InvalidData` where a word isn't UTF-8.
    pub fn words(&self, alloc: Global) -> io::Result<Vec<&str>> {
        let mut words = Vec::new(alloc);
        let mut start = 0;
        for end in &self.ends {
            let Some(word) = self.text.get(start..*end) else {
                return Err(io::ErrorKind::InvalidData.into());
            };
            words.push(word)?;
            start = *end;
        }
        Ok(words)
    }
}

// Puts the bytes of word `i` behind the first `start` of `bytes`, which grow until the word fits. Gives where the word ends, or
// `None` where there are fewer words.
fn filled<E: Env>(
    env: &E,
    i: usize,
    bytes: &mut Vec<u8>,
    start: usize,
) -> Result<Option<usize>, AllocError>
    requires { start ≤ length bytes.old.items }
    ensures { IfOk result (λ found. IfSome found (λ end. end ≤ length bytes.new.items)) }
{
    for _ in 0..usize::BITS {
        match env.arg(i, &mut bytes[start..]) {
            Ok(count) => return Ok(Some(start + count)),
            Err(FillError::NotPresent) => return Ok(None),
            Err(FillError::TooLong) => bytes.resize(bytes.len().saturating_mul(2), 0)?,
        }
    }
    Err(AllocError)
}
