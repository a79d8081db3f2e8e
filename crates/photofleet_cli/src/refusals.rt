//! The answer where the command line gave no words.
ghost use Rattle.std.specs.Prelude.{◌≡◌, ◌⊎◌};
ghost use Rattle.std.specs.declared.io.ErrorKind.TheVariants.{OutOfMemory};

use crate::words::command_line;
use std::alloc::Global;
use std::io::{self, Write};

/// Says on `err` why the command line couldn't be read, and gives the status: a word that isn't UTF-8 is refused.
pub fn without_words<E: Write>(alloc: Global, why: io::ErrorKind, err: &mut E) -> u8
    ensures status { (result ≡ 2) ⊎ (result ≡ 4) }
    ensures memory { why ≡ OutOfMemory → result ≡ 4 }
{
    script_programs::without_words(alloc, why, command_line(alloc), err)
}
