//! The bytes of a file or of another input.
ghost use Rattle.std.specs.Prelude.{◌≡◌, ◌⊎◌, ◌+◌, ◌<◌, ◌≤◌, length, Err, IfOk, IfSome};
ghost use Rattle.bounded_read.specs.Taking.{TakesAtMost};
ghost use Rattle.script_reader.specs.Limits.{max_text_bytes};
ghost use Rattle.script_reader.specs.declared.fault.ScriptFault.{ScriptFault};
ghost use Rattle.script_reader.specs.declared.fault.ScriptFault.TheVariants.{NoMemory, TooLarge};
ghost use Rattle.script_programs.specs.declared.source.Unread.TheVariants.{Script};

use bounded_read::{ReadFault, read_whole};
use photo_script::{MAX_TEXT_BYTES, ScriptFault};
use std::alloc::Global;
use std::fs;
use std::io::{self, Read};
use std::rt::Files;

/// Why there are no bytes.
#[derive(Drop)]
pub enum Unread {
    /// The system says why.
    System(io::Error),
    /// They are too many, or memory was refused.
    Script(ScriptFault),
}

/// The bytes of a file. They are no more than a script may have.
pub fn read_file<F: Files>(files: &F, alloc: Global, file: &str) -> Result<Vec<u8>, Unread>
    ensures few { IfOk result (λ bytes. length bytes.items ≤ max_text_bytes) }
    ensures fault { (fault : ScriptFault) → result ≡ Err (Script fault) → (fault ≡ TooLarge) ⊎ (fault ≡ NoMemory) }
{
    match fs::open(files, file) {
        Ok(mut source) => read_input(alloc, &mut source),
        Err(error) => Err(Unread::System(error)),
    }
}

/// The bytes of an input, up to its end. They are no more than a script may have. Where there are more, one byte beyond that was
/// taken.
pub fn read_input<R: Read>(alloc: Global, reader: &mut R) -> Result<Vec<u8>, Unread>
    ensures read { IfOk result (λ bytes. IfSome (R.remaining reader.old) (λ input. bytes.items ≡ input)) }
    ensures few { IfOk result (λ bytes. length bytes.items ≤ max_text_bytes) }
    ensures large { result ≡ Err (Script TooLarge) → IfSome (R.remaining reader.old) (λ input. max_text_bytes < length input) }
    ensures fault { (fault : ScriptFault) → result ≡ Err (Script fault) → (fault ≡ TooLarge) ⊎ (fault ≡ NoMemory) }
    ensures taken { TakesAtMost (R.remaining reader.old) (R.remaining reader.new) (max_text_bytes + 1) }
{
    match read_whole(alloc, reader, MAX_TEXT_BYTES) {
        Ok(bytes) => Ok(bytes),
        Err(ReadFault::Failed(error)) => Err(Unread::System(error)),
        Err(ReadFault::TooLarge) => Err(Unread::Script(ScriptFault::TooLarge)),
        Err(ReadFault::NoMemory) => Err(Unread::Script(ScriptFault::NoMemory)),
    }
}
