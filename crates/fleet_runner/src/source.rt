//! Reads a script from a source.
ghost use Rattle.std.specs.Prelude.{◌≡◌, ◌≢◌, ◌⊎◌, ◌+◌, Ok, Err, IfOk, IfErr, IfSome};
ghost use Rattle.bounded_read.specs.Taking.{TakesAtMost};
ghost use Rattle.bounded_read.specs.declared.fault.ReadFault.TheVariants as read;
ghost use Rattle.script_reader.specs.Limits.{max_text_bytes};
ghost use Rattle.script_reader.specs.Reading.{script_of};
ghost use Rattle.script_reader.specs.declared.fault.ScriptFault.TheVariants.{Read, NoMemory, TooLarge};

use bounded_read::{ReadFault, read_whole};
use photo_script::{MAX_TEXT_BYTES, Script, ScriptFault, read_script};
use std::alloc::Global;
use std::io::Read;

/// Reads a script to the end of its source, whatever pieces the reader gives.
///
/// It reads at most 8,388,609 bytes; a source that has as many is `TooLarge`. Every error of the reader is `Read`. Any other
/// fault except want of memory is that of the source's text.
pub fn read_source<R: Read>(alloc: Global, reader: &mut R) -> Result<Script, ScriptFault>
    ensures read { IfOk result (λ script. IfSome (R.remaining reader.old) (λ input. script_of input ≡ Ok script)) }
    ensures refused { IfErr result
        (λ fault. fault ≢ Read → fault ≢ NoMemory → IfSome (R.remaining reader.old) (λ input. script_of input ≡ Err fault)) }
    ensures taken { TakesAtMost (R.remaining reader.old) (R.remaining reader.new) (max_text_bytes + 1) }
{
    match read_whole(alloc, reader, MAX_TEXT_BYTES) {
        Ok(bytes) => read_script(alloc, bytes.as_slice()),
        Err(fault) => Err(fault_of(fault)),
    }
}

// The fault of a script whose source isn't read.
fn fault_of(fault: ReadFault) -> ScriptFault
    ensures none { (result ≡ Read) ⊎ ((result ≡ NoMemory) ⊎ (result ≡ TooLarge)) }
    ensures large { result ≡ TooLarge → fault ≡ read.TooLarge }
{
    match fault {
        ReadFault::Failed(_) => ScriptFault::Read,
        ReadFault::TooLarge => ScriptFault::TooLarge,
        ReadFault::NoMemory => ScriptFault::NoMemory,
    }
}
