//! Reads a source whole.
ghost use Rattle.std.specs.Prelude.{◌≡◌, ◌+◌, ◌<◌, ◌≤◌, ◌^◌, length, Err, IfOk, IfSome};
ghost use Rattle.bounded_read.specs.Taking.{TakesAtMost};
ghost use Rattle.bounded_read.specs.declared.fault.ReadFault.TheVariants.{TooLarge};

use crate::ReadFault;
use std::alloc::Global;
use std::io::Read;

/// Reads a source to its end, whatever pieces the reader gives. A source of over `most` bytes is `TooLarge`; then one byte beyond
/// the limit was taken. The first error of the reader ends the reading.
pub fn read_whole<R: Read>(alloc: Global, reader: &mut R, most: usize) -> Result<Vec<u8>, ReadFault>
    requires { most < 2 ^ 32 }
    ensures read { IfOk result (λ bytes. IfSome (R.remaining reader.old) (λ input. bytes.items ≡ input)) }
    ensures few { IfOk result (λ bytes. length bytes.items ≤ most) }
    ensures large { result ≡ Err TooLarge → IfSome (R.remaining reader.old) (λ input. most < length input) }
    ensures taken { TakesAtMost (R.remaining reader.old) (R.remaining reader.new) (most + 1) }
{
    let mut bytes = Vec::new(alloc);
    let mut piece = [0u8; 4096];
    while bytes.len() <= most {
        let room = piece.len().min(most + 1 - bytes.len());
        let count = match reader.read(&mut piece[..room]) {
            Ok(count) => count,
            Err(error) => return Err(ReadFault::Failed(error)),
        };
        if count == 0 {
            return Ok(bytes);
        }
        if bytes.extend_from_slice(&piece[..count]).is_err() {
            return Err(ReadFault::NoMemory);
        }
    }
    Err(ReadFault::TooLarge)
}
