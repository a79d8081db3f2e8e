//! Tells why a call gives no texts of reports.
ghost use Rattle.std.specs.Prelude.{◌≡◌};
ghost use Rattle.photofleet_c.specs.Lines.{line_of};
ghost use Rattle.photofleet_c.specs.Placed.{IsOffered};
ghost use Rattle.photofleet_c.specs.Statuses.{status_of};

use crate::fault_lines::fault_line;
use crate::placing::place;
use crate::statuses::{BAD_SCRIPT, NO_MEMORY};
use live_script::Refusal;

/// Offers the line of a refusal, and gives its status. It takes no memory.
pub fn refused(refusal: Refusal, out: &mut [u8], written: &mut usize) -> u8
    ensures status { result ≡ status_of refusal }
    ensures told { IsOffered out.old out.new written.new (line_of refusal) }
{
    match refusal {
        Refusal::Script(fault) => {
            place(fault_line(fault).as_str().as_bytes(), out, written);
            BAD_SCRIPT
        }
        Refusal::NoMemory => {
            place(b"run error: E1 NoMemory\n", out, written);
            NO_MEMORY
        }
    }
}
