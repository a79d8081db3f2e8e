//! The call for a whole script, as C sees it. `Global` takes no bytes, so C passes nothing for it.
ghost use Rattle.std.specs.Prelude.{◌≡◌, ℕ, List};
ghost use Rattle.photofleet_c.specs.Placed.{HasNoRoom, Holds};
ghost use Rattle.live_script.specs.Printed.{IsPrinted};
ghost use Rattle.live_script.specs.Refused.{IsScript};
ghost use Rattle.photofleet_c.specs.Refused.{TellsFault, TellsWant};
ghost use Rattle.photofleet_c.specs.Statuses.{IsPlainStatus};

use crate::placing::place;
use crate::refusal::refused;
use crate::statuses::{DONE, TOO_SMALL};
use live_script::plain_text;
use std::alloc::Global;

/// Runs a script command by command, and writes the texts of its reports to `out`.
///
/// - 0: the first `written` bytes of `out` are the texts of the reports.
/// - 3: the bytes are no script, or memory was refused while they were read. The fault's line is offered.
/// - 4: the bytes are a script, and memory was refused for its run. The line of that error is offered.
/// - 5: the texts of the reports have no room in `out`, which is as it was. `written` tells how many bytes they take.
///
/// An offered line stands at the front of `out` if it has room there; otherwise `out` is as it was. `written` tells how many
/// bytes it takes. The bytes of `out` after a text are as they were.
#[unsafe(no_mangle)]
pub extern "C" fn photofleet_plain(
    alloc: Global,
    script: &[u8],
    out: &mut [u8],
    written: &mut usize,
) -> u8
    ensures status { IsPlainStatus result }
    ensures done { result ≡ 0 → (text : List ℕ) × IsPrinted script.now text × Holds out.old out.new written.new text }
    ensures fault { result ≡ 3 → TellsFault script.now out.old out.new written.new }
    ensures want { result ≡ 4 → IsScript script.now × TellsWant out.old out.new written.new }
    ensures small { result ≡ 5 → (text : List ℕ) × IsPrinted script.now text × HasNoRoom out.old out.new written.new text }
{
    match plain_text(alloc, script) {
        Ok(text) => {
            if place(text.as_bytes(), out, written) {
                DONE
            } else {
                TOO_SMALL
            }
        }
        Err(refusal) => refused(refusal, out, written),
    }
}
