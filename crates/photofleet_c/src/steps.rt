//! One step of a session.
ghost use Rattle.std.specs.Prelude.{◌≡◌, ◌≢◌, ℕ, List};
ghost use Rattle.photofleet_c.specs.Placed.{Holds};
ghost use Rattle.photofleet_c.specs.Sessions.{IsStepOf, TellsNoStep};
ghost use Rattle.photofleet_c.specs.declared.session.Session.{Session};

use crate::placing::{place, put};
use crate::refusal::refused;
use crate::session::Session;
use crate::statuses::{DONE, TOO_SMALL};

/// Gives a line to a session, and writes its output to `out`. After any status but 0 the session is as it was.
pub fn given(session: &mut Session, line: &[u8], out: &mut [u8], written: &mut usize) -> u8
    ensures done { result ≡ 0 → (text : List ℕ) × IsStepOf session.old line.now session.new text
        × Holds out.old out.new written.new text }
    ensures other { result ≢ 0 → TellsNoStep session.old line.now out.old out.new written.new result }
    ensures kept { result ≢ 0 → session.new ≡ session.old }
{
    match session.give(line, out.len()) {
        Ok(told) => {
            let text = told.text.as_slice();
            if !told.is_taken {
                *written = text.len();
                return TOO_SMALL;
            }
            put(text, out, written);
            DONE
        }
        Err(refusal) => refused(refusal, out, written),
    }
}

/// Asks a session for the output that a line would have, and writes that to `out`. The session is as it was.
pub fn asked(session: &mut Session, line: &[u8], out: &mut [u8], written: &mut usize) -> u8
    ensures done { result ≡ 0 → (next : Session) × (text : List ℕ) × IsStepOf session.old line.now next text
        × Holds out.old out.new written.new text }
    ensures other { result ≢ 0 → TellsNoStep session.old line.now out.old out.new written.new result }
    ensures kept { session.new ≡ session.old }
{
    match session.ask(line) {
        Ok(text) => {
            if place(text.as_slice(), out, written) {
                DONE
            } else {
                TOO_SMALL
            }
        }
        Err(refusal) => refused(refusal, out, written),
    }
}
