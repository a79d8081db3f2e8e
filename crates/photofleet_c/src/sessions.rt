//! The calls of a session, as C sees them. A session is closed, or it is open and its handle alone owns it.
ghost use Rattle.std.specs.Prelude.{◌≡◌, ◌≢◌, ◌↔◌, ◌⊎◌, ℕ, List, None, Some, IfErr, IfOk};
ghost use Rattle.std.specs.Option.{option_map};
ghost use Rattle.photofleet_c.specs.declared.session.Session.{Session};
ghost use Rattle.photofleet_c.specs.Placed.{Holds, IsUntouched};
ghost use Rattle.live_script.specs.Refused.{IsScript, IsWhy};
ghost use Rattle.photofleet_c.specs.Refused.{TellsFault, TellsWant};
ghost use Rattle.photofleet_c.specs.Sessions.{Has, IsStep, TellsLine};
ghost use Rattle.photofleet_c.specs.Statuses.{IsClosingStatus, IsOpeningStatus};

use crate::handle::Handle;
use crate::loose::Loose;
use crate::refusal::refused;
use crate::session::Session;
use crate::statuses::{BAD_SESSION, DONE};
use crate::steps::{asked, given};
use live_script::Refusal;
use std::alloc::Global;
use std::mem::replace;

/// Opens a session with lines that are a script by themselves, mostly declarations.
///
/// - 0: the session is open and has these lines. Their output isn't told.
/// - 2: it was open already. Nothing is told.
/// - 3: the lines are no script, or memory was refused while they were read. The fault's line is offered.
/// - 4: the lines are a script, and memory was refused. The line of that error is offered.
#[unsafe(no_mangle)]
pub extern "C" fn photofleet_open(
    alloc: Global,
    session: &mut Handle,
    lines: &[u8],
    out: &mut [u8],
    written: &mut usize,
) -> u8
    ensures status { IsOpeningStatus result }
    ensures done { result ≡ 0 → (s : Session) × (session.new.kept ≡ Some s) × Has lines.now s }
    ensures open { (result ≡ 2) ↔ (session.old.kept ≢ None) }
    ensures untouched { (result ≡ 0) ⊎ (result ≡ 2) → IsUntouched out.old out.new written.new }
    ensures fault { result ≡ 3 → TellsFault lines.now out.old out.new written.new }
    ensures want { result ≡ 4 → IsScript lines.now × TellsWant out.old out.new written.new }
    ensures kept { result ≢ 0 → session.new.kept ≡ session.old.kept }
{
    *written = 0;
    if let Some(loose) = taken(alloc, session) {
        *session = Handle::of(loose);
        return BAD_SESSION;
    }
    match opened(alloc, lines) {
        Ok(kept) => {
            *session = Handle::of(Loose::of(kept));
            DONE
        }
        Err(refusal) => refused(refusal, out, written),
    }
}

/// Gives a line to a session, and writes its output to `out`. After any status but 0 the session is as it was, and [`TellsLine`]
/// says what is told.
#[unsafe(no_mangle)]
pub extern "C" fn photofleet_give(
    alloc: Global,
    session: &mut Handle,
    line: &[u8],
    out: &mut [u8],
    written: &mut usize,
) -> u8
    ensures told { TellsLine session.old.kept line.now out.old out.new written.new result }
    ensures done { result ≡ 0 → (next : Session) × (text : List ℕ) × IsStep session.old.kept line.now next text
        × (session.new.kept ≡ Some next) × Holds out.old out.new written.new text }
    ensures kept { result ≢ 0 → session.new.kept ≡ session.old.kept }
{
    *written = 0;
    let Some(loose) = taken(alloc, session) else {
        return BAD_SESSION;
    };
    let mut kept = loose.into_box();
    let status = given(&mut kept, line, out, written);
    *session = Handle::of(Loose::of(kept));
    status
}

/// Asks a session for the output that a line would have, which isn't given.
#[unsafe(no_mangle)]
pub extern "C" fn photofleet_ask(
    alloc: Global,
    session: &mut Handle,
    line: &[u8],
    out: &mut [u8],
    written: &mut usize,
) -> u8
    ensures told { TellsLine session.old.kept line.now out.old out.new written.new result }
    ensures done { result ≡ 0 → (next : Session) × (text : List ℕ) × IsStep session.old.kept line.now next text
        × Holds out.old out.new written.new text }
    ensures kept { session.new.kept ≡ session.old.kept }
{
    *written = 0;
    let Some(loose) = taken(alloc, session) else {
        return BAD_SESSION;
    };
    let mut kept = loose.into_box();
    let status = asked(&mut kept, line, out, written);
    *session = Handle::of(Loose::of(kept));
    status
}

/// Closes a session, and frees its memory. 2: it was closed already.
#[unsafe(no_mangle)]
pub extern "C" fn photofleet_close(alloc: Global, session: &mut Handle) -> u8
    ensures status { IsClosingStatus result }
    ensures was_closed { (result ≡ 2) ↔ (session.old.kept ≡ None) }
    ensures closed { session.new.kept ≡ None }
{
    match taken(alloc, session) {
        Some(loose) => {
            let _session = loose.into_box();
            DONE
        }
        None => BAD_SESSION,
    }
}

// Begins a session with these lines, in a box.
fn opened(alloc: Global, lines: &[u8]) -> Result<Box<Session>, Refusal>
    ensures ok { IfOk result (λ kept. Has lines.now kept.value) }
    ensures refused { IfErr result (IsWhy lines.now) }
{
    match Session::of(alloc, lines) {
        Ok(session) => match Box::new(alloc, session) {
            Ok(kept) => Ok(kept),
            Err(_) => Err(Refusal::NoMemory),
        },
        Err(refusal) => Err(refusal),
    }
}

// Takes the session out of a handle, which is closed then.
fn taken(alloc: Global, session: &mut Handle) -> Option<Loose<Session, Global>>
    ensures same { option_map (λ kept. kept.value) result ≡ session.old.kept }
    ensures closed { session.new.kept ≡ None }
{
    replace(session, Handle::closed()).into_loose(alloc)
}
