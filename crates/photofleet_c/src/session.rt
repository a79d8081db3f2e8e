//! A session: the lines that were given to it, and the fleet that ran them.
ghost use Rattle.std.specs.Prelude.{◌≡◌, ◌<◌, ◌≤◌, length, IfErr, IfOk, OnErr};
ghost use Rattle.std.specs.Bool.{OnFalse, OnTrue};
ghost use Rattle.live_script.specs.Live.{IsTold};
ghost use Rattle.live_script.specs.Refused.{IsWhy};
ghost use Rattle.photofleet_c.specs.Sessions.{Has, IsStepOf, with_line};

use live_script::{LiveScript, Refusal, Told};
use std::alloc::Global;

/// A script that runs as its lines are given.
#[derive(Drop)]
pub struct Session {
    live: LiveScript,
}

impl Session {
    /// Begins a session with these lines.
    pub fn of(alloc: Global, lines: &[u8]) -> Result<Session, Refusal>
        ensures ok { IfOk result (Has lines.now) }
        ensures refused { IfErr result (IsWhy lines.now) }
    {
        match LiveScript::of(alloc, lines) {
            Ok(live) => {
                // `text` is called because its contract says that the run of the lines prints a text.
                let _text = live.text();
                Ok(Session { live })
            }
            Err(refusal) => Err(refusal),
        }
    }

    /// Gives a line if its output has at most `most` bytes, and tells that output. An LF within it ends a line.
    pub fn give(&mut self, line: &[u8], most: usize) -> Result<Told, Refusal>
        ensures step { IfOk result (λ told. OnTrue told.is_taken (IsStepOf self.old line.now self.new told.text.items)) }
        ensures told { IfOk result (λ told. IsTold self.old.live (with_line self.old line.now) told.text.items) }
        ensures fits { IfOk result (λ told. OnTrue told.is_taken (length told.text.items ≤ most)) }
        ensures long { IfOk result (λ told. OnFalse told.is_taken (most < length told.text.items)) }
        ensures left { IfOk result (λ told. OnFalse told.is_taken (self.new ≡ self.old)) }
        ensures refused { IfErr result (IsWhy (with_line self.old line.now)) }
        ensures kept { OnErr result (self.new ≡ self.old) }
    {
        self.live.give(line, most)
    }

    /// Tells the output that a line would have, which isn't given.
    pub fn ask(&mut self, line: &[u8]) -> Result<Vec<u8>, Refusal>
        ensures told { IfOk result (λ text. IsTold self.old.live (with_line self.old line.now) text.items) }
        ensures refused { IfErr result (IsWhy (with_line self.old line.now)) }
        ensures kept { self.new ≡ self.old }
    {
        self.live.ask(line)
    }
}
