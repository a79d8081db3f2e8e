//! The script with its fleet, and its calls.
ghost use Rattle.std.specs.Prelude.{◌≡◌, ◌<◌, ◌≤◌, ◌==◌, ℕ, List, length, false, Ok, OnErr, IfOk, IfErr, IfSome};
ghost use Rattle.std.specs.Bool.{OnFalse, OnTrue};
ghost use Rattle.std.specs.List.{list_any};
ghost use Rattle.fleet_model.specs.Contents.{Contents};
ghost use Rattle.fleet_model.specs.Limits.{max_commands};
ghost use Rattle.script_reader.specs.Growing.{IsGrown, script_in};
ghost use Rattle.script_reader.specs.Reading.{script_of};
ghost use Rattle.live_script.specs.Live.{IsTold, IsToldOf, ShowsRun, first_of, with_line};
ghost use Rattle.live_script.specs.Printed.{IsPrinted};
ghost use Rattle.live_script.specs.Refused.{IsWhy};
ghost use Rattle.live_script.specs.declared.refusal.Refusal.TheVariants.{NoMemory};

use crate::Refusal;
use crate::lines::{asked_line, given_line};
use crate::opening::{fleet_of, told_fleet};
use crate::several::{told_of_lines, with_lines};
use fleet_steps::laws::accepted_stays_sound;
use live_fleet::Fleet;
use photo_script::{GrowingScript, Script};
use std::alloc::{AllocError, Global};
use std::marker::Model;

/// What is told of a line.
#[derive(Debug, Drop)]
pub struct Told {
    /// What the run of the lines prints of it: the text of its report, if it is a command.
    pub text: Vec<u8>,
    /// Whether it is taken.
    pub is_taken: bool,
}

/// A script that runs as it grows. Contracts see the text of its lines, an LF between two of them.
#[derive(Drop)]
pub struct LiveScript {
    script: GrowingScript,
    source: Vec<u8>,
    // None where it is to be made anew: after a declaration, or after a change for which memory was refused
    fleet: Option<Fleet>,
    alloc: Global,
}

impl Model for LiveScript {
    ghost use Rattle.std.specs.Prelude.{ℕ, List};
    ghost use Rattle.live_script.specs.Live.{IsLive};

    ghost Value = { List ℕ };

    ghost view = { λ s. s.source.items };

    ghost invariant = { λ s. IsLive s.source.items s.script s.fleet };
}

impl LiveScript {
    /// The script that a text is, of which each command has run. What stands behind the last LF counts as a line, also where it
    /// is empty.
    ///
    /// Refused by the text's fault, or for want of memory.
    pub fn of(alloc: Global, text: &[u8]) -> Result<LiveScript, Refusal>
        ensures text { IfOk result (λ live. live ≡ text.now) }
        ensures refused { IfErr result (IsWhy text.now) }
    {
        match GrowingScript::of(alloc, text) {
            Ok(script) => LiveScript::begun(alloc, script, text),
            Err(fault) => Err(Refusal::Script(fault)),
        }
    }

    /// The same, and what the run of the lines prints.
    pub fn begin(alloc: Global, text: &[u8]) -> Result<(LiveScript, Vec<u8>), Refusal>
        ensures text { IfOk result (λ begun. begun.0 ≡ text.now) }
        ensures told { IfOk result (λ begun. IsPrinted text.now begun.1.items) }
        ensures refused { IfErr result (IsWhy text.now) }
    {
        // The law that a script's run stays sound. It does nothing.
        accepted_stays_sound();
        match GrowingScript::of(alloc, text) {
            Ok(script) => match LiveScript::told_from(alloc, script, text) {
                Ok(begun) => Ok(begun),
                Err(_) => Err(Refusal::NoMemory),
            },
            Err(fault) => Err(Refusal::Script(fault)),
        }
    }

    /// The script of the lines.
    pub fn script(&self) -> &Script
        ensures { script_of self.now ≡ Ok result.now }
    {
        self.script.script()
    }

    /// The fleet that ran the lines. It isn't there after a declaration, nor after a change for which memory was refused, until the
    /// next command makes it anew.
    pub fn fleet(&self) -> Option<&Fleet>
        ensures { IfSome result (λ fleet. (script : Contents) → script_of self.now ≡ Ok script → ShowsRun script fleet.now) }
    {
        self.fleet.as_ref()
    }

    /// The text of the lines.
    pub fn text(&self) -> &[u8]
        ensures text { result.now ≡ self.now }
        ensures printed { (told : List ℕ) × IsPrinted self.now told }
    {
        // The law that a script's run stays sound. It does nothing.
        accepted_stays_sound();
        self.source.as_slice()
    }

    /// Gives a line, and tells what is printed of it. Where that has over `most` bytes the line isn't taken, and its command
    /// hasn't run. After a refusal the lines are as they were.
    ///
    /// An LF within the line ends it: then several lines are given at once, which are all taken or none, and read before one runs.
    ///
    /// It costs what its command costs. A change that is given with fewer than 128 bytes of room copies the fleet besides. Several
    /// lines at once cost as much as all lines, and so does the line after a change for which memory was refused.
    pub fn give(&mut self, line: &[u8], most: usize) -> Result<Told, Refusal>
        ensures told { IfOk result (λ told. IsTold self.old (with_line self.old line.now) told.text.items) }
        ensures taken { IfOk result (λ told. OnTrue told.is_taken (self.new ≡ with_line self.old line.now)) }
        ensures fits { IfOk result (λ told. OnTrue told.is_taken (length told.text.items ≤ most)) }
        ensures long { IfOk result (λ told. OnFalse told.is_taken (most < length told.text.items)) }
        ensures left { IfOk result (λ told. OnFalse told.is_taken (self.new ≡ self.old)) }
        ensures refused { IfErr result (IsWhy (with_line self.old line.now)) }
        ensures kept { OnErr result (self.new ≡ self.old) }
    {
        if line.contains(&b'\n') {
            self.give_lines(line, most)
        } else {
            self.give_line(line, most)
        }
    }

    /// Tells what would be printed of a line, which isn't given: the lines are as they were. It costs what [`LiveScript::give`]
    /// costs, and a change copies the fleet.
    pub fn ask(&mut self, line: &[u8]) -> Result<Vec<u8>, Refusal>
        ensures told { IfOk result (λ text. IsTold self.old (with_line self.old line.now) text.items) }
        ensures refused { IfErr result (IsWhy (with_line self.old line.now)) }
        ensures kept { self.new ≡ self.old }
    {
        if line.contains(&b'\n') {
            let live = &*self;
            told_of_lines(live.alloc, live, line)
        } else {
            asked_line(
                self.source.as_slice(),
                &mut self.script,
                &mut self.fleet,
                self.alloc,
                line,
            )
        }
    }

    // Gives one line.
    fn give_line(&mut self, line: &[u8], most: usize) -> Result<Told, Refusal>
        requires one { list_any (λ b. b == 10) line.now ≡ false }
        ensures told { IfOk result (λ told. IsTold self.old (with_line self.old line.now) told.text.items) }
        ensures taken { IfOk result (λ told. OnTrue told.is_taken (self.new ≡ with_line self.old line.now)) }
        ensures fits { IfOk result (λ told. OnTrue told.is_taken (length told.text.items ≤ most)) }
        ensures long { IfOk result (λ told. OnFalse told.is_taken (most < length told.text.items)) }
        ensures left { IfOk result (λ told. OnFalse told.is_taken (self.new ≡ self.old)) }
        ensures refused { IfErr result (IsWhy (with_line self.old line.now)) }
        ensures kept { OnErr result (self.new ≡ self.old) }
    {
        given_line(
            &mut self.source,
            &mut self.script,
            &mut self.fleet,
            self.alloc,
            line,
            most,
        )
    }

    // Gives several lines. The script with them is made anew.
    fn give_lines(&mut self, lines: &[u8], most: usize) -> Result<Told, Refusal>
        ensures told { IfOk result (λ told. IsTold self.old (with_line self.old lines.now) told.text.items) }
        ensures taken { IfOk result (λ told. OnTrue told.is_taken (self.new ≡ with_line self.old lines.now)) }
        ensures fits { IfOk result (λ told. OnTrue told.is_taken (length told.text.items ≤ most)) }
        ensures long { IfOk result (λ told. OnFalse told.is_taken (most < length told.text.items)) }
        ensures left { IfOk result (λ told. OnFalse told.is_taken (self.new ≡ self.old)) }
        ensures refused { IfErr result (IsWhy (with_line self.old lines.now)) }
        ensures kept { OnErr result (self.new ≡ self.old) }
    {
        let live = &*self;
        match with_lines(live.alloc, live, lines) {
            Ok((more, text)) => {
                if most < text.len() {
                    return Ok(Told {
                        text,
                        is_taken: false,
                    });
                }
                *self = more;
                Ok(Told {
                    text,
                    is_taken: true,
                })
            }
            Err(refusal) => Err(refusal),
        }
    }

    // A script that has grown by the lines of a text, with its fleet, and what its run prints of the commands behind the first
    // `count`. Its only error is want of memory.
    pub(crate) fn told_behind(
        alloc: Global,
        script: GrowingScript,
        source: Vec<u8>,
        count: usize,
    ) -> Result<(LiveScript, Vec<u8>), AllocError>
        requires grown { IsGrown source.items script }
        requires some { 0 < script.lines }
        requires within { count ≤ length (script_in script).commands }
        requires few { count ≤ max_commands }
        ensures live { IfOk result (λ more. more.0 ≡ source.items) }
        ensures told { IfOk result (λ more. IsToldOf (first_of count (script_in script)) (script_in script) more.1.items) }
    {
        match told_fleet(alloc, script.script(), count) {
            Ok((fleet, told)) => {
                let fleet = Some(fleet);
                let live = LiveScript {
                    script,
                    source,
                    fleet,
                    alloc,
                };
                Ok((live, told))
            }
            Err(error) => Err(error),
        }
    }

    // A script that has grown by the lines of a text, with its fleet, and what its run prints. Its only error is want of memory.
    fn told_from(
        alloc: Global,
        script: GrowingScript,
        text: &[u8],
    ) -> Result<(LiveScript, Vec<u8>), AllocError>
        requires grown { IsGrown text.now script }
        requires some { 0 < script.lines }
        ensures live { IfOk result (λ more. more.0 ≡ text.now) }
        ensures told { IfOk result (λ more. IsToldOf (first_of 0 (script_in script)) (script_in script) more.1.items) }
    {
        let source = Vec::from_slice(alloc, text)?;
        LiveScript::told_behind(alloc, script, source, 0)
    }

    // A script that has grown by the lines of a text, with its fleet. Its only error is want of memory.
    fn begun(alloc: Global, script: GrowingScript, text: &[u8]) -> Result<LiveScript, Refusal>
        requires grown { IsGrown text.now script }
        requires some { 0 < script.lines }
        ensures text { IfOk result (λ live. live ≡ text.now) }
        ensures err { IfErr result (λ e. e ≡ NoMemory) }
    {
        let Ok(source) = Vec::from_slice(alloc, text) else {
            return Err(Refusal::NoMemory);
        };
        match fleet_of(alloc, script.script(), script.script().commands()) {
            Ok(fleet) => Ok(LiveScript {
                script,
                source,
                fleet: Some(fleet),
                alloc,
            }),
            Err(_) => Err(Refusal::NoMemory),
        }
    }
}
