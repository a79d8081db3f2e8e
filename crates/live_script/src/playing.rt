//! What a line does to the fleet, and what is printed of it.
ghost use Rattle.std.specs.Prelude.{◌≡◌, ◌≤◌, ◌<◌, length, Some, IfOk, IfSome, IsTrue, OnOk, OnErr};
ghost use Rattle.std.specs.Bool.{OnFalse, OnTrue};
ghost use Rattle.script_reader.specs.declared.growing.Said.TheVariants as kind;
ghost use Rattle.live_script.specs.Live.{ComesBehind, IsAnswered, IsStill, IsToldOf, ShowsRun};

use crate::live::Told;
use crate::opening::fleet_of;
use live_fleet::Fleet;
use photo_script::{CommandKind, Said, Script, kind_of, report_text};
use std::alloc::{AllocError, Global};

// The room from which on a change runs on the fleet itself. In a script no name has more than 16 characters, so the text of a
// change's report is shorter than that. Where there is less room, the change runs on a copy first.
const CHANGE_BYTES: usize = 128;

/// What the last line of a script does to the fleet of the lines before it, where what is printed of it has at most `most`
/// bytes. Where it has more, or memory is refused, the fleet shows what it showed, or isn't there.
pub fn run_line(
    alloc: Global,
    script: &Script,
    fleet: &mut Option<Fleet>,
    said: Said,
    most: usize,
) -> Result<Told, AllocError>
    requires { ComesBehind said fleet.old script.now }
    ensures told { IfOk result (λ told. (b : ComesBehind said fleet.old script.now) → IsToldOf b.old script.now told.text.items) }
    ensures answered { OnOk result (IsAnswered script.now) }
    ensures taken { IfOk result (λ told. OnTrue told.is_taken (IfSome fleet.new (ShowsRun script.now))) }
    ensures fits { IfOk result (λ told. OnTrue told.is_taken (length told.text.items ≤ most)) }
    ensures long { IfOk result (λ told. OnFalse told.is_taken (most < length told.text.items)) }
    ensures left { IfOk result (λ told. OnFalse told.is_taken ((b : ComesBehind said fleet.old script.now) → IfSome fleet.new (ShowsRun b.old))) }
    ensures kept { OnErr result ((b : ComesBehind said fleet.old script.now) → IfSome fleet.new (ShowsRun b.old)) }
{
    let is_still = is_still(script, said);
    if !is_still && most < CHANGE_BYTES {
        return run_on_copy(alloc, script, fleet, said, most);
    }
    let text = printed(alloc, script, fleet, said)?;
    let is_taken = text.len() <= most;
    // No change of a script comes here, but no clause bounds the text of its report.
    if !is_taken && !is_still {
        *fleet = None;
    }
    Ok(Told { text, is_taken })
}

/// What would be printed of the last line of a script. The fleet of the lines before it shows what it showed, or isn't there.
pub fn ask_line(
    alloc: Global,
    script: &Script,
    fleet: &mut Option<Fleet>,
    said: Said,
) -> Result<Vec<u8>, AllocError>
    requires { ComesBehind said fleet.old script.now }
    ensures told { IfOk result (λ text. (b : ComesBehind said fleet.old script.now) → IsToldOf b.old script.now text.items) }
    ensures kept { (b : ComesBehind said fleet.old script.now) → IfSome fleet.new (ShowsRun b.old) }
{
    if is_still(script, said) {
        return printed(alloc, script, fleet, said);
    }
    let mut copy = copied(fleet)?;
    printed(alloc, script, &mut copy, said)
}

// The same as `run_line`, on a copy of the fleet, which takes its place if what is printed has at most `most` bytes.
fn run_on_copy(
    alloc: Global,
    script: &Script,
    fleet: &mut Option<Fleet>,
    said: Said,
    most: usize,
) -> Result<Told, AllocError>
    requires { ComesBehind said fleet.old script.now }
    ensures told { IfOk result (λ told. (b : ComesBehind said fleet.old script.now) → IsToldOf b.old script.now told.text.items) }
    ensures answered { OnOk result (IsAnswered script.now) }
    ensures taken { IfOk result (λ told. OnTrue told.is_taken (IfSome fleet.new (ShowsRun script.now))) }
    ensures fits { IfOk result (λ told. OnTrue told.is_taken (length told.text.items ≤ most)) }
    ensures long { IfOk result (λ told. OnFalse told.is_taken (most < length told.text.items)) }
    ensures left { IfOk result (λ told. OnFalse told.is_taken (fleet.new ≡ fleet.old)) }
    ensures kept { OnErr result (fleet.new ≡ fleet.old) }
{
    let mut copy = copied(fleet)?;
    let text = printed(alloc, script, &mut copy, said)?;
    let is_taken = text.len() <= most;
    if is_taken {
        *fleet = copy;
    }
    Ok(Told { text, is_taken })
}

// What is printed of the last line of a script. The fleet shows the lines before it, and then all of them.
fn printed(
    alloc: Global,
    script: &Script,
    fleet: &mut Option<Fleet>,
    said: Said,
) -> Result<Vec<u8>, AllocError>
    requires { ComesBehind said fleet.old script.now }
    ensures told { IfOk result (λ text. (b : ComesBehind said fleet.old script.now) → IsToldOf b.old script.now text.items) }
    ensures answered { OnOk result (IsAnswered script.now) }
    ensures shown { OnOk result (IfSome fleet.new (ShowsRun script.now)) }
    ensures still { IsStill said script.now → (b : ComesBehind said fleet.old script.now) → IfSome fleet.new (ShowsRun b.old) }
    ensures kept { OnErr result ((b : ComesBehind said fleet.old script.now) → IfSome fleet.new (ShowsRun b.old)) }
{
    match said {
        Said::Nothing => Ok(Vec::new(alloc)),
        Said::Device => {
            *fleet = None;
            Ok(Vec::new(alloc))
        }
        Said::Command => printed_of_last(alloc, script, fleet),
    }
}

// What is printed of the last command of a script. The fleet shows the commands before it, and then all of them. Where memory is
// refused behind a change, the fleet isn't there any more.
fn printed_of_last(
    alloc: Global,
    script: &Script,
    slot: &mut Option<Fleet>,
) -> Result<Vec<u8>, AllocError>
    requires { ComesBehind kind.Command slot.old script.now }
    ensures told { IfOk result (λ text. (b : ComesBehind kind.Command slot.old script.now) → IsToldOf b.old script.now text.items) }
    ensures answered { OnOk result (IsAnswered script.now) }
    ensures shown { OnOk result (IfSome slot.new (ShowsRun script.now)) }
    ensures still { IsStill kind.Command script.now → (b : ComesBehind kind.Command slot.old script.now) → IfSome slot.new (ShowsRun b.old) }
    ensures kept { OnErr result ((b : ComesBehind kind.Command slot.old script.now) → IfSome slot.new (ShowsRun b.old)) }
{
    make_ready(alloc, script, slot)?;
    let Some(fleet) = slot else {
        return Err(AllocError);
    };
    match text_of_last(alloc, script, fleet) {
        Ok(text) => Ok(text),
        Err(error) => {
            if is_still(script, Said::Command) {
                return Err(error);
            }
            *slot = None;
            Err(error)
        }
    }
}

// Makes the fleet of the commands before the last one anew, where it isn't there or has no room for one command more. Its only
// error is want of memory.
fn make_ready(alloc: Global, script: &Script, slot: &mut Option<Fleet>) -> Result<(), AllocError>
    requires { ComesBehind kind.Command slot.old script.now }
    ensures room { OnOk result (IfSome slot.new (λ fleet. fleet.commands < 4_294_967_295)) }
    ensures kept { (b : ComesBehind kind.Command slot.old script.now) → IfSome slot.new (ShowsRun b.old) }
{
    if !has_room(slot) {
        *slot = None;
        *slot = Some(fleet_of(alloc, script, script.commands() - 1)?);
    }
    Ok(())
}

// Whether a fleet is there, with room for one command more.
fn has_room(slot: &Option<Fleet>) -> bool
    ensures { IsTrue result → IfSome slot.now (λ fleet. fleet.commands < 4_294_967_295) }
{
    match slot {
        Some(fleet) => fleet.commands() < u32::MAX,
        None => false,
    }
}

// A copy of a fleet, if it is there. Its only error is want of memory.
fn copied(slot: &Option<Fleet>) -> Result<Option<Fleet>, AllocError>
    ensures { IfOk result (λ copy. copy ≡ slot.now) }
{
    match slot {
        Some(fleet) => Ok(Some(fleet.try_clone()?)),
        None => Ok(None),
    }
}

// Runs the last command of a script on the fleet of those before it, and makes the text of its report. After want of memory the
// command may have run.
fn text_of_last(alloc: Global, script: &Script, fleet: &mut Fleet) -> Result<Vec<u8>, AllocError>
    requires behind { ComesBehind kind.Command (Some fleet.old) script.now }
    requires room { fleet.old.commands < 4_294_967_295 }
    ensures told { IfOk result (λ text. (b : ComesBehind kind.Command (Some fleet.old) script.now) → IsToldOf b.old script.now text.items) }
    ensures answered { OnOk result (IsAnswered script.now) }
    ensures shown { OnOk result (ShowsRun script.now fleet.new) }
    ensures still { IsStill kind.Command script.now → (b : ComesBehind kind.Command (Some fleet.old) script.now) → ShowsRun b.old fleet.new }
{
    let number = script.commands() as u32;
    let report = fleet.run(script.command(number))?;
    let text = report_text(alloc, script, number, &report)?;
    Ok(text.into_bytes())
}

// Whether the last line of a script, which says that, changes nothing that a fleet shows.
fn is_still(script: &Script, said: Said) -> bool
    requires { said ≡ kind.Command → 0 < length script.now.commands }
    ensures { OnTrue result (IsStill said script.now) }
{
    match said {
        Said::Nothing => true,
        Said::Device => false,
        Said::Command => {
            let command = script.command(script.commands() as u32);
            matches!(kind_of(command), CommandKind::Question)
        }
    }
}
