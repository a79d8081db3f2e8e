//! A line behind those of a script that has grown, and the fleet that shows its run.
ghost use Rattle.std.specs.Prelude.{◌≡◌, ◌<◌, ◌≤◌, ◌==◌, length, false, OnErr, IfOk, IfErr};
ghost use Rattle.std.specs.Bool.{OnFalse, OnTrue};
ghost use Rattle.std.specs.List.{list_any};
ghost use Rattle.live_script.specs.Live.{IsLive, IsTold, with_line};
ghost use Rattle.live_script.specs.Refused.{IsWhy};

use crate::Refusal;
use crate::live::Told;
use crate::playing::{ask_line, run_line};
use fleet_steps::laws::accepted_stays_sound;
use live_fleet::Fleet;
use photo_script::GrowingScript;
use std::alloc::Global;

/// Gives a line, if what is printed of it has at most `most` bytes, and tells that. Otherwise the lines are as they were.
pub fn given_line(
    source: &mut Vec<u8>,
    script: &mut GrowingScript,
    fleet: &mut Option<Fleet>,
    alloc: Global,
    line: &[u8],
    most: usize,
) -> Result<Told, Refusal>
    requires one { list_any (λ b. b == 10) line.now ≡ false }
    requires live { IsLive source.old.items script.old fleet.old }
    ensures live { IsLive source.new.items script.new fleet.new }
    ensures told { IfOk result (λ told. IsTold source.old.items (with_line source.old.items line.now) told.text.items) }
    ensures taken { IfOk result (λ told. OnTrue told.is_taken (source.new.items ≡ with_line source.old.items line.now)) }
    ensures fits { IfOk result (λ told. OnTrue told.is_taken (length told.text.items ≤ most)) }
    ensures long { IfOk result (λ told. OnFalse told.is_taken (most < length told.text.items)) }
    ensures left { IfOk result (λ told. OnFalse told.is_taken (source.new.items ≡ source.old.items)) }
    ensures refused { IfErr result (IsWhy (with_line source.old.items line.now)) }
    ensures kept { OnErr result (source.new.items ≡ source.old.items) }
{
    // The law that a script's run stays sound. It does nothing.
    accepted_stays_sound();
    match script.push(line) {
        Ok(said) => {
            if source.reserve(line.len() + 1).is_err() {
                script.take_back();
                return Err(Refusal::NoMemory);
            }
            match run_line(alloc, script.script(), fleet, said, most) {
                Ok(told) => {
                    if !told.is_taken {
                        script.take_back();
                        return Ok(told);
                    }
                    source.push_reserved(b'\n');
                    let _has_room = source.extend_from_slice(line);
                    Ok(told)
                }
                Err(_) => {
                    script.take_back();
                    Err(Refusal::NoMemory)
                }
            }
        }
        Err(fault) => Err(Refusal::Script(fault)),
    }
}

/// Tells what would be printed of a line, which isn't given.
pub fn asked_line(
    source: &[u8],
    script: &mut GrowingScript,
    fleet: &mut Option<Fleet>,
    alloc: Global,
    line: &[u8],
) -> Result<Vec<u8>, Refusal>
    requires one { list_any (λ b. b == 10) line.now ≡ false }
    requires live { IsLive source.now script.old fleet.old }
    ensures live { IsLive source.now script.new fleet.new }
    ensures told { IfOk result (λ text. IsTold source.now (with_line source.now line.now) text.items) }
    ensures refused { IfErr result (IsWhy (with_line source.now line.now)) }
{
    // The law that a script's run stays sound. It does nothing.
    accepted_stays_sound();
    match script.push(line) {
        Ok(said) => {
            let told = ask_line(alloc, script.script(), fleet, said);
            script.take_back();
            match told {
                Ok(text) => Ok(text),
                Err(_) => Err(Refusal::NoMemory),
            }
        }
        Err(fault) => Err(Refusal::Script(fault)),
    }
}
