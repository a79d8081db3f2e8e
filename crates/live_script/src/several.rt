//! Several lines at once, which are all taken or none.
ghost use Rattle.std.specs.Prelude.{◌≡◌, ◌<◌, ◌≤◌, length, IfErr, IfOk};
ghost use Rattle.script_reader.specs.Growing.{IsGrown, script_in};
ghost use Rattle.script_reader.specs.Limits.{max_text_bytes};
ghost use Rattle.script_reader.specs.Reading.{script_of};
ghost use Rattle.fleet_model.specs.Contents.{Contents};
ghost use Rattle.live_script.specs.Live.{IsLonger, IsTold, IsToldOf, first_of, with_line};
ghost use Rattle.live_script.specs.Refused.{IsFaultOf, IsScript, IsWhy};

use crate::{LiveScript, Refusal};
use fleet_steps::laws::accepted_stays_sound;
use photo_script::{GrowingScript, MAX_TEXT_BYTES, ScriptFault};
use std::alloc::{AllocError, Global};
use std::str::from_utf8;

/// A script anew that has these lines behind those of another one, an LF between two of them, and what is printed of these. All
/// lines are read before a command runs.
pub fn with_lines(
    alloc: Global,
    live: &LiveScript,
    lines: &[u8],
) -> Result<(LiveScript, Vec<u8>), Refusal>
    ensures live { IfOk result (λ more. more.0 ≡ with_line live.now lines.now) }
    ensures told { IfOk result (λ more. IsTold live.now (with_line live.now lines.now) more.1.items) }
    ensures refused { IfErr result (IsWhy (with_line live.now lines.now)) }
{
    // The law that a script's run stays sound. It does nothing.
    accepted_stays_sound();
    match script_behind(alloc, live.text(), lines) {
        Ok(script) => match begun_behind(alloc, live, script, lines) {
            Ok(more) => Ok(more),
            Err(_) => Err(Refusal::NoMemory),
        },
        Err(fault) => Err(Refusal::Script(fault)),
    }
}

/// What would be printed of these lines behind those of another script.
pub fn told_of_lines(alloc: Global, live: &LiveScript, lines: &[u8]) -> Result<Vec<u8>, Refusal>
    ensures told { IfOk result (λ told. IsTold live.now (with_line live.now lines.now) told.items) }
    ensures refused { IfErr result (IsWhy (with_line live.now lines.now)) }
{
    match with_lines(alloc, live, lines) {
        Ok((_, told)) => Ok(told),
        Err(refusal) => Err(refusal),
    }
}

// The script of lines behind those of another one, whose commands run, and what is printed of these lines.
fn begun_behind(
    alloc: Global,
    live: &LiveScript,
    script: GrowingScript,
    lines: &[u8],
) -> Result<(LiveScript, Vec<u8>), AllocError>
    requires grown { IsGrown (with_line live.now lines.now) script }
    requires some { 0 < script.lines }
    requires longer { (old : Contents) → script_of live.now ≡ Ok old → IsLonger old (script_in script) }
    ensures live { IfOk result (λ more. more.0 ≡ with_line live.now lines.now) }
    ensures told { IfOk result (λ more. (old : Contents) → script_of live.now ≡ Ok old → IsToldOf (first_of (length old.commands) (script_in script)) (script_in script) more.1.items) }
{
    let source = joined(alloc, live.text(), lines)?;
    LiveScript::told_behind(alloc, script, source, live.script().commands())
}

// Reads lines behind the text of a script.
fn script_behind(alloc: Global, text: &[u8], lines: &[u8]) -> Result<GrowingScript, ScriptFault>
    requires { IsScript text.now }
    ensures grown { IfOk result (IsGrown (with_line text.now lines.now)) }
    ensures some { IfOk result (λ script. 0 < script.lines) }
    ensures longer { IfOk result (λ script. (old : Contents) → script_of text.now ≡ Ok old → IsLonger old (script_in script)) }
    ensures refused { IfErr result (IsFaultOf (with_line text.now lines.now)) }
{
    if lines.len() >= MAX_TEXT_BYTES.saturating_sub(text.len()) {
        return Err(ScriptFault::TooLarge);
    }
    match from_utf8(lines) {
        Ok(lines) => script_with(alloc, text, lines),
        Err(_) => Err(ScriptFault::NotUtf8),
    }
}

// Reads line after line behind the text of a script.
fn script_with(alloc: Global, text: &[u8], lines: &str) -> Result<GrowingScript, ScriptFault>
    requires script { IsScript text.now }
    requires small { length (with_line text.now lines.now) ≤ max_text_bytes }
    ensures grown { IfOk result (IsGrown (with_line text.now lines.now)) }
    ensures some { IfOk result (λ script. 0 < script.lines) }
    ensures longer { IfOk result (λ script. (old : Contents) → script_of text.now ≡ Ok old → IsLonger old (script_in script)) }
    ensures refused { IfErr result (IsFaultOf (with_line text.now lines.now)) }
{
    let mut script = GrowingScript::of(alloc, text)?;
    for line in lines.split('\n') {
        script.push(line.as_bytes())?;
    }
    Ok(script)
}

// A text, an LF and lines.
fn joined(alloc: Global, text: &[u8], lines: &[u8]) -> Result<Vec<u8>, AllocError>
    ensures { IfOk result (λ all. all.items ≡ with_line text.now lines.now) }
{
    let mut all = Vec::from_slice(alloc, text)?;
    all.push(b'\n')?;
    all.extend_from_slice(lines)?;
    Ok(all)
}
