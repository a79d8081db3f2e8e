// The text of a script.
ghost use Rattle.std.specs.Prelude.{◌≡◌, ◌↔◌, ◌++◌, map, string_bytes, Ok, None, true, IsTrue, IfOk, IfSome};
ghost use Rattle.std.specs.List.{AllByRecursion};
ghost use Rattle.script_reader.specs.Reading.{script_of};
ghost use Rattle.script_text.specs.Texts.{ended, line_of_command, line_of_device, lines_of_devices, text_of_lines, text_of_script};
ghost use Rattle.script_text.specs.Printable.{HasValues, IsPrintable};
ghost use Rattle.script_text.specs.Parts.{FitsDevice, FitDevices, FitsLine};

use crate::fit::{fits_command, fits_filter};
use crate::limits::MAX_LINE_BYTES;
use crate::line::command_text;
use crate::made::makes_each_once;
use crate::name::has_names;
use photo_filter_rules::Filter;
use photo_filter_text::print;
use photo_script::{Command, MAX_TEXT_BYTES, Script};
use std::alloc::{AllocError, Global};

/// The text of a script, which reads as that script: a line for each device and one for each command, each ended by LF. `None`
/// means that a limit of scripts keeps the text from being read so (`IsPrintable`): a name that no line can declare; a line of
/// over 1,024 bytes; a text of over 8,388,608 bytes; a filter that is too high, or too long with all its brackets; a picture
/// that two commands make; a record that says `removed`, or has the one word `-`; a version of no device of the script, with
/// the number 0, or with a number or an epoch over 100,000. Its only error is want of memory.
pub fn script_text(alloc: Global, script: &Script) -> Result<Option<String>, AllocError>
    ensures text { IfOk result (λ answer. IfSome answer (λ text. string_bytes text ≡ text_of_script script.now)) }
    ensures read { IfOk result (λ answer. IfSome answer (λ text. script_of (string_bytes text) ≡ Ok script.now)) }
    ensures within { IfOk result (λ answer. IfSome answer (λ text. IsPrintable script.now)) }
    ensures none { result ≡ Ok None → IsPrintable script.now → ⊥ }
{
    // Both calls are made because their contracts state what holds of every script (`IsScript`).
    let _devices = script.devices();
    let _commands = script.commands();
    if !has_names(script) {
        return Ok(None);
    }
    if !makes_each_once(alloc, script)? {
        return Ok(None);
    }
    let mut text = String::new(alloc);
    if !push_devices(alloc, &mut text, script)? {
        return Ok(None);
    }
    if !push_commands(alloc, &mut text, script)? {
        return Ok(None);
    }
    if text.len() > MAX_TEXT_BYTES {
        return Ok(None);
    }
    Ok(Some(text))
}

// Appends the lines of all devices, and says whether they fit; if not, some of the lines may be appended.
fn push_devices(alloc: Global, text: &mut String, script: &Script) -> Result<bool, AllocError>
    ensures text { IfOk result (λ fit. IsTrue fit → string_bytes text.new
        ≡ string_bytes text.old ++ text_of_lines (lines_of_devices script.now.names script.now.filters)) }
    ensures fit { IfOk result (λ fit. IsTrue fit ↔ FitDevices script.now.names script.now.filters) }
{
    for i in 0..script.devices() as u16 {
        if !push_device(alloc, text, script.name(i), script.filter(i))? {
            return Ok(false);
        }
    }
    Ok(true)
}

fn push_device(
    alloc: Global,
    text: &mut String,
    name: &str,
    filter: &Filter,
) -> Result<bool, AllocError>
    ensures text { IfOk result (λ fits. IsTrue fits → string_bytes text.new ≡ string_bytes text.old ++ ended (line_of_device name.now filter.now)) }
    ensures fits { IfOk result (λ fits. IsTrue fits ↔ FitsDevice name.now filter.now) }
{
    if !fits_filter(alloc, filter)? {
        return Ok(false);
    }
    let filter = print(alloc, filter.tree())?;
    let line = format!(in alloc; "device {name} {filter}")?;
    if line.len() > MAX_LINE_BYTES {
        return Ok(false);
    }
    writeln!(text, "{line}")?;
    Ok(true)
}

// Appends the lines of all commands in the same way.
fn push_commands(alloc: Global, text: &mut String, script: &Script) -> Result<bool, AllocError>
    ensures text { IfOk result (λ fit. IsTrue fit → string_bytes text.new
        ≡ string_bytes text.old ++ text_of_lines (map (line_of_command script.now) script.now.commands)) }
    ensures values { IfOk result (λ fit. IsTrue fit → AllByRecursion HasValues script.now.commands) }
    ensures fit { IfOk result (λ fit. IsTrue fit ↔ AllByRecursion (FitsLine script.now) script.now.commands) }
{
    for i in 0..script.commands() as u32 {
        if !push_command(alloc, text, script, script.command(i + 1))? {
            return Ok(false);
        }
    }
    Ok(true)
}

fn push_command(
    alloc: Global,
    text: &mut String,
    script: &Script,
    command: &Command,
) -> Result<bool, AllocError>
    ensures text { IfOk result (λ fits. IsTrue fits → string_bytes text.new ≡ string_bytes text.old ++ ended (line_of_command script.now command.now)) }
    ensures values { IfOk result (λ fits. IsTrue fits → HasValues command.now) }
    ensures fits { IfOk result (λ fits. IsTrue fits ↔ FitsLine script.now command.now) }
{
    if !fits_command(alloc, script, command)? {
        return Ok(false);
    }
    let line = command_text(alloc, script, command)?;
    if line.len() > MAX_LINE_BYTES {
        return Ok(false);
    }
    writeln!(text, "{line}")?;
    Ok(true)
}
