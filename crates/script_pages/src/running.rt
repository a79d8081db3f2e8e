//! The drawing of all commands of a script, which it runs.
ghost use Rattle.std.specs.Prelude.{◌≡◌, ◌≤◌, ◌<◌, ◌+◌, length};

use crate::columns::Columned;
use crate::drawing::Drawing;
use crate::events::draw_command;
use crate::layout::Layout;
use crate::strife::{finish_strife, note_strife};
use live_fleet::{Fleet, Moves, pull_moves};
use photo_script::{Command, Script, devices_of};
use std::alloc::{AllocError, Global};

/// Runs the script, and appends its drawing to a text.
pub fn push_run(
    alloc: Global,
    text: &mut String,
    script: &Script,
    layout: Layout,
    columned: &Columned,
) -> Result<(), AllocError> {
    let mut drawing = Drawing::new(alloc, layout, script.devices())?;
    draw_run(alloc, &mut drawing, script, columned)?;
    push_drawing(text, &drawing)
}

fn push_drawing(text: &mut String, drawing: &Drawing) -> Result<(), AllocError> {
    text.push_str(drawing.below.as_str())?;
    text.push_str(drawing.above.as_str())
}

fn draw_run(
    alloc: Global,
    drawing: &mut Drawing,
    script: &Script,
    columned: &Columned,
) -> Result<(), AllocError> {
    let mut fleet = Fleet::of_script(alloc, script)?;
    draw_commands(drawing, script, &mut fleet, columned)
}

// Draws each command in its column, and at the end the conflicts that are left.
fn draw_commands(
    drawing: &mut Drawing,
    script: &Script,
    fleet: &mut Fleet,
    columned: &Columned,
) -> Result<(), AllocError>
    requires devices { length fleet.old.devices ≡ length script.now.names }
    requires none { fleet.old.commands ≡ 0 }
{
    for place in 0..script.commands() {
        let column = columned.columns.get(place).copied().unwrap_or(0);
        draw_next(drawing, script, fleet, place as u32 + 1, column)?;
        note_strife(drawing, script, fleet, place as u32 + 1, column)?;
    }
    finish_strife(drawing)
}

// Runs the command of that number, and draws it.
fn draw_next(
    drawing: &mut Drawing,
    script: &Script,
    fleet: &mut Fleet,
    number: u32,
    column: u32,
) -> Result<(), AllocError>
    requires first { 0 < number }
    requires last { number ≤ length script.now.commands }
    requires devices { length fleet.old.devices ≡ length script.now.names }
    requires room { fleet.old.commands < 4_294_967_295 }
    ensures long { length fleet.new.devices ≡ length fleet.old.devices }
    ensures count { fleet.new.commands ≤ fleet.old.commands + 1 }
{
    let moves = moved_by(drawing.alloc, fleet, script.command(number))?;
    let report = fleet.run(script.command(number))?;
    draw_command(drawing, script, number, column, &report, &moves)
}

// What a pull moves, or would move; nothing of another command.
fn moved_by(alloc: Global, fleet: &Fleet, command: &Command) -> Result<Option<Moves>, AllocError> {
    let (target, Some(source)) = devices_of(command) else {
        return Ok(None);
    };
    let devices = fleet.devices();
    let (Some(target), Some(source)) = (
        devices.get(usize::from(target)),
        devices.get(usize::from(source)),
    ) else {
        return Ok(None);
    };
    match pull_moves(alloc, target, source) {
        Ok(moves) => Ok(Some(moves)),
        Err(error) => Err(error),
    }
}
