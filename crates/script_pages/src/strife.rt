//! When devices hold versions in conflict, and how that is drawn.
ghost use Rattle.std.specs.Prelude.{◌≤◌, ◌<◌, length};

use crate::drawing::{Drawing, Spot};
use live_fleet::Fleet;
use photo_device::{Conflict, Device};
use photo_script::{Script, devices_of};
use script_views::{device_name, is_change, push_version};
use std::alloc::AllocError;

/// A device's conflicts: since which column it has some, and of how many pictures.
#[derive(Clone, Copy)]
pub struct Since {
    column: u32,
    pictures: usize,
}

/// Notes the conflicts of the devices that the command of that number may have changed, behind it: where there are more than
/// before they get a mark, and where there are none any more a band is drawn from the first to here. A pull changes its source
/// too, whose out loses what it hands over.
pub fn note_strife(
    drawing: &mut Drawing,
    script: &Script,
    fleet: &Fleet,
    number: u32,
    column: u32,
) -> Result<(), AllocError>
    requires first { 0 < number }
    requires within { number ≤ length script.now.commands }
{
    let command = script.command(number);
    if !is_change(command) {
        return Ok(());
    }
    let (device, source) = devices_of(command);
    note_spot(drawing, script, fleet, number, Spot { column, device })?;
    match source {
        Some(device) => note_spot(drawing, script, fleet, number, Spot { column, device }),
        None => Ok(()),
    }
}

fn note_spot(
    drawing: &mut Drawing,
    script: &Script,
    fleet: &Fleet,
    number: u32,
    spot: Spot,
) -> Result<(), AllocError> {
    match fleet.devices().get(usize::from(spot.device)) {
        Some(device) => note_device(drawing, script, device, number, spot),
        None => Ok(()),
    }
}

fn note_device(
    drawing: &mut Drawing,
    script: &Script,
    device: &Device,
    number: u32,
    spot: Spot,
) -> Result<(), AllocError> {
    let conflicts = device.conflicts()?;
    note_conflicts(drawing, script, &conflicts, number, spot)
}

fn note_conflicts(
    drawing: &mut Drawing,
    script: &Script,
    conflicts: &[Conflict],
    number: u32,
    spot: Spot,
) -> Result<(), AllocError> {
    let place = usize::from(spot.device);
    let pictures = conflicts.len();
    let before = drawing.strife.get(place).copied().unwrap_or(None);
    let (column, known) = match before {
        Some(since) => (since.column, since.pictures),
        None => (spot.column, 0),
    };
    if pictures > known {
        draw_alarm(drawing, script, spot, number, conflicts)?;
    }
    if pictures == 0 && known > 0 {
        let end = drawing.layout.x(spot.column);
        draw_band(drawing, u64::from(spot.device), column, end)?;
    }
    if let Some(since) = drawing.strife.get_mut(place) {
        *since = if pictures > 0 {
            Some(Since { column, pictures })
        } else {
            None
        };
    }
    Ok(())
}

/// Draws the bands of the conflicts that are left at the end.
pub fn finish_strife(drawing: &mut Drawing) -> Result<(), AllocError> {
    let end = drawing.layout.end();
    for place in 0..drawing.strife.len() {
        if let Some(since) = drawing.strife.get(place).copied().unwrap_or(None) {
            draw_band(drawing, place as u64, since.column, end)?;
        }
    }
    Ok(())
}

fn draw_band(drawing: &mut Drawing, place: u64, column: u32, end: u64) -> Result<(), AllocError> {
    let (from, y) = (
        drawing.layout.x(column),
        drawing.layout.y(place.min(65_535) as u16),
    );
    writeln!(
        drawing.below,
        "<path class=\"strife\" d=\"M{from} {y}H{end}\"/>"
    )
}

// A mark with the pictures in conflict and their versions.
fn draw_alarm(
    drawing: &mut Drawing,
    script: &Script,
    spot: Spot,
    number: u32,
    conflicts: &[Conflict],
) -> Result<(), AllocError> {
    let name = device_name(script, spot.device);
    write!(
        drawing.above,
        "<g><title>{number} leaves {name} with versions in conflict:"
    )?;
    for conflict in conflicts {
        push_conflict(&mut drawing.above, script, conflict)?;
    }
    drawing.above.push_str("</title>")?;
    drawing.alarm(spot)?;
    drawing.above.push_str("</g>\n")
}

fn push_conflict(
    title: &mut String,
    script: &Script,
    conflict: &Conflict,
) -> Result<(), AllocError> {
    let picture = conflict.picture.value();
    write!(title, " {picture} (")?;
    let mut gap = "";
    for version in conflict.versions.as_slice() {
        title.push_str(gap)?;
        push_version(title, script, *version)?;
        gap = " ";
    }
    title.push_str(")")
}
