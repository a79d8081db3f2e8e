//! How each command is drawn, by what came of it.
ghost use Rattle.std.specs.Prelude.{◌≤◌, ◌<◌, length};

use crate::columns::picture_of;
use crate::drawing::{Drawing, Spot};
use crate::filters::{AT_MARK, push_whole_filter, shown_filter};
use live_fleet::Moves;
use photo_device::{Place, SharedHeld};
use photo_filter_rules::Filter;
use photo_pull::PullCounts;
use photo_script::{Command, Report, Script, devices_of};
use script_views::{device_name, push_moved, push_version};
use std::alloc::AllocError;

/// Draws the command of that number in a column, by the report on it and what it moved.
pub fn draw_command(
    drawing: &mut Drawing,
    script: &Script,
    number: u32,
    column: u32,
    report: &Report,
    moves: &Option<Moves>,
) -> Result<(), AllocError>
    requires first { 0 < number }
    requires within { number ≤ length script.now.commands }
{
    let command = script.command(number);
    drawing.above.push_str("<g><title>")?;
    push_title(&mut drawing.above, script, number, command)?;
    push_outcome(&mut drawing.above, script, command, report)?;
    if let Some(moves) = moves {
        push_moves_of(&mut drawing.above, script, report, moves)?;
    }
    drawing.above.push_str("</title>")?;
    draw_marks(drawing, column, command, report)?;
    drawing.above.push_str("</g>\n")
}

// The command's number, its word and its devices.
fn push_title(
    title: &mut String,
    script: &Script,
    number: u32,
    command: &Command,
) -> Result<(), AllocError> {
    let (device, source) = devices_of(command);
    let (word, name) = (word_of(command), device_name(script, device));
    write!(title, "{number} {word} {name}")?;
    if let Some(source) = source {
        let name = device_name(script, source);
        write!(title, " {name}")?;
    }
    match picture_of(command) {
        0 => Ok(()),
        picture => write!(title, " {picture}"),
    }
}

fn word_of(command: &Command) -> &'static str {
    match command {
        Command::New { .. } => "new",
        Command::Edit { .. } => "edit",
        Command::Remove { .. } => "remove",
        Command::Pull { .. } => "pull",
        Command::Narrow { .. } => "narrow",
        Command::Refilter { .. } => "refilter",
        Command::Preview { .. } => "preview",
        Command::List { .. } => "list",
        Command::Conflicts { .. } => "conflicts",
        Command::Knowledge { .. } => "knowledge",
        Command::Knows { .. } => "knows",
    }
}

// What came of the command.
fn push_outcome(
    title: &mut String,
    script: &Script,
    command: &Command,
    report: &Report,
) -> Result<(), AllocError> {
    match report {
        Report::Made { version, place } => {
            title.push_str(" made ")?;
            push_version(title, script, *version)?;
            title.push_str(match place {
                Place::Store => ", in the store",
                Place::Out => ", in the out",
            })
        }
        Report::NotHeld => push_not_held(title, script, command),
        Report::NotNarrower => push_not_narrower(title, command),
        Report::Narrowed(_) | Report::Refiltered { .. } => push_filter(title, command),
        Report::Pulled(counts) | Report::Preview(counts) => push_counts(title, counts),
        _ => Ok(()),
    }
}

// Why a version was not made.
fn push_not_held(title: &mut String, script: &Script, command: &Command) -> Result<(), AllocError> {
    let (device, _) = devices_of(command);
    let name = device_name(script, device);
    write!(
        title,
        ", which is refused: {name} holds no version of the picture"
    )
}

// Why a filter was not narrowed.
fn push_not_narrower(title: &mut String, command: &Command) -> Result<(), AllocError> {
    push_filter(title, command)?;
    title.push_str(", which is refused: the device's filter doesn't cover that one")
}

// The most versions whose names a title has.
const NAMED: usize = 20;

// Which versions a pull moved, or would move: those from an out in brackets.
fn push_moves_of(
    title: &mut String,
    script: &Script,
    report: &Report,
    moves: &Moves,
) -> Result<(), AllocError> {
    if moves.taken.is_empty() && moves.handed.is_empty() {
        return Ok(());
    }
    title.push_str(match report {
        Report::Preview(_) => "; would move",
        _ => "; moved",
    })?;
    let taken = moves.taken.len().min(NAMED);
    let handed = moves.handed.len().min(NAMED - taken);
    push_all_moved(title, script, &moves.taken[..taken], Place::Store)?;
    push_all_moved(title, script, &moves.handed[..handed], Place::Out)?;
    if taken < moves.taken.len() || handed < moves.handed.len() {
        title.push_str(" and more")?;
    }
    Ok(())
}

fn push_all_moved(
    title: &mut String,
    script: &Script,
    versions: &[SharedHeld],
    place: Place,
) -> Result<(), AllocError> {
    for held in versions {
        push_moved(title, script, held, place)?;
    }
    Ok(())
}

// The filter that a command gives a device.
fn filter_in(command: &Command) -> Option<&Filter> {
    match command {
        Command::Narrow { filter, .. } | Command::Refilter { filter, .. } => Some(filter),
        _ => None,
    }
}

fn push_filter(title: &mut String, command: &Command) -> Result<(), AllocError> {
    match filter_in(command) {
        Some(filter) => {
            title.push_str(" to ")?;
            push_whole_filter(title, filter)
        }
        None => Ok(()),
    }
}

fn push_counts(title: &mut String, counts: &PullCounts) -> Result<(), AllocError> {
    let (taken, handed) = (counts.taken, counts.handed);
    let (dropped, notices) = (counts.dropped, counts.notices);
    write!(
        title,
        ": {taken} taken, {handed} handed over, {dropped} dropped, {notices} noticed"
    )
}

// The marks of a command in its column.
fn draw_marks(
    drawing: &mut Drawing,
    column: u32,
    command: &Command,
    report: &Report,
) -> Result<(), AllocError> {
    let (device, source) = devices_of(command);
    let spot = Spot { column, device };
    let from = Spot {
        column,
        device: source.unwrap_or(device),
    };
    match report {
        Report::Made { place, .. } => draw_made(drawing, spot, command, *place),
        Report::NotHeld | Report::NotNarrower => drawing.cross(spot),
        Report::Narrowed(_) | Report::Refiltered { .. } => draw_filter(drawing, spot, command),
        Report::Pulled(counts) => draw_pull(drawing, from, device, counts),
        Report::Preview(_) => drawing.arrow(from, device, "preview"),
        _ => drawing.dot(spot, "asks", 3),
    }
}

fn draw_made(
    drawing: &mut Drawing,
    spot: Spot,
    command: &Command,
    place: Place,
) -> Result<(), AllocError> {
    let class = match command {
        Command::Remove { .. } => "mid gone",
        _ => "mid",
    };
    drawing.label(spot, class, picture_of(command))?;
    let class = match place {
        Place::Store => "kept",
        Place::Out => "waits",
    };
    drawing.dot(spot, class, 5)
}

fn draw_filter(drawing: &mut Drawing, spot: Spot, command: &Command) -> Result<(), AllocError> {
    if let Some(filter) = filter_in(command) {
        note_filter(drawing, spot, filter)?;
    }
    drawing.square(spot)
}

fn note_filter(drawing: &mut Drawing, spot: Spot, filter: &Filter) -> Result<(), AllocError> {
    let shown = shown_filter(drawing.alloc, filter, AT_MARK)?;
    drawing.note(spot, 0, 0, &shown)
}

fn draw_pull(
    drawing: &mut Drawing,
    from: Spot,
    target: u16,
    counts: &PullCounts,
) -> Result<(), AllocError> {
    drawing.arrow(from, target, "pull")?;
    let lower = Spot {
        column: from.column,
        device: from.device.max(target),
    };
    let mut line = 58u64;
    for (letter, count) in [
        ("t", counts.taken),
        ("h", counts.handed),
        ("d", counts.dropped),
    ] {
        if count > 0 {
            drawing.count(lower, line, letter, count)?;
            line = line.saturating_sub(12);
        }
    }
    if line == 58 {
        drawing.note(lower, 5, 34, "-")?;
    }
    Ok(())
}
