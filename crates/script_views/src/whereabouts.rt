//! Where the pictures are once a script has run: a table, and below it conflicts and the pulls that would move something.
ghost use Rattle.std.specs.Prelude.{◌≡◌, length};

use crate::current::{current_of, is_current};
use crate::moves::push_moves;
use crate::names::{device_name, push_version};
use crate::playing::play;
use crate::standing::{Standing, standing_of};
use crate::table::Table;
use live_fleet::Fleet;
use photo_device::{Device, Held};
use photo_record::Record;
use photo_script::Script;
use std::alloc::{AllocError, Global};
use std::collections::BTreeMap;

// What the marks of a cell mean.
const LEGEND: &str =
    "\nV in the store, [V] in the out, ~V only known, -V not known; V* superseded\n";

// What stands above the conflicts.
const CONFLICTS: &str = "\nconflicts, which an edit on a device that has all of them resolves:\n";

// What stands above the reasons.
const REASONS: &str = "\nonly known, since the device's filter doesn't select it:\n";

/// The options of `where`.
#[derive(Drop)]
pub struct Wanted {
    /// The pictures; all where none is named.
    pub pictures: Vec<u32>,
    /// The most commands to run.
    pub commands: u32,
    /// The most columns of a table; 0 sets no limit.
    pub width: usize,
}

// What is said of pictures: a line of a table for each, one more of each that is in conflict and of each version that some
// device only knows; and which devices' filters are to be shown.
#[derive(Drop)]
struct Lines {
    table: Table,
    conflicts: String,
    reasons: String,
    shown: Vec<bool>,
}

/// Appends the text of `where` to another: a line for each of the pictures, or for each picture that was made where none is
/// named.
pub fn push_whereabouts(
    alloc: Global,
    text: &mut String,
    script: &Script,
    asked: &Wanted,
) -> Result<(), AllocError> {
    let mut fleet = Fleet::of_script(alloc, script)?;
    push_played(alloc, text, script, &mut fleet, asked)
}

// Runs the script on its devices, and tells where the pictures are then.
fn push_played(
    alloc: Global,
    text: &mut String,
    script: &Script,
    fleet: &mut Fleet,
    asked: &Wanted,
) -> Result<(), AllocError>
    requires devices { length fleet.old.devices ≡ length script.now.names }
    requires none { fleet.old.commands ≡ 0 }
{
    play(fleet, script, asked.commands)?;
    push_whereabouts_in(alloc, text, script, fleet, asked)
}

/// Appends the same text, where the script has run on that fleet. No command runs, whatever number is asked for.
pub fn push_whereabouts_in(
    alloc: Global,
    text: &mut String,
    script: &Script,
    fleet: &Fleet,
    asked: &Wanted,
) -> Result<(), AllocError> {
    push_pictures(alloc, text, script, fleet, asked)?;
    push_moves(alloc, text, script, fleet, &asked.pictures)
}

// What is said of single pictures.
fn push_pictures(
    alloc: Global,
    text: &mut String,
    script: &Script,
    fleet: &Fleet,
    asked: &Wanted,
) -> Result<(), AllocError> {
    let mut histories = BTreeMap::new(alloc);
    note_histories(alloc, &mut histories, fleet, &asked.pictures)?;
    push_histories(alloc, text, script, fleet, asked, &histories)
}

// Notes the versions of each picture that is asked for, oldest first.
fn note_histories<'a>(
    alloc: Global,
    histories: &mut BTreeMap<u32, Vec<&'a Held>>,
    fleet: &'a Fleet,
    pictures: &[u32],
) -> Result<(), AllocError> {
    for held in fleet.log() {
        let picture = held.picture.value();
        if is_asked(pictures, picture) {
            histories
                .entry(picture)?
                .or_insert(Vec::new(alloc))
                .push(held)?;
        }
    }
    Ok(())
}

/// Whether a picture is asked for. Where none is named, each is.
pub fn is_asked(pictures: &[u32], picture: u32) -> bool {
    pictures.is_empty() || pictures.contains(&picture)
}

fn push_histories(
    alloc: Global,
    text: &mut String,
    script: &Script,
    fleet: &Fleet,
    asked: &Wanted,
    histories: &BTreeMap<u32, Vec<&Held>>,
) -> Result<(), AllocError> {
    let shown = vec![in alloc; false; script.devices()]?;
    let mut lines = Lines {
        table: Table::new(alloc, script.devices().saturating_add(2)),
        conflicts: String::new(alloc),
        reasons: String::new(alloc),
        shown,
    };
    fill(alloc, &mut lines, script, fleet, histories)?;
    push_lines(text, &lines, asked, histories)?;
    push_reasons(text, &lines, script, fleet)?;
    push_conflicts(text, &lines)
}

fn fill(
    alloc: Global,
    lines: &mut Lines,
    script: &Script,
    fleet: &Fleet,
    histories: &BTreeMap<u32, Vec<&Held>>,
) -> Result<(), AllocError> {
    add_heading(&mut lines.table, script)?;
    for (picture, versions) in histories.iter() {
        add_picture(alloc, lines, script, fleet, *picture, versions)?;
    }
    Ok(())
}

// The names of the columns.
fn add_heading(table: &mut Table, script: &Script) -> Result<(), AllocError> {
    table.cells.push_str("picture")?;
    table.end_cell()?;
    table.cells.push_str("current")?;
    table.end_cell()?;
    for place in 0..script.devices() {
        table.cells.push_str(device_name(script, place as u16))?;
        table.end_cell()?;
    }
    Ok(())
}

fn add_picture(
    alloc: Global,
    lines: &mut Lines,
    script: &Script,
    fleet: &Fleet,
    picture: u32,
    versions: &[&Held],
) -> Result<(), AllocError> {
    let current = current_of(alloc, versions)?;
    add_lines(lines, script, fleet, picture, versions, &current)
}

// The line of a picture, and that of its conflict.
fn add_lines(
    lines: &mut Lines,
    script: &Script,
    fleet: &Fleet,
    picture: u32,
    versions: &[&Held],
    current: &[&Held],
) -> Result<(), AllocError> {
    let table = &mut lines.table;
    write!(table.cells, "{picture}")?;
    table.end_cell()?;
    push_current(&mut table.cells, script, current)?;
    table.end_cell()?;
    for device in fleet.devices() {
        push_standings(&mut table.cells, script, device, versions, current)?;
        table.end_cell()?;
    }
    for held in current {
        note_reason(lines, script, fleet, *held)?;
    }
    push_conflict(&mut lines.conflicts, script, picture, current)
}

// A line of a version that some devices only know, with what it says and their names.
fn note_reason(
    lines: &mut Lines,
    script: &Script,
    fleet: &Fleet,
    held: &Held,
) -> Result<(), AllocError> {
    let mut names = String::new(*lines.reasons.allocator());
    for device in fleet.devices() {
        if standing_of(device, held.picture, held.version) == Standing::Known {
            let place = device.author().value();
            let name = device_name(script, place);
            write!(names, " {name}")?;
            note_shown(lines, held, place);
        }
    }
    push_reason(&mut lines.reasons, script, held, &names)
}

// The device's filter is shown, unless the version is a removal, which no filter selects.
fn note_shown(lines: &mut Lines, held: &Held, place: u16) {
    if let Record::Removed = &held.content {
        return;
    }
    if let Some(shown) = lines.shown.get_mut(usize::from(place)) {
        *shown = true;
    }
}

fn push_reason(
    reasons: &mut String,
    script: &Script,
    held: &Held,
    names: &str,
) -> Result<(), AllocError> {
    if names.is_empty() {
        return Ok(());
    }
    let (picture, record) = (held.picture, &held.content);
    write!(reasons, "  {picture} ")?;
    push_version(reasons, script, held.version)?;
    write!(reasons, ", {record}:{names}\n")
}

// The current versions; two or more of them are in conflict.
fn push_current(cells: &mut String, script: &Script, current: &[&Held]) -> Result<(), AllocError> {
    let mut between = "";
    for held in current {
        cells.push_str(between)?;
        between = " ! ";
        push_version(cells, script, held.version)?;
        if let Record::Removed = &held.content {
            cells.push_str(" removed")?;
        }
    }
    Ok(())
}

// How a device stands to each current version, and the other versions that it holds.
fn push_standings(
    cells: &mut String,
    script: &Script,
    device: &Device,
    versions: &[&Held],
    current: &[&Held],
) -> Result<(), AllocError> {
    let mut between = "";
    for held in versions {
        let standing = standing_of(device, held.picture, held.version);
        if let Some((before, behind)) = marks(standing, is_current(current, held.version)) {
            write!(cells, "{between}{before}")?;
            between = " ";
            push_version(cells, script, held.version)?;
            cells.push_str(behind)?;
        }
    }
    Ok(())
}

// What stands before and behind a version's name; nothing is said of one that is superseded and not held.
fn marks(standing: Standing, is_current: bool) -> Option<(&'static str, &'static str)> {
    match (standing, is_current) {
        (Standing::Stored, true) => Some(("", "")),
        (Standing::Stored, false) => Some(("", "*")),
        (Standing::Waiting, true) => Some(("[", "]")),
        (Standing::Waiting, false) => Some(("[", "]*")),
        (Standing::Known, true) => Some(("~", "")),
        (Standing::Unknown, true) => Some(("-", "")),
        (Standing::Known | Standing::Unknown, false) => None,
    }
}

// A line of a picture of which several versions are current.
fn push_conflict(
    text: &mut String,
    script: &Script,
    picture: u32,
    current: &[&Held],
) -> Result<(), AllocError> {
    if current.len() < 2 {
        return Ok(());
    }
    write!(text, "  {picture}:")?;
    for held in current {
        text.push_str(" ")?;
        push_version(text, script, held.version)?;
    }
    text.push_str("\n")
}

fn push_lines(
    text: &mut String,
    lines: &Lines,
    asked: &Wanted,
    histories: &BTreeMap<u32, Vec<&Held>>,
) -> Result<(), AllocError> {
    lines.table.push_to(text, asked.width)?;
    text.push_str(LEGEND)?;
    for picture in &asked.pictures {
        if !histories.contains_key(picture) {
            writeln!(text, "no command made picture {picture}")?;
        }
    }
    Ok(())
}

// Which versions are only known, and the filters of the devices that only know them.
fn push_reasons(
    text: &mut String,
    lines: &Lines,
    script: &Script,
    fleet: &Fleet,
) -> Result<(), AllocError> {
    if lines.reasons.is_empty() {
        return Ok(());
    }
    text.push_str(REASONS)?;
    text.push_str(lines.reasons.as_str())?;
    for device in fleet.devices() {
        let place = device.author().value();
        if lines.shown.get(usize::from(place)).copied() == Some(true) {
            let (name, filter) = (device_name(script, place), device.filter().tree());
            writeln!(text, "  {name} keeps {filter}")?;
        }
    }
    Ok(())
}

fn push_conflicts(text: &mut String, lines: &Lines) -> Result<(), AllocError> {
    if lines.conflicts.is_empty() {
        return Ok(());
    }
    text.push_str(CONFLICTS)?;
    text.push_str(lines.conflicts.as_str())
}
