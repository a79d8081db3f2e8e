//! What happened to a picture along a run, line by line, and why devices don't have it at the end.
ghost use Rattle.std.specs.Prelude.{◌≡◌, ◌≤◌, ◌<◌, ◌+◌, length};

use crate::current::current_of;
use crate::happenings::{Happened, Happening, Moment, devices_before, happenings_of, is_held};
use crate::lines::push_what;
use crate::names::{device_name, push_version};
use crate::reasons::push_unselected;
use crate::standing::{Standing, standing_of};
use crate::table::Table;
use live_fleet::Fleet;
use photo_device::{Device, Held};
use photo_script::Script;
use photo_version::Version;
use std::alloc::{AllocError, Global};

// How a device lost a version, and at which command.
#[derive(Clone, Copy)]
struct Loss {
    number: u32,
    version: Version,
    is_handed: bool,
}

// What is told of a picture: a row for each thing that happened, and of each device what it lost last.
#[derive(Drop)]
struct Story {
    picture: u32,
    table: Table,
    losses: Vec<Option<Loss>>,
}

/// Appends the text of `story` to another.
pub fn push_story(
    alloc: Global,
    text: &mut String,
    script: &Script,
    picture: u32,
) -> Result<(), AllocError> {
    let mut fleet = Fleet::of_script(alloc, script)?;
    push_run_story(alloc, text, script, &mut fleet, picture)
}

fn push_run_story(
    alloc: Global,
    text: &mut String,
    script: &Script,
    fleet: &mut Fleet,
    picture: u32,
) -> Result<(), AllocError>
    requires devices { length fleet.old.devices ≡ length script.now.names }
    requires none { fleet.old.commands ≡ 0 }
{
    let losses = vec![in alloc; None; script.devices()]?;
    let mut story = Story {
        picture,
        table: Table::new(alloc, 3),
        losses,
    };
    tell_run(alloc, &mut story, script, fleet)?;
    push_told(alloc, text, &story, script, fleet)
}

// Runs the script, and adds a row for each thing that happens to the picture.
fn tell_run(
    alloc: Global,
    story: &mut Story,
    script: &Script,
    fleet: &mut Fleet,
) -> Result<(), AllocError>
    requires devices { length fleet.old.devices ≡ length script.now.names }
    requires none { fleet.old.commands ≡ 0 }
{
    add_heading(story)?;
    for place in 0..script.commands() {
        tell_next(alloc, story, script, fleet, place as u32 + 1)?;
    }
    Ok(())
}

// The names of the columns.
fn add_heading(story: &mut Story) -> Result<(), AllocError> {
    let picture = story.picture;
    add_cell(&mut story.table, "command")?;
    add_cell(&mut story.table, "device")?;
    write!(story.table.cells, "what happened to picture {picture}")?;
    story.table.end_cell()
}

fn add_cell(table: &mut Table, cell: &str) -> Result<(), AllocError> {
    table.cells.push_str(cell)?;
    table.end_cell()
}

// Runs the command of that number, and adds what it did.
fn tell_next(
    alloc: Global,
    story: &mut Story,
    script: &Script,
    fleet: &mut Fleet,
    number: u32,
) -> Result<(), AllocError>
    requires first { 0 < number }
    requires last { number ≤ length script.now.commands }
    requires devices { length fleet.old.devices ≡ length script.now.names }
    requires room { fleet.old.commands < 4_294_967_295 }
    ensures long { length fleet.new.devices ≡ length fleet.old.devices }
    ensures count { fleet.new.commands ≤ fleet.old.commands + 1 }
{
    let before = devices_before(alloc, fleet, script.command(number))?;
    let told = tell_beside(story, script, fleet, number, &before);
    drop(before);
    told
}

fn tell_beside(
    story: &mut Story,
    script: &Script,
    fleet: &mut Fleet,
    number: u32,
    before: &[Device],
) -> Result<(), AllocError>
    requires first { 0 < number }
    requires last { number ≤ length script.now.commands }
    requires devices { length fleet.old.devices ≡ length script.now.names }
    requires room { fleet.old.commands < 4_294_967_295 }
    ensures long { length fleet.new.devices ≡ length fleet.old.devices }
    ensures count { fleet.new.commands ≤ fleet.old.commands + 1 }
{
    let _report = fleet.run(script.command(number))?;
    let moment = Moment {
        script,
        fleet,
        number,
        command: script.command(number),
        before,
    };
    tell_moment(story, &moment)
}

fn tell_moment(story: &mut Story, moment: &Moment<'_>) -> Result<(), AllocError> {
    let list = happenings_of(*story.table.cells.allocator(), moment, story.picture)?;
    tell_list(story, moment, &list)
}

fn tell_list(
    story: &mut Story,
    moment: &Moment<'_>,
    list: &[Happened<'_>],
) -> Result<(), AllocError> {
    for event in list {
        note_loss(story, moment.number, event);
        add_event(&mut story.table, moment, event)?;
    }
    Ok(())
}

// Notes what a device lost.
fn note_loss(story: &mut Story, number: u32, event: &Happened<'_>) {
    let is_handed = match event.what {
        Happening::GivenUp => false,
        Happening::HandedOver => true,
        _ => return,
    };
    if let Some(loss) = story.losses.get_mut(usize::from(event.device)) {
        *loss = Some(Loss {
            number,
            version: event.held.version,
            is_handed,
        });
    }
}

fn add_event(
    table: &mut Table,
    moment: &Moment<'_>,
    event: &Happened<'_>,
) -> Result<(), AllocError> {
    let number = moment.number;
    write!(table.cells, "{number}")?;
    table.end_cell()?;
    add_cell(table, device_name(moment.script, event.device))?;
    push_what(&mut table.cells, moment, event)?;
    table.end_cell()
}

// The story, and behind it who doesn't have the picture.
fn push_told(
    alloc: Global,
    text: &mut String,
    story: &Story,
    script: &Script,
    fleet: &Fleet,
) -> Result<(), AllocError> {
    let mut versions = Vec::new(alloc);
    for held in fleet.log() {
        if held.picture.value() == story.picture {
            versions.push(held)?;
        }
    }
    push_versions(alloc, text, story, script, fleet, &versions)
}

fn push_versions(
    alloc: Global,
    text: &mut String,
    story: &Story,
    script: &Script,
    fleet: &Fleet,
    versions: &[&Held],
) -> Result<(), AllocError> {
    let picture = story.picture;
    if versions.is_empty() {
        return writeln!(text, "no command made picture {picture}");
    }
    story.table.push_to(text, 0)?;
    let current = current_of(alloc, versions)?;
    push_lacking(alloc, text, story, script, fleet, &current)
}

// A table of the devices that lack a current version.
fn push_lacking(
    alloc: Global,
    text: &mut String,
    story: &Story,
    script: &Script,
    fleet: &Fleet,
    current: &[&Held],
) -> Result<(), AllocError> {
    let mut table = Table::new(alloc, 3);
    for device in fleet.devices() {
        add_lacking(&mut table, story, script, fleet, device, current)?;
    }
    if table.cells.is_empty() {
        return text.push_str("\neach device has each current version\n");
    }
    text.push_str("\nwho lacks a current version, and why:\n")?;
    table.push_to(text, 0)
}

fn add_lacking(
    table: &mut Table,
    story: &Story,
    script: &Script,
    fleet: &Fleet,
    device: &Device,
    current: &[&Held],
) -> Result<(), AllocError> {
    for held in current {
        let held = *held;
        if !is_held(device, held) {
            table.cells.push_str("  ")?;
            add_cell(table, device_name(script, device.author().value()))?;
            push_version(&mut table.cells, script, held.version)?;
            table.end_cell()?;
            push_why(&mut table.cells, device, held)?;
            push_loss(&mut table.cells, story, script, fleet, device)?;
            table.end_cell()?;
        }
    }
    Ok(())
}

// Why a device lacks a current version. What it knows of it and doesn't hold its filter doesn't select, since it is sound.
fn push_why(text: &mut String, device: &Device, held: &Held) -> Result<(), AllocError> {
    match standing_of(device, held.picture, held.version) {
        Standing::Unknown => text.push_str("doesn't know of it"),
        _ => push_unselected(text, device, held),
    }
}

// What the device lost last, where it holds no version of the picture any more.
fn push_loss(
    text: &mut String,
    story: &Story,
    script: &Script,
    fleet: &Fleet,
    device: &Device,
) -> Result<(), AllocError> {
    let place = usize::from(device.author().value());
    let Some(Some(loss)) = story.losses.get(place).copied() else {
        return Ok(());
    };
    if holds_some(fleet.log(), device, story.picture) {
        return Ok(());
    }
    let number = loss.number;
    text.push_str(if loss.is_handed {
        "; handed "
    } else {
        "; gave up "
    })?;
    push_version(text, script, loss.version)?;
    let over = if loss.is_handed { "over " } else { "" };
    write!(text, " {over}in {number}")
}

fn holds_some(log: &[Held], device: &Device, picture: u32) -> bool {
    for held in log {
        if held.picture.value() == picture && is_held(device, held) {
            return true;
        }
    }
    false
}
