//! The run of a script as a page to step through: its fixed parts, the chart, and the run as data.
ghost use Rattle.std.specs.Prelude.{◌≡◌, ◌≤◌, ◌<◌, ◌+◌, length};

use crate::chart::{push_chart, push_places};
use crate::columns::{Columns, picture_of};
use crate::filters::push_quoted_filter;
use crate::json::push_quoted;
use crate::learning::push_learning;
use crate::page_text::{DEVICES, FOLLOWING, HEAD, MIDDLE, REPLAY};
use live_fleet::Fleet;
use photo_device::{Device, Held, Place};
use photo_script::{Command, Script, devices_of, report_text};
use script_text::command_text;
use script_views::{
    Happened, Happening, Moment, devices_before, first_seen, happenings_of, superseder,
};
use std::alloc::{AllocError, Global};

/// Appends the text of `page` to another: the script's run as HTML. `name` is what the script is called in the page's title.
pub fn push_page(
    alloc: Global,
    text: &mut String,
    script: &Script,
    name: &str,
) -> Result<(), AllocError> {
    text.push_str(HEAD)?;
    push_chart(alloc, text, script, Columns::Commands)?;
    text.push_str(MIDDLE)?;
    push_data(alloc, text, script, name)?;
    text.push_str(REPLAY)?;
    text.push_str(DEVICES)?;
    text.push_str(FOLLOWING)
}

// The run as JSON: its name, the devices, where their lanes and the commands' columns lie in the chart, the commands, and the versions.
fn push_data(
    alloc: Global,
    text: &mut String,
    script: &Script,
    name: &str,
) -> Result<(), AllocError> {
    text.push_str("{\"name\":")?;
    push_quoted(text, name)?;
    text.push_str(",\n\"devices\":[")?;
    push_names(text, script)?;
    text.push_str("],\n\"filters\":[")?;
    push_filters(text, script)?;
    text.push_str("],\n")?;
    push_places(alloc, text, script)?;
    push_fleet_data(alloc, text, script)
}

fn push_names(text: &mut String, script: &Script) -> Result<(), AllocError> {
    let mut comma = "";
    for place in 0..script.devices() {
        text.push_str(comma)?;
        push_quoted(text, script.name(place as u16))?;
        comma = ",";
    }
    Ok(())
}

// The devices' filters at first.
fn push_filters(text: &mut String, script: &Script) -> Result<(), AllocError> {
    let mut comma = "";
    for place in 0..script.devices() {
        text.push_str(comma)?;
        push_quoted_filter(text, script.filter(place as u16))?;
        comma = ",";
    }
    Ok(())
}

fn push_fleet_data(alloc: Global, text: &mut String, script: &Script) -> Result<(), AllocError> {
    let mut fleet = Fleet::of_script(alloc, script)?;
    push_run_data(alloc, text, script, &mut fleet)
}

fn push_run_data(
    alloc: Global,
    text: &mut String,
    script: &Script,
    fleet: &mut Fleet,
) -> Result<(), AllocError>
    requires devices { length fleet.old.devices ≡ length script.now.names }
    requires none { fleet.old.commands ≡ 0 }
{
    text.push_str("\"commands\":[")?;
    push_commands(alloc, text, script, fleet)?;
    text.push_str("],\n\"versions\":[")?;
    push_versions(text, fleet.log())?;
    text.push_str("]}")
}

// Runs the script, and appends each command to the text.
fn push_commands(
    alloc: Global,
    text: &mut String,
    script: &Script,
    fleet: &mut Fleet,
) -> Result<(), AllocError>
    requires devices { length fleet.old.devices ≡ length script.now.names }
    requires none { fleet.old.commands ≡ 0 }
{
    for place in 0..script.commands() {
        push_next(alloc, text, script, fleet, place as u32 + 1)?;
    }
    Ok(())
}

fn push_next(
    alloc: Global,
    text: &mut String,
    script: &Script,
    fleet: &mut Fleet,
    number: u32,
) -> Result<(), AllocError>
    requires first { 0 < number }
    requires last { number ≤ length script.now.commands }
    requires devices { length fleet.old.devices ≡ length script.now.names }
    requires room { fleet.old.commands < 4_294_967_295 }
    ensures long { length fleet.new.devices ≡ length fleet.old.devices }
    ensures count { fleet.new.commands ≤ fleet.old.commands + 1 }
{
    let before = devices_before(alloc, fleet, script.command(number))?;
    let pushed = push_beside(alloc, text, script, fleet, number, &before);
    drop(before);
    pushed
}

fn push_beside(
    alloc: Global,
    text: &mut String,
    script: &Script,
    fleet: &mut Fleet,
    number: u32,
    before: &[Device],
) -> Result<(), AllocError>
    requires first { 0 < number }
    requires last { number ≤ length script.now.commands }
    requires devices { length fleet.old.devices ≡ length script.now.names }
    requires room { fleet.old.commands < 4_294_967_295 }
    ensures long { length fleet.new.devices ≡ length fleet.old.devices }
    ensures count { fleet.new.commands ≤ fleet.old.commands + 1 }
{
    let told = run_told(alloc, script, fleet, number)?;
    let moment = Moment {
        script,
        fleet,
        number,
        command: script.command(number),
        before,
    };
    push_command(alloc, text, &moment, &told)
}

// Runs the command of that number, and gives its report's text.
fn run_told(
    alloc: Global,
    script: &Script,
    fleet: &mut Fleet,
    number: u32,
) -> Result<String, AllocError>
    requires first { 0 < number }
    requires last { number ≤ length script.now.commands }
    requires devices { length fleet.old.devices ≡ length script.now.names }
    requires room { fleet.old.commands < 4_294_967_295 }
    ensures long { length fleet.new.devices ≡ length fleet.old.devices }
    ensures count { fleet.new.commands ≤ fleet.old.commands + 1 }
{
    let report = fleet.run_number(script, number)?;
    report_text(alloc, script, number, &report)
}

fn push_command(
    alloc: Global,
    text: &mut String,
    moment: &Moment<'_>,
    told: &str,
) -> Result<(), AllocError> {
    text.push_str(if moment.number == 1 {
        "\n{\"text\":"
    } else {
        ",\n{\"text\":"
    })?;
    push_line(alloc, text, moment)?;
    text.push_str(",\"report\":")?;
    push_quoted(text, told)?;
    push_devices(text, moment.command)?;
    push_did(alloc, text, moment)?;
    push_device_changes(text, moment)?;
    text.push_str("}")
}

fn push_line(alloc: Global, text: &mut String, moment: &Moment<'_>) -> Result<(), AllocError> {
    let line = command_text(alloc, moment.script, moment.command)?;
    push_quoted(text, &line)
}

// The devices that the command works on.
fn push_devices(text: &mut String, command: &Command) -> Result<(), AllocError> {
    let (device, source) = devices_of(command);
    match source {
        Some(source) => write!(text, ",\"devices\":[{device},{source}]"),
        None => write!(text, ",\"devices\":[{device}]"),
    }
}

// What the command did to versions, if it did something to some.
fn push_did(alloc: Global, text: &mut String, moment: &Moment<'_>) -> Result<(), AllocError> {
    let list = happenings_of(alloc, moment, picture_of(moment.command))?;
    if list.is_empty() {
        return Ok(());
    }
    text.push_str(",\"did\":[")?;
    push_groups(text, moment, &list)?;
    text.push_str("]")
}

// Each kind of happening.
const KINDS: &[Happening] = &[
    Happening::Made(Place::Store),
    Happening::Made(Place::Out),
    Happening::Taken,
    Happening::Handed(Place::Store),
    Happening::Handed(Place::Out),
    Happening::Noticed,
    Happening::Learned,
    Happening::GivenUp,
    Happening::HandedOver,
    Happening::Moved(Place::Store),
    Happening::Moved(Place::Out),
    Happening::Forgotten,
];

// The name of a happening in the data.
fn word_of(what: Happening) -> &'static str {
    match what {
        Happening::Made(Place::Store) => "made in its store",
        Happening::Made(Place::Out) => "made in its out",
        Happening::Taken => "took",
        Happening::Handed(Place::Store) => "was handed, into its store",
        Happening::Handed(Place::Out) => "was handed, into its out",
        Happening::Noticed => "was told of",
        Happening::Learned => "learned of",
        Happening::GivenUp => "gave up",
        Happening::HandedOver => "handed over",
        Happening::Moved(Place::Store) => "moved to its store",
        Happening::Moved(Place::Out) => "moved to its out",
        Happening::Forgotten => "forgot",
    }
}

// The versions of each kind of happening, first on the device that the command names first.
fn push_groups(
    text: &mut String,
    moment: &Moment<'_>,
    list: &[Happened<'_>],
) -> Result<(), AllocError> {
    let (device, source) = devices_of(moment.command);
    for what in KINDS {
        push_group(text, moment, list, (device, *what))?;
    }
    if let Some(source) = source {
        push_group(text, moment, list, (source, Happening::HandedOver))?;
    }
    Ok(())
}

fn push_group(
    text: &mut String,
    moment: &Moment<'_>,
    list: &[Happened<'_>],
    kind: (u16, Happening),
) -> Result<(), AllocError> {
    let mut versions = String::new(*text.allocator());
    for event in list {
        if event.device == kind.0 && event.what == kind.1 {
            push_number(&mut versions, event.place)?;
        }
    }
    if versions.is_empty() {
        return Ok(());
    }
    let comma = if text.as_str().ends_with('[') {
        ""
    } else {
        ","
    };
    let (device, word) = (kind.0, word_of(kind.1));
    write!(text, "{comma}[{device},\"{word}\",[{versions}]")?;
    if matches!(kind.1, Happening::GivenUp | Happening::Learned) {
        push_superseders(text, moment, list, kind.1)?;
    }
    text.push_str("]")
}

fn push_number(list: &mut String, number: usize) -> Result<(), AllocError> {
    let comma = if list.is_empty() { "" } else { "," };
    write!(list, "{comma}{number}")
}

// For each version that was given up or learned of the one that supersedes it, or -1.
fn push_superseders(
    text: &mut String,
    moment: &Moment<'_>,
    list: &[Happened<'_>],
    what: Happening,
) -> Result<(), AllocError> {
    let mut comma = ",[";
    for event in list {
        if event.what == what {
            text.push_str(comma)?;
            comma = ",";
            push_superseder(text, moment, event)?;
        }
    }
    text.push_str("]")
}

fn push_superseder(
    text: &mut String,
    moment: &Moment<'_>,
    event: &Happened<'_>,
) -> Result<(), AllocError> {
    let device = moment.fleet.devices().get(usize::from(event.device));
    let found = match device {
        Some(device) => superseder(moment.fleet.log(), device, event.held),
        None => None,
    };
    match found {
        Some((place, _)) => write!(text, "{place}"),
        None => text.push_str("-1"),
    }
}

// The filter and the epoch of a device that got another one, and what the device that the command names first learned.
fn push_device_changes(text: &mut String, moment: &Moment<'_>) -> Result<(), AllocError> {
    let Some(seen) = first_seen(moment) else {
        return Ok(());
    };
    if let Command::Narrow { .. } | Command::Refilter { .. } = moment.command {
        push_filter(text, seen.device, seen.is)?;
    }
    push_knows(text, seen.device, seen.was, seen.is)
}

fn push_filter(text: &mut String, place: u16, device: &Device) -> Result<(), AllocError> {
    let epoch = device.author().epoch();
    write!(text, ",\"filter\":[[{place},")?;
    push_quoted_filter(text, device.filter())?;
    write!(text, ",{epoch}]]")
}

fn push_knows(text: &mut String, place: u16, was: &Device, is: &Device) -> Result<(), AllocError> {
    let mut learned = String::new(*text.allocator());
    push_learning(&mut learned, place, was, is)?;
    if learned.is_empty() {
        return Ok(());
    }
    write!(text, ",\"knows\":[{learned}]")
}

// Each version: its picture, its author's device and epoch, its number, and its record.
fn push_versions(text: &mut String, log: &[Held]) -> Result<(), AllocError> {
    let mut front = "\n[";
    for held in log {
        text.push_str(front)?;
        front = ",\n[";
        push_version_data(text, held)?;
    }
    Ok(())
}

fn push_version_data(text: &mut String, held: &Held) -> Result<(), AllocError> {
    let (picture, author, number) = (held.picture, held.version.author(), held.version.n());
    let (device, epoch) = (author.value(), author.epoch());
    write!(text, "{picture},{device},{epoch},{number},")?;
    push_record(text, held)?;
    text.push_str("]")
}

fn push_record(text: &mut String, held: &Held) -> Result<(), AllocError> {
    let (alloc, record) = (*text.allocator(), &held.content);
    let shown = format!(in alloc; "{record}")?;
    push_quoted(text, &shown)
}
