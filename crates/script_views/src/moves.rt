//! The pulls that would bring what a device is to keep and hasn't, or take what waits in an out.
ghost use Rattle.std.specs.Prelude.{◌≤◌, ◌<◌, length};

use crate::names::{device_name, push_version};
use crate::whereabouts::is_asked;
use live_fleet::{Fleet, pull_moves};
use photo_device::{Place, SharedHeld};
use photo_script::Script;
use std::alloc::{AllocError, Global};

/// Appends to a text a line for each pull that would bring its target some version of a picture that is asked for.
pub fn push_moves(
    alloc: Global,
    text: &mut String,
    script: &Script,
    fleet: &Fleet,
    pictures: &[u32],
) -> Result<(), AllocError> {
    let mut lines = String::new(alloc);
    push_pulls(alloc, &mut lines, script, fleet, pictures)?;
    if lines.is_empty() {
        text.push_str("\nno pull would bring a version\n")
    } else {
        write!(
            text,
            "\npulls that would bring versions, those from an out in brackets:\n{lines}"
        )
    }
}

// The number of devices of both, the script and the fleet.
fn device_count(script: &Script, fleet: &Fleet) -> u16
    ensures { result ≤ length fleet.now.devices }
{
    script.devices().min(fleet.devices().len()) as u16
}

// The lines of all pulls, by their targets and then by their sources.
fn push_pulls(
    alloc: Global,
    lines: &mut String,
    script: &Script,
    fleet: &Fleet,
    pictures: &[u32],
) -> Result<(), AllocError> {
    for target in 0..device_count(script, fleet) {
        push_pulls_to(alloc, lines, script, fleet, target, pictures)?;
    }
    Ok(())
}

fn push_pulls_to(
    alloc: Global,
    lines: &mut String,
    script: &Script,
    fleet: &Fleet,
    target: u16,
    pictures: &[u32],
) -> Result<(), AllocError>
    requires { target < length fleet.now.devices }
{
    for source in 0..device_count(script, fleet) {
        if source != target {
            push_pull(alloc, lines, script, fleet, (target, source), pictures)?;
        }
    }
    Ok(())
}

// The line of a pull, target before source; nothing if it would bring nothing.
fn push_pull(
    alloc: Global,
    lines: &mut String,
    script: &Script,
    fleet: &Fleet,
    devices: (u16, u16),
    pictures: &[u32],
) -> Result<(), AllocError>
    requires target { devices.0 < length fleet.now.devices }
    requires source { devices.1 < length fleet.now.devices }
{
    let (target, source) = devices;
    let moves = pull_moves(
        alloc,
        &fleet.devices()[usize::from(target)],
        &fleet.devices()[usize::from(source)],
    )?;
    let mut moved = String::new(alloc);
    let taken = push_asked(&mut moved, script, &moves.taken, Place::Store, pictures)?;
    let handed = push_asked(&mut moved, script, &moves.handed, Place::Out, pictures)?;
    push_line(lines, script, devices, &moved, (taken, handed))
}

fn push_line(
    lines: &mut String,
    script: &Script,
    devices: (u16, u16),
    moved: &str,
    counts: (usize, usize),
) -> Result<(), AllocError> {
    if moved.is_empty() {
        return Ok(());
    }
    let (taken, handed) = counts;
    let (target, source) = (
        device_name(script, devices.0),
        device_name(script, devices.1),
    );
    writeln!(
        lines,
        "  pull {target} {source}  takes {taken}, is handed {handed}:{moved}"
    )
}

// The versions of the pictures that are asked for, and how many they are.
fn push_asked(
    moved: &mut String,
    script: &Script,
    versions: &[SharedHeld],
    place: Place,
    pictures: &[u32],
) -> Result<usize, AllocError> {
    let mut count = 0usize;
    for held in versions {
        if is_asked(pictures, held.picture().value()) {
            push_moved(moved, script, held, place)?;
            count = count.saturating_add(1);
        }
    }
    Ok(count)
}

/// Appends a space, and a version with its picture before it: in brackets, if it comes from an out.
pub fn push_moved(
    text: &mut String,
    script: &Script,
    held: &SharedHeld,
    place: Place,
) -> Result<(), AllocError> {
    let (before, after) = match place {
        Place::Store => (" ", ""),
        Place::Out => (" [", "]"),
    };
    let picture = held.picture();
    write!(text, "{before}{picture} ")?;
    push_version(text, script, held.version())?;
    text.push_str(after)
}
