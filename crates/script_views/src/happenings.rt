//! What a command did to versions on its devices: each device is compared before and after it.
use crate::standing::{Standing, standing_of};
use live_fleet::Fleet;
use photo_device::{Device, Held, Place};
use photo_script::{Command, CommandKind, Script, devices_of, kind_of};
use std::alloc::{AllocError, Global};

/// What happened to a version on a device.
#[derive(Clone, Copy, Debug, PartialEq, Eq)]
pub enum Happening {
    /// It was made, and went there.
    Made(Place),
    /// A pull took it from the source's store.
    Taken,
    /// A pull was handed it out of the source's out, and it went there.
    Handed(Place),
    /// A pull told of it without its contents, since it supersedes what the device held.
    Noticed,
    /// A pull taught of it without its contents.
    Learned,
    /// It was given up.
    GivenUp,
    /// It was handed over to the target of a pull.
    HandedOver,
    /// It went to that place from the other one.
    Moved(Place),
    /// The device's next epoch doesn't know it.
    Forgotten,
}

/// A command that has run on a fleet, and its devices as they were before it.
#[derive(Drop)]
pub struct Moment<'a> {
    /// The script that has the command.
    pub script: &'a Script,
    /// The fleet behind the command.
    pub fleet: &'a Fleet,
    /// The command's number.
    pub number: u32,
    /// The command.
    pub command: &'a Command,
    /// Its devices before it, the source of a pull behind its target; empty for a question.
    pub before: &'a [Device],
}

/// A device before and after a command.
#[derive(Drop)]
pub struct Seen<'a> {
    /// Its place in the script.
    pub device: u16,
    /// As it was before.
    pub was: &'a Device,
    /// As it is behind.
    pub is: &'a Device,
    /// The source as it was before, if this is the target of a pull.
    pub source: Option<&'a Device>,
    /// Whether it is the source of a pull.
    pub lends: bool,
}

/// What happened to a version of the log on a device.
#[derive(Drop)]
pub struct Happened<'a> {
    /// The device's place in the script.
    pub device: u16,
    /// The version's place in the log.
    pub place: usize,
    /// The version.
    pub held: &'a Held,
    /// What happened to it.
    pub what: Happening,
}

/// Whether the command can change its devices.
pub fn is_change(command: &Command) -> bool {
    kind_of(command) != CommandKind::Question
}

/// Copies of the devices that the command may change, the source of a pull behind its target.
pub fn devices_before(
    alloc: Global,
    fleet: &Fleet,
    command: &Command,
) -> Result<Vec<Device>, AllocError> {
    let mut before = Vec::new(alloc);
    push_copies(&mut before, fleet, command)?;
    Ok(before)
}

fn push_copies(
    before: &mut Vec<Device>,
    fleet: &Fleet,
    command: &Command,
) -> Result<(), AllocError> {
    if !is_change(command) {
        return Ok(());
    }
    let (device, source) = devices_of(command);
    push_copy(before, fleet, device)?;
    match source {
        Some(source) => push_copy(before, fleet, source),
        None => Ok(()),
    }
}

fn push_copy(before: &mut Vec<Device>, fleet: &Fleet, place: u16) -> Result<(), AllocError> {
    match fleet.devices().get(usize::from(place)) {
        Some(device) => push_device(before, device.try_clone()?),
        None => Ok(()),
    }
}

fn push_device(before: &mut Vec<Device>, device: Device) -> Result<(), AllocError> {
    before.push(device)?;
    Ok(())
}

/// What the command did to the versions of a picture, or of all pictures where it is 0: on the device that it names first and
/// then on the source of a pull, the latest version first.
pub fn happenings_of<'a>(
    alloc: Global,
    moment: &Moment<'a>,
    picture: u32,
) -> Result<Vec<Happened<'a>>, AllocError> {
    let mut list = Vec::new(alloc);
    push_happened(&mut list, moment, picture)?;
    Ok(list)
}

fn push_happened<'a>(
    list: &mut Vec<Happened<'a>>,
    moment: &Moment<'a>,
    picture: u32,
) -> Result<(), AllocError> {
    if let Some(seen) = first_seen(moment) {
        push_on(list, moment.fleet.log(), &seen, picture)?;
    }
    match source_seen(moment) {
        Some(seen) => push_on(list, moment.fleet.log(), &seen, picture),
        None => Ok(()),
    }
}

/// The device that the command names first.
pub fn first_seen<'a>(moment: &Moment<'a>) -> Option<Seen<'a>> {
    let (device, _) = devices_of(moment.command);
    let was = moment.before.first()?;
    let is = moment.fleet.devices().get(usize::from(device))?;
    let source = moment.before.get(1);
    Some(Seen {
        device,
        was,
        is,
        source,
        lends: false,
    })
}

/// The source of a pull.
pub fn source_seen<'a>(moment: &Moment<'a>) -> Option<Seen<'a>> {
    let (_, source) = devices_of(moment.command);
    let device = source?;
    let was = moment.before.get(1)?;
    let is = moment.fleet.devices().get(usize::from(device))?;
    Some(Seen {
        device,
        was,
        is,
        source: None,
        lends: true,
    })
}

fn push_on<'a>(
    list: &mut Vec<Happened<'a>>,
    log: &'a [Held],
    seen: &Seen<'_>,
    picture: u32,
) -> Result<(), AllocError> {
    for back in 0..log.len() {
        let place = log.len() - 1 - back;
        let held = &log[place];
        if picture != 0 && held.picture.value() != picture {
            continue;
        }
        if let Some(what) = what_happened(log, seen, held) {
            let device = seen.device;
            list.push(Happened {
                device,
                place,
                held,
                what,
            })?;
        }
    }
    Ok(())
}

// What happened to a version of the log on a device, if anything.
fn what_happened(log: &[Held], seen: &Seen<'_>, held: &Held) -> Option<Happening> {
    let was = standing_of(seen.was, held.picture, held.version);
    let is = standing_of(seen.is, held.picture, held.version);
    match (was, is) {
        (Standing::Known | Standing::Unknown, Standing::Stored) => {
            Some(arrival(seen, held, Place::Store))
        }
        (Standing::Known | Standing::Unknown, Standing::Waiting) => {
            Some(arrival(seen, held, Place::Out))
        }
        (Standing::Stored | Standing::Waiting, Standing::Known | Standing::Unknown) => {
            Some(leaving(seen))
        }
        (Standing::Waiting, Standing::Stored) => Some(Happening::Moved(Place::Store)),
        (Standing::Stored, Standing::Waiting) => Some(Happening::Moved(Place::Out)),
        (Standing::Unknown, Standing::Known) => Some(hearing(log, seen, held)),
        (Standing::Known, Standing::Unknown) => Some(Happening::Forgotten),
        (Standing::Stored, Standing::Stored)
        | (Standing::Waiting, Standing::Waiting)
        | (Standing::Known, Standing::Known)
        | (Standing::Unknown, Standing::Unknown) => None,
    }
}

// How a version came.
fn arrival(seen: &Seen<'_>, held: &Held, place: Place) -> Happening {
    match seen.source {
        None => Happening::Made(place),
        Some(source) => {
            if source.store().has(held.picture, held.version) {
                Happening::Taken
            } else {
                Happening::Handed(place)
            }
        }
    }
}

// How a version left.
fn leaving(seen: &Seen<'_>) -> Happening {
    if seen.lends {
        Happening::HandedOver
    } else {
        Happening::GivenUp
    }
}

// How a device heard of a version.
fn hearing(log: &[Held], seen: &Seen<'_>, held: &Held) -> Happening {
    match seen.source {
        Some(source) => {
            if source.store().has(held.picture, held.version) && replaces(log, seen.was, held) {
                Happening::Noticed
            } else {
                Happening::Learned
            }
        }
        None => Happening::Learned,
    }
}

// Whether a version supersedes one that a device holds.
fn replaces(log: &[Held], device: &Device, held: &Held) -> bool {
    for older in log {
        if older.picture == held.picture
            && held.made_with.has(older.version)
            && is_held(device, older)
        {
            return true;
        }
    }
    false
}

/// Whether a device holds a version.
pub fn is_held(device: &Device, held: &Held) -> bool {
    device.store().has(held.picture, held.version) || device.out().has(held.picture, held.version)
}

/// The latest version that a device knows and that supersedes this one, with its place in the log.
pub fn superseder<'a>(log: &'a [Held], device: &Device, held: &Held) -> Option<(usize, &'a Held)> {
    for back in 0..log.len() {
        let place = log.len() - 1 - back;
        let later = &log[place];
        if later.picture == held.picture
            && later.made_with.has(held.version)
            && device.knowledge().knows(later.picture, later.version)
        {
            return Some((place, later));
        }
    }
    None
}
