//! The lines of a story.
use crate::happenings::{Happened, Happening, Moment, is_held, superseder};
use crate::names::{device_name, push_version};
use crate::reasons::push_unselected;
use photo_device::{Device, Held, Place};
use photo_script::devices_of;
use std::alloc::AllocError;

/// Appends to a text what happened to a version on a device, and why.
pub fn push_what(
    text: &mut String,
    moment: &Moment<'_>,
    event: &Happened<'_>,
) -> Result<(), AllocError> {
    let (before, behind) = words_of(event.what);
    text.push_str(before)?;
    push_version(text, moment.script, event.held.version)?;
    text.push_str(behind)?;
    push_other(text, moment, event.what)?;
    match moment.fleet.devices().get(usize::from(event.device)) {
        Some(device) => push_reason(text, moment, event, device),
        None => Ok(()),
    }
}

// What stands before and behind the version's name.
fn words_of(what: Happening) -> (&'static str, &'static str) {
    match what {
        Happening::Made(Place::Store) => ("made ", " in its store"),
        Happening::Made(Place::Out) => ("made ", " in its out"),
        Happening::Taken => ("took ", " from "),
        Happening::Handed(_) => ("was handed ", " by "),
        Happening::Noticed => ("was told of ", ", without its contents, by "),
        Happening::Learned => ("learned of ", ", without its contents, from "),
        Happening::GivenUp => ("gave up ", ""),
        Happening::HandedOver => ("handed ", " over to "),
        Happening::Moved(Place::Store) => ("moved ", " to its store"),
        Happening::Moved(Place::Out) => ("moved ", " to its out"),
        Happening::Forgotten => ("forgot ", ""),
    }
}

// The other device of a pull, where it is named.
fn push_other(text: &mut String, moment: &Moment<'_>, what: Happening) -> Result<(), AllocError> {
    let (target, source) = devices_of(moment.command);
    let source = source.unwrap_or(target);
    match what {
        Happening::Taken | Happening::Handed(_) | Happening::Noticed | Happening::Learned => {
            text.push_str(device_name(moment.script, source))
        }
        Happening::HandedOver => text.push_str(device_name(moment.script, target)),
        _ => Ok(()),
    }
}

// Why it happened.
fn push_reason(
    text: &mut String,
    moment: &Moment<'_>,
    event: &Happened<'_>,
    device: &Device,
) -> Result<(), AllocError> {
    let held = event.held;
    match event.what {
        Happening::Made(Place::Store) => {
            let record = &held.content;
            write!(text, ": {record}")
        }
        Happening::Handed(Place::Store) => text.push_str(", into its store"),
        Happening::Handed(Place::Out) => {
            text.push_str(", into its out: ")?;
            push_unselected(text, device, held)
        }
        Happening::Made(Place::Out) | Happening::Noticed | Happening::Moved(Place::Out) => {
            text.push_str(": ")?;
            push_unselected(text, device, held)
        }
        Happening::Moved(Place::Store) => push_selected(text, device, held),
        Happening::Learned => push_learned(text, moment, device, held),
        Happening::GivenUp => push_given_up(text, moment, device, held),
        Happening::Forgotten => text.push_str(": its next epoch knows only what it holds"),
        Happening::Taken | Happening::HandedOver => Ok(()),
    }
}

fn push_selected(text: &mut String, device: &Device, held: &Held) -> Result<(), AllocError> {
    let (filter, record) = (device.filter().tree(), &held.content);
    write!(text, ": its filter '{filter}' selects {record}")
}

// Why a device learned of a version and didn't take it.
fn push_learned(
    text: &mut String,
    moment: &Moment<'_>,
    device: &Device,
    held: &Held,
) -> Result<(), AllocError> {
    text.push_str(": ")?;
    match superseder(moment.fleet.log(), device, held) {
        Some((_, later)) => push_superseded(text, moment, later),
        None => push_unselected(text, device, held),
    }
}

// Why a device gave a version up.
fn push_given_up(
    text: &mut String,
    moment: &Moment<'_>,
    device: &Device,
    held: &Held,
) -> Result<(), AllocError> {
    let Some((_, later)) = superseder(moment.fleet.log(), device, held) else {
        return Ok(());
    };
    if let (Some(source), (_, Some(place))) = (moment.before.get(1), devices_of(moment.command)) {
        if !is_held(source, later) {
            let name = device_name(moment.script, place);
            write!(text, ", which {name} doesn't keep")?;
        }
    }
    text.push_str(": ")?;
    push_superseded(text, moment, later)
}

fn push_superseded(text: &mut String, moment: &Moment<'_>, later: &Held) -> Result<(), AllocError> {
    push_version(text, moment.script, later.version)?;
    text.push_str(" supersedes it")
}
