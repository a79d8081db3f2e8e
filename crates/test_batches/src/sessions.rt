//! Tests of sessions, which pass each of their calls to a fleet; of questions to a fleet; and of running a script's commands by
//! number.
mod asking;
mod many;
mod numbers;
mod working;

use asking::{Question, copies, has_conflict, is_asked, lists, moves, selects};
use fleet_audit::audit;
use fleet_steps::IssueLog;
use live_fleet::{Fleet, FleetFault, Session};
use photo_device::{Place, SharedHeld};
use photo_filter_rules::Filter;
use photo_filter_text::read;
use photo_version::Author;
use std::alloc::Global;
use working::{Counts, Made, adds, changes, makes, narrows, pulls, refilters};

// What a session does or is asked, with the result. Numbers give devices, pictures and ratings.
enum Step {
    // A device makes a version of a picture with a rating: the result.
    Make(u16, u32, u8, Result<Made, FleetFault>),
    // A device edits a picture to a rating, or removes it where no rating is given: the version made, or `None` where the
    // device doesn't hold the picture.
    Change(u16, u32, Option<u8>, Option<Made>),
    // A device narrows to a filter: how many versions go to its out, or `None` where it refuses.
    Narrow(u16, &'static str, Option<u64>),
    // A device gets another filter: how many versions its store and its out then have.
    Refilter(u16, &'static str, (u64, u64)),
    // A device pulls from another: the result, which a preview gives before.
    Pull(u16, u16, Result<Counts, FleetFault>),
    // A device joins: its number.
    Add(&'static str, u16),
    // A device is listed: how many versions its store and its out have.
    List(u16, Result<(usize, usize), FleetFault>),
    // Which devices hold, lack or know a picture.
    Ask(Question, u32, &'static [u16]),
    // Which pictures a filter selects on a device.
    Select(u16, &'static str, &'static [u32]),
    // Which pictures a pull would take, and which would be handed over.
    Move(u16, u16, &'static [u32], &'static [u32]),
    // A device has a conflict between the first versions of the first two devices, and no other.
    Conflict(u16),
    // A copy changes without changing the session.
    Copy,
    // The epoch of a device.
    Epoch(u16, u32),
    // How many devices there are, how many commands have run, and how many versions were made.
    Has(u16, u32, usize),
}

const RUNS: &[(&str, &[Step])] = &[
    (
        "a device is added and asked",
        &[
            Step::Make(0, 7, 5, Ok((1, Place::Store))),
            Step::Add("rating >= 3", 2),
            Step::Pull(2, 0, Ok((1, 0, true))),
            Step::Make(1, 9, 2, Ok((1, Place::Out))),
            Step::Has(3, 3, 2),
            Step::Ask(Question::Holding, 7, &[0, 2]),
            Step::Ask(Question::Lacking, 7, &[1]),
            Step::Ask(Question::Knowing, 7, &[0, 2]),
            Step::Ask(Question::Holding, 9, &[1]),
            Step::Ask(Question::Knowing, 9, &[1]),
        ],
    ),
    (
        "what a filter selects is shown before it moves",
        &[
            Step::Make(1, 9, 5, Ok((1, Place::Store))),
            Step::Make(1, 7, 2, Ok((2, Place::Out))),
            Step::Move(0, 1, &[9], &[7]),
            Step::Select(1, "all", &[7, 9]),
            Step::Select(1, "rating >= 4", &[9]),
            Step::Select(0, "all", &[]),
        ],
    ),
    (
        "what a session does not take changes nothing",
        &[
            Step::Make(2, 7, 3, Err(FleetFault::NoDevice)),
            Step::Pull(1, 1, Err(FleetFault::NoDevice)),
            Step::Pull(0, 2, Err(FleetFault::NoDevice)),
            Step::Pull(2, 0, Err(FleetFault::NoDevice)),
            Step::List(2, Err(FleetFault::NoDevice)),
            Step::Has(2, 0, 0),
            Step::List(1, Ok((0, 0))),
            Step::Has(2, 1, 0),
        ],
    ),
    (
        "a fleet narrows and removes",
        &[
            Step::Change(0, 7, None, None),
            Step::Make(0, 7, 3, Ok((1, Place::Store))),
            Step::Narrow(0, "rating >= 4", Some(1)),
            Step::Narrow(0, "rating >= 3", None),
            Step::Change(0, 7, None, Some((2, Place::Out))),
            Step::Has(2, 5, 2),
            Step::Change(0, 7, Some(4), Some((3, Place::Store))),
            Step::List(0, Ok((1, 0))),
        ],
    ),
    (
        "a pull is previewed and brings a conflict",
        &[
            Step::Make(0, 7, 5, Ok((1, Place::Store))),
            Step::Make(1, 7, 4, Ok((1, Place::Store))),
            Step::Pull(1, 0, Ok((1, 0, true))),
            Step::Conflict(1),
        ],
    ),
    (
        "a fleet refilters",
        &[
            Step::Make(0, 7, 3, Ok((1, Place::Store))),
            Step::Epoch(0, 0),
            Step::Refilter(0, "rating >= 4", (0, 1)),
            Step::Make(0, 7, 3, Ok((1, Place::Out))),
            Step::Epoch(0, 1),
        ],
    ),
    (
        "a copy goes its own way",
        &[
            Step::Make(0, 7, 5, Ok((1, Place::Store))),
            Step::Make(0, 9, 4, Ok((2, Place::Store))),
            Step::Copy,
            Step::Ask(Question::Holding, 7, &[0]),
            Step::Ask(Question::Holding, 9, &[0]),
            Step::Has(2, 2, 2),
        ],
    ),
];

fn filter_of(alloc: Global, text: &str) -> Option<Filter> {
    let tree = read(alloc, text).ok()?;
    Filter::build(alloc, tree).ok()
}

// A session of two devices: one keeps everything, one keeps ratings of 4 and more.
fn two_devices(alloc: Global) -> Option<Session> {
    let filters = [filter_of(alloc, "all")?, filter_of(alloc, "rating >= 4")?];
    Session::new(alloc, &filters).ok()
}

fn is_run(alloc: Global, steps: &[Step]) -> bool {
    match two_devices(alloc) {
        Some(mut session) => does(alloc, &mut session, steps),
        None => false,
    }
}

// Whether a session passes the steps one after another, and an audit after each says yes.
fn does(alloc: Global, session: &mut Session, steps: &[Step]) -> bool {
    for step in steps {
        if !does_one(alloc, session, step) || !is_sound(alloc, session.fleet()) {
            return false;
        }
    }
    true
}

// Whether an audit of the fleet's devices and log says yes.
fn is_sound(alloc: Global, fleet: &Fleet) -> bool {
    match log_of(alloc, fleet) {
        Some(log) => audit(fleet.devices(), &log),
        None => false,
    }
}

fn log_of(alloc: Global, fleet: &Fleet) -> Option<IssueLog> {
    let mut log = Vec::new(alloc);
    for held in fleet.log() {
        log.push(SharedHeld::new(alloc, held.try_clone().ok()?).ok()?)
            .ok()?;
    }
    IssueLog::new(alloc, log).ok()
}

fn does_one(alloc: Global, session: &mut Session, step: &Step) -> bool {
    match step {
        Step::Make(device, picture, rating, made) => {
            makes(alloc, session, *device, (*picture, *rating), *made)
        }
        Step::Change(device, picture, rating, made) => {
            changes(alloc, session, *device, (*picture, *rating), *made)
        }
        Step::Narrow(device, text, moved) => narrows(alloc, session, *device, text, *moved),
        Step::Refilter(device, text, sizes) => refilters(alloc, session, *device, text, *sizes),
        Step::Pull(target, source, counts) => pulls(session, *target, *source, *counts),
        Step::Add(text, number) => adds(alloc, session, text, *number),
        Step::List(device, sizes) => lists(session, *device, *sizes),
        _ => is_so(alloc, session, step),
    }
}

// Whether a session answers as a step says that changes nothing.
fn is_so(alloc: Global, session: &Session, step: &Step) -> bool {
    match step {
        Step::Ask(question, picture, right) => is_asked(alloc, session, question, *picture, right),
        Step::Select(device, text, right) => selects(alloc, session, *device, text, right),
        Step::Move(target, source, taken, handed) => {
            moves(alloc, session, (*target, *source), taken, handed)
        }
        Step::Conflict(device) => has_conflict(session, *device),
        Step::Copy => copies(alloc, session),
        Step::Epoch(device, epoch) => match session.device(*device) {
            Some(held) => held.author() == Author::at(*device, *epoch),
            None => false,
        },
        Step::Has(devices, commands, made) => has(session, *devices, *commands, *made),
        _ => false,
    }
}

fn has(session: &Session, devices: u16, commands: u32, made: usize) -> bool {
    let fleet = session.fleet();
    fleet.devices().len() == usize::from(devices)
        && fleet.commands() == commands
        && fleet.log().len() == made
        && session.device(devices).is_none()
}

#[test]
fn runs_of_sessions(rt: HostRuntime) {
    for (name, steps) in RUNS {
        assert!(rt; is_run(rt.alloc(), steps), "{name}");
    }
}

#[test]
fn the_commands_of_a_script_run_by_number(rt: HostRuntime) {
    assert!(rt; numbers::runs_script(rt.alloc()));
}

#[test]
fn as_many_devices_as_there_may_be(rt: HostRuntime) {
    for (count, refused) in many::LIMITS {
        assert!(rt; many::opens(rt.alloc(), *count, *refused), "{count}");
    }
}
