//! Calls of the readers of a fleet, of a session and of a run's log.
use fleet_runner::{IssueLog, Outcome};
use fleet_steps::made_on;
use live_fleet::{Fleet, Session};
use photo_record::PicNo;
use photo_script::{Command, Script};
use std::alloc::Global;
use tool_value_refusals::filter_of;

// A fleet of one device.
fn one_device(alloc: Global) -> Option<Fleet> {
    match filter_of(alloc, "rating >= 3") {
        Some(filter) => {
            let filters = [filter];
            let fleet = Fleet::new(alloc, &filters).ok();
            drop(filters);
            fleet
        }
        None => None,
    }
}

/// `takes` and the readers of a fleet of one device.
pub fn answer(alloc: Global, times: u32) -> Option<bool> {
    let made = one_device(alloc);
    let right = match &made {
        Some(fleet) => Some(answer_of(fleet, times)),
        None => None,
    };
    drop(made);
    right
}

fn answer_of(fleet: &Fleet, times: u32) -> bool {
    for _ in 0..times {
        if !is_fresh(fleet) {
            return false;
        }
    }
    true
}

fn is_fresh(fleet: &Fleet) -> bool {
    fleet.devices().len() == 1
        && fleet.log().is_empty()
        && fleet.commands() == 0
        && !fleet.is_full()
        && fleet.takes(&Command::List { device: 0 })
        && !fleet.takes(&Command::List { device: 1 })
}

/// The calls that pass a fleet on, and the readers of a session.
pub fn answer_session(alloc: Global, times: u32) -> Option<bool> {
    match one_device(alloc) {
        Some(fleet) => Some(is_passed_on(fleet, times)),
        None => None,
    }
}

fn is_passed_on(fleet: Fleet, times: u32) -> bool {
    let mut fleet = fleet;
    let mut is_right = true;
    for _ in 0..times {
        let session = Session::of_fleet(fleet);
        is_right = is_right && has_one_device(&session);
        fleet = session.into_fleet();
    }
    drop(fleet);
    is_right
}

fn has_one_device(session: &Session) -> bool {
    is_fresh(session.fleet()) && session.device(0).is_some() && session.device(1).is_none()
}

/// `made_on` and the readers of a log.
pub fn answer_log(script: &Script, outcome: &Outcome, times: u32) -> bool {
    for _ in 0..times {
        if !has_one(&outcome.log) || !has_made(script, outcome) {
            return false;
        }
    }
    true
}

fn has_one(log: &IssueLog) -> bool {
    let Some(picture) = PicNo::new(1) else {
        return false;
    };
    log.len() == 1
        && !log.is_empty()
        && log.get(0).picture == picture
        && log.by_picture().len() == 1
        && log.of_picture(picture).len() == 1
        && log.iter().all(|held| held.picture() == picture)
}

// Whether the first command has made a version on the first device.
fn has_made(script: &Script, outcome: &Outcome) -> bool {
    let (Some(report), Some(device)) = (outcome.reports.first(), outcome.devices.first()) else {
        return false;
    };
    script.commands() == 4 && made_on(script.command(1), report, device).is_some()
}
