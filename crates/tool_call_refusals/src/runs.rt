//! Calls of `fleet_steps`, except those that run one command; `run_plain` and `replay` by `fleet_runner`, which passes them on.
use crate::devices::{has_made, same_device, same_devices};
use crate::plans::LAWFUL;
use crate::{devices, pulls, scripts};
use fleet_runner::{RunError, replay, run_plain};
use fleet_steps::{IssueLog, Outcome, no_reports, opening_device, opening_devices, run_command};
use photo_device::{Device, Held, HeldSet, Place, SharedList};
use photo_pull::PullCounts;
use photo_record::{PicNo, Record};
use photo_script::{Command, Report, Script, Totals};
use std::alloc::Global;
use tool_value_refusals::{Verdict, judged, mark, rated};

/// The verdict on a call of `fleet_steps`.
pub fn verdict(alloc: Global, call: &str) -> Option<Verdict> {
    match call {
        "run_command" => devices::verdict_on_command(alloc),
        "run_pull" => pulls::verdict(alloc, pulls::Call::RunPull),
        "run_between" => pulls::verdict(alloc, pulls::Call::RunBetween),
        "run_on" => pulls::verdict(alloc, pulls::Call::RunOn),
        "IssueLog::new" => devices::verdict(alloc, call),
        "no_reports" => Some(judged(makes_reports(alloc), true)),
        _ => scripts::verdict(alloc, "fleet_steps", call),
    }
}

/// Whether a call on the script of four devices gives the right answer. The outer `None` means that no call has the name, the
/// inner one that memory was refused.
pub fn calls_on_script(alloc: Global, script: &Script, call: &str) -> Option<Option<bool>> {
    match call {
        "opening_devices" => Some(opens(alloc, script)),
        "opening_device" => Some(opens_one(alloc, script)),
        "run_plain" => Some(runs(alloc, script)),
        "replay" => Some(replays(alloc, script)),
        _ => None,
    }
}

/// Whether a device with two versions can edit one of its pictures. `None` where memory was refused.
pub fn runs_command(alloc: Global, device: &mut Device) -> Option<bool> {
    let picture = PicNo::new(1)?;
    match rated(alloc, 1) {
        Some(record) => edits(alloc, device, picture, record),
        None => None,
    }
}

fn edits(alloc: Global, device: &mut Device, picture: PicNo, record: Record) -> Option<bool> {
    let command = Command::Edit {
        device: 0,
        picture,
        record,
    };
    if device.counter() != 2 || device.author().epoch() != 0 {
        drop(command);
        return Some(false);
    }
    mark(alloc);
    let report = run_command(alloc, &command, device);
    mark(alloc);
    let right = match &report {
        Ok(Report::Made { version, place }) => {
            Some(has_made(device, (*version, *place), 3, picture, Place::Out))
        }
        Ok(_) => Some(false),
        Err(_) => None,
    };
    drop(report);
    drop(command);
    right
}

/// Whether a log has exactly the versions of a set of two. `None` where memory was refused.
pub fn logs(alloc: Global, set: &HeldSet) -> Option<bool> {
    match set.to_list() {
        Ok(list) => logs_list(alloc, list, set),
        Err(_) => None,
    }
}

fn logs_list(alloc: Global, list: SharedList, set: &HeldSet) -> Option<bool> {
    let issued = list.into_vec();
    mark(alloc);
    let made = IssueLog::new(alloc, issued);
    mark(alloc);
    let right = match &made {
        Ok(log) => Some(has_two(log, set)),
        Err(_) => None,
    };
    drop(made);
    right
}

fn has_two(log: &IssueLog, set: &HeldSet) -> bool {
    log.len() == 2 && set.len() == 2 && is_at(log, 0, set.get(0)) && is_at(log, 1, set.get(1))
}

fn is_at(log: &IssueLog, place: usize, held: &Held) -> bool {
    place < log.len() && log.get(place) == held && log.of_picture(held.picture).len() == 1
}

fn opens(alloc: Global, script: &Script) -> Option<bool> {
    mark(alloc);
    let made = opening_devices(alloc, script);
    mark(alloc);
    let right = match &made {
        Ok(devices) => are_opened(alloc, devices, script),
        Err(_) => None,
    };
    drop(made);
    right
}

fn are_opened(alloc: Global, devices: &[Device], script: &Script) -> Option<bool> {
    let made = opening_devices(alloc, script);
    let right = match &made {
        Ok(twins) => Some(devices.len() == 4 && same_devices(devices, twins)),
        Err(_) => None,
    };
    drop(made);
    right
}

fn opens_one(alloc: Global, script: &Script) -> Option<bool> {
    if script.devices() < 4 {
        return Some(false);
    }
    mark(alloc);
    let made = opening_device(alloc, 3, script.filter(3));
    mark(alloc);
    let right = match &made {
        Ok(device) => is_fourth(alloc, device, script),
        Err(_) => None,
    };
    drop(made);
    right
}

fn is_fourth(alloc: Global, device: &Device, script: &Script) -> Option<bool> {
    let made = opening_devices(alloc, script);
    let right = match &made {
        Ok(devices) => Some(devices.len() == 4 && same_device(device, &devices[3])),
        Err(_) => None,
    };
    drop(made);
    right
}

fn makes_reports(alloc: Global) -> Option<bool> {
    mark(alloc);
    let made = no_reports(alloc, 70);
    mark(alloc);
    let right = match &made {
        Ok(reports) => Some(are_seventy(reports)),
        Err(_) => None,
    };
    drop(made);
    right
}

fn are_seventy(reports: &[Report]) -> bool {
    reports.len() == 70 && is_not_held(&reports[0]) && is_not_held(&reports[69])
}

fn is_not_held(report: &Report) -> bool {
    match report {
        Report::NotHeld => true,
        _ => false,
    }
}

/// Whether the outcome is right for the script of four devices. `None` where memory was refused.
pub fn is_run(outcome: Result<Outcome, RunError>) -> Option<bool> {
    let right = match &outcome {
        Ok(outcome) => Some(is_outcome(outcome)),
        Err(RunError::NoMemory) => None,
        Err(_) => Some(false),
    };
    drop(outcome);
    right
}

const TOTALS: Totals = Totals {
    changes: 2,
    pulls: 4,
    reports: 1,
    moved: 4,
};

// Each pull takes one version.
const TAKEN: PullCounts = PullCounts {
    taken: 1,
    handed: 0,
    notices: 0,
    dropped: 0,
    learned: true,
};

fn is_outcome(outcome: &Outcome) -> bool {
    outcome.totals == TOTALS
        && outcome.log.len() == 2
        && have_pulled(outcome.reports.as_slice())
        && hold_so_many(outcome.devices.as_slice())
}

// Whether the third, fourth, fifth and seventh reports are on pulls that took one version.
fn have_pulled(reports: &[Report]) -> bool {
    reports.len() == 7
        && has_pulled(&reports[2])
        && has_pulled(&reports[3])
        && has_pulled(&reports[4])
        && has_pulled(&reports[6])
}

fn has_pulled(report: &Report) -> bool {
    match report {
        Report::Pulled(counts) => *counts == TAKEN,
        _ => false,
    }
}

// Whether the third device has both pictures, and each other one has one.
fn hold_so_many(devices: &[Device]) -> bool {
    match devices {
        [a, b, c, d] => {
            a.store().len() == 1
                && b.store().len() == 1
                && c.store().len() == 2
                && d.store().len() == 2
        }
        _ => false,
    }
}

fn runs(alloc: Global, script: &Script) -> Option<bool> {
    mark(alloc);
    let outcome = run_plain(alloc, script);
    mark(alloc);
    is_run(outcome)
}

fn replays(alloc: Global, script: &Script) -> Option<bool> {
    mark(alloc);
    let outcome = replay(alloc, script, LAWFUL);
    mark(alloc);
    is_run(outcome)
}
