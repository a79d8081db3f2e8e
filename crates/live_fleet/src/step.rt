// Runs one command on a fleet's devices and its log.
ghost use Rattle.std.specs.Prelude.{◌≡◌, ◌++◌, ◌<◌, List, length, vec_len, vec_capacity, OnOk, OnErr, IfOk};
ghost use Rattle.std.specs.List.{AllZip};
ghost use Rattle.std.specs.Option.{option_to_list};
ghost use Rattle.photo_device.specs.Held.{entries_of};
ghost use Rattle.photo_model.specs.Device.{ModelDevice};
ghost use Rattle.photo_device.specs.Device.{Shows};
ghost use Rattle.fleet_model.specs.Contents.{IsWithin};
ghost use Rattle.photo_script.specs.Reports.{Tells, answer_of};
ghost use Rattle.fleet_model.specs.Steps.{devices_after, effect_on};
ghost use Rattle.fleet_steps.specs.Between.{AreAsTheyWere, AreReady, AreSettled, HaveRoom};
ghost use Rattle.live_fleet.specs.Entries.{if_told};

use crate::entry::held_if_made;
use fleet_steps::run_on;
use photo_device::{Device, Held};
use photo_script::{Command, Report};
use std::alloc::{AllocError, Global};

/// Runs one command on the one or two devices that it names, appends the version that it makes to the log, and gives the
/// report. After want of memory the devices and the log are as they were: the log's entry and its memory are prepared before
/// the command runs.
pub(crate) fn run_and_keep(
    alloc: Global,
    command: &Command,
    devices: &mut [Device],
    log: &mut Vec<Held>,
) -> Result<Report, AllocError>
    requires within { IsWithin (length devices.old) command.now }
    requires ready { AreReady devices.old }
    requires room { HaveRoom devices.old }
    ensures devices { OnOk result ((models : List ModelDevice) → AllZip Shows devices.old models
        → AllZip Shows devices.new (devices_after models command.now)) }
    ensures report { IfOk result (λ report. (models : List ModelDevice) → AllZip Shows devices.old models
        → Tells (answer_of report) (effect_on models command.now).report) }
    ensures log { OnOk result ((models : List ModelDevice) → AllZip Shows devices.old models
        → entries_of log.new.items ≡ entries_of log.old.items ++ (effect_on models command.now).entries) }
    ensures devices_kept { OnErr result (AreAsTheyWere devices.old devices.new) }
    ensures settled { AreSettled devices.old → AreSettled devices.new }
    ensures log_kept { OnErr result (log.new.items ≡ log.old.items) }
{
    let held = held_if_made(command, devices)?;
    log.reserve(1)?;
    let report = run_on(alloc, command, devices)?;
    keep(log, &report, held);
    Ok(report)
}

// Appends the version to the log where the report says that one was made.
fn keep(log: &mut Vec<Held>, report: &Report, held: Option<Held>)
    requires { vec_len log.old < vec_capacity log.old }
    ensures { log.new.items ≡ log.old.items ++ if_told (answer_of report.now) (option_to_list held) }
{
    let Report::Made { .. } = report else {
        return;
    };
    if let Some(held) = held {
        log.push_reserved(held);
    }
}
