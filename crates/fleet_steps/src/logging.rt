// The log of a run: the version that each command makes.
ghost use Rattle.std.specs.Prelude.{◌≡◌, ◌++◌, List, length, None, OnOk, IfOk};
ghost use Rattle.std.specs.List.{AllZip};
ghost use Rattle.std.specs.Option.{option_copied, option_to_list};
ghost use Rattle.photo_device.specs.Held.{entries_of};
ghost use Rattle.photo_model.specs.Device.{ModelDevice};
ghost use Rattle.photo_device.specs.Device.{Shows};
ghost use Rattle.fleet_model.specs.Contents.{IsWithin};
ghost use Rattle.photo_script.specs.Reports.{Tells, answer_of};
ghost use Rattle.fleet_model.specs.Runs.{effect};
ghost use Rattle.fleet_model.specs.Steps.{devices_after, effect_on};
ghost use Rattle.fleet_steps.specs.Between.{AreReady, HaveRoom, HaveRun};
ghost use Rattle.fleet_steps.specs.Issued.{picture_of, version_told};

use crate::step::run_on;
use photo_device::{Device, SharedHeld};
use photo_record::PicNo;
use photo_script::{Command, Report, devices_of};
use photo_version::Version;
use std::alloc::{AllocError, Global};

/// Runs one command on the one or two devices that it names, appends the version that it makes to the log, and gives the
/// report. After want of memory the command may have run; then there is no outcome.
pub fn run_and_log(
    alloc: Global,
    command: &Command,
    devices: &mut [Device],
    log: &mut Vec<SharedHeld>,
) -> Result<Report, AllocError>
    requires within { IsWithin (length devices.old) command.now }
    requires ready { AreReady devices.old }
    requires room { HaveRoom devices.old }
    ensures devices { OnOk result (HaveRun command.now devices.old devices.new) }
    ensures report { IfOk result (λ report. (models : List ModelDevice) → AllZip Shows devices.old models
        → Tells (answer_of report) (effect_on models command.now).report) }
    ensures log { OnOk result ((models : List ModelDevice) → AllZip Shows devices.old models
        → entries_of log.new.items ≡ entries_of log.old.items ++ (effect_on models command.now).entries) }
{
    let report = run_on(alloc, command, devices)?;
    log_issued(log, command, &report, devices)?;
    Ok(report)
}

// Appends the version that a command has made, if any, to the log, as its device holds it. The report and the devices are those
// after the command.
fn log_issued(
    log: &mut Vec<SharedHeld>,
    command: &Command,
    report: &Report,
    devices: &[Device],
) -> Result<(), AllocError>
    requires { IsWithin (length devices.now) command.now }
    ensures { OnOk result ((models : List ModelDevice) → AllZip Shows devices.now (devices_after models command.now)
        → Tells (answer_of report.now) (effect_on models command.now).report
        → entries_of log.new.items ≡ entries_of log.old.items ++ (effect_on models command.now).entries) }
{
    match issued(command, report, devices) {
        Some(held) => {
            log.push(held.try_clone()?)?;
            Ok(())
        }
        None => Ok(()),
    }
}

// The version that a command has just made, as its device holds it.
fn issued<'a>(command: &Command, report: &Report, devices: &'a [Device]) -> Option<&'a SharedHeld>
    requires { IsWithin (length devices.now) command.now }
    ensures { (models : List ModelDevice) → AllZip Shows devices.now (devices_after models command.now)
        → Tells (answer_of report.now) (effect_on models command.now).report
        → entries_of (option_to_list (option_copied result)) ≡ (effect_on models command.now).entries }
{
    let picture = picture_of(command)?;
    let version = version_told(report)?;
    let (device, _) = devices_of(command);
    devices[usize::from(device)].held_of(picture, version)
}

/// The version that a command on this device alone has just made, as the device holds it; `None` if it made none. The report is
/// the one on the command.
pub fn made_on<'a>(command: &Command, report: &Report, device: &'a Device) -> Option<&'a SharedHeld>
    ensures { (m : ModelDevice) → Shows device.now (effect command.now m None).first
        → Tells (answer_of report.now) (effect command.now m None).report
        → entries_of (option_to_list (option_copied result)) ≡ (effect command.now m None).entries }
{
    let picture = picture_of(command)?;
    let version = version_told(report)?;
    device.held_of(picture, version)
}

// The picture of the version that a command makes.
fn picture_of(command: &Command) -> Option<PicNo>
    ensures { result ≡ picture_of command.now }
{
    match command {
        Command::New { picture, .. }
        | Command::Edit { picture, .. }
        | Command::Remove { picture, .. } => Some(*picture),
        _ => None,
    }
}

// The version that a report says was made.
fn version_told(report: &Report) -> Option<Version>
    ensures { result ≡ version_told (answer_of report.now) }
{
    match report {
        Report::Made { version, .. } => Some(*version),
        _ => None,
    }
}
