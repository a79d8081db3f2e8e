// Runs one command on devices that its job owns.
ghost use Rattle.std.specs.Prelude.{◌≡◌, ◌<◌, None, IfOk, OnOk};
ghost use Rattle.std.specs.Option.{option_to_list};
ghost use Rattle.photo_version.specs.Author.{epoch_of_author};
ghost use Rattle.photo_device.specs.Held.{entries_of};
ghost use Rattle.photo_model.specs.Device.{ModelDevice};
ghost use Rattle.photo_device.specs.Device.{Shows};
ghost use Rattle.fleet_model.specs.Contents.{devices_of};
ghost use Rattle.photo_script.specs.Reports.{Tells, answer_of};
ghost use Rattle.fleet_model.specs.Runs.{effect};
ghost use Rattle.fleet_workers.specs.Jobs.{IsFor, IsDone};

use crate::parcel::Parcel;
use crate::work::{Done, Job};
use fleet_steps::{made_on, run_between, run_command};
use photo_device::{Device, SharedHeld};
use photo_script::{Command, Report};
use std::alloc::{AllocError, Global};

// Runs a command on the devices of its job, and gives them back. Its only error is want of memory.
pub(crate) fn run_one(alloc: Global, command: &Command, job: Job) -> Result<Done, AllocError>
    requires { IsFor command.now job }
    ensures { IfOk result (IsDone command.now job) }
{
    let Job {
        number,
        first,
        second,
    } = job;
    let Parcel { device: mut first } = first;
    match second {
        None => {
            let (report, entry) = run_single(alloc, command, &mut *first)?;
            Ok(Done {
                number,
                first: Parcel { device: first },
                second: None,
                report,
                entry,
            })
        }
        Some(source) => {
            let Parcel { device: mut source } = source;
            let report = run_between(alloc, command, &mut *first, &mut *source)?;
            Ok(Done {
                number,
                first: Parcel { device: first },
                second: Some(Parcel { device: source }),
                report,
                entry: None,
            })
        }
    }
}

// Runs a command that works on one device. Gives the report and the log's new entry, if any.
fn run_single(
    alloc: Global,
    command: &Command,
    device: &mut Device,
) -> Result<(Report, Option<SharedHeld>), AllocError>
    requires alone { (devices_of command.now).1 ≡ None }
    requires room { device.old.counter < 4_294_967_295 }
    requires epoch { epoch_of_author device.old.author < 4_294_967_295 }
    ensures device { OnOk result ((m : ModelDevice) → Shows device.old m → Shows device.new (effect command.now m None).first) }
    ensures report { IfOk result
        (λ r. (m : ModelDevice) → Shows device.old m → Tells (answer_of r.0) (effect command.now m None).report) }
    ensures entry { IfOk result
        (λ r. (m : ModelDevice) → Shows device.old m → entries_of (option_to_list r.1) ≡ (effect command.now m None).entries) }
{
    let report = run_command(alloc, command, device)?;
    let entry = entry_made(command, &report, device)?;
    Ok((report, entry))
}

// The version that the command has just made on the device, as the device holds it; `None` if it made none.
fn entry_made(
    command: &Command,
    report: &Report,
    device: &Device,
) -> Result<Option<SharedHeld>, AllocError>
    ensures { IfOk result (λ entry. (m : ModelDevice) → Shows device.now (effect command.now m None).first
        → Tells (answer_of report.now) (effect command.now m None).report
        → entries_of (option_to_list entry) ≡ (effect command.now m None).entries) }
{
    match made_on(command, report, device) {
        Some(held) => Ok(Some(held.try_clone()?)),
        None => Ok(None),
    }
}
