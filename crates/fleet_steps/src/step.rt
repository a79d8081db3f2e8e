// Runs one command on the devices that it names, out of all devices.
ghost use Rattle.std.specs.Prelude.{◌≡◌, Some, List, length, OnOk, OnErr, IfOk};
ghost use Rattle.std.specs.List.{AllZip};
ghost use Rattle.photo_model.specs.Device.{ModelDevice};
ghost use Rattle.photo_device.specs.Device.{Shows};
ghost use Rattle.fleet_model.specs.Contents.{IsWithin, devices_of};
ghost use Rattle.photo_script.specs.Reports.{Tells, answer_of};
ghost use Rattle.fleet_model.specs.Runs.{device_at};
ghost use Rattle.fleet_model.specs.Steps.{effect_on};
ghost use Rattle.fleet_steps.specs.Between.{AreAsTheyWere, AreReady, AreSettled, HaveRoom, HaveRun};
ghost use Rattle.fleet_steps.specs.Wanting.{MayWantMemory};

use crate::command::{run_between, run_command};
use photo_device::Device;
use photo_script::{Command, Report, devices_of};
use std::alloc::{AllocError, Global};

/// Runs one command on the one or two devices that it names, and gives the report. After want of memory all devices are as they
/// were. A change that is refused never wants memory.
pub fn run_on(
    alloc: Global,
    command: &Command,
    devices: &mut [Device],
) -> Result<Report, AllocError>
    requires within { IsWithin (length devices.old) command.now }
    requires ready { AreReady devices.old }
    requires room { HaveRoom devices.old }
    ensures devices { OnOk result (HaveRun command.now devices.old devices.new) }
    ensures report { IfOk result (λ report. (models : List ModelDevice) → AllZip Shows devices.old models
        → Tells (answer_of report) (effect_on models command.now).report) }
    ensures err { OnErr result (AreAsTheyWere devices.old devices.new) }
    ensures staged { AreSettled devices.old → AreSettled devices.new }
    ensures memory { OnErr result ((models : List ModelDevice) → AllZip Shows devices.old models
        → MayWantMemory command.now (device_at models (devices_of command.now).0)) }
{
    match devices_of(command) {
        (device, None) => run_command(alloc, command, &mut devices[usize::from(device)]),
        (target, Some(source)) => {
            run_on_two(
                alloc,
                command,
                usize::from(target),
                usize::from(source),
                devices,
            )
        }
    }
}

// Runs a command on the devices at two places. Each may pull from the other.
fn run_on_two(
    alloc: Global,
    command: &Command,
    target: usize,
    source: usize,
    devices: &mut [Device],
) -> Result<Report, AllocError>
    requires first { (devices_of command.now).0 ≡ target }
    requires second { (devices_of command.now).1 ≡ Some source }
    requires within { IsWithin (length devices.old) command.now }
    requires ready { AreReady devices.old }
    ensures devices { OnOk result (HaveRun command.now devices.old devices.new) }
    ensures report { IfOk result (λ report. (models : List ModelDevice) → AllZip Shows devices.old models
        → Tells (answer_of report) (effect_on models command.now).report) }
    ensures err { OnErr result (AreAsTheyWere devices.old devices.new) }
    ensures staged { AreSettled devices.old → AreSettled devices.new }
{
    if target < source {
        let (front, back) = devices.split_at_mut(source);
        run_between(alloc, command, &mut front[target], &mut back[0])
    } else {
        let (front, back) = devices.split_at_mut(target);
        run_between(alloc, command, &mut back[0], &mut front[source])
    }
}
