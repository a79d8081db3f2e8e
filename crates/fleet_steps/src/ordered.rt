// Runs a script's commands in a lawful order.
ghost use Rattle.std.specs.Prelude.{◌≡◌, ◌≤◌, length, replicate, None, IfOk};
ghost use Rattle.std.specs.List.{AllZip};
ghost use Rattle.photo_device.specs.Held.{entries_of};
ghost use Rattle.photo_version.specs.Author.{author};
ghost use Rattle.photo_model.specs.Device.{opening};
ghost use Rattle.photo_device.specs.Device.{Shows};
ghost use Rattle.fleet_model.specs.Limits.{max_devices};
ghost use Rattle.fleet_model.specs.Runs.{opening_from, run_in_order};
ghost use Rattle.photo_script.specs.declared.report.Report.TheVariants.{NotHeld};
ghost use Rattle.photo_batcher.specs.Orders.{IsLawful};
ghost use Rattle.fleet_steps.specs.Outcomes.{IsOutcome};

use crate::logging::run_and_log;
use crate::{IssueLog, Outcome};
use photo_batcher::laws::lawful_orders_are_the_run;
use photo_device::Device;
use photo_filter_rules::Filter;
use photo_script::{Report, Script, totals_of};
use photo_version::Author;
use std::alloc::{AllocError, Global};

/// Runs a script's commands one after another in a lawful order. The reports are in the order of the commands' numbers, the log
/// in the order in which the versions were made.
pub(crate) fn run_ordered(
    alloc: Global,
    script: &Script,
    order: &[u32],
) -> Result<Outcome, AllocError>
    requires { IsLawful script.now order.now }
    ensures ok { IfOk result (IsOutcome script.now) }
    ensures log { IfOk result (λ outcome. entries_of outcome.log ≡ (run_in_order script.now order.now).log) }
{
    lawful_orders_are_the_run();
    let mut devices = opening_devices(alloc, script)?;
    let mut reports = no_reports(alloc, script.commands())?;
    let mut issued = Vec::new(alloc);
    for number in order {
        let command = script.command(*number);
        let report = run_and_log(alloc, command, devices.as_mut_slice(), &mut issued)?;
        reports[*number as usize - 1] = report;
    }
    let totals = totals_of(script, reports.as_slice());
    let log = IssueLog::new(alloc, issued)?;
    Ok(Outcome {
        devices,
        reports,
        totals,
        log,
    })
}

/// A list of `count` reports, which the run overwrites. Its only error is want of memory.
pub fn no_reports(alloc: Global, count: usize) -> Result<Vec<Report>, AllocError>
    ensures { IfOk result (λ reports. reports.items ≡ replicate count NotHeld) }
{
    let mut reports = Vec::new(alloc);
    for _ in 0..count {
        reports.push(Report::NotHeld)?;
    }
    Ok(reports)
}

/// The devices of a script in order of declaration; none has made or holds anything.
pub fn opening_devices(alloc: Global, script: &Script) -> Result<Vec<Device>, AllocError>
    ensures shown { IfOk result (λ devices. AllZip Shows devices.items (opening_from 0 script.now.filters)) }
    ensures long { IfOk result (λ devices. length devices.items ≡ length script.now.names) }
    ensures few { length script.now.names ≤ max_devices }
    ensures filtered { length script.now.filters ≡ length script.now.names }
{
    let mut devices = Vec::new(alloc);
    for place in 0..script.devices() {
        let place = place as u16;
        devices.push(opening_device(alloc, place, script.filter(place))?)?;
    }
    Ok(devices)
}

/// The device at that place with that filter; it has made and holds nothing. Its only error is want of memory.
pub fn opening_device(alloc: Global, place: u16, filter: &Filter) -> Result<Device, AllocError>
    ensures shown { IfOk result (λ device. Shows device (opening (author place) filter.now)) }
    ensures settled { IfOk result (λ device. device.staged ≡ None) }
{
    match Device::new(alloc, Author::new(place), filter.try_clone()?) {
        Ok(device) => Ok(device),
        Err(_) => Err(AllocError),
    }
}
