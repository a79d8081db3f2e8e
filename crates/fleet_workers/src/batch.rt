// Runs one batch: deals it to workers, and puts their results back.
ghost use Rattle.std.specs.Prelude.{◌≡◌, ◌⊎◌, ◌-◌, ◌<◌, ◌≤◌, ◌++◌, ℕ, List, Some, length, slice_set};
ghost use Rattle.std.specs.Prelude.{IsPermutation, IfSome, IfOk, IfErr, OnOk, ◌∷◌, []};
ghost use Rattle.std.specs.Arc.{arc_value};
ghost use Rattle.std.specs.List.{AllByRecursion};
ghost use Rattle.std.specs.Option.{option_to_list};
ghost use Rattle.work_ledger.specs.Stakes.{Within};
ghost use Rattle.fleet_model.specs.Contents.{IsScript};
ghost use Rattle.fleet_model.specs.Limits.{max_commands};
ghost use Rattle.photo_batcher.specs.Related.{IsNumber};
ghost use Rattle.fleet_workers.specs.declared.fault.WorkersError.TheVariants.{NoMemory, NoWorker};
ghost use Rattle.fleet_workers.specs.Batch.{AreApart, IsOfCommand, with_other, some_second, put_slots, all_slots, all_reports, all_logged};
ghost use Rattle.fleet_workers.specs.Counting.{tally_at};
ghost use Rattle.fleet_workers.specs.Progress.{HasRun};

use crate::WorkersError;
use crate::crew::run_crew;
use crate::deal::deal;
use crate::gate::Gate;
use crate::parcel::Parcel;
use crate::shared::Shared;
use crate::slots::Slots;
use crate::work::Done;
use photo_batcher::places_of;
use photo_device::SharedHeld;
use photo_script::{Report, Script};
use std::alloc::{AllocError, Global};
use std::sync::Wait;
use std::thread::Threads;
use work_ledger::{Books, Share};

// Runs one batch, whose commands share no device, by as many workers as there are, or as it has commands if these are fewer.
// The slots are then as after a run of its commands in some order, and the share has counted them.
pub(crate) fn run_batch<
    B: Books + Send + Sync + 'static,
    G: Gate + 'static,
    R: Threads + Wait + Copy + Send + 'static,
>(
    rt: R,
    alloc: Global,
    shared: &Shared<B, G>,
    share: &mut Share<B>,
    slots: Slots,
    members: &[u32],
) -> Result<Slots, WorkersError>
    requires script { IsScript (arc_value shared.now.script) }
    requires numbers { AllByRecursion (IsNumber (arc_value shared.now.script)) members.now }
    requires apart { AreApart (arc_value shared.now.script) members.now }
    requires left { Within (tally_at (arc_value shared.now.script) members.now) share.old.left }
    requires state { (front : List ℕ) × (length front ≤ max_commands) × HasRun (arc_value shared.now.script) front slots share.old }
    ensures ok { IfOk result (λ new. (front : List ℕ) → length front ≤ max_commands
        → HasRun (arc_value shared.now.script) front slots share.old → (order : List ℕ) × IsPermutation members.now order
        × HasRun (arc_value shared.now.script) (front ++ order) new share.new) }
    ensures err { IfErr result (λ e. (e ≡ NoMemory) ⊎ (e ≡ NoWorker)) }
{
    let mut slots = slots;
    let count = slots.workers.count().min(members.len());
    let groups = deal(alloc, shared.script(), &mut slots.devices, members, count)?;
    let done = run_crew(rt, alloc, shared, share, groups)?;
    take_back(shared.script(), &mut slots, done)?;
    Ok(slots)
}

// Puts all results back, one after another.
fn take_back(script: &Script, slots: &mut Slots, done: Vec<Done>) -> Result<(), AllocError>
    requires numbers { AllByRecursion (IsOfCommand script.now) done.items }
    requires devices { length slots.old.devices.items ≡ length script.now.names }
    requires reports { length slots.old.reports.items ≡ length script.now.commands }
    ensures devices { OnOk result (slots.new.devices.items ≡ all_slots script.now done.items slots.old.devices.items) }
    ensures reports { OnOk result (slots.new.reports.items ≡ all_reports done.items slots.old.reports.items) }
    ensures log { OnOk result (slots.new.log.items ≡ all_logged done.items slots.old.log.items) }
{
    for it in done {
        put_back(script, slots, it)?;
    }
    Ok(())
}

// Puts one command's results back at their places.
fn put_back(script: &Script, slots: &mut Slots, done: Done) -> Result<(), AllocError>
    requires number { IsOfCommand script.now done }
    requires devices { length slots.old.devices.items ≡ length script.now.names }
    requires reports { length slots.old.reports.items ≡ length script.now.commands }
    ensures devices { OnOk result (slots.new.devices.items ≡ put_slots script.now done slots.old.devices.items) }
    ensures reports { OnOk result (slots.new.reports.items ≡ slice_set slots.old.reports.items (done.number - 1) done.report) }
    ensures log { OnOk result (slots.new.log.items ≡ slots.old.log.items ++ option_to_list done.entry) }
    ensures names { length slots.new.devices.items ≡ length script.now.names }
    ensures commands { length slots.new.reports.items ≡ length script.now.commands }
{
    let Done {
        number,
        first,
        second,
        report,
        entry,
    } = done;
    let (place, other) = places_of(script.command(number));
    set_device(&mut slots.devices, place, first);
    set_second(&mut slots.devices, other, second);
    set_report(&mut slots.reports, number as usize - 1, report);
    match entry {
        Some(held) => log_entry(&mut slots.log, held),
        None => Ok(()),
    }
}

// Appends a version to the log.
fn log_entry(log: &mut Vec<SharedHeld>, held: SharedHeld) -> Result<(), AllocError>
    ensures { OnOk result (log.new.items ≡ log.old.items ++ held ∷ []) }
{
    log.push(held)?;
    Ok(())
}

// Drops the old value of the slot here, so that callers don't split into its cases.
fn set_device(devices: &mut Vec<Option<Parcel>>, place: usize, device: Parcel)
    requires { place < length devices.old.items }
    ensures { devices.new.items ≡ slice_set devices.old.items place (Some device) }
{
    devices[place] = Some(device);
}

fn set_second(devices: &mut Vec<Option<Parcel>>, place: Option<usize>, device: Option<Parcel>)
    requires { IfSome place (λ k. k < length devices.old.items) }
    ensures { devices.new.items ≡ with_other place (some_second device) devices.old.items }
{
    if let Some(place) = place {
        if let Some(device) = device {
            set_device(devices, place, device);
        }
    }
}

fn set_report(reports: &mut Vec<Report>, place: usize, report: Report)
    requires { place < length reports.old.items }
    ensures { reports.new.items ≡ slice_set reports.old.items place report }
{
    reports[place] = report;
}
