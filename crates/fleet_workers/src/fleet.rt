// Runs all batches, one after another.
ghost use Rattle.std.specs.Prelude.{◌≡◌, ◌⊎◌, [], List, length, map, Some, IfOk, IfErr};
ghost use Rattle.std.specs.Arc.{arc_value};
ghost use Rattle.photo_device.specs.Device.{Kept};
ghost use Rattle.fleet_model.specs.Contents.{IsScript};
ghost use Rattle.fleet_model.specs.Tallies.{tally_of};
ghost use Rattle.photo_batcher.specs.Plans.{IsPlan};
ghost use Rattle.work_ledger.specs.Ledgers.{all_parts};
ghost use Rattle.work_ledger.specs.Stakes.{Stake, stake, nothing_done, IsCountable};
ghost use Rattle.fleet_steps.specs.Outcomes.{IsOutcome};
ghost use Rattle.fleet_workers.specs.declared.fault.WorkersError.TheVariants.{NoMemory, NoWorker};
ghost use Rattle.fleet_workers.specs.Progress.{HasRun, HasEnded};

use crate::WorkersError;
use crate::batch::run_batch;
use crate::gate::Gate;
use crate::number::Workers;
use crate::parcel::Parcel;
use crate::shared::Shared;
use crate::slots::Slots;
use fleet_steps::{IssueLog, Outcome, no_reports, opening_devices};
use photo_batcher::{Plan, plan};
use photo_device::Device;
use photo_script::{Script, Tally, Totals};
use std::alloc::{AllocError, Global};
use std::marker::Brand;
use std::sync::{Arc, Wait};
use std::thread::Threads;
use work_ledger::{Blanks, Books, Share, open};

/// Runs a script by several workers, batch by batch. The first worker runs on the calling thread; each other one gets a thread
/// of its own. The commands of a batch share no device.
///
/// Of a batch of `m` commands the one at index `i`, from 0, goes to worker `i mod min(workers, m)`. A worker takes its commands
/// in the order of their numbers. For each it calls the gate, runs the command, counts it in a ledger, and calls the gate with
/// what all workers together have counted by then. It holds no lock meanwhile. All workers of a batch are joined before the
/// next batch begins.
///
/// The outcome is that of the run command by command, except for the order of the log. Its totals are those that the ledger
/// counted. Where memory was refused or a thread couldn't be started, all workers that were started have been joined,
/// and there is no outcome.
pub fn run_fleet<G: Gate + 'static, R: Threads + Wait + Copy + Send + 'static>(
    rt: R,
    alloc: Global,
    script: &Arc<Script>,
    workers: Workers,
    gate: Arc<G>,
) -> Result<Outcome, WorkersError>
    ensures ok { IfOk result (IsOutcome (arc_value script.now)) }
    ensures err { IfErr result (λ e. (e ≡ NoMemory) ⊎ (e ≡ NoWorker)) }
{
    let (slots, totals) = run_counted::<Brand, G, R>(
        rt,
        alloc,
        Blanks::new(),
        script,
        gate,
        workers,
    )?;
    let Slots {
        devices,
        reports,
        log,
        ..
    } = slots;
    let devices = devices_out_of(alloc, devices)?;
    let log = IssueLog::new(alloc, log)?;
    Ok(Outcome {
        devices,
        reports,
        totals,
        log,
    })
}

// Runs a script, and counts its commands in the ledger made from the blanks.
fn run_counted<
    B: Books + Send + Sync + 'static,
    G: Gate + 'static,
    R: Threads + Wait + Copy + Send + 'static,
>(
    rt: R,
    alloc: Global,
    blanks: Blanks,
    script: &Arc<Script>,
    gate: Arc<G>,
    workers: Workers,
) -> Result<(Slots, Totals), WorkersError>
    requires names { blanks ≡ B.names }
    requires tally { tally_of (arc_value script.now) ≡ B.tally }
    ensures ok { IfOk result (λ r. (share : Stake) × HasEnded (arc_value script.now) r.0 share × (r.1 ≡ share.done)) }
    ensures err { IfErr result (λ e. (e ≡ NoMemory) ⊎ (e ≡ NoWorker)) }
{
    let (ledger, share) = open::<B>(alloc, blanks, tally_of(&**script))?;
    let script = Arc::try_clone(script)?;
    let shared = Shared {
        script,
        ledger,
        gate,
    };
    let mut share = share;
    let slots = run_planned(rt, alloc, &shared, &mut share, workers)?;
    let totals = shared.ledger.close(&rt, share);
    Ok((slots, totals))
}

// A script's tally: how many commands of each kind it has. A ledger can count them.
fn tally_of(script: &Script) -> Tally
    ensures tally { result ≡ tally_of script.now }
    ensures countable { IsCountable result }
{
    // `commands()` is called because its contract bounds how many commands a script has, so a ledger can count them.
    let _commands = script.commands();
    script.tally()
}

// Plans the script, and runs its batches with a share that may count all commands.
fn run_planned<
    B: Books + Send + Sync + 'static,
    G: Gate + 'static,
    R: Threads + Wait + Copy + Send + 'static,
>(
    rt: R,
    alloc: Global,
    shared: &Shared<B, G>,
    share: &mut Share<B>,
    workers: Workers,
) -> Result<Slots, WorkersError>
    requires { share.old ≡ stake all_parts (tally_of (arc_value shared.now.script)) nothing_done }
    ensures ok { IfOk result (λ slots. HasEnded (arc_value shared.now.script) slots share.new) }
    ensures err { IfErr result (λ e. (e ≡ NoMemory) ⊎ (e ≡ NoWorker)) }
{
    let plan = plan(alloc, shared.script())?;
    let slots = opening_slots(alloc, shared.script(), workers)?;
    run_batches(rt, alloc, shared, share, &plan, slots)
}

// Runs the batches of a plan, one after another.
fn run_batches<
    B: Books + Send + Sync + 'static,
    G: Gate + 'static,
    R: Threads + Wait + Copy + Send + 'static,
>(
    rt: R,
    alloc: Global,
    shared: &Shared<B, G>,
    share: &mut Share<B>,
    plan: &Plan,
    slots: Slots,
) -> Result<Slots, WorkersError>
    requires script { IsScript (arc_value shared.now.script) }
    requires plan { IsPlan (arc_value shared.now.script) plan.now }
    requires start { HasRun (arc_value shared.now.script) [] slots share.old }
    ensures ok { IfOk result (λ slots. HasEnded (arc_value shared.now.script) slots share.new) }
    ensures err { IfErr result (λ e. (e ≡ NoMemory) ⊎ (e ≡ NoWorker)) }
{
    let mut slots = slots;
    for batch in 0..plan.batches() {
        slots = run_batch(rt, alloc, shared, share, slots, plan.members(batch))?;
    }
    Ok(slots)
}

// How many commands a script has, and the invariants of every script.
fn commands_of(script: &Script) -> usize
    ensures count { result ≡ length script.now.commands }
    ensures script { IsScript script.now }
{
    // `devices()` is called because its contract bounds the devices and gives each a filter, which `script` promises as well.
    let _devices = script.devices();
    script.commands()
}

// The slots before any command.
fn opening_slots(alloc: Global, script: &Script, workers: Workers) -> Result<Slots, AllocError>
    ensures script { IsScript script.now }
    ensures slots { IfOk result (λ slots. HasRun script.now [] slots (stake all_parts (tally_of script.now) nothing_done)) }
{
    let commands = commands_of(script);
    let devices = opening_devices(alloc, script)?;
    let devices = slots_of(alloc, devices)?;
    let reports = no_reports(alloc, commands)?;
    Ok(Slots {
        devices,
        reports,
        log: Vec::new(alloc),
        workers,
    })
}

// A slot with each device.
fn slots_of(alloc: Global, devices: Vec<Device>) -> Result<Vec<Option<Parcel>>, AllocError>
    ensures { IfOk result (λ slots. slots.items ≡ map Some devices.items) }
{
    let mut slots = Vec::new(alloc);
    for device in devices {
        slots.push(Some(Parcel::new(alloc, device)?))?;
    }
    Ok(slots)
}

// The devices out of slots, none of which is empty.
fn devices_out_of(alloc: Global, slots: Vec<Option<Parcel>>) -> Result<Vec<Device>, AllocError>
    requires { (devices : List Kept) × (slots.items ≡ map Some devices) }
    ensures { IfOk result (λ all. slots.items ≡ map Some all.items) }
{
    let mut all = Vec::new(alloc);
    for slot in slots {
        let Some(parcel) = slot else { unreachable!() };
        all.push(parcel.open())?;
    }
    Ok(all)
}
