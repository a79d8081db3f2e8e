//! Calls that pull, in the middle of a script.
ghost use Rattle.std.specs.Prelude.{◌≡◌, ◌<◌, ◌&&◌, nat_lt, true, not, None, is_some, length, IfSome};
ghost use Rattle.std.specs.List.{list_all};
ghost use Rattle.photo_version.specs.Author.{epoch_of_author};
ghost use Rattle.fleet_steps.specs.Between.{AreReady, MayPull};

use crate::devices::same_devices;
use fleet_steps::{Outcome, run_between, run_on, run_plain, run_pull};
use photo_device::Device;
use photo_pull::{PullCounts, preview, pull, stage_pull};
use photo_script::{Command, Report, Script, read_script};
use std::alloc::Global;
use tool_value_refusals::{Verdict, judged, mark};

/// The verdict on a pull.
pub fn verdict(alloc: Global, call: Call) -> Option<Verdict> {
    let mut made = before(alloc);
    let verdict = match &mut made {
        Some(outcome) => beside_twins(alloc, outcome.devices.as_mut_slice(), call),
        None => None,
    };
    drop(made);
    verdict
}

fn beside_twins(alloc: Global, devices: &mut [Device], call: Call) -> Option<Verdict>
    requires ready { AreReady devices.old }
{
    let made = before(alloc);
    let verdict = match &made {
        Some(twin) => Some(on_twins(alloc, devices, twin.devices.as_slice(), call)),
        None => None,
    };
    drop(made);
    verdict
}

fn on_twins(alloc: Global, devices: &mut [Device], twins: &[Device], call: Call) -> Verdict
    requires ready { AreReady devices.old }
{
    if devices.len() != 3 {
        return Verdict::Wrong;
    }
    match call {
        Call::RunOn => on_all(alloc, devices, twins),
        _ => {
            let right = pulls_between(alloc, devices, call);
            judged(right, same_devices(devices, twins))
        }
    }
}

/// The calls that pull.
#[derive(Clone, Copy)]
pub enum Call {
    /// `photo_pull::stage_pull`
    Stage,
    /// `photo_pull::pull`
    Pull,
    /// `photo_pull::preview`
    Preview,
    /// `fleet_steps::run_pull`
    RunPull,
    /// `fleet_steps::run_between`
    RunBetween,
    /// `fleet_steps::run_on`
    RunOn,
}

// `srv` holds the version that was handed over to it, and `cam` a later one made with it.
const BEFORE: &str =
    "device cam rating >= 4\ndevice srv all\ndevice tab all\nnew cam 7 5 2024-01-01 -\npull tab cam\nedit cam 7 1 2024-01-01 -\npull srv cam\nedit tab 7 4 2024-01-01 -\npull cam tab\nedit cam 7 5 2024-01-01 -\n";

// The outcome of that script, before `srv` pulls from `cam`.
fn before(alloc: Global) -> Option<Outcome>
    ensures { IfSome result (λ outcome. AreReady outcome.devices.items) }
{
    match read_script(alloc, BEFORE.as_bytes()) {
        Ok(script) => {
            let outcome = run_before(alloc, &script);
            drop(script);
            outcome
        }
        Err(_) => None,
    }
}

#[tactic(auto, using(crate::proofs::Ready::ready_after))]
fn run_before(alloc: Global, script: &Script) -> Option<Outcome>
    ensures { IfSome result (λ outcome. AreReady outcome.devices.items) }
{
    // `devices()` and `commands()` are called because their contracts state the invariants of every script, so that the devices
    // are ready afterwards.
    let _devices = script.devices();
    let _commands = script.commands();
    match run_plain(alloc, script) {
        Ok(outcome) => Some(outcome),
        Err(_) => None,
    }
}

/// `srv` takes one version, which replaces another.
pub const COUNTS: PullCounts = PullCounts {
    taken: 1,
    handed: 0,
    notices: 0,
    dropped: 1,
    learned: false,
};

fn is_told(report: &Report) -> bool {
    match report {
        Report::Pulled(counts) => *counts == COUNTS,
        _ => false,
    }
}

// Whether `srv` has exactly one version, knows it, and has no conflict.
fn has_taken(srv: &Device) -> bool {
    srv.store().len() == 1
        && srv.out().is_empty()
        && srv.store().get(0).version.n() == 3
        && srv.knowledge().fragments() == 2
}

// Whether each device may make one more version and begin its next epoch.
fn have_room(devices: &[Device]) -> bool
    ensures { result ≡ list_all (λ d. nat_lt d.counter 4_294_967_295 && nat_lt (epoch_of_author d.author) 4_294_967_295) devices.now }
{
    devices.iter().all(|device| device.counter() < u32::MAX && device.author().epoch() < u32::MAX)
}

// Whether nothing is staged on any device.
fn are_settled(devices: &[Device]) -> bool
    ensures { result ≡ list_all (λ d. not (is_some d.staged)) devices.now }
{
    devices.iter().all(|device| !device.staged())
}

// The verdict on a command that pulls. If memory was refused, the next try has to be right.
fn on_all(alloc: Global, devices: &mut [Device], twins: &[Device]) -> Verdict
    requires three { length devices.old ≡ 3 }
    requires ready { AreReady devices.old }
{
    if !have_room(devices) || !are_settled(devices) {
        return Verdict::Wrong;
    }
    mark(alloc);
    let right = runs_on(alloc, devices);
    mark(alloc);
    match right {
        Some(right) => judged(Some(right), true),
        None => judged(
            None,
            same_devices(devices, twins) && runs_on(alloc, devices) == Some(true),
        ),
    }
}

// Whether the command that pulls gives the right answer. `None` where memory was refused.
#[tactic(auto, using(crate::proofs::Ready::room_for_all))]
fn runs_on(alloc: Global, devices: &mut [Device]) -> Option<bool>
    requires three { length devices.old ≡ 3 }
    requires ready { AreReady devices.old }
    requires room { list_all (λ d. nat_lt d.counter 4_294_967_295 && nat_lt (epoch_of_author d.author) 4_294_967_295) devices.old ≡ true }
    requires settled { list_all (λ d. not (is_some d.staged)) devices.old ≡ true }
    ensures kept { result ≡ None → devices.new ≡ devices.old }
{
    let command = Command::Pull {
        target: 1,
        source: 0,
    };
    match run_on(alloc, &command, devices) {
        Ok(report) => Some(is_told(&report) && devices.len() == 3 && has_taken(&devices[1])),
        Err(_) => None,
    }
}

fn pulls_between(alloc: Global, devices: &mut [Device], call: Call) -> Option<bool>
    requires three { length devices.old ≡ 3 }
    requires ready { AreReady devices.old }
{
    let (front, back) = devices.split_at_mut(1);
    on_two(alloc, &mut back[0], &mut front[0], call)
}

fn on_two(alloc: Global, target: &mut Device, source: &mut Device, call: Call) -> Option<bool>
    requires { MayPull target.old source.old }
{
    match call {
        Call::Stage => stages(alloc, target, source),
        Call::Pull => pulls_from(alloc, target, source),
        Call::Preview => previews(alloc, target, source),
        Call::RunBetween => runs_between(alloc, target, source),
        _ => runs_pull(alloc, target, source),
    }
}

// Whether the pull is staged, the target still holds what it held, and a commit makes the pull.
fn stages(alloc: Global, target: &mut Device, source: &Device) -> Option<bool>
    requires { MayPull target.old source.now }
{
    mark(alloc);
    let found = stage_pull(alloc, target, source);
    mark(alloc);
    let found = found.ok()?;
    let staged = found.counts == COUNTS && target.staged() && !has_taken(target);
    found.commit(target);
    Some(staged && !target.staged() && has_taken(target))
}

fn pulls_from(alloc: Global, target: &mut Device, source: &mut Device) -> Option<bool>
    requires { MayPull target.old source.old }
{
    mark(alloc);
    let counts = pull(alloc, target, source);
    mark(alloc);
    Some(counts.ok()? == COUNTS && has_taken(target))
}

// Whether a preview gives the counts of the pull, and the target still holds what it held.
fn previews(alloc: Global, target: &Device, source: &Device) -> Option<bool>
    requires { MayPull target.now source.now }
{
    mark(alloc);
    let counts = preview(alloc, target, source);
    mark(alloc);
    Some(counts.ok()? == COUNTS && target.store().len() == 1 && !has_taken(target))
}

fn runs_pull(alloc: Global, target: &mut Device, source: &mut Device) -> Option<bool>
    requires { MayPull target.old source.old }
{
    mark(alloc);
    let report = run_pull(alloc, target, source);
    mark(alloc);
    let right = match &report {
        Ok(report) => Some(is_told(report) && has_taken(target)),
        Err(_) => None,
    };
    drop(report);
    right
}

// Whether the preview command reports the counts of the pull.
fn runs_between(alloc: Global, target: &mut Device, source: &mut Device) -> Option<bool>
    requires { MayPull target.old source.old }
{
    let command = Command::Preview {
        target: 1,
        source: 0,
    };
    mark(alloc);
    let report = run_between(alloc, &command, target, source);
    mark(alloc);
    let right = match &report {
        Ok(Report::Preview(counts)) => Some(*counts == COUNTS && !has_taken(target)),
        Ok(_) => Some(false),
        Err(_) => None,
    };
    drop(report);
    drop(command);
    right
}
