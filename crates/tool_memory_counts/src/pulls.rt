//! The commit of a pull that takes a version and is handed another one.
ghost use Rattle.std.specs.Prelude.{IfSome};
ghost use Rattle.fleet_steps.specs.Between.{AreReady, MayPull};

use fleet_runner::{Outcome, run_plain};
use photo_device::Device;
use photo_pull::stage_pull;
use photo_script::{Script, read_script};
use std::alloc::Global;

// `cam` keeps one version and has another one for other devices; `srv` has none yet.
const BEFORE: &str =
    "device cam rating >= 4\ndevice srv all\nnew cam 7 5 2024-01-01 -\nnew cam 8 1 2024-01-01 -\n";

/// `StagedPull::commit`, once if any calls are asked for.
pub fn answer(alloc: Global, times: u32) -> Option<bool> {
    let mut made = before(alloc);
    let right = match &mut made {
        Some(outcome) => on_devices(alloc, outcome.devices.as_mut_slice(), times),
        None => None,
    };
    drop(made);
    right
}

// What comes of that script.
fn before(alloc: Global) -> Option<Outcome>
    ensures { IfSome result (λ outcome. AreReady outcome.devices.items) }
{
    match read_script(alloc, BEFORE.as_bytes()) {
        Ok(script) => {
            let outcome = run_before(alloc, &script);
            drop(script);
            outcome
        }
        Err(_) => None,
    }
}

#[tactic(auto, using(crate::proofs::Ready::ready_after))]
fn run_before(alloc: Global, script: &Script) -> Option<Outcome>
    ensures { IfSome result (λ outcome. AreReady outcome.devices.items) }
{
    // For their facts alone: what is true of every script.
    let _devices = script.devices();
    let _commands = script.commands();
    match run_plain(alloc, script) {
        Ok(outcome) => Some(outcome),
        Err(_) => None,
    }
}

fn on_devices(alloc: Global, devices: &mut [Device], times: u32) -> Option<bool>
    requires ready { AreReady devices.old }
{
    if devices.len() != 2 {
        return None;
    }
    let (front, back) = devices.split_at_mut(1);
    takes(alloc, &mut back[0], &front[0], times)
}

// Whether the device stores both versions after a commit, if any calls are asked for.
fn takes(alloc: Global, target: &mut Device, source: &Device, times: u32) -> Option<bool>
    requires { MayPull target.old source.now }
{
    let found = stage_pull(alloc, target, source).ok()?;
    if times == 0 {
        drop(found);
        return Some(target.store().is_empty());
    }
    found.commit(target);
    Some(target.store().len() == 2)
}
