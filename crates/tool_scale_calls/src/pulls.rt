//! The calls on two devices: the first one has handed nothing over yet of many versions, each of which it knows by itself, and
//! the second one has nothing.
ghost use Rattle.std.specs.Prelude.{◌≡◌, ◌<◌, ◌&&◌, nat_lt, true, length, IfSome};
ghost use Rattle.std.specs.List.{list_all};
ghost use Rattle.photo_version.specs.Author.{epoch_of_author};
ghost use Rattle.fleet_steps.specs.Between.{AreReady, MayPull};

use crate::told::tell;
use fleet_steps::{Outcome, run_between, run_on, run_plain, run_pull};
use photo_device::Device;
use photo_pull::{preview, pull, stage_pull};
use photo_script::{Command, Script, read_script};
use std::alloc::{AllocError, Global};

/// Makes the calls on two devices, the first with `count` versions.
pub fn make(rt: HostRuntime, count: u32) {
    let mut made = before(rt.alloc(), count);
    if let Some(outcome) = &mut made {
        on_devices(rt, outcome.devices.as_mut_slice());
    }
    drop(made);
}

/// A device that is to keep none of so many versions, begins an epoch behind them, and lists them; and one that keeps all.
pub fn text_of(alloc: Global, count: u32) -> Result<String, AllocError> {
    let mut text = String::new(alloc);
    write!(text, "device cam rating >= 4\ndevice srv all\n")?;
    for i in 0..count {
        write!(text, "new cam {} 1 2024-01-01 sea\n", i.saturating_add(1))?;
    }
    write!(text, "refilter cam rating >= 3\nlist cam\n")?;
    Ok(text)
}

// What comes of that script.
fn before(alloc: Global, count: u32) -> Option<Outcome>
    ensures { IfSome result (λ outcome. AreReady outcome.devices.items) }
{
    let text = text_of(alloc, count).ok()?;
    match read_script(alloc, text.as_bytes()) {
        Ok(script) => {
            let outcome = run_before(alloc, &script);
            drop(script);
            outcome
        }
        Err(_) => None,
    }
}

#[tactic(auto, using(crate::proofs::Ready::ready_after))]
fn run_before(alloc: Global, script: &Script) -> Option<Outcome>
    ensures { IfSome result (λ outcome. AreReady outcome.devices.items) }
{
    // For their facts alone: what is true of every script.
    let _devices = script.devices();
    let _commands = script.commands();
    match run_plain(alloc, script) {
        Ok(outcome) => Some(outcome),
        Err(_) => None,
    }
}

// Whether each device may make a version more, and begin its next epoch.
fn have_room(devices: &[Device]) -> bool
    ensures { result ≡ list_all (λ d. nat_lt d.counter 4_294_967_295 && nat_lt (epoch_of_author d.author) 4_294_967_295) devices.now }
{
    devices.iter().all(|device| device.counter() < u32::MAX && device.author().epoch() < u32::MAX)
}

fn on_devices(rt: HostRuntime, devices: &mut [Device])
    requires ready { AreReady devices.old }
{
    if devices.len() == 2 && have_room(devices) {
        on_two(rt, devices);
        let done = is_run_on(rt.alloc(), devices);
        tell(rt, "fleet_steps::run_on", done);
    }
}

#[tactic(auto, using(crate::proofs::Ready::room_for_all))]
fn is_run_on(alloc: Global, devices: &mut [Device]) -> bool
    requires two { length devices.old ≡ 2 }
    requires ready { AreReady devices.old }
    requires room { list_all (λ d. nat_lt d.counter 4_294_967_295 && nat_lt (epoch_of_author d.author) 4_294_967_295) devices.old ≡ true }
{
    let command = Command::Pull {
        target: 1,
        source: 0,
    };
    let done = run_on(alloc, &command, devices).is_ok();
    drop(command);
    done
}

fn on_two(rt: HostRuntime, devices: &[Device])
    requires two { length devices.now ≡ 2 }
    requires ready { AreReady devices.now }
{
    between(rt, &devices[1], &devices[0]);
}

fn between(rt: HostRuntime, target: &Device, source: &Device)
    requires { MayPull target.now source.now }
{
    let done = preview(rt.alloc(), target, source).is_ok();
    tell(rt, "photo_pull::preview", done);
    let done = target.unknown_by(rt.alloc(), source.out()).is_ok();
    tell(rt, "photo_device::Device::unknown_by", done);
    on_copy(rt, target, source, Call::Ask);
    on_copy(rt, target, source, Call::Stage);
    on_copy(rt, target, source, Call::Pull);
    on_copy(rt, target, source, Call::RunPull);
    on_copy(rt, target, source, Call::RunBetween);
}

// The calls that a device is lent to, to be changed.
#[derive(Clone, Copy)]
enum Call {
    Ask,
    Stage,
    Pull,
    RunPull,
    RunBetween,
}

// Makes a call on a copy of the target.
#[tactic(auto, using(crate::proofs::Ready::pulls_as_copy))]
fn on_copy(rt: HostRuntime, target: &Device, source: &Device, call: Call)
    requires { MayPull target.now source.now }
{
    let mut made = target.try_clone();
    if let Ok(copy) = &mut made {
        match call {
            Call::Ask => ask(rt, copy, source),
            Call::Stage => stage(rt, copy, source),
            call => on_copies(rt, copy, source, call),
        }
    }
    drop(made);
}

fn ask(rt: HostRuntime, target: &mut Device, source: &Device) {
    let done = target.unknown_of(rt.alloc(), source.out()).is_ok();
    tell(rt, "photo_device::Device::unknown_of", done);
}

fn stage(rt: HostRuntime, target: &mut Device, source: &Device)
    requires { MayPull target.old source.now }
{
    let made = stage_pull(rt.alloc(), target, source);
    tell(rt, "photo_pull::stage_pull", made.is_ok());
    if let Ok(found) = made {
        found.commit(target);
    }
}

// Makes a call on the target and on a copy of the source.
#[tactic(auto, using(crate::proofs::Ready::pulled_as_copy))]
fn on_copies(rt: HostRuntime, target: &mut Device, source: &Device, call: Call)
    requires { MayPull target.old source.now }
{
    let mut made = source.try_clone();
    if let Ok(copy) = &mut made {
        make_call(rt, target, copy, call);
    }
    drop(made);
}

fn make_call(rt: HostRuntime, target: &mut Device, source: &mut Device, call: Call)
    requires { MayPull target.old source.old }
{
    match call {
        Call::Pull => {
            let done = pull(rt.alloc(), target, source).is_ok();
            tell(rt, "photo_pull::pull", done);
        }
        Call::RunPull => {
            let done = run_pull(rt.alloc(), target, source).is_ok();
            tell(rt, "fleet_steps::run_pull", done);
        }
        _ => {
            let done = is_run_between(rt.alloc(), target, source);
            tell(rt, "fleet_steps::run_between", done);
        }
    }
}

fn is_run_between(alloc: Global, target: &mut Device, source: &mut Device) -> bool
    requires { MayPull target.old source.old }
{
    let command = Command::Pull {
        target: 1,
        source: 0,
    };
    let done = run_between(alloc, &command, target, source).is_ok();
    drop(command);
    done
}
