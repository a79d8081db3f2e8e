//! The calls on a script, and on what its run gives.
ghost use Rattle.std.specs.Prelude.{◌<◌};
ghost use Rattle.fleet_steps.specs.Outcomes.{IsOutcome};

use crate::sessions;
use crate::told::tell;
use fleet_runner::{Outcome, read_source, write_plan, write_reports};
use fleet_steps::{no_reports, opening_device, opening_devices, replay, run_plain};
use live_fleet::Fleet;
use photo_batcher::{Plan, lawful, plan};
use photo_script::{Script, read_script};
use script_faults::fault_view;
use script_text::{command_text, script_text};
use std::alloc::{AllocError, Global};

/// Makes them on the script of these bytes.
pub fn make(rt: HostRuntime, source: &[u8]) {
    let mut reader = source;
    let done = read_source(rt.alloc(), &mut reader).is_ok();
    tell(rt, "fleet_runner::read_source", done);
    let made = broken(rt.alloc(), source);
    if let Ok(bytes) = &made {
        fault(rt, bytes);
    }
    drop(made);
    on_source(rt, source);
}

fn on_source(rt: HostRuntime, source: &[u8]) {
    let made = read_script(rt.alloc(), source);
    tell(rt, "script_reader::read_script", made.is_ok());
    if let Ok(script) = &made {
        on_script(rt, script);
    }
    drop(made);
}

// The bytes with a line behind them that is none.
fn broken(alloc: Global, source: &[u8]) -> Result<Vec<u8>, AllocError> {
    let mut bytes = Vec::new(alloc);
    bytes.extend_from_slice(source)?;
    if let Some(last) = bytes.last_mut() {
        *last = 9;
    }
    Ok(bytes)
}

fn fault(rt: HostRuntime, bytes: &[u8]) {
    if let Err(fault) = read_script(rt.alloc(), bytes) {
        let done = fault_view(rt.alloc(), bytes, fault).is_ok();
        tell(rt, "script_faults::fault_view", done);
    }
}

fn on_script(rt: HostRuntime, script: &Script) {
    write(rt, script);
    open(rt, script);
    let made = in_order(rt.alloc(), script);
    if let Ok(order) = &made {
        order_by(rt, script, order);
    }
    drop(made);
    run(rt, script);
    run_fleet(rt, script);
    sessions::run_script(rt, script);
}

fn write(rt: HostRuntime, script: &Script) {
    let done = matches!(script_text(rt.alloc(), script), Ok(Some(_)));
    tell(rt, "script_text::script_text", done);
    let last = script.commands() as u32;
    if last > 0 {
        let done = command_text(rt.alloc(), script, script.command(last)).is_ok();
        tell(rt, "script_text::command_text", done);
    }
    let made = plan(rt.alloc(), script);
    tell(rt, "photo_batcher::plan", made.is_ok());
    if let Ok(plan) = &made {
        on_plan(rt, plan);
    }
}

fn on_plan(rt: HostRuntime, plan: &Plan) {
    let last = plan.commands();
    if last > 0 {
        let done = plan.chain_of(rt.alloc(), last).is_ok();
        tell(rt, "photo_batcher::Plan::chain_of", done);
    }
    let mut text = Vec::new(rt.alloc());
    let done = write_plan(rt.alloc(), &mut text, plan).is_ok();
    tell(rt, "fleet_runner::write_plan", done);
}

/// The numbers of the commands in their order.
pub fn in_order(alloc: Global, script: &Script) -> Result<Vec<u32>, AllocError> {
    let mut order = Vec::new(alloc);
    for number in 1..script.commands() as u32 + 1 {
        order.push(number)?;
    }
    Ok(order)
}

fn order_by(rt: HostRuntime, script: &Script, order: &[u32]) {
    let done = lawful(rt.alloc(), script, order).is_ok();
    tell(rt, "photo_batcher::lawful", done);
    let done = replay(rt.alloc(), script, order).is_ok();
    tell(rt, "fleet_steps::replay", done);
}

fn open(rt: HostRuntime, script: &Script) {
    let done = opening_devices(rt.alloc(), script).is_ok();
    tell(rt, "fleet_steps::opening_devices", done);
    if script.devices() > 0 {
        let done = opening_device(rt.alloc(), 0, script.filter(0)).is_ok();
        tell(rt, "fleet_steps::opening_device", done);
    }
    let done = no_reports(rt.alloc(), script.commands()).is_ok();
    tell(rt, "fleet_steps::no_reports", done);
}

fn run(rt: HostRuntime, script: &Script) {
    let made = run_plain(rt.alloc(), script);
    tell(rt, "fleet_steps::run_plain", made.is_ok());
    if let Ok(outcome) = &made {
        report(rt, script, outcome);
    }
}

fn report(rt: HostRuntime, script: &Script, outcome: &Outcome)
    requires { IsOutcome script.now outcome.now }
{
    let mut text = Vec::new(rt.alloc());
    let done = write_reports(rt.alloc(), &mut text, script, outcome.reports.as_slice()).is_ok();
    tell(rt, "fleet_runner::write_reports", done);
}

fn run_fleet(rt: HostRuntime, script: &Script) {
    let made = Fleet::of_script(rt.alloc(), script);
    tell(rt, "live_fleet::Fleet::of_script", made.is_ok());
    if let Ok(mut fleet) = made {
        let done = has_run(&mut fleet, script);
        tell(rt, "live_fleet::Fleet::run_number", done);
    }
}

// Runs the whole script, command by command, and tells whether each was answered.
fn has_run(fleet: &mut Fleet, script: &Script) -> bool {
    for number in 1..script.commands() as u32 + 1 {
        if fleet.devices().len() != script.devices() || fleet.commands() == u32::MAX {
            return false;
        }
        if fleet.run_number(script, number).is_err() {
            return false;
        }
    }
    true
}
