//! Calls by their names.
use crate::{
    devices, fields, fleets, gates, growing, live, pulls, questions, runs, scripts, sessions,
    streams,
};
use std::alloc::Global;
use std::sync::Wait;
use std::thread::Threads;
use tool_value_refusals::{Verdict, verdict_on};

/// The verdict on the call that a line names. `None` where it names none, or where the values for the call can't be made.
pub fn of_line<R: Threads + Wait + Copy + Send + 'static>(
    rt: R,
    alloc: Global,
    line: &str,
) -> Option<Verdict> {
    let (library, call) = line.split_once("::")?;
    match library {
        "fleet_workers" if call == "run_fleet command" => gates::verdict(rt, alloc),
        "fleet_workers" => streams::verdict_on_fleet(rt, alloc, call),
        "fleet_runner" if call == "run_stream" => streams::verdict_on_stream(rt, alloc),
        _ => of_fleets(alloc, library, call),
    }
}

fn of_fleets(alloc: Global, library: &str, call: &str) -> Option<Verdict> {
    match call {
        "write_reports" | "write_plan" => scripts::verdict(alloc, library, call),
        "Fleet::of_script" | "Fleet::run_number" => scripts::verdict(alloc, library, call),
        "Session::of_script" => scripts::verdict(alloc, library, call),
        "read_script" => scripts::verdict_on_reading(alloc),
        "read_record" | "read_filter" => fields::verdict(alloc, call),
        "GrowingScript::of" | "GrowingScript::push" => growing::verdict(alloc, call),
        _ => of_library(alloc, library, call),
    }
}

fn of_library(alloc: Global, library: &str, call: &str) -> Option<Verdict> {
    match library {
        "fleet_runner" => streams::verdict(alloc, call),
        "fleet_steps" => runs::verdict(alloc, call),
        "live_fleet" if call.starts_with("Fleet::") => fleets::verdict(alloc, call),
        "live_fleet" if call.starts_with("Session::") => sessions::verdict(alloc, call),
        "live_fleet" => questions::verdict(alloc, call),
        _ => of_scripts(alloc, library, call),
    }
}

fn of_scripts(alloc: Global, library: &str, call: &str) -> Option<Verdict> {
    match library {
        "photo_pull" if call == "stage_pull" => pulls::verdict(alloc, pulls::Call::Stage),
        "photo_pull" if call == "pull" => pulls::verdict(alloc, pulls::Call::Pull),
        "photo_pull" if call == "preview" => pulls::verdict(alloc, pulls::Call::Preview),
        "photo_device" => devices::verdict(alloc, call),
        "live_script" => live::verdict(alloc, call),
        "photo_script" | "script_text" | "photo_batcher" => scripts::verdict(alloc, library, call),
        _ => verdict_on(alloc, library, call),
    }
}
