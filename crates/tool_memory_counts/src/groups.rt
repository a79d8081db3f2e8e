//! Groups of calls by their names.
use crate::{copies, devices, filters, fleets, growing, ledgers, pulls, runs, scripts, staging};
use std::alloc::Global;
use std::sync::Wait;
use tool_value_counts::answer_on_values;

/// Whether each call that a line names gives the right answer, as often as the line says. `None` where the line names no group,
/// or where the values for the calls can't be made.
pub fn of_line<R: Wait>(rt: &R, alloc: Global, line: &str) -> Option<bool> {
    let (group, times) = line.split_once(' ')?;
    let times = times.parse::<u32>().ok()?;
    match group {
        "ledger" => ledgers::answer(rt, alloc, times),
        "filter" => filters::answer(alloc, times),
        _ => of_devices(alloc, group, times),
    }
}

fn of_devices(alloc: Global, group: &str, times: u32) -> Option<bool> {
    match group {
        // `conflicts` does take memory: unless its allocations are counted, the other counts prove nothing.
        "device" | "held_set" | "asking" | "held" | "conflicts" => {
            devices::answer(alloc, group, times)
        }
        "staged" | "commit" | "unstage" | "handing" => devices::answer(alloc, group, times),
        "given" => staging::answer_given(alloc, times),
        _ => of_scripts(alloc, group, times),
    }
}

fn of_scripts(alloc: Global, group: &str, times: u32) -> Option<bool> {
    match group {
        "script" | "plan" | "audit" | "log" => scripts::answer(alloc, group, times),
        "same_words" => scripts::answer_same_words(alloc, times),
        "device_copy" => copies::answer_device(alloc, times),
        "fleet_copy" => copies::answer_fleet(alloc, times),
        "pull_commit" => pulls::answer(alloc, times),
        "workers" => Some(runs::answer_workers(times)),
        "growing" => growing::answer(alloc, times),
        "live" => growing::answer_live(alloc, times),
        "fleet" => fleets::answer(alloc, times),
        "session" => fleets::answer_session(alloc, times),
        _ => answer_on_values(alloc, group, times),
    }
}
