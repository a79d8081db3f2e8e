//! Tests of runs by workers that are all in the gate at once: each command waits there until as many have come as there are
//! workers. The gate gives up after a while, so its test fails rather than hangs.
ghost use Rattle.std.specs.Prelude.{◌<◌};

use super::workers::prints_by;
use fleet_runner::Gate;
use photo_script::Totals;
use std::alloc::{AllocError, Global};
use std::sync::atomic::{AtomicU64, Ordering};
use std::sync::{Arc, Condvar, Mutex, Wait};
use std::thread::Threads;
use std::time::{Clock, Duration};

// The most workers that there may be.
const MOST_WORKERS: u16 = 256;

// Lets commands run in groups as large as the number of workers: none of a group runs before all of it have come.
#[derive(Drop)]
struct Meeting<R: Wait + Clock + Copy> {
    rt: R,
    workers: u32,
    come: Mutex<u32>,
    all_here: Condvar,
    met: AtomicU64,
    ghost some: { 0 < workers },
}

impl<R: Wait + Clock + Copy> Meeting<R> {
    fn new(rt: R, workers: u32) -> Meeting<R>
        requires { 0 < workers }
    {
        Meeting {
            rt,
            workers,
            come: Mutex::new(0),
            all_here: Condvar::new(),
            met: AtomicU64::new(0),
        }
    }

    // Counts one more command that has come. Whether `wanted` commands come before the gate gives up.
    fn meets(&self, wanted: u32) -> bool {
        let mut come = self.come.lock(&self.rt);
        *come = come.saturating_add(1);
        if *come >= wanted {
            self.all_here.notify_all();
        }
        let longest = Duration::from_secs(20);
        let (come, _) = self
            .all_here
            .wait_timeout_while(&self.rt, come, longest, |come| *come < wanted);
        *come >= wanted
    }

    // Whether that many commands have met the others of their group.
    fn have_met(&self, commands: u64) -> bool {
        self.met.load(Ordering::SeqCst) == commands
    }
}

impl<R: Wait + Clock + Copy + Send + Sync> Gate for Meeting<R> {
    fn before(&self, number: u32) {
        let wanted = number.div_ceil(self.workers).saturating_mul(self.workers);
        if self.meets(wanted) {
            self.met.fetch_add(1, Ordering::SeqCst);
        }
    }

    fn after(&self, _number: u32, _seen: Totals) {}
}

// Each of that many devices makes a picture, in a first batch, and edits it, in a second one.
fn script_of(alloc: Global, devices: u16) -> Result<String, AllocError> {
    let mut text = String::new(alloc);
    for i in 0..devices {
        write!(text, "device d{i} all\n")?;
    }
    for i in 0..devices {
        write!(text, "new d{i} {} 5 2024-01-01 -\n", u32::from(i) + 1)?;
    }
    for i in 0..devices {
        write!(text, "edit d{i} {} 4 2024-01-01 -\n", u32::from(i) + 1)?;
    }
    Ok(text)
}

// The output of that script.
fn output_of(alloc: Global, devices: u16) -> Result<String, AllocError> {
    let mut text = String::new(alloc);
    for i in 0..devices {
        write!(text, "{} made d{i}:1 store\n", u32::from(i) + 1)?;
    }
    for i in 0..devices {
        let number = u32::from(devices) + u32::from(i) + 1;
        write!(text, "{number} made d{i}:2 store\n")?;
    }
    Ok(text)
}

// Whether all workers, each with as many commands of a batch as the others, are in the gate at once: for the batch's first
// commands, for its next ones, and in the second batch too.
fn meet<R: Threads + Wait + Clock + Copy + Send + Sync + 'static>(
    rt: R,
    alloc: Global,
    devices: u16,
    workers: u16,
) -> bool {
    if workers == 0 {
        return false;
    }
    let Ok(script) = script_of(alloc, devices) else {
        return false;
    };
    let Ok(output) = output_of(alloc, devices) else {
        return false;
    };
    let commands = 2 * u64::from(devices);
    let all = [commands, 0, 0, 0];
    match Arc::new(alloc, Meeting::new(rt, u32::from(workers))) {
        Ok(gate) => {
            prints_by(rt, alloc, &script, workers, &gate, &output, all)
                && (*gate).have_met(commands)
        }
        Err(_) => false,
    }
}

#[test]
fn workers_that_wait_for_each_other(rt: HostRuntime) {
    for run in 0..100 {
        for (devices, workers) in [(2, 2), (4, 4), (8, 4)] {
            assert!(rt;
                meet(rt, rt.alloc(), devices, workers),
                "run {run}: {workers} workers, {devices} devices"
            );
        }
    }
}

#[test]
fn as_many_workers_as_there_may_be(rt: HostRuntime) {
    for run in 0..100 {
        assert!(rt;
            meet(rt, rt.alloc(), MOST_WORKERS, MOST_WORKERS),
            "run {run}"
        );
    }
}
