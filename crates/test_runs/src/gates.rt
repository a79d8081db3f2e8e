//! Tests of runs by workers, under a gate that waits for another command and one that only watches. A gate that waits gives up
//! after a number of turns, so its test fails rather than hangs.
ghost use Rattle.std.specs.Prelude.{◌<◌};

use super::memory::{OUTPUT, SCRIPT, Sink, Source};
use super::orders::{FOUR_DEVICES, REPORTS};
use super::totals::totals;
use super::workers::prints_by;
use fleet_runner::{Gate, Workers, run_stream};
use photo_script::Totals;
use std::alloc::Global;
use std::io::{self, Write};
use std::sync::atomic::{AtomicU64, Ordering};
use std::sync::{Arc, Mutex, Wait};
use std::thread;
use std::thread::Threads;

// A gate that waits gives up after that many turns.
const MOST_TURNS: u32 = 10_000_000;

// The totals of all four devices' commands.
const ALL: [u64; 4] = [2, 4, 1, 4];

fn is_shown(shown: Option<Totals>, wanted: [u64; 4]) -> bool {
    shown == Some(totals(wanted))
}

// What the gate saw after some commands, and whether the first command waited until the gate had seen the second.
#[derive(Clone, Copy)]
struct Shown {
    first: Option<Totals>,
    second: Option<Totals>,
    last: Option<Totals>,
    in_turn: bool,
}

// Holds the first command back until the second has run.
#[derive(Drop)]
struct FirstLast<R: Wait + Copy> {
    rt: R,
    shown: Mutex<Shown>,
}

impl<R: Wait + Copy> FirstLast<R> {
    fn new(rt: R) -> FirstLast<R> {
        FirstLast {
            rt,
            shown: Mutex::new(Shown {
                first: None,
                second: None,
                last: None,
                in_turn: false,
            }),
        }
    }

    // Whether the second command has run.
    fn is_second_shown(&self) -> bool {
        self.shown.lock(&self.rt).second.is_some()
    }

    fn wait_for_second(&self) -> bool {
        for _ in 0..MOST_TURNS {
            if self.is_second_shown() {
                return true;
            }
            thread::yield_now();
        }
        false
    }

    // Whether the first command waited, and the gate saw what all workers together had counted after each command.
    fn is_right(&self) -> bool {
        let shown = *self.shown.lock(&self.rt);
        shown.in_turn
            && is_shown(shown.second, [1, 0, 0, 0])
            && is_shown(shown.first, [2, 0, 0, 0])
            && is_shown(shown.last, ALL)
    }
}

impl<R: Wait + Copy + Send + Sync> Gate for FirstLast<R> {
    fn before(&self, number: u32) {
        if number == 1 {
            let in_turn = self.wait_for_second();
            self.shown.lock(&self.rt).in_turn = in_turn;
        }
    }

    fn after(&self, number: u32, seen: Totals) {
        let mut shown = self.shown.lock(&self.rt);
        match number {
            1 => shown.first = Some(seen),
            2 => shown.second = Some(seen),
            7 => shown.last = Some(seen),
            _ => (),
        }
    }
}

fn first_runs_last<R: Threads + Wait + Copy + Send + Sync + 'static>(rt: R, alloc: Global) -> bool {
    match Arc::new(alloc, FirstLast::new(rt)) {
        Ok(gate) => {
            prints_by(rt, alloc, FOUR_DEVICES, 2, &gate, REPORTS, ALL) && (*gate).is_right()
        }
        Err(_) => false,
    }
}

#[test]
fn a_command_that_waits_for_a_later_one(rt: HostRuntime) {
    for run in 0..100 {
        assert!(rt; first_runs_last(rt, rt.alloc()), "run {run}");
    }
}

// Counts a gate's calls, a writer's writes, and the calls that came after a write.
#[derive(Drop)]
struct Watch {
    calls: AtomicU64,
    writes: AtomicU64,
    late: AtomicU64,
}

impl Watch {
    fn new() -> Watch {
        Watch {
            calls: AtomicU64::new(0),
            writes: AtomicU64::new(0),
            late: AtomicU64::new(0),
        }
    }

    fn called(&self) {
        self.calls.fetch_add(1, Ordering::SeqCst);
        if self.writes.load(Ordering::SeqCst) > 0 {
            self.late.fetch_add(1, Ordering::SeqCst);
        }
    }

    // Whether that many calls came, all before the first write.
    fn is_right(&self, calls: u64) -> bool {
        self.calls.load(Ordering::SeqCst) == calls
            && self.writes.load(Ordering::SeqCst) > 0
            && self.late.load(Ordering::SeqCst) == 0
    }
}

impl Gate for Watch {
    fn before(&self, _number: u32) {
        self.called();
    }

    fn after(&self, _number: u32, _seen: Totals) {
        self.called();
    }
}

// A writer whose writes are counted.
#[derive(Drop)]
struct Watched {
    sink: Sink,
    watch: Arc<Watch>,
}

impl Write for Watched {
    fn write(&mut self, buf: &[u8]) -> io::Result<usize> {
        self.watch.writes.fetch_add(1, Ordering::SeqCst);
        self.sink.write(buf)
    }

    fn flush(&mut self) -> io::Result<()> {
        self.sink.flush()
    }
}

// Whether a run by that many workers writes that output, and only after all calls of its gate.
fn writes_last<R: Threads + Wait + Copy + Send + 'static>(
    rt: R,
    alloc: Global,
    script: &str,
    count: u16,
    output: &str,
    calls: u64,
) -> bool {
    let Some(workers) = Workers::new(count) else {
        return false;
    };
    let Ok(watch) = Arc::new(alloc, Watch::new()) else {
        return false;
    };
    let Ok(gate) = Arc::try_clone(&watch) else {
        return false;
    };
    let mut source = Source::new(script.as_bytes());
    let mut writer = Watched {
        sink: Sink::new(alloc),
        watch,
    };
    run_stream(rt, alloc, &mut source, &mut writer, workers, gate).is_ok()
        && writer.sink.taken.as_slice() == output.as_bytes()
        && (*writer.watch).is_right(calls)
}

#[test]
fn nothing_is_written_while_commands_run(rt: HostRuntime) {
    for run in 0..100 {
        for count in [1, 2, 7, 256] {
            assert!(rt;
                writes_last(rt, rt.alloc(), SCRIPT, count, OUTPUT, 4),
                "run {run}: {count} workers"
            );
            assert!(rt;
                writes_last(rt, rt.alloc(), FOUR_DEVICES, count, REPORTS, 14),
                "run {run}: {count} workers"
            );
        }
    }
}
