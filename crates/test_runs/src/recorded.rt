//! Tests of runs by one worker under a gate that records. All of its calls are determined: each call's command, and what the
//! gate sees after it.
use super::totals::totals;
use super::workers::prints_by;
use fleet_runner::Gate;
use photo_script::Totals;
use std::alloc::Global;
use std::sync::{Arc, Mutex, Wait};
use std::thread::Threads;

// Every kind of command, and both refusals. The batches are 1 3 5, 2 4, 6 7, 8 9 10, 11, 12 13, 14 and 15.
const SCRIPT: &str =
    "device a all\ndevice b rating >= 3\ndevice c all\nnew a 1 5 2024-01-01 x\nedit a 1 4 2024-01-01 -\nnew b 2 2 2024-01-01 -\nremove b 2\nedit c 9 1 2024-01-01 -\nlist a\npull c b\nnarrow a rating >= 3\nnarrow b all\nconflicts c\npull b a\nknowledge a\nknows b 1 a:2\npreview b a\nrefilter b all\n";

const OUTPUT: &str =
    "1 made a:1 store\n2 made a:2 store\n3 made b:1 out\n4 made b:2 out\n5 refused C1 NotHeld\n6 list a store 1 out 0\n  store 1 a:2 rating 4 day 2024-01-01 words -\n7 pulled taken 0 handed 1 notices 0 dropped 0 learned no\n8 narrowed 0\n9 refused C2 NotNarrower\n10 conflicts c 0\n11 pulled taken 1 handed 0 notices 0 dropped 0 learned yes\n12 knowledge a 1\n  * a:2\n13 knows yes\n14 preview taken 0 handed 0 notices 0 dropped 0 learned yes\n15 refiltered store 1 out 0\n";

// A command's number, and for the call after the command what the gate has to see: changes, pulls, reports, moved.
type Call = (u32, Option<[u64; 4]>);

// The calls in their order, batch by batch.
const CALLS: &[Call] = &[
    (1, None),
    (1, Some([1, 0, 0, 0])),
    (3, None),
    (3, Some([2, 0, 0, 0])),
    (5, None),
    (5, Some([3, 0, 0, 0])),
    (2, None),
    (2, Some([4, 0, 0, 0])),
    (4, None),
    (4, Some([5, 0, 0, 0])),
    (6, None),
    (6, Some([5, 0, 1, 0])),
    (7, None),
    (7, Some([5, 1, 1, 1])),
    (8, None),
    (8, Some([6, 1, 1, 1])),
    (9, None),
    (9, Some([7, 1, 1, 1])),
    (10, None),
    (10, Some([7, 1, 2, 1])),
    (11, None),
    (11, Some([7, 2, 2, 2])),
    (12, None),
    (12, Some([7, 2, 3, 2])),
    (13, None),
    (13, Some([7, 2, 4, 2])),
    (14, None),
    (14, Some([7, 2, 5, 2])),
    (15, None),
    (15, Some([8, 2, 5, 2])),
];

// The totals of all commands.
const ALL: [u64; 4] = [8, 2, 5, 2];

// The calls that are still expected, and whether each call so far was the expected one.
#[derive(Clone, Copy)]
struct Calls {
    left: &'static [Call],
    right: bool,
}

impl Calls {
    fn take(&mut self, number: u32, seen: Option<Totals>) {
        match self.left.split_first() {
            Some((call, left)) => {
                self.right = self.right && is_call(*call, number, seen);
                self.left = left;
            }
            None => self.right = false,
        }
    }
}

fn is_call((wanted, counts): Call, number: u32, seen: Option<Totals>) -> bool {
    match counts {
        Some(counts) => wanted == number && seen == Some(totals(counts)),
        None => wanted == number && seen.is_none(),
    }
}

// Compares the calls that it gets with the table, one after another.
#[derive(Drop)]
struct Record<R: Wait + Copy> {
    rt: R,
    calls: Mutex<Calls>,
}

impl<R: Wait + Copy> Record<R> {
    fn new(rt: R) -> Record<R> {
        Record {
            rt,
            calls: Mutex::new(Calls {
                left: CALLS,
                right: true,
            }),
        }
    }

    // Whether exactly the calls of the table came.
    fn is_right(&self) -> bool {
        let calls = *self.calls.lock(&self.rt);
        calls.right && calls.left.is_empty()
    }
}

impl<R: Wait + Copy + Send + Sync> Gate for Record<R> {
    fn before(&self, number: u32) {
        self.calls.lock(&self.rt).take(number, None);
    }

    fn after(&self, number: u32, seen: Totals) {
        self.calls.lock(&self.rt).take(number, Some(seen));
    }
}

fn is_recorded<R: Threads + Wait + Copy + Send + Sync + 'static>(rt: R, alloc: Global) -> bool {
    match Arc::new(alloc, Record::new(rt)) {
        Ok(gate) => prints_by(rt, alloc, SCRIPT, 1, &gate, OUTPUT, ALL) && (*gate).is_right(),
        Err(_) => false,
    }
}

#[test]
fn one_worker_calls_its_gate_before_and_after_each_command(rt: HostRuntime) {
    for run in 0..100 {
        assert!(rt; is_recorded(rt, rt.alloc()), "run {run}");
    }
}
