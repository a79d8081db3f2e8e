// Tests of two shares that count, on one thread and on two.
ghost use Rattle.std.specs.Prelude.{◌≡◌, ◌<◌};
ghost use Rattle.work_ledger.specs.Stakes.{none_left, stake, tally, totals};

use photo_script::{Tally, Totals};
use std::alloc::Global;
use std::marker::Brand;
use std::sync::{Arc, Wait};
use std::thread;
use std::thread::{Promise, PromisedHandle, Threads};
use work_ledger::{Blanks, Books, Kind, Ledger, Share, open};

const TALLY: Tally = Tally {
    changes: 1,
    pulls: 1,
    reports: 0,
};

const ONE_PULL: Tally = Tally {
    changes: 0,
    pulls: 1,
    reports: 0,
};

const ONE_CHANGE: Tally = Tally {
    changes: 1,
    pulls: 0,
    reports: 0,
};

const PULL: Kind = Kind::Pull {
    taken: 3,
    handed: 2,
};

const CHANGED: Totals = Totals {
    changes: 1,
    pulls: 0,
    reports: 0,
    moved: 0,
};

const ALL: Totals = Totals {
    changes: 1,
    pulls: 1,
    reports: 0,
    moved: 5,
};

// Each share has what it was given. The first counts a change, which the second sees; the second counts a pull; the first takes
// the second in and closes.
fn is_counted<B: Books, R: Wait>(rt: &R, alloc: Global, blanks: Blanks) -> bool
    requires names { blanks ≡ B.names }
    requires tally { B.tally ≡ tally 1 1 0 }
{
    let Ok((ledger, mut first)) = open::<B>(alloc, blanks, TALLY) else {
        return false;
    };
    let mut second = first.split(ONE_PULL);
    let split = first.parts() == 999
        && second.parts() == 1
        && second.left() == ONE_PULL
        && first.left() == ONE_CHANGE;
    ledger.count(rt, &mut first, Kind::Change);
    let seen = ledger.glance(rt, &mut second);
    ledger.count(rt, &mut second, PULL);
    first.join(second);
    let all = ledger.close(rt, first);
    split && seen == CHANGED && all == ALL
}

#[test]
fn two_shares(rt: HostRuntime) {
    assert!(rt; is_counted::<Brand, HostRuntime>(&rt, rt.alloc(), Blanks::new()));
}

// At most that many glances are made until a change is in the book.
const MOST_GLANCES: u32 = 1_000_000;

// Glances at the book until a change is there, and then counts a pull.
fn pull<B: Books, R: Wait>(rt: &R, ledger: &Ledger<B>, share: Share<B>) -> (Totals, Share<B>)
    requires { share ≡ stake 1 (tally 0 1 0) (totals 0 0 0 0) }
    ensures { result.1 ≡ stake 1 none_left (totals 0 1 0 5) }
{
    let mut share = share;
    let mut seen = ledger.glance(rt, &mut share);
    for _ in 0..MOST_GLANCES {
        if seen.changes > 0 {
            break;
        }
        thread::yield_now();
        seen = ledger.glance(rt, &mut share);
    }
    ledger.count(rt, &mut share, PULL);
    (seen, share)
}

// A thread's promise that its share has counted the pull.
#[derive(Drop)]
struct HasPulled;

impl<B: Books> Promise<(Totals, Share<B>)> for HasPulled {
    ghost kept_by = { λ p r. r.1 ≡ stake 1 none_left (totals 0 1 0 5) };
}

fn start<B: Books + Send + Sync + 'static, R: Threads + Wait + Copy + Send + 'static>(
    rt: R,
    ledger: Arc<Ledger<B>>,
    share: Share<B>,
) -> Option<PromisedHandle<(Totals, Share<B>), HasPulled>>
    requires { share ≡ stake 1 (tally 0 1 0) (totals 0 0 0 0) }
{
    let worker = move || -> (Totals, Share<B>)
        requires { share ≡ stake 1 (tally 0 1 0) (totals 0 0 0 0) }
        ensures { result.1 ≡ stake 1 none_left (totals 0 1 0 5) }
    { pull(&rt, &*ledger, share) };
    match thread::spawn_with(&rt, HasPulled, worker) {
        Ok(handle) => Some(handle),
        Err(refused) => {
            drop(refused);
            None
        }
    }
}

// The same, where the second share is on a thread of its own while the first counts.
fn is_counted_on_two_threads<
    B: Books + Send + Sync + 'static,
    R: Threads + Wait + Copy + Send + 'static,
>(rt: R, alloc: Global, blanks: Blanks) -> bool
    requires names { blanks ≡ B.names }
    requires tally { B.tally ≡ tally 1 1 0 }
{
    let Ok((ledger, mut first)) = open::<B>(alloc, blanks, TALLY) else {
        return false;
    };
    let second = first.split(ONE_PULL);
    let Ok(theirs) = Arc::try_clone(&ledger) else {
        return false;
    };
    let Some(running) = start(rt, theirs, second) else {
        return false;
    };
    ledger.count(&rt, &mut first, Kind::Change);
    let (seen, second) = running.join(&rt);
    first.join(second);
    let all = ledger.close(&rt, first);
    seen == CHANGED && all == ALL
}

#[test]
fn two_threads(rt: HostRuntime) {
    assert!(rt; is_counted_on_two_threads::<Brand, HostRuntime>(rt, rt.alloc(), Blanks::new()));
}
