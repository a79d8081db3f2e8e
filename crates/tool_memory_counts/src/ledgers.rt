//! Calls on a ledger.
ghost use Rattle.std.specs.Prelude.{◌≡◌};
ghost use Rattle.work_ledger.specs.Stakes.{tally};

use photo_script::{Tally, Totals};
use std::alloc::Global;
use std::marker::Brand;
use std::sync::Wait;
use work_ledger::{Blanks, Books, Kind, Ledger, Share, open};

const TALLY: Tally = Tally {
    changes: 100_000,
    pulls: 100_000,
    reports: 0,
};

const ONE_PULL: Tally = Tally {
    changes: 0,
    pulls: 1,
    reports: 0,
};

const PULL: Kind = Kind::Pull {
    taken: 3,
    handed: 2,
};

/// `Share::split`, `join` and its readers, and `Ledger::count` and `glance`; and `close`, once if any calls are asked for.
pub fn answer<R: Wait>(rt: &R, alloc: Global, times: u32) -> Option<bool> {
    answer_of::<Brand, R>(rt, alloc, Blanks::new(), times)
}

// Counts a change and a pull in each round, and closes.
fn answer_of<B: Books, R: Wait>(rt: &R, alloc: Global, blanks: Blanks, times: u32) -> Option<bool>
    requires names { blanks ≡ B.names }
    requires tally { B.tally ≡ tally 100_000 100_000 0 }
{
    let (ledger, mut share) = open::<B>(alloc, blanks, TALLY).ok()?;
    let is_right = counts_each(rt, &*ledger, &mut share, times);
    Some(closes(rt, &*ledger, share, times) && is_right)
}

fn counts_each<B: Books, R: Wait>(
    rt: &R,
    ledger: &Ledger<B>,
    share: &mut Share<B>,
    times: u32,
) -> bool {
    for _ in 0..times {
        if !counts(rt, ledger, share) {
            return false;
        }
    }
    true
}

fn closes<B: Books, R: Wait>(rt: &R, ledger: &Ledger<B>, share: Share<B>, times: u32) -> bool {
    let counted = share.done();
    if times == 0 || share.parts() != 1_000 {
        return times == 0;
    }
    ledger.close(rt, share) == counted && is_told(counted, times)
}

// Whether a share that is split off can count a pull, the rest a change, and both be joined again.
fn counts<B: Books, R: Wait>(rt: &R, ledger: &Ledger<B>, share: &mut Share<B>) -> bool {
    let left = share.left();
    if share.parts() < 2 || left.changes == 0 || left.pulls == 0 {
        return false;
    }
    let mut other = share.split(ONE_PULL);
    ledger.count(rt, &mut other, PULL);
    ledger.count(rt, share, Kind::Change);
    share.join(other);
    ledger.glance(rt, share) == share.done()
}

fn is_told(counted: Totals, times: u32) -> bool {
    let times = u64::from(times);
    counted
        == Totals {
            changes: times,
            pulls: times,
            reports: 0,
            moved: 5 * times,
        }
}
