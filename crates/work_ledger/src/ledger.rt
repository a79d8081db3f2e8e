// The ledger, which threads share.
ghost use Rattle.std.specs.Prelude.{◌≡◌, IfOk};
ghost use Rattle.work_ledger.specs.Counting.{CanCount, counted};
ghost use Rattle.work_ledger.specs.Ledgers.{all_parts};
ghost use Rattle.work_ledger.specs.Stakes.{AtMost, IsCountable, Within, given, kinds_of, nothing_done, stake};

use crate::blanks::Blanks;
use crate::kind::Kind;
use crate::names::Books;
use crate::page::Page;
use crate::share::Share;
use fleet_model::{Tally, Totals};
use std::alloc::{AllocError, Global};
use std::sync::{Arc, Mutex, Wait};

/// The book of all shares, behind a lock.
///
/// Whenever the lock is free, two sums hold: the book is the sum of what all shares have done, and for each kind, what all
/// shares have left and done is the tally that [`open`] was given. Only [`count`](Ledger::count), [`glance`](Ledger::glance)
/// and [`close`](Ledger::close) take the lock, and each releases it before it returns.
#[derive(Drop)]
pub struct Ledger<B: Books> {
    page: Mutex<Page<B>>,
}

/// Opens a ledger with an empty book and one share, which has all 1,000 parts and may count the whole tally.
///
/// Each number of the tally is at most 100,000. `B` names the ledgers of the blanks and the tally; the crate's own page says
/// how a caller picks it. If memory is refused, the blanks are lost and nothing else has changed.
pub fn open<B: Books>(
    alloc: Global,
    blanks: Blanks,
    tally: Tally,
) -> Result<(Arc<Ledger<B>>, Share<B>), AllocError>
    requires names { blanks ≡ B.names }
    requires tally { tally ≡ B.tally }
    requires countable { IsCountable tally }
    ensures { IfOk result (λ r. r.1 ≡ stake all_parts tally nothing_done) }
{
    let (page, share) = blanks.open(tally);
    let ledger = Arc::new(
        alloc,
        Ledger {
            page: Mutex::new(page),
        },
    )?;
    Ok((ledger, share))
}

impl<B: Books> Ledger<B> {
    /// Counts a command once, in the share and in the book.
    ///
    /// The share must have a command of this kind left. A pull also adds the versions that it took and was handed, each at most
    /// 100,000.
    pub fn count(&self, rt: &impl Wait, share: &mut Share<B>, kind: Kind)
        requires { CanCount kind share.old.left }
        ensures { share.new ≡ counted kind share.old }
    {
        share.count(&mut *self.page.lock(rt), kind)
    }

    /// The totals of all shares at some moment during the call: at least what this share has done, and of each kind at most the
    /// tally that the ledger was opened with. The share doesn't change.
    pub fn glance(&self, rt: &impl Wait, share: &mut Share<B>) -> Totals
        ensures same { share.new ≡ share.old }
        ensures least { AtMost share.old.done result }
        ensures most { Within (kinds_of result) B.tally }
    {
        share.read(&mut *self.page.lock(rt))
    }

    /// Closes the ledger and returns the totals of all shares. The share must have all 1,000 parts, so what it has left and
    /// done of each kind is the tally that the ledger was opened with.
    pub fn close(&self, rt: &impl Wait, share: Share<B>) -> Totals
        requires { share.parts ≡ all_parts }
        ensures done { result ≡ share.done }
        ensures all { given share.left share.done ≡ B.tally }
    {
        share.close(&mut *self.page.lock(rt))
    }
}
