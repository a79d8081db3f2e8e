// The data that the lock protects.
ghost use Rattle.std.specs.Prelude.{◌≡◌, ◌+◌, ◌*◌, ◌<◌, ◌≤◌};
ghost use Rattle.fleet_model.specs.Tallies.{max_moved};
ghost use Rattle.work_ledger.specs.Ledgers.{all_parts};
ghost use Rattle.work_ledger.specs.Stakes.{IsCountable, Within, given, kinds_of, tally};

use crate::names::{
    Books, ChangesDone, ChangesLeft, Moved, PullsDone, PullsLeft, ReportsDone, ReportsLeft,
};
use fleet_model::Totals;
use std::sync::ledger::{Book, Share};

// The book, with the books of the standard ledgers, which fix its contents.
#[derive(Drop)]
pub struct Page<B: Books> {
    pub totals: Totals,
    pub changes_done: Book<ChangesDone<B>>,
    pub changes_left: Book<ChangesLeft<B>>,
    pub pulls_done: Book<PullsDone<B>>,
    pub pulls_left: Book<PullsLeft<B>>,
    pub reports_done: Book<ReportsDone<B>>,
    pub reports_left: Book<ReportsLeft<B>>,
    pub moved: Book<Moved<B>>,
    // The book is the sum of what all shares have done.
    ghost changes_are: { totals.changes ≡ changes_done.total },
    ghost pulls_are: { totals.pulls ≡ pulls_done.total },
    ghost reports_are: { totals.reports ≡ reports_done.total },
    ghost moved_is: { totals.moved ≡ moved.total },
    // For each kind, what all shares have left and done is the tally.
    ghost changes_add_up: { changes_left.total + changes_done.total ≡ B.tally.changes },
    ghost pulls_add_up: { pulls_left.total + pulls_done.total ≡ B.tally.pulls },
    ghost reports_add_up: { reports_left.total + reports_done.total ≡ B.tally.reports },
    ghost countable: { IsCountable B.tally },
    ghost moved_fits: { moved.total ≤ pulls_done.total * max_moved },
}

impl<B: Books> Page<B> {
    // Counts a change.
    pub fn change(&mut self, done: &mut Share<ChangesDone<B>>, left: &mut Share<ChangesLeft<B>>)
        requires { (0 < done.old.parts) × (0 < left.old.amount) }
        ensures done { done.new.amount ≡ done.old.amount + 1 }
        ensures left { left.new.amount + 1 ≡ left.old.amount }
        ensures parts { (done.new.parts ≡ done.old.parts) × (left.new.parts ≡ left.old.parts) }
    {
        let Page {
            totals,
            changes_done,
            changes_left,
            ..
        } = self;
        changes_done.add(done, 1);
        changes_left.sub(left, 1);
        totals.changes += 1;
    }

    // Counts a report.
    pub fn report(&mut self, done: &mut Share<ReportsDone<B>>, left: &mut Share<ReportsLeft<B>>)
        requires { (0 < done.old.parts) × (0 < left.old.amount) }
        ensures done { done.new.amount ≡ done.old.amount + 1 }
        ensures left { left.new.amount + 1 ≡ left.old.amount }
        ensures parts { (done.new.parts ≡ done.old.parts) × (left.new.parts ≡ left.old.parts) }
    {
        let Page {
            totals,
            reports_done,
            reports_left,
            ..
        } = self;
        reports_done.add(done, 1);
        reports_left.sub(left, 1);
        totals.reports += 1;
    }

    // Counts a pull that moved this many versions.
    pub fn pull(
        &mut self,
        done: &mut Share<PullsDone<B>>,
        left: &mut Share<PullsLeft<B>>,
        moves: &mut Share<Moved<B>>,
        count: u64,
    )
        requires parts { (0 < done.old.parts) × (0 < moves.old.parts) }
        requires left { 0 < left.old.amount }
        requires few { count ≤ max_moved }
        ensures done { done.new.amount ≡ done.old.amount + 1 }
        ensures left { left.new.amount + 1 ≡ left.old.amount }
        ensures moves { moves.new.amount ≡ moves.old.amount + count }
        ensures parts { (done.new.parts ≡ done.old.parts) × (left.new.parts ≡ left.old.parts) × (moves.new.parts ≡ moves.old.parts) }
    {
        let Page {
            totals,
            pulls_done,
            pulls_left,
            moved,
            ..
        } = self;
        pulls_done.add(done, 1);
        pulls_left.sub(left, 1);
        moved.add(moves, count);
        totals.pulls += 1;
        totals.moved += count;
    }

    // Reads the book: at least what these shares have done, and exactly that if they have all parts.
    pub fn read(
        &mut self,
        changes: &mut Share<ChangesDone<B>>,
        pulls: &mut Share<PullsDone<B>>,
        reports: &mut Share<ReportsDone<B>>,
        moves: &mut Share<Moved<B>>,
    ) -> Totals
        ensures book { (result ≡ self.old.totals) × (self.new.totals ≡ self.old.totals) }
        ensures changes { (changes.new.amount ≡ changes.old.amount) × (changes.new.parts ≡ changes.old.parts) }
        ensures pulls { (pulls.new.amount ≡ pulls.old.amount) × (pulls.new.parts ≡ pulls.old.parts) }
        ensures reports { (reports.new.amount ≡ reports.old.amount) × (reports.new.parts ≡ reports.old.parts) }
        ensures moves { (moves.new.amount ≡ moves.old.amount) × (moves.new.parts ≡ moves.old.parts) }
        ensures least_kinds { (changes.old.amount ≤ result.changes) × (pulls.old.amount ≤ result.pulls)
            × (reports.old.amount ≤ result.reports) }
        ensures least_moved { moves.old.amount ≤ result.moved }
        ensures most { Within (kinds_of result) B.tally }
        ensures all_changes { changes.old.parts ≡ all_parts → result.changes ≡ changes.old.amount }
        ensures all_pulls { pulls.old.parts ≡ all_parts → result.pulls ≡ pulls.old.amount }
        ensures all_reports { reports.old.parts ≡ all_parts → result.reports ≡ reports.old.amount }
        ensures all_moved { moves.old.parts ≡ all_parts → result.moved ≡ moves.old.amount }
    {
        self.changes_done.audit(changes);
        self.pulls_done.audit(pulls);
        self.reports_done.audit(reports);
        self.moved.audit(moves);
        self.totals
    }

    // If these shares have all parts, they have all that is left.
    pub fn read_left(
        &mut self,
        changes: &mut Share<ChangesLeft<B>>,
        pulls: &mut Share<PullsLeft<B>>,
        reports: &mut Share<ReportsLeft<B>>,
    )
        requires { (changes.old.parts ≡ all_parts) × (pulls.old.parts ≡ all_parts) × (reports.old.parts ≡ all_parts) }
        ensures book { self.new.totals ≡ self.old.totals }
        ensures all { given (tally changes.old.amount pulls.old.amount reports.old.amount) self.old.totals ≡ B.tally }
    {
        self.changes_left.audit(changes);
        self.pulls_left.audit(pulls);
        self.reports_left.audit(reports);
    }
}
