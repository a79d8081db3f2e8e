// A share of the work.
ghost use Rattle.std.specs.Prelude.{◌≡◌, ◌+◌, ◌-◌, ◌*◌, ◌<◌, ◌≤◌};
ghost use Rattle.fleet_model.specs.Tallies.{max_moved};
ghost use Rattle.work_ledger.specs.Counting.{CanCount, counted};
ghost use Rattle.work_ledger.specs.Ledgers.{all_parts};
ghost use Rattle.work_ledger.specs.Stakes.{AtMost, IsCountable, Stake, Within, both, given, kinds_of, less, nothing_done, plus, stake};

use crate::kind::Kind;
use crate::names::{
    Books, ChangesDone, ChangesLeft, Moved, PullsDone, PullsLeft, ReportsDone, ReportsLeft,
};
use crate::page::Page;
use fleet_model::{Tally, Totals};
use std::marker::Model;
use std::sync::ledger;

/// Some of the 1,000 parts of a ledger.
///
/// Contracts see its parts, the commands that it may still count, and what it has counted. It moves to a thread by value and
/// comes back. A share that is dropped takes its parts with it, and then the ledger can't be closed.
#[derive(Drop)]
pub struct Share<B: Books> {
    pub(crate) parts: u64,
    pub(crate) left: Tally,
    pub(crate) done: Totals,
    pub(crate) changes_done: ledger::Share<ChangesDone<B>>,
    pub(crate) changes_left: ledger::Share<ChangesLeft<B>>,
    pub(crate) pulls_done: ledger::Share<PullsDone<B>>,
    pub(crate) pulls_left: ledger::Share<PullsLeft<B>>,
    pub(crate) reports_done: ledger::Share<ReportsDone<B>>,
    pub(crate) reports_left: ledger::Share<ReportsLeft<B>>,
    pub(crate) moved: ledger::Share<Moved<B>>,
}

impl<B: Books> Model for Share<B> {
    ghost Value = { Stake };

    ghost view = { λ s. record { parts = s.parts; left = s.left; done = s.done } };

    ghost invariant = { λ s. record {
      parts : (0 < s.parts) × (s.parts ≤ all_parts);
      countable : IsCountable (given s.left s.done);
      moved_few : s.done.moved ≤ s.done.pulls * max_moved;
      changes_in_parts : (s.changes_done.parts ≡ s.parts) × (s.changes_left.parts ≡ s.parts);
      pulls_in_parts : (s.pulls_done.parts ≡ s.parts) × (s.pulls_left.parts ≡ s.parts);
      reports_in_parts : (s.reports_done.parts ≡ s.parts) × (s.reports_left.parts ≡ s.parts);
      moved_in_parts : s.moved.parts ≡ s.parts;
      changes : (s.changes_done.amount ≡ s.done.changes) × (s.changes_left.amount ≡ s.left.changes);
      pulls : (s.pulls_done.amount ≡ s.done.pulls) × (s.pulls_left.amount ≡ s.left.pulls);
      reports : (s.reports_done.amount ≡ s.done.reports) × (s.reports_left.amount ≡ s.left.reports);
      moved : s.moved.amount ≡ s.done.moved;
    } };
}

impl<B: Books> Share<B> {
    /// The commands that it may still count. With those counted they are at most 100,000 of each kind.
    pub fn left(&self) -> Tally
        ensures value { result ≡ self.now.left }
        ensures countable { IsCountable (given self.now.left self.now.done) }
    {
        self.left
    }

    /// What it has counted. Each of its pulls moved at most 200,000 versions.
    pub fn done(&self) -> Totals
        ensures value { result ≡ self.now.done }
        ensures moved { result.moved ≤ result.pulls * max_moved }
    {
        self.done
    }

    /// Its number of parts, 1 to 1,000.
    pub fn parts(&self) -> u64
        ensures value { result ≡ self.now.parts }
        ensures range { (0 < result) × (result ≤ all_parts) }
    {
        self.parts
    }

    /// Moves one part, and these commands of what is left, to a new share that has counted nothing. At least one part stays.
    pub fn split(&mut self, of: Tally) -> Share<B>
        requires parts { 2 ≤ self.old.parts }
        requires left { Within of self.old.left }
        ensures new { result ≡ stake 1 of nothing_done }
        ensures rest { self.new ≡ stake (self.old.parts - 1) (less self.old.left of) self.old.done }
    {
        self.parts -= 1;
        self.left = Tally {
            changes: self.left.changes - of.changes,
            pulls: self.left.pulls - of.pulls,
            reports: self.left.reports - of.reports,
        };
        Share {
            parts: 1,
            left: of,
            done: NOTHING,
            changes_done: self.changes_done.split_off(1, 0),
            changes_left: self.changes_left.split_off(1, of.changes),
            pulls_done: self.pulls_done.split_off(1, 0),
            pulls_left: self.pulls_left.split_off(1, of.pulls),
            reports_done: self.reports_done.split_off(1, 0),
            reports_left: self.reports_left.split_off(1, of.reports),
            moved: self.moved.split_off(1, 0),
        }
    }

    /// Takes in another share with its parts, the commands that it has left and what it has counted.
    ///
    /// Both shares together were given at most 100,000 commands of each kind.
    pub fn join(&mut self, other: Share<B>)
        requires { IsCountable (plus (given self.old.left self.old.done) (given other.left other.done)) }
        ensures { self.new ≡ stake (self.old.parts + other.parts) (plus self.old.left other.left) (both self.old.done other.done) }
    {
        let Share {
            parts,
            left,
            done,
            changes_done,
            changes_left,
            pulls_done,
            pulls_left,
            reports_done,
            reports_left,
            moved,
        } = other;
        self.changes_done.merge(changes_done);
        self.changes_left.merge(changes_left);
        self.pulls_done.merge(pulls_done);
        self.pulls_left.merge(pulls_left);
        self.reports_done.merge(reports_done);
        self.reports_left.merge(reports_left);
        self.moved.merge(moved);
        self.parts += parts;
        self.left = Tally {
            changes: self.left.changes + left.changes,
            pulls: self.left.pulls + left.pulls,
            reports: self.left.reports + left.reports,
        };
        self.done = Totals {
            changes: self.done.changes + done.changes,
            pulls: self.done.pulls + done.pulls,
            reports: self.done.reports + done.reports,
            moved: self.done.moved + done.moved,
        };
    }

    // Counts a command in the share and in the book.
    pub(crate) fn count(&mut self, page: &mut Page<B>, kind: Kind)
        requires { CanCount kind self.old.left }
        ensures { self.new ≡ counted kind self.old }
    {
        match kind {
            Kind::Change => {
                page.change(&mut self.changes_done, &mut self.changes_left);
                self.left.changes -= 1;
                self.done.changes += 1;
            }
            Kind::Pull { taken, handed } => {
                let count = taken + handed;
                page.pull(
                    &mut self.pulls_done,
                    &mut self.pulls_left,
                    &mut self.moved,
                    count,
                );
                self.left.pulls -= 1;
                self.done.pulls += 1;
                self.done.moved += count;
            }
            Kind::Report => {
                page.report(&mut self.reports_done, &mut self.reports_left);
                self.left.reports -= 1;
                self.done.reports += 1;
            }
        }
    }

    // Reads the book.
    pub(crate) fn read(&mut self, page: &mut Page<B>) -> Totals
        ensures book { (result ≡ page.old.totals) × (page.new.totals ≡ page.old.totals) }
        ensures same { self.new ≡ self.old }
        ensures least { AtMost self.old.done result }
        ensures most { Within (kinds_of result) B.tally }
        ensures all { self.old.parts ≡ all_parts → result ≡ self.old.done }
    {
        page.read(
            &mut self.changes_done,
            &mut self.pulls_done,
            &mut self.reports_done,
            &mut self.moved,
        )
    }

    // Reads the book, which has exactly what this share has done, since the share has all parts.
    pub(crate) fn close(mut self, page: &mut Page<B>) -> Totals
        requires { self.parts ≡ all_parts }
        ensures book { (result ≡ page.old.totals) × (page.new.totals ≡ page.old.totals) }
        ensures done { result ≡ self.done }
        ensures all { given self.left self.done ≡ B.tally }
    {
        let totals = self.read(page);
        page.read_left(
            &mut self.changes_left,
            &mut self.pulls_left,
            &mut self.reports_left,
        );
        totals
    }
}

// The totals of a new share.
pub(crate) const NOTHING: Totals = Totals {
    changes: 0,
    pulls: 0,
    reports: 0,
    moved: 0,
};
