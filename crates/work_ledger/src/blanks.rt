// The blank ledgers from which a work ledger is opened.
ghost use Rattle.std.specs.Prelude.{◌≡◌, ◌<◌};
ghost use Rattle.work_ledger.specs.Ledgers.{LedgerNames, all_parts};
ghost use Rattle.work_ledger.specs.Stakes.{IsCountable, nothing_done, stake};

use crate::names::Books;
use crate::page::Page;
use crate::share::{NOTHING, Share};
use fleet_model::Tally;
use std::marker::Model;
use std::sync::ledger;
use std::sync::ledger::{Blank, Book};

// The number of parts of a ledger.
const PARTS: u64 = 1000;

/// New standard ledgers for one work ledger that isn't opened yet. Contracts see their names.
pub struct Blanks {
    changes_done: Blank,
    changes_left: Blank,
    pulls_done: Blank,
    pulls_left: Blank,
    reports_done: Blank,
    reports_left: Blank,
    moved: Blank,
}

impl Model for Blanks {
    ghost Value = { LedgerNames };

    ghost view = { λ b. record {
      changes_done = b.changes_done.name;
      changes_left = b.changes_left.name;
      pulls_done = b.pulls_done.name;
      pulls_left = b.pulls_left.name;
      reports_done = b.reports_done.name;
      reports_left = b.reports_left.name;
      moved = b.moved.name;
    } };

    ghost invariant = { λ b. record {
      changes : (b.changes_done.parts ≡ all_parts) × (b.changes_left.parts ≡ all_parts);
      pulls : (b.pulls_done.parts ≡ all_parts) × (b.pulls_left.parts ≡ all_parts);
      reports : (b.reports_done.parts ≡ all_parts) × (b.reports_left.parts ≡ all_parts);
      moved : b.moved.parts ≡ all_parts;
    } };
}

impl Blanks {
    /// Makes new blanks.
    pub fn new() -> Blanks {
        Blanks {
            changes_done: Blank::new(PARTS),
            changes_left: Blank::new(PARTS),
            pulls_done: Blank::new(PARTS),
            pulls_left: Blank::new(PARTS),
            reports_done: Blank::new(PARTS),
            reports_left: Blank::new(PARTS),
            moved: Blank::new(PARTS),
        }
    }

    // Opens a book at zero, and the share that has all parts.
    pub(crate) fn open<B: Books>(self, tally: Tally) -> (Page<B>, Share<B>)
        requires names { self ≡ B.names }
        requires tally { tally ≡ B.tally }
        requires countable { IsCountable tally }
        ensures book { result.0.totals ≡ nothing_done }
        ensures share { result.1 ≡ stake all_parts tally nothing_done }
    {
        let Blanks {
            changes_done,
            changes_left,
            pulls_done,
            pulls_left,
            reports_done,
            reports_left,
            moved,
        } = self;
        let (changes_done_book, changes_done) = opened_at(changes_done, 0);
        let (changes_left_book, changes_left) = opened_at(changes_left, tally.changes);
        let (pulls_done_book, pulls_done) = opened_at(pulls_done, 0);
        let (pulls_left_book, pulls_left) = opened_at(pulls_left, tally.pulls);
        let (reports_done_book, reports_done) = opened_at(reports_done, 0);
        let (reports_left_book, reports_left) = opened_at(reports_left, tally.reports);
        let (moved_book, moved) = opened_at(moved, 0);
        let page = Page {
            totals: NOTHING,
            changes_done: changes_done_book,
            changes_left: changes_left_book,
            pulls_done: pulls_done_book,
            pulls_left: pulls_left_book,
            reports_done: reports_done_book,
            reports_left: reports_left_book,
            moved: moved_book,
        };
        let share = Share {
            parts: PARTS,
            left: tally,
            done: NOTHING,
            changes_done,
            changes_left,
            pulls_done,
            pulls_left,
            reports_done,
            reports_left,
            moved,
        };
        (page, share)
    }
}

// Opens a standard ledger at an amount, with one share that has all of it.
fn opened_at<L: ledger::Ledger>(blank: Blank, amount: u64) -> (Book<L>, ledger::Share<L>)
    requires name { blank.name ≡ L.name }
    requires parts { (blank.parts ≡ L.parts) × (0 < L.parts) }
    ensures book { result.0.total ≡ amount }
    ensures share { (result.1.parts ≡ L.parts) × (result.1.amount ≡ amount) }
{
    let (mut book, mut share) = blank.open();
    book.add(&mut share, amount);
    (book, share)
}
