// The names of ledgers.
ghost use Rattle.fleet_model.specs.declared.tally.Tally.{Tally};
ghost use Rattle.work_ledger.specs.Ledgers.{LedgerNames, all_parts};
ghost use Rattle.work_ledger.specs.Stakes.{none_left};

use std::marker::{Brand, PhantomData};
use std::sync::ledger::Ledger;

/// Names the standard ledgers of which a work ledger is built.
pub trait Names {
    ghost names: { LedgerNames };
}

impl Names for Brand {
    ghost names = { record { changes_done = 0; changes_left = 0; pulls_done = 0; pulls_left = 0; reports_done = 0; reports_left = 0; moved = 0 } };
}

/// Names a work ledger and the tally with which it was opened.
///
/// Shares with the same type parameter belong to the same ledger.
pub trait Books: Names {
    ghost tally: { Tally };
}

impl Books for Brand {
    ghost tally = { none_left };
}

pub struct ChangesDone<B: Names>(PhantomData<B>);

impl<B: Names> Ledger for ChangesDone<B> {
    ghost name = { B.names.changes_done };

    ghost parts = { all_parts };
}

pub struct ChangesLeft<B: Names>(PhantomData<B>);

impl<B: Names> Ledger for ChangesLeft<B> {
    ghost name = { B.names.changes_left };

    ghost parts = { all_parts };
}

pub struct PullsDone<B: Names>(PhantomData<B>);

impl<B: Names> Ledger for PullsDone<B> {
    ghost name = { B.names.pulls_done };

    ghost parts = { all_parts };
}

pub struct PullsLeft<B: Names>(PhantomData<B>);

impl<B: Names> Ledger for PullsLeft<B> {
    ghost name = { B.names.pulls_left };

    ghost parts = { all_parts };
}

pub struct ReportsDone<B: Names>(PhantomData<B>);

impl<B: Names> Ledger for ReportsDone<B> {
    ghost name = { B.names.reports_done };

    ghost parts = { all_parts };
}

pub struct ReportsLeft<B: Names>(PhantomData<B>);

impl<B: Names> Ledger for ReportsLeft<B> {
    ghost name = { B.names.reports_left };

    ghost parts = { all_parts };
}

pub struct Moved<B: Names>(PhantomData<B>);

impl<B: Names> Ledger for Moved<B> {
    ghost name = { B.names.moved };

    ghost parts = { all_parts };
}
