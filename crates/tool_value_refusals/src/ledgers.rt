//! Calls of `work_ledger`.
ghost use Rattle.std.specs.Prelude.{◌≡◌};
ghost use Rattle.work_ledger.specs.Stakes.{tally};

use crate::verdict::{Verdict, judged, mark};
use fleet_model::Tally;
use std::alloc::Global;
use std::marker::Brand;
use work_ledger::{Blanks, Books, open};

const TALLY: Tally = Tally {
    changes: 1,
    pulls: 1,
    reports: 0,
};

/// The verdict on a call of `work_ledger`.
pub fn verdict(alloc: Global, call: &str) -> Option<Verdict> {
    match call {
        "open" => Some(judged(opens::<Brand>(alloc, Blanks::new()), true)),
        _ => None,
    }
}

fn opens<B: Books>(alloc: Global, blanks: Blanks) -> Option<bool>
    requires names { blanks ≡ B.names }
    requires tally { B.tally ≡ tally 1 1 0 }
{
    mark(alloc);
    let opened = open::<B>(alloc, blanks, TALLY);
    mark(alloc);
    let (_ledger, share) = opened.ok()?;
    Some(share.parts() == 1000 && share.left() == TALLY && share.done().moved == 0)
}
