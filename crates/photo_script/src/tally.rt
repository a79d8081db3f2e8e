// The totals of a run, from its reports.
ghost use Rattle.std.specs.Prelude.{◌≡◌, ◌≤◌, length, map};
ghost use Rattle.std.specs.List.{AllByRecursion, AllZip, sum_by};
ghost use Rattle.fleet_model.specs.Limits.{max_commands};
ghost use Rattle.photo_script.specs.Reports.{Tells, answer_of};
ghost use Rattle.fleet_model.specs.Runs.{Fleet, reports_of};
ghost use Rattle.fleet_model.specs.Tallies.{totals_of, max_moved};
ghost use Rattle.photo_script.specs.Tallies.{moved_by};

use crate::{Report, Script, Totals};

/// The totals of a script's run, from its reports.
///
/// Each report on a pull must count at most 200,000 versions moved, the most that one pull can move.
pub fn totals_of(script: &Script, reports: &[Report]) -> Totals
    requires few { length reports.now ≤ max_commands }
    requires each { AllByRecursion (λ a. moved_by a ≤ max_moved) (map answer_of reports.now) }
    ensures { (fleet : Fleet) → AllZip Tells (map answer_of reports.now) (reports_of fleet) → result ≡ totals_of script.now fleet }
{
    let tally = script.tally();
    Totals {
        changes: tally.changes,
        pulls: tally.pulls,
        reports: tally.reports,
        moved: moved_by(reports),
    }
}

// The number of versions that the pulls among these reports moved.
fn moved_by(reports: &[Report]) -> u64
    requires few { length reports.now ≤ max_commands }
    requires each { AllByRecursion (λ a. moved_by a ≤ max_moved) (map answer_of reports.now) }
    ensures { result ≡ sum_by moved_by (map answer_of reports.now) }
{
    let mut moved = 0;
    for report in reports {
        if let Report::Pulled(counts) = report {
            moved += counts.taken + counts.handed;
        }
    }
    moved
}
