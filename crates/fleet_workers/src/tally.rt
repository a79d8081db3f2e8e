// The tally of jobs.
ghost use Rattle.std.specs.Prelude.{◌≡◌, ◌≤◌};
ghost use Rattle.fleet_model.specs.Tallies.{kind_of};
ghost use Rattle.fleet_workers.specs.Counting.{one_of, tally_at};
ghost use Rattle.fleet_workers.specs.Jobs.{AreReadyJobs, numbers_of};

use crate::work::Job;
use photo_script::{Command, CommandKind, Script, Tally, kind_of};

pub(crate) fn tally(script: &Script, jobs: &Vec<Job>) -> Tally
    requires { AreReadyJobs script.now jobs.now.items }
    ensures { result ≡ tally_at script.now (numbers_of jobs.now.items) }
{
    let mut sum = Tally {
        changes: 0,
        pulls: 0,
        reports: 0,
    };
    for job in jobs {
        let one = one_of(script.command(job.number));
        sum.changes += one.changes;
        sum.pulls += one.pulls;
        sum.reports += one.reports;
    }
    sum
}

// The tally of one command.
fn one_of(command: &Command) -> Tally
    ensures kind { result ≡ one_of (kind_of command.now) }
    ensures one { (result.changes ≤ 1) × (result.pulls ≤ 1) × (result.reports ≤ 1) }
{
    let (changes, pulls, reports) = match kind_of(command) {
        CommandKind::Change => (1, 0, 0),
        CommandKind::Pull => (0, 1, 0),
        CommandKind::Question => (0, 0, 1),
    };
    Tally {
        changes,
        pulls,
        reports,
    }
}
