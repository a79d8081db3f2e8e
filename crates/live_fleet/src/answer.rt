// Converts reports into the values that a fleet's methods give.
ghost use Rattle.std.specs.Prelude.{◌≡◌};
ghost use Rattle.photo_script.specs.Reports.{answer_of};
ghost use Rattle.live_fleet.specs.Answers.{made_in, narrowed_in, pulled_in, refiltered_in};

use photo_device::Place;
use photo_pull::PullCounts;
use photo_script::Report;
use photo_version::Version;

/// The version that a report says was made, and its place.
pub(crate) fn made_in(report: Report) -> Option<(Version, Place)>
    ensures { result ≡ made_in (answer_of report) }
{
    match report {
        Report::Made { version, place } => Some((version, place)),
        _ => None,
    }
}

/// How many versions left the store, by the report on a narrowing.
pub(crate) fn narrowed_in(report: Report) -> Option<u64>
    ensures { result ≡ narrowed_in (answer_of report) }
{
    match report {
        Report::Narrowed(count) => Some(count),
        _ => None,
    }
}

/// How many versions the store and the out have, by the report on a refiltering.
pub(crate) fn refiltered_in(report: Report) -> Option<(u64, u64)>
    ensures { result ≡ refiltered_in (answer_of report) }
{
    match report {
        Report::Refiltered { store, out } => Some((store, out)),
        _ => None,
    }
}

/// What a pull moved, by its report.
pub(crate) fn pulled_in(report: Report) -> Option<PullCounts>
    ensures { result ≡ pulled_in (answer_of report) }
{
    match report {
        Report::Pulled(counts) => Some(counts),
        _ => None,
    }
}
