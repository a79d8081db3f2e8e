// Tests of how many versions a run's reports say were moved.
ghost use Rattle.std.specs.Prelude.{◌+◌, ◌≤◌};

use photo_pull::PullCounts;
use photo_script::{Report, Script, Totals, read_script, totals_of};
use std::alloc::Global;

const EACH_COMMAND: &str = "device a all
device b all
new a 1 5 2024-05-01 -
edit b 1 5 2024-05-01 -
remove b 1
pull a b
narrow a none
refilter a all
preview b a
list a
conflicts a
knowledge a
knows a 1 b:7";

// The totals of two pulls that moved that many versions, beside a preview with the same counts and other reports.
fn totals_of_two_pulls(script: &Script, taken: u64, handed: u64) -> Totals
    requires { taken + handed ≤ 200000 }
{
    let counts = PullCounts {
        taken,
        handed,
        notices: 5,
        dropped: 7,
        learned: true,
    };
    let reports = [
        Report::Preview(counts),
        Report::Pulled(counts),
        Report::Narrowed(9),
        Report::Refiltered { store: 11, out: 13 },
        Report::Pulled(counts),
        Report::Knows(true),
    ];
    totals_of(script, &reports)
}

// Whether the totals of a script with each command, and of these pulls, say that `moved` versions were moved.
fn is_moved(alloc: Global, taken: u64, handed: u64, moved: u64) -> bool
    requires { taken + handed ≤ 200000 }
{
    match read_script(alloc, EACH_COMMAND.as_bytes()) {
        Ok(script) => {
            let wanted = Totals {
                changes: 5,
                pulls: 1,
                reports: 5,
                moved,
            };
            totals_of_two_pulls(&script, taken, handed) == wanted
        }
        Err(_) => false,
    }
}

#[test]
fn totals_of_pulls(rt: HostRuntime) {
    assert!(rt; is_moved(rt.alloc(), 3, 40, 86));
    assert!(rt; is_moved(rt.alloc(), 100_000, 100_000, 400_000));
}
