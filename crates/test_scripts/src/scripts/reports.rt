// Tests of reports' texts.
ghost use Rattle.std.specs.Prelude.{◌≡◌, ◌<◌, length, IfSome};
ghost use Rattle.std.specs.List.{AllByRecursion};
ghost use Rattle.photo_version.specs.Author.{author};
ghost use Rattle.fleet_model.specs.Contents.{Contents};
ghost use Rattle.photo_script.specs.Reports.{IsAbout, IsOfScript, answer_of};

use super::known::is_knowledge_told;
use super::listed::{is_out_listed, is_store_listed};
use photo_device::{Conflict, ConflictList, Place, VersionList};
use photo_pull::PullCounts;
use photo_record::PicNo;
use photo_script::{Report, Script, read_script, report_text};
use photo_version::{Author, Version};
use std::alloc::Global;

/// Version `n` of the device at a place, in its first epoch.
pub fn version(device: u16, n: u32) -> Option<Version>
    ensures { IfSome result (λ v. v.author ≡ author device) }
{
    Version::new(Author::new(device), n)
}

/// Whether the report on the command of that number has that text.
pub fn is_reported(
    alloc: Global,
    script: &Script,
    number: u32,
    report: &Report,
    wanted: &str,
) -> bool
    requires { IsAbout script.now (answer_of report.now) }
{
    match report_text(alloc, script, number, report) {
        Ok(text) => text.as_str() == wanted,
        Err(_) => false,
    }
}

// What a report says.
enum Told {
    // A version, by its device, its epoch and its number, and its place.
    Made(u16, u32, u32, Place),
    NotHeld,
    NotNarrower,
    Narrowed(u64),
    Refiltered(u64, u64),
    Pulled(PullCounts),
    Preview(PullCounts),
    Knows(bool),
    // The listing of a store.
    Store,
    // The listing of an out.
    Out,
    // A conflict of two versions.
    Conflict,
    // What is known of the devices' versions: of every picture, and of single ones.
    Knowledge(bool, &'static [(u32, u32)]),
}

// The report of what has the same words in each script.
fn report_of(told: &Told) -> Report
    ensures { (script : Contents) → IsAbout script (answer_of result) }
{
    match told {
        Told::NotNarrower => Report::NotNarrower,
        Told::Narrowed(moved) => Report::Narrowed(*moved),
        Told::Refiltered(store, out) => Report::Refiltered {
            store: *store,
            out: *out,
        },
        Told::Pulled(counts) => Report::Pulled(*counts),
        Told::Preview(counts) => Report::Preview(*counts),
        Told::Knows(known) => Report::Knows(*known),
        _ => Report::NotHeld,
    }
}

// Whether what has the same words in each script is reported with that text.
fn is_told_anywhere(
    alloc: Global,
    script: &Script,
    number: u32,
    told: &Told,
    wanted: &str,
) -> bool {
    is_reported(alloc, script, number, &report_of(told), wanted)
}

// Whether the report on the command of that number has that text.
fn is_told(alloc: Global, script: &Script, number: u32, told: &Told, wanted: &str) -> bool {
    match told {
        Told::Made(device, epoch, n, place) => {
            let author = Author::at(*device, *epoch);
            is_made_told(alloc, script, number, (author, *n, *place), wanted)
        }
        Told::Store => is_store_listed(alloc, script, number, wanted),
        Told::Out => is_out_listed(alloc, script, number, wanted),
        Told::Conflict => are_two_versions_told(alloc, script, number, wanted),
        Told::Knowledge(star, learned) => {
            is_knowledge_told(alloc, script, number, *star, learned, wanted)
        }
        _ => is_told_anywhere(alloc, script, number, told, wanted),
    }
}

// Whether the report that an author made its version of that number has that text, if the script has the author's device.
fn is_made_told(
    alloc: Global,
    script: &Script,
    number: u32,
    (author, n, place): (Author, u32, Place),
    wanted: &str,
) -> bool {
    if usize::from(author.value()) >= script.devices() {
        return false;
    }
    match Version::new(author, n) {
        Some(version) => {
            is_reported(
                alloc,
                script,
                number,
                &Report::Made { version, place },
                wanted,
            )
        }
        None => false,
    }
}

// Whether the report on a conflict of two versions has that text.
fn is_conflict_told(
    alloc: Global,
    script: &Script,
    number: u32,
    versions: Vec<Version>,
    wanted: &str,
) -> bool
    requires devices { 0 < length script.now.names }
    requires authors { AllByRecursion (IsOfScript script.now) versions.items }
{
    let Some(picture) = PicNo::new(7) else {
        return false;
    };
    let conflict = Conflict {
        picture,
        versions: VersionList::new(versions),
    };
    let Ok(items) = vec![in alloc; conflict] else {
        return false;
    };
    let report = Report::Conflicts {
        device: 0,
        pictures: ConflictList::new(items),
    };
    is_reported(alloc, script, number, &report, wanted)
}

fn are_two_versions_told(alloc: Global, script: &Script, number: u32, wanted: &str) -> bool {
    if script.devices() != 2 {
        return false;
    }
    let (Some(one), Some(other)) = (version(0, 2), version(1, 1)) else {
        return false;
    };
    match vec![in alloc; one, other] {
        Ok(versions) => is_conflict_told(alloc, script, number, versions, wanted),
        Err(_) => false,
    }
}

// Two devices, and a picture of each.
const SCRIPT: &str =
    "device cam all\ndevice b all\nnew cam 7 5 2024-05-01 sun,beach\nnew b 999999999 0 0007-11-09 -\n";

const COUNTS: PullCounts = PullCounts {
    taken: 1,
    handed: 20,
    notices: 300,
    dropped: 18_446_744_073_709_551_615,
    learned: false,
};

const LEARNED: PullCounts = PullCounts {
    taken: 1,
    handed: 20,
    notices: 300,
    dropped: 0,
    learned: true,
};

const TOLD: &[(u32, Told, &str)] = &[
    (1, Told::Made(0, 0, 1, Place::Store), "1 made cam:1 store\n"),
    (
        1,
        Told::Made(1, 0, 100_000, Place::Out),
        "1 made b:100000 out\n",
    ),
    (
        1,
        Told::Made(0, 1, 3, Place::Store),
        "1 made cam.1:3 store\n",
    ),
    (
        1,
        Told::Made(1, 4_294_967_295, 1, Place::Out),
        "1 made b.4294967295:1 out\n",
    ),
    (2, Told::NotHeld, "2 refused C1 NotHeld\n"),
    (3, Told::Narrowed(2), "3 narrowed 2\n"),
    (4, Told::NotNarrower, "4 refused C2 NotNarrower\n"),
    (5, Told::Refiltered(20, 1), "5 refiltered store 20 out 1\n"),
    (
        12,
        Told::Pulled(COUNTS),
        "12 pulled taken 1 handed 20 notices 300 dropped 18446744073709551615 learned no\n",
    ),
    (
        12,
        Told::Preview(COUNTS),
        "12 preview taken 1 handed 20 notices 300 dropped 18446744073709551615 learned no\n",
    ),
    (
        12,
        Told::Pulled(LEARNED),
        "12 pulled taken 1 handed 20 notices 300 dropped 0 learned yes\n",
    ),
    (
        12,
        Told::Preview(LEARNED),
        "12 preview taken 1 handed 20 notices 300 dropped 0 learned yes\n",
    ),
    (8, Told::Knows(true), "8 knows yes\n"),
    (8, Told::Knows(false), "8 knows no\n"),
    (6, Told::Conflict, "6 conflicts cam 1\n  7 cam:2 b:1\n"),
    (
        2,
        Told::Store,
        "2 list cam store 1 out 0\n  store 7 cam:1 rating 5 day 2024-05-01 words beach,sun\n",
    ),
    (
        4_294_967_295,
        Told::Out,
        "4294967295 list b store 0 out 2\n  out 999999999 b:100000 removed\n  out 999999999 b:100000 rating 0 day 0007-11-09 words -\n",
    ),
    (1, Told::Knowledge(false, &[]), "1 knowledge b 1\n  * -\n"),
    (
        7,
        Told::Knowledge(true, &[]),
        "7 knowledge b 1\n  * cam:1\n",
    ),
    (
        5,
        Told::Knowledge(true, &[(9, 2), (8, 3), (7, 2)]),
        "5 knowledge b 3\n  * cam:1\n  7,9 cam:2 b:1\n  8 cam:3 b:1\n",
    ),
];

// Whether the report has that text in the script.
fn is_right(alloc: Global, number: u32, told: &Told, wanted: &str) -> bool {
    match read_script(alloc, SCRIPT.as_bytes()) {
        Ok(script) => is_told(alloc, &script, number, told, wanted),
        Err(_) => false,
    }
}

#[test]
fn texts_of_reports(rt: HostRuntime) {
    for (number, told, wanted) in TOLD {
        assert!(rt; is_right(rt.alloc(), *number, told, wanted), "{wanted}");
    }
}
