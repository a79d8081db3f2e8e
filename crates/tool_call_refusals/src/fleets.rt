//! Calls of `Fleet` of `live_fleet`.
ghost use Rattle.std.specs.Prelude.{◌≡◌, ◌<◌, ◌≤◌, length, IfSome};

use crate::devices::same_devices;
use crate::scripts::unless_changed;
use live_fleet::Fleet;
use photo_device::Place;
use photo_filter_rules::Filter;
use photo_pull::PullCounts;
use photo_record::{PicNo, Record};
use photo_script::{Command, Report, Script};
use photo_version::Version;
use std::alloc::{AllocError, Global};
use tool_value_refusals::{Verdict, filter_of, judged, mark, rated};

/// The verdict on a call of `Fleet` that needs no script.
pub fn verdict(alloc: Global, call: &str) -> Option<Verdict> {
    match call {
        "Fleet::new" => new(alloc),
        "Fleet::make first" => on_fleet(alloc, Start::Fresh, call),
        "Fleet::pull first" => on_fleet(alloc, Start::One, call),
        _ => on_fleet(alloc, Start::Apart, call),
    }
}

/// What a fleet's two devices have done.
#[derive(Clone, Copy)]
pub enum Start {
    /// Nothing.
    Fresh,
    /// The first holds a version, and the second nothing.
    One,
    /// They hold different versions of picture 7, one each.
    Apart,
    /// The first holds two versions of picture 7, and the second one of them.
    Divided,
}

/// Two filters, the first of which is `all`.
pub fn two_filters(alloc: Global, second: &str) -> Option<[Filter; 2]> {
    match filter_of(alloc, "all") {
        Some(filter) => with_second(alloc, filter, second),
        None => None,
    }
}

fn with_second(alloc: Global, first: Filter, second: &str) -> Option<[Filter; 2]> {
    match filter_of(alloc, second) {
        Some(filter) => Some([first, filter]),
        None => {
            drop(first);
            None
        }
    }
}

fn new(alloc: Global) -> Option<Verdict> {
    let made = two_filters(alloc, "rating >= 4");
    let verdict = match &made {
        Some(filters) => Some(new_with(alloc, filters)),
        None => None,
    };
    drop(made);
    verdict
}

fn new_with(alloc: Global, filters: &[Filter; 2]) -> Verdict {
    mark(alloc);
    let made = Fleet::new(alloc, filters);
    mark(alloc);
    let verdict = match &made {
        Ok(fleet) => judged(Some(is_fresh(fleet)), true),
        Err(_) => judged(
            None,
            filters[0].alternatives() == 1 && filters[1].alternatives() == 1,
        ),
    };
    drop(made);
    verdict
}

fn is_fresh(fleet: &Fleet) -> bool {
    fleet.devices().len() == 2 && fleet.log().is_empty() && fleet.commands() == 0
}

fn two_devices(alloc: Global) -> Option<Fleet>
    ensures { IfSome result (λ fleet. (length fleet.devices ≡ 2) × (fleet.commands ≡ 0)) }
{
    let made = two_filters(alloc, "all");
    let fleet = match &made {
        Some(filters) => Fleet::new(alloc, filters).ok(),
        None => None,
    };
    drop(made);
    fleet
}

/// A fleet of two devices that have done that.
pub fn begun(alloc: Global, start: Start) -> Option<Fleet>
    ensures devices { IfSome result (λ fleet. length fleet.devices ≡ 2) }
    ensures commands { IfSome result (λ fleet. fleet.commands ≤ 5) }
{
    match two_devices(alloc) {
        Some(mut fleet) => {
            if begin(alloc, &mut fleet, start).is_some() {
                return Some(fleet);
            }
            drop(fleet);
            None
        }
        None => None,
    }
}

fn begin(alloc: Global, fleet: &mut Fleet, start: Start) -> Option<()>
    requires devices { length fleet.old.devices ≡ 2 }
    requires fresh { fleet.old.commands ≡ 0 }
    ensures devices { length fleet.new.devices ≡ 2 }
    ensures commands { fleet.new.commands ≤ 5 }
{
    let picture = PicNo::new(7)?;
    let record = rated(alloc, 4);
    let done = match &record {
        Some(content) => begin_with(fleet, start, picture, content),
        None => None,
    };
    drop(record);
    done
}

fn begin_with(fleet: &mut Fleet, start: Start, picture: PicNo, content: &Record) -> Option<()>
    requires devices { length fleet.old.devices ≡ 2 }
    requires fresh { fleet.old.commands ≡ 0 }
    ensures devices { length fleet.new.devices ≡ 2 }
    ensures commands { fleet.new.commands ≤ 5 }
{
    match start {
        Start::Fresh => Some(()),
        Start::One => {
            fleet.make(0, picture, content).ok()?;
            Some(())
        }
        Start::Apart => edit_on_both(fleet, picture, content),
        Start::Divided => {
            edit_on_both(fleet, picture, content)?;
            fleet.pull(0, 1).ok()?;
            Some(())
        }
    }
}

// The first device makes a picture, the second pulls it, and both edit it.
fn edit_on_both(fleet: &mut Fleet, picture: PicNo, content: &Record) -> Option<()>
    requires devices { length fleet.old.devices ≡ 2 }
    requires fresh { fleet.old.commands ≡ 0 }
    ensures devices { length fleet.new.devices ≡ 2 }
    ensures commands { fleet.new.commands ≤ 4 }
{
    fleet.make(0, picture, content).ok()?;
    fleet.pull(1, 0).ok()?;
    fleet.edit(0, picture, content).ok()?;
    fleet.edit(1, picture, content).ok()?;
    Some(())
}

fn on_fleet(alloc: Global, start: Start, call: &str) -> Option<Verdict> {
    let mut made = begun(alloc, start);
    let verdict = match &mut made {
        Some(fleet) => beside_twin(alloc, fleet, start, call),
        None => None,
    };
    drop(made);
    verdict
}

fn beside_twin(alloc: Global, fleet: &mut Fleet, start: Start, call: &str) -> Option<Verdict>
    requires devices { length fleet.old.devices ≡ 2 }
    requires commands { fleet.old.commands ≤ 5 }
{
    let right = calls(alloc, fleet, call)?;
    let made = begun(alloc, start);
    let verdict = match &made {
        Some(twin) => Some(judged(right, same_fleet(fleet, twin))),
        None => None,
    };
    drop(made);
    verdict
}

/// Whether two fleets are the same, as far as the public readers show.
pub fn same_fleet(one: &Fleet, other: &Fleet) -> bool {
    one.commands() == other.commands()
        && one.log() == other.log()
        && same_devices(one.devices(), other.devices())
}

// Whether the answer is right. The outer `None` means that no call has the name, the inner one that memory was refused.
fn calls(alloc: Global, fleet: &mut Fleet, call: &str) -> Option<Option<bool>>
    requires devices { length fleet.old.devices ≡ 2 }
    requires commands { fleet.old.commands ≤ 5 }
{
    match call {
        "Fleet::run" => Some(runs(alloc, fleet)),
        "Fleet::remove" => Some(removes(alloc, fleet)),
        "Fleet::pull" => Some(pulls(alloc, fleet)),
        "Fleet::pull first" => Some(pulls_first(alloc, fleet)),
        "Fleet::preview" => Some(previews(alloc, fleet)),
        "Fleet::try_clone" => Some(copies(alloc, fleet)),
        _ => calls_with(alloc, fleet, call),
    }
}

// The same for the calls that are lent a record or a filter.
fn calls_with(alloc: Global, fleet: &mut Fleet, call: &str) -> Option<Option<bool>>
    requires devices { length fleet.old.devices ≡ 2 }
    requires commands { fleet.old.commands ≤ 5 }
{
    let record = rated(alloc, 3);
    let filter = filter_of(alloc, "rating >= 5");
    let right = match (&record, &filter) {
        (Some(content), Some(filter)) => calls_lent(alloc, fleet, content, filter, call),
        _ => None,
    };
    drop(record);
    drop(filter);
    right
}

fn calls_lent(
    alloc: Global,
    fleet: &mut Fleet,
    content: &Record,
    filter: &Filter,
    call: &str,
) -> Option<Option<bool>>
    requires devices { length fleet.old.devices ≡ 2 }
    requires commands { fleet.old.commands ≤ 5 }
{
    match call {
        "Fleet::make" => Some(makes(alloc, fleet, content)),
        "Fleet::make first" => Some(makes_first(alloc, fleet, content)),
        "Fleet::edit" => Some(edits(alloc, fleet, content)),
        "Fleet::narrow" => Some(narrows(alloc, fleet, filter)),
        "Fleet::refilter" => Some(refilters(alloc, fleet, filter)),
        "Fleet::add" => Some(adds(alloc, fleet, filter)),
        _ => None,
    }
}

fn runs(alloc: Global, fleet: &mut Fleet) -> Option<bool>
    requires devices { length fleet.old.devices ≡ 2 }
    requires commands { fleet.old.commands ≤ 5 }
{
    let command = Command::Remove {
        device: 1,
        picture: PicNo::new(7)?,
    };
    mark(alloc);
    let report = fleet.run(&command);
    mark(alloc);
    let right = is_made(&report, 2);
    drop(report);
    drop(command);
    Some(right? && fleet.commands() == 5 && fleet.log().len() == 4)
}

// Whether a report is on a version of that number. `None` where memory was refused.
fn is_made(report: &Result<Report, AllocError>, n: u32) -> Option<bool> {
    match report {
        Ok(Report::Made { version, .. }) => Some(version.n() == n),
        Ok(_) => Some(false),
        Err(_) => None,
    }
}

fn has_made(fleet: &Fleet, made: (Version, Place), n: u32, place: Place) -> bool {
    made.0.n() == n && made.1 == place && fleet.commands() == 5 && fleet.log().len() == 4
}

fn makes(alloc: Global, fleet: &mut Fleet, content: &Record) -> Option<bool>
    requires devices { length fleet.old.devices ≡ 2 }
    requires commands { fleet.old.commands ≤ 5 }
{
    let picture = PicNo::new(9)?;
    mark(alloc);
    let made = fleet.make(0, picture, content);
    mark(alloc);
    Some(has_made(fleet, made.ok()?, 3, Place::Store))
}

// The first version of a fleet, for which the log has no capacity yet.
fn makes_first(alloc: Global, fleet: &mut Fleet, content: &Record) -> Option<bool>
    requires devices { length fleet.old.devices ≡ 2 }
    requires commands { fleet.old.commands ≤ 5 }
{
    let picture = PicNo::new(7)?;
    mark(alloc);
    let made = fleet.make(0, picture, content);
    mark(alloc);
    let (version, place) = made.ok()?;
    Some(version.n() == 1 && place == Place::Store && fleet.log().len() == 1)
}

fn edits(alloc: Global, fleet: &mut Fleet, content: &Record) -> Option<bool>
    requires devices { length fleet.old.devices ≡ 2 }
    requires commands { fleet.old.commands ≤ 5 }
{
    let picture = PicNo::new(7)?;
    mark(alloc);
    let made = fleet.edit(0, picture, content);
    mark(alloc);
    match made.ok()? {
        Some(made) => Some(has_made(fleet, made, 3, Place::Store)),
        None => Some(false),
    }
}

fn removes(alloc: Global, fleet: &mut Fleet) -> Option<bool>
    requires devices { length fleet.old.devices ≡ 2 }
    requires commands { fleet.old.commands ≤ 5 }
{
    let picture = PicNo::new(7)?;
    mark(alloc);
    let made = fleet.remove(1, picture);
    mark(alloc);
    match made.ok()? {
        Some(made) => Some(has_made(fleet, made, 2, Place::Out)),
        None => Some(false),
    }
}

// The pull takes the other device's version beside the target's own.
const TAKEN: PullCounts = PullCounts {
    taken: 1,
    handed: 0,
    notices: 0,
    dropped: 0,
    learned: true,
};

fn pulls(alloc: Global, fleet: &mut Fleet) -> Option<bool>
    requires devices { length fleet.old.devices ≡ 2 }
    requires commands { fleet.old.commands ≤ 5 }
{
    mark(alloc);
    let counts = fleet.pull(0, 1);
    mark(alloc);
    Some(counts.ok()? == TAKEN && fleet.commands() == 5 && fleet.log().len() == 3)
}

// A pull into a device whose store has no capacity yet.
fn pulls_first(alloc: Global, fleet: &mut Fleet) -> Option<bool>
    requires devices { length fleet.old.devices ≡ 2 }
    requires commands { fleet.old.commands ≤ 5 }
{
    mark(alloc);
    let counts = fleet.pull(1, 0);
    mark(alloc);
    Some(counts.ok()? == TAKEN && fleet.commands() == 2 && fleet.log().len() == 1)
}

fn narrows(alloc: Global, fleet: &mut Fleet, filter: &Filter) -> Option<bool>
    requires devices { length fleet.old.devices ≡ 2 }
    requires commands { fleet.old.commands ≤ 5 }
{
    mark(alloc);
    let moved = fleet.narrow(0, filter);
    mark(alloc);
    Some(moved.ok()? == Some(1) && fleet.commands() == 5 && fleet.log().len() == 3)
}

fn refilters(alloc: Global, fleet: &mut Fleet, filter: &Filter) -> Option<bool>
    requires devices { length fleet.old.devices ≡ 2 }
    requires commands { fleet.old.commands ≤ 5 }
{
    mark(alloc);
    let sizes = fleet.refilter(0, filter);
    mark(alloc);
    Some(sizes.ok()? == (0, 1) && fleet.commands() == 5 && fleet.log().len() == 3)
}

fn previews(alloc: Global, fleet: &Fleet) -> Option<bool>
    requires { length fleet.now.devices ≡ 2 }
{
    mark(alloc);
    let counts = fleet.preview(0, 1);
    mark(alloc);
    Some(counts.ok()? == TAKEN && fleet.commands() == 4)
}

fn adds(alloc: Global, fleet: &mut Fleet, filter: &Filter) -> Option<bool>
    requires { length fleet.old.devices ≡ 2 }
{
    mark(alloc);
    let number = fleet.add(filter);
    mark(alloc);
    Some(number.ok()? == 2 && fleet.devices().len() == 3 && fleet.commands() == 4)
}

fn copies(alloc: Global, fleet: &Fleet) -> Option<bool> {
    mark(alloc);
    let made = fleet.try_clone();
    mark(alloc);
    let right = match &made {
        Ok(copy) => Some(same_fleet(copy, fleet)),
        Err(_) => None,
    };
    drop(made);
    right
}

/// Whether a call on the script of four devices gives the right answer. The outer `None` means that no call has the name, the
/// inner one that memory was refused.
pub fn calls_on_script(alloc: Global, script: &Script, call: &str) -> Option<Option<bool>> {
    match call {
        "Fleet::of_script" => Some(takes_devices(alloc, script)),
        "Fleet::run_number" => runs_first_of(alloc, script),
        _ => None,
    }
}

fn takes_devices(alloc: Global, script: &Script) -> Option<bool> {
    mark(alloc);
    let made = Fleet::of_script(alloc, script);
    mark(alloc);
    let right = match &made {
        Ok(fleet) => Some(fleet.devices().len() == 4 && fleet.commands() == 0),
        Err(_) => None,
    };
    drop(made);
    right
}

// Runs the first command of a script on the script's fleet.
fn runs_first_of(alloc: Global, script: &Script) -> Option<Option<bool>> {
    if script.commands() == 0 {
        return None;
    }
    let mut made = Fleet::of_script(alloc, script);
    let right = match &mut made {
        Ok(fleet) => runs_beside_twin(alloc, fleet, script),
        Err(_) => None,
    };
    drop(made);
    right
}

fn runs_beside_twin(alloc: Global, fleet: &mut Fleet, script: &Script) -> Option<Option<bool>>
    requires devices { length fleet.old.devices ≡ length script.now.names }
    requires commands { fleet.old.commands ≡ 0 }
    requires some { 0 < length script.now.commands }
{
    let right = runs_first(alloc, fleet, script);
    let made = Fleet::of_script(alloc, script);
    let answer = match &made {
        Ok(twin) => Some(unless_changed(right, same_fleet(fleet, twin))),
        Err(_) => None,
    };
    drop(made);
    answer
}

fn runs_first(alloc: Global, fleet: &mut Fleet, script: &Script) -> Option<bool>
    requires devices { length fleet.old.devices ≡ length script.now.names }
    requires commands { fleet.old.commands ≡ 0 }
    requires some { 0 < length script.now.commands }
{
    mark(alloc);
    let report = fleet.run_number(script, 1);
    mark(alloc);
    let right = is_made(&report, 1);
    drop(report);
    Some(right? && fleet.commands() == 1 && fleet.log().len() == 1)
}
