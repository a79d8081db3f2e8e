//! Which versions of a log are superseded, by any of the log or by one that a device knows.
ghost use Rattle.std.specs.Prelude.{◌≡◌, ℕ, ◌<◌, ◌≤◌, ◌==◌, ◌&&◌, Bool, not, nat_lt, length, filter, slice_index_or};
ghost use Rattle.std.specs.List.{list_any};
ghost use Rattle.std.specs.Option.{option_copied};
ghost use Rattle.photo_version.specs.Vector.{denotes};
ghost use Rattle.photo_device.specs.declared.held.Held as spec;
ghost use Rattle.fleet_audit.specs.Current.{counts, is_passed, is_outdated};
ghost use Rattle.fleet_audit.specs.Stretch.{IsStretch};

use fleet_steps::IssueLog;
use photo_device::{Device, Held, SharedHeld};
use photo_version::Vector;

/// Whether some version of the log that counts supersedes this one. Given a device, those that it knows count; without one, all
/// do.
pub fn is_outdated(viewer: Option<&Device>, log: &IssueLog, held: &Held) -> bool
    ensures { result ≡ is_outdated (option_copied viewer.entry) log.now held.now }
{
    is_passed(viewer, of_same(log, held), held)
}

// The versions of the log that are of the same picture.
fn of_same<'a>(log: &'a IssueLog, held: &Held) -> &'a [SharedHeld]
    ensures { (test : spec.Held → Bool) → list_any test result.now ≡ list_any (λ h. (h.picture == held.now.picture) && test h) log.now }
{
    log.of_picture(held.picture)
}

fn is_passed(viewer: Option<&Device>, made: &[SharedHeld], held: &Held) -> bool
    ensures { result ≡ is_passed (option_copied viewer.entry) made.now held.now.version }
{
    for newer in made {
        if is_counted(viewer, newer) && newer.made_with().has(held.version) {
            return true;
        }
    }
    false
}

fn is_counted(viewer: Option<&Device>, held: &SharedHeld) -> bool
    ensures { result ≡ counts (option_copied viewer.entry) held.now }
{
    match viewer {
        Some(device) => device.knowledge().knows(held.picture(), held.version()),
        None => true,
    }
}

/// Of an author's versions of a picture, in rising order, those that no version of the log that counts supersedes. These are
/// the last ones, since a version that supersedes one of them has the earlier ones in its history too.
pub fn current_of<'a>(
    viewer: Option<&Device>,
    log: &IssueLog,
    stretch: &'a [SharedHeld],
) -> &'a [SharedHeld]
    requires some { 0 < length stretch.now }
    requires stretch { IsStretch stretch.now }
    ensures { result.now ≡ filter (λ h. not (is_outdated (option_copied viewer.entry) log.now h)) stretch.now }
{
    let made = of_same(log, stretch[0].as_held());
    let count = outdated(viewer, made, stretch);
    &stretch[count..]
}

// How many of the stretch's versions are in the history of a version that counts.
fn outdated(viewer: Option<&Device>, made: &[SharedHeld], stretch: &[SharedHeld]) -> usize
    requires { IsStretch stretch.now }
    ensures within { result ≤ length stretch.now }
    ensures passed { (k : ℕ) (d : spec.Held) → k < length stretch.now
        → nat_lt k result ≡ is_passed (option_copied viewer.entry) made.now (slice_index_or stretch.now k d).version }
{
    let mut count = 0;
    for newer in made {
        if is_counted(viewer, newer) {
            count = usize::max(count, made_with(newer.made_with(), stretch));
        }
    }
    count
}

// How many of the stretch's versions are in a history.
fn made_with(history: &Vector, stretch: &[SharedHeld]) -> usize
    requires { IsStretch stretch.now }
    ensures within { result ≤ length stretch.now }
    ensures known { (k : ℕ) (d : spec.Held) → k < length stretch.now
        → nat_lt k result ≡ denotes history.now (slice_index_or stretch.now k d).version }
{
    stretch.partition_point(|held| history.has(held.version()))
}
