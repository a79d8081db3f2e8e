// Searches in a selection of held versions.
ghost use Rattle.std.specs.Prelude.{◌≡◌, ◌&&◌, ◌==◌, length};
ghost use Rattle.photo_pull.specs.OnHeld.{IsOrdered, selection_above, selection_below, IsQuiet};

use crate::quiet_range::QuietRange;
use crate::superseding::{any_above, any_below, first_of, picture_at};
use photo_device::{Selection, SharedHeld};
use photo_record::PicNo;

/// Whether the selection has no version.
pub(crate) fn is_empty(some: &Selection) -> bool
    ensures { result ≡ ((length some.now.stored.items == 0) && (length some.now.waiting.items == 0)) }
{
    some.stored.is_empty() && some.waiting.is_empty()
}

// The quiet range from a picture on: the last one if it begins there, else one that a search finds.
fn quiet_at(some: &Selection, last: QuietRange, picture: PicNo) -> QuietRange
    requires order { IsOrdered some.now }
    requires last { IsQuiet some.now last }
    ensures from { result.from ≡ picture }
    ensures quiet { IsQuiet some.now result }
{
    if last.from == picture.value() {
        return last;
    }
    let stored = first_of(&some.stored, picture);
    let waiting = first_of(&some.waiting, picture);
    QuietRange {
        from: picture.value(),
        end: picture_at(&some.stored, stored).min(picture_at(&some.waiting, waiting)),
        stored,
        waiting,
    }
}

/// Whether a version of the selection supersedes the held version. If callers ask for rising pictures, each with the range that
/// the last call left, the selection is searched once for each picture that it has.
pub(crate) fn has_above(some: &Selection, quiet: &mut QuietRange, held: &SharedHeld) -> bool
    requires order { IsOrdered some.now }
    requires quiet { IsQuiet some.now quiet.old }
    ensures above { result ≡ selection_above some.now held.now }
    ensures quiet { IsQuiet some.now quiet.new }
{
    if quiet.has(held.picture()) {
        return false;
    }
    *quiet = quiet_at(some, *quiet, held.picture());
    any_above(&some.stored, quiet.stored, held) || any_above(&some.waiting, quiet.waiting, held)
}

/// Whether the version supersedes a version of the selection.
pub(crate) fn has_below(some: &Selection, newer: &SharedHeld) -> bool
    requires { IsOrdered some.now }
    ensures { result ≡ selection_below some.now newer.now }
{
    any_below(&some.stored, newer) || any_below(&some.waiting, newer)
}
