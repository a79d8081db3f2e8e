//! Held versions that pass a test, in their order. Copies share the held versions.
ghost use Rattle.std.specs.Prelude.{◌≡◌, ◌≤◌, ◌&&◌, ◌||◌, not, true, length, filter, IfOk, OnErr};
ghost use Rattle.std.specs.List.{list_any};
ghost use Rattle.item_knowledge.specs.Fragments.{knows};
ghost use Rattle.photo_device.specs.Held.{are_in_order};
ghost use Rattle.photo_pull.specs.OnHeld.{is_gone, is_selected, has_same, selection_below, IsOrdered, IsQuiet, HasPassed};

use crate::quiet_range::QuietRange;
use crate::selection::{has_above, has_below, is_empty};
use crate::set_cursor::SetCursor;
use photo_device::{Device, HeldSet, Selection, SharedHeld};
use photo_filter_rules::Filter;
use std::alloc::{AllocError, Global};

// The cursors beside the versions of a set, which are visited in their order: the range of pictures without news, and a cursor
// along the device's store.
#[derive(Drop)]
struct Cursors<'a> {
    quiet: QuietRange,
    kept: SetCursor<'a>,
}

// Whether the device knows the version, and the cursor along its store doesn't find it.
fn has_given_up(device: &Device, beside: &mut Cursors<'_>, held: &SharedHeld) -> bool
    requires { are_in_order beside.old.kept ≡ true }
    ensures is { result ≡ (knows device.now.knowledge held.now.picture held.now.version && not (has_same beside.old.kept held.now)) }
    ensures quiet { beside.new.quiet ≡ beside.old.quiet }
    ensures passed { HasPassed held.now beside.old.kept beside.new.kept }
{
    if beside.kept.has(held) {
        return false;
    }
    device.knowledge().knows(held.picture(), held.version())
}

// Whether news supersedes the version or, where `followed`, the device has given it up.
fn is_dropped(
    news: &Selection,
    followed: bool,
    device: &Device,
    beside: &mut Cursors<'_>,
    held: &SharedHeld,
) -> bool
    requires order { IsOrdered news.now }
    requires quiet { IsQuiet news.now beside.old.quiet }
    requires kept { are_in_order beside.old.kept ≡ true }
    requires same { has_same beside.old.kept held.now ≡ has_same device.now.store held.now }
    ensures is { result ≡ is_gone news.now followed device.now held.now }
    ensures quiet { IsQuiet news.now beside.new.quiet }
    ensures passed { HasPassed held.now beside.old.kept beside.new.kept }
{
    if has_above(news, &mut beside.quiet, held) {
        return true;
    }
    followed && has_given_up(device, beside, held)
}

/// Copies of those versions of a set that news supersedes or, where `followed`, that the device has given up. Without either it
/// doesn't visit the set.
#[tactic(auto, using(std::proofs::lemmas::Grind::common_steps, crate::proofs::Along::none_gone, crate::proofs::Along::filtered_in_order, crate::proofs::Passing::beside_one))]
pub(crate) fn dropped_of(
    alloc: Global,
    news: &Selection,
    followed: bool,
    device: &Device,
    set: &HeldSet,
) -> Result<Vec<SharedHeld>, AllocError>
    requires { IsOrdered news.now }
    ensures items { IfOk result (λ found. found.items ≡ filter (is_gone news.now followed device.now) set.now) }
    ensures ordered { IfOk result (λ found. are_in_order found.items ≡ true) }
    ensures err { OnErr result (list_any (is_gone news.now followed device.now) set.now ≡ true) }
{
    let mut found = Vec::new(alloc);
    if !followed && is_empty(news) {
        return Ok(found);
    }
    let mut beside = Cursors {
        quiet: QuietRange::none(),
        kept: SetCursor::of(device.store()),
    };
    for held in set.iter() {
        if !is_dropped(news, followed, device, &mut beside, held) {
            continue;
        }
        found.push(held.try_clone()?)?;
    }
    Ok(found)
}

/// The versions of a list that the filter matches, or that supersede a dropped version.
pub(crate) fn heard_of(
    wanted: &Filter,
    dropped: &Selection,
    list: Vec<SharedHeld>,
) -> Vec<SharedHeld>
    requires { IsOrdered dropped.now }
    ensures { result.items ≡ filter (λ w. is_selected wanted.now w || selection_below dropped.now w) list.items }
{
    let mut heard = list;
    heard.retain(|held| wanted.matches(held.content()) || has_below(dropped, held));
    heard
}

/// The versions of a list that the filter matches.
pub(crate) fn taken_of(wanted: &Filter, list: Vec<SharedHeld>) -> Vec<SharedHeld>
    ensures { result.items ≡ filter (is_selected wanted.now) list.items }
{
    let mut taken = list;
    taken.retain(|held| wanted.matches(held.content()));
    taken
}

/// How many versions of a list the filter matches.
pub(crate) fn count_of(wanted: &Filter, list: &[SharedHeld]) -> usize
    ensures count { result ≡ length (filter (is_selected wanted.now) list.now) }
    ensures fewer { result ≤ length list.now }
{
    list.iter()
        .filter(|held| wanted.matches(held.content()))
        .count()
}
