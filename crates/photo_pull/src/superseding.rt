//! Searches in lists of held versions in the order of their pictures.
ghost use Rattle.std.specs.Prelude.{◌≡◌, ◌≤◌, ◌<◌, true, false, drop};
ghost use Rattle.photo_device.specs.declared.held.Held as spec;
ghost use Rattle.photo_device.specs.Held.{are_in_order};
ghost use Rattle.photo_pull.specs.OnHeld.{is_above, has_above, has_below};

use photo_device::SharedHeld;
use photo_record::PicNo;

// Whether a version supersedes another.
fn supersedes(newer: &SharedHeld, held: &SharedHeld) -> bool
    ensures { result ≡ is_above newer.now held.now }
{
    newer.picture() == held.picture() && newer.made_with().has(held.version())
}

/// The first place in a list whose picture isn't smaller than this one.
pub(crate) fn first_of(list: &[SharedHeld], picture: PicNo) -> usize
    requires { are_in_order list.now ≡ true }
    ensures above { (h : spec.Held) → picture ≤ h.picture → has_above (drop result list.now) h ≡ has_above list.now h }
    ensures below { (w : spec.Held) → picture ≤ w.picture → has_below (drop result list.now) w ≡ has_below list.now w }
{
    list.partition_point(|held| held.picture() < picture)
}

/// The picture at a place, or one above all pictures. From that place on, no picture of the list is smaller.
#[tactic(auto, using(crate::proofs::Along::above_none))]
pub(crate) fn picture_at(list: &[SharedHeld], place: usize) -> u32
    requires { are_in_order list.now ≡ true }
    ensures { (h : spec.Held) → h.picture < result → has_above (drop place list.now) h ≡ false }
{
    if place >= list.len() {
        return u32::MAX;
    }
    list[place].picture().value()
}

/// Whether a version of the list, from a place on, supersedes the held version.
#[tactic(auto, using(crate::proofs::Along::above_none))]
pub(crate) fn any_above(list: &[SharedHeld], from: usize, held: &SharedHeld) -> bool
    requires { are_in_order list.now ≡ true }
    ensures { result ≡ has_above (drop from list.now) held.now }
{
    let mut place = from;
    while place < list.len() {
        if held.picture() < list[place].picture() {
            return false;
        }
        if supersedes(&list[place], held) {
            return true;
        }
        place += 1;
    }
    false
}

/// Whether the version supersedes a version of the list.
#[tactic(auto, using(crate::proofs::Along::below_none))]
pub(crate) fn any_below(list: &[SharedHeld], newer: &SharedHeld) -> bool
    requires { are_in_order list.now ≡ true }
    ensures { result ≡ has_below list.now newer.now }
{
    let mut place = first_of(list, newer.picture());
    while place < list.len() {
        if newer.picture() < list[place].picture() {
            return false;
        }
        if supersedes(newer, &list[place]) {
            return true;
        }
        place += 1;
    }
    false
}
