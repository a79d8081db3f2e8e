//! Stretches of one author's versions of one picture.
ghost use Rattle.std.specs.Prelude.{◌≡◌, ◌<◌, ◌≤◌, true, length};
ghost use Rattle.std.specs.List.{AllAdjacentBelow};
ghost use Rattle.fleet_audit.specs.Stretch.{Follows};

use photo_device::SharedHeld;

/// How many versions at the front of a list are one author's of one picture, in rising order.
pub fn stretch_len(helds: &[SharedHeld]) -> usize
    ensures some { 0 < length helds.now → 0 < result }
    ensures within { result ≤ length helds.now }
    ensures stretch { AllAdjacentBelow Follows helds.now result }
{
    for i in 1..helds.len() {
        if !follows(&helds[i - 1], &helds[i]) {
            return i;
        }
    }
    helds.len()
}

fn follows(held: &SharedHeld, next: &SharedHeld) -> bool
    ensures { result ≡ true → Follows held.now next.now }
{
    held.picture() == next.picture()
        && held.version().author() == next.version().author()
        && held.version().n() <= next.version().n()
}
