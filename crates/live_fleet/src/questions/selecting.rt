//! The pictures of a device that a filter selects.
ghost use Rattle.std.specs.Prelude.{◌≡◌, ◌++◌, IfOk, OnOk};
ghost use Rattle.live_fleet.specs.Selected.{AreSelected, matched};

use photo_device::{Device, HeldSet, SharedHeld};
use photo_filter_rules::Filter;
use std::alloc::{AllocError, Global};

/// The versions of a device's store and out whose records a filter matches, sorted by picture and then version. They are shared
/// with the device. No filter matches a version that removes its picture. Its only error is want of memory.
pub fn selected(
    alloc: Global,
    device: &Device,
    wanted: &Filter,
) -> Result<Vec<SharedHeld>, AllocError>
    ensures { IfOk result (λ found. AreSelected wanted.now device.now found.items) }
{
    let mut found = held_matched(alloc, device, wanted)?;
    found.sort_unstable_by_key(|held| (held.picture(), held.version()));
    Ok(found)
}

// The versions of the store that the filter matches, and behind them those of the out.
fn held_matched(
    alloc: Global,
    device: &Device,
    wanted: &Filter,
) -> Result<Vec<SharedHeld>, AllocError>
    ensures { IfOk result (λ found. found.items ≡ matched wanted.now (device.now.store ++ device.now.out)) }
{
    let mut found = Vec::new(alloc);
    push_of_set(&mut found, wanted, device.store())?;
    push_of_set(&mut found, wanted, device.out())?;
    Ok(found)
}

// Appends the versions of a set that a filter matches.
fn push_of_set(
    found: &mut Vec<SharedHeld>,
    wanted: &Filter,
    set: &HeldSet,
) -> Result<(), AllocError>
    ensures { OnOk result (found.new.items ≡ found.old.items ++ matched wanted.now set.now) }
{
    for block in set.blocks() {
        push_matched(found, wanted, block)?;
    }
    Ok(())
}

// Appends the versions of a list that a filter matches.
fn push_matched(
    found: &mut Vec<SharedHeld>,
    wanted: &Filter,
    helds: &[SharedHeld],
) -> Result<(), AllocError>
    ensures { OnOk result (found.new.items ≡ found.old.items ++ matched wanted.now helds.now) }
{
    for held in helds {
        if wanted.matches(held.content()) {
            found.push(held.try_clone()?)?;
        }
    }
    Ok(())
}
