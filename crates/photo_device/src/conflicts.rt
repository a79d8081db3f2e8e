//! The pictures of which a device holds two or more versions.
ghost use Rattle.std.specs.Prelude.{◌≡◌, ◌<◌, ◌++◌, true, map, length, IfOk};
ghost use Rattle.photo_device.specs.Held.{entries_of, are_in_order, put_helds};
ghost use Rattle.photo_device.specs.Taking.{AreNewTo};
ghost use Rattle.photo_model.specs.Conflicts.{conflicts_in};

use crate::resorted::listed;
use crate::takes::put_in;
use crate::{Conflict, HeldSet, SharedHeld, VersionList};
use std::alloc::{AllocError, Global};

/// The conflicts of what two sets hold together, in the order of pictures. The only error is refused memory.
pub fn conflicts_of(store: &HeldSet, out: &HeldSet) -> Result<Vec<Conflict>, AllocError>
    requires { AreNewTo out.now store.now }
    ensures { IfOk result (λ list. list.items ≡ conflicts_in (entries_of (put_helds store.now out.now))) }
{
    let all = joined(store, out)?;
    let list = listed(&all)?;
    grouped(store.alloc(), list.as_slice())
}

// One set with what two sets hold; the versions are shared. The only error is refused memory.
#[tactic(auto, using(std::proofs::lemmas::Grind::common_steps, crate::proofs::Taken::none_taken, crate::proofs::Taken::all_put))]
fn joined(store: &HeldSet, out: &HeldSet) -> Result<HeldSet, AllocError>
    requires { AreNewTo out.now store.now }
    ensures { IfOk result (λ all. all ≡ put_helds store.now out.now) }
{
    let mut all = out.try_clone()?;
    let room = all.room(store.len())?;
    let mut list = all.open(room);
    for held in store {
        put_in(held.try_clone()?, &mut list);
    }
    all.close(list);
    Ok(all)
}

// The conflicts in a list of versions in order.
fn grouped(alloc: Global, all: &[SharedHeld]) -> Result<Vec<Conflict>, AllocError>
    requires { are_in_order all.now ≡ true }
    ensures { IfOk result (λ list. list.items ≡ conflicts_in (entries_of all.now)) }
{
    let mut conflicts = Vec::new(alloc);
    let mut rest = all;
    while !rest.is_empty() {
        rest = add_first(alloc, rest, &mut conflicts)?;
    }
    Ok(conflicts)
}

// Adds the conflict of the first picture, if the picture has two or more versions. Returns the versions of the other
// pictures. After an error the conflict may be missing.
fn add_first<'a>(
    alloc: Global,
    all: &'a [SharedHeld],
    conflicts: &mut Vec<Conflict>,
) -> Result<&'a [SharedHeld], AllocError>
    requires some { 0 < length all.now }
    requires order { are_in_order all.now ≡ true }
    ensures added { IfOk result (λ rest. conflicts.new.items ++ conflicts_in (entries_of rest.now)
        ≡ conflicts.old.items ++ conflicts_in (entries_of all.now)) }
    ensures order { IfOk result (λ rest. are_in_order rest.now ≡ true) }
    ensures shorter { IfOk result (λ rest. length rest.now < length all.now) }
{
    let picture = all[0].picture();
    let (run, others) = all.split_at(all.partition_point(|held| held.picture() == picture));
    if run.len() > 1 {
        let versions = versions_of(alloc, run)?;
        conflicts.push(Conflict { picture, versions })?;
    }
    Ok(others)
}

// The versions of the held versions.
fn versions_of(alloc: Global, run: &[SharedHeld]) -> Result<VersionList, AllocError>
    ensures { IfOk result (λ list. list ≡ map (λ h. h.version) run.now) }
{
    let mut versions = Vec::with_capacity(alloc, run.len())?;
    for held in run {
        versions.push(held.version())?;
    }
    Ok(VersionList::new(versions))
}
