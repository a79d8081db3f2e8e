// How versions come into the store and the out of a device.
ghost use Rattle.std.specs.Prelude.{◌≡◌, ◌++◌, true, false, [], ◌∷◌, IfOk, OnOk, OnErr};
ghost use Rattle.photo_device.specs.Staging.{IsRoomFor};
ghost use Rattle.photo_device.specs.Taking.{is_on_side, with_side, AreNewTo, HasRoomFor, HasTaken, MayTake};

use crate::{HeldSet, SharedHeld};
use block_list::{GrowingList, Reservation};
use photo_filter_rules::Filter;
use std::alloc::AllocError;

/// Reserves room for taken and handed versions in each of two sets. The only error is refused memory, also for more versions
/// than can be counted.
pub(crate) fn rooms(
    store: &mut HeldSet,
    out: &mut HeldSet,
    takes: usize,
    handed: usize,
) -> Result<(Reservation<SharedHeld>, Reservation<SharedHeld>), AllocError>
    ensures store_kept { store.new ≡ store.old }
    ensures out_kept { out.new ≡ out.old }
    ensures store { IfOk result (λ rooms. IsRoomFor store.old takes handed rooms.0) }
    ensures out { IfOk result (λ rooms. IsRoomFor out.old takes handed rooms.1) }
{
    let Some(more) = takes.checked_add(handed) else {
        return Err(AllocError);
    };
    let in_store = store.room(more)?;
    let in_out = out.room(more)?;
    Ok((in_store, in_out))
}

/// Puts handed and taken versions into the store where the filter matches them, and into the out otherwise. Takes no memory:
/// both sets have room for all of them.
#[tactic(auto, using(std::proofs::lemmas::Grind::common_steps, crate::proofs::Taken::both_taken))]
pub(crate) fn take_in(
    wanted: &Filter,
    handed: Vec<SharedHeld>,
    takes: Vec<SharedHeld>,
    store: &mut HeldSet,
    in_store: Reservation<SharedHeld>,
    out: &mut HeldSet,
    in_out: Reservation<SharedHeld>,
)
    requires store { MayTake store.old handed.items takes.items in_store }
    requires out { MayTake out.old handed.items takes.items in_out }
    ensures store { store.new ≡ with_side true wanted.now (takes.items ++ handed.items) store.old }
    ensures out { out.new ≡ with_side false wanted.now (takes.items ++ handed.items) out.old }
{
    let mut stored = store.open(in_store);
    let mut waiting = out.open(in_out);
    put_all(wanted, handed, &mut stored, &mut waiting);
    put_all(wanted, takes, &mut stored, &mut waiting);
    store.close(stored);
    out.close(waiting);
}

// Puts versions into the store where the filter matches them, and into the out otherwise.
#[tactic(auto, using(std::proofs::lemmas::Grind::common_steps, crate::proofs::Taken::none_taken, crate::proofs::Taken::all_taken))]
fn put_all(
    wanted: &Filter,
    coming: Vec<SharedHeld>,
    store: &mut GrowingList<SharedHeld>,
    out: &mut GrowingList<SharedHeld>,
)
    requires store { HasRoomFor coming.items store.old }
    requires out { HasRoomFor coming.items out.old }
    ensures store { HasTaken (is_on_side true wanted.now) coming.items store.old store.new }
    ensures out { HasTaken (is_on_side false wanted.now) coming.items out.old out.new }
{
    for held in coming {
        put_one(wanted, held, store, out);
    }
}

// Puts a version into the store where the filter matches it, and into the out otherwise.
fn put_one(
    wanted: &Filter,
    held: SharedHeld,
    store: &mut GrowingList<SharedHeld>,
    out: &mut GrowingList<SharedHeld>,
)
    requires store { HasRoomFor (held ∷ []) store.old }
    requires out { HasRoomFor (held ∷ []) out.old }
    ensures store { HasTaken (is_on_side true wanted.now) (held ∷ []) store.old store.new }
    ensures out { HasTaken (is_on_side false wanted.now) (held ∷ []) out.old out.new }
{
    if wanted.matches(held.content()) {
        put_in(held, store);
    } else {
        put_in(held, out);
    }
}

/// Puts a version into a list in order that doesn't have it. Takes no memory.
pub(crate) fn put_in(held: SharedHeld, list: &mut GrowingList<SharedHeld>)
    requires { HasRoomFor (held ∷ []) list.old }
    ensures { HasTaken (λ _. true) (held ∷ []) list.old list.new }
{
    let (picture, version) = (held.picture(), held.version());
    list.insert_behind(|other: &SharedHeld| other.is_before(picture, version), held);
}

/// Puts the versions of two lists into two sets: those that the filter matches into the first, the others into the second.
/// After refused memory both sets are as they were.
pub(crate) fn sort_in(
    wanted: &Filter,
    stored: Vec<SharedHeld>,
    waiting: Vec<SharedHeld>,
    store: &mut HeldSet,
    out: &mut HeldSet,
) -> Result<(), AllocError>
    requires store_new { AreNewTo store.old (waiting.items ++ stored.items) }
    requires out_new { AreNewTo out.old (waiting.items ++ stored.items) }
    ensures store { OnOk result (store.new ≡ with_side true wanted.now (stored.items ++ waiting.items) store.old) }
    ensures out { OnOk result (out.new ≡ with_side false wanted.now (stored.items ++ waiting.items) out.old) }
    ensures store_kept { OnErr result (store.new ≡ store.old) }
    ensures out_kept { OnErr result (out.new ≡ out.old) }
{
    let (in_store, in_out) = rooms(store, out, stored.len(), waiting.len())?;
    take_in(wanted, waiting, stored, store, in_store, out, in_out);
    Ok(())
}
