// What a device holds, sorted again for another filter.
ghost use Rattle.std.specs.Prelude.{◌≡◌, ℕ, ◌<◌, ◌||◌, true, false, None, filter, IfOk, OnOk, OnErr};
ghost use Rattle.std.specs.List.{AllByRecursion};
ghost use Rattle.photo_filter_rules.specs.Matching.{matches};
ghost use Rattle.photo_version.specs.Author.{Author};
ghost use Rattle.photo_version.specs.Version.{Version};
ghost use Rattle.item_knowledge.specs.Fragments.{knows};
ghost use Rattle.item_knowledge.specs.Kept.{star_bound};
ghost use Rattle.photo_device.specs.Held.{are_in_order};
ghost use Rattle.photo_device.specs.Own.{HasEarlier};
ghost use Rattle.photo_device.specs.Resorted.{IsResorted};
ghost use Rattle.photo_device.specs.Taking.{with_side, AreNewTo};
ghost use Rattle.photo_device.specs.Telling.{tells};

use crate::takes::sort_in;
use crate::{HeldSet, SharedHeld, SharedList, told_by};
use item_knowledge::Knowledge;
use photo_filter_rules::Filter;
use std::alloc::{AllocError, Global};

/// What two sets hold, sorted again by a filter, and what the versions tell.
#[derive(Debug, Drop)]
pub(crate) struct Resorted {
    /// The versions that the filter matches.
    pub store: HeldSet,
    /// The other versions.
    pub out: HeldSet,
    /// Exactly what all versions tell of their pictures.
    pub told: Knowledge,
}

// Tells that a set is in order.
fn is_in_order(set: &HeldSet)
    ensures { are_in_order set.now ≡ true }
{
    let _blocks = set.blocks();
}

/// The held versions of a set as a list. The only error is refused memory.
pub(crate) fn listed(set: &HeldSet) -> Result<SharedList, AllocError>
    ensures value { IfOk result (λ list. list ≡ set.now) }
    ensures ordered { are_in_order set.now ≡ true }
{
    is_in_order(set);
    set.to_list()
}

// Exactly what two lists tell, as a knowledge. The only error is refused memory.
fn knowledge_of(
    alloc: Global,
    stored: &[SharedHeld],
    waiting: &[SharedHeld],
) -> Result<Knowledge, AllocError>
    requires stored_order { are_in_order stored.now ≡ true }
    requires waiting_order { are_in_order waiting.now ≡ true }
    requires stored { AllByRecursion HasEarlier stored.now }
    requires waiting { AllByRecursion HasEarlier waiting.now }
    ensures pairs { IfOk result (λ told. (p : ℕ) (v : Version) → 0 < p
        → knows told.known p v ≡ (tells stored.now p v || tells waiting.now p v)) }
    ensures star { IfOk result (λ told. (a : Author) → star_bound told.known a ≡ 0) }
    ensures staged { IfOk result (λ told. told.staged ≡ None) }
{
    let told = told_by(alloc, stored, waiting)?;
    let mut knowledge = Knowledge::new(alloc)?;
    knowledge.stage_told(&told)?;
    knowledge.commit();
    Ok(knowledge)
}

/// Sorts what two sets hold by a filter into two new sets, and collects what it tells. The only error is refused memory.
pub(crate) fn resort(
    wanted: &Filter,
    store: &HeldSet,
    out: &HeldSet,
) -> Result<Resorted, AllocError>
    requires once { AreNewTo out.now store.now }
    requires stored { AllByRecursion HasEarlier store.now }
    requires waiting { AllByRecursion HasEarlier out.now }
    ensures { IfOk result (λ resorted. IsResorted wanted.now store.now out.now resorted) }
{
    let alloc = store.alloc();
    let stored = listed(store)?;
    let waiting = listed(out)?;
    let told = knowledge_of(alloc, stored.as_slice(), waiting.as_slice())?;
    let mut resorted = Resorted {
        store: HeldSet::new(alloc),
        out: HeldSet::new(alloc),
        told,
    };
    sort_in(
        wanted,
        stored.into_vec(),
        waiting.into_vec(),
        &mut resorted.store,
        &mut resorted.out,
    )?;
    Ok(resorted)
}

/// Sorts what a store holds by a filter. Returns the set of versions that the filter matches; the others come into the out.
/// After refused memory the out is as it was.
#[tactic(auto, using(crate::proofs::Changed::kept_resorted, crate::proofs::Changed::new_alone))]
pub(crate) fn narrowed(
    wanted: &Filter,
    store: &HeldSet,
    out: &mut HeldSet,
) -> Result<HeldSet, AllocError>
    requires { AreNewTo out.old store.now }
    ensures kept { IfOk result (λ kept. kept ≡ filter (λ h. matches wanted.now h.content) store.now) }
    ensures out { OnOk result (out.new ≡ with_side false wanted.now store.now out.old) }
    ensures err { OnErr result (out.new ≡ out.old) }
{
    let alloc = store.alloc();
    let stored = listed(store)?;
    let mut kept = HeldSet::new(alloc);
    sort_in(wanted, stored.into_vec(), Vec::new(alloc), &mut kept, out)?;
    Ok(kept)
}
