//! What a target drops, takes and learns, and how this is staged.
ghost use Rattle.std.specs.Prelude.{◌≡◌, ℕ, ◌<◌, ◌||◌, true, not, None, IfOk, IfSome, OnOk, OnErr};
ghost use Rattle.std.specs.List.{AllByRecursion};
ghost use Rattle.std.specs.Option.{is_some};
ghost use Rattle.photo_version.specs.Version.{Version};
ghost use Rattle.item_knowledge.specs.Fragments.{knows};
ghost use Rattle.photo_device.specs.Device.{IsAsItWas};
ghost use Rattle.photo_device.specs.Held.{are_in_order};
ghost use Rattle.photo_device.specs.Own.{HasEarlier};
ghost use Rattle.photo_device.specs.Staging.{gained};
ghost use Rattle.photo_device.specs.Telling.{tells};
ghost use Rattle.photo_pull.specs.OnHeld.{new_waiting};
ghost use Rattle.photo_pull.specs.Findings.{IsDelta, HasStagedPull};

use crate::delta::PullDelta;
use crate::filtered::taken_of;
use item_knowledge::Told;
use photo_device::{Change, Device, Gain, SharedHeld, SharedList, told_by};
use std::alloc::{AllocError, Global};

// What the news tells, if the target doesn't learn all that the source knows.
fn told_of(alloc: Global, delta: &PullDelta) -> Result<Option<Told>, AllocError>
    requires heard_order { are_in_order delta.now.heard.items ≡ true }
    requires handed_order { are_in_order delta.now.handed.items ≡ true }
    requires heard { AllByRecursion HasEarlier delta.now.heard.items }
    requires handed { AllByRecursion HasEarlier delta.now.handed.items }
    ensures told { IfOk result (λ some. IfSome some (λ told. (p : ℕ) (v : Version) → 0 < p
        → knows told p v ≡ (tells delta.now.heard.items p v || tells delta.now.handed.items p v))) }
    ensures learned { IfOk result (λ some. is_some some ≡ not delta.now.learned) }
{
    if delta.learned {
        return Ok(None);
    }
    Ok(Some(told_by(alloc, &delta.heard, &delta.handed)?))
}

// What the target learns: what the news tells, or else all that the source knows.
fn gain_of<'a>(told: &'a Option<Told>, source: &'a Device) -> Gain<'a>
    ensures told { IfSome told.now (λ gain. gained result ≡ gain) }
    ensures all { told.now ≡ None → gained result ≡ source.now.knowledge }
{
    match told {
        Some(told) => Gain::Told(told),
        None => Gain::Known(source.knowledge()),
    }
}

/// Stages a delta on the target, and returns the versions of the source's out that it takes. The source's knowledge is lent and
/// not copied. The only error is refused memory, which leaves nothing staged.
pub(crate) fn stage_found(
    alloc: Global,
    delta: PullDelta,
    target: &mut Device,
    source: &Device,
) -> Result<Vec<SharedHeld>, AllocError>
    requires delta { IsDelta target.old source.now delta }
    requires unstaged { target.old.staged ≡ None }
    ensures staged { OnOk result (HasStagedPull target.old source.now target.new) }
    ensures handed { IfOk result (λ handed. handed.items ≡ new_waiting target.old source.now) }
    ensures err { OnErr result (IsAsItWas target.old target.new) }
    ensures unstaged { OnErr result (target.new.staged ≡ None) }
{
    let told = told_of(alloc, &delta)?;
    let PullDelta {
        dropped,
        heard,
        handed,
        ..
    } = delta;
    let takes = SharedList::new(taken_of(target.filter(), heard));
    let gain = gain_of(&told, source);
    let change = Change {
        drops: dropped,
        takes,
        gain,
    };
    match target.stage(change, handed.len()) {
        Ok(()) => Ok(handed),
        Err((_, refused)) => Err(refused),
    }
}
