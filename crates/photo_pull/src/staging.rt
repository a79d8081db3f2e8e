//! The half of a pull that leaves the source as it is: a pull is staged on its target, and committed later.
ghost use Rattle.std.specs.Prelude.{◌≡◌, None, IfOk, OnErr};
ghost use Rattle.photo_model.specs.Device.{ModelDevice};
ghost use Rattle.photo_model.specs.Pull.{handed, counts_of};
ghost use Rattle.photo_device.specs.Device.{Shows, IsAsItWas};
ghost use Rattle.photo_device.specs.Held.{entries_of};
ghost use Rattle.photo_pull.specs.MayPull.{MayPull};
ghost use Rattle.photo_pull.specs.Findings.{HasToPull};
ghost use Rattle.photo_pull.specs.StagedPulls.{IsStagedPull, handed_of};

use crate::PullCounts;
use crate::change::stage_found;
use crate::delta::delta_between;
use crate::news::news_of;
use photo_device::{Device, SharedHeld};
use std::alloc::{AllocError, Global};

/// A pull that is staged on its target.
#[derive(Debug, Drop)]
pub struct StagedPull {
    /// The counts of the pull.
    pub counts: PullCounts,
    /// What the source hands over. `None` where the pull changes nothing, and nothing is staged.
    pub handed: Option<Vec<SharedHeld>>,
}

/// Stages a pull from the source on the target, which holds and knows what it did until the commit. Finds what `pull` finds,
/// and wants memory where that may.
///
/// The only error is refused memory, which leaves nothing staged.
pub fn stage_pull(
    alloc: Global,
    target: &mut Device,
    source: &Device,
) -> Result<StagedPull, AllocError>
    requires { MayPull target.old source.now }
    ensures counts { IfOk result (λ found. (t s : ModelDevice) → Shows target.old t → Shows source.now s → found.counts ≡ counts_of t s) }
    ensures handed { IfOk result (λ found. (t s : ModelDevice) → Shows target.old t → Shows source.now s → entries_of (handed_of found) ≡ handed t s) }
    ensures staged { IfOk result (λ found. IsStagedPull target.old source.now found target.new) }
    ensures wanted { OnErr result (HasToPull target.old source.now) }
    ensures kept { IsAsItWas target.old target.new }
    ensures unstaged { OnErr result (target.new.staged ≡ None) }
{
    target.unstage();
    let news = news_of(alloc, target, source)?;
    let delta = delta_between(alloc, news, target, source)?;
    let counts = delta.counts(target, source);
    if delta.is_nothing(target.knowledge(), source.knowledge()) {
        return Ok(StagedPull {
            counts,
            handed: None,
        });
    }
    let handed = stage_found(alloc, delta, target, source)?;
    Ok(StagedPull {
        counts,
        handed: Some(handed),
    })
}

impl StagedPull {
    ghost use Rattle.std.specs.Prelude.{◌≡◌, None};
    ghost use Rattle.photo_model.specs.Device.{ModelDevice};
    ghost use Rattle.photo_model.specs.Pull.{pulled};
    ghost use Rattle.photo_device.specs.Device.{Kept, Shows};
    ghost use Rattle.photo_pull.specs.StagedPulls.{MayCommit, IsStagedPull};

    /// Makes the pull on the target on which it is staged. Nothing is staged afterwards. Takes no memory.
    pub fn commit(self, target: &mut Device)
        requires { MayCommit self target.old }
        ensures pulled { (d s : Kept) → IsStagedPull d s self target.old → (t m : ModelDevice) → Shows d t → Shows s m → Shows target.new (pulled t m) }
        ensures staged { target.new.staged ≡ None }
    {
        match self.handed {
            Some(handed) => target.commit(handed),
            None => target.unstage(),
        }
    }
}
