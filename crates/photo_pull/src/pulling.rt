// A pull.
ghost use Rattle.std.specs.Prelude.{◌≡◌, None, IfOk, OnOk, OnErr};
ghost use Rattle.photo_model.specs.Device.{ModelDevice};
ghost use Rattle.photo_device.specs.Device.{Shows, IsAsItWas};
ghost use Rattle.photo_pull.specs.MayPull.{MayPull};
ghost use Rattle.photo_model.specs.Pull.{pulled, handed_over, counts_of};
ghost use Rattle.photo_pull.specs.Findings.{HasToPull};

use crate::PullCounts;
use crate::staging::stage_pull;
use photo_device::Device;
use std::alloc::{AllocError, Global};

/// Pulls from the source to the target. The target takes the versions that it doesn't know and that its filter matches,
/// and all unknown versions of the source's out. It learns these with their history and, if the source's filter covers
/// its own, all that the source knows. It drops each held version that one of the new versions supersedes, a noticed one
/// among them. If the source's filter covers its own, it also drops from its store what the source knows and doesn't store.
///
/// The only error is refused memory, which leaves both devices as they were. No memory is wanted where the target knows all
/// that the source holds, has nothing to drop, and would learn nothing. An unknown version of the source may want memory even
/// where the target's filter leaves it out and nothing moves. Nothing is staged on either device after any result.
///
/// Whatever may want memory comes before either device changes. The change is staged on the target, the handed versions
/// leave the source's out, and the target commits the change with them.
pub fn pull(
    alloc: Global,
    target: &mut Device,
    source: &mut Device,
) -> Result<PullCounts, AllocError>
    requires { MayPull target.old source.old }
    ensures target { OnOk result ((t s : ModelDevice) → Shows target.old t → Shows source.old s → Shows target.new (pulled t s)) }
    ensures source { OnOk result ((t s : ModelDevice) → Shows target.old t → Shows source.old s → Shows source.new (handed_over t s)) }
    ensures counts { IfOk result (λ counts. (t s : ModelDevice) → Shows target.old t → Shows source.old s → counts ≡ counts_of t s) }
    ensures wanted { OnErr result (HasToPull target.old source.old) }
    ensures target_kept { OnErr result (IsAsItWas target.old target.new) }
    ensures source_kept { OnErr result (IsAsItWas source.old source.new) }
    ensures target_unstaged { target.new.staged ≡ None }
    ensures source_unstaged { source.new.staged ≡ None }
{
    source.unstage();
    let found = stage_pull(alloc, target, source)?;
    let counts = found.counts;
    if let Some(handed) = &found.handed {
        source.hand_over(handed);
    }
    found.commit(target);
    Ok(counts)
}
