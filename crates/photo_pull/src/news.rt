// The news: what a source holds and a target doesn't know.
ghost use Rattle.std.specs.Prelude.{◌≡◌, IfOk, OnErr};
ghost use Rattle.photo_pull.specs.MayPull.{MayPull};
ghost use Rattle.photo_pull.specs.Findings.{AreReady, AreNews, IsSomething};

use photo_device::{Device, Selection};
use std::alloc::{AllocError, Global};

// Tells that two devices meet the invariant of every device.
fn are_ready(target: &Device, source: &Device)
    requires { MayPull target.now source.now }
    ensures { AreReady target.now source.now }
{
    let _known = target.knowledge();
    let _taught = source.knowledge();
}

/// The source's versions that the target doesn't know. The target caches which versions it was found to know; its knowledge
/// stays. The only error is refused memory.
pub(crate) fn news_of(
    alloc: Global,
    target: &mut Device,
    source: &Device,
) -> Result<Selection, AllocError>
    requires { MayPull target.old source.now }
    ensures news { IfOk result (λ news. AreNews target.old source.now news) }
    ensures wanted { OnErr result (IsSomething target.old source.now) }
    ensures kept { target.new ≡ target.old }
{
    are_ready(target, source);
    let stored = target.unknown_of(alloc, source.store())?;
    let waiting = target.unknown_of(alloc, source.out())?;
    Ok(Selection { stored, waiting })
}

/// Does what `news_of` does, with no change of the target's cache.
pub(crate) fn news_by(
    alloc: Global,
    target: &Device,
    source: &Device,
) -> Result<Selection, AllocError>
    requires { MayPull target.now source.now }
    ensures news { IfOk result (λ news. AreNews target.now source.now news) }
    ensures wanted { OnErr result (IsSomething target.now source.now) }
{
    are_ready(target, source);
    let stored = target.unknown_by(alloc, source.store())?;
    let waiting = target.unknown_by(alloc, source.out())?;
    Ok(Selection { stored, waiting })
}
