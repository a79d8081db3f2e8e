// The counts that a pull would have.
ghost use Rattle.std.specs.Prelude.{◌≡◌, false, IfOk, OnErr};
ghost use Rattle.photo_model.specs.Device.{ModelDevice};
ghost use Rattle.photo_device.specs.Device.{Shows};
ghost use Rattle.photo_model.specs.Pull.{counts_of, is_up_to_date};
ghost use Rattle.photo_pull.specs.MayPull.{MayPull};

use crate::PullCounts;
use crate::delta::delta_between;
use crate::news::news_by;
use photo_device::Device;
use std::alloc::{AllocError, Global};

/// The counts of a pull of the target from the source. The preview finds them as the pull does, and changes neither device.
///
/// The only error is refused memory. No memory is wanted where the target knows all that the source holds, and stores nothing
/// stale.
#[tactic(auto, using(crate::proofs::Wanted::out_of_date))]
pub fn preview(alloc: Global, target: &Device, source: &Device) -> Result<PullCounts, AllocError>
    requires { MayPull target.now source.now }
    ensures counts { IfOk result (λ counts. (t s : ModelDevice) → Shows target.now t → Shows source.now s → counts ≡ counts_of t s) }
    ensures wanted { OnErr result ((t s : ModelDevice) → Shows target.now t → Shows source.now s → is_up_to_date t s ≡ false) }
{
    let news = news_by(alloc, target, source)?;
    let delta = delta_between(alloc, news, target, source)?;
    Ok(delta.counts(target, source))
}
