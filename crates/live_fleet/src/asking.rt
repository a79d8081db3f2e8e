// Questions to a fleet about two of its devices.
ghost use Rattle.std.specs.Prelude.{◌≡◌, ◌≢◌, ◌<◌, List, length, IfOk};
ghost use Rattle.std.specs.List.{AllZip};
ghost use Rattle.photo_model.specs.Device.{ModelDevice};
ghost use Rattle.photo_device.specs.Device.{Shows};
ghost use Rattle.photo_model.specs.Pull.{counts_of};
ghost use Rattle.fleet_model.specs.Runs.{device_at};
ghost use Rattle.fleet_steps.specs.Between.{AreReady};

use photo_device::Device;
use photo_pull::{PullCounts, preview};
use std::alloc::{AllocError, Global};

/// Counts what a pull by the target from the source would move. Its only error is want of memory.
pub(crate) fn preview_between(
    alloc: Global,
    devices: &[Device],
    target: usize,
    source: usize,
) -> Result<PullCounts, AllocError>
    requires target { target < length devices.now }
    requires source { source < length devices.now }
    requires differ { source ≢ target }
    requires ready { AreReady devices.now }
    ensures { IfOk result (λ counts. (models : List ModelDevice) → AllZip Shows devices.now models
        → counts ≡ counts_of (device_at models target) (device_at models source)) }
{
    let counts = preview(alloc, &devices[target], &devices[source])?;
    Ok(counts)
}
