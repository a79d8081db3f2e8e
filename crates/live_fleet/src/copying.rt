// Copies of a fleet's devices and log.
ghost use Rattle.std.specs.Prelude.{◌≡◌, map, IfOk};
ghost use Rattle.photo_device.specs.Device.{unstaged};

use photo_device::{Device, Held};
use std::alloc::{AllocError, Global};

/// Copies the devices, without what is staged on them. Its only error is want of memory.
pub(crate) fn devices_copied(alloc: Global, devices: &[Device]) -> Result<Vec<Device>, AllocError>
    ensures { IfOk result (λ copies. copies.items ≡ map unstaged devices.now) }
{
    let mut copies = Vec::with_capacity(alloc, devices.len())?;
    for device in devices {
        copies.push(device.try_clone()?)?;
    }
    Ok(copies)
}

/// Copies the log, with the same versions. Its only error is want of memory.
pub(crate) fn log_copied(alloc: Global, log: &[Held]) -> Result<Vec<Held>, AllocError>
    ensures { IfOk result (λ copies. copies.items ≡ log.now) }
{
    let mut copies = Vec::with_capacity(alloc, log.len())?;
    for held in log {
        copies.push(held.try_clone()?)?;
    }
    Ok(copies)
}
