// A device that is cheap to move.
use photo_device::Device;
use std::alloc::{AllocError, Global};
use std::marker::Model;

// A device in a box, so that moving it between owners doesn't move it in memory. Contracts see the device.
#[derive(Debug, Drop)]
pub(crate) struct Parcel {
    pub(crate) device: Box<Device>,
}

impl Model for Parcel {
    ghost use Rattle.photo_device.specs.Device.{Kept};
    ghost use Rattle.photo_device.specs.Coding.{kept_code};

    ghost Value = { Kept };

    ghost coded = { kept_code };

    ghost view = { λ p. p.device.value };
}

impl Parcel {
    ghost use Rattle.std.specs.Prelude.{◌≡◌, IfOk};

    // Puts a device into a box.
    pub(crate) fn new(alloc: Global, device: Device) -> Result<Parcel, AllocError>
        ensures { IfOk result (λ parcel. parcel ≡ device) }
    {
        Ok(Parcel {
            device: Box::new(alloc, device)?,
        })
    }

    // Takes the device out of the box.
    pub(crate) fn open(self) -> Device
        ensures { result ≡ self }
    {
        Box::into_inner(self.device)
    }
}
