// Why a device refuses a change or a filter.
ghost use Rattle.std.specs.Prelude.{◌≡◌};
ghost use Rattle.photo_device.specs.declared.fault.ChangeFault.TheVariants.{NoMemory};

use std::alloc::AllocError;
use thiserror::Error;

/// Why a device did not make a version.
#[derive(Clone, Copy, Debug, PartialEq, Eq, Drop, Error)]
pub enum ChangeFault {
    /// The device holds nothing of the picture.
    #[error("C1 NotHeld")]
    NotHeld,
    /// Memory was refused.
    #[error("NoMemory")]
    NoMemory,
}

impl From<AllocError> for ChangeFault {
    ghost from_gives = { λ _ e. e ≡ NoMemory };

    fn from(_: AllocError) -> ChangeFault {
        ChangeFault::NoMemory
    }
}

/// Why a device did not narrow.
#[derive(Clone, Copy, Debug, PartialEq, Eq, Drop, Error)]
pub enum NarrowFault {
    /// The device's filter doesn't cover the new one.
    #[error("C2 NotNarrower")]
    NotNarrower,
    /// Memory was refused.
    #[error("NoMemory")]
    NoMemory,
}
