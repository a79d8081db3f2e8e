// Why a session refuses a call.
ghost use Rattle.std.specs.Prelude.{◌≡◌};
ghost use Rattle.live_fleet.specs.declared.fault.FleetFault.TheVariants.{NoMemory};

use std::alloc::AllocError;
use thiserror::Error;

/// Why a session refuses a call.
#[derive(Clone, Copy, Debug, PartialEq, Eq, Drop, Error)]
pub enum FleetFault {
    /// Memory was refused.
    #[error("NoMemory")]
    NoMemory,
    /// The call names a device that isn't there, or the same device twice.
    #[error("NoDevice")]
    NoDevice,
    /// The script has no command of that number, or another number of devices than the fleet.
    #[error("NoCommand")]
    NoCommand,
    /// No room is left: 4,294,967,295 commands have run, or there would be more than 65,536 devices.
    #[error("Full")]
    Full,
}

impl From<AllocError> for FleetFault {
    ghost from_gives = { λ _ e. e ≡ NoMemory };

    fn from(_: AllocError) -> FleetFault {
        FleetFault::NoMemory
    }
}
