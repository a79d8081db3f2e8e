// Why a replay gave no outcome.
ghost use Rattle.std.specs.Prelude.{◌≡◌};
ghost use Rattle.fleet_steps.specs.declared.fault.ReplayError.TheVariants.{NoMemory};

use std::alloc::AllocError;
use thiserror::Error;

/// Why a run in a given order gave no outcome.
#[derive(Clone, Copy, Debug, PartialEq, Eq, Drop, Error)]
pub enum ReplayError {
    /// Memory was refused.
    #[error("memory was refused")]
    NoMemory,
    /// The order isn't lawful.
    #[error("the order isn't lawful")]
    NotLawful,
}

impl From<AllocError> for ReplayError {
    ghost from_gives = { λ _ e. e ≡ NoMemory };

    fn from(_: AllocError) -> ReplayError {
        ReplayError::NoMemory
    }
}
