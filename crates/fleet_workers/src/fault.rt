// Why a run by workers gave no outcome.
ghost use Rattle.std.specs.Prelude.{◌≡◌};
ghost use Rattle.fleet_workers.specs.declared.fault.WorkersError.TheVariants.{NoMemory};

use std::alloc::{AllocError, AllocFailed};
use thiserror::Error;

/// Why a run by workers gave no outcome.
#[derive(Clone, Copy, Debug, PartialEq, Eq, Drop, Error)]
pub enum WorkersError {
    /// Memory was refused.
    #[error("memory was refused")]
    NoMemory,
    /// No thread could be started for a worker.
    #[error("no thread could be started")]
    NoWorker,
}

impl From<AllocError> for WorkersError {
    ghost from_gives = { λ _ e. e ≡ NoMemory };

    fn from(_: AllocError) -> WorkersError {
        WorkersError::NoMemory
    }
}

impl<T: Drop> From<AllocFailed<T>> for WorkersError {
    ghost from_gives = { λ _ e. e ≡ NoMemory };

    fn from(_: AllocFailed<T>) -> WorkersError {
        WorkersError::NoMemory
    }
}
