//! The error of a run.
ghost use Rattle.std.specs.Prelude.{◌≡◌};
ghost use Rattle.run_error.specs.declared.error.RunError.TheVariants.{NoMemory};

use script_reader::ScriptFault;
use std::alloc::{AllocError, AllocFailed};
use thiserror::Error;

/// Why a run gave no outcome, or failed to write all its reports.
#[derive(Clone, Copy, Debug, PartialEq, Eq, Drop, Error)]
pub enum RunError {
    /// Memory was refused.
    #[error("E1 NoMemory")]
    NoMemory,
    /// No thread could be started for a worker.
    #[error("E2 NoWorker")]
    NoWorker,
    /// The order that was asked for isn't lawful.
    #[error("E3 NotLawful")]
    NotLawful,
    /// The source isn't a script, or couldn't be read.
    #[error("{0}")]
    Script(ScriptFault),
    /// The writer failed.
    #[error("E5 Write")]
    Write,
}

impl From<AllocError> for RunError {
    ghost from_gives = { λ _ e. e ≡ NoMemory };

    fn from(_: AllocError) -> RunError {
        RunError::NoMemory
    }
}

impl<T: Drop> From<AllocFailed<T>> for RunError {
    ghost from_gives = { λ _ e. e ≡ NoMemory };

    fn from(_: AllocFailed<T>) -> RunError {
        RunError::NoMemory
    }
}
