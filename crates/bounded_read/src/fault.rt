//! Why a source isn't read.
use std::io;
use thiserror::Error;

/// Why a source isn't read.
#[derive(Debug, Drop, Error)]
pub enum ReadFault {
    /// The reader failed, also by an interrupted call.
    #[error("the source can't be read")]
    Failed(io::Error),
    /// The source has more bytes than the limit.
    #[error("the source is too large")]
    TooLarge,
    /// Memory was refused.
    #[error("memory was refused")]
    NoMemory,
}
