//! Why a text isn't a filter.
use thiserror::Error;

/// Why a text isn't a filter: the first fault that `read` meets, in its order.
#[derive(Clone, Copy, Debug, PartialEq, Eq, Drop, Error)]
pub enum FilterFault {
    /// The text has no token.
    #[error("Empty")]
    Empty,
    /// No filter begins with the tokens up to this one, counted from 1. It is a bracket, or it stands where no word has to
    /// come.
    #[error("Unexpected {0}")]
    Unexpected(usize),
    /// The tokens begin a filter but aren't one.
    #[error("EndsEarly")]
    EndsEarly,
    /// The tree's height is over 32.
    #[error("TooDeep")]
    TooDeep,
    /// There are over 256 tokens.
    #[error("TooManyTokens")]
    TooManyTokens,
    /// A token other than a bracket stands where a word must come, and it isn't a word.
    #[error("BadWord")]
    BadWord,
    /// Memory was refused.
    #[error("NoMemory")]
    NoMemory,
}
