//! Why a text isn't a word or a set of words.
use thiserror::Error;

/// Why a text isn't a word or a set of words.
#[derive(Clone, Copy, Debug, PartialEq, Eq, Drop, Error)]
pub enum WordFault {
    /// A word has no character.
    #[error("Empty")]
    Empty,
    /// A word has a space, a control character, a double quote, a parenthesis or a comma.
    #[error("BadCharacter")]
    BadCharacter,
    /// A word has over 64 bytes in form C.
    #[error("TooLong")]
    TooLong,
    /// Memory was refused.
    #[error("NoMemory")]
    NoMemory,
    /// There are over 16 words.
    #[error("TooMany")]
    TooMany,
    /// A word stands in the set twice.
    #[error("Repeated")]
    Repeated,
}
