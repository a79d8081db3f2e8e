//! The texts that answers are shown as, and texts of repeated pieces.
use std::alloc::{AllocError, Global};
use std::fmt::Display;

/// Whether a value's text is `text`.
pub fn is_shown<D: Display>(alloc: Global, value: &D, text: &str) -> bool {
    match value.to_string(alloc) {
        Ok(shown) => shown.as_str() == text,
        Err(_) => false,
    }
}

/// Whether the text of the value that was read, or of the fault, is `text`.
pub fn is_answer<T: Display, E: Display>(alloc: Global, answer: &Result<T, E>, text: &str) -> bool {
    match answer {
        Ok(value) => is_shown(alloc, value, text),
        Err(fault) => is_shown(alloc, fault, text),
    }
}

/// The pieces of a text, each with how often it is repeated.
pub type Pieces = &'static [(&'static str, usize)];

fn push_times(text: &mut String, piece: &str, times: usize) -> Result<(), AllocError> {
    for _ in 0..times {
        text.push_str(piece)?;
    }
    Ok(())
}

/// Appends the pieces one after another.
pub fn push_pieces(text: &mut String, pieces: Pieces) -> Result<(), AllocError> {
    for (piece, times) in pieces {
        push_times(text, piece, *times)?;
    }
    Ok(())
}
