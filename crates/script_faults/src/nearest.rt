//! The name nearest to a word, out of several names.
use crate::cause::Known;
use std::alloc::{AllocError, Global};
use strsim::levenshtein;

/// The name nearest to a word so far.
#[derive(Clone, Copy)]
pub struct Nearest<'a> {
    name: Option<&'a str>,
    distance: usize,
}

impl<'a> Nearest<'a> {
    /// Before any name was tried.
    pub fn new() -> Nearest<'a> {
        Nearest {
            name: None,
            distance: 3,
        }
    }

    /// Tries one more name.
    pub fn try_name(&mut self, alloc: Global, word: &str, name: &'a str) -> Result<(), AllocError> {
        let distance = levenshtein(alloc, word, name)?;
        if distance < self.distance && distance < word.chars().count() {
            self.name = Some(name);
            self.distance = distance;
        }
        Ok(())
    }

    /// What is known of a word that isn't any of the names.
    pub fn known(&self, word: &str) -> Known<'a> {
        match self.name {
            Some(name) if name != word => Known::Near(name),
            _ => Known::Nothing,
        }
    }
}
