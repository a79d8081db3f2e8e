//! The words of a set while it is read.
ghost use Rattle.std.specs.Prelude.{◌≡◌, ℕ, false, ◌<◌, List, [], length, IfOk, IfErr, OnOk, Ok, Err, ◌≢◌};
ghost use Rattle.photo_record.specs.Limits.{max_words};
ghost use Rattle.photo_record.specs.Word.{IsWordSet};

use crate::{Word, WordFault};
use std::alloc::Global;
use std::marker::Model;

// The most words of one set.
const MAX_WORDS: usize = 16;

// The words read so far, in the order of their bytes.
#[derive(Debug, Drop)]
pub(crate) struct WordList {
    items: Vec<Word>,
}

impl Model for WordList {
    ghost Value = { List (List ℕ) };

    ghost view = { λ w. w.items.items };

    ghost invariant = { λ w. IsWordSet w.items.items };
}

impl WordList {
    ghost use Rattle.photo_record.specs.Reading.{words_of_text, with_piece, is_dash, MayWantMemory};
    ghost use Rattle.photo_record.specs.declared.fault.WordFault.TheVariants.{NoMemory};

    // Reads the words between the text's commas. The text isn't `-`, which denotes the empty set.
    pub(crate) fn read(alloc: Global, text: &str) -> Result<WordList, WordFault>
        requires { is_dash text.now ≡ false }
        ensures read { IfOk result (λ words. words_of_text text.now ≡ Ok words) }
        ensures refused { IfErr result (λ fault. fault ≢ NoMemory → words_of_text text.now ≡ Err fault) }
        ensures no_memory { result ≡ Err NoMemory → MayWantMemory text.now }
    {
        let mut words = WordList {
            items: Vec::new(alloc),
        };
        for piece in text.split(',') {
            words.add_piece(alloc, piece)?;
        }
        Ok(words)
    }

    fn add_piece(&mut self, alloc: Global, piece: &str) -> Result<(), WordFault>
        ensures ok { OnOk result (with_piece self.old piece.now ≡ Ok self.new) }
        ensures refused { IfErr result (λ fault. fault ≢ NoMemory → with_piece self.old piece.now ≡ Err fault) }
        ensures room { result ≡ Err NoMemory → length self.old < max_words }
        ensures piece { result ≡ Err NoMemory → piece.now ≢ [] }
    {
        if self.items.len() >= MAX_WORDS {
            return Err(WordFault::TooMany);
        }
        let word = Word::read(alloc, piece)?;
        let Err(place) = self.items.binary_search(&word) else {
            return Err(WordFault::Repeated);
        };
        if self.items.insert(place, word).is_err() {
            return Err(WordFault::NoMemory);
        }
        Ok(())
    }

    pub(crate) fn as_slice(&self) -> &[Word]
        ensures value { result.now ≡ self.now }
        ensures set { IsWordSet self.now }
    {
        &self.items
    }
}
