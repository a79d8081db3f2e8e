//! Sets of words.
ghost use Rattle.std.specs.Prelude.{◌≡◌, ℕ, ◌<◌, List, [], length, slice_get, Some, IfOk, IfErr, Ok, Err, IsTrue, ◌↔◌, ◌≢◌};
ghost use Rattle.std.specs.Cmp as laws;
ghost use Rattle.std.specs.Cmp.Lexicographic.{lists_per, lists_equiv, nat_list_eq_equiv};
ghost use Rattle.photo_record.specs.Word.{IsWordSet, has_word, same_words};
ghost use Rattle.photo_record.specs.Shared.{shared_words};

use crate::word_list::WordList;
use crate::{Word, WordFault};
use std::alloc::{AllocError, Global};
use std::marker::Model;
use std::sync::Arc;

/// A set of at most 16 words. Contracts see its words as a list in the order of their bytes.
///
/// A set never changes, so its copies share its words. The empty set takes no memory.
#[derive(Debug, Drop)]
pub struct Words {
    shared: Option<Arc<WordList>>,
}

impl Model for Words {
    ghost Value = { List (List ℕ) };

    ghost view = { λ w. shared_words w.shared };

    ghost invariant = { λ w. IsWordSet (shared_words w.shared) };
}

impl Words {
    ghost use Rattle.photo_record.specs.Reading.{words_of_text, MayWantMemory};
    ghost use Rattle.photo_record.specs.declared.fault.WordFault.TheVariants.{NoMemory};

    /// The set that a text denotes: `-` is the empty set, and in any other text commas separate the words.
    ///
    /// The error is the first fault from the left. At each piece `TooMany` comes first, at the 17th before it is read, then the
    /// word's own fault, then `Repeated`. `NoMemory` comes in place of what would follow.
    pub fn read(alloc: Global, text: &str) -> Result<Words, WordFault>
        ensures read { IfOk result (λ words. words_of_text text.now ≡ Ok words) }
        ensures refused { IfErr result (λ fault. fault ≢ NoMemory → words_of_text text.now ≡ Err fault) }
        ensures no_memory { result ≡ Err NoMemory → MayWantMemory text.now }
    {
        if text == "-" {
            return Ok(Words { shared: None });
        }
        let words = WordList::read(alloc, text)?;
        let Ok(shared) = Arc::new(alloc, words) else {
            return Err(WordFault::NoMemory);
        };
        Ok(Words {
            shared: Some(shared),
        })
    }

    pub(crate) fn as_slice(&self) -> &[Word]
        ensures value { result.now ≡ self.now }
        ensures set { IsWordSet self.now }
    {
        match &self.shared {
            Some(words) => words.as_slice(),
            None => &[],
        }
    }

    /// The number of words, at most 16.
    pub fn len(&self) -> usize
        ensures value { result ≡ length self.now }
        ensures set { IsWordSet self.now }
    {
        self.as_slice().len()
    }

    /// Whether the set has no words.
    pub fn is_empty(&self) -> bool
        ensures { IsTrue result ↔ (self.now ≡ []) }
    {
        self.as_slice().is_empty()
    }

    /// The word at index `i`, from 0, in the order of bytes.
    pub fn get(&self, i: usize) -> &Word
        requires { i < length self.now }
        ensures { slice_get self.now i ≡ Some result.now }
    {
        &self.as_slice()[i]
    }

    /// Whether the word is in the set.
    pub fn has(&self, word: &Word) -> bool
        ensures { result ≡ has_word self.now word.now }
    {
        self.as_slice().contains(word)
    }

    /// An equal set that shares its words with this one and takes no memory. Its only error is that over
    /// 9,223,372,036,854,775,807 sets would share them.
    pub fn try_clone(&self) -> Result<Words, AllocError>
        ensures { IfOk result (λ copy. copy ≡ self.now) }
    {
        let shared = match &self.shared {
            Some(words) => Some(Arc::try_clone(words)?),
            None => None,
        };
        Ok(Words { shared })
    }
}

impl PartialEq for Words {
    ghost eq = { same_words };

    ghost laws = { lists_per (laws.partial_equiv_from_equiv nat_list_eq_equiv) };

    fn eq(&self, other: &Words) -> bool {
        self.as_slice() == other.as_slice()
    }
}

impl Eq for Words {
    ghost laws = { lists_equiv nat_list_eq_equiv };
}
