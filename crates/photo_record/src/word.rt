//! Words in form C.
ghost use Rattle.std.specs.Prelude.{◌≡◌, ◌≢◌, ℕ, List, [], string_bytes, IfOk, IfErr, Ok, Err, Some, refl};
ghost use Rattle.std.specs.Cmp as laws;
ghost use Rattle.std.specs.Cmp.Lexicographic.{slice_cmp, nat_list_eq_equiv, nat_list_cmp_total, texts_po, texts_ties};
ghost use Rattle.std.specs.Ordering.{nat_cmp};
ghost use Rattle.std.specs.List.{list_any};
ghost use Rattle.std.specs.Str.{chars, bytes_eq};
ghost use Rattle.photo_record.specs.Word.{IsWord, is_bad_character};

use crate::WordFault;
use std::alloc::{AllocError, Global};
use std::cmp::Ordering;
use std::marker::Model;
use unicode_normalization::to_nfc;

// The most bytes of a word in form C.
const MAX_WORD_BYTES: usize = 64;

/// A word in Unicode's normalization form C. Contracts see its UTF-8 bytes, and words are ordered by these bytes.
#[derive(Debug, Drop)]
pub struct Word {
    text: String,
}

impl Model for Word {
    ghost Value = { List ℕ };

    ghost view = { λ w. string_bytes w.text };

    ghost invariant = { λ w. IsWord (string_bytes w.text) };
}

impl Word {
    ghost use Rattle.photo_record.specs.Reading.{word_of_text};
    ghost use Rattle.photo_record.specs.declared.fault.WordFault.TheVariants.{NoMemory};

    /// The word that a text denotes: its form C.
    ///
    /// The error is the first of `Empty`, `BadCharacter` and `TooLong` that holds of the form. `NoMemory` comes only while the
    /// form is made, so never for an empty text.
    pub fn read(alloc: Global, text: &str) -> Result<Word, WordFault>
        ensures read { IfOk result (λ word. word_of_text text.now ≡ Ok word) }
        ensures refused { IfErr result (λ fault. fault ≢ NoMemory → word_of_text text.now ≡ Err fault) }
        ensures no_memory { result ≡ Err NoMemory → text.now ≢ [] }
    {
        if text.is_empty() {
            return Err(WordFault::Empty);
        }
        let Ok(form) = to_nfc(alloc, text) else {
            return Err(WordFault::NoMemory);
        };
        if has_bad_character(&form) {
            return Err(WordFault::BadCharacter);
        }
        if form.len() > MAX_WORD_BYTES {
            return Err(WordFault::TooLong);
        }
        Ok(Word { text: form })
    }

    /// The text, in form C.
    pub fn text(&self) -> &str
        ensures text { result.now ≡ self.now }
        ensures word { IsWord result.now }
    {
        &self.text
    }

    /// An equal word. Its only error is `AllocError`, for want of memory.
    pub fn try_clone(&self) -> Result<Word, AllocError>
        ensures { IfOk result (λ copy. copy ≡ self.now) }
    {
        Ok(Word {
            text: self.text.clone()?,
        })
    }
}

fn has_bad_character(form: &str) -> bool
    ensures { result ≡ list_any is_bad_character (chars form.now) }
{
    form.chars().any(is_bad_character)
}

fn is_bad_character(c: char) -> bool
    ensures { result ≡ is_bad_character c }
{
    c <= ' ' || ('\u{7f}'..='\u{9f}').contains(&c) || matches!(c, '"' | '(' | ')' | ',')
}

impl PartialEq for Word {
    ghost eq = { bytes_eq };

    ghost laws = { laws.partial_equiv_from_equiv nat_list_eq_equiv };

    fn eq(&self, other: &Word) -> bool {
        self.text.as_str() == other.text.as_str()
    }
}

impl Eq for Word {
    ghost laws = { nat_list_eq_equiv };
}

impl PartialOrd for Word {
    ghost partial_cmp = { λ v w. Some (slice_cmp nat_cmp v w) };

    ghost laws = { texts_po };

    fn partial_cmp(&self, other: &Word) -> Option<Ordering> {
        Some(self.cmp(other))
    }
}

impl Ord for Word {
    ghost cmp = { slice_cmp nat_cmp };

    ghost total = { nat_list_cmp_total };

    ghost matches_partial_cmp = { λ v w. refl };

    ghost matches_eq = { texts_ties };

    fn cmp(&self, other: &Word) -> Ordering {
        self.text.as_str().cmp(other.text.as_str())
    }
}
