//! Words that an alternative requires or forbids.
ghost use Rattle.std.specs.Prelude.{◌≡◌, IfOk};
ghost use Rattle.std.specs.List.{list_all, list_any};
ghost use Rattle.photo_record.specs.Word.{has_word};
ghost use Rattle.photo_filter_rules.specs.Alternatives.{both_sets};

use crate::copies::copied;
use photo_record::{Word, Words};
use std::alloc::AllocError;

/// The union of two sets of words: the first set, then the new words of the second. Its only error is want of memory.
pub fn both_sets(words: &Vec<Word>, others: &Vec<Word>) -> Result<Vec<Word>, AllocError>
    ensures { IfOk result (λ union. union.items ≡ both_sets words.now.items others.now.items) }
{
    let mut union = copied(words)?;
    for word in others {
        if words.contains(word) {
            continue;
        }
        union.push(word.try_clone()?)?;
    }
    Ok(union)
}

/// Whether a picture's words include all wanted words.
pub fn has_all(words: &Words, wanted: &[Word]) -> bool
    ensures { result ≡ list_all (has_word words.now) wanted.now }
{
    wanted.iter().all(|word| words.has(word))
}

/// Whether a picture's words include at least one wanted word.
pub fn has_any(words: &Words, wanted: &[Word]) -> bool
    ensures { result ≡ list_any (has_word words.now) wanted.now }
{
    wanted.iter().any(|word| words.has(word))
}

/// Whether the two sets have a word in common.
pub fn meets(words: &[Word], others: &[Word]) -> bool
    ensures { result ≡ list_any (has_word others.now) words.now }
{
    words.iter().any(|word| others.contains(word))
}

/// Whether the words include all wanted words.
pub fn contain_all(words: &[Word], wanted: &[Word]) -> bool
    ensures { result ≡ list_all (has_word words.now) wanted.now }
{
    wanted.iter().all(|word| words.contains(word))
}
