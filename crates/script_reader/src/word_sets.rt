// Caches sets of words, so that lines with equal texts share one set.
ghost use Rattle.std.specs.Prelude.{◌≡◌, ◌≢◌, ℕ, ◌<◌, ◌≤◌, length, IfOk, IfErr, Ok, Err};
ghost use Rattle.script_reader.specs.Sharing.{AreKept, max_texts};

use indexmap::IndexMap;
use photo_record::{WordFault, Words};
use std::alloc::{AllocError, Global};
use std::marker::Model;

// The most texts that the cache keeps.
const MAX_TEXTS: usize = 4096;

/// A cache of sets of words by their texts, so that lines with equal texts share one set. Contracts see how many it keeps.
#[derive(Drop)]
pub(crate) struct WordSets {
    alloc: Global,
    sets: IndexMap<String, Words>,
}

impl Model for WordSets {
    ghost Value = { ℕ };

    ghost view = { λ s. length s.sets.entries };

    ghost invariant = { λ s. AreKept s.sets.entries };
}

impl WordSets {
    ghost use Rattle.photo_record.specs.Reading.{words_of_text};
    ghost use Rattle.photo_record.specs.declared.fault.WordFault.TheVariants.{NoMemory};

    /// Makes an empty cache. It takes no memory.
    pub(crate) fn new(alloc: Global) -> WordSets
        ensures { result ≡ 0 }
    {
        WordSets {
            alloc,
            sets: IndexMap::new(alloc),
        }
    }

    /// Gives the set that a text denotes, as `Words::read` does. It is shared with the earlier lines that have the same text, if
    /// the cache has it; the cache keeps at most 4,096 texts.
    pub(crate) fn read(&mut self, text: &str) -> Result<Words, WordFault>
        ensures read { IfOk result (λ words. words_of_text text.now ≡ Ok words) }
        ensures refused { IfErr result (λ fault. fault ≢ NoMemory → words_of_text text.now ≡ Err fault) }
        ensures few { self.new ≤ max_texts }
    {
        if let Some(words) = self.sets.get(text) {
            let Ok(shared) = words.try_clone() else {
                return Err(WordFault::NoMemory);
            };
            return Ok(shared);
        }
        let words = Words::read(self.alloc, text)?;
        if self.sets.len() < MAX_TEXTS && self.keep(text, &words).is_err() {
            return Err(WordFault::NoMemory);
        }
        Ok(words)
    }

    // Caches the set that a text denotes; after an error it isn't cached.
    fn keep(&mut self, text: &str, words: &Words) -> Result<(), AllocError>
        requires said { words_of_text text.now ≡ Ok words.now }
        requires room { self.old < max_texts }
        ensures few { self.new ≤ max_texts }
    {
        let words = words.try_clone()?;
        let text = String::from_str(self.alloc, text)?;
        self.sets.insert(text, words)?;
        Ok(())
    }
}
