// What a device knows, with a cache of known versions.
ghost use Rattle.std.specs.Prelude.{◌≡◌, true};
ghost use Rattle.item_knowledge.specs.Fragments as spec;

use crate::known_cache::KnownCache;
use crate::{Gain, HeldSet, SharedHeld};
use item_knowledge::Knowledge;
use photo_version::Version;
use std::alloc::{AllocError, Global};
use std::marker::Model;

/// What a device knows, with a cache of versions that were found to be known or were taken. A look-up in the cache takes a
/// few steps. Contracts see the knowledge alone.
#[derive(Debug, Drop)]
pub(crate) struct CachedKnowledge {
    knowledge: Knowledge,
    cache: KnownCache,
}

impl Model for CachedKnowledge {
    ghost use Rattle.item_knowledge.specs.Staged.{Knowing};
    ghost use Rattle.item_knowledge.specs.Coding.{knowing_code};
    ghost use Rattle.photo_device.specs.Cached.{AreKnown};

    ghost Value = { Knowing };

    ghost coded = { knowing_code };

    ghost view = { λ k. k.knowledge };

    ghost invariant = { λ k. AreKnown k.knowledge.known k.cache.rows.items };
}

impl CachedKnowledge {
    ghost use Rattle.std.specs.Prelude.{◌≡◌, ℕ, ◌<◌, ◌≤◌, true, not, filter, None, IfOk, IfSome, OnOk, OnErr};
    ghost use Rattle.std.specs.List.{list_any, AllByRecursion};
    ghost use Rattle.std.specs.Option.{is_some};
    ghost use Rattle.photo_version.specs.Author.{Author};
    ghost use Rattle.photo_version.specs.Version as versions;
    ghost use Rattle.item_knowledge.specs.Fragments.{knows};
    ghost use Rattle.item_knowledge.specs.Kept.{star_bound};
    ghost use Rattle.item_knowledge.specs.Staged.{settled, IsStagedUnion};
    ghost use Rattle.photo_device.specs.Held.{are_in_order};
    ghost use Rattle.photo_device.specs.Learning.{IsNextKnown, IsOwnLearned};
    ghost use Rattle.photo_device.specs.Own.{IsKnownBy, KnowsNoMore};
    ghost use Rattle.photo_device.specs.Staging.{gained};

    /// The knowledge with an empty cache. Takes no memory.
    pub fn new(alloc: Global, knowledge: Knowledge) -> CachedKnowledge
        ensures { result ≡ knowledge }
    {
        CachedKnowledge {
            knowledge,
            cache: KnownCache::new(alloc),
        }
    }

    /// Replaces the knowledge and clears the cache. Takes no memory.
    pub fn replace(&mut self, knowledge: Knowledge)
        ensures { self.new ≡ knowledge }
    {
        self.cache.clear();
        self.knowledge = knowledge;
    }

    /// The knowledge.
    pub fn as_knowledge(&self) -> &Knowledge
        ensures { result.now ≡ self.now }
    {
        &self.knowledge
    }

    /// Does what `Knowledge::raise_own` does.
    pub fn raise_own(&mut self, version: Version)
        requires first { 0 < star_bound self.old.known version.author }
        requires next { IsNextKnown version self.old.known }
        ensures learned { IsOwnLearned version self.old.known self.new.known }
        ensures staged { self.new.staged ≡ None }
    {
        self.knowledge.raise_own(version);
    }

    /// Stages the union of what is known and what is gained. What is known stays until `commit`. The only error is refused
    /// memory, which leaves nothing staged.
    #[tactic(auto, using(std::proofs::lemmas::Grind::common_steps, crate::proofs::OwnLemmas::star_at_most))]
    pub fn stage(&mut self, gain: &Gain<'_>) -> Result<(), AllocError>
        ensures known { self.new.known ≡ self.old.known }
        ensures staged { OnOk result (IsStagedUnion self.new.staged self.old.known (gained gain.now)) }
        ensures star { (a : Author) (n : ℕ) → KnowsNoMore a n (gained gain.now) → star_bound (gained gain.now) a ≤ n }
        ensures refused { OnErr result (self.new.staged ≡ None) }
    {
        match gain {
            Gain::Known(other) => {
                is_normal(other);
                self.knowledge.stage(other)
            }
            Gain::Told(told) => self.knowledge.stage_told(told),
        }
    }

    /// Does what `Knowledge::unstage` does.
    pub fn unstage(&mut self)
        ensures { self.new ≡ settled self.old.known }
    {
        self.knowledge.unstage();
    }

    /// Does what `Knowledge::commit` does. What is staged must have all that is known.
    pub fn commit(&mut self)
        requires there { is_some self.old.staged ≡ true }
        requires more { IfSome self.old.staged (λ s. (p : ℕ) (v : versions.Version) → 0 < p → knows self.old.known p v ≡ true
            → knows s p v ≡ true) }
        ensures { IfSome self.old.staged (λ s. self.new ≡ settled s) }
    {
        self.knowledge.commit();
    }

    /// Reserves a place in the cache for a version, if there is memory. What is known stays.
    pub fn reserve(&mut self, version: Version)
        ensures { self.new ≡ self.old }
    {
        self.cache.reserve(version);
    }

    /// Caches versions that are known and have places. What is known stays. Takes no memory.
    pub fn cache_all(&mut self, helds: &[SharedHeld])
        requires { AllByRecursion (IsKnownBy self.old.known) helds.now }
        ensures { self.new ≡ self.old }
    {
        for held in helds {
            self.cache.insert(held.picture(), held.version());
        }
    }

    /// Copies of the set's versions that aren't known. The only error is refused memory; no memory is wanted where all
    /// are known.
    pub fn unknown_of(
        &mut self,
        alloc: Global,
        set: &HeldSet,
    ) -> Result<Vec<SharedHeld>, AllocError>
        ensures items { IfOk result (λ found. found.items
            ≡ filter (λ h. not (knows self.old.known h.picture h.version)) set.now) }
        ensures ordered { IfOk result (λ found. are_in_order found.items ≡ true) }
        ensures wanted { OnErr result (list_any (λ h. not (knows self.old.known h.picture h.version)) set.now ≡ true) }
        ensures kept { self.new ≡ self.old }
    {
        let mut found = Vec::new(alloc);
        for held in set.iter() {
            let (picture, version) = (held.picture(), held.version());
            if self.cache.has(picture, version) {
                continue;
            }
            let known = self.knowledge.knows(picture, version);
            self.cache.reserve(version);
            if !known {
                found.push(held.try_clone()?)?;
                continue;
            }
            self.cache.insert(picture, version);
        }
        Ok(found)
    }

    /// Does what `unknown_of` does, and leaves the cache as it is.
    pub fn unknown_by(&self, alloc: Global, set: &HeldSet) -> Result<Vec<SharedHeld>, AllocError>
        ensures items { IfOk result (λ found. found.items
            ≡ filter (λ h. not (knows self.now.known h.picture h.version)) set.now) }
        ensures ordered { IfOk result (λ found. are_in_order found.items ≡ true) }
        ensures wanted { OnErr result (list_any (λ h. not (knows self.now.known h.picture h.version)) set.now ≡ true) }
    {
        let mut found = Vec::new(alloc);
        for held in set.iter() {
            let (picture, version) = (held.picture(), held.version());
            if self.cache.has(picture, version) {
                continue;
            }
            if !self.knowledge.knows(picture, version) {
                found.push(held.try_clone()?)?;
            }
        }
        Ok(found)
    }
}

// Tells that a knowledge is in normal form.
fn is_normal(knowledge: &Knowledge)
    ensures { spec.is_normal knowledge.now.known ≡ true }
{
    let _fragments = knowledge.fragments();
}
