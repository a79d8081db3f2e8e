// A device: what contracts see of it, and its calls.
ghost use Rattle.std.specs.Prelude.{◌≡◌, ◌+◌, None, IfOk, OnOk, OnErr};
ghost use Rattle.photo_device.specs.Device.{store_with, out_with};
ghost use Rattle.photo_device.specs.Learning.{IsHeldNext, IsNextKnown};
ghost use Rattle.photo_model.specs.Device.{place_for};

use crate::cached_knowledge::CachedKnowledge;
use crate::prepared::Prepared;
use crate::resorted::{Resorted, narrowed, resort};
use crate::takes::{rooms, take_in};
use crate::{
    Change, ChangeFault, Conflict, Held, HeldSet, NarrowFault, Place, SharedHeld, conflicts,
};
use item_knowledge::Knowledge;
use photo_filter_rules::{Filter, covers};
use photo_record::{PicNo, Record};
use photo_version::{Author, Version};
use std::alloc::{AllocError, Global};
use std::marker::Model;

/// A device of the household. It has an author, a filter that says which versions it keeps, a counter of the versions that it
/// made, the versions that it holds, and what it knows of each picture.
#[derive(Debug, Drop)]
pub struct Device {
    author: Author,
    filter: Filter,
    counter: u32,
    store: HeldSet,
    out: HeldSet,
    knowledge: CachedKnowledge,
    prepared: Option<Prepared>,
}

impl Model for Device {
    ghost use Rattle.std.specs.Prelude.{None};
    ghost use Rattle.photo_device.specs.Device.{Kept};
    ghost use Rattle.photo_device.specs.Coding.{kept_code};
    ghost use Rattle.photo_device.specs.Staging.{AreParts, staging_of};

    ghost Value = { Kept };

    ghost coded = { kept_code };

    ghost view = { λ d. record {
      author = d.author;
      tree = d.filter;
      counter = d.counter;
      store = d.store;
      out = d.out;
      knowledge = d.knowledge.known;
      staged = staging_of d.prepared d.knowledge.staged;
    } };

    ghost invariant = { λ d. AreParts d.prepared d.knowledge.staged (record {
      author = d.author;
      tree = d.filter;
      counter = d.counter;
      store = d.store;
      out = d.out;
      knowledge = d.knowledge.known;
      staged = None;
    }) };
}

impl Device {
    ghost use Rattle.std.specs.Prelude.{◌≡◌, ◌≢◌, ◌+◌, ◌<◌, ◌≤◌, ◌||◌, ◌++◌, true, false, not, filter, is_some, length, None};
    ghost use Rattle.std.specs.Prelude.{Err, IfOk, IfErr, IfSome, OnOk, OnErr};
    ghost use Rattle.std.specs.List.{AllByRecursion, list_any};
    ghost use Rattle.std.specs.Option.{option_copied, option_map};
    ghost use Rattle.photo_model.specs.Entry.{find_entry};
    ghost use Rattle.photo_device.specs.Held.{are_in_order, find_version, find_version_of, has_picture, count_of, versions_of};
    ghost use Rattle.photo_device.specs.Held.{entry_of, entries_of};
    ghost use Rattle.photo_device.specs.Own.{HasMade, IsDevice, IsKnownBy, IsNext, KnowsItsOwn};
    ghost use Rattle.photo_device.specs.Staging.{HasStaged, MayHand, MayStage, gained, versions_in};
    ghost use Rattle.photo_version.specs.Author.{epoch_of_author};
    ghost use Rattle.photo_version.specs.Version as versions;
    ghost use Rattle.item_knowledge.specs.Fragments.{knows};
    ghost use Rattle.photo_model.specs.Device.{ModelDevice, holds, is_held, opening, made, next_version, new_place, changed, without_waiting, narrowed, moved};
    ghost use Rattle.photo_device.specs.Device.{Shows, unstaged, IsAsItWas};
    ghost use Rattle.photo_model.specs.Refiltered.{refiltered, begun};
    ghost use Rattle.photo_device.specs.Resorted.{IsResorted};
    ghost use Rattle.photo_model.specs.Conflicts.{conflicts_of};
    ghost use Rattle.photo_record.specs.declared.record.Record.TheVariants.{Removed};
    ghost use Rattle.photo_device.specs.declared.fault.ChangeFault.TheVariants.{NotHeld};
    ghost use Rattle.photo_device.specs.declared.fault.NarrowFault.TheVariants.{NotNarrower, NoMemory};
    ghost use Rattle.photo_filter_rules.specs.Covers.{covers};

    /// A device that has made, holds and knows nothing, and keeps what the filter matches. The only error is refused
    /// memory, which gives the filter back.
    pub fn new(
        alloc: Global,
        author: Author,
        filter: Filter,
    ) -> Result<Device, (Filter, AllocError)>
        ensures ok { IfOk result (λ device. Shows device (opening author filter)) }
        ensures staged { IfOk result (λ device. device.staged ≡ None) }
        ensures err { IfErr result (λ refused. refused.0 ≡ filter) }
    {
        match Knowledge::new(alloc) {
            Ok(knowledge) => Ok(Device {
                author,
                filter,
                counter: 0,
                store: HeldSet::new(alloc),
                out: HeldSet::new(alloc),
                knowledge: CachedKnowledge::new(alloc, knowledge),
                prepared: None,
            }),
            Err(refused) => Err((filter, refused)),
        }
    }

    /// A copy with nothing staged; a change of either device doesn't change the other. They share the held versions.
    /// The only error is refused memory.
    pub fn try_clone(&self) -> Result<Device, AllocError>
        ensures { IfOk result (λ copy. copy ≡ unstaged self.now) }
    {
        let filter = self.filter.try_clone()?;
        let store = self.store.try_clone()?;
        let out = self.out.try_clone()?;
        let knowledge = self.knowledge.as_knowledge().try_clone()?;
        Ok(Device {
            author: self.author,
            filter,
            counter: self.counter,
            knowledge: CachedKnowledge::new(store.alloc(), knowledge),
            store,
            out,
            prepared: None,
        })
    }

    /// Makes the device's next version of a picture, in place of all that it held of the picture. The version's history
    /// is what the device knew of the picture. From then on the device knows the version, of every picture.
    ///
    /// The version goes into the store where the filter matches its record, else into the out. Returns the version and
    /// its place. Refused memory leaves the device as it was. Nothing is staged after any result.
    #[tactic(auto, using(std::proofs::lemmas::Grind::common_steps))]
    pub fn make(&mut self, picture: PicNo, content: &Record) -> Result<(Version, Place), AllocError>
        requires { self.old.counter < 4_294_967_295 }
        ensures shows { IfOk result (λ answer. (m : ModelDevice) → Shows self.old m → Shows self.new (made m picture content.now)) }
        ensures version { IfOk result (λ answer. (m : ModelDevice) → Shows self.old m → answer.0 ≡ next_version m) }
        ensures place { IfOk result (λ answer. (m : ModelDevice) → Shows self.old m → answer.1 ≡ new_place m content.now) }
        ensures err { OnErr result (IsAsItWas self.old self.new) }
        ensures staged { self.new.staged ≡ None }
    {
        self.unstage();
        let number = self.counter + 1;
        let version = Version::new(self.author, number).unwrap();
        let held = Held {
            picture,
            version,
            made_with: self.knowledge.as_knowledge().of(picture)?,
            content: content.try_clone()?,
        };
        let shared = SharedHeld::new(self.store.alloc(), held)?;
        let place = place_of(&self.filter, content);
        self.add(place, shared)?;
        Ok((version, place))
    }

    // Holds the next version at a place, counts it, and knows it of every picture. An error leaves the device as it was.
    #[tactic(auto, using(std::proofs::lemmas::Grind::common_steps, crate::proofs::OwnLemmas::next_known, crate::proofs::OwnLemmas::has_made, crate::proofs::Staged::none_prepared))]
    fn add(&mut self, place: Place, held: SharedHeld) -> Result<(), AllocError>
        requires next { IsNext held self.old }
        requires unstaged { self.old.staged ≡ None }
        ensures ok { OnOk result (HasMade place held self.old self.new) }
        ensures err { OnErr result (self.new ≡ self.old) }
    {
        let version = held.version();
        self.knowledge.reserve(version);
        hold_next(
            &mut self.store,
            &mut self.out,
            &mut self.knowledge,
            place,
            held,
        )?;
        self.counter = version.n();
        Ok(())
    }

    /// The device as an author of versions.
    pub fn author(&self) -> Author
        ensures { result ≡ self.now.author }
    {
        self.author
    }

    /// The filter: which versions the device keeps.
    pub fn filter(&self) -> &Filter
        ensures { result.now ≡ self.now.tree }
    {
        &self.filter
    }

    /// How many versions the device has made in this epoch.
    pub fn counter(&self) -> u32
        ensures { result ≡ self.now.counter }
    {
        self.counter
    }

    /// The versions that the device keeps.
    pub fn store(&self) -> &HeldSet
        ensures value { result.now ≡ self.now.store }
        ensures device { IsDevice (unstaged self.now) }
    {
        &self.store
    }

    /// The versions that the device holds for other devices to take.
    pub fn out(&self) -> &HeldSet
        ensures value { result.now ≡ self.now.out }
        ensures device { IsDevice (unstaged self.now) }
    {
        &self.out
    }

    /// Which versions of which picture the device knows.
    pub fn knowledge(&self) -> &Knowledge
        ensures value { result.now.known ≡ self.now.knowledge }
        ensures unstaged { self.now.staged ≡ None → result.now.staged ≡ None }
        ensures device { IsDevice (unstaged self.now) }
    {
        self.knowledge.as_knowledge()
    }

    /// Copies of a set's versions that the device doesn't know, in their order. Contracts see no change of the device;
    /// its cache of known versions may change.
    ///
    /// The only error is refused memory. No memory is wanted where the device knows all of them.
    pub fn unknown_of(
        &mut self,
        alloc: Global,
        set: &HeldSet,
    ) -> Result<Vec<SharedHeld>, AllocError>
        ensures items { IfOk result (λ found. found.items
            ≡ filter (λ h. not (knows self.old.knowledge h.picture h.version)) set.now) }
        ensures ordered { IfOk result (λ found. are_in_order found.items ≡ true) }
        ensures wanted { OnErr result (list_any (λ h. not (knows self.old.knowledge h.picture h.version)) set.now ≡ true) }
        ensures kept { self.new ≡ self.old }
    {
        self.knowledge.unknown_of(alloc, set)
    }

    /// Does what `unknown_of` does, with no change of the cache.
    ///
    /// The only error is refused memory. No memory is wanted where the device knows all of them.
    pub fn unknown_by(&self, alloc: Global, set: &HeldSet) -> Result<Vec<SharedHeld>, AllocError>
        ensures items { IfOk result (λ found. found.items
            ≡ filter (λ h. not (knows self.now.knowledge h.picture h.version)) set.now) }
        ensures ordered { IfOk result (λ found. are_in_order found.items ≡ true) }
        ensures wanted { OnErr result (list_any (λ h. not (knows self.now.knowledge h.picture h.version)) set.now ≡ true) }
    {
        self.knowledge.unknown_by(alloc, set)
    }

    /// The held version of that version, if the store or the out has it. Looks at each.
    #[tactic(auto, using(crate::proofs::Shown::of_both))]
    pub fn held(&self, version: Version) -> Option<&Held>
        ensures { option_copied result ≡ find_version version (self.now.store ++ self.now.out) }
    {
        match self.store.find(version) {
            Some(held) => Some(held),
            None => self.out.find(version),
        }
    }

    /// The held version of that version and picture, if the store or the out has it, to share. Searches by picture; takes no
    /// memory.
    pub fn held_of(&self, picture: PicNo, version: Version) -> Option<&SharedHeld>
        ensures held { option_copied result ≡ find_version_of picture version (self.now.store ++ self.now.out) }
        ensures shows { (m : ModelDevice) → Shows self.now m
            → option_map entry_of (option_copied result) ≡ find_entry picture version (holds m) }
    {
        match self.store.of(picture, version) {
            Some(held) => Some(held),
            None => self.out.of(picture, version),
        }
    }

    /// Makes the device's next version of a picture of which the store or the out holds a version. A held version that
    /// removes the picture counts.
    ///
    /// `NotHeld` comes exactly where the device holds nothing of the picture. Otherwise this does what `make` does. An
    /// error leaves the device as it was. Nothing is staged after any result.
    #[tactic(auto, using(std::proofs::lemmas::Grind::common_steps, crate::proofs::Shown::pictures_shown, crate::proofs::Staged::shows_unstaged))]
    pub fn edit(
        &mut self,
        picture: PicNo,
        content: &Record,
    ) -> Result<(Version, Place), ChangeFault>
        requires { self.old.counter < 4_294_967_295 }
        ensures shows { IfOk result (λ answer. (m : ModelDevice) → Shows self.old m → Shows self.new (made m picture content.now)) }
        ensures version { IfOk result (λ answer. (m : ModelDevice) → Shows self.old m → answer.0 ≡ next_version m) }
        ensures place { IfOk result (λ answer. (m : ModelDevice) → Shows self.old m → answer.1 ≡ new_place m content.now) }
        ensures held { result ≢ Err NotHeld → (m : ModelDevice) → Shows self.old m → is_held m picture ≡ true }
        ensures not_held { result ≡ Err NotHeld → (m : ModelDevice) → Shows self.old m → is_held m picture ≡ false }
        ensures err { OnErr result (IsAsItWas self.old self.new) }
        ensures staged { self.new.staged ≡ None }
    {
        self.unstage();
        if !self.holds(picture) {
            return Err(ChangeFault::NotHeld);
        }
        Ok(self.make(picture, content)?)
    }

    /// Makes a version that removes a picture, as `edit` does. The device must hold a version of the picture. An error
    /// leaves the device as it was. Nothing is staged after any result.
    pub fn remove(&mut self, picture: PicNo) -> Result<(Version, Place), ChangeFault>
        requires { self.old.counter < 4_294_967_295 }
        ensures shows { IfOk result (λ answer. (m : ModelDevice) → Shows self.old m → Shows self.new (made m picture Removed)) }
        ensures version { IfOk result (λ answer. (m : ModelDevice) → Shows self.old m → answer.0 ≡ next_version m) }
        ensures place { IfOk result (λ answer. (m : ModelDevice) → Shows self.old m → answer.1 ≡ new_place m Removed) }
        ensures held { result ≢ Err NotHeld → (m : ModelDevice) → Shows self.old m → is_held m picture ≡ true }
        ensures not_held { result ≡ Err NotHeld → (m : ModelDevice) → Shows self.old m → is_held m picture ≡ false }
        ensures err { OnErr result (IsAsItWas self.old self.new) }
        ensures staged { self.new.staged ≡ None }
    {
        self.edit(picture, &Record::Removed)
    }

    /// Stages a change: to drop held versions, to take others and to learn. Each taken version goes into the store
    /// where the filter matches it, else into the out. `room` is how many handed versions `commit` may take besides.
    /// What the device holds and knows stays until `commit`. A change that was staged before is dropped.
    ///
    /// The only error is refused memory, also for more versions than can be counted. It leaves nothing staged and gives
    /// the change back.
    pub fn stage<'a>(
        &mut self,
        change: Change<'a>,
        room: usize,
    ) -> Result<(), (Change<'a>, AllocError)>
        requires may { MayStage change.drops.stored.items change.drops.waiting.items change.takes (gained change.gain) self.old }
        ensures staged { OnOk result (HasStaged (versions_in change.entry.drops) change.entry.takes (gained change.entry.gain) room self.old self.new) }
        ensures err { OnErr result (IsAsItWas self.old self.new) }
        ensures unstaged { OnErr result (self.new.staged ≡ None) }
        ensures returned { IfErr result (λ e. e.0 ≡ change.entry) }
    {
        self.unstage();
        let takes = change.takes.len();
        let Ok((in_store, in_out)) = rooms(&mut self.store, &mut self.out, takes, room) else {
            return Err((change, AllocError));
        };
        if let Err(refused) = self.knowledge.stage(&change.gain) {
            return Err((change, refused));
        }
        let Change { drops, takes, .. } = change;
        self.prepared = Some(Prepared {
            drops,
            takes,
            room,
            in_store,
            in_out,
        });
        Ok(())
    }

    /// Whether a change is staged.
    #[tactic(auto, using(crate::proofs::Staged::staged_once))]
    pub fn staged(&self) -> bool
        ensures staged { result ≡ is_some self.now.staged }
        ensures once { IfSome self.now.staged (λ s. (v : versions.Version) → count_of v (s.takes ++ (self.now.store ++ self.now.out)) ≤ 1) }
    {
        self.prepared.is_some()
    }

    /// Drops the staged change; the device is otherwise as it was. Takes no memory.
    pub fn unstage(&mut self)
        ensures { self.new ≡ unstaged self.old }
    {
        self.prepared = None;
        self.knowledge.unstage();
    }

    /// Drops those of the versions that the out has. Nothing is staged afterwards. Takes no memory.
    #[tactic(auto, using(std::proofs::lemmas::Grind::common_steps, crate::proofs::Changed::shows_without, crate::proofs::Changed::drops_device, crate::proofs::Staged::shows_unstaged, crate::proofs::Staged::none_fits))]
    pub fn hand_over(&mut self, handed: &[SharedHeld])
        ensures shows { (m : ModelDevice) → Shows self.old m → Shows self.new (without_waiting (versions_of handed.now) m) }
        ensures staged { self.new.staged ≡ None }
    {
        self.unstage();
        self.out.give_up(handed);
    }

    /// Makes the staged change, and takes the handed versions. Each goes into the store where the filter matches it,
    /// else into the out. Nothing is staged afterwards. Takes no memory.
    pub fn commit(&mut self, handed: Vec<SharedHeld>)
        requires staged { is_some self.old.staged ≡ true }
        requires handed { IfSome self.old.staged (λ s. MayHand handed.items s self.old) }
        ensures shows { IfSome self.old.staged (λ s. (m : ModelDevice) → Shows self.old m
            → Shows self.new (changed s.drops (entries_of (s.takes ++ handed.items)) (knows s.knowledge) m)) }
        ensures staged { self.new.staged ≡ None }
    {
        let Some(prepared) = self.prepared.take() else {
            unreachable!()
        };
        let Prepared {
            drops,
            takes,
            room: _,
            in_store,
            in_out,
        } = prepared;
        self.store.give_up(&drops.stored);
        self.out.give_up(&drops.waiting);
        let takes = takes.into_vec();
        self.knowledge.commit();
        self.knowledge.cache_all(&takes);
        self.knowledge.cache_all(&handed);
        take_in(
            &self.filter,
            handed,
            takes,
            &mut self.store,
            in_store,
            &mut self.out,
            in_out,
        );
    }

    /// Replaces the filter by a narrower one. The store's versions that the new filter doesn't match go to the out.
    /// Returns how many went.
    ///
    /// `NotNarrower` comes exactly where the device's filter doesn't cover the new one. An error leaves the device as
    /// it was and gives the filter back. Nothing is staged after any result.
    #[tactic(auto, using(std::proofs::lemmas::Grind::common_steps, crate::proofs::Changed::shorter))]
    pub fn narrow(&mut self, filter: Filter) -> Result<u64, (Filter, NarrowFault)>
        ensures shows { OnOk result ((m : ModelDevice) → Shows self.old m → Shows self.new (narrowed filter m)) }
        ensures moved { IfOk result (λ count. (m : ModelDevice) → Shows self.old m → count ≡ moved filter m) }
        ensures covered { OnOk result (covers self.old.tree filter ≡ true) }
        ensures refused { IfErr result (λ e. e.1 ≡ NotNarrower → covers self.old.tree filter ≡ false) }
        ensures no_memory { IfErr result (λ e. e.1 ≡ NoMemory → covers self.old.tree filter ≡ true) }
        ensures returned { IfErr result (λ e. e.0 ≡ filter) }
        ensures err { OnErr result (IsAsItWas self.old self.new) }
        ensures staged { self.new.staged ≡ None }
    {
        self.unstage();
        if !covers(&self.filter, &filter) {
            return Err((filter, NarrowFault::NotNarrower));
        }
        let Ok(kept) = narrowed(&filter, &self.store, &mut self.out) else {
            return Err((filter, NarrowFault::NoMemory));
        };
        let gone = self.store.len() - kept.len();
        self.store = kept;
        self.filter = filter;
        Ok(gone as u64)
    }

    /// Replaces the filter by any other, and begins the device's next epoch as an author. Sorts what the device holds
    /// again into the store and the out. The device has then made nothing, and knows exactly what its held versions
    /// tell. Returns how many versions are then in the store, and in the out.
    ///
    /// The only error is refused memory, which leaves the device as it was and gives the filter back. Nothing is staged
    /// after any result.
    #[tactic(auto, using(crate::proofs::ResortLemmas::next_begun))]
    pub fn refilter(&mut self, filter: Filter) -> Result<(u64, u64), (Filter, AllocError)>
        requires { epoch_of_author self.old.author < 4_294_967_295 }
        ensures shows { OnOk result ((m : ModelDevice) → Shows self.old m → Shows self.new (refiltered filter m)) }
        ensures store { IfOk result (λ sizes. sizes.0 ≡ length self.new.store) }
        ensures out { IfOk result (λ sizes. sizes.1 ≡ length self.new.out) }
        ensures returned { IfErr result (λ e. e.0 ≡ filter) }
        ensures err { OnErr result (IsAsItWas self.old self.new) }
        ensures staged { self.new.staged ≡ None }
    {
        let next = self.author.epoch() + 1;
        self.begin(next, filter)
    }

    /// Does what `refilter` does, but begins that later epoch instead of the next one.
    ///
    /// The only error is refused memory, which leaves the device as it was and gives the filter back. Nothing is staged
    /// after any result.
    pub fn begin(&mut self, epoch: u32, filter: Filter) -> Result<(u64, u64), (Filter, AllocError)>
        requires { epoch_of_author self.old.author < epoch }
        ensures shows { OnOk result ((m : ModelDevice) → Shows self.old m → Shows self.new (begun epoch filter m)) }
        ensures store { IfOk result (λ sizes. sizes.0 ≡ length self.new.store) }
        ensures out { IfOk result (λ sizes. sizes.1 ≡ length self.new.out) }
        ensures returned { IfErr result (λ e. e.0 ≡ filter) }
        ensures err { OnErr result (IsAsItWas self.old self.new) }
        ensures staged { self.new.staged ≡ None }
    {
        self.unstage();
        match resort(&filter, &self.store, &self.out) {
            Ok(resorted) => Ok(self.begin_epoch(epoch, filter, resorted)),
            Err(refused) => Err((filter, refused)),
        }
    }

    // Begins a later epoch, with the new filter and with the held versions that it sorted.
    fn begin_epoch(&mut self, epoch: u32, filter: Filter, resorted: Resorted) -> (u64, u64)
        requires unstaged { self.old.staged ≡ None }
        requires later { epoch_of_author self.old.author < epoch }
        requires resorted { IsResorted filter self.old.store self.old.out resorted }
        ensures shows { (m : ModelDevice) → Shows self.old m → Shows self.new (begun epoch filter m) }
        ensures store { result.0 ≡ length self.new.store }
        ensures out { result.1 ≡ length self.new.out }
        ensures staged { self.new.staged ≡ None }
    {
        self.author = Author::at(self.author.value(), epoch);
        self.filter = filter;
        self.counter = 0;
        let Resorted { store, out, told } = resorted;
        self.store = store;
        self.out = out;
        self.knowledge.replace(told);
        (self.store.len() as u64, self.out.len() as u64)
    }

    /// The device with another knowledge, which has what every device has to know, and with nothing staged.
    pub(crate) fn with(self, knowledge: Knowledge) -> Device
        requires own { KnowsItsOwn self.author self.counter knowledge.known }
        requires store { AllByRecursion (IsKnownBy knowledge.known) self.store }
        requires out { AllByRecursion (IsKnownBy knowledge.known) self.out }
        ensures { result ≡ record self { knowledge = knowledge.known; staged = None } }
    {
        let mut device = self;
        device.prepared = None;
        device.knowledge.replace(knowledge);
        device.knowledge.unstage();
        device
    }

    /// Whether the store or the out has a version of the picture, perhaps one that removes it. Searches by picture.
    pub fn holds(&self, picture: PicNo) -> bool
        ensures held { result ≡ (has_picture picture self.now.store || has_picture picture self.now.out) }
        ensures shows { (m : ModelDevice) → Shows self.now m → result ≡ is_held m picture }
    {
        self.store.has_picture(picture) || self.out.has_picture(picture)
    }

    /// The pictures of which the device holds two or more versions, in the store and the out together; the versions of
    /// each are in order. The only error is refused memory.
    #[tactic(auto, using(crate::proofs::Shown::of_both))]
    pub fn conflicts(&self) -> Result<Vec<Conflict>, AllocError>
        ensures { IfOk result (λ list. (m : ModelDevice) → Shows self.now m → list.items ≡ conflicts_of m) }
    {
        conflicts::conflicts_of(&self.store, &self.out)
    }
}

// The place of a new version with that record: the store where the filter matches the record, else the out.
fn place_of(filter: &Filter, content: &Record) -> Place
    ensures { result ≡ place_for filter.now content.now }
{
    if filter.matches(content) {
        Place::Store
    } else {
        Place::Out
    }
}

// Holds the author's next version at a place, and knows it of every picture. An error changes nothing.
fn hold_next(
    store: &mut HeldSet,
    out: &mut HeldSet,
    knowledge: &mut CachedKnowledge,
    place: Place,
    held: SharedHeld,
) -> Result<(), AllocError>
    requires { IsNextKnown held.version knowledge.old.known }
    ensures ok { OnOk result (IsHeldNext place held store.old store.new out.old out.new knowledge.old knowledge.new) }
    ensures store_kept { OnErr result (store.new ≡ store.old) }
    ensures out_kept { OnErr result (out.new ≡ out.old) }
    ensures known_kept { OnErr result (knowledge.new ≡ knowledge.old) }
{
    let version = held.version();
    if version.n() > 1 {
        hold(store, out, place, held)?;
        knowledge.raise_own(version);
        return Ok(());
    }
    // The first version wants memory for its author's bounds, so they are made in a copy of what is known.
    let mut known = knowledge.as_knowledge().try_clone()?;
    known.learn_own(version)?;
    hold(store, out, place, held)?;
    knowledge.replace(known);
    Ok(())
}

// Holds a version at a place, and nothing else of its picture. An error leaves both sets as they were.
fn hold(
    store: &mut HeldSet,
    out: &mut HeldSet,
    place: Place,
    held: SharedHeld,
) -> Result<(), AllocError>
    ensures store { OnOk result (store.new ≡ store_with place held store.old) }
    ensures out { OnOk result (out.new ≡ out_with place held out.old) }
    ensures store_kept { OnErr result (store.new ≡ store.old) }
    ensures out_kept { OnErr result (out.new ≡ out.old) }
{
    let picture = held.picture();
    match place {
        Place::Store => {
            store.replace(held)?;
            out.drop_picture(picture);
        }
        Place::Out => {
            out.replace(held)?;
            store.drop_picture(picture);
        }
    }
    Ok(())
}
