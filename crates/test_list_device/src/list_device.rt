// The list device and its calls.
ghost use Rattle.std.specs.Prelude.{◌≡◌, ◌<◌, IfOk, OnOk, OnErr};
ghost use Rattle.std.specs.List.{list_any};
ghost use Rattle.photo_version.specs.Author.{epoch_of_author};
ghost use Rattle.photo_model.specs.Entry as model;
ghost use Rattle.photo_model.specs.Device.{opening, known, knows_entry, selects, holds, made, next_version, new_place, narrowed};
ghost use Rattle.photo_model.specs.Refiltered.{refiltered};
ghost use Rattle.test_list_device.specs.Sets.{listed};
ghost use Rattle.test_list_device.specs.Entries.{entry_of};
ghost use Rattle.test_list_device.specs.Shown.{shown};

use crate::known::{has, has_of, tell_all, versions_of};
use crate::lists::{copied, others, put_in, sort_in, supersedes_any};
use crate::{Known, ListEntry};
use photo_filter_rules::Filter;
use photo_model::Place;
use photo_record::{PicNo, Record};
use photo_version::{Author, Version};
use std::alloc::{AllocError, Global};

/// A device: its author, its filter, how many versions it has made, its store, its out, and the versions that it knows of every
/// picture and of single ones.
#[derive(Debug, Drop)]
pub struct ListDevice {
    pub author: Author,
    pub filter: Filter,
    pub counter: u32,
    pub store: Vec<ListEntry>,
    pub out: Vec<ListEntry>,
    pub every: Vec<Version>,
    pub of: Vec<Known>,
}

impl ListDevice {
    /// A device that has made, holds and knows nothing.
    pub fn new(alloc: Global, author: Author, filter: Filter) -> ListDevice
        ensures { shown result ≡ opening author filter }
    {
        ListDevice {
            author,
            filter,
            counter: 0,
            store: Vec::new(alloc),
            out: Vec::new(alloc),
            every: Vec::new(alloc),
            of: Vec::new(alloc),
        }
    }

    /// Whether the device knows a version of a picture.
    pub fn knows(&self, picture: PicNo, version: Version) -> bool
        ensures { result ≡ known (shown self.now) picture version }
    {
        has(&self.every, version) || has_of(&self.of, picture, version)
    }

    /// Whether the device knows an entry's version of its picture.
    pub(crate) fn knows_entry(&self, entry: &ListEntry) -> bool
        ensures { result ≡ knows_entry (shown self.now) (entry_of entry.now) }
    {
        self.knows(entry.picture, entry.version)
    }

    /// Whether the device's filter selects an entry.
    pub(crate) fn selects(&self, entry: &ListEntry) -> bool
        ensures { result ≡ selects (shown self.now) (entry_of entry.now) }
    {
        self.filter.matches(&entry.content)
    }

    /// Whether the device holds an entry that this one supersedes.
    #[tactic(auto, using(crate::proofs::Mapped::any_of_both))]
    pub(crate) fn holds_older(&self, entry: &ListEntry) -> bool
        ensures { result ≡ list_any (model.supersedes (entry_of entry.now)) (holds (shown self.now)) }
    {
        supersedes_any(entry, &self.store) || supersedes_any(entry, &self.out)
    }

    // The versions that the device knows of a picture. Its only error is want of memory.
    fn known_of(&self, alloc: Global, picture: PicNo) -> Result<Vec<Version>, AllocError>
        ensures { IfOk result (λ versions. listed versions.items ≡ known (shown self.now) picture) }
    {
        let mut all = Vec::from_slice(alloc, &self.every)?;
        let single = versions_of(alloc, &self.of, picture)?;
        all.extend_from_slice(&single)?;
        Ok(all)
    }

    /// Makes the next version of a picture, which replaces all that the device held of the picture. Gives the version and its
    /// place. Its only error is want of memory, after which the device is as it was.
    pub fn make(
        &mut self,
        alloc: Global,
        picture: PicNo,
        content: &Record,
    ) -> Result<(Version, Place), AllocError>
        requires { self.old.counter < 4_294_967_295 }
        ensures shows { OnOk result (shown self.new ≡ made (shown self.old) picture content.now) }
        ensures version { IfOk result (λ answer. answer.0 ≡ next_version (shown self.old)) }
        ensures place { IfOk result (λ answer. answer.1 ≡ new_place (shown self.old) content.now) }
        ensures err { OnErr result (self.new ≡ self.old) }
    {
        let number = self.counter + 1;
        let version = Version::new(self.author, number).unwrap();
        let entry = ListEntry {
            picture,
            version,
            history: self.known_of(alloc, picture)?,
            content: content.try_clone()?,
        };
        let mut store = others(alloc, &self.store, picture)?;
        let mut out = others(alloc, &self.out, picture)?;
        let mut every = Vec::from_slice(alloc, &self.every)?;
        every.push(version)?;
        let place = put_in(&self.filter, entry, &mut store, &mut out)?;
        self.counter = number;
        self.store = store;
        self.out = out;
        self.every = every;
        Ok((version, place))
    }

    /// Gives the device another filter and begins its next epoch. The device sorts what it holds anew, and then knows only what
    /// this tells. Its only error is want of memory, after which the device is as it was.
    pub fn refilter(&mut self, alloc: Global, wanted: Filter) -> Result<(), AllocError>
        requires { epoch_of_author self.old.author < 4_294_967_295 }
        ensures shows { OnOk result (shown self.new ≡ refiltered wanted (shown self.old)) }
        ensures err { OnErr result (self.new ≡ self.old) }
    {
        let mut held = copied(alloc, &self.store)?;
        let mut waiting = copied(alloc, &self.out)?;
        held.append(&mut waiting)?;
        let mut of = Vec::new(alloc);
        tell_all(&mut of, &held)?;
        let mut store = Vec::new(alloc);
        let mut out = Vec::new(alloc);
        sort_in(&wanted, held, &mut store, &mut out)?;
        *self = ListDevice {
            author: self.author.next().unwrap(),
            filter: wanted,
            counter: 0,
            store,
            out,
            every: Vec::new(alloc),
            of,
        };
        Ok(())
    }

    /// Takes a narrower filter: what that doesn't select moves to the out. Its only error is want of memory, after which the device
    /// is as it was.
    pub fn narrow(&mut self, alloc: Global, wanted: Filter) -> Result<(), AllocError>
        ensures shows { OnOk result (shown self.new ≡ narrowed wanted (shown self.old)) }
        ensures err { OnErr result (self.new ≡ self.old) }
    {
        let mut store = copied(alloc, &self.store)?;
        let leaving = copied(alloc, &self.store)?;
        let mut staying = Vec::new(alloc);
        let mut out = copied(alloc, &self.out)?;
        sort_in(&wanted, leaving, &mut staying, &mut out)?;
        store.retain(|e| wanted.matches(&e.content));
        self.filter = wanted;
        self.store = store;
        self.out = out;
        Ok(())
    }

    /// A copy, which shares nothing. Its only error is want of memory.
    pub fn try_clone(&self, alloc: Global) -> Result<ListDevice, AllocError>
        ensures { IfOk result (λ copy. shown copy ≡ shown self.now) }
    {
        Ok(ListDevice {
            author: self.author,
            filter: self.filter.try_clone()?,
            counter: self.counter,
            store: copied(alloc, &self.store)?,
            out: copied(alloc, &self.out)?,
            every: Vec::from_slice(alloc, &self.every)?,
            of: Vec::from_slice(alloc, &self.of)?,
        })
    }
}
