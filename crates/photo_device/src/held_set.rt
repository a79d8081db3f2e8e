// Sets of held versions, in the order of their pictures.
ghost use Rattle.std.specs.Prelude.{◌≡◌, true};
ghost use Rattle.photo_device.specs.Held.{are_in_order, IsRangeOf};

use crate::{Held, SharedHeld, SharedList};
use block_list::{BlockList, GrowingList, Iter, Position, Reservation};
use photo_record::PicNo;
use photo_version::Version;
use std::alloc::{AllocError, Global};
use std::marker::Model;
use std::mem::replace;

/// A set of held versions. Contracts see the list of them, by picture, then by version. Each version stands in it once.
///
/// The list is kept in blocks, so that putting in or dropping a version costs little, whatever its picture.
#[derive(Debug, Drop)]
pub struct HeldSet {
    items: BlockList<SharedHeld>,
    alloc: Global,
}

impl Model for HeldSet {
    ghost use Rattle.std.specs.Prelude.{◌≡◌, true, List};
    ghost use Rattle.photo_device.specs.declared.held.Held as spec;
    ghost use Rattle.photo_device.specs.Held.{are_in_order};

    ghost Value = { List spec.Held };

    ghost view = { λ s. s.items };

    ghost invariant = { λ s. are_in_order s.items ≡ true };
}

impl HeldSet {
    ghost use Rattle.std.specs.Prelude.{◌≡◌, ◌<◌, ◌≤◌, ◌==◌, true, false, None, [], ◌∷◌, length, slice_get, Some};
    ghost use Rattle.std.specs.Prelude.{IfOk, OnOk, OnErr};
    ghost use Rattle.std.specs.Option.{option_copied};
    ghost use Rattle.block_list.specs.Blocks.{joined};
    ghost use Rattle.photo_device.specs.Held.{are_in_order, held_of_others, has_picture, has_version_of};
    ghost use Rattle.photo_device.specs.Held.{helds_without, replaced, versions_of};
    ghost use Rattle.photo_device.specs.Held.{find_version, find_version_of, count_of};
    ghost use Rattle.photo_version.specs.Version as spec;

    pub(crate) fn new(alloc: Global) -> HeldSet
        ensures { result ≡ [] }
    {
        HeldSet {
            items: BlockList::new(alloc),
            alloc,
        }
    }

    /// The allocator of the set.
    pub(crate) fn alloc(&self) -> Global {
        self.alloc
    }

    /// Reserves room for `more` versions. The only error is refused memory.
    pub(crate) fn room(&mut self, more: usize) -> Result<Reservation<SharedHeld>, AllocError>
        ensures kept { self.new ≡ self.old }
        ensures most { IfOk result (λ room. room.most ≡ length self.old) }
        ensures more { IfOk result (λ room. room.more ≡ more) }
    {
        self.items.room(more)
    }

    /// Moves the versions out into a list with room that was reserved before. The set is then empty. Takes no memory.
    pub(crate) fn open(&mut self, room: Reservation<SharedHeld>) -> GrowingList<SharedHeld>
        requires { length self.old ≤ room.most }
        ensures items { result.items ≡ self.old }
        ensures more { result.more ≡ room.more }
        ensures ordered { are_in_order self.old ≡ true }
    {
        replace(&mut self.items, BlockList::new(self.alloc)).open(room)
    }

    /// Makes a list in order the set's versions, and gives the list's room back. Takes no memory.
    pub(crate) fn close(&mut self, items: GrowingList<SharedHeld>)
        requires { are_in_order items.items ≡ true }
        ensures { self.new ≡ items.items }
    {
        self.items = items.close();
    }

    /// How many versions the set has.
    pub fn len(&self) -> usize
        ensures { result ≡ length self.now }
    {
        self.items.len()
    }

    /// Whether the set has no versions.
    pub fn is_empty(&self) -> bool
        ensures { result ≡ (length self.now == 0) }
    {
        self.items.is_empty()
    }

    /// The version at place `i`, from 0, in the order of pictures and then of versions.
    pub fn get(&self, i: usize) -> &Held
        requires { i < length self.now }
        ensures item { slice_get self.now i ≡ Some result.now }
        ensures ordered { are_in_order self.now ≡ true }
    {
        self.items.get(i).as_held()
    }

    /// The held versions, in the order of pictures and then of versions.
    pub fn iter(&self) -> Iter<'_, SharedHeld>
        ensures helds { result ≡ self.now }
        ensures ordered { are_in_order self.now ≡ true }
    {
        self.items.iter()
    }

    /// The held versions in blocks; joined, the blocks are the set.
    pub fn blocks(&self) -> &[Vec<SharedHeld>]
        ensures value { joined result.now ≡ self.now }
        ensures ordered { are_in_order self.now ≡ true }
    {
        self.items.as_blocks()
    }

    /// Whether the set has that version of that picture. Searches by picture; takes no memory.
    #[tactic(auto, using(crate::proofs::Putting::found_any))]
    pub fn has(&self, picture: PicNo, version: Version) -> bool
        ensures { result ≡ has_version_of picture version self.now }
    {
        self.of(picture, version).is_some()
    }

    /// That version of that picture, if the set has it. Searches by picture; takes no memory.
    pub fn of(&self, picture: PicNo, version: Version) -> Option<&SharedHeld>
        ensures { option_copied result ≡ find_version_of picture version self.now }
    {
        self.look_for(picture, version).0
    }

    /// The held versions as a list that shares them. The only error is refused memory.
    pub fn to_list(&self) -> Result<SharedList, AllocError>
        ensures { IfOk result (λ list. list ≡ self.now) }
    {
        let mut items = Vec::with_capacity(self.alloc, self.items.len())?;
        for held in &self.items {
            items.push(held.try_clone()?)?;
        }
        Ok(SharedList::new(items))
    }

    /// A set with the same held versions, which it shares. The only error is refused memory.
    pub(crate) fn try_clone(&self) -> Result<HeldSet, AllocError>
        ensures { IfOk result (λ copy. copy ≡ self.now) }
    {
        let mut items = BlockList::new(self.alloc);
        for held in &self.items {
            items.insert(items.len(), held.try_clone()?)?;
        }
        Ok(HeldSet {
            items,
            alloc: self.alloc,
        })
    }

    /// The held version of that version, if the set has it. Looks at each, since the set is in the order of pictures.
    pub fn find(&self, version: Version) -> Option<&Held>
        ensures { option_copied result ≡ find_version version self.now }
    {
        for held in &self.items {
            if held.version() == version {
                return Some(held.as_held());
            }
        }
        None
    }

    /// Puts a version in place of all versions of its picture. An error leaves the set as it was.
    pub(crate) fn replace(&mut self, held: SharedHeld) -> Result<(), AllocError>
        ensures ok { OnOk result (self.new ≡ replaced held self.old) }
        ensures err { OnErr result (self.new ≡ self.old) }
    {
        let picture = held.picture();
        self.items.replace_between(
            |other| other.picture() < picture,
            |other| other.picture() <= picture,
            held,
        )?;
        Ok(())
    }

    /// Drops the versions of a list that the set has. Looks for each at its picture first, and then everywhere. Takes
    /// no memory.
    pub(crate) fn give_up(&mut self, gone: &[SharedHeld])
        requires { (v : spec.Version) → count_of v self.old ≤ 1 }
        ensures { self.new ≡ helds_without (versions_of gone.now) self.old }
    {
        for held in gone {
            let (_, near) = self.look_for(held.picture(), held.version());
            self.drop_version(near, held.version());
        }
    }

    // That version of that picture, if the set has it, and a hint where it stands.
    fn look_for(&self, picture: PicNo, version: Version) -> (Option<&SharedHeld>, Position)
        ensures { option_copied result.0 ≡ find_version_of picture version self.now }
    {
        let (found, spot) = self
            .items
            .find_failing_at(|held| held.is_before(picture, version));
        let Some(held) = found else {
            return (None, spot);
        };
        if !held.is_of(picture, version) {
            return (None, spot);
        }
        (Some(held), spot)
    }

    // Drops the held version of that version, if the set has it. Looks for it from the hint on.
    fn drop_version(&mut self, near: Position, version: Version)
        requires { count_of version self.old ≤ 1 }
        ensures { self.new ≡ helds_without (version ∷ []) self.old }
    {
        self.items.take_near(near, |held| held.version() == version);
    }

    /// Drops all versions of a picture.
    pub(crate) fn drop_picture(&mut self, picture: PicNo)
        ensures { self.new ≡ held_of_others picture self.old }
    {
        if !self.has_picture(picture) {
            return;
        }
        let (from, to) = range_of(&self.items, picture);
        self.items.remove_range(from, to);
    }

    /// Whether the set has a version of a picture.
    pub(crate) fn has_picture(&self, picture: PicNo) -> bool
        ensures { result ≡ has_picture picture self.now }
    {
        match self.items.find_failing(|held| held.picture() < picture) {
            Some(held) => held.picture() == picture,
            None => false,
        }
    }
}

// The range of the versions of a picture: from the first place to before the second.
fn range_of(items: &BlockList<SharedHeld>, picture: PicNo) -> (usize, usize)
    requires { are_in_order items.now ≡ true }
    ensures { IsRangeOf picture items.now result.0 result.1 }
{
    let from = items.partition_point(|held| held.picture() < picture);
    let to = items.partition_point(|held| held.picture() <= picture);
    (from, to)
}
