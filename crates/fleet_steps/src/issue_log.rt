// The versions that a run made, with an index by picture.
ghost use Rattle.std.specs.Prelude.{◌≡◌, ◌<◌, IfOk, OnOk};
ghost use Rattle.std.specs.Slice.Iter.{iter_rest};
ghost use Rattle.fleet_steps.specs.Logged.{AreAbove, IsIndex};

use photo_device::{Held, SharedHeld};
use photo_record::PicNo;
use std::alloc::{AllocError, Global};
use std::marker::Model;
use std::slice;

/// The versions that a run made, oldest first. The log shares each with the device that made it. Contracts see the list.
///
/// It also keeps them sorted by picture, so that a search finds all versions of a picture.
#[derive(Debug, Drop)]
pub struct IssueLog {
    // This field is dropped first, so that `issued` frees the versions in the order in which they were made.
    by_picture: Vec<SharedHeld>,
    issued: Vec<SharedHeld>,
}

impl Model for IssueLog {
    ghost use Rattle.std.specs.Prelude.{List};
    ghost use Rattle.photo_device.specs.declared.held.Held.{Held};
    ghost use Rattle.fleet_steps.specs.Logged.{IsIndex};

    ghost Value = { List Held };

    ghost view = { λ l. l.issued.items };

    ghost invariant = { λ l. IsIndex l.issued.items l.by_picture.items };
}

impl IssueLog {
    ghost use Rattle.std.specs.Prelude.{◌≡◌, ◌<◌, ◌==◌, ◌&&◌, Bool, length, slice_get, Some, IfOk};
    ghost use Rattle.std.specs.List.{list_any};
    ghost use Rattle.std.specs.List.Sorted.{IsSortedBy};
    ghost use Rattle.std.specs.Iterator.Adapters.{IterYieldsInOrder};
    ghost use Rattle.std.specs.Slice.Iter.{iter_rest};
    ghost use Rattle.photo_device.specs.Held.{held_before};
    ghost use Rattle.photo_device.specs.declared.held.Held as spec;
    ghost use Rattle.fleet_steps.specs.Logged.{IsIndex};

    /// Makes the log of those versions. Its only error is want of memory.
    pub fn new(alloc: Global, issued: Vec<SharedHeld>) -> Result<IssueLog, AllocError>
        ensures { IfOk result (λ log. log ≡ issued.items) }
    {
        let by_picture = by_picture(alloc, issued.as_slice())?;
        Ok(IssueLog { by_picture, issued })
    }

    /// How many versions were made.
    pub fn len(&self) -> usize
        ensures { result ≡ length self.now }
    {
        self.issued.len()
    }

    /// Whether no version was made.
    pub fn is_empty(&self) -> bool
        ensures { result ≡ (length self.now == 0) }
    {
        self.issued.is_empty()
    }

    /// The version at index `i`, from 0, in the order in which they were made.
    pub fn get(&self, i: usize) -> &Held
        requires { i < length self.now }
        ensures { slice_get self.now i ≡ Some result.now }
    {
        self.issued[i].as_held()
    }

    /// The versions, oldest first.
    pub fn iter(&self) -> slice::Iter<'_, SharedHeld>
        ensures issued { iter_rest result ≡ self.now }
        ensures in_order { IterYieldsInOrder SharedHeld }
    {
        self.issued.iter()
    }

    /// The versions sorted by picture and then version.
    pub fn by_picture(&self) -> &[SharedHeld]
        ensures { IsIndex self.now result.now }
    {
        self.by_picture.as_slice()
    }

    /// The versions of a picture, in order. A search finds them and takes no memory.
    pub fn of_picture(&self, picture: PicNo) -> &[SharedHeld]
        ensures ordered { IsSortedBy held_before result.now }
        ensures any { (test : spec.Held → Bool) → list_any test result.now ≡ list_any (λ h. (h.picture == picture) && test h) self.now }
    {
        let index = self.by_picture();
        let from = index.partition_point(|held| held.picture() < picture);
        let to = index.partition_point(|held| held.picture() <= picture);
        &index[from..to]
    }
}

impl<'a> IntoIterator for &'a IssueLog {
    type Item = &'a SharedHeld;

    type IntoIter = slice::Iter<'a, SharedHeld>;

    ghost into_iter_gives = { λ log items. iter_rest items ≡ log.now };

    fn into_iter(self) -> slice::Iter<'a, SharedHeld> {
        self.iter()
    }
}

// The versions sorted by picture and then version. Its only error is want of memory.
fn by_picture(alloc: Global, issued: &[SharedHeld]) -> Result<Vec<SharedHeld>, AllocError>
    ensures { IfOk result (λ index. IsIndex issued.now index.items) }
{
    let mut index = copies(alloc, issued)?;
    index.sort_unstable_by_key(|held| (held.picture(), held.version()));
    Ok(index)
}

// Copies the list; the copy shares the versions. Its only error is want of memory.
fn copies(alloc: Global, issued: &[SharedHeld]) -> Result<Vec<SharedHeld>, AllocError>
    ensures list { IfOk result (λ list. list.items ≡ issued.now) }
    ensures above { OnOk result (AreAbove issued.now) }
{
    let mut list = Vec::with_capacity(alloc, issued.len())?;
    for held in issued {
        list.push(copy_of(held)?)?;
    }
    Ok(list)
}

fn copy_of(held: &SharedHeld) -> Result<SharedHeld, AllocError>
    ensures copy { IfOk result (λ copy. copy ≡ held.now) }
    ensures above { 0 < held.now.picture }
{
    // `value()` is called because its contract says that a picture's number is above 0, which `above` promises.
    let _number = held.picture().value();
    held.try_clone()
}
