// The steps of the tables: what a device does, with the result, and what it has.
ghost use Rattle.std.specs.Prelude.{◌≡◌, ◌<◌, ℕ, false, IfSome};
ghost use Rattle.photo_version.specs.Version as versions;
ghost use Rattle.item_knowledge.specs.Fragments.{knows};

use super::asking::{Round, asks};
use super::changing::{Changed, edits, makes, removes};
use super::filtering::{hands_over, narrows, refilters};
use super::pulling::pulls_nothing;
use super::showing::{fills, is_gone_over, shows};
use super::staging::{commits, copies, stages, stages_both};
use photo_device::{Device, Held, HeldSet, Place, SharedHeld};
use photo_filter_rules::Filter;
use photo_record::{Day, PicNo, Rating, Record, Words};
use photo_version::{Author, Version};
use std::alloc::Global;

/// Versions, each by its picture and its number.
pub type List = &'static [(u32, u32)];

/// A step of a device. Numbers give pictures, ratings and the device's own versions; a removed picture has no rating.
pub enum Step {
    /// The device makes a version of a picture with a rating: the version's number and place.
    Make(u32, Option<u8>, (u32, Place)),
    /// The device makes a version of each picture up to that number.
    Fill(u32),
    /// The device edits a picture to a rating: the result.
    Edit(u32, u8, Changed),
    /// The device removes a picture: the result.
    Remove(u32, Changed),
    /// The device narrows to a filter: how many versions go to the out, or `None` where it refuses.
    Narrow(&'static str, Option<u64>),
    /// The device gets another filter: how many versions its store and its out then have.
    Refilter(&'static str, (u64, u64)),
    /// The device hands over a version: whether it does.
    HandOver(u32, bool),
    /// The device stages dropping a version of its store, with capacity for that many more: whether it does.
    Stage(u32, usize, bool),
    /// The device stages dropping a version of its store and one of its out: whether it does.
    StageBoth(u32, u32, bool),
    /// The device commits what is staged.
    Commit,
    /// A pull of the device from a new one, of that number, is staged. It changes nothing.
    PullNothing(u16),
    /// Whether the device has something staged.
    IsStaged(bool),
    /// A copy of the device changes without changing the device.
    Copy,
    /// The device is asked what it doesn't know of another one, given by its number.
    Ask(u16, &'static [Round]),
    /// The device's number, its epoch, and how many versions it has made.
    Is(u16, u32, u32),
    /// Exactly what the device's store and out have.
    Has(List, List),
    /// Whether the device holds its version of that number: the picture and the rating.
    Holds(u32, Option<(u32, Option<u8>)>),
    /// Whether the device's store has the version, given by its device and number, of that picture.
    Finds(u32, (u16, u32), bool),
    /// Whether the device knows the version, given by its device, epoch and number, of that picture.
    Knows(u32, (u16, u32, u32), bool),
    /// How many fragments the device's knowledge has.
    Fragments(usize),
    /// The last of the device's versions in the history of one of its versions, or 0.
    MadeWith(u32, u32),
    /// The device's store has that many blocks, and a version of each picture up to that number.
    GoneOver(usize, u32),
    /// The lines of the device's store and of its out.
    Shows(&'static str, &'static str),
}

/// Whether the device passes the steps one after another.
pub fn does(alloc: Global, device: &mut Device, steps: &[Step]) -> bool {
    for step in steps {
        if !does_one(alloc, device, step) {
            return false;
        }
    }
    true
}

fn does_one(alloc: Global, device: &mut Device, step: &Step) -> bool {
    match step {
        Step::Make(number, rating, made) => makes(alloc, device, *number, *rating, *made),
        Step::Fill(n) => fills(alloc, device, *n),
        Step::Edit(number, rating, made) => edits(alloc, device, *number, *rating, *made),
        Step::Remove(number, made) => removes(device, *number, *made),
        Step::Narrow(text, moved) => narrows(alloc, device, text, *moved),
        Step::Refilter(text, sizes) => refilters(alloc, device, text, *sizes),
        Step::HandOver(n, goes) => hands_over(device, *n) == *goes,
        Step::Stage(n, room, staged) => stages(alloc, device, *n, *room) == *staged,
        Step::StageBoth(in_store, in_out, staged) => {
            stages_both(alloc, device, *in_store, *in_out) == *staged
        }
        Step::Commit => commits(alloc, device),
        Step::PullNothing(author) => pulls_nothing(alloc, device, *author),
        Step::Ask(author, rounds) => asks(alloc, device, *author, rounds),
        _ => has_come(alloc, device, step),
    }
}

// Whether the device is as the step says; such a step doesn't change it.
fn has_come(alloc: Global, device: &Device, step: &Step) -> bool {
    match step {
        Step::IsStaged(staged) => {
            device.staged() == *staged && device.knowledge().staged() == *staged
        }
        Step::Copy => copies(alloc, device),
        Step::Is(number, epoch, count) => {
            device.author() == Author::at(*number, *epoch) && device.counter() == *count
        }
        Step::Has(store, out) => has(device, store, out),
        Step::Holds(n, wanted) => holds(alloc, device, *n, *wanted),
        Step::Finds(number, version, wanted) => finds(device, *number, *version) == Some(*wanted),
        Step::Knows(number, version, wanted) => knows(device, *number, *version) == Some(*wanted),
        Step::Fragments(count) => device.knowledge().fragments() == *count,
        Step::MadeWith(n, last) => is_made_with(device, *n, *last),
        Step::GoneOver(blocks, n) => {
            device.store().blocks().len() == *blocks && is_gone_over(alloc, device, *n)
        },
        Step::Shows(store, out) => shows(alloc, device, store, out),
        _ => false,
    }
}

/// The filter with that text.
pub fn filter_of(alloc: Global, text: &str) -> Option<Filter> {
    let tree = photo_filter_text::read(alloc, text).ok()?;
    Filter::build(alloc, tree).ok()
}

/// A new device, by its number and its filter's text. It knows nothing.
pub fn opened(alloc: Global, author: u16, text: &str) -> Option<Device>
    ensures { IfSome result (λ d. (p : ℕ) (v : versions.Version) → 0 < p → knows d.knowledge p v ≡ false) }
{
    let filter = filter_of(alloc, text)?;
    match Device::new(alloc, Author::new(author), filter) {
        Ok(device) => Some(device),
        Err(_) => None,
    }
}

/// The record of a picture with that rating, or of a removed picture.
pub fn content_of(alloc: Global, rating: Option<u8>) -> Option<Record> {
    let Some(rating) = rating else {
        return Some(Record::Removed);
    };
    Some(Record::Picture {
        rating: Rating::new(rating)?,
        day: Day::read("2024-01-01")?,
        words: Words::read(alloc, "-").ok()?,
    })
}

/// Whether a list has exactly the versions with those pictures and numbers, both in the list itself and in what it shares.
pub fn are(helds: &[SharedHeld], wanted: &[(u32, u32)]) -> bool {
    if helds.len() != wanted.len() {
        return false;
    }
    for i in 0..helds.len() {
        let one = &helds[i];
        if one.picture().value() != wanted[i].0 || one.version().n() != wanted[i].1 {
            return false;
        }
        if one.picture() != one.as_held().picture || one.version() != one.as_held().version {
            return false;
        }
    }
    true
}

// The same for a set.
fn lists(set: &HeldSet, wanted: &[(u32, u32)]) -> bool {
    if set.len() != wanted.len() || set.is_empty() != wanted.is_empty() {
        return false;
    }
    for i in 0..set.len() {
        let held = set.get(i);
        if held.picture.value() != wanted[i].0 || held.version.n() != wanted[i].1 {
            return false;
        }
    }
    true
}

// The same for a set's list.
fn is_list(set: &HeldSet, wanted: &[(u32, u32)]) -> bool {
    match set.to_list() {
        Ok(list) => list.len() == wanted.len() && are(list.as_slice(), wanted),
        Err(_) => false,
    }
}

// Whether the device has exactly those in its store and its out. A device by itself has no conflict.
fn has(device: &Device, store: &[(u32, u32)], out: &[(u32, u32)]) -> bool {
    lists(device.store(), store)
        && lists(device.out(), out)
        && is_list(device.store(), store)
        && is_list(device.out(), out)
        && matches!(device.conflicts(), Ok(list) if list.is_empty())
}

// The device's version of that number, as the device holds it.
fn held(device: &Device, n: u32) -> Option<&Held> {
    device.held(Version::new(device.author(), n)?)
}

fn holds(alloc: Global, device: &Device, n: u32, wanted: Option<(u32, Option<u8>)>) -> bool {
    match (held(device, n), wanted) {
        (Some(held), Some((number, rating))) => is_held(alloc, device, held, number, rating),
        (found, wanted) => found.is_none() && wanted.is_none(),
    }
}

// Whether a held version has that picture and rating, and a search by its picture finds it.
fn is_held(alloc: Global, device: &Device, held: &Held, number: u32, rating: Option<u8>) -> bool {
    match (
        device.held_of(held.picture, held.version),
        content_of(alloc, rating),
    ) {
        (Some(found), Some(content)) => {
            found.as_held() == held && held.picture.value() == number && held.content == content
        }
        _ => false,
    }
}

// Whether the device's store has that version of that picture, both by a search and by looking at all versions.
fn finds(device: &Device, number: u32, (author, n): (u16, u32)) -> Option<bool> {
    let picture = PicNo::new(number)?;
    let version = Version::new(Author::new(author), n)?;
    let set = device.store();
    let has = set.has(picture, version);
    let is_there = set.find(version).is_some();
    if set.of(picture, version).is_some() == has && (is_there || !has) {
        Some(has)
    } else {
        None
    }
}

// Whether the device knows the version, given by its device, epoch and number, of that picture.
fn knows(device: &Device, number: u32, (author, epoch, n): (u16, u32, u32)) -> Option<bool> {
    let picture = PicNo::new(number)?;
    let version = Version::new(Author::at(author, epoch), n)?;
    Some(device.knowledge().knows(picture, version))
}

// Whether the history of the device's version of that number is exactly the device's versions up to another number.
fn is_made_with(device: &Device, n: u32, last: u32) -> bool {
    match held(device, n) {
        Some(held) if last == 0 => held.made_with.is_empty(),
        Some(held) => held.made_with.len() == 1
            && held.made_with.entry(0) == (device.author(), last),
        None => false,
    }
}
