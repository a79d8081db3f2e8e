// Lists of entries: copies and insertions.
ghost use Rattle.std.specs.Prelude.{◌≡◌, ◌≤◌, not, filter, length, IfOk, OnOk};
ghost use Rattle.std.specs.List.{prefix_len, list_any};
ghost use Rattle.photo_filter_rules.specs.Matching.{matches};
ghost use Rattle.photo_model.specs.Entry.{entry_before, others, put_entry, put_entry_if, put_entries, supersedes, superseded_by, is_among};
ghost use Rattle.photo_model.specs.Device.{place_for};
ghost use Rattle.test_list_device.specs.Entries.{entry_of, entries_of};

use crate::ListEntry;
use photo_filter_rules::Filter;
use photo_model::Place;
use photo_record::PicNo;
use photo_version::Version;
use std::alloc::{AllocError, Global};

/// Copies the entries of a list. Its only error is want of memory.
pub(crate) fn copied(alloc: Global, list: &[ListEntry]) -> Result<Vec<ListEntry>, AllocError>
    ensures { IfOk result (λ copy. entries_of copy.items ≡ entries_of list.now) }
{
    let mut copy = Vec::new(alloc);
    for entry in list {
        copy.push(entry.try_clone(alloc)?)?;
    }
    Ok(copy)
}

/// Copies the entries of all other pictures. Its only error is want of memory.
pub(crate) fn others(
    alloc: Global,
    list: &[ListEntry],
    picture: PicNo,
) -> Result<Vec<ListEntry>, AllocError>
    ensures { IfOk result (λ kept. entries_of kept.items ≡ others picture (entries_of list.now)) }
{
    let mut kept = copied(alloc, list)?;
    kept.retain(|e| e.picture != picture);
    Ok(kept)
}

/// Whether an entry of the list supersedes this one.
pub(crate) fn is_superseded(list: &[ListEntry], entry: &ListEntry) -> bool
    ensures { result ≡ superseded_by (entries_of list.now) (entry_of entry.now) }
{
    list.iter().any(|other| other.supersedes(entry))
}

/// Whether this entry supersedes one of the list.
pub(crate) fn supersedes_any(entry: &ListEntry, list: &[ListEntry]) -> bool
    ensures { result ≡ list_any (supersedes (entry_of entry.now)) (entries_of list.now) }
{
    list.iter().any(|other| entry.supersedes(other))
}

/// Whether an entry of the list is of that version.
pub(crate) fn is_stored(list: &[ListEntry], version: Version) -> bool
    ensures { result ≡ is_among (entries_of list.now) version }
{
    list.iter().any(|e| e.version == version)
}

// How many entries at the front of a list sort before this one.
fn place_of(list: &[ListEntry], entry: &ListEntry) -> usize
    ensures place { result ≡ prefix_len (λ other. entry_before (entry_of other) (entry_of entry.now)) list.now }
    ensures within { result ≤ length list.now }
{
    list.iter()
        .position(|other| !other.is_before(entry))
        .unwrap_or(list.len())
}

/// Puts an entry at its place in a sorted list. Its only error is want of memory.
#[tactic(auto, using(crate::proofs::Mapped::put_at))]
pub(crate) fn put(list: &mut Vec<ListEntry>, entry: ListEntry) -> Result<(), AllocError>
    ensures { OnOk result (entries_of list.new.items ≡ put_entry (entry_of entry) (entries_of list.old.items)) }
{
    let place = place_of(list, &entry);
    list.insert(place, entry)?;
    Ok(())
}

/// Puts an entry into the store if the filter matches it, and otherwise into the out. Its only error is want of memory.
pub(crate) fn put_in(
    wanted: &Filter,
    entry: ListEntry,
    store: &mut Vec<ListEntry>,
    out: &mut Vec<ListEntry>,
) -> Result<Place, AllocError>
    ensures place { IfOk result (λ place. place ≡ place_for wanted.now entry.content) }
    ensures store { OnOk result (entries_of store.new.items
        ≡ put_entry_if (matches wanted.now entry.content) (entry_of entry) (entries_of store.old.items)) }
    ensures out { OnOk result (entries_of out.new.items
        ≡ put_entry_if (not (matches wanted.now entry.content)) (entry_of entry) (entries_of out.old.items)) }
{
    if wanted.matches(&entry.content) {
        put(store, entry)?;
        Ok(Place::Store)
    } else {
        put(out, entry)?;
        Ok(Place::Out)
    }
}

/// Puts each entry into the store if the filter matches it, and otherwise into the out. Its only error is want of memory.
pub(crate) fn sort_in(
    wanted: &Filter,
    mut coming: Vec<ListEntry>,
    store: &mut Vec<ListEntry>,
    out: &mut Vec<ListEntry>,
) -> Result<(), AllocError>
    ensures store { OnOk result (entries_of store.new.items
        ≡ put_entries (filter (λ e. matches wanted.now e.content) (entries_of coming.items)) (entries_of store.old.items)) }
    ensures out { OnOk result (entries_of out.new.items
        ≡ put_entries (filter (λ e. not (matches wanted.now e.content)) (entries_of coming.items)) (entries_of out.old.items)) }
{
    while let Some(entry) = coming.pop() {
        put_in(wanted, entry, store, out)?;
    }
    Ok(())
}
