// A pull between two list devices.
ghost use Rattle.std.specs.Prelude.{◌≡◌, not, filter, IfOk, OnOk, OnErr};
ghost use Rattle.photo_model.specs.Pull as model;
ghost use Rattle.photo_model.specs.Pull.{pulled, handed_over, counts_of, leaves_store, leaves_out};
ghost use Rattle.test_list_device.specs.Sets.{listed, listed_of};
ghost use Rattle.test_list_device.specs.Entries.{entry_of, entries_of};
ghost use Rattle.test_list_device.specs.Shown.{shown};
ghost use Rattle.test_list_device.specs.News.{IsTold};

use crate::known::tell_all;
use crate::lists::{copied, is_stored, is_superseded, sort_in};
use crate::{Known, ListDevice, ListEntry};
use photo_filter_rules::covers;
use photo_model::PullCounts;
use photo_version::Version;
use std::alloc::{AllocError, Global};

// What a source tells a target: the entries that the target takes, those handed over to it and those of which it gets notices,
// in that order.
#[derive(Debug, Drop)]
struct News {
    entries: Vec<ListEntry>,
    taken: usize,
    handed: usize,
    notices: usize,
}

// Copies the entries that a target takes. Its only error is want of memory.
fn taken(
    alloc: Global,
    target: &ListDevice,
    source: &ListDevice,
) -> Result<Vec<ListEntry>, AllocError>
    ensures { IfOk result (λ list. entries_of list.items ≡ model.taken (shown target.now) (shown source.now)) }
{
    let mut list = copied(alloc, &source.store)?;
    list.retain(|e| !target.knows_entry(e) && target.selects(e));
    Ok(list)
}

/// Copies the entries that are handed over to a target. Its only error is want of memory.
pub(crate) fn handed(
    alloc: Global,
    target: &ListDevice,
    source: &ListDevice,
) -> Result<Vec<ListEntry>, AllocError>
    ensures { IfOk result (λ list. entries_of list.items ≡ model.handed (shown target.now) (shown source.now)) }
{
    let mut list = copied(alloc, &source.out)?;
    list.retain(|e| !target.knows_entry(e));
    Ok(list)
}

// Copies the entries of which a target gets notices. Its only error is want of memory.
fn noticed(
    alloc: Global,
    target: &ListDevice,
    source: &ListDevice,
) -> Result<Vec<ListEntry>, AllocError>
    ensures { IfOk result (λ list. entries_of list.items ≡ model.noticed (shown target.now) (shown source.now)) }
{
    let mut list = copied(alloc, &source.store)?;
    list.retain(|e| !target.knows_entry(e) && (!target.selects(e) && target.holds_older(e)));
    Ok(list)
}

// All that a source tells a target. Its only error is want of memory.
fn told(alloc: Global, target: &ListDevice, source: &ListDevice) -> Result<News, AllocError>
    ensures { IfOk result (IsTold (shown target.now) (shown source.now)) }
{
    let mut entries = taken(alloc, target, source)?;
    let mut waiting = handed(alloc, target, source)?;
    let mut noticed = noticed(alloc, target, source)?;
    let (taken, handed, notices) = (entries.len(), waiting.len(), noticed.len());
    entries.append(&mut waiting)?;
    entries.append(&mut noticed)?;
    Ok(News {
        entries,
        taken,
        handed,
        notices,
    })
}

// Whether a target drops an entry because the source knows it and doesn't store it.
fn is_stale(target: &ListDevice, source: &ListDevice, entry: &ListEntry) -> bool
    ensures { result ≡ model.is_stale (shown target.now) (shown source.now) (entry_of entry.now) }
{
    covers(&source.filter, &target.filter)
        && (source.knows_entry(entry) && !is_stored(&source.store, entry.version))
}

// Copies the entries of its store that a target keeps. Its only error is want of memory.
fn kept_stored(
    alloc: Global,
    target: &ListDevice,
    source: &ListDevice,
    news: &[ListEntry],
) -> Result<Vec<ListEntry>, AllocError>
    requires { entries_of news.now ≡ model.told (shown target.now) (shown source.now) }
    ensures { IfOk result (λ list. entries_of list.items
        ≡ filter (λ e. not (leaves_store (shown target.now) (shown source.now) e)) (shown target.now).store) }
{
    let mut list = copied(alloc, &target.store)?;
    list.retain(|e| !(is_superseded(news, e) || is_stale(target, source, e)));
    Ok(list)
}

// Copies the entries of its out that a target keeps. Its only error is want of memory.
fn kept_waiting(
    alloc: Global,
    target: &ListDevice,
    source: &ListDevice,
    news: &[ListEntry],
) -> Result<Vec<ListEntry>, AllocError>
    requires { entries_of news.now ≡ model.told (shown target.now) (shown source.now) }
    ensures { IfOk result (λ list. entries_of list.items
        ≡ filter (λ e. not (leaves_out (shown target.now) (shown source.now) e)) (shown target.now).out) }
{
    let mut list = copied(alloc, &target.out)?;
    list.retain(|e| !is_superseded(news, e));
    Ok(list)
}

// What a target knows after the pull, of every picture and of single ones. Its only error is want of memory.
fn known_then(
    alloc: Global,
    target: &ListDevice,
    source: &ListDevice,
    news: &[ListEntry],
) -> Result<(Vec<Version>, Vec<Known>), AllocError>
    requires { entries_of news.now ≡ model.told (shown target.now) (shown source.now) }
    ensures every { IfOk result (λ lists. listed lists.0.items ≡ (pulled (shown target.now) (shown source.now)).every) }
    ensures of { IfOk result (λ lists. listed_of lists.1.items ≡ (pulled (shown target.now) (shown source.now)).of) }
{
    let mut every = Vec::from_slice(alloc, &target.every)?;
    let mut of = Vec::from_slice(alloc, &target.of)?;
    tell_all(&mut of, news)?;
    if covers(&source.filter, &target.filter) {
        every.extend_from_slice(&source.every)?;
        of.extend_from_slice(&source.of)?;
    }
    Ok((every, of))
}

// The target after the pull, and the counts of what was moved and told. Its only error is want of memory.
fn target_then(
    alloc: Global,
    target: &ListDevice,
    source: &ListDevice,
    news: News,
) -> Result<(ListDevice, PullCounts), AllocError>
    requires { IsTold (shown target.now) (shown source.now) news }
    ensures device { IfOk result (λ next. shown next.0 ≡ pulled (shown target.now) (shown source.now)) }
    ensures counts { IfOk result (λ next. next.1 ≡ counts_of (shown target.now) (shown source.now)) }
{
    let mut store = kept_stored(alloc, target, source, &news.entries)?;
    let mut out = kept_waiting(alloc, target, source, &news.entries)?;
    let (every, of) = known_then(alloc, target, source, &news.entries)?;
    let dropped = (target.store.len() - store.len()) as u64 + (target.out.len() - out.len()) as u64;
    let mut new = news.entries;
    new.truncate(news.taken + news.handed);
    sort_in(&target.filter, new, &mut store, &mut out)?;
    let counts = PullCounts {
        taken: news.taken as u64,
        handed: news.handed as u64,
        notices: news.notices as u64,
        dropped,
        learned: covers(&source.filter, &target.filter),
    };
    let next = ListDevice {
        author: target.author,
        filter: target.filter.try_clone()?,
        counter: target.counter,
        store,
        out,
        every,
        of,
    };
    Ok((next, counts))
}

/// The target takes from a copy of the source what a pull would give it. Gives the counts of what was moved and told. Its only error
/// is want of memory, after which the target is as it was.
pub(crate) fn pull_from(
    alloc: Global,
    target: &mut ListDevice,
    source: &ListDevice,
) -> Result<PullCounts, AllocError>
    ensures target { OnOk result (shown target.new ≡ pulled (shown target.old) (shown source.now)) }
    ensures counts { IfOk result (λ counts. counts ≡ counts_of (shown target.old) (shown source.now)) }
    ensures kept { OnErr result (target.new ≡ target.old) }
{
    let news = told(alloc, target, source)?;
    let (next, counts) = target_then(alloc, target, source, news)?;
    *target = next;
    Ok(counts)
}

/// The target takes from the source what its filter selects, gets what the source hands over, and learns what the source knows.
/// Gives the counts of what was moved and told. Its only error is want of memory, after which both devices are as they were.
pub fn pull(
    alloc: Global,
    target: &mut ListDevice,
    source: &mut ListDevice,
) -> Result<PullCounts, AllocError>
    ensures target { OnOk result (shown target.new ≡ pulled (shown target.old) (shown source.old)) }
    ensures source { OnOk result (shown source.new ≡ handed_over (shown target.old) (shown source.old)) }
    ensures counts { IfOk result (λ counts. counts ≡ counts_of (shown target.old) (shown source.old)) }
    ensures target_kept { OnErr result (target.new ≡ target.old) }
    ensures source_kept { OnErr result (source.new ≡ source.old) }
{
    let news = told(alloc, target, source)?;
    let (next, counts) = target_then(alloc, target, source, news)?;
    source.out.retain(|e| target.knows_entry(e));
    *target = next;
    Ok(counts)
}
