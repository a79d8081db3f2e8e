//! Tests of what a device learns of its own versions: a bound that rises in every fragment.
ghost use Rattle.std.specs.Prelude.{◌≡◌, ◌<◌, OnOk};
ghost use Rattle.photo_version.specs.Author.{author};
ghost use Rattle.item_knowledge.specs.Kept.{star_bound};

use super::{learns, picture, version};
use item_knowledge::{FragmentEntries, Knowledge};
use photo_version::{Author, Vector};
use std::alloc::{AllocError, Global};

// Learns the first two versions of device 0 of every picture, and between them a version of picture 7.
fn learn_two(knowledge: &mut Knowledge, other: &Vector) -> Result<(), AllocError>
    requires { star_bound knowledge.old.known (author 0) ≡ 0 }
    ensures { OnOk result (star_bound knowledge.new.known (author 0) ≡ 2) }
{
    knowledge.learn_own(version(0, 1))?;
    knowledge.learn(picture(7), other)?;
    knowledge.learn_own(version(0, 2))
}

// Whether the next entry is that of a device, with that bound.
fn comes(entries: &mut FragmentEntries<'_>, device: u16, n: u32) -> bool {
    match entries.next_entry() {
        Some((author, number)) => author == Author::new(device) && number == n,
        None => false,
    }
}

// Whether the fragment behind the star has two entries, with these bounds.
fn shows(knowledge: &Knowledge, first: u32, second: u32) -> bool {
    if knowledge.fragments() != 2 {
        return false;
    }
    let fragment = knowledge.fragment(1);
    let mut entries = fragment.entries();
    fragment.len() == 2
        && fragment.entry(0).1 == first
        && fragment.entry(1).1 == second
        && comes(&mut entries, 0, first)
        && comes(&mut entries, 1, second)
        && is_over(&mut entries)
}

// Whether no entry comes any more, however often the cursor is asked.
fn is_over(entries: &mut FragmentEntries<'_>) -> bool {
    entries.next_entry().is_none() && entries.next_entry().is_none()
}

// Whether device 0's versions up to the second are known of every picture, and device 1's first of picture 7.
fn has_two(knowledge: &Knowledge) -> bool {
    shows(knowledge, 2, 1)
        && knowledge.knows(picture(5), version(0, 2))
        && !knowledge.knows(picture(5), version(1, 1))
        && knowledge.knows(picture(7), version(0, 2))
        && knowledge.knows(picture(7), version(1, 1))
        && !knowledge.knows(picture(7), version(0, 3))
}

// Whether a bound that rises again is in every fragment, and other knowledges can learn it too.
fn rises_again(alloc: Global, knowledge: &mut Knowledge) -> bool
    requires { star_bound knowledge.old.known (author 0) ≡ 2 }
{
    if !has_two(knowledge) || knowledge.learn_own(version(0, 3)).is_err() {
        return false;
    }
    shows(knowledge, 3, 1)
        && learns(alloc, knowledge, 5, 1, 1)
        && shows(knowledge, 3, 1)
        && knowledge.knows(picture(5), version(1, 1))
        && learns(alloc, knowledge, 9, 0, 3)
        && shows(knowledge, 3, 1)
        && knowledge.knows(picture(9), version(0, 3))
}

// Whether a knowledge has more than an earlier one, which equals it after learning it.
fn has_more(knowledge: &Knowledge, before: &mut Knowledge) -> bool {
    knowledge.has_all(before)
        && !before.has_all(knowledge)
        && !before.same(knowledge)
        && before.learn_all(knowledge).is_ok()
        && before.same(knowledge)
        && knowledge.same(before)
}

// Whether a knowledge whose bound rises compares rightly with its earlier copy, which then learns it.
fn rises_beside_its_copy(alloc: Global, knowledge: &mut Knowledge) -> bool
    requires { star_bound knowledge.old.known (author 0) ≡ 2 }
{
    match knowledge.try_clone() {
        Ok(mut before) => {
            knowledge.same(&before)
                && rises_again(alloc, knowledge)
                && has_more(knowledge, &mut before)
        }
        Err(_) => false,
    }
}

fn rises_from_nothing(alloc: Global, knowledge: &mut Knowledge, other: &Vector) -> bool
    requires { star_bound knowledge.old.known (author 0) ≡ 0 }
{
    match learn_two(knowledge, other) {
        Ok(()) => rises_beside_its_copy(alloc, knowledge),
        Err(_) => false,
    }
}

fn rises(alloc: Global, other: &Vector) -> bool {
    match Knowledge::new(alloc) {
        Ok(mut knowledge) => rises_from_nothing(alloc, &mut knowledge, other),
        Err(_) => false,
    }
}

fn own_versions_rise(alloc: Global) -> bool {
    match Vector::new(alloc).with(version(1, 1)) {
        Ok(other) => rises(alloc, &other),
        Err(_) => false,
    }
}

#[test]
fn a_bound_that_rose_is_shown_in_every_fragment(rt: HostRuntime) {
    assert!(rt; own_versions_rise(rt.alloc()));
}
