//! Calls on a knowledge.
ghost use Rattle.std.specs.Prelude.{◌≡◌, ℕ, ◌<◌, IfSome, if◌then◌else◌};
ghost use Rattle.photo_version.specs.Author as authors;
ghost use Rattle.photo_version.specs.Version as versions;
ghost use Rattle.item_knowledge.specs.Fragments.{knows};
ghost use Rattle.item_knowledge.specs.Kept.{star_bound};

use crate::vectors::vector_of;
use item_knowledge::Knowledge;
use photo_record::PicNo;
use photo_version::{Author, Vector, Version};
use std::alloc::Global;

/// The calls on a knowledge by their groups: `knows`, `same` and similar calls; `fragment` and a fragment's readers; `stage` of
/// what is known already, `staged`, `commit` and `unstage`; `commit` of what wasn't known, once if any calls are asked for; and
/// `try_clone`, which takes memory.
pub fn answer(alloc: Global, group: &str, times: u32) -> Option<bool> {
    match twenty(alloc, 0) {
        Some(mut one) => answer_beside(alloc, &mut one, group, times),
        None => None,
    }
}

fn answer_beside(alloc: Global, one: &mut Knowledge, group: &str, times: u32) -> Option<bool> {
    let is_staging = group == "knowledge_staging";
    match twenty(alloc, if is_staging { 0 } else { 1 }) {
        Some(other) => Some(answer_of(one, &other, group, times)),
        None => None,
    }
}

fn answer_of(one: &mut Knowledge, other: &Knowledge, group: &str, times: u32) -> bool {
    if group == "knowledge_commit" {
        return stages(one, other, times > 0);
    }
    for _ in 0..times {
        let right = match group {
            "knowledge" => are_told_apart(one, other) && knows_eleven(one),
            "fragment" => has_fragments(one),
            "knowledge_copy" => is_copied(one),
            _ => stages_same(one, other),
        };
        if !right {
            return false;
        }
    }
    true
}

// Makes the knowledge learn a device's versions up to that number of a picture.
fn is_told(alloc: Global, knowledge: &mut Knowledge, device: u16, n: u32) -> bool {
    let (Some(picture), Some(version)) = (PicNo::new(n), Version::new(Author::new(device), n))
    else {
        return false;
    };
    match Vector::new(alloc).with(version) {
        Ok(vector) => knowledge.learn(picture, &vector).is_ok(),
        Err(_) => false,
    }
}

// Makes the knowledge learn, of each of the pictures 1 to 20, as many versions of a device as its number, and of the eleventh
// three versions of each of twenty devices.
fn are_told(alloc: Global, knowledge: &mut Knowledge, device: u16) -> bool {
    for n in 1..21u32 {
        if !is_told(alloc, knowledge, device, n) {
            return false;
        }
    }
    match (PicNo::new(11), vector_of(alloc, 3)) {
        (Some(picture), Some(vector)) => knowledge.learn(picture, &vector).is_ok(),
        _ => false,
    }
}

// A knowledge of twenty pictures.
fn twenty(alloc: Global, device: u16) -> Option<Knowledge> {
    match Knowledge::new(alloc) {
        Ok(mut knowledge) => {
            if are_told(alloc, &mut knowledge, device) {
                Some(knowledge)
            } else {
                None
            }
        }
        Err(_) => None,
    }
}

fn are_told_apart(one: &Knowledge, other: &Knowledge) -> bool {
    one.same(one) && !one.same(other) && one.has_all(one) && !one.has_all(other)
}

fn knows_eleven(knowledge: &Knowledge) -> bool {
    let (Some(picture), Some(version)) = (PicNo::new(11), Version::new(Author::new(0), 11)) else {
        return false;
    };
    knowledge.knows(picture, version) && knowledge.fragments() == 21
}

fn has_fragments(knowledge: &Knowledge) -> bool {
    if knowledge.fragments() != 21 {
        return false;
    }
    let eleventh = knowledge.fragment(11);
    knowledge.fragment(0).star()
        && !eleventh.star()
        && eleventh.pictures() == [11].as_slice()
        && eleventh.len() == 20
        && eleventh.entry(0) == (Author::new(0), 11)
        && eleventh.entries().next_entry().is_some()
}

// Stages and commits what an equal knowledge knows, then stages it again and drops it.
fn stages_same(knowledge: &mut Knowledge, same: &Knowledge) -> bool {
    if !stages(knowledge, same, true) || knowledge.stage(same).is_err() {
        return false;
    }
    let staged = knowledge.staged();
    knowledge.unstage();
    staged && !knowledge.staged() && knowledge.same(same)
}

// Stages what another knowledge knows, and commits it if asked.
fn stages(knowledge: &mut Knowledge, other: &Knowledge, commits: bool) -> bool {
    if knowledge.stage(other).is_err() || !knowledge.staged() {
        return false;
    }
    if !commits {
        return true;
    }
    knowledge.commit();
    !knowledge.staged() && knowledge.has_all(other)
}

fn is_copied(knowledge: &Knowledge) -> bool {
    match knowledge.try_clone() {
        Ok(copy) => copy.fragments() == 21,
        Err(_) => false,
    }
}

/// A knowledge of exactly device 0's first version, of every picture.
pub fn first_known(alloc: Global) -> Option<Knowledge>
    ensures star { IfSome result
        (λ k. (a : authors.Author) → star_bound k.known a ≡ (if authors.same_author (authors.author 0) a then 1 else 0)) }
    ensures known { IfSome result (λ k. (p : ℕ) (v : versions.Version) → 0 < p
        → knows k.known p v ≡ versions.same_version (versions.version (authors.author 0) 1) v) }
{
    let version = Version::new(Author::new(0), 1)?;
    match Knowledge::new(alloc) {
        Ok(mut knowledge) => match knowledge.learn_own(version) {
            Ok(()) => Some(knowledge),
            Err(_) => None,
        },
        Err(_) => None,
    }
}

/// `raise_own`, once if any calls are asked for.
pub fn answer_raising(alloc: Global, times: u32) -> Option<bool> {
    match first_known(alloc) {
        Some(mut knowledge) => answer_of_raising(&mut knowledge, times),
        None => None,
    }
}

fn answer_of_raising(knowledge: &mut Knowledge, times: u32) -> Option<bool>
    requires star { (a : authors.Author) → star_bound knowledge.old.known a ≡ (if authors.same_author (authors.author 0) a then 1 else 0) }
    requires known { (p : ℕ) (v : versions.Version) → 0 < p
        → knows knowledge.old.known p v ≡ versions.same_version (versions.version (authors.author 0) 1) v }
{
    let (Some(picture), Some(version)) = (PicNo::new(7), Version::new(Author::new(0), 2)) else {
        return None;
    };
    if times == 0 {
        return Some(true);
    }
    knowledge.raise_own(version);
    Some(knowledge.knows(picture, version))
}
