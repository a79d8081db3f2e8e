//! Calls of `item_knowledge`.
ghost use Rattle.std.specs.Prelude.{◌≡◌, ◌+◌, ◌<◌, ◌==◌, ◌&&◌, ℕ, [], ◌∷◌, true, IfSome};
ghost use Rattle.photo_version.specs.Author.{author};
ghost use Rattle.photo_version.specs.Version as versions;
ghost use Rattle.photo_version.specs.Vector.{denotes};
ghost use Rattle.item_knowledge.specs.Fragments.{knows};
ghost use Rattle.item_knowledge.specs.Tables.{in_order};
ghost use Rattle.item_knowledge.specs.Kept.{star_bound};

use crate::vectors::vector_of;
use crate::verdict::{Verdict, judged, mark};
use item_knowledge::{Knowledge, Told};
use photo_record::PicNo;
use photo_version::{Author, Vector, Version};
use std::alloc::Global;

/// The verdict on a call of `item_knowledge`.
pub fn verdict(alloc: Global, call: &str) -> Option<Verdict> {
    match call {
        "Knowledge::new" => Some(judged(makes(alloc), true)),
        "Knowledge::learn_own" => learn_own(alloc),
        _ => on_knowledge(alloc, call),
    }
}

// The verdict on a call on a knowledge of three versions of picture 7.
fn on_knowledge(alloc: Global, call: &str) -> Option<Verdict> {
    let mut made = told(alloc, 7, 3);
    let verdict = match &mut made {
        Some(knowledge) => on_told(alloc, knowledge, call),
        None => None,
    };
    drop(made);
    verdict
}

fn on_told(alloc: Global, knowledge: &mut Knowledge, call: &str) -> Option<Verdict> {
    let right = calls(alloc, knowledge, call)?;
    Some(judged(right, is_told(knowledge, 7, 3)))
}

// Whether the call gives the right answer; the inner `None` means that memory was refused. The outer one means that no call has
// the name, or that the values for it can't be made.
fn calls(alloc: Global, knowledge: &mut Knowledge, call: &str) -> Option<Option<bool>> {
    match call {
        "Knowledge::of" => Some(tells(alloc, knowledge)),
        "Knowledge::try_clone" => Some(copies(alloc, knowledge)),
        "Knowledge::learn" => learns(alloc, knowledge),
        "Knowledge::stage_told" => stages_table(alloc, knowledge),
        "Told::of_table" => tells_table(alloc, knowledge),
        _ => learns_from(alloc, knowledge, call),
    }
}

fn learns_from(alloc: Global, knowledge: &mut Knowledge, call: &str) -> Option<Option<bool>> {
    let made = told(alloc, 9, 4);
    let right = match &made {
        Some(other) => learns_other(alloc, knowledge, other, call),
        None => None,
    };
    drop(made);
    right
}

fn learns_other(
    alloc: Global,
    knowledge: &mut Knowledge,
    other: &Knowledge,
    call: &str,
) -> Option<Option<bool>> {
    match call {
        "Knowledge::learn_all" => Some(learns_all(alloc, knowledge, other)),
        "Knowledge::stage" => Some(stages(alloc, knowledge, other)),
        _ => None,
    }
}

fn makes(alloc: Global) -> Option<bool> {
    mark(alloc);
    let made = Knowledge::new(alloc);
    mark(alloc);
    let right = match &made {
        Ok(knowledge) => Some(is_new(knowledge)),
        Err(_) => None,
    };
    drop(made);
    right
}

// Whether nothing is known.
fn is_new(knowledge: &Knowledge) -> bool {
    knowledge.fragments() == 1 && !knows(knowledge, 7, 1)
}

// Whether a version of device 1 is known of a picture.
fn knows(knowledge: &Knowledge, picture: u32, n: u32) -> bool {
    match (PicNo::new(picture), Version::new(Author::new(1), n)) {
        (Some(picture), Some(version)) => knowledge.knows(picture, version),
        _ => false,
    }
}

// Whether exactly device 1's first `n` versions are known, of one picture.
fn is_told(knowledge: &Knowledge, picture: u32, n: u32) -> bool {
    if knowledge.fragments() != 2 {
        return false;
    }
    let (star, told) = (knowledge.fragment(0), knowledge.fragment(1));
    if star.len() != 0 || told.len() != 1 {
        return false;
    }
    told.pictures() == [u64::from(picture)].as_slice() && told.entry(0) == (Author::new(1), n)
}

/// A knowledge of exactly device 1's first `n` versions, of a picture. `None` where a number is out of range, or memory is
/// refused.
pub fn told(alloc: Global, picture: u32, n: u32) -> Option<Knowledge>
    ensures { IfSome result (λ knowledge. (p : ℕ) (v : versions.Version) → 0 < p
        → knows knowledge.known p v ≡ ((picture == p) && denotes ((author 1, n) ∷ []) v)) }
{
    let picture = PicNo::new(picture)?;
    match vector_of(alloc, 1, n) {
        Some(vector) => told_one(alloc, picture, &vector),
        None => None,
    }
}

// A knowledge of exactly the versions of a vector, of a picture.
fn told_one(alloc: Global, picture: PicNo, vector: &Vector) -> Option<Knowledge>
    ensures { IfSome result (λ knowledge. (p : ℕ) (v : versions.Version) → 0 < p
        → knows knowledge.known p v ≡ ((picture == p) && denotes vector.now v)) }
{
    match Knowledge::new(alloc) {
        Ok(mut knowledge) => {
            if knowledge.learn(picture, vector).is_ok() {
                return Some(knowledge);
            }
            drop(knowledge);
            None
        }
        Err(_) => None,
    }
}

fn tells(alloc: Global, knowledge: &Knowledge) -> Option<bool> {
    let picture = PicNo::new(7)?;
    mark(alloc);
    let vector = knowledge.of(picture);
    mark(alloc);
    match vector {
        Ok(vector) => Some(vector.len() == 1 && vector.entry(0) == (Author::new(1), 3)),
        Err(_) => None,
    }
}

fn copies(alloc: Global, knowledge: &Knowledge) -> Option<bool> {
    mark(alloc);
    let made = knowledge.try_clone();
    mark(alloc);
    let right = match &made {
        Ok(copy) => Some(copy.same(knowledge)),
        Err(_) => None,
    };
    drop(made);
    right
}

fn learns(alloc: Global, knowledge: &mut Knowledge) -> Option<Option<bool>> {
    let picture = PicNo::new(9)?;
    match vector_of(alloc, 1, 4) {
        Some(vector) => {
            mark(alloc);
            let done = knowledge.learn(picture, &vector).is_ok();
            mark(alloc);
            Some(is_right(done, vector.len() == 1, knowledge))
        }
        None => None,
    }
}

// Whether what was lent is as it was, and the knowledge has learned what it tells. `None` where memory was refused.
fn is_right(done: bool, kept: bool, knowledge: &Knowledge) -> Option<bool> {
    if !kept {
        return Some(false);
    }
    if !done {
        return None;
    }
    Some(has_learned(knowledge))
}

// Whether four versions are known of picture 9, and three of picture 7.
fn has_learned(knowledge: &Knowledge) -> bool {
    knowledge.fragments() == 3
        && knows(knowledge, 9, 4)
        && !knows(knowledge, 9, 5)
        && knows(knowledge, 7, 3)
        && !knows(knowledge, 7, 4)
}

// A table with four versions of picture 9.
fn table(alloc: Global) -> Option<Vec<(PicNo, Vector)>>
    ensures { IfSome result (λ table. in_order table.items ≡ true) }
{
    let vector = vector_of(alloc, 1, 4)?;
    let mut table = Vec::new(alloc);
    table.push((PicNo::new(9)?, vector)).ok()?;
    Some(table)
}

fn stages_table(alloc: Global, knowledge: &mut Knowledge) -> Option<Option<bool>> {
    let table = table(alloc)?;
    let told = Told::of_table(alloc, table.as_slice()).ok()?;
    mark(alloc);
    let done = knowledge.stage_told(&told).is_ok();
    mark(alloc);
    let kept = is_told(knowledge, 7, 3);
    if knowledge.staged() {
        knowledge.commit();
    }
    Some(is_right(done, kept, knowledge))
}

// A table is told rightly if the knowledge then learns exactly what it says.
fn tells_table(alloc: Global, knowledge: &mut Knowledge) -> Option<Option<bool>> {
    let table = table(alloc)?;
    mark(alloc);
    let made = Told::of_table(alloc, table.as_slice());
    mark(alloc);
    let Ok(told) = made else {
        return Some(None);
    };
    let done = knowledge.stage_told(&told).is_ok();
    if knowledge.staged() {
        knowledge.commit();
    }
    Some(Some(done && has_learned(knowledge)))
}

fn learns_all(alloc: Global, knowledge: &mut Knowledge, other: &Knowledge) -> Option<bool> {
    mark(alloc);
    let done = knowledge.learn_all(other).is_ok();
    mark(alloc);
    is_right(done, is_told(other, 9, 4), knowledge)
}

fn stages(alloc: Global, knowledge: &mut Knowledge, other: &Knowledge) -> Option<bool> {
    mark(alloc);
    let done = knowledge.stage(other).is_ok();
    mark(alloc);
    let kept = is_told(knowledge, 7, 3) && is_told(other, 9, 4);
    if knowledge.staged() {
        knowledge.commit();
    }
    is_right(done, kept, knowledge)
}

fn learn_own(alloc: Global) -> Option<Verdict> {
    let version = Version::new(Author::new(1), 1)?;
    match Knowledge::new(alloc) {
        Ok(mut knowledge) => {
            let right = learns_own(alloc, &mut knowledge, version);
            let unchanged = is_new(&knowledge);
            drop(knowledge);
            Some(judged(right, unchanged))
        }
        Err(_) => None,
    }
}

fn learns_own(alloc: Global, knowledge: &mut Knowledge, version: Version) -> Option<bool>
    requires { version.number ≡ star_bound knowledge.old.known version.author + 1 }
{
    mark(alloc);
    let done = knowledge.learn_own(version);
    mark(alloc);
    done.ok()?;
    Some(knows(knowledge, 7, 1) && knows(knowledge, 9, 1) && !knows(knowledge, 7, 2))
}
