//! Tests of knowledges of a few pictures and of many: they learn, are asked, are compared and stage.
ghost use Rattle.std.specs.Prelude.{◌≡◌, ◌<◌, true, IfSome};
ghost use Rattle.photo_record.specs.Limits.{IsPicNo};
ghost use Rattle.photo_version.specs.Author.{author};
ghost use Rattle.photo_version.specs.Version as versions;
ghost use Rattle.item_knowledge.specs.Tables.{in_order};

use item_knowledge::{Knowledge, Told};
use photo_record::PicNo;
use photo_version::{Author, Vector, Version};
use std::alloc::{AllocError, Global};

mod own;

// Each function here owns its knowledge, has no `?` beside it and takes no `rt`: this keeps the proofs short.

// A device's version number `n`.
fn version(device: u16, n: u32) -> Version
    requires { 0 < n }
    ensures { result ≡ versions.version (author device) n }
{
    Version::new(Author::new(device), n).unwrap()
}

fn picture(number: u32) -> PicNo
    requires { IsPicNo number }
    ensures { result ≡ number }
{
    PicNo::new(number).unwrap()
}

// Whether the knowledge learns a device's versions up to number `n` of a picture.
fn learns(alloc: Global, knowledge: &mut Knowledge, number: u32, device: u16, n: u32) -> bool
    requires picture { IsPicNo number }
    requires some { 0 < n }
{
    match Vector::new(alloc).with(version(device, n)) {
        Ok(vector) => knowledge.learn(picture(number), &vector).is_ok(),
        Err(_) => false,
    }
}

// Whether the knowledge knows exactly the first `n` versions of device 0 of a picture.
fn has(knowledge: &Knowledge, number: u32, n: u32) -> bool
    requires picture { IsPicNo number }
    requires some { 0 < n }
{
    match knowledge.of(picture(number)) {
        Ok(vector) => vector.len() == 1 && vector.entry(0) == (Author::new(0), n),
        Err(_) => false,
    }
}

// Whether the knowledge has two fragments: an empty star, and one of pictures 7 and 9 that has a version.
fn has_both_fragments(knowledge: &Knowledge) -> bool {
    if knowledge.fragments() != 2 {
        return false;
    }
    let (star, both) = (knowledge.fragment(0), knowledge.fragment(1));
    if !star.star() || star.len() != 0 || both.star() || both.len() != 1 {
        return false;
    }
    star.pictures().is_empty()
        && both.pictures() == [7, 9].as_slice()
        && both.entry(0) == (Author::new(0), 1)
}

// Whether two pictures of which the knowledge learned the same version share a fragment.
fn learns_two(alloc: Global, knowledge: &mut Knowledge) -> bool {
    learns(alloc, knowledge, 7, 0, 1)
        && learns(alloc, knowledge, 9, 0, 1)
        && has_both_fragments(knowledge)
        && has(knowledge, 9, 1)
        && knowledge.knows(picture(7), version(0, 1))
        && !knowledge.knows(picture(7), version(0, 2))
        && !knowledge.knows(picture(8), version(0, 1))
        && knowledge.knows(picture(9), version(0, 1))
}

// Whether the knowledge equals the star once it has learned it, and stays so.
fn becomes_the_star(knowledge: &mut Knowledge, star: &Knowledge) -> bool {
    !knowledge.same(star)
        && !knowledge.has_all(star)
        && star.has_all(knowledge)
        && knowledge.learn_all(star).is_ok()
        && knowledge.fragments() == 1
        && knowledge.same(star)
        && knowledge.learn_all(star).is_ok()
        && knowledge.same(star)
}

// A knowledge of the first version of device 0, of every picture.
fn star(alloc: Global) -> Result<Knowledge, AllocError> {
    match Knowledge::new(alloc) {
        Ok(mut knowledge) => match knowledge.learn_own(version(0, 1)) {
            Ok(()) => Ok(knowledge),
            Err(error) => Err(error),
        },
        Err(error) => Err(error),
    }
}

fn becomes_a_star(alloc: Global, knowledge: &mut Knowledge) -> bool {
    match star(alloc) {
        Ok(star) => becomes_the_star(knowledge, &star),
        Err(_) => false,
    }
}

fn two_become_the_star(alloc: Global) -> bool {
    match Knowledge::new(alloc) {
        Ok(mut knowledge) => {
            learns_two(alloc, &mut knowledge) && becomes_a_star(alloc, &mut knowledge)
        }
        Err(_) => false,
    }
}

// Learns the first version of one device of picture 7, and that of another one of picture 9.
fn learns_of_each(alloc: Global, knowledge: &mut Knowledge, first: u16, second: u16) -> bool {
    learns(alloc, knowledge, 7, first, 1) && learns(alloc, knowledge, 9, second, 1)
}

// Whether two pictures, of which two knowledges know different versions, share a fragment in their union.
fn joins_alike(alloc: Global, knowledge: &mut Knowledge) -> bool {
    match Knowledge::new(alloc) {
        Ok(mut other) => {
            learns_of_each(alloc, knowledge, 0, 1)
                && learns_of_each(alloc, &mut other, 1, 0)
                && knowledge.fragments() == 3
                && knowledge.learn_all(&other).is_ok()
                && knowledge.fragments() == 2
        }
        Err(_) => false,
    }
}

fn two_come_to_be_alike(alloc: Global) -> bool {
    match Knowledge::new(alloc) {
        Ok(mut knowledge) => joins_alike(alloc, &mut knowledge),
        Err(_) => false,
    }
}

#[test]
fn pictures_known_alike_are_one_fragment(rt: HostRuntime) {
    assert!(rt; two_become_the_star(rt.alloc()));
    assert!(rt; two_come_to_be_alike(rt.alloc()));
}

// Learns as many versions of a device as its number of each of the pictures 1 to 20.
fn learns_twenty(alloc: Global, knowledge: &mut Knowledge, device: u16) -> bool {
    for n in 1..21u32 {
        if !learns(alloc, knowledge, n, device, n) {
            return false;
        }
    }
    knows_twenty(knowledge, device)
}

// Whether exactly as many versions of a device as its number are known of each of the pictures 1 to 20.
fn knows_twenty(knowledge: &Knowledge, device: u16) -> bool {
    for n in 1..21u32 {
        let next = version(device, n + 1);
        if !knowledge.knows(picture(n), version(device, n)) || knowledge.knows(picture(n), next) {
            return false;
        }
    }
    knowledge.fragments() == 21
}

// Whether the knowledge can stage what another knows and drop it again, drops it when it learns something, and knows it after a
// commit.
fn stages(alloc: Global, knowledge: &mut Knowledge, other: &Knowledge) -> bool {
    if knowledge.stage(other).is_err() || !knowledge.staged() {
        return false;
    }
    knowledge.unstage();
    let left = !knowledge.staged() && knowledge.stage(other).is_ok() && knowledge.staged();
    let learned = learns(alloc, knowledge, 7, 0, 7);
    if !left || !learned || knowledge.staged() || knowledge.has_all(other) {
        return false;
    }
    commits(knowledge, other) && knows_twenty(knowledge, 0) && knows_twenty(knowledge, 1)
}

fn commits(knowledge: &mut Knowledge, other: &Knowledge) -> bool {
    if knowledge.stage(other).is_err() || !knowledge.staged() {
        return false;
    }
    knowledge.commit();
    !knowledge.staged() && knowledge.has_all(other) && !knowledge.same(other)
}

// Whether a copy that learns at once what the knowledge stages and commits equals it afterwards, and can stage what it has
// already.
fn commits_beside_its_copy(alloc: Global, knowledge: &mut Knowledge, other: &Knowledge) -> bool {
    match knowledge.try_clone() {
        Ok(mut copy) => {
            knows_twenty(&copy, 0)
                && copy.learn_all(other).is_ok()
                && stages(alloc, knowledge, other)
                && knowledge.same(&copy)
                && copy.stage(knowledge).is_ok()
                && copy.staged()
        }
        Err(_) => false,
    }
}

fn twenty_are_joined(alloc: Global, knowledge: &mut Knowledge) -> bool {
    match Knowledge::new(alloc) {
        Ok(mut other) => {
            learns_twenty(alloc, knowledge, 0)
                && learns_twenty(alloc, &mut other, 1)
                && commits_beside_its_copy(alloc, knowledge, &other)
        }
        Err(_) => false,
    }
}

fn twenty_are_copied_and_joined(alloc: Global) -> bool {
    match Knowledge::new(alloc) {
        Ok(mut knowledge) => twenty_are_joined(alloc, &mut knowledge),
        Err(_) => false,
    }
}

#[test]
fn many_fragments_are_copied_staged_and_joined(rt: HostRuntime) {
    assert!(rt; twenty_are_copied_and_joined(rt.alloc()));
}

// A table of two pictures, each with the vector.
fn table(alloc: Global, vector: &Vector) -> Option<Vec<(PicNo, Vector)>>
    ensures { IfSome result (λ table. in_order table.items ≡ true) }
{
    let mut table = Vec::new(alloc);
    table.push((picture(7), vector.try_clone().ok()?)).ok()?;
    table.push((picture(9), vector.try_clone().ok()?)).ok()?;
    Some(table)
}

// Whether the knowledge knows what it was told after the commit, and not before.
fn commits_told(knowledge: &mut Knowledge, told: &Told) -> bool {
    if knowledge.stage_told(told).is_err() || !knowledge.staged() || knowledge.fragments() != 1 {
        return false;
    }
    knowledge.commit();
    !knowledge.staged() && has_both_fragments(knowledge)
}

fn stages_table(alloc: Global, table: &[(PicNo, Vector)]) -> bool
    requires { in_order table.now ≡ true }
{
    let Ok(told) = Told::of_table(alloc, table) else {
        return false;
    };
    match Knowledge::new(alloc) {
        Ok(mut knowledge) => commits_told(&mut knowledge, &told),
        Err(_) => false,
    }
}

fn stages_table_of(alloc: Global, vector: &Vector) -> bool {
    match table(alloc, vector) {
        Some(table) => stages_table(alloc, &table),
        None => false,
    }
}

fn learns_a_table(alloc: Global) -> bool {
    match Vector::new(alloc).with(version(0, 1)) {
        Ok(vector) => stages_table_of(alloc, &vector),
        Err(_) => false,
    }
}

#[test]
fn a_table_is_learned_at_once(rt: HostRuntime) {
    assert!(rt; learns_a_table(rt.alloc()));
}
