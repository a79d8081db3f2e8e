// What held versions tell of their pictures.
ghost use Rattle.std.specs.Prelude.{◌≡◌, ℕ, ◌<◌, ◌||◌, nat_le, true, IfOk, OnOk};
ghost use Rattle.std.specs.List.{AllByRecursion};
ghost use Rattle.photo_version.specs.Version as versions;
ghost use Rattle.photo_version.specs.Vector.{denotes};
ghost use Rattle.item_knowledge.specs.Fragments.{knows};
ghost use Rattle.item_knowledge.specs.Tables.{in_order, keys_pass};
ghost use Rattle.photo_device.specs.Resorted.{HasBesides};
ghost use Rattle.photo_device.specs.Held.{are_in_order};
ghost use Rattle.photo_device.specs.Own.{HasEarlier};
ghost use Rattle.photo_device.specs.Telling.{tells};

use crate::SharedHeld;
use item_knowledge::Told;
use photo_record::PicNo;
use photo_version::{Vector, Version};
use std::alloc::{AllocError, Global};

// Appends a row to a table whose pictures are at most `picture`. A last row of the same picture gets the join of both vectors.
fn add_row(
    table: &mut Vec<(PicNo, Vector)>,
    picture: PicNo,
    vector: Vector,
) -> Result<(), AllocError>
    requires order { in_order table.old.items ≡ true }
    requires last { keys_pass (λ k. nat_le k picture) table.old.items ≡ true }
    ensures { OnOk result (HasBesides table.old.items table.new.items picture (denotes vector)) }
{
    let Some((last, known)) = table.pop() else {
        table.push((picture, vector))?;
        return Ok(());
    };
    if last == picture {
        let both = known.join(&vector)?;
        table.push((picture, both))?;
        return Ok(());
    }
    table.push((last, known))?;
    table.push((picture, vector))?;
    Ok(())
}

// Tells that a version's number is above 0.
fn is_numbered(version: Version)
    ensures { 0 < version.number }
{
    let _number = version.n();
}

// Adds what a version tells to a table that has no greater picture.
fn add_told(table: &mut Vec<(PicNo, Vector)>, held: &SharedHeld) -> Result<(), AllocError>
    requires earlier { HasEarlier held.now }
    requires order { in_order table.old.items ≡ true }
    requires last { keys_pass (λ k. nat_le k held.now.picture) table.old.items ≡ true }
    ensures { OnOk result (HasBesides table.old.items table.new.items held.now.picture
        (λ v. denotes held.now.made_with v || versions.same_version held.now.version v)) }
{
    is_numbered(held.version());
    let vector = held.made_with().with(held.version())?;
    add_row(table, held.picture(), vector)
}

// A cursor along two lists together, in the order of pictures.
#[derive(Drop)]
struct MergeCursor<'a> {
    heard: &'a [SharedHeld],
    handed: &'a [SharedHeld],
}

impl<'a> MergeCursor<'a> {
    ghost use Rattle.std.specs.Prelude.{◌≡◌, ◌++◌, [], None, IfSome};
    ghost use Rattle.photo_device.specs.Resorted.{AreLeft, IsNextOf, is_second_next};

    // Whether the next version is one of `handed`.
    fn is_handed_next(&self) -> bool
        ensures { result ≡ is_second_next self.now.heard.now self.now.handed.now }
    {
        let Some(other) = self.handed.first() else {
            return false;
        };
        match self.heard.first() {
            Some(held) => other.picture() < held.picture(),
            None => true,
        }
    }

    // The next version of both lists.
    fn next(&mut self) -> Option<&'a SharedHeld>
        requires { AreLeft self.old.heard.now self.old.handed.now }
        ensures left { AreLeft self.new.heard.now self.new.handed.now }
        ensures next { IfSome result (λ held.
            IsNextOf held.now (self.old.heard.now ++ self.old.handed.now) (self.new.heard.now ++ self.new.handed.now)) }
        ensures none { result ≡ None → self.old.heard.now ++ self.old.handed.now ≡ [] }
    {
        if self.is_handed_next() {
            let (held, others) = self.handed.split_first()?;
            self.handed = others;
            return Some(held);
        }
        let (held, others) = self.heard.split_first()?;
        self.heard = others;
        Some(held)
    }
}

/// What both lists tell. The only error is refused memory.
#[tactic(auto, using(std::proofs::lemmas::Grind::common_steps, crate::proofs::TableLemmas::none_told))]
pub fn told_by(
    alloc: Global,
    heard: &[SharedHeld],
    handed: &[SharedHeld],
) -> Result<Told, AllocError>
    requires heard_order { are_in_order heard.now ≡ true }
    requires handed_order { are_in_order handed.now ≡ true }
    requires heard { AllByRecursion HasEarlier heard.now }
    requires handed { AllByRecursion HasEarlier handed.now }
    ensures { IfOk result (λ told. (p : ℕ) (v : versions.Version) → 0 < p → knows told p v ≡ (tells heard.now p v || tells handed.now p v)) }
{
    let mut table = Vec::with_capacity(alloc, heard.len().saturating_add(handed.len()))?;
    let mut along = MergeCursor { heard, handed };
    while let Some(held) = along.next() {
        add_told(&mut table, held)?;
    }
    Told::of_table(alloc, &table)
}
