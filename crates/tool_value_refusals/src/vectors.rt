//! Calls of `photo_version`.
ghost use Rattle.std.specs.Prelude.{◌≡◌, [], ◌∷◌, true, IfSome};
ghost use Rattle.photo_version.specs.Author.{author};
ghost use Rattle.photo_version.specs.Vector.{is_vector};

use crate::verdict::{Verdict, judged, mark};
use photo_version::{Author, Vector, Version};
use std::alloc::{AllocError, Global};

/// The verdict on a call of `photo_version`.
pub fn verdict(alloc: Global, call: &str) -> Option<Verdict> {
    match call {
        "Vector::from_entries" => from_entries(alloc),
        _ => on_vector(alloc, call),
    }
}

/// The vector of a device's first `n` versions.
pub fn vector_of(alloc: Global, device: u16, n: u32) -> Option<Vector>
    ensures { IfSome result (λ vector. vector ≡ (author device, n) ∷ []) }
{
    let version = Version::new(Author::new(device), n)?;
    Vector::new(alloc).with(version).ok()
}

fn has_one(vector: &Vector, device: u16, n: u32) -> bool {
    vector.len() == 1 && vector.entry(0) == (Author::new(device), n)
}

// Whether the vector that was made has two versions of device 0 and three of device 1. `None` where memory was refused.
fn is_of_two(made: &Result<Vector, AllocError>) -> Option<bool> {
    match made {
        Ok(vector) => Some(
            vector.len() == 2
                && vector.entry(0) == (Author::new(0), 2)
                && vector.entry(1) == (Author::new(1), 3),
        ),
        Err(_) => None,
    }
}

fn two_entries(alloc: Global) -> Option<Vec<(Author, u32)>>
    ensures { IfSome result (λ entries. is_vector entries.items ≡ true) }
{
    let mut entries = Vec::new(alloc);
    entries.push((Author::new(0), 2)).ok()?;
    entries.push((Author::new(1), 3)).ok()?;
    Some(entries)
}

fn from_entries(alloc: Global) -> Option<Verdict> {
    match two_entries(alloc) {
        Some(entries) => {
            mark(alloc);
            let vector = Vector::from_entries(alloc, entries);
            mark(alloc);
            Some(judged(is_of_two(&vector), true))
        }
        None => None,
    }
}

// The verdict on a call on the vector of three versions of device 1.
fn on_vector(alloc: Global, call: &str) -> Option<Verdict> {
    let made = vector_of(alloc, 1, 3);
    let verdict = match &made {
        Some(vector) => on_three(alloc, vector, call),
        None => None,
    };
    drop(made);
    verdict
}

fn on_three(alloc: Global, vector: &Vector, call: &str) -> Option<Verdict> {
    let right = calls(alloc, vector, call)?;
    Some(judged(right, has_one(vector, 1, 3)))
}

// Whether the call gives the right answer; the inner `None` means that memory was refused. The outer one means that no call has
// the name, or that the values for it can't be made.
fn calls(alloc: Global, vector: &Vector, call: &str) -> Option<Option<bool>> {
    match call {
        "Vector::join" => joins(alloc, vector),
        "Vector::with" => adds(alloc, vector),
        "Vector::try_clone" => Some(copies(alloc, vector)),
        _ => None,
    }
}

fn joins(alloc: Global, vector: &Vector) -> Option<Option<bool>> {
    let made = vector_of(alloc, 0, 2);
    let right = match &made {
        Some(other) => Some(joins_other(alloc, other, vector)),
        None => None,
    };
    drop(made);
    right
}

fn joins_other(alloc: Global, other: &Vector, vector: &Vector) -> Option<bool> {
    mark(alloc);
    let both = other.join(vector);
    mark(alloc);
    let right = is_of_two(&both);
    drop(both);
    if has_one(other, 0, 2) {
        right
    } else {
        Some(false)
    }
}

fn adds(alloc: Global, vector: &Vector) -> Option<Option<bool>> {
    let version = Version::new(Author::new(0), 2)?;
    mark(alloc);
    let more = vector.with(version);
    mark(alloc);
    let right = is_of_two(&more);
    drop(more);
    Some(right)
}

fn copies(alloc: Global, vector: &Vector) -> Option<bool> {
    mark(alloc);
    let made = vector.try_clone();
    mark(alloc);
    let right = match &made {
        Ok(copy) => Some(has_one(copy, 1, 3)),
        Err(_) => None,
    };
    drop(made);
    right
}
