//! Calls on authors, versions and vectors.
use photo_version::{Author, Vector, Version};
use std::alloc::{AllocError, Global};

/// `Author::new`, `Author::of_word`, `Version::new`, and their readers.
pub fn is_version_right() -> bool {
    match Version::new(Author::new(7), 3) {
        Some(version) => version.n() == 3 && is_seventh(version.author()),
        None => false,
    }
}

fn is_seventh(author: Author) -> bool {
    author.value() == 7 && Author::of_word(author.word()) == author
}

/// The vector of the authors 0 to 19, each with `n` versions.
pub fn vector_of(alloc: Global, n: u32) -> Option<Vector> {
    let mut vector = Vector::new(alloc);
    for author in 0..20u16 {
        vector = vector.with(Version::new(Author::new(author), n)?).ok()?;
    }
    Some(vector)
}

/// The calls on a vector by their groups: `Vector::new`, `has`, `leq` and the readers; the calls whose result shares the
/// entries: a copy, and a union or a vector with one more version where nothing is added; and `Vector::with`, which takes
/// memory.
pub fn answer(alloc: Global, group: &str, times: u32) -> Option<bool> {
    match vector_of(alloc, 3) {
        Some(one) => answer_beside(alloc, &one, group, times),
        None => None,
    }
}

fn answer_beside(alloc: Global, one: &Vector, group: &str, times: u32) -> Option<bool> {
    match vector_of(alloc, 4) {
        Some(other) => Some(answer_of(alloc, one, &other, group == "vector_with", times)),
        None => None,
    }
}

fn answer_of(alloc: Global, one: &Vector, other: &Vector, adds: bool, times: u32) -> bool {
    for _ in 0..times {
        let right = if adds {
            has_one_more(one)
        } else {
            Vector::new(alloc).is_empty() && has_versions(one, other) && shares(one, other)
        };
        if !right {
            return false;
        }
    }
    true
}

fn has_one_more(vector: &Vector) -> bool {
    let Some(version) = Version::new(Author::new(20), 1) else {
        return false;
    };
    match vector.with(version) {
        Ok(more) => more.len() == 21,
        Err(_) => false,
    }
}

fn has_versions(one: &Vector, other: &Vector) -> bool {
    let Some(version) = Version::new(Author::new(19), 4) else {
        return false;
    };
    for (_author, n) in one.iter() {
        if *n != 3 {
            return false;
        }
    }
    one.leq(other)
        && !other.leq(one)
        && !one.has(version)
        && other.has(version)
        && one.len() == 20
        && one.entry(7) == (Author::new(7), 3)
}

fn shares(one: &Vector, other: &Vector) -> bool {
    let Some(version) = Version::new(Author::new(19), 3) else {
        return false;
    };
    is_made(one.try_clone(), one)
        && is_made(one.with(version), one)
        && is_made(one.join(other), other)
        && is_made(other.join(one), other)
}

fn is_made(made: Result<Vector, AllocError>, wanted: &Vector) -> bool {
    match made {
        Ok(vector) => vector == *wanted,
        Err(_) => false,
    }
}
