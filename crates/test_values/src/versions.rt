//! Tests of authors, versions and vectors.
use crate::answers::is_shown;
use photo_version::{Author, Vector, Version};
use std::alloc::Global;

// Each function here owns its vector, has no `?` behind it and takes no `rt`: this keeps the proofs short.

// Whether authors are compared, numbered and read rightly.
fn are_authors_right() -> bool {
    let (first, next, frame) = (Author::new(0), Author::at(0, 1), Author::new(63));
    let numbers = frame.value() == 63 && next.value() == 0 && next.epoch() == 1;
    let epochs = first.next() == Some(next) && Author::at(3, 4_294_967_295).next().is_none();
    let order = first < next && next < Author::new(1) && first != next;
    let words = next.word() == 1 && Author::new(1).word() == 4_294_967_296;
    let back = Author::of_word(frame.word()) == frame;
    numbers && epochs && order && words && back
}

// Whether versions are compared and read rightly.
fn are_versions_right() -> Option<bool> {
    let (first, later) = (version(0, 0, 1)?, version(0, 0, 10)?);
    let (next, other) = (version(0, 1, 1)?, version(63, 0, 2)?);
    let order = first < later && later < next && next < other;
    let none = version(0, 0, 0).is_none();
    Some(order && none && other.author() == Author::new(63) && other.n() == 2)
}

#[test]
fn authors_and_versions(rt: HostRuntime) {
    assert!(rt; are_authors_right());
    assert!(rt; are_versions_right() == Some(true));
}

// Version `n` of a device in an epoch.
fn version(device: u16, epoch: u32, n: u32) -> Option<Version> {
    Version::new(Author::at(device, epoch), n)
}

// A vector's entries, each as a device, its epoch and its last version in it.
type Bounds = &'static [(u16, u32, u32)];

// The vector with those bounds.
fn vector(alloc: Global, bounds: Bounds) -> Option<Vector> {
    let mut vector = Vector::new(alloc);
    for (device, epoch, n) in bounds {
        vector = vector.with(version(*device, *epoch, *n)?).ok()?;
    }
    Some(vector)
}

// Whether the vector's entries are the bounds, by index and by iteration.
fn has_entries(vector: &Vector, bounds: Bounds) -> bool {
    let mut place = 0;
    for entry in vector {
        if place >= bounds.len() || place >= vector.len() {
            return false;
        }
        let (device, epoch, n) = bounds[place];
        if *entry != (Author::at(device, epoch), n) || vector.entry(place) != *entry {
            return false;
        }
        place += 1;
    }
    place == bounds.len()
}

// Whether the union of two vectors has these entries.
fn joins(left: &Vector, right: &Vector, wanted: Bounds) -> bool {
    match left.join(right) {
        Ok(both) => has_entries(&both, wanted),
        Err(_) => false,
    }
}

fn join_of(alloc: Global, left: &Vector, right: Bounds, wanted: Bounds) -> bool {
    match vector(alloc, right) {
        Some(right) => joins(left, &right, wanted) && joins(&right, left, wanted),
        None => false,
    }
}

fn are_joined(alloc: Global, left: Bounds, right: Bounds, wanted: Bounds) -> bool {
    match vector(alloc, left) {
        Some(left) => join_of(alloc, &left, right, wanted),
        None => false,
    }
}

const UNIONS: &[(Bounds, Bounds, Bounds)] = &[
    (
        &[(0, 0, 2), (0, 0, 1)],
        &[(0, 0, 1), (1, 0, 3)],
        &[(0, 0, 2), (1, 0, 3)],
    ),
    (
        &[(4, 0, 1), (2, 0, 7)],
        &[(3, 0, 5), (2, 0, 6)],
        &[(2, 0, 7), (3, 0, 5), (4, 0, 1)],
    ),
    (&[(0, 0, 2)], &[], &[(0, 0, 2)]),
    // different epochs have different entries
    (
        &[(0, 0, 2)],
        &[(1, 0, 1), (0, 1, 1)],
        &[(0, 0, 2), (0, 1, 1), (1, 0, 1)],
    ),
    // more entries than a list's first capacity
    (
        &[
            (0, 0, 1),
            (2, 0, 3),
            (4, 0, 5),
            (6, 0, 7),
            (8, 0, 9),
            (10, 0, 11),
            (12, 0, 13),
        ],
        &[
            (1, 0, 2),
            (3, 0, 4),
            (5, 0, 6),
            (7, 0, 8),
            (9, 0, 10),
            (11, 0, 12),
            (13, 0, 14),
        ],
        &[
            (0, 0, 1),
            (1, 0, 2),
            (2, 0, 3),
            (3, 0, 4),
            (4, 0, 5),
            (5, 0, 6),
            (6, 0, 7),
            (7, 0, 8),
            (8, 0, 9),
            (9, 0, 10),
            (10, 0, 11),
            (11, 0, 12),
            (12, 0, 13),
            (13, 0, 14),
        ],
    ),
];

#[test]
fn a_union_has_the_greater_bounds(rt: HostRuntime) {
    for (left, right, wanted) in UNIONS {
        assert!(rt; are_joined(rt.alloc(), left, right, wanted), "{wanted:?}");
    }
}

// Whether a vector has exactly two versions of device 0, and is above the empty vector.
fn has_just_two(alloc: Global, two: &Vector) -> Option<bool> {
    let (first, second, third) = (version(0, 0, 1)?, version(0, 0, 2)?, version(0, 0, 3)?);
    let other = version(1, 0, 1)?;
    let has = two.has(first) && two.has(second) && !two.has(third) && !two.has(other);
    let empty = Vector::new(alloc);
    Some(has && !two.is_empty() && empty.is_empty() && empty.leq(two) && !two.leq(&empty))
}

fn has_an_equal_copy(two: &Vector) -> bool {
    match two.try_clone() {
        Ok(copy) => copy == *two,
        Err(_) => false,
    }
}

fn has_up_to_two(alloc: Global) -> bool {
    match vector(alloc, &[(0, 0, 2)]) {
        Some(two) => has_just_two(alloc, &two) == Some(true) && has_an_equal_copy(&two),
        None => false,
    }
}

#[test]
fn a_vector_has_versions_up_to_its_bounds(rt: HostRuntime) {
    assert!(rt; has_up_to_two(rt.alloc()));
}

// Whether there is such a version, and its text is `text`.
fn is_shown_as(alloc: Global, device: u16, epoch: u32, n: u32, text: &str) -> bool {
    match version(device, epoch, n) {
        Some(version) => is_shown(alloc, &version, text),
        None => false,
    }
}

const SHOWN: &[(u16, u32, u32, &str)] = &[
    (0, 0, 3, "0:3"),
    (0, 1, 3, "0.1:3"),
    (12, 40, 7, "12.40:7"),
];

#[test]
fn versions_are_shown(rt: HostRuntime) {
    for (device, epoch, n, text) in SHOWN {
        assert!(rt;
            is_shown_as(rt.alloc(), *device, *epoch, *n, text),
            "{text}"
        );
    }
}
