// Worked examples: what devices make, what pulls move and tell and what devices learn by them, and what a receipt settles.
use crate::{ListDevice, ListEntry, ListReplica, pull};
use photo_filter_rules::Filter;
use photo_model::{Place, PullCounts};
use photo_record::{Day, PicNo, Rating, Record, Words};
use photo_version::{Author, Version};
use std::alloc::Global;

// What the first or the second of two devices does or has. Numbers give devices, pictures, ratings and versions.
enum Step {
    // The device makes a version of a picture with a rating: the version's number and place.
    Make(u16, u32, u8, (u32, Place)),
    // The device pulls from the other: the counts taken, handed over, noticed and dropped, and whether it learns all.
    Pull(u16, [u64; 4], bool),
    // What the device's store has, each version by its picture and its number.
    Stores(u16, &'static [(u32, (u16, u32))]),
    // Whether the device knows a version of a picture.
    Knows(u16, u32, (u16, u32), bool),
}

const COVER: &[Step] = &[
    Step::Make(0, 1, 5, (1, Place::Store)),
    Step::Make(0, 2, 2, (2, Place::Store)),
    Step::Pull(1, [1, 0, 0, 0], true),
    Step::Stores(1, &[(1, (0, 1))]),
    Step::Knows(1, 2, (0, 2), true),
    Step::Knows(1, 2, (0, 3), false),
    Step::Pull(1, [0, 0, 0, 0], true),
];

const CONFLICT: &[Step] = &[
    Step::Make(0, 7, 3, (1, Place::Store)),
    Step::Pull(1, [1, 0, 0, 0], true),
    Step::Make(0, 7, 4, (2, Place::Store)),
    Step::Make(1, 7, 5, (1, Place::Store)),
    Step::Pull(0, [1, 0, 0, 0], true),
    Step::Stores(0, &[(7, (0, 2)), (7, (1, 1))]),
    Step::Make(0, 7, 2, (3, Place::Store)),
    Step::Stores(0, &[(7, (0, 3))]),
];

const NOTICE: &[Step] = &[
    Step::Make(0, 7, 5, (1, Place::Store)),
    Step::Pull(1, [1, 0, 0, 0], false),
    Step::Make(0, 7, 1, (2, Place::Store)),
    Step::Pull(1, [0, 0, 1, 1], false),
    Step::Stores(1, &[]),
    Step::Knows(1, 7, (0, 2), true),
    Step::Knows(1, 8, (0, 2), false),
];

fn opened(alloc: Global, author: u16, text: &str) -> Option<ListDevice> {
    let tree = photo_filter_text::read(alloc, text).ok()?;
    let filter = Filter::build(alloc, tree).ok()?;
    Some(ListDevice::new(alloc, Author::new(author), filter))
}

fn rated(alloc: Global, rating: u8) -> Option<Record> {
    Some(Record::Picture {
        rating: Rating::new(rating)?,
        day: Day::read("2024-01-01")?,
        words: Words::read(alloc, "-").ok()?,
    })
}

fn made(alloc: Global, device: &mut ListDevice, picture: u32, rating: u8) -> Option<(u32, Place)> {
    if device.counter == u32::MAX {
        return None;
    }
    let content = rated(alloc, rating)?;
    let (version, place) = device.make(alloc, PicNo::new(picture)?, &content).ok()?;
    Some((version.n(), place))
}

fn pulls(
    alloc: Global,
    target: &mut ListDevice,
    source: &mut ListDevice,
    [taken, handed, notices, dropped]: [u64; 4],
    learned: bool,
) -> bool {
    let wanted = PullCounts {
        taken,
        handed,
        notices,
        dropped,
        learned,
    };
    pull(alloc, target, source) == Ok(wanted)
}

fn stores(list: &[ListEntry], wanted: &[(u32, (u16, u32))]) -> bool {
    if list.len() != wanted.len() {
        return false;
    }
    for i in 0..list.len() {
        let entry = &list[i];
        let version = (entry.version.author().value(), entry.version.n());
        if entry.picture.value() != wanted[i].0 || version != wanted[i].1 {
            return false;
        }
    }
    true
}

fn knows(device: &ListDevice, picture: u32, (author, n): (u16, u32)) -> Option<bool> {
    let version = Version::new(Author::new(author), n)?;
    Some(device.knows(PicNo::new(picture)?, version))
}

fn does(alloc: Global, first: &mut ListDevice, second: &mut ListDevice, step: &Step) -> bool {
    match step {
        Step::Make(0, picture, rating, wanted) => {
            made(alloc, first, *picture, *rating) == Some(*wanted)
        },
        Step::Make(_, picture, rating, wanted) => {
            made(alloc, second, *picture, *rating) == Some(*wanted)
        },
        Step::Pull(0, counts, learned) => pulls(alloc, first, second, *counts, *learned),
        Step::Pull(_, counts, learned) => pulls(alloc, second, first, *counts, *learned),
        Step::Stores(0, wanted) => stores(&first.store, wanted),
        Step::Stores(_, wanted) => stores(&second.store, wanted),
        Step::Knows(0, picture, version, wanted) => {
            knows(first, *picture, *version) == Some(*wanted)
        },
        Step::Knows(_, picture, version, wanted) => {
            knows(second, *picture, *version) == Some(*wanted)
        },
    }
}

// Whether two new devices with those filters pass all steps.
fn is_run(alloc: Global, filters: [&str; 2], steps: &[Step]) -> bool {
    let (Some(mut first), Some(mut second)) = (
        opened(alloc, 0, filters[0]),
        opened(alloc, 1, filters[1]),
    ) else {
        return false;
    };
    for step in steps {
        if !does(alloc, &mut first, &mut second, step) {
            return false;
        }
    }
    true
}

#[test]
fn a_cover_teaches_all(rt: HostRuntime) {
    assert!(rt; is_run(rt.alloc(), ["all", "rating >= 4"], COVER));
}

#[test]
fn a_conflict_is_held_until_the_next_edit(rt: HostRuntime) {
    assert!(rt; is_run(rt.alloc(), ["all", "all"], CONFLICT));
}

#[test]
fn a_notice_drops_what_it_supersedes(rt: HostRuntime) {
    assert!(rt; is_run(rt.alloc(), ["day >= 2024-01-01", "rating >= 4"], NOTICE));
}

// Whether the second of two replicas takes what waits in the first one's out, and the first then gives it up.
fn is_settled(alloc: Global) -> Option<bool> {
    let mut first = ListReplica::new(alloc, opened(alloc, 0, "rating >= 4")?);
    let mut second = ListReplica::new(alloc, opened(alloc, 1, "rating >= 4")?);
    if first.device.counter == u32::MAX {
        return None;
    }
    let content = rated(alloc, 2)?;
    first.make(alloc, PicNo::new(1)?, &content).ok()?;
    let copy = first.copy(alloc).ok()?;
    let counts = second.take(alloc, &copy).ok()?;
    let settled = first.settle(&second);
    Some(
        counts.handed == 1
            && settled == 1
            && first.device.out.is_empty()
            && second.device.out.len() == 1,
    )
}

#[test]
fn a_receipt_settles_what_was_handed_over(rt: HostRuntime) {
    assert!(rt; is_settled(rt.alloc()) == Some(true));
}
