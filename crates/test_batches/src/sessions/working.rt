// Tests of commands given to a session.
use super::filter_of;
use live_fleet::{FleetFault, Session};
use photo_device::Place;
use photo_record::{Day, PicNo, Rating, Record, Words};
use std::alloc::Global;

/// The number and the place of a version that a device makes.
pub type Made = (u32, Place);

/// How many versions are taken and handed over, and whether the target learns all that the source knows.
pub type Counts = (u64, u64, bool);

fn rated(alloc: Global, rating: u8) -> Option<Record> {
    Some(Record::Picture {
        rating: Rating::new(rating)?,
        day: Day::read("2024-05-01")?,
        words: Words::read(alloc, "-").ok()?,
    })
}

/// Whether making a version of a picture with a rating has that result.
pub fn makes(
    alloc: Global,
    session: &mut Session,
    device: u16,
    (number, rating): (u32, u8),
    wanted: Result<Made, FleetFault>,
) -> bool {
    let (Some(picture), Some(record)) = (PicNo::new(number), rated(alloc, rating)) else {
        return false;
    };
    match session.make(device, picture, &record) {
        Ok((version, place)) => wanted == Ok((version.n(), place)),
        Err(fault) => wanted == Err(fault),
    }
}

/// Whether an edit of a picture to a rating, or its removal, has that result.
pub fn changes(
    alloc: Global,
    session: &mut Session,
    device: u16,
    (number, rating): (u32, Option<u8>),
    wanted: Option<Made>,
) -> bool {
    let Some(picture) = PicNo::new(number) else {
        return false;
    };
    let change = match rating {
        Some(rating) => match rated(alloc, rating) {
            Some(record) => session.edit(device, picture, &record),
            None => return false,
        },
        None => session.remove(device, picture),
    };
    match change {
        Ok(Some((version, place))) => wanted == Some((version.n(), place)),
        Ok(None) => wanted.is_none(),
        Err(_) => false,
    }
}

/// Whether narrowing moves that many versions to the out, or is refused because the filter doesn't cover the new one.
pub fn narrows(
    alloc: Global,
    session: &mut Session,
    device: u16,
    text: &str,
    wanted: Option<u64>,
) -> bool {
    match filter_of(alloc, text) {
        Some(filter) => session.narrow(device, &filter) == Ok(wanted),
        None => false,
    }
}

/// Whether the device's store and out have that many versions after it gets another filter.
pub fn refilters(
    alloc: Global,
    session: &mut Session,
    device: u16,
    text: &str,
    wanted: (u64, u64),
) -> bool {
    match filter_of(alloc, text) {
        Some(filter) => session.refilter(device, &filter) == Ok(wanted),
        None => false,
    }
}

/// Whether a pull, and a preview before it, have that result.
pub fn pulls(
    session: &mut Session,
    target: u16,
    source: u16,
    wanted: Result<Counts, FleetFault>,
) -> bool {
    let shown = session.preview(target, source);
    let pulled = session.pull(target, source);
    shown == pulled
        && match pulled {
            Ok(counts) => wanted == Ok((counts.taken, counts.handed, counts.learned)),
            Err(fault) => wanted == Err(fault),
        }
}

/// Whether a device with that filter joins and gets that number.
pub fn adds(alloc: Global, session: &mut Session, text: &str, number: u16) -> bool {
    match filter_of(alloc, text) {
        Some(filter) => session.add(&filter) == Ok(number),
        None => false,
    }
}
