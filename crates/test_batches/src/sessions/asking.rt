// Tests of questions to a session.
use super::working::pulls;
use super::{filter_of, has};
use live_fleet::{FleetFault, Session, holding, knowing, lacking, pull_moves, selected};
use photo_device::{Conflict, Device, HeldSet, SharedHeld};
use photo_record::PicNo;
use photo_script::{Command, Report};
use photo_version::Author;
use std::alloc::Global;

/// Which devices a question about a picture asks for.
#[derive(Clone, Copy)]
pub enum Question {
    Holding,
    Lacking,
    Knowing,
}

/// Whether exactly those devices hold, lack or know a picture.
pub fn is_asked(
    alloc: Global,
    session: &Session,
    question: &Question,
    number: u32,
    right: &[u16],
) -> bool {
    let Some(picture) = PicNo::new(number) else {
        return false;
    };
    let found = match question {
        Question::Holding => holding(alloc, session.fleet(), picture),
        Question::Lacking => lacking(alloc, session.fleet(), picture),
        Question::Knowing => knowing(alloc, session.fleet(), picture),
    };
    match found {
        Ok(numbers) => numbers.as_slice() == right,
        Err(_) => false,
    }
}

/// Whether the listing of a device says that its store and its out have that many versions.
pub fn lists(
    session: &mut Session,
    device: u16,
    wanted: Result<(usize, usize), FleetFault>,
) -> bool {
    match session.run(&Command::List { device }) {
        Ok(
            Report::Listed {
                device: listed,
                store,
                out,
            },
        ) => { listed == device && wanted == Ok((store.len(), out.len())) }
        Ok(_) => false,
        Err(fault) => wanted == Err(fault),
    }
}

fn are_of(helds: &[SharedHeld], pictures: &[u32]) -> bool {
    if helds.len() != pictures.len() {
        return false;
    }
    for i in 0..helds.len() {
        if helds[i].picture().value() != pictures[i] {
            return false;
        }
    }
    true
}

/// Whether a filter selects exactly the versions of those pictures on a device.
pub fn selects(alloc: Global, session: &Session, device: u16, text: &str, right: &[u32]) -> bool {
    match (session.device(device), filter_of(alloc, text)) {
        (Some(device), Some(filter)) => match selected(alloc, device, &filter) {
            Ok(found) => are_of(&found, right),
            Err(_) => false,
        },
        _ => false,
    }
}

/// Whether a pull would take the versions of the first pictures, and be handed over those of the second.
pub fn moves(
    alloc: Global,
    session: &Session,
    (target, source): (u16, u16),
    taken: &[u32],
    handed: &[u32],
) -> bool {
    match (session.device(target), session.device(source)) {
        (Some(target), Some(source)) => match pull_moves(alloc, target, source) {
            Ok(moves) => are_of(&moves.taken, taken) && are_of(&moves.handed, handed),
            Err(_) => false,
        },
        _ => false,
    }
}

/// Whether a device holds two versions of a picture, the first of each device, and reports a conflict between exactly these.
pub fn has_conflict(session: &Session, device: u16) -> bool {
    match session.device(device) {
        Some(device) => tells_conflict(device),
        None => false,
    }
}

fn tells_conflict(device: &Device) -> bool {
    match device.conflicts() {
        Ok(found) => found.len() == 1 && is_conflict(device.store(), &found[0]),
        Err(_) => false,
    }
}

fn is_conflict(store: &HeldSet, conflict: &Conflict) -> bool {
    let versions = &conflict.versions;
    if versions.len() != 2 || store.len() != 2 {
        return false;
    }
    let (first, second) = (store.get(0).version, store.get(1).version);
    conflict.picture.value() == 7
        && *versions.get(0) == first
        && *versions.get(1) == second
        && first.author() == Author::new(0)
        && second.author() == Author::new(1)
}

/// Whether a copy of a session that has made two versions equals it, and pulls without changing it.
pub fn copies(alloc: Global, session: &Session) -> bool {
    match session.try_clone() {
        Ok(mut copy) => goes_its_own_way(alloc, &mut copy),
        Err(_) => false,
    }
}

fn goes_its_own_way(alloc: Global, copy: &mut Session) -> bool {
    has(copy, 2, 2, 2)
        && pulls(copy, 1, 0, Ok((2, 0, true)))
        && is_asked(alloc, copy, &Question::Holding, 7, &[0, 1])
        && is_asked(alloc, copy, &Question::Holding, 9, &[0, 1])
}
