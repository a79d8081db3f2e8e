//! Calls of `live_fleet` that ask questions.
use crate::devices::finds_conflicts;
use crate::fleets::{Start, begun, same_fleet};
use live_fleet::{Fleet, holding, knowing, lacking, pull_moves, selected};
use photo_device::Device;
use photo_filter_rules::Filter;
use photo_record::PicNo;
use std::alloc::{AllocError, Global};
use tool_value_refusals::{Verdict, filter_of, judged, mark};

/// The verdict on a question to a fleet, or on `Device::conflicts`. Of the fleet's two devices the first holds two versions of
/// picture 7, the second one of them.
pub fn verdict(alloc: Global, call: &str) -> Option<Verdict> {
    let made = begun(alloc, Start::Divided);
    let verdict = match &made {
        Some(fleet) => beside_twin(alloc, fleet, call),
        None => None,
    };
    drop(made);
    verdict
}

fn beside_twin(alloc: Global, fleet: &Fleet, call: &str) -> Option<Verdict> {
    let right = asks(alloc, fleet, call)?;
    let made = begun(alloc, Start::Divided);
    let verdict = match &made {
        Some(twin) => Some(judged(right, same_fleet(fleet, twin))),
        None => None,
    };
    drop(made);
    verdict
}

// Whether the answer is right. The outer `None` means that no call has the name, the inner one that memory was refused.
fn asks(alloc: Global, fleet: &Fleet, call: &str) -> Option<Option<bool>> {
    let (Some(first), Some(second)) = (fleet.devices().first(), fleet.devices().get(1)) else {
        return None;
    };
    match call {
        "Device::conflicts" => Some(finds_conflicts(alloc, first)),
        "selected" => Some(selects(alloc, first)),
        "pull_moves" => Some(moves(alloc, second, first)),
        _ => of_picture(alloc, fleet, call),
    }
}

fn of_picture(alloc: Global, fleet: &Fleet, call: &str) -> Option<Option<bool>> {
    let picture = PicNo::new(7)?;
    match call {
        "holding" => Some(holds(alloc, fleet, picture)),
        "knowing" => Some(knows(alloc, fleet, picture)),
        "lacking" => Some(lacks(alloc, fleet, PicNo::new(8)?)),
        _ => None,
    }
}

fn selects(alloc: Global, device: &Device) -> Option<bool> {
    let made = filter_of(alloc, "rating >= 4");
    let right = match &made {
        Some(filter) => selects_by(alloc, device, filter),
        None => None,
    };
    drop(made);
    right
}

fn selects_by(alloc: Global, device: &Device, filter: &Filter) -> Option<bool> {
    mark(alloc);
    let found = selected(alloc, device, filter);
    mark(alloc);
    let right = match &found {
        Ok(found) => Some(found.len() == 2),
        Err(_) => None,
    };
    drop(found);
    right
}

fn moves(alloc: Global, target: &Device, source: &Device) -> Option<bool> {
    mark(alloc);
    let moves = pull_moves(alloc, target, source);
    mark(alloc);
    let right = match &moves {
        Ok(moves) => Some(moves.taken.len() == 1 && moves.handed.is_empty()),
        Err(_) => None,
    };
    drop(moves);
    right
}

fn holds(alloc: Global, fleet: &Fleet, picture: PicNo) -> Option<bool> {
    mark(alloc);
    let numbers = holding(alloc, fleet, picture);
    mark(alloc);
    are_both(numbers)
}

fn knows(alloc: Global, fleet: &Fleet, picture: PicNo) -> Option<bool> {
    mark(alloc);
    let numbers = knowing(alloc, fleet, picture);
    mark(alloc);
    are_both(numbers)
}

fn lacks(alloc: Global, fleet: &Fleet, picture: PicNo) -> Option<bool> {
    mark(alloc);
    let numbers = lacking(alloc, fleet, picture);
    mark(alloc);
    are_both(numbers)
}

// Whether the numbers are those of both devices. `None` where memory was refused.
fn are_both(numbers: Result<Vec<u16>, AllocError>) -> Option<bool> {
    let right = match &numbers {
        Ok(numbers) => Some(numbers.as_slice() == [0, 1].as_slice()),
        Err(_) => None,
    };
    drop(numbers);
    right
}
