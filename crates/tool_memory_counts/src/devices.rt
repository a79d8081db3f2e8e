//! Calls on a device and on what it holds.
use crate::{held, staging};
use photo_device::{Device, HeldSet};
use photo_record::{PicNo, Record};
use photo_version::{Author, Version};
use std::alloc::Global;
use tool_value_refusals::{filter_of, rated};

/// A device that has made nothing, and keeps pictures with a rating of 3 or more.
pub fn opened(alloc: Global, number: u16) -> Option<Device> {
    match filter_of(alloc, "rating >= 3") {
        Some(filter) => Device::new(alloc, Author::new(number), filter).ok(),
        None => None,
    }
}

/// The groups of calls on a device: its readers and `held`; the readers of a set of held versions; `unknown_of` for a set all
/// of whose versions it knows; `conflicts`, which takes memory; the calls of a shared version; and those of what is staged.
pub fn answer(alloc: Global, group: &str, times: u32) -> Option<bool> {
    let mut made = opened(alloc, 0);
    let right = match &mut made {
        Some(device) => answer_of(alloc, device, group, times),
        None => None,
    };
    drop(made);
    right
}

fn answer_of(alloc: Global, device: &mut Device, group: &str, times: u32) -> Option<bool> {
    match group {
        "device" | "held_set" | "asking" | "held" | "conflicts" => {
            if !has_made(alloc, device, 300, 4) {
                return None;
            }
            answer_of_full(alloc, device, group, times)
        }
        _ => staging::answer(alloc, device, group, times),
    }
}

/// Whether the device makes a version of each of the pictures 1 to `pictures`, with that rating.
pub fn has_made(alloc: Global, device: &mut Device, pictures: u32, rating: u8) -> bool {
    let made = rated(alloc, rating);
    let right = match &made {
        Some(content) => makes_all(device, pictures, content),
        None => false,
    };
    drop(made);
    right
}

fn makes_all(device: &mut Device, pictures: u32, content: &Record) -> bool {
    for n in 0..pictures {
        if !makes(device, n + 1, content) {
            return false;
        }
    }
    true
}

fn makes(device: &mut Device, n: u32, content: &Record) -> bool {
    match PicNo::new(n) {
        Some(picture) if device.counter() < u32::MAX => device.make(picture, content).is_ok(),
        _ => false,
    }
}

// The groups on a device that made and holds 300 versions.
fn answer_of_full(alloc: Global, device: &mut Device, group: &str, times: u32) -> Option<bool> {
    match group {
        "asking" => knows_twin(alloc, device, times),
        "held" => held::answer(alloc, device, times),
        _ => Some(answer_each(device, group, times)),
    }
}

fn answer_each(device: &Device, group: &str, times: u32) -> bool {
    for _ in 0..times {
        let is_right = match group {
            "device" => has_parts(device) && has_last(device),
            "held_set" => has_hundredth(device.store()),
            _ => has_no_conflicts(device),
        };
        if !is_right {
            return false;
        }
    }
    true
}

fn has_parts(device: &Device) -> bool {
    device.author() == Author::new(0)
        && device.counter() == 300
        && device.filter().alternatives() == 1
        && device.store().len() == 300
        && device.out().is_empty()
        && device.knowledge().fragments() == 1
}

fn has_last(device: &Device) -> bool {
    let (Some(picture), Some(version)) = (PicNo::new(300), Version::new(Author::new(0), 300)) else {
        return false;
    };
    device.holds(picture)
        && device.held(version).is_some()
        && device.held_of(picture, version).is_some()
}

fn knows_twin(alloc: Global, device: &mut Device, times: u32) -> Option<bool> {
    let mut made = opened(alloc, 0);
    let right = match &mut made {
        Some(twin) => knows_filled(alloc, device, twin, times),
        None => None,
    };
    drop(made);
    right
}

fn knows_filled(alloc: Global, device: &mut Device, twin: &mut Device, times: u32) -> Option<bool> {
    if !has_made(alloc, twin, 300, 4) {
        return None;
    }
    Some(knows_each(alloc, device, twin, times))
}

fn knows_each(alloc: Global, device: &mut Device, twin: &Device, times: u32) -> bool {
    for _ in 0..times {
        if !knows_all(alloc, device, twin.store()) {
            return false;
        }
    }
    true
}

fn knows_all(alloc: Global, device: &mut Device, set: &HeldSet) -> bool {
    let found = device.unknown_of(alloc, set);
    let right = match &found {
        Ok(found) => found.is_empty(),
        Err(_) => false,
    };
    drop(found);
    right
}

fn has_hundredth(set: &HeldSet) -> bool {
    let (Some(picture), Some(version)) = (PicNo::new(100), Version::new(Author::new(0), 100)) else {
        return false;
    };
    set.has(picture, version)
        && set.of(picture, version).is_some()
        && set.find(version).is_some()
        && set.blocks().len() == 3
        && set.iter().all(|held| held.version().n() <= 300)
        && set.len() == 300
        && set.get(99).picture == picture
}

fn has_no_conflicts(device: &Device) -> bool {
    let found = device.conflicts();
    let right = match &found {
        Ok(list) => list.is_empty(),
        Err(_) => false,
    };
    drop(found);
    right
}
