//! Copies of a device and of a fleet that hold a thousand versions: a copy shares them.
use crate::devices::{has_made, opened};
use live_fleet::Session;
use photo_device::Device;
use photo_record::{PicNo, Record};
use std::alloc::Global;
use tool_value_refusals::{filter_of, rated};

const VERSIONS: u32 = 1_000;

/// Copies a device once, if any copies are asked for.
pub fn answer_device(alloc: Global, times: u32) -> Option<bool> {
    let mut made = opened(alloc, 0);
    let right = match &mut made {
        Some(device) => Some(has_made(alloc, device, VERSIONS, 4) && is_copied(device, times)),
        None => None,
    };
    drop(made);
    right
}

fn is_copied(device: &Device, times: u32) -> bool {
    if times == 0 {
        return true;
    }
    let made = device.try_clone();
    let right = match &made {
        Ok(copy) => copy.store().len() == VERSIONS as usize,
        Err(_) => false,
    };
    drop(made);
    right
}

/// Copies a fleet of one device once, if any copies are asked for.
pub fn answer_fleet(alloc: Global, times: u32) -> Option<bool> {
    let filters = [filter_of(alloc, "rating >= 3")?];
    let mut made = Session::new(alloc, &filters);
    let right = match &mut made {
        Ok(session) => Some(makes_all(alloc, session) && is_fleet_copied(session, times)),
        Err(_) => None,
    };
    drop(made);
    drop(filters);
    right
}

fn makes_all(alloc: Global, session: &mut Session) -> bool {
    let made = rated(alloc, 4);
    let right = match &made {
        Some(record) => makes_each(session, record),
        None => false,
    };
    drop(made);
    right
}

fn makes_each(session: &mut Session, record: &Record) -> bool {
    for n in 0..VERSIONS {
        match PicNo::new(n + 1) {
            Some(picture) if session.make(0, picture, record).is_ok() => {}
            _ => return false,
        }
    }
    true
}

fn is_fleet_copied(session: &Session, times: u32) -> bool {
    if times == 0 {
        return true;
    }
    let made = session.fleet().try_clone();
    let right = match &made {
        Ok(copy) => copy.log().len() == VERSIONS as usize,
        Err(_) => false,
    };
    drop(made);
    right
}
