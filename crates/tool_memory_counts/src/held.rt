//! Calls of the readers of a shared held version, and of a list of them.
use photo_device::{Device, ItemList, SharedHeld, SharedList};
use photo_record::Record;
use photo_version::Version;
use std::alloc::Global;

/// The readers of the first version held by a device of 300, and of a list of them all; `ItemList::new` and `into_vec`.
pub fn answer(alloc: Global, device: &Device, times: u32) -> Option<bool> {
    let made = device.store().to_list();
    let right = match &made {
        Ok(list) => Some(answer_of(alloc, list, times)),
        Err(_) => None,
    };
    drop(made);
    right
}

fn answer_of(alloc: Global, list: &SharedList, times: u32) -> bool {
    for _ in 0..times {
        if !has_all(list) || !is_rewrapped(alloc) {
            return false;
        }
    }
    true
}

fn has_all(list: &SharedList) -> bool {
    list.len() == 300
        && !list.is_empty()
        && list.as_slice().len() == 300
        && list.iter().all(|held| held.version().n() <= 300)
        && is_first(list.get(0))
}

fn is_first(held: &SharedHeld) -> bool {
    held.picture().value() == 1
        && held.version().n() == 1
        && held.made_with().is_empty()
        && held.as_held().picture == held.picture()
        && held.is_of(held.picture(), held.version())
        && !held.is_before(held.picture(), held.version())
        && *held.content() != Record::Removed
}

fn is_rewrapped(alloc: Global) -> bool {
    ItemList::<Version>::new(Vec::new(alloc))
        .into_vec()
        .is_empty()
}
