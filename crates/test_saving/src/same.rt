//! Whether two fleets are equal, as far as the public readers show.
use live_fleet::{Fleet, Session};
use photo_device::{Device, HeldSet};

fn same_held(one: &HeldSet, other: &HeldSet) -> bool {
    if one.len() != other.len() {
        return false;
    }
    for i in 0..one.len() {
        if one.get(i) != other.get(i) {
            return false;
        }
    }
    true
}

fn same_device(one: &Device, other: &Device) -> bool {
    one.author() == other.author()
        && one.counter() == other.counter()
        && one.filter().tree() == other.filter().tree()
        && same_held(one.store(), other.store())
        && same_held(one.out(), other.out())
        && one.knowledge().same(other.knowledge())
}

fn same_devices(one: &[Device], other: &[Device]) -> bool {
    if one.len() != other.len() {
        return false;
    }
    for i in 0..one.len() {
        if !same_device(&one[i], &other[i]) {
            return false;
        }
    }
    true
}

fn same_log(one: &Fleet, other: &Fleet) -> bool {
    if one.log().len() != other.log().len() {
        return false;
    }
    for i in 0..one.log().len() {
        if one.log()[i] != other.log()[i] {
            return false;
        }
    }
    true
}

/// Whether two sessions have equal devices, logs and counts of commands.
pub fn same(one: &Session, other: &Session) -> bool {
    let (one, other) = (one.fleet(), other.fleet());
    one.commands() == other.commands()
        && same_devices(one.devices(), other.devices())
        && same_log(one, other)
}
