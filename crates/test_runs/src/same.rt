//! Compares devices.
use photo_device::{Device, HeldSet};
use photo_filter_rules::Filter;

fn same_held(one: &HeldSet, other: &HeldSet) -> bool {
    if one.len() != other.len() {
        return false;
    }
    for i in 0..one.len() {
        if one.get(i) != other.get(i) {
            return false;
        }
    }
    true
}

fn same_filter(one: &Filter, other: &Filter) -> bool {
    one.alternatives() == other.alternatives() && one.tree() == other.tree()
}

fn same(one: &Device, other: &Device) -> bool {
    one.author() == other.author()
        && one.counter() == other.counter()
        && same_filter(one.filter(), other.filter())
        && same_held(one.store(), other.store())
        && same_held(one.out(), other.out())
        && one.knowledge().same(other.knowledge())
}

/// Whether two lists of devices are the same, as far as the public readers show.
pub fn all_same(devices: &[Device], others: &[Device]) -> bool {
    if devices.len() != others.len() {
        return false;
    }
    for i in 0..devices.len() {
        if !same(&devices[i], &others[i]) {
            return false;
        }
    }
    true
}
