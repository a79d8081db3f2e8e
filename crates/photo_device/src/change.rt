// A change that may be staged on a device.
use crate::{SharedHeld, SharedList};
use item_knowledge::{Knowledge, Told};

/// Some of the versions that a device holds, each list in the order of their pictures.
#[derive(Debug, Drop)]
pub struct Selection {
    /// Versions of the device's store.
    pub stored: Vec<SharedHeld>,
    /// Versions of the device's out.
    pub waiting: Vec<SharedHeld>,
}

/// What a device learns. It is lent, so nobody copies it.
#[derive(Drop)]
pub enum Gain<'a> {
    /// All that another device knows.
    Known(&'a Knowledge),
    /// What held versions tell.
    Told(&'a Told),
}

/// What a device drops, takes and learns.
#[derive(Drop)]
pub struct Change<'a> {
    pub drops: Selection,
    pub takes: SharedList,
    pub gain: Gain<'a>,
}
