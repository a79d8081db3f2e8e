// What a device keeps for a staged change.
use crate::{Selection, SharedHeld, SharedList};
use block_list::Reservation;

/// A staged change but for what will be known, and the room that it takes.
#[derive(Debug, Drop)]
pub(crate) struct Prepared {
    pub drops: Selection,
    pub takes: SharedList,
    /// How many handed versions may come beside the taken ones.
    pub room: usize,
    pub in_store: Reservation<SharedHeld>,
    pub in_out: Reservation<SharedHeld>,
}
