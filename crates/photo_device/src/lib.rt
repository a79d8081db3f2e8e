//! A device of the household: the versions that it made and holds, and what it knows.
//!
//! Its invariant is `IsDevice`. **A device knows all that it holds, with its history; of its own author it knows
//! exactly what it made.** It knows nothing of its own later epochs. It holds no version twice. Of the held version's own
//! author, its history has exactly the earlier versions.
//!
//! Tests: `test_devices`.
#![tactic(auto)]

mod cached_knowledge;
mod change;
mod conflict;
mod conflicts;
mod device;
mod each;
mod fault;
mod held;
mod held_set;
mod item_list;
mod known_cache;
pub mod laws;
mod prepared;
mod resorted;
mod shared_held;
mod table;
mod takes;

pub use change::{Change, Gain, Selection};
pub use conflict::Conflict;
pub use device::Device;
pub use fault::{ChangeFault, NarrowFault};
pub use held::Held;
pub use held_set::HeldSet;
pub use item_list::ItemList;
pub use photo_model::Place;
use photo_version::Version;
pub use shared_held::SharedHeld;
pub use table::told_by;

/// Shared held versions, in an order.
pub type SharedList = ItemList<SharedHeld>;

/// Versions, in an order.
pub type VersionList = ItemList<Version>;

/// Conflicts, in an order.
pub type ConflictList = ItemList<Conflict>;
