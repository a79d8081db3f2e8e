//! The fixed parts of every page, in their order: its head, what stands between the chart and the data, and the three parts of its
//! program.
mod devices;
mod following;
mod frame;
mod replay;

pub use devices::DEVICES;
pub use following::FOLLOWING;
pub use frame::{HEAD, MIDDLE};
pub use replay::REPLAY;
