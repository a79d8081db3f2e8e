//! A device made of plain lists, which share nothing; it isn't part of the product. It is a second implementation that is
//! proved against the model without any code of the first one below it, so the model of a device stands on its own. Its
//! invariant: **a list device shows a model device, and each call does to the model device what the model says**. With receipts it
//! is a replica of the model of households, and each call is an event of it.
#![tactic(auto)]

mod known;
mod list_device;
mod list_entry;
mod list_replica;
mod lists;
mod pulling;
#[cfg(test)]
mod tests;

pub use known::Known;
pub use list_device::ListDevice;
pub use list_entry::ListEntry;
pub use list_replica::{ListReceipt, ListReplica};
pub use pulling::pull;
