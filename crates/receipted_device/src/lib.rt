//! A device of a household that meets others through copies: the device, and receipts for what others handed over to it. Its
//! invariant: **each call is its event** of `household_model`, and a copy is only lent, so it stays unchanged.
//!
//! Tests: `test_receipts`.
#![tactic(auto)]

pub mod laws;
mod meeting;
mod receipt;
mod receipt_sets;
mod receipted_device;

pub use meeting::Pulled;
pub use receipt::Receipt;
pub use receipted_device::ReceiptedDevice;
