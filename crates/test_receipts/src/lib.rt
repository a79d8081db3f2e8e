//! The tests of a device with receipts, over its public calls: two devices meet through copies, which come in time, late or twice.
#![tactic(auto)]

#[cfg(test)]
mod meetings;
