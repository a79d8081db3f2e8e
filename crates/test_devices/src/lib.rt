//! The tests of a device, over its public calls.
#![tactic(auto)]

#[cfg(test)]
mod devices;
