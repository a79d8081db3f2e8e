//! Replicas that meet through copies: what a household is, what may happen in it, and the proof that nothing is lost through
//! copies. Invariant: **each current version is held by a live device, and no receipt asks that device to give it up**. The crate
//! has definitions, laws and their proofs; it uses no code that carries them out.
//!
//! Tests: `test_list_device`.
#![tactic(auto)]

pub mod laws;
