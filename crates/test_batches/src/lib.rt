//! The tests of what is built on devices and scripts, over the crates' public calls: the batches of a script, the ledger in
//! which workers count, and the session, which runs a fleet by hand and answers questions.
#![tactic(auto)]

#[cfg(test)]
mod batches;
#[cfg(test)]
mod ledgers;
#[cfg(test)]
mod sessions;
