//! The tests of scripts, of their reports' texts and of their own texts, over the public calls.
#![tactic(auto)]

#[cfg(test)]
mod scripts;
