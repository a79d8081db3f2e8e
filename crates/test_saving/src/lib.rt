//! The test of how a fleet is saved (`LIBRARY.md`, 'Saving what was done'): a change runs only where the text of the lines so
//! far has taken its line. A fleet that is loaded from that text is the one that was saved.
#![tactic(auto)]

#[cfg(test)]
mod chance;
#[cfg(test)]
mod drawn;
#[cfg(test)]
mod limits;
#[cfg(test)]
mod same;
#[cfg(test)]
mod saved;
