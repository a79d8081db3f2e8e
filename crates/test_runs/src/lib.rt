//! The tests of `fleet_runner`, over its public calls: scripts from their bytes to the bytes of their reports, each run in
//! every way.
#![tactic(auto)]

#[cfg(test)]
mod audits;
#[cfg(test)]
mod changes;
#[cfg(test)]
mod drawn;
#[cfg(test)]
mod filters;
#[cfg(test)]
mod gates;
#[cfg(test)]
mod knowing;
#[cfg(test)]
mod meetings;
#[cfg(test)]
mod memory;
#[cfg(test)]
mod orders;
#[cfg(test)]
mod pulling;
#[cfg(test)]
mod recorded;
#[cfg(test)]
mod same;
#[cfg(test)]
mod streams;
#[cfg(test)]
mod totals;
#[cfg(test)]
mod workers;
