//! Sessions with as many devices as there may be.
use super::filter_of;
use live_fleet::{FleetFault, Session};
use photo_filter_rules::Filter;
use std::alloc::Global;

/// How many devices are asked for, and the fault.
pub const LIMITS: &[(usize, Option<FleetFault>)] = &[
    (65_536, None),
    (65_537, Some(FleetFault::Full)),
];

fn filters(alloc: Global, count: usize) -> Option<Vec<Filter>> {
    let filter = filter_of(alloc, "none")?;
    let mut all = Vec::new(alloc);
    for _ in 0..count {
        all.push(filter.try_clone().ok()?).ok()?;
    }
    Some(all)
}

/// Whether a session of so many devices opens, and takes no further device; or is refused with that fault.
pub fn opens(alloc: Global, count: usize, refused: Option<FleetFault>) -> bool {
    let Some(filters) = filters(alloc, count) else {
        return false;
    };
    match Session::new(alloc, &filters) {
        Ok(mut session) => {
            refused.is_none()
                && session.fleet().devices().len() == count
                && is_full(&mut session, &filters)
        }
        Err(fault) => refused == Some(fault),
    }
}

fn is_full(session: &mut Session, filters: &[Filter]) -> bool {
    match filters.first() {
        Some(filter) => matches!(session.add(filter), Err(FleetFault::Full)),
        None => false,
    }
}
