//! Calls of `Session` of `live_fleet`.
use crate::fleets::{same_fleet, two_filters};
use crate::scripts::script_of;
use live_fleet::{FleetFault, Session};
use photo_filter_rules::Filter;
use photo_record::{PicNo, Record};
use photo_script::{Command, Script};
use std::alloc::Global;
use tool_value_refusals::{Verdict, filter_of, judged, mark, rated};

/// The verdict on a call of `Session` that needs no script.
pub fn verdict(alloc: Global, call: &str) -> Option<Verdict> {
    match call {
        "Session::new" => new(alloc),
        _ => on_session(alloc, call),
    }
}

// Two devices that keep everything and have made nothing.
fn opened(alloc: Global) -> Option<Session> {
    let made = two_filters(alloc, "all");
    let session = match &made {
        Some(filters) => Session::new(alloc, filters).ok(),
        None => None,
    };
    drop(made);
    session
}

// The same devices after the first has made picture 7.
fn begun(alloc: Global) -> Option<Session> {
    match opened(alloc) {
        Some(mut session) => {
            if begin(alloc, &mut session) {
                return Some(session);
            }
            drop(session);
            None
        }
        None => None,
    }
}

fn begin(alloc: Global, session: &mut Session) -> bool {
    let record = rated(alloc, 4);
    let done = match (&record, PicNo::new(7)) {
        (Some(content), Some(picture)) => session.make(0, picture, content).is_ok(),
        _ => false,
    };
    drop(record);
    done
}

fn new(alloc: Global) -> Option<Verdict> {
    let made = two_filters(alloc, "rating >= 4");
    let verdict = match &made {
        Some(filters) => Some(new_with(alloc, filters)),
        None => None,
    };
    drop(made);
    verdict
}

fn new_with(alloc: Global, filters: &[Filter; 2]) -> Verdict {
    mark(alloc);
    let made = Session::new(alloc, filters);
    mark(alloc);
    let verdict = match &made {
        Ok(session) => judged(Some(session.fleet().devices().len() == 2), true),
        Err(fault) => judged(
            None,
            *fault == FleetFault::NoMemory && filters[1].alternatives() == 1,
        ),
    };
    drop(made);
    verdict
}

/// Whether a call on the script of four devices gives the right answer. The outer `None` means that no call has the name, the
/// inner one that memory was refused.
pub fn calls_on_script(alloc: Global, script: &Script, call: &str) -> Option<Option<bool>> {
    match call {
        "Session::of_script" => Some(takes_devices(alloc, script)),
        _ => None,
    }
}

fn takes_devices(alloc: Global, script: &Script) -> Option<bool> {
    mark(alloc);
    let made = Session::of_script(alloc, script);
    mark(alloc);
    let right = match &made {
        Ok(session) => Some(session.fleet().devices().len() == 4),
        Err(_) => None,
    };
    drop(made);
    right
}

fn on_session(alloc: Global, call: &str) -> Option<Verdict> {
    let mut made = begun(alloc);
    let verdict = match &mut made {
        Some(session) => beside_twin(alloc, session, call),
        None => None,
    };
    drop(made);
    verdict
}

fn beside_twin(alloc: Global, session: &mut Session, call: &str) -> Option<Verdict> {
    let right = calls(alloc, session, call)?;
    let made = begun(alloc);
    let verdict = match &made {
        Some(twin) => Some(judged(right, same_fleet(session.fleet(), twin.fleet()))),
        None => None,
    };
    drop(made);
    verdict
}

// Whether the answer is right. The outer `None` means that no call has the name, the inner one that memory was refused.
fn calls(alloc: Global, session: &mut Session, call: &str) -> Option<Option<bool>> {
    match call {
        "Session::run" => Some(runs(alloc, session)),
        "Session::remove" => Some(removes(alloc, session)),
        "Session::pull" => Some(pulls(alloc, session)),
        "Session::preview" => Some(previews(alloc, session)),
        "Session::run_number" => Some(runs_number(alloc, session)),
        "Session::try_clone" => Some(copies(alloc, session)),
        _ => calls_with(alloc, session, call),
    }
}

// The same for the calls that are lent a record or a filter.
fn calls_with(alloc: Global, session: &mut Session, call: &str) -> Option<Option<bool>> {
    let record = rated(alloc, 3);
    let filter = filter_of(alloc, "rating >= 5");
    let right = match (&record, &filter) {
        (Some(content), Some(filter)) => calls_lent(alloc, session, content, filter, call),
        _ => None,
    };
    drop(record);
    drop(filter);
    right
}

fn calls_lent(
    alloc: Global,
    session: &mut Session,
    content: &Record,
    filter: &Filter,
    call: &str,
) -> Option<Option<bool>> {
    match call {
        "Session::make" => Some(makes(alloc, session, content)),
        "Session::edit" => Some(edits(alloc, session, content)),
        "Session::narrow" => Some(narrows(alloc, session, filter)),
        "Session::refilter" => Some(refilters(alloc, session, filter)),
        "Session::add" => Some(adds(alloc, session, filter)),
        _ => None,
    }
}

// The result of a call: `None` where memory was refused, and false after any other fault.
fn given<T: Drop>(answer: Result<T, FleetFault>) -> Option<bool> {
    match answer {
        Ok(_) => Some(true),
        Err(FleetFault::NoMemory) => None,
        Err(_) => Some(false),
    }
}

fn runs(alloc: Global, session: &mut Session) -> Option<bool> {
    let command = Command::Remove {
        device: 0,
        picture: PicNo::new(7)?,
    };
    mark(alloc);
    let report = session.run(&command);
    mark(alloc);
    drop(command);
    Some(given(report)? && session.fleet().log().len() == 2)
}

fn makes(alloc: Global, session: &mut Session, content: &Record) -> Option<bool> {
    let picture = PicNo::new(7)?;
    mark(alloc);
    let made = session.make(1, picture, content);
    mark(alloc);
    Some(given(made)? && session.fleet().log().len() == 2)
}

fn edits(alloc: Global, session: &mut Session, content: &Record) -> Option<bool> {
    let picture = PicNo::new(7)?;
    mark(alloc);
    let made = session.edit(0, picture, content);
    mark(alloc);
    Some(given(made)? && session.fleet().log().len() == 2)
}

fn removes(alloc: Global, session: &mut Session) -> Option<bool> {
    let picture = PicNo::new(7)?;
    mark(alloc);
    let made = session.remove(0, picture);
    mark(alloc);
    Some(given(made)? && session.fleet().log().len() == 2)
}

fn pulls(alloc: Global, session: &mut Session) -> Option<bool> {
    mark(alloc);
    let counts = session.pull(1, 0);
    mark(alloc);
    Some(given(counts)? && session.fleet().commands() == 2)
}

fn narrows(alloc: Global, session: &mut Session, filter: &Filter) -> Option<bool> {
    mark(alloc);
    let count = session.narrow(0, filter);
    mark(alloc);
    Some(given(count)? && session.fleet().commands() == 2)
}

fn refilters(alloc: Global, session: &mut Session, filter: &Filter) -> Option<bool> {
    mark(alloc);
    let sizes = session.refilter(0, filter);
    mark(alloc);
    Some(given(sizes)? && session.fleet().commands() == 2)
}

fn previews(alloc: Global, session: &Session) -> Option<bool> {
    mark(alloc);
    let counts = session.preview(1, 0);
    mark(alloc);
    Some(given(counts)? && session.fleet().commands() == 1)
}

fn adds(alloc: Global, session: &mut Session, filter: &Filter) -> Option<bool> {
    mark(alloc);
    let number = session.add(filter);
    mark(alloc);
    Some(given(number)? && session.fleet().devices().len() == 3)
}

fn copies(alloc: Global, session: &Session) -> Option<bool> {
    mark(alloc);
    let made = session.try_clone();
    mark(alloc);
    let right = match &made {
        Ok(copy) => Some(same_fleet(copy.fleet(), session.fleet())),
        Err(_) => None,
    };
    drop(made);
    right
}

const TWO_DEVICES: &str = "device a all\ndevice b all\nnew b 1 5 2024-01-01 -\n";

fn runs_number(alloc: Global, session: &mut Session) -> Option<bool> {
    let made = script_of(alloc, TWO_DEVICES);
    let right = match &made {
        Some(script) => runs_first_of(alloc, session, script),
        None => None,
    };
    drop(made);
    right
}

fn runs_first_of(alloc: Global, session: &mut Session, script: &Script) -> Option<bool> {
    mark(alloc);
    let report = session.run_number(script, 1);
    mark(alloc);
    Some(given(report)? && session.fleet().log().len() == 2)
}
