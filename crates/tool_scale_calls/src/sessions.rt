//! The calls of `Session` of `live_fleet`, where the first device of its fleet has made many versions.
use crate::fleets::two_filters;
use crate::told::tell;
use live_fleet::Session;
use photo_filter_rules::Filter;
use photo_record::{PicNo, Record};
use photo_script::{Command, Script};
use tool_value_refusals::rated;

/// Makes them.
pub fn make(rt: HostRuntime, session: &mut Session) {
    let done = session.try_clone().is_ok();
    tell(rt, "live_fleet::Session::try_clone", done);
    let done = session.preview(1, 0).is_ok();
    tell(rt, "live_fleet::Session::preview", done);
    let done = session.pull(1, 0).is_ok();
    tell(rt, "live_fleet::Session::pull", done);
    if let Some(picture) = PicNo::new(2) {
        make_versions(rt, session, picture);
    }
    filter(rt, session);
}

// The second device, which holds all that the first one made, makes versions.
fn make_versions(rt: HostRuntime, session: &mut Session, picture: PicNo) {
    let made = rated(rt.alloc(), 4);
    if let Some(content) = &made {
        change(rt, session, picture, content);
    }
    drop(made);
}

fn change(rt: HostRuntime, session: &mut Session, picture: PicNo, content: &Record) {
    let done = session.make(1, picture, content).is_ok();
    tell(rt, "live_fleet::Session::make", done);
    let done = session.edit(1, picture, content).is_ok();
    tell(rt, "live_fleet::Session::edit", done);
    let done = session.remove(1, picture).is_ok();
    tell(rt, "live_fleet::Session::remove", done);
    let command = Command::Remove { device: 1, picture };
    let done = session.run(&command).is_ok();
    tell(rt, "live_fleet::Session::run", done);
    drop(command);
}

fn filter(rt: HostRuntime, session: &mut Session) {
    let made = two_filters(rt.alloc());
    if let Some(filters) = &made {
        filter_by(rt, session, filters);
    }
    drop(made);
}

fn filter_by(rt: HostRuntime, session: &mut Session, filters: &[Filter; 2]) {
    let done = session.narrow(1, &filters[0]).is_ok();
    tell(rt, "live_fleet::Session::narrow", done);
    let done = session.refilter(1, &filters[1]).is_ok();
    tell(rt, "live_fleet::Session::refilter", done);
    let done = session.add(&filters[0]).is_ok();
    tell(rt, "live_fleet::Session::add", done);
    let done = Session::new(rt.alloc(), filters).is_ok();
    tell(rt, "live_fleet::Session::new", done);
}

/// Opens a session of a script, and runs the whole of it.
pub fn run_script(rt: HostRuntime, script: &Script) {
    let made = Session::of_script(rt.alloc(), script);
    tell(rt, "live_fleet::Session::of_script", made.is_ok());
    if let Ok(mut session) = made {
        let done = has_run(&mut session, script);
        tell(rt, "live_fleet::Session::run_number", done);
    }
}

/// Runs the whole of a script, command by command, and tells whether each was answered.
pub fn has_run(session: &mut Session, script: &Script) -> bool {
    for number in 1..script.commands() as u32 + 1 {
        if session.run_number(script, number).is_err() {
            return false;
        }
    }
    true
}
