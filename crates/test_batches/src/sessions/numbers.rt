// Tests of a session that runs a script's commands by number.
use live_fleet::{FleetFault, Session};
use photo_script::{Script, read_script, report_text};
use std::alloc::Global;

const SCRIPT: &str =
    "device a all\ndevice b rating >= 4\nnew a 1 5 2024-01-01 -\npull b a\nlist b\n";

const TEXTS: [&str; 3] = [
    "1 made a:1 store\n",
    "2 pulled taken 1 handed 0 notices 0 dropped 0 learned yes\n",
    "3 list b store 1 out 0\n  store 1 a:1 rating 5 day 2024-01-01 words -\n",
];

/// Whether the script's commands run one after another, and no others.
pub fn runs_script(alloc: Global) -> bool {
    match read_script(alloc, SCRIPT.as_bytes()) {
        Ok(script) => runs(alloc, &script),
        Err(_) => false,
    }
}

fn runs(alloc: Global, script: &Script) -> bool {
    match Session::of_script(alloc, script) {
        Ok(mut session) => tells(alloc, &mut session, script),
        Err(_) => false,
    }
}

// Whether the reports have the right texts, and there is no command before the first or after the last.
fn tells(alloc: Global, session: &mut Session, script: &Script) -> bool {
    for i in 0..TEXTS.len() {
        if !is_told(alloc, session, script, i as u32 + 1, TEXTS[i]) {
            return false;
        }
    }
    has_no_command(session, script, 0)
        && has_no_command(session, script, 4)
        && session.fleet().commands() == 3
        && session.fleet().log().len() == 1
}

fn has_no_command(session: &mut Session, script: &Script, number: u32) -> bool {
    match session.run_number(script, number) {
        Ok(_) => false,
        Err(fault) => fault == FleetFault::NoCommand,
    }
}

fn is_told(
    alloc: Global,
    session: &mut Session,
    script: &Script,
    number: u32,
    right: &str,
) -> bool {
    match session.run_number(script, number) {
        Ok(report) => match report_text(alloc, script, number, &report) {
            Ok(text) => text.as_str() == right,
            Err(_) => false,
        },
        Err(_) => false,
    }
}
