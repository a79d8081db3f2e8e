//! The calls of `Fleet` of `live_fleet`, and those that write of a fleet, where its first device has made many versions.
ghost use Rattle.std.specs.Prelude.{◌≡◌, ◌≤◌, length};
ghost use Rattle.photo_script.specs.Reports.{IsAbout, answer_of};

use crate::pulls::text_of;
use crate::told::tell;
use crate::{questions, sessions};
use live_fleet::{Fleet, Session};
use photo_filter_rules::Filter;
use photo_record::{PicNo, Record};
use photo_script::{
    Command, Report, Script, push_report, push_unnumbered, read_script, report_text,
};
use std::alloc::Global;
use tool_value_refusals::{filter_of, rated};

/// Makes the calls on a fleet whose first device has `count` versions.
pub fn make(rt: HostRuntime, count: u32) {
    let made = text_of(rt.alloc(), count);
    if let Ok(text) = &made {
        on_text(rt, text);
    }
    drop(made);
}

fn on_text(rt: HostRuntime, text: &str) {
    let made = read_script(rt.alloc(), text.as_bytes());
    if let Ok(script) = &made {
        on_script(rt, script);
    }
    drop(made);
}

fn on_script(rt: HostRuntime, script: &Script) {
    let mut made = Session::of_script(rt.alloc(), script);
    if let Ok(session) = &mut made {
        if sessions::has_run(session, script) {
            list(rt, script, session);
            questions::make(rt, session.fleet());
            on_copy(rt, session.fleet());
            sessions::make(rt, session);
        }
    }
    drop(made);
}

// The list that the script's last command asks for, as a text.
fn list(rt: HostRuntime, script: &Script, session: &mut Session) {
    let last = script.commands() as u32;
    let made = session.run_number(script, last);
    if let Ok(report) = &made {
        write_list(rt, script, last, report);
    }
    drop(made);
}

fn write_list(rt: HostRuntime, script: &Script, number: u32, report: &Report)
    requires { IsAbout script.now (answer_of report.now) }
{
    let done = report_text(rt.alloc(), script, number, report).is_ok();
    tell(rt, "photo_script::report_text", done);
    let mut text = String::new(rt.alloc());
    let done = push_report(&mut text, script, number, report).is_ok();
    tell(rt, "photo_script::push_report", done);
    text.clear();
    let done = push_unnumbered(&mut text, script, report).is_ok();
    tell(rt, "photo_script::push_unnumbered", done);
}

// The calls on a copy of the fleet.
fn on_copy(rt: HostRuntime, fleet: &Fleet) {
    let mut made = fleet.try_clone();
    tell(rt, "live_fleet::Fleet::try_clone", made.is_ok());
    if let Ok(copy) = &mut made {
        on_fleet(rt, copy);
    }
    drop(made);
}

fn on_fleet(rt: HostRuntime, fleet: &mut Fleet) {
    if fleet.devices().len() == 2 && fleet.commands() < 4_000_000_000 {
        pull(rt, fleet);
        if let Some(picture) = PicNo::new(2) {
            make_versions(rt, fleet, picture);
        }
    }
    if fleet.devices().len() == 2 && fleet.commands() < 4_000_000_000 {
        filter(rt, fleet);
    }
}

fn pull(rt: HostRuntime, fleet: &mut Fleet)
    requires devices { length fleet.old.devices ≡ 2 }
    requires room { fleet.old.commands ≤ 4_000_000_000 }
    ensures devices { length fleet.new.devices ≡ 2 }
    ensures room { fleet.new.commands ≤ 4_000_000_001 }
{
    let done = fleet.preview(1, 0).is_ok();
    tell(rt, "live_fleet::Fleet::preview", done);
    let done = fleet.pull(1, 0).is_ok();
    tell(rt, "live_fleet::Fleet::pull", done);
}

// The second device, which holds all that the first one made, makes versions.
fn make_versions(rt: HostRuntime, fleet: &mut Fleet, picture: PicNo)
    requires devices { length fleet.old.devices ≡ 2 }
    requires room { fleet.old.commands ≤ 4_000_000_001 }
{
    let made = rated(rt.alloc(), 4);
    if let Some(content) = &made {
        change(rt, fleet, picture, content);
    }
    drop(made);
}

fn change(rt: HostRuntime, fleet: &mut Fleet, picture: PicNo, content: &Record)
    requires devices { length fleet.old.devices ≡ 2 }
    requires room { fleet.old.commands ≤ 4_000_000_001 }
{
    let done = fleet.make(1, picture, content).is_ok();
    tell(rt, "live_fleet::Fleet::make", done);
    let done = fleet.edit(1, picture, content).is_ok();
    tell(rt, "live_fleet::Fleet::edit", done);
    let done = fleet.remove(1, picture).is_ok();
    tell(rt, "live_fleet::Fleet::remove", done);
    let command = Command::Remove { device: 1, picture };
    let done = fleet.run(&command).is_ok();
    tell(rt, "live_fleet::Fleet::run", done);
    drop(command);
}

fn filter(rt: HostRuntime, fleet: &mut Fleet)
    requires devices { length fleet.old.devices ≡ 2 }
    requires room { fleet.old.commands ≤ 4_000_000_000 }
{
    let made = two_filters(rt.alloc());
    if let Some(filters) = &made {
        filter_by(rt, fleet, filters);
    }
    drop(made);
}

/// A filter that matches all records of the script, and one that matches others.
pub fn two_filters(alloc: Global) -> Option<[Filter; 2]> {
    match filter_of(alloc, "rating >= 1") {
        Some(narrower) => with_second(alloc, narrower),
        None => None,
    }
}

fn with_second(alloc: Global, narrower: Filter) -> Option<[Filter; 2]> {
    match filter_of(alloc, "rating <= 2") {
        Some(other) => Some([narrower, other]),
        None => {
            drop(narrower);
            None
        }
    }
}

fn filter_by(rt: HostRuntime, fleet: &mut Fleet, filters: &[Filter; 2])
    requires devices { length fleet.old.devices ≡ 2 }
    requires room { fleet.old.commands ≤ 4_000_000_000 }
{
    let done = fleet.narrow(1, &filters[0]).is_ok();
    tell(rt, "live_fleet::Fleet::narrow", done);
    let done = fleet.refilter(1, &filters[1]).is_ok();
    tell(rt, "live_fleet::Fleet::refilter", done);
    let done = fleet.add(&filters[0]).is_ok();
    tell(rt, "live_fleet::Fleet::add", done);
    let done = Fleet::new(rt.alloc(), filters).is_ok();
    tell(rt, "live_fleet::Fleet::new", done);
}
