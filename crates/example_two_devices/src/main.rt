//! Two devices edit one picture, and the first takes the second's edit: an example of docs/LIBRARY.md.
#![tactic(auto)]

use live_fleet::Session;
use photo_filter_rules::Filter;
use photo_filter_text::FilterTree;
use photo_record::{Day, PicNo, Rating, Record, Words};
use std::alloc::Global;
use std::io;

fn example_two_devices(alloc: Global) -> Option<Session> {
    let all = Filter::build(alloc, FilterTree::All).ok()?;
    Session::new(alloc, &[all.try_clone().ok()?, all]).ok()
}

fn both_edit(alloc: Global, session: &mut Session) -> Option<u64> {
    let (rating, day) = (Rating::new(4)?, Day::read("2024-05-01")?);
    let words = Words::read(alloc, "sea,sunset").ok()?;
    let (picture, record) = (PicNo::new(7)?, Record::Picture { rating, day, words });
    session.make(0, picture, &record).ok()?;
    session.pull(1, 0).ok()?;
    session.edit(0, picture, &record).ok()?;
    session.edit(1, picture, &record).ok()?;
    Some(session.pull(0, 1).ok()?.taken)
}

fn main(rt: HostRuntime) -> io::Result<()> {
    let Some(mut session) = example_two_devices(rt.alloc()) else {
        return println!(rt; "memory was refused");
    };
    let taken = both_edit(rt.alloc(), &mut session).unwrap_or(0);
    println!(rt; "the first device took {taken} version")
}
