//! Drawn fleets that are saved and loaded: pictures with two makers, removals, a device that comes later, changes that no text
//! can have, and runs that fail.
ghost use Rattle.std.specs.Prelude.{◌<◌};

use crate::chance::Chance;
use crate::saved::{Became, change, declare, is_loaded};
use live_fleet::Session;
use photo_filter_rules::Filter;
use photo_filter_text::read;
use photo_record::{Day, PicNo, Rating, Record, Words};
use photo_script::{Command, GrowingScript, Script};
use script_text::command_text;
use std::alloc::Global;

const SEEDS: u16 = 1_000;

// The changes of a drawn fleet.
const CHANGES: u32 = 40;

// The last one comes later: until then it keeps nothing.
const DEVICES: &[&str] = &[
    "device a all",
    "device b rating >= 3",
    "device c keyword x",
    "device d none",
];

// Sixteen words of 64 bytes are too long for a line.
const LONG_WORDS: &str =
    "aaaaaaaaaaaaaaaaaaaaaaaaaaaaaaaaaaaaaaaaaaaaaaaaaaaaaaaaaaaaaaaa,baaaaaaaaaaaaaaaaaaaaaaaaaaaaaaaaaaaaaaaaaaaaaaaaaaaaaaaaaaaaaaa,caaaaaaaaaaaaaaaaaaaaaaaaaaaaaaaaaaaaaaaaaaaaaaaaaaaaaaaaaaaaaaa,daaaaaaaaaaaaaaaaaaaaaaaaaaaaaaaaaaaaaaaaaaaaaaaaaaaaaaaaaaaaaaa,eaaaaaaaaaaaaaaaaaaaaaaaaaaaaaaaaaaaaaaaaaaaaaaaaaaaaaaaaaaaaaaa,faaaaaaaaaaaaaaaaaaaaaaaaaaaaaaaaaaaaaaaaaaaaaaaaaaaaaaaaaaaaaaa,gaaaaaaaaaaaaaaaaaaaaaaaaaaaaaaaaaaaaaaaaaaaaaaaaaaaaaaaaaaaaaaa,haaaaaaaaaaaaaaaaaaaaaaaaaaaaaaaaaaaaaaaaaaaaaaaaaaaaaaaaaaaaaaa,iaaaaaaaaaaaaaaaaaaaaaaaaaaaaaaaaaaaaaaaaaaaaaaaaaaaaaaaaaaaaaaa,jaaaaaaaaaaaaaaaaaaaaaaaaaaaaaaaaaaaaaaaaaaaaaaaaaaaaaaaaaaaaaaa,kaaaaaaaaaaaaaaaaaaaaaaaaaaaaaaaaaaaaaaaaaaaaaaaaaaaaaaaaaaaaaaa,laaaaaaaaaaaaaaaaaaaaaaaaaaaaaaaaaaaaaaaaaaaaaaaaaaaaaaaaaaaaaaa,maaaaaaaaaaaaaaaaaaaaaaaaaaaaaaaaaaaaaaaaaaaaaaaaaaaaaaaaaaaaaaa,naaaaaaaaaaaaaaaaaaaaaaaaaaaaaaaaaaaaaaaaaaaaaaaaaaaaaaaaaaaaaaa,oaaaaaaaaaaaaaaaaaaaaaaaaaaaaaaaaaaaaaaaaaaaaaaaaaaaaaaaaaaaaaaa,paaaaaaaaaaaaaaaaaaaaaaaaaaaaaaaaaaaaaaaaaaaaaaaaaaaaaaaaaaaaaaa";

// Above 256 tokens with all its brackets.
const LONG_FILTER: &str =
    "not keyword a or not keyword b or not keyword c or not keyword d or not keyword e or not keyword f or not keyword g or not keyword h or not keyword i or not keyword j or not keyword k or not keyword l or not keyword m or not keyword n or not keyword o or not keyword p or not keyword q or not keyword r or not keyword s or not keyword t or not keyword u or not keyword v or not keyword w or not keyword y or not keyword z or rating >= 1 or rating >= 2 or rating >= 3 or rating >= 4 or rating >= 5 or rating = 0";

fn filter_of(number: u32) -> &'static str {
    match number {
        0 => "all",
        1 => "rating >= 3",
        2 => "rating >= 3 and keyword x",
        3 => LONG_FILTER,
        _ => "none",
    }
}

fn words_of(number: u32) -> &'static str {
    match number {
        0 => "-",
        1 => "x",
        2 => LONG_WORDS,
        _ => "x,y",
    }
}

// A record, be it one that says `removed`.
fn record_of(alloc: Global, chance: &mut Chance) -> Option<Record> {
    let (rating, words) = (chance.draw(7), words_of(chance.draw(6)));
    if rating == 6 {
        return Some(Record::Removed);
    }
    Some(Record::Picture {
        rating: Rating::new(rating as u8)?,
        day: Day::read("2026-07-01")?,
        words: Words::read(alloc, words).ok()?,
    })
}

fn drawn_filter(alloc: Global, chance: &mut Chance) -> Option<Filter> {
    let tree = read(alloc, filter_of(chance.draw(5))).ok()?;
    Filter::build(alloc, tree).ok()
}

// A change of a device, or of one that isn't there, of one of a few pictures.
fn drawn_command(alloc: Global, chance: &mut Chance) -> Option<Command> {
    let kind = chance.draw(11);
    let (device, other) = (chance.draw(17) as u16 / 4, chance.draw(4) as u16);
    let picture = PicNo::new(1 + chance.draw(9))?;
    match kind {
        0 | 1 => {
            let record = record_of(alloc, chance)?;
            Some(Command::New {
                device,
                picture,
                record,
            })
        }
        2 | 3 => {
            let record = record_of(alloc, chance)?;
            Some(Command::Edit {
                device,
                picture,
                record,
            })
        }
        4 => Some(Command::Remove { device, picture }),
        5 => {
            let filter = drawn_filter(alloc, chance)?;
            Some(Command::Narrow { device, filter })
        }
        6 => {
            let filter = drawn_filter(alloc, chance)?;
            Some(Command::Refilter { device, filter })
        }
        7 => Some(Command::Preview {
            target: device,
            source: other,
        }),
        _ => Some(Command::Pull {
            target: device,
            source: other,
        }),
    }
}

fn drawn_line(alloc: Global, chance: &mut Chance, script: &Script) -> Option<String> {
    let command = drawn_command(alloc, chance)?;
    command_text(alloc, script, &command).ok()
}

// How many changes were saved, were refused and failed.
type Counts = (u32, u32, u32);

fn counted(counts: Counts, became: Became) -> Counts {
    let (saved, refused, failed) = counts;
    match became {
        Became::Saved => (saved.saturating_add(1), refused, failed),
        Became::Refused => (saved, refused.saturating_add(1), failed),
        Became::Failed => (saved, refused, failed.saturating_add(1)),
    }
}

// Makes drawn changes. `None` where memory was refused.
fn changed(
    alloc: Global,
    chance: &mut Chance,
    growing: &mut GrowingScript,
    text: &mut String,
    session: &mut Session,
) -> Option<Counts> {
    let mut counts = (0, 0, 0);
    for _ in 0..CHANGES {
        let line = drawn_line(alloc, chance, growing.script())?;
        let fails = chance.draw(10) == 0;
        let became = change(alloc, growing, text, session, line.as_str(), fails)?;
        counts = counted(counts, became);
    }
    Some(counts)
}

fn declare_all(growing: &mut GrowingScript, text: &mut String) -> bool {
    for line in DEVICES {
        if !declare(growing, text, line) {
            return false;
        }
    }
    true
}

// Whether the fleet of a seed is loaded as it was saved; how its changes went.
fn saved(alloc: Global, seed: u16) -> Option<Counts> {
    let mut growing = GrowingScript::new(alloc);
    let mut text = String::new(alloc);
    if !declare_all(&mut growing, &mut text) {
        return None;
    }
    let mut session = Session::of_script(alloc, growing.script()).ok()?;
    let counts = changed(
        alloc,
        &mut Chance::new(seed),
        &mut growing,
        &mut text,
        &mut session,
    );
    if is_loaded(alloc, text.as_str(), &session) {
        counts
    } else {
        None
    }
}

// Whether each drawn fleet is loaded as it was saved, and changes of each kind are among them.
fn all_are_saved(alloc: Global) -> bool {
    let mut all = (0u32, 0u32, 0u32);
    for seed in 0..SEEDS {
        let Some(counts) = saved(alloc, seed) else {
            return false;
        };
        all = (
            all.0.saturating_add(counts.0),
            all.1.saturating_add(counts.1),
            all.2.saturating_add(counts.2),
        );
    }
    all.0 > 10_000 && all.1 > 1_000 && all.2 > 1_000
}

#[test]
fn saved_fleets(rt: HostRuntime) {
    assert!(rt; all_are_saved(rt.alloc()));
}
