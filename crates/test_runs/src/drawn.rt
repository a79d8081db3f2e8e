//! Scripts drawn by chance from a seed, with five devices and any number of commands. They are equal on every machine. A test
//! counts that each kind of pull occurs among them.
ghost use Rattle.std.specs.Prelude.{◌<◌};

use fleet_runner::run_plain;
use photo_script::{Report, Script, read_script};
use std::alloc::{AllocError, Global};

/// A drawn script has at most that many commands.
pub const COMMANDS: u32 = 60;

/// The numbers of kinds of draws. With the first eight, scripts make, remove and pull; with all ten they also refilter and
/// preview.
pub const SOME_KINDS: u32 = 8;

pub const ALL_KINDS: u32 = 10;

const DEVICES: &str =
    "device a all\ndevice b rating >= 3\ndevice c rating >= 4\ndevice d keyword x\ndevice e not keyword x\n";

// A linear congruential generator.
#[derive(Drop)]
struct Chance {
    state: u64,
    ghost in_range: { state < 2_147_483_648 },
}

impl Chance {
    fn new(seed: u16) -> Chance {
        Chance {
            state: u64::from(seed),
        }
    }

    // A number from 0 up to before `end`.
    fn draw(&mut self, end: u32) -> u32
        requires { 0 < end }
        ensures { result < end }
    {
        self.state = (1_103_515_245 * self.state + 12_345) % 2_147_483_648;
        ((self.state / 65_536) % u64::from(end)) as u32
    }
}

/// The script of a seed with the first `kinds` kinds of draws, up to its first `commands` commands.
pub fn drawn(alloc: Global, seed: u16, kinds: u32, commands: u32) -> Result<String, AllocError>
    requires { 0 < kinds }
{
    let mut lines = String::new(alloc);
    let mut chance = Chance::new(seed);
    let count = commands.min(COMMANDS);
    for i in 0..count {
        push_draw(&mut lines, &mut chance, kinds, i + 1)?;
    }
    front(alloc, lines.as_str(), count)
}

// The devices' lines and the first `count` lines behind them.
fn front(alloc: Global, lines: &str, count: u32) -> Result<String, AllocError> {
    let mut text = String::new(alloc);
    text.push_str(DEVICES)?;
    let mut left = count;
    for line in lines.lines() {
        if left == 0 {
            return Ok(text);
        }
        left -= 1;
        write!(text, "{line}\n")?;
    }
    Ok(text)
}

// The commands of the draw of that number, from 1: one command, or the four of a turn.
fn push_draw(
    text: &mut String,
    chance: &mut Chance,
    kinds: u32,
    number: u32,
) -> Result<(), AllocError>
    requires kinds { 0 < kinds }
    requires number { 0 < number }
{
    let kind = chance.draw(kinds);
    let device = chance.draw(5);
    match kind {
        0 | 1 => push_record(text, chance, "new", device, number),
        2 => {
            let picture = 1 + chance.draw(number);
            push_record(text, chance, "edit", device, picture)
        }
        3 => {
            let picture = 1 + chance.draw(number);
            write!(text, "remove {} {picture}\n", name(device))?;
            Ok(())
        }
        4 => push_turn(text, chance, number),
        8 => {
            let filter = filter(chance.draw(5));
            write!(text, "refilter {} {filter}\n", name(device))?;
            Ok(())
        }
        9 => push_pair(text, chance, "preview", device),
        _ => push_pair(text, chance, "pull", device),
    }
}

// A command between a device and another one.
fn push_pair(
    text: &mut String,
    chance: &mut Chance,
    word: &str,
    device: u32,
) -> Result<(), AllocError> {
    let source = (device % 5 + 1 + chance.draw(4)) % 5;
    write!(text, "{word} {} {}\n", name(device), name(source))?;
    Ok(())
}

// Another device takes a picture from `a`, which then edits it so that the other's filter no longer matches; the other's next
// pull notices this.
fn push_turn(text: &mut String, chance: &mut Chance, picture: u32) -> Result<(), AllocError> {
    let other = 1 + chance.draw(4);
    let (kept, left) = if other == 4 { ("-", "x") } else { ("x", "-") };
    let name = name(other);
    write!(text, "new a {picture} 5 2024-01-01 {kept}\npull {name} a\n")?;
    write!(
        text,
        "edit a {picture} 1 2024-01-01 {left}\npull {name} a\n"
    )?;
    Ok(())
}

fn push_record(
    text: &mut String,
    chance: &mut Chance,
    word: &str,
    device: u32,
    picture: u32,
) -> Result<(), AllocError> {
    let rating = chance.draw(6);
    let words = if chance.draw(2) == 1 { "x" } else { "-" };
    write!(
        text,
        "{word} {} {picture} {rating} 2024-01-01 {words}\n",
        name(device)
    )?;
    Ok(())
}

fn name(device: u32) -> &'static str {
    match device {
        0 => "a",
        1 => "b",
        2 => "c",
        3 => "d",
        _ => "e",
    }
}

fn filter(number: u32) -> &'static str {
    match number {
        0 => "all",
        1 => "rating >= 3",
        2 => "rating >= 4",
        3 => "keyword x",
        _ => "not keyword x",
    }
}

// The first commands of seed 1, worked out by hand.
const FIRST: &str =
    "device a all\ndevice b rating >= 3\ndevice c rating >= 4\ndevice d keyword x\ndevice e not keyword x\npull d a\nremove b 2\nedit e 1 0 2024-01-01 x\npull e a\nnew d 5 3 2024-01-01 x\nnew b 6 2 2024-01-01 -\npull b a\npull b d\nedit b 6 5 2024-01-01 -\npull b a\nedit d 6 0 2024-01-01 -\nnew a 12 5 2024-01-01 -\npull e a\nedit a 12 1 2024-01-01 x\npull e a\n";

fn draws(alloc: Global, seed: u16, commands: u32, wanted: &str) -> bool {
    match drawn(alloc, seed, SOME_KINDS, commands) {
        Ok(text) => text.as_str() == wanted,
        Err(_) => false,
    }
}

#[test]
fn first_commands_of_a_seed(rt: HostRuntime) {
    assert!(rt; draws(rt.alloc(), 1, 15, FIRST));
}

// Counts a pull: in total, for each of its four counts that is above 0, and if the target learned everything.
fn add(sums: &mut [u32; 6], report: &Report) {
    if let Report::Pulled(counts) = report {
        let is_above = [
            true,
            counts.taken > 0,
            counts.handed > 0,
            counts.notices > 0,
            counts.dropped > 0,
            counts.learned,
        ];
        for i in 0..6 {
            if is_above[i] {
                sums[i] = sums[i].saturating_add(1);
            }
        }
    }
}

// Counts the pulls of a script's run.
fn add_all(alloc: Global, script: &Script, sums: &mut [u32; 6]) -> bool {
    match run_plain(alloc, script) {
        Ok(outcome) => {
            for report in outcome.reports.as_slice() {
                add(sums, report);
            }
            true
        }
        Err(_) => false,
    }
}

fn add_drawn(alloc: Global, seed: u16, kinds: u32, sums: &mut [u32; 6]) -> bool
    requires { 0 < kinds }
{
    let Ok(text) = drawn(alloc, seed, kinds, COMMANDS) else {
        return false;
    };
    match read_script(alloc, text.as_bytes()) {
        Ok(script) => add_all(alloc, &script, sums),
        Err(_) => false,
    }
}

// At least a tenth of the pulls take something, a tenth are handed something, and likewise for notices, drops and learning.
#[test]
fn pulls_of_each_kind(rt: HostRuntime) {
    let mut sums = [0u32; 6];
    for seed in 1..21 {
        assert!(rt; add_drawn(rt.alloc(), seed, SOME_KINDS, &mut sums));
        assert!(rt; add_drawn(rt.alloc(), seed, ALL_KINDS, &mut sums));
    }
    for above in sums {
        assert!(rt;
            above > 0 && above.saturating_mul(10) >= sums[0],
            "{above} of {}",
            sums[0]
        );
    }
}
