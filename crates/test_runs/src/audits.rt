//! Tests of audits: of drawn scripts after each command, of the examples, and of unsound devices.
ghost use Rattle.std.specs.Prelude.{◌≡◌, ℕ, ◌<◌, IfSome, if◌then◌else◌};
ghost use Rattle.photo_version.specs.Author as authors;
ghost use Rattle.photo_version.specs.Version as versions;
ghost use Rattle.item_knowledge.specs.Fragments.{knows};
ghost use Rattle.item_knowledge.specs.Kept.{star_bound};

use super::drawn::{ALL_KINDS, COMMANDS, SOME_KINDS, drawn};
use super::pulling::{NARROWED, PULLS, REFILTERED};
use fleet_runner::{IssueLog, Outcome, audit, run_plain};
use item_knowledge::Knowledge;
use photo_device::Device;
use photo_device::laws::with_knowledge;
use photo_record::PicNo;
use photo_script::{Script, read_script};
use photo_version::{Author, Version};
use std::alloc::Global;

/// Whether the outcome of a script's run passes a test.
pub fn on_run<F: FnOnce(Global, &mut Outcome) -> bool>(alloc: Global, text: &str, test: F) -> bool
    requires { F.IsAlwaysCallable test }
{
    match read_script(alloc, text.as_bytes()) {
        Ok(script) => on_outcome(alloc, &script, test),
        Err(_) => false,
    }
}

fn on_outcome<F: FnOnce(Global, &mut Outcome) -> bool>(
    alloc: Global,
    script: &Script,
    test: F,
) -> bool
    requires { F.IsAlwaysCallable test }
{
    match run_plain(alloc, script) {
        Ok(mut outcome) => test(alloc, &mut outcome),
        Err(_) => false,
    }
}

// The test for each run: an audit says yes.
fn is_right(_alloc: Global, outcome: &mut Outcome) -> bool {
    audit(outcome.devices.as_slice(), &outcome.log)
}

fn drawn_is_right(alloc: Global, seed: u16, kinds: u32, commands: u32) -> bool
    requires { 0 < kinds }
{
    match drawn(alloc, seed, kinds, commands) {
        Ok(text) => on_run(alloc, text.as_str(), is_right),
        Err(_) => false,
    }
}

// Whether an audit says yes before the first command of a seed's script, and after each command.
fn stays_right(alloc: Global, seed: u16, kinds: u32) -> bool
    requires { 0 < kinds }
{
    for commands in 0..COMMANDS + 1 {
        if !drawn_is_right(alloc, seed, kinds, commands) {
            return false;
        }
    }
    true
}

#[test]
fn drawn_scripts_stay_right(rt: HostRuntime) {
    for seed in 1..21 {
        assert!(rt; stays_right(rt.alloc(), seed, SOME_KINDS), "seed {seed}");
        assert!(rt; stays_right(rt.alloc(), seed, ALL_KINDS), "seed {seed}");
    }
}

pub const HOUSEHOLD: &str =
    "# A phone and a camera take pictures, a server keeps them all, a frame in the hall shows the good ones, and the\n# children's tablet shows what is not private.\ndevice phone all\ndevice camera rating >= 3\ndevice server all\ndevice hall rating >= 4\ndevice tablet rating >= 2 and not keyword private\n\nnew phone 1 5 2026-07-01 beach\nnew phone 2 4 2026-07-01 beach,private\nnew camera 3 4 2026-07-02 mountains\n# Below the camera's own filter: it goes to the camera's out, and the next one that pulls takes it along.\nnew camera 4 1 2026-07-02 blurred\n\npull server phone\npull server camera\npull hall server\npull tablet server\nlist hall\nlist tablet\n\n# On the server a picture becomes private. The tablet's next pull lets go of it.\nedit server 1 5 2026-07-01 beach,private\npull tablet server\nlist tablet\n\n# The phone and the server change one picture without knowing of each other, and the server sees the conflict.\nedit phone 2 3 2026-07-01 beach,private\nedit server 2 5 2026-07-01 beach,private\npull server phone\nconflicts server\nedit server 2 4 2026-07-01 beach,private,chosen\nconflicts server\npull phone server\nconflicts phone\n\n# A picture is removed, and leaves the hall by way of the server.\nremove phone 1\npull server phone\npull hall server\nlist hall\n\n# The hall is to show the best alone from now on.\nnarrow hall rating = 5\nnarrow hall rating >= 4\nknowledge camera\nknowledge hall\n";

fn are_right(alloc: Global, scripts: &[(&str, &str)]) -> bool {
    for (text, _) in scripts {
        if !on_run(alloc, text, is_right) {
            return false;
        }
    }
    true
}

#[test]
fn examples_end_right(rt: HostRuntime) {
    assert!(rt; are_right(rt.alloc(), &[("", ""), (HOUSEHOLD, "")]));
    assert!(rt; are_right(rt.alloc(), PULLS));
    assert!(rt; are_right(rt.alloc(), NARROWED));
    assert!(rt; are_right(rt.alloc(), REFILTERED));
}

const REMOVAL: &str =
    "device cam all\ndevice srv all\ndevice tab all\ndevice frame rating >= 4\nnew cam 7 5 2024-01-01 -\npull srv cam\npull tab cam\npull frame srv\nremove cam 7\npull srv cam\npull frame srv\npull tab cam\nlist frame\nlist tab\n";

// A knowledge of the camera's first version of every picture, and of nothing else.
fn first_known(alloc: Global) -> Option<Knowledge>
    ensures star { IfSome result
        (λ k. (a : authors.Author) → star_bound k.known a ≡ (if authors.same_author (authors.author 0) a then 1 else 0)) }
    ensures known { IfSome result (λ k. (p : ℕ) (v : versions.Version) → 0 < p
        → knows k.known p v ≡ versions.same_version (versions.version (authors.author 0) 1) v) }
{
    let Some(version) = Version::new(Author::new(0), 1) else {
        return None;
    };
    let Ok(mut knowledge) = Knowledge::new(alloc) else {
        return None;
    };
    match knowledge.learn_own(version) {
        Ok(()) => Some(knowledge),
        Err(_) => None,
    }
}

// A device that has made and holds nothing, with that knowledge.
fn knowing(device: Device, knowledge: Knowledge) -> Option<Device>
    requires star { (a : authors.Author) → star_bound knowledge.known a ≡ (if authors.same_author (authors.author 0) a then 1 else 0) }
    requires known { (p : ℕ) (v : versions.Version) → 0 < p
        → knows knowledge.known p v ≡ versions.same_version (versions.version (authors.author 0) 1) v }
{
    if device.author().value() == 0 || device.counter() != 0 {
        return None;
    }
    if !device.store().is_empty() || !device.out().is_empty() {
        return None;
    }
    Some(with_knowledge(device, knowledge))
}

// Makes the third of four devices forget everything but the camera's first version, and moves it to the end.
fn forgets(alloc: Global, devices: &mut Vec<Device>) -> bool {
    if devices.len() != 4 {
        return false;
    }
    let Some(knowledge) = first_known(alloc) else {
        return false;
    };
    match knowing(devices.swap_remove(2), knowledge) {
        Some(device) => devices.push(device).is_ok(),
        None => false,
    }
}

// Whether an audit sees that the tablet forgot the removal: it knows the picture, but doesn't store it.
fn forgetting_is_seen(alloc: Global, outcome: &mut Outcome) -> bool {
    forgets(alloc, &mut outcome.devices) && !audit(outcome.devices.as_slice(), &outcome.log)
}

const MADE: &str = "device a all\ndevice b all\nnew a 7 5 2024-01-01 -\npull b a\n";

fn remove_first(devices: &mut [Device]) -> bool {
    let Some(picture) = PicNo::new(7) else {
        return false;
    };
    if devices.is_empty() || devices[0].counter() == u32::MAX {
        return false;
    }
    devices[0].remove(picture).is_ok()
}

// Whether an audit sees a removal that isn't in the log: the device knows the logged version and nothing of the log that
// supersedes it, but no longer stores it.
fn removal_is_seen(_alloc: Global, outcome: &mut Outcome) -> bool {
    audit(outcome.devices.as_slice(), &outcome.log)
        && remove_first(outcome.devices.as_mut_slice())
        && !audit(outcome.devices.as_slice(), &outcome.log)
}

#[test]
fn wrong_devices_are_seen(rt: HostRuntime) {
    assert!(rt; on_run(rt.alloc(), REMOVAL, forgetting_is_seen));
    assert!(rt; on_run(rt.alloc(), MADE, removal_is_seen));
}
