// Tests of reports on a device's knowledge.
ghost use Rattle.std.specs.Prelude.{◌≡◌, ◌<◌, true};
ghost use Rattle.std.specs.List.{AllByRecursion};
ghost use Rattle.photo_script.specs.Reports.{IsFragmentOfScript};

use super::reports::{is_reported, version};
use item_knowledge::{Fragment, Knowledge};
use photo_record::PicNo;
use photo_script::{Report, Script};
use photo_version::{Author, Vector, Version};
use std::alloc::Global;

// Whether a fragment's authors are devices of the script.
fn is_fragment_of(script: &Script, fragment: &Fragment<'_>) -> bool
    ensures { result ≡ true → IsFragmentOfScript script.now fragment.now }
{
    for i in 0..fragment.len() {
        let (author, _) = fragment.entry(i);
        if usize::from(author.value()) >= script.devices() {
            return false;
        }
    }
    true
}

// The same for a knowledge.
fn is_knowledge_of(script: &Script, knowledge: &Knowledge) -> bool
    ensures { result ≡ true → AllByRecursion (IsFragmentOfScript script.now) knowledge.now.known }
{
    for k in 0..knowledge.fragments() {
        if !is_fragment_of(script, &knowledge.fragment(k)) {
            return false;
        }
    }
    true
}

// Learns of a picture the first device's versions up to number `n`, and the second device's first.
fn learns(alloc: Global, knowledge: &mut Knowledge, number: u32, n: u32) -> Option<()> {
    let vector = Vector::new(alloc).with(version(0, n)?).ok()?;
    let vector = vector.with(version(1, 1)?).ok()?;
    knowledge.learn(PicNo::new(number)?, &vector).ok()
}

fn learns_all(alloc: Global, knowledge: &mut Knowledge, learned: &[(u32, u32)]) -> bool {
    for (number, n) in learned {
        if learns(alloc, knowledge, *number, *n).is_none() {
            return false;
        }
    }
    true
}

// A knowledge of the first device's first version, of every picture.
fn known_star(alloc: Global) -> Option<Knowledge> {
    let Some(version) = Version::new(Author::new(0), 1) else {
        return None;
    };
    let Ok(mut knowledge) = Knowledge::new(alloc) else {
        return None;
    };
    match knowledge.learn_own(version) {
        Ok(()) => Some(knowledge),
        Err(_) => None,
    }
}

/// Whether the report on the second device's knowledge has that text. The device knows the first device's first version of
/// every picture, and other versions.
pub fn is_knowledge_told(
    alloc: Global,
    script: &Script,
    number: u32,
    star: bool,
    learned: &[(u32, u32)],
    wanted: &str,
) -> bool {
    let known = if star {
        known_star(alloc)
    } else {
        Knowledge::new(alloc).ok()
    };
    match known {
        Some(mut knowledge) => {
            learns_all(alloc, &mut knowledge, learned)
                && is_told(alloc, script, number, knowledge, wanted)
        }
        None => false,
    }
}

// The same for a knowledge whose authors are devices of the script.
fn is_told(
    alloc: Global,
    script: &Script,
    number: u32,
    knowledge: Knowledge,
    wanted: &str,
) -> bool {
    if script.devices() != 2 || !is_knowledge_of(script, &knowledge) {
        return false;
    }
    match Box::new(alloc, knowledge) {
        Ok(knowledge) => {
            let report = Report::KnowledgeOf {
                device: 1,
                knowledge,
            };
            is_reported(alloc, script, number, &report, wanted)
        }
        Err(_) => false,
    }
}
