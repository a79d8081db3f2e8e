// Tests of iterating over what a device holds, and of showing it.
ghost use Rattle.std.specs.Prelude.{◌≡◌, map, IfOk};

use super::changing::makes;
use super::steps::Step;
use super::{Run, is_run};
use photo_device::{Device, HeldSet, Place};
use photo_record::PicNo;
use std::alloc::{AllocError, Global};

// The pictures of a set, one for each of its versions.
fn pictures_of(alloc: Global, set: &HeldSet) -> Result<Vec<PicNo>, AllocError>
    ensures { IfOk result (λ pictures. pictures.items ≡ map (λ held. held.picture) set.now) }
{
    let mut pictures = Vec::with_capacity(alloc, set.len())?;
    for held in set {
        pictures.push(held.picture())?;
    }
    Ok(pictures)
}

// Whether the pictures are 1, 2, 3 .. n.
fn count_to(pictures: &[PicNo], n: u32) -> bool {
    let mut last = 0u32;
    for picture in pictures {
        if picture.value() != last.wrapping_add(1) {
            return false;
        }
        last = picture.value();
    }
    last == n
}

/// Whether the device's store has exactly one version of each picture up to that number.
pub fn is_gone_over(alloc: Global, device: &Device, n: u32) -> bool {
    match pictures_of(alloc, device.store()) {
        Ok(pictures) => count_to(&pictures, n),
        Err(_) => false,
    }
}

/// Whether a new device makes a version of each picture up to that number.
pub fn fills(alloc: Global, device: &mut Device, n: u32) -> bool {
    for i in 1..n.saturating_add(1) {
        if !makes(alloc, device, i, Some(3), (i, Place::Store)) {
            return false;
        }
    }
    true
}

// Appends a line for each version of a set, with the devices' numbers in place of their names.
fn push_lines(set: &HeldSet, lines: &mut String) -> Result<(), AllocError> {
    for held in set {
        let (picture, version, content) = (held.picture(), held.version(), held.content());
        writeln!(lines, "{picture} {version} {content}")?;
    }
    Ok(())
}

fn has_lines(alloc: Global, set: &HeldSet, wanted: &str) -> bool {
    let mut lines = String::new(alloc);
    push_lines(set, &mut lines).is_ok() && lines.as_str() == wanted
}

/// Whether those are the lines of the device's store and of its out.
pub fn shows(alloc: Global, device: &Device, store: &str, out: &str) -> bool {
    has_lines(alloc, device.store(), store) && has_lines(alloc, device.out(), out)
}

const RUNS: &[Run] = &[
    // a store of several blocks
    (
        "a store is gone over",
        0,
        "all",
        &[
            Step::Fill(300),
            Step::GoneOver(3, 300),
            Step::Finds(1, (0, 1), true),
            Step::Finds(129, (0, 129), true),
            Step::Finds(300, (0, 300), true),
            Step::Finds(300, (0, 299), false),
            Step::Finds(301, (0, 300), false),
        ],
    ),
    (
        "what is held is shown",
        63,
        "rating >= 3",
        &[
            Step::Make(7, Some(5), (1, Place::Store)),
            Step::Make(3, Some(2), (2, Place::Out)),
            Step::Make(5, Some(4), (3, Place::Store)),
            Step::Shows(
                "5 63:3 rating 4 day 2024-01-01 words -\n7 63:1 rating 5 day 2024-01-01 words -\n",
                "3 63:2 rating 2 day 2024-01-01 words -\n",
            ),
        ],
    ),
];

#[test]
fn showing(rt: HostRuntime) {
    for run in RUNS {
        assert!(rt; is_run(rt.alloc(), run), "{}", run.0);
    }
}
