// Tests of pulls that are staged on their target.
ghost use Rattle.std.specs.Prelude.{◌≡◌, ◌<◌, false, ℕ};
ghost use Rattle.photo_version.specs.Version.{Version};
ghost use Rattle.item_knowledge.specs.Fragments.{knows};

use super::steps::{Step, opened};
use super::{Run, is_run};
use photo_device::{Device, Place};
use photo_pull::stage_pull;
use std::alloc::Global;

/// Whether a pull of the device from a new one of that number changes nothing, and leaves nothing staged.
pub fn pulls_nothing(alloc: Global, device: &mut Device, author: u16) -> bool {
    match opened(alloc, author, "all") {
        Some(other) => stages_nothing(alloc, device, &other),
        None => false,
    }
}

#[tactic(auto, using(crate::proofs::NewSource::may_pull))]
fn stages_nothing(alloc: Global, device: &mut Device, other: &Device) -> bool
    requires { (p : ℕ) (v : Version) → 0 < p → knows other.now.knowledge p v ≡ false }
{
    if device.author().value() == other.author().value() {
        return false;
    }
    if !other.store().is_empty() || !other.out().is_empty() {
        return false;
    }
    match stage_pull(alloc, device, other) {
        Ok(found) => found.handed.is_none() && !device.staged(),
        Err(_) => false,
    }
}

const RUNS: &[Run] = &[(
    "a pull that changes nothing drops what was staged",
    0,
    "all",
    &[
        Step::Make(1, Some(5), (1, Place::Store)),
        Step::Make(2, Some(5), (2, Place::Store)),
        Step::Make(3, Some(5), (3, Place::Store)),
        Step::Stage(2, 0, true),
        Step::IsStaged(true),
        Step::PullNothing(1),
        Step::IsStaged(false),
        Step::Has(&[(1, 1), (2, 2), (3, 3)], &[]),
    ],
)];

#[test]
fn pulling(rt: HostRuntime) {
    for run in RUNS {
        assert!(rt; is_run(rt.alloc(), run), "{}", run.0);
    }
}
