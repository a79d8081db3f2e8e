//! Laws of devices that no command of a fleet needs.
ghost use Rattle.std.specs.Prelude.{◌≡◌, None};
ghost use Rattle.std.specs.List.{AllByRecursion};
ghost use Rattle.photo_device.specs.Own.{IsKnownBy, KnowsItsOwn};
ghost use Rattle.photo_device.specs.Examples.{MayStageAsTold, HasStagedAsTold, MayHandAsTold, TheCacheRows, TheTables, TheNexts};

use crate::Device;
use item_knowledge::Knowledge;

/// The device with another knowledge, and with nothing staged. Of the device's author that knowledge has exactly the versions
/// up to the counter, of every picture. It has no version of a later epoch of the device. Of its picture it has each version
/// that the device holds, with its history. Takes no memory.
pub fn with_knowledge(device: Device, knowledge: Knowledge) -> Device
    requires own { KnowsItsOwn device.author device.counter knowledge.known }
    requires store { AllByRecursion (IsKnownBy knowledge.known) device.store }
    requires out { AllByRecursion (IsKnownBy knowledge.known) device.out }
    ensures { result ≡ record device { knowledge = knowledge.known; staged = None } }
{
    device.with(knowledge)
}

/// The definitions at worked examples: which changes may be staged, what staging leaves, what may be handed over, and rows of
/// the cache, tables and lists.
#[tactic(auto, using(crate::proofs::WorkedExamples::may_stage_as_told, crate::proofs::WorkedExamples::has_staged_as_told, crate::proofs::WorkedExamples::may_hand_as_told, crate::proofs::WorkedExamples::the_cache_rows, crate::proofs::WorkedExamples::the_tables, crate::proofs::WorkedExamples::the_nexts))]
pub fn examples()
    ensures may_stage { MayStageAsTold }
    ensures has_staged { HasStagedAsTold }
    ensures may_hand { MayHandAsTold }
    ensures rows { TheCacheRows }
    ensures tables { TheTables }
    ensures nexts { TheNexts }
{}
