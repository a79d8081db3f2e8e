//! Which versions a pull would move.
ghost use Rattle.std.specs.Prelude.{◌≡◌, IfOk};
ghost use Rattle.photo_device.specs.Held.{entries_of};
ghost use Rattle.photo_model.specs.Device.{ModelDevice};
ghost use Rattle.photo_device.specs.Device.{Shows};
ghost use Rattle.photo_model.specs.Pull as pulls;
ghost use Rattle.live_fleet.specs.Moving.{are_taken, are_handed};

use photo_device::{Device, SharedHeld};
use std::alloc::{AllocError, Global};

/// The versions that a pull would move, each as its source holds it, sorted by picture and then version.
#[derive(Debug, Drop)]
pub struct Moves {
    /// What the target would take from the source's store.
    pub taken: Vec<SharedHeld>,
    /// What the source would hand over from its out.
    pub handed: Vec<SharedHeld>,
}

/// The versions that a pull by the target from the source would move: as many as a preview counts. They are shared with the
/// source, and neither device changes. Its only error is want of memory.
pub fn pull_moves(alloc: Global, target: &Device, source: &Device) -> Result<Moves, AllocError>
    ensures taken { IfOk result (λ moves. moves.taken.items ≡ are_taken target.now source.now) }
    ensures handed { IfOk result (λ moves. moves.handed.items ≡ are_handed target.now source.now) }
    ensures taken_shown { IfOk result (λ moves. (t s : ModelDevice) → Shows target.now t → Shows source.now s
        → entries_of moves.taken.items ≡ pulls.taken t s) }
    ensures handed_shown { IfOk result (λ moves. (t s : ModelDevice) → Shows target.now t → Shows source.now s
        → entries_of moves.handed.items ≡ pulls.handed t s) }
{
    // `knowledge()` is called because its contract states the invariants of every device, which the clauses on shown devices
    // need.
    let _knowledge = source.knowledge();
    let taken = taken_between(alloc, target, source)?;
    let handed = target.unknown_by(alloc, source.out())?;
    Ok(Moves { taken, handed })
}

// The versions of the source's store that the target doesn't know and its filter matches.
fn taken_between(
    alloc: Global,
    target: &Device,
    source: &Device,
) -> Result<Vec<SharedHeld>, AllocError>
    ensures { IfOk result (λ taken. taken.items ≡ are_taken target.now source.now) }
{
    let mut taken = target.unknown_by(alloc, source.store())?;
    taken.retain(|held| target.filter().matches(held.content()));
    Ok(taken)
}
