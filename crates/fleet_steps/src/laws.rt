//! Laws of the definitions.
ghost use Rattle.fleet_steps.specs.Laws.{AcceptedStaysSound, PullsMoveWhatWasMade, PullsMoveFew, OpensReady, StaysReady, LeavesRoom};

pub use fleet_model::laws::{sound_examples, stays_sound_and_kept, stays_sound_in_any_order};

/// Every text that is accepted as a script gives a script whose runs are sound throughout.
pub fn accepted_stays_sound()
    ensures { AcceptedStaysSound }
{
    photo_script::laws::accepted_are_scripts();
}

/// A pull moves no more versions than commands have run before it, in whatever order. The versions that it takes and those
/// handed over are different ones held by the source, and no device holds more versions than were made.
pub fn pulls_move_what_was_made()
    ensures { PullsMoveWhatWasMade }
{}

/// By the right report on a pull of a run, the versions taken and handed over are at most 100,000 together.
pub fn pulls_move_few()
    ensures { PullsMoveFew }
{}

/// The devices that a script opens with are ready for a command.
pub fn opens_ready()
    ensures { OpensReady }
{}

/// Devices that are ready for a command are ready after it. With [`leaves_room`] this is all that [`crate::run_on`] requires of
/// them.
pub fn stays_ready()
    ensures { StaysReady }
{}

/// Devices that have made few enough versions and begun few enough epochs may make and begin one more.
pub fn leaves_room()
    ensures { LeavesRoom }
{}
