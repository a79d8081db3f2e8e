//! Laws of runs.
ghost use Rattle.fleet_model.specs.Laws.{StaysSoundAndKept, StaysSoundInAnyOrder};
ghost use Rattle.fleet_model.specs.SoundExamples.{SoundIsAsTold};

/// Every run is sound and keeps what is current, before the first command of a script and after each command. Each device
/// stores just what its filter selects of the newest versions that it knows. No current version is lost. Held versions were
/// made, and no version was made twice. No device holds a version beside one that supersedes it. A device that knows a version
/// for its picture knows the version's history.
pub fn stays_sound_and_kept()
    ensures { StaysSoundAndKept }
{}

/// Runs in any other order are sound and keep what is current too: any commands of a script, repeated or not, up to
/// 4,294,967,295 of them, with the log in that order.
pub fn stays_sound_in_any_order()
    ensures { StaysSoundInAnyOrder }
{}

/// Worked devices: which are sound, and what is kept or lost, computed from the definitions.
pub fn sound_examples()
    ensures { SoundIsAsTold }
{}
