//! Laws of households.
ghost use Rattle.household_model.specs.Laws.{StaysSoundAndKept, CopiesMayBePulled, CopiesDoScriptPull, EventsDoScriptPull, RefilteringBeginsTheNext};
ghost use Rattle.household_model.specs.Examples.{ReceiptsAreSettled, ReceiptsComeTooLate, NothingHappens, NothingIsLost};

/// The household law. After any events, in whatever order copies come, however late or often, every live device is sound and no
/// current version is lost. Held versions were made, and no version was made twice. No device holds a version beside one that
/// supersedes it. A device that knows a version for its picture knows the version's history.
pub fn stays_sound_and_kept()
    ensures { StaysSoundAndKept }
{}

/// The meeting law. After any events a live device may pull from each copy of another device.
pub fn copies_may_be_pulled()
    ensures { CopiesMayBePulled }
{}

/// The script law, for any two replicas. A pull from a copy of the source as it is now, and the source's settling by a copy of the
/// target right after it, are the pull of a script, with its counts.
pub fn copies_do_script_pull()
    ensures { CopiesDoScriptPull }
{}

/// The script law, for the events of any household.
pub fn events_do_script_pull()
    ensures { EventsDoScriptPull }
{}

/// Refiltering a device begins its next epoch, so it is an event of a household.
pub fn refiltering_begins_the_next()
    ensures { RefilteringBeginsTheNext }
{}

/// Worked households: receipts that are settled and then forgotten, receipts that come too late, events that change nothing, and
/// runs that a wrong rule of settling would lose a version by.
pub fn examples()
    ensures settled { ReceiptsAreSettled }
    ensures late { ReceiptsComeTooLate }
    ensures nothing { NothingHappens }
    ensures lost { NothingIsLost }
{}
