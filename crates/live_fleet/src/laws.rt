//! Laws of every fleet, of the questions to it, and of runs that grow by commands.
ghost use Rattle.live_fleet.specs.Examples.{EditedOnBoth, ChangedByHand, JoinsLater, ComesAboutAsTold, FaultsAreDueAsTold};
ghost use Rattle.live_fleet.specs.Fleets.{HasSoundHistory, RunsAlongScripts, RunsGrowByCommands};
ghost use Rattle.live_fleet.specs.Laws.{HasNumbers, HoldersKnow};
ghost use Rattle.live_fleet.specs.QuestionExamples.{SelectsOfBoth, AsksAsTold};

use crate::Fleet;

/// Every fleet shows the run of some commands, each on devices of the fleet. So each device stores exactly what its filter
/// selects of the newest versions that it knows. No current version is lost, every version held was made, and none was made
/// twice.
pub fn each_fleet_is_sound(fleet: &Fleet)
    ensures { HasSoundHistory fleet.now }
{
    // `devices()` is called because its contract says that the fleet came about by commands.
    let _devices = fleet.devices();
}

/// A run with one more command gives the devices and the log that this command makes of the run before it. So whoever knows a
/// fleet's filters and commands knows that the fleet shows the run of that script.
pub fn runs_grow_by_commands()
    ensures { RunsGrowByCommands }
{}

/// If a fleet of a script runs the script's commands in order by [`Fleet::run_number`], it shows the script's run so far after
/// each of them, and the whole run after the last.
pub fn runs_along_scripts()
    ensures { RunsAlongScripts }
{}

/// The device at each place has that place as its number, in every epoch. So what [`crate::holding`] gives are places in
/// [`Fleet::devices`].
pub fn each_device_has_its_number(fleet: &Fleet)
    ensures { HasNumbers fleet.now }
{
    // `devices()` is called because its contract says that the fleet came about by commands.
    let _devices = fleet.devices();
}

/// Each device that holds a picture knows of it. So [`crate::knowing`] gives every device that [`crate::holding`] gives.
pub fn holders_know(fleet: &Fleet)
    ensures { HoldersKnow fleet.now }
{
    // `devices()` is called because its contract says that the fleet came about by commands.
    let _devices = fleet.devices();
}

/// Worked examples of the definitions. Fleets: two devices edit one picture, a device gets narrower filters, a device joins
/// later, which fleets come about, and which faults are due. Devices: what a filter selects from store and out, which devices
/// hold a picture or know of it, and what a pull would move.
pub fn examples()
    ensures edited { EditedOnBoth }
    ensures changed { ChangedByHand }
    ensures joins { JoinsLater }
    ensures came { ComesAboutAsTold }
    ensures due { FaultsAreDueAsTold }
    ensures selected { SelectsOfBoth }
    ensures asked { AsksAsTold }
{}
