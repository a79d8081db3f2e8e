//! A script's run on its devices.
ghost use Rattle.std.specs.Prelude.{◌≡◌, length};

use live_fleet::Fleet;
use photo_script::Script;
use std::alloc::AllocError;

/// Runs the first `most` commands of the script in their order. No command has run on its devices before.
pub fn play(fleet: &mut Fleet, script: &Script, most: u32) -> Result<(), AllocError>
    requires devices { length fleet.old.devices ≡ length script.now.names }
    requires none { fleet.old.commands ≡ 0 }
{
    for place in 0..script.commands().min(most as usize) {
        let _report = fleet.run(script.command(place as u32 + 1))?;
    }
    Ok(())
}
