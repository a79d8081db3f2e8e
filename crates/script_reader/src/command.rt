// The kind of each command, and the devices that it works on.
ghost use Rattle.std.specs.Prelude.{◌≡◌};
ghost use Rattle.fleet_model.specs.Contents.{devices_of};
ghost use Rattle.fleet_model.specs.Tallies.{kind_of};

use crate::{Command, CommandKind};

/// Gives the devices that a command works on, by their places in order of declaration: one, and for a pull or a preview a second.
pub fn devices_of(command: &Command) -> (u16, Option<u16>)
    ensures first { result.0 ≡ (devices_of command.now).0 }
    ensures second { result.1 ≡ (devices_of command.now).1 }
{
    match command {
        Command::New { device, .. }
        | Command::Edit { device, .. }
        | Command::Remove { device, .. }
        | Command::Narrow { device, .. }
        | Command::Refilter { device, .. }
        | Command::List { device }
        | Command::Conflicts { device }
        | Command::Knowledge { device }
        | Command::Knows { device, .. } => (*device, None),
        Command::Pull { target, source } | Command::Preview { target, source } => {
            (*target, Some(*source))
        }
    }
}

/// Whether a command changes a device, is a pull, or asks for a report.
pub fn kind_of(command: &Command) -> CommandKind
    ensures { result ≡ kind_of command.now }
{
    match command {
        Command::New { .. }
        | Command::Edit { .. }
        | Command::Remove { .. }
        | Command::Narrow { .. }
        | Command::Refilter { .. } => CommandKind::Change,
        Command::Pull { .. } => CommandKind::Pull,
        Command::Preview { .. }
        | Command::List { .. }
        | Command::Conflicts { .. }
        | Command::Knowledge { .. }
        | Command::Knows { .. } => CommandKind::Question,
    }
}
