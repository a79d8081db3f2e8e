// Counts commands by kind.
ghost use Rattle.std.specs.Prelude.{◌≡◌, ◌≤◌, length};
ghost use Rattle.fleet_model.specs.Limits.{max_commands};
ghost use Rattle.fleet_model.specs.Tallies.{tally_of_commands};

use crate::{Command, CommandKind, Tally, kind_of};

// Counts the commands of each kind.
pub(crate) fn tally_of(commands: &[Command]) -> Tally
    requires { length commands.now ≤ max_commands }
    ensures { result ≡ tally_of_commands commands.now }
{
    let mut tally = Tally {
        changes: 0,
        pulls: 0,
        reports: 0,
    };
    for command in commands {
        match kind_of(command) {
            CommandKind::Change => tally.changes += 1,
            CommandKind::Pull => tally.pulls += 1,
            CommandKind::Question => tally.reports += 1,
        }
    }
    tally
}
