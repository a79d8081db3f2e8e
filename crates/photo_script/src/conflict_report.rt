// The texts of conflict reports.
ghost use Rattle.std.specs.Prelude.{◌≡◌, ◌<◌, ◌++◌, length, string_bytes, OnOk};
ghost use Rattle.std.specs.List.{AllByRecursion, flat_map};
ghost use Rattle.photo_script.specs.Reports.{IsOfScript, AreConflictsOfScript, IsConflictOfScript};
ghost use Rattle.photo_script.specs.Reports.{conflict_text, conflicts_text, versions_text};

use crate::Script;
use crate::report::{push_counted_heading, push_decimal, push_version};
use photo_device::{Conflict, ConflictList};
use photo_version::Version;
use std::alloc::AllocError;

/// Appends a report on a device's conflicts: a heading, and a line for each picture.
pub fn push_conflicts(
    text: &mut String,
    script: &Script,
    device: u16,
    pictures: &ConflictList,
) -> Result<(), AllocError>
    requires device { device < length script.now.names }
    requires authors { AreConflictsOfScript script.now pictures.now }
    ensures { OnOk result (string_bytes text.new ≡ string_bytes text.old ++ conflicts_text script.now device pictures.now) }
{
    push_counted_heading(text, script, "conflicts ", device, pictures.len())?;
    push_pictures(text, script, pictures.as_slice())?;
    Ok(())
}

fn push_pictures(
    text: &mut String,
    script: &Script,
    pictures: &[Conflict],
) -> Result<(), AllocError>
    requires { AreConflictsOfScript script.now pictures.now }
    ensures { OnOk result (string_bytes text.new ≡ string_bytes text.old ++ flat_map (conflict_text script.now) pictures.now) }
{
    for conflict in pictures {
        push_conflict(text, script, conflict)?;
    }
    Ok(())
}

fn push_conflict(text: &mut String, script: &Script, conflict: &Conflict) -> Result<(), AllocError>
    requires { IsConflictOfScript script.now conflict.now }
    ensures { OnOk result (string_bytes text.new ≡ string_bytes text.old ++ conflict_text script.now conflict.now) }
{
    text.push_str("  ")?;
    push_decimal(text, conflict.picture.value())?;
    push_versions(text, script, conflict.versions.as_slice())?;
    text.push_str("\n")?;
    Ok(())
}

// Appends the versions, each behind a space.
fn push_versions(text: &mut String, script: &Script, versions: &[Version]) -> Result<(), AllocError>
    requires { AllByRecursion (IsOfScript script.now) versions.now }
    ensures { OnOk result (string_bytes text.new ≡ string_bytes text.old ++ versions_text script.now versions.now) }
{
    for version in versions {
        text.push_str(" ")?;
        push_version(text, script, *version)?;
    }
    Ok(())
}
