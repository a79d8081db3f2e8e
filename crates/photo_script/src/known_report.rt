// The texts of knowledge reports.
ghost use Rattle.std.specs.Prelude.{◌≡◌, ◌<◌, ◌++◌, length, string_bytes, OnOk};
ghost use Rattle.std.specs.List.{AllByRecursion, flat_map};
ghost use Rattle.std.specs.Fmt.{decimal};
ghost use Rattle.photo_script.specs.Reports.{IsFragmentOfScript, pictures_text, bounds_text};
ghost use Rattle.photo_script.specs.Reports.{fragment_text, knowledge_text};

use crate::Script;
use crate::report::{push_counted_heading, push_version_of};
use item_knowledge::{Fragment, Knowledge};
use itoa::Buffer;
use std::alloc::AllocError;

/// Appends a report on a device's knowledge: a heading, and a line for each fragment.
pub fn push_knowledge(
    text: &mut String,
    script: &Script,
    device: u16,
    knowledge: &Knowledge,
) -> Result<(), AllocError>
    requires device { device < length script.now.names }
    requires authors { AllByRecursion (IsFragmentOfScript script.now) knowledge.now.known }
    ensures { OnOk result (string_bytes text.new ≡ string_bytes text.old ++ knowledge_text script.now device knowledge.now.known) }
{
    push_counted_heading(text, script, "knowledge ", device, knowledge.fragments())?;
    push_fragments(text, script, knowledge)?;
    Ok(())
}

fn push_fragments(
    text: &mut String,
    script: &Script,
    knowledge: &Knowledge,
) -> Result<(), AllocError>
    requires { AllByRecursion (IsFragmentOfScript script.now) knowledge.now.known }
    ensures { OnOk result (string_bytes text.new ≡ string_bytes text.old ++ flat_map (fragment_text script.now) knowledge.now.known) }
{
    for k in 0..knowledge.fragments() {
        push_fragment(text, script, &knowledge.fragment(k))?;
    }
    Ok(())
}

fn push_fragment(
    text: &mut String,
    script: &Script,
    fragment: &Fragment<'_>,
) -> Result<(), AllocError>
    requires { IsFragmentOfScript script.now fragment.now }
    ensures { OnOk result (string_bytes text.new ≡ string_bytes text.old ++ fragment_text script.now fragment.now) }
{
    text.push_str("  ")?;
    push_pictures(text, fragment.pictures())?;
    text.push_str(" ")?;
    push_bounds(text, script, fragment)?;
    text.push_str("\n")?;
    Ok(())
}

fn push_pictures(text: &mut String, pictures: &[u64]) -> Result<(), AllocError>
    ensures { OnOk result (string_bytes text.new ≡ string_bytes text.old ++ pictures_text pictures.now) }
{
    if pictures.is_empty() {
        text.push_str("*")?;
        return Ok(());
    }
    push_picture(text, pictures[0])?;
    for i in 1..pictures.len() {
        text.push_str(",")?;
        push_picture(text, pictures[i])?;
    }
    Ok(())
}

fn push_picture(text: &mut String, picture: u64) -> Result<(), AllocError>
    ensures { OnOk result (string_bytes text.new ≡ string_bytes text.old ++ decimal picture) }
{
    let mut buffer = Buffer::new();
    text.push_str(buffer.format(picture))?;
    Ok(())
}

fn push_bounds(
    text: &mut String,
    script: &Script,
    fragment: &Fragment<'_>,
) -> Result<(), AllocError>
    requires { IsFragmentOfScript script.now fragment.now }
    ensures { OnOk result (string_bytes text.new ≡ string_bytes text.old ++ bounds_text script.now fragment.now.entries) }
{
    let mut entries = fragment.entries();
    let Some(first) = entries.next_entry() else {
        text.push_str("-")?;
        return Ok(());
    };
    push_version_of(text, script, first.0, first.1)?;
    while let Some(bound) = entries.next_entry() {
        text.push_str(" ")?;
        push_version_of(text, script, bound.0, bound.1)?;
    }
    Ok(())
}
