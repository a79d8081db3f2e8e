// Reports, and their texts.
ghost use Rattle.std.specs.Prelude.{◌≡◌, ◌<◌, ◌++◌, length, string_bytes, IfOk, OnOk};

use crate::Script;
use crate::conflict_report::push_conflicts;
use crate::known_report::push_knowledge;
use crate::moved_report::{
    push_narrowed, push_not_narrower, push_preview, push_pulled, push_refiltered,
};
use item_knowledge::Knowledge;
use itoa::Buffer;
use photo_device::{ConflictList, Place, SharedHeld, SharedList};
use photo_pull::PullCounts;
use photo_record::{Day, Record, Words};
use photo_version::{Author, Version};
use std::alloc::{AllocError, Global};

/// The answer to a command.
#[derive(Debug, Drop)]
pub enum Report {
    /// A version was made and went to this place.
    Made {
        version: Version,
        place: Place,
    },
    /// The command was refused because the device holds no version of its picture.
    NotHeld,
    /// The command was refused because the device's filter doesn't cover the new one.
    NotNarrower,
    /// A device took a narrower filter, and so many versions moved from its store to its out.
    Narrowed(u64),
    /// A device took another filter and began its next epoch; its store and its out then have so many versions.
    Refiltered {
        store: u64,
        out: u64,
    },
    /// A device pulled from another.
    Pulled(PullCounts),
    /// What a pull of a device from another would count.
    Preview(PullCounts),
    /// What a device holds, in order. The device is given by its place in order of declaration, from 0.
    Listed {
        device: u16,
        store: SharedList,
        out: SharedList,
    },
    /// The pictures of which a device holds two or more versions, in order. The device is given by its place in order of
    /// declaration, from 0.
    Conflicts {
        device: u16,
        pictures: ConflictList,
    },
    /// What a device knows. The device is given by its place in order of declaration, from 0. A knowledge is large and few
    /// reports have one, so it is boxed.
    KnowledgeOf {
        device: u16,
        knowledge: Box<Knowledge>,
    },
    /// Whether a device knows a version of a picture.
    Knows(bool),
}

ghost use Rattle.photo_device.specs.Held.{entry_of, entries_of};
ghost use Rattle.std.specs.Fmt.{decimal};
ghost use Rattle.photo_record.specs.Showing.{padded_decimal, day_text, words_text, record_text};
ghost use Rattle.photo_version.specs.Author.{device_of_author};
ghost use Rattle.photo_version.specs.Showing.{epoch_text};
ghost use Rattle.photo_version.specs.Version.{version};
ghost use Rattle.photo_script.specs.Reports.{IsAbout, IsOfScript, AreOfScript, answer_of, text_of, unnumbered_text};
ghost use Rattle.photo_script.specs.Reports.{made_text, not_held_text, heading_text, counted_heading_text, listed_text};
ghost use Rattle.photo_script.specs.Reports.{author_text, version_text, place_text};
ghost use Rattle.photo_script.specs.Reports.{entry_text, entries_text, yes_or_no, knows_text};

/// The text of a report on the command of that number. It has one line, and more lines for a list (one for each held version),
/// a knowledge (one for each fragment) and conflicts (one for each picture). Each line ends with LF. Its only error is want of
/// memory.
pub fn report_text(
    alloc: Global,
    script: &Script,
    number: u32,
    report: &Report,
) -> Result<String, AllocError>
    requires { IsAbout script.now (answer_of report.now) }
    ensures { IfOk result (λ text. string_bytes text ≡ text_of script.now number (answer_of report.now)) }
{
    let mut text = String::new(alloc);
    push_report(&mut text, script, number, report)?;
    Ok(text)
}

/// Appends the text of a report on the command of that number, so that one buffer serves many reports. Its only error is want
/// of memory; then some of the report's first bytes are appended.
#[tactic(auto, unfolding(crate::specs::Reports::text_of))]
pub fn push_report(
    text: &mut String,
    script: &Script,
    number: u32,
    report: &Report,
) -> Result<(), AllocError>
    requires { IsAbout script.now (answer_of report.now) }
    ensures { OnOk result (string_bytes text.new ≡ string_bytes text.old ++ text_of script.now number (answer_of report.now)) }
{
    push_decimal(text, number)?;
    text.push_str(" ")?;
    push_unnumbered(text, script, report)?;
    Ok(())
}

/// Appends the text of a report without the number of its command. Its only error is want of memory; then some of the report's
/// first bytes are appended.
pub fn push_unnumbered(
    text: &mut String,
    script: &Script,
    report: &Report,
) -> Result<(), AllocError>
    requires { IsAbout script.now (answer_of report.now) }
    ensures { OnOk result (string_bytes text.new ≡ string_bytes text.old ++ unnumbered_text script.now (answer_of report.now)) }
{
    match report {
        Report::Made { version, place } => push_made(text, script, *version, *place)?,
        Report::NotHeld => push_not_held(text)?,
        Report::NotNarrower => push_not_narrower(text)?,
        Report::Narrowed(moved) => push_narrowed(text, *moved)?,
        Report::Refiltered { store, out } => push_refiltered(text, *store, *out)?,
        Report::Pulled(counts) => push_pulled(text, counts)?,
        Report::Preview(counts) => push_preview(text, counts)?,
        Report::Listed { device, store, out } => push_listed(text, script, *device, store, out)?,
        Report::Conflicts { device, pictures } => push_conflicts(text, script, *device, pictures)?,
        Report::KnowledgeOf { device, knowledge } => {
            push_knowledge(text, script, *device, knowledge)?
        }
        Report::Knows(known) => push_knows(text, *known)?,
    }
    Ok(())
}

fn push_made(
    text: &mut String,
    script: &Script,
    version: Version,
    place: Place,
) -> Result<(), AllocError>
    requires { IsOfScript script.now version }
    ensures { OnOk result (string_bytes text.new ≡ string_bytes text.old ++ made_text script.now version place) }
{
    text.push_str("made ")?;
    push_version(text, script, version)?;
    text.push_str(" ")?;
    text.push_str(place_word(place))?;
    text.push_str("\n")?;
    Ok(())
}

fn push_not_held(text: &mut String) -> Result<(), AllocError>
    ensures { OnOk result (string_bytes text.new ≡ string_bytes text.old ++ not_held_text) }
{
    text.push_str("refused C1 NotHeld\n")?;
    Ok(())
}

fn push_knows(text: &mut String, known: bool) -> Result<(), AllocError>
    ensures { OnOk result (string_bytes text.new ≡ string_bytes text.old ++ knows_text known) }
{
    let word = yes_or_no(known);
    writeln!(text, "knows {word}")?;
    Ok(())
}

fn push_listed(
    text: &mut String,
    script: &Script,
    device: u16,
    store: &SharedList,
    out: &SharedList,
) -> Result<(), AllocError>
    requires device { device < length script.now.names }
    requires store { AreOfScript script.now (entries_of store.now) }
    requires out { AreOfScript script.now (entries_of out.now) }
    ensures { OnOk result (string_bytes text.new
        ≡ string_bytes text.old ++ listed_text script.now device (entries_of store.now) (entries_of out.now)) }
{
    push_heading(text, script, device, store.len(), out.len())?;
    push_helds(text, script, Place::Store, store.as_slice())?;
    push_helds(text, script, Place::Out, out.as_slice())?;
    Ok(())
}

fn push_heading(
    text: &mut String,
    script: &Script,
    device: u16,
    stored: usize,
    waiting: usize,
) -> Result<(), AllocError>
    requires { device < length script.now.names }
    ensures { OnOk result (string_bytes text.new ≡ string_bytes text.old ++ heading_text script.now device stored waiting) }
{
    let name = script.name(device);
    writeln!(text, "list {name} store {stored} out {waiting}")?;
    Ok(())
}

// Appends the first line of a report on a device, with the number of lines that follow; `what` ends with a space.
pub(crate) fn push_counted_heading(
    text: &mut String,
    script: &Script,
    what: &str,
    device: u16,
    count: usize,
) -> Result<(), AllocError>
    requires { device < length script.now.names }
    ensures { OnOk result (string_bytes text.new ≡ string_bytes text.old ++ counted_heading_text script.now what.now device count) }
{
    let name = script.name(device);
    writeln!(text, "{what}{name} {count}")?;
    Ok(())
}

fn push_helds(
    text: &mut String,
    script: &Script,
    place: Place,
    helds: &[SharedHeld],
) -> Result<(), AllocError>
    requires { AreOfScript script.now (entries_of helds.now) }
    ensures { OnOk result (string_bytes text.new ≡ string_bytes text.old ++ entries_text script.now place (entries_of helds.now)) }
{
    for held in helds {
        push_held(text, script, place, held)?;
    }
    Ok(())
}

fn push_held(
    text: &mut String,
    script: &Script,
    place: Place,
    held: &SharedHeld,
) -> Result<(), AllocError>
    requires { IsOfScript script.now held.now.version }
    ensures { OnOk result (string_bytes text.new ≡ string_bytes text.old ++ entry_text script.now place (entry_of held.now)) }
{
    text.push_str("  ")?;
    text.push_str(place_word(place))?;
    text.push_str(" ")?;
    push_decimal(text, held.picture().value())?;
    text.push_str(" ")?;
    push_version(text, script, held.version())?;
    text.push_str(" ")?;
    push_record(text, held.content())?;
    text.push_str("\n")?;
    Ok(())
}

pub(crate) fn push_version(
    text: &mut String,
    script: &Script,
    version: Version,
) -> Result<(), AllocError>
    requires { IsOfScript script.now version }
    ensures { OnOk result (string_bytes text.new ≡ string_bytes text.old ++ version_text script.now version) }
{
    push_version_of(text, script, version.author(), version.n())
}

// Appends the author's version of that number.
pub(crate) fn push_version_of(
    text: &mut String,
    script: &Script,
    author: Author,
    number: u32,
) -> Result<(), AllocError>
    requires { device_of_author author < length script.now.names }
    ensures { OnOk result (string_bytes text.new ≡ string_bytes text.old ++ version_text script.now (version author number)) }
{
    push_author(text, script, author)?;
    text.push_str(":")?;
    push_decimal(text, number)?;
    Ok(())
}

fn push_author(text: &mut String, script: &Script, author: Author) -> Result<(), AllocError>
    requires { device_of_author author < length script.now.names }
    ensures { OnOk result (string_bytes text.new ≡ string_bytes text.old ++ author_text script.now author) }
{
    text.push_str(script.name(author.value()))?;
    push_epoch(text, author.epoch())
}

// Appends the epoch behind a dot; nothing for epoch 0.
fn push_epoch(text: &mut String, epoch: u32) -> Result<(), AllocError>
    ensures { OnOk result (string_bytes text.new ≡ string_bytes text.old ++ epoch_text epoch) }
{
    if epoch == 0 {
        return Ok(());
    }
    text.push_str(".")?;
    push_decimal(text, epoch)?;
    Ok(())
}

fn push_record(text: &mut String, record: &Record) -> Result<(), AllocError>
    ensures { OnOk result (string_bytes text.new ≡ string_bytes text.old ++ record_text «record».now) }
{
    match record {
        Record::Picture { rating, day, words } => {
            text.push_str("rating ")?;
            push_decimal(text, u32::from(rating.value()))?;
            text.push_str(" day ")?;
            push_day(text, *day)?;
            text.push_str(" words ")?;
            push_words(text, words)?;
        }
        Record::Removed => text.push_str("removed")?,
    }
    Ok(())
}

fn push_day(text: &mut String, day: Day) -> Result<(), AllocError>
    ensures { OnOk result (string_bytes text.new ≡ string_bytes text.old ++ day_text day) }
{
    push_padded(text, 4, u32::from(day.year()))?;
    text.push_str("-")?;
    push_padded(text, 2, u32::from(day.month()))?;
    text.push_str("-")?;
    push_padded(text, 2, u32::from(day.day()))?;
    Ok(())
}

// Appends the number in decimal, padded with zeros to the width.
fn push_padded(text: &mut String, width: usize, number: u32) -> Result<(), AllocError>
    ensures { OnOk result (string_bytes text.new ≡ string_bytes text.old ++ padded_decimal width number) }
{
    let mut buffer = Buffer::new();
    let digits = buffer.format(number);
    for _ in 0..width.saturating_sub(digits.len()) {
        text.push_str("0")?;
    }
    text.push_str(digits)?;
    Ok(())
}

pub(crate) fn push_decimal(text: &mut String, number: u32) -> Result<(), AllocError>
    ensures { OnOk result (string_bytes text.new ≡ string_bytes text.old ++ decimal number) }
{
    let mut buffer = Buffer::new();
    text.push_str(buffer.format(number))?;
    Ok(())
}

fn push_words(text: &mut String, words: &Words) -> Result<(), AllocError>
    ensures { OnOk result (string_bytes text.new ≡ string_bytes text.old ++ words_text words.now) }
{
    if words.is_empty() {
        text.push_str("-")?;
        return Ok(());
    }
    text.push_str(words.get(0).text())?;
    for i in 1..words.len() {
        text.push_str(",")?;
        text.push_str(words.get(i).text())?;
    }
    Ok(())
}

fn place_word(place: Place) -> &'static str
    ensures { result.now ≡ place_text place }
{
    match place {
        Place::Store => "store",
        Place::Out => "out",
    }
}

pub(crate) fn yes_or_no(known: bool) -> &'static str
    ensures { result.now ≡ yes_or_no known }
{
    if known { "yes" } else { "no" }
}
