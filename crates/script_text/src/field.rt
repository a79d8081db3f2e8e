// The fields of a line.
ghost use Rattle.std.specs.Prelude.{◌≡◌, ◌<◌, ◌++◌, ◌∷◌, [], string_bytes, OnOk};
ghost use Rattle.photo_record.specs.Showing.{words_text};
ghost use Rattle.photo_filter_text.specs.Printed.{date_text, digit, two_digits};
ghost use Rattle.photo_version.specs.Showing.{epoch_text};
ghost use Rattle.photo_script.specs.Reports.{name_of, version_text};
ghost use Rattle.script_text.specs.Texts.{record_text};
ghost use Rattle.script_text.specs.Printable.{AreWords, HasWords};

use photo_record::{Day, Record, Words};
use photo_script::Script;
use photo_version::Version;
use std::alloc::AllocError;

/// The name of the device at that place; empty if there is no such device.
pub fn name_of<'a>(script: &'a Script, device: u16) -> &'a str
    ensures { result.now ≡ name_of script.now device }
{
    if usize::from(device) < script.devices() {
        script.name(device)
    } else {
        ""
    }
}

/// Appends a rating, a day and words.
pub fn push_record(text: &mut String, record: &Record) -> Result<(), AllocError>
    ensures text { OnOk result (string_bytes text.new ≡ string_bytes text.old ++ record_text «record».now) }
    ensures words { OnOk result (HasWords «record».now) }
{
    match record {
        Record::Picture { rating, day, words } => {
            let rating = u32::from(rating.value());
            write!(text, "{rating} ")?;
            push_date(text, *day)?;
            text.push_str(" ")?;
            push_words(text, words)
        }
        Record::Removed => text.push_str("removed"),
    }
}

// Appends the date as `YYYY-MM-DD`.
#[tactic(auto, unfolding(photo_filter_text::specs::Printed::date_text))]
fn push_date(text: &mut String, day: Day) -> Result<(), AllocError>
    ensures { OnOk result (string_bytes text.new ≡ string_bytes text.old ++ date_text day) }
{
    let year = day.year();
    push_two_digits(text, (year / 100) as u8)?;
    push_two_digits(text, (year % 100) as u8)?;
    text.push('-')?;
    push_two_digits(text, day.month())?;
    text.push('-')?;
    push_two_digits(text, day.day())
}

fn push_two_digits(text: &mut String, n: u8) -> Result<(), AllocError>
    ensures { OnOk result (string_bytes text.new ≡ string_bytes text.old ++ two_digits n) }
{
    push_digit(text, n / 10)?;
    push_digit(text, n % 10)
}

fn push_digit(text: &mut String, n: u8) -> Result<(), AllocError>
    requires { n < 80 }
    ensures { OnOk result (string_bytes text.new ≡ string_bytes text.old ++ digit n ∷ []) }
{
    text.push(char::from(b'0' + n))
}

// Appends the words separated by commas, or a dash if there are none.
fn push_words(text: &mut String, words: &Words) -> Result<(), AllocError>
    ensures text { OnOk result (string_bytes text.new ≡ string_bytes text.old ++ words_text words.now) }
    ensures words { OnOk result (AreWords words.now) }
{
    let count = words.len();
    if count == 0 {
        return text.push_str("-");
    }
    text.push_str(words.get(0).text())?;
    for i in 1..count {
        text.push_str(",")?;
        text.push_str(words.get(i).text())?;
    }
    Ok(())
}

/// Appends a version: `NAME:n`, or `NAME.E:n` for epoch E above 0.
pub fn push_version(text: &mut String, script: &Script, version: Version) -> Result<(), AllocError>
    ensures { OnOk result (string_bytes text.new ≡ string_bytes text.old ++ version_text script.now version) }
{
    let author = version.author();
    let number = version.n();
    text.push_str(name_of(script, author.value()))?;
    push_epoch(text, author.epoch())?;
    write!(text, ":{number}")
}

// Appends the epoch behind a dot; nothing for epoch 0.
fn push_epoch(text: &mut String, epoch: u32) -> Result<(), AllocError>
    ensures { OnOk result (string_bytes text.new ≡ string_bytes text.old ++ epoch_text epoch) }
{
    if epoch == 0 {
        return Ok(());
    }
    write!(text, ".{epoch}")
}
