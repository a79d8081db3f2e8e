// The texts of reports on pulls, previews and filter changes.
ghost use Rattle.std.specs.Prelude.{◌≡◌, ◌++◌, string_bytes, OnOk};
ghost use Rattle.std.specs.Fmt.{decimal};
ghost use Rattle.photo_script.specs.Reports.{not_narrower_text, narrowed_text, refiltered_text, counts_text, pulled_text, preview_text};

use crate::report::yes_or_no;
use itoa::Buffer;
use photo_pull::PullCounts;
use std::alloc::AllocError;

/// Appends the refusal of a filter that the device's own doesn't cover.
pub fn push_not_narrower(text: &mut String) -> Result<(), AllocError>
    ensures { OnOk result (string_bytes text.new ≡ string_bytes text.old ++ not_narrower_text) }
{
    text.push_str("refused C2 NotNarrower\n")?;
    Ok(())
}

/// Appends a report on a narrowing, with the number of versions moved to the out.
pub fn push_narrowed(text: &mut String, moved: u64) -> Result<(), AllocError>
    ensures { OnOk result (string_bytes text.new ≡ string_bytes text.old ++ narrowed_text moved) }
{
    writeln!(text, "narrowed {moved}")?;
    Ok(())
}

/// Appends a report on a refiltering, with the numbers of versions in the store and in the out.
pub fn push_refiltered(text: &mut String, store: u64, out: u64) -> Result<(), AllocError>
    ensures { OnOk result (string_bytes text.new ≡ string_bytes text.old ++ refiltered_text store out) }
{
    writeln!(text, "refiltered store {store} out {out}")?;
    Ok(())
}

/// Appends a report on a pull.
pub fn push_pulled(text: &mut String, counts: &PullCounts) -> Result<(), AllocError>
    ensures { OnOk result (string_bytes text.new ≡ string_bytes text.old ++ pulled_text counts.now) }
{
    push_counts(text, "pulled ", counts)
}

/// Appends a report on a preview.
pub fn push_preview(text: &mut String, counts: &PullCounts) -> Result<(), AllocError>
    ensures { OnOk result (string_bytes text.new ≡ string_bytes text.old ++ preview_text counts.now) }
{
    push_counts(text, "preview ", counts)
}

// Appends the counts of a pull after `word`, which ends with a space.
fn push_counts(text: &mut String, word: &str, counts: &PullCounts) -> Result<(), AllocError>
    ensures { OnOk result (string_bytes text.new ≡ string_bytes text.old ++ counts_text word.now counts.now) }
{
    text.push_str(word)?;
    push_count(text, "taken ", counts.taken)?;
    push_count(text, " handed ", counts.handed)?;
    push_count(text, " notices ", counts.notices)?;
    push_count(text, " dropped ", counts.dropped)?;
    text.push_str(" learned ")?;
    text.push_str(yes_or_no(counts.learned))?;
    text.push_str("\n")?;
    Ok(())
}

// Appends a word and a count.
fn push_count(text: &mut String, word: &str, count: u64) -> Result<(), AllocError>
    ensures { OnOk result (string_bytes text.new ≡ string_bytes text.old ++ word.now ++ decimal count) }
{
    let mut buffer = Buffer::new();
    text.push_str(word)?;
    text.push_str(buffer.format(count))?;
    Ok(())
}
