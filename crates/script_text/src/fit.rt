// Which commands a line can state.
ghost use Rattle.std.specs.Prelude.{◌≡◌, ◌↔◌, [], ◌∷◌, codes, IsTrue, IfOk};
ghost use Rattle.script_text.specs.Printable.{FitsVersion, FitsRecord, FitsFilter, FitsCommand};
ghost use Rattle.script_text.specs.Parts.{IsSomeFilter};

use crate::limits::{MAX_EPOCH, MAX_VERSION};
use photo_filter_rules::{BuildFault, Filter};
use photo_filter_text::{FilterFault, print, read};
use photo_record::{Record, Words};
use photo_script::{Command, Script};
use photo_version::Version;
use std::alloc::{AllocError, Global};

/// Whether a line can state the command. Its only error is want of memory.
pub fn fits_command(alloc: Global, script: &Script, command: &Command) -> Result<bool, AllocError>
    ensures { IfOk result (λ fits. IsTrue fits ↔ FitsCommand script.now command.now) }
{
    match command {
        Command::New { record, .. } | Command::Edit { record, .. } => Ok(fits_record(record)),
        Command::Narrow { filter, .. } | Command::Refilter { filter, .. } => {
            fits_filter(alloc, filter)
        }
        Command::Knows { version, .. } => Ok(fits_version(script, *version)),
        _ => Ok(true),
    }
}

/// Whether the filter's text reads as the filter. Its only error is want of memory.
pub fn fits_filter(alloc: Global, filter: &Filter) -> Result<bool, AllocError>
    ensures { IfOk result (λ fits. IsTrue fits ↔ FitsFilter filter.now) }
{
    let text = print(alloc, filter.tree())?;
    is_filter(alloc, text.as_str())
}

// Whether a text is a filter.
fn is_filter(alloc: Global, text: &str) -> Result<bool, AllocError>
    ensures { IfOk result (λ is. IsTrue is ↔ IsSomeFilter text.now) }
{
    let tree = match read(alloc, text) {
        Ok(tree) => tree,
        Err(FilterFault::NoMemory) => return Err(AllocError),
        Err(_) => return Ok(false),
    };
    match Filter::build(alloc, tree) {
        Ok(_) => Ok(true),
        Err((_, BuildFault::NoMemory)) => Err(AllocError),
        Err((_, BuildFault::TooWide)) => Ok(false),
    }
}

fn fits_record(record: &Record) -> bool
    ensures { IsTrue result ↔ FitsRecord «record».now }
{
    match record {
        Record::Picture { words, .. } => !is_dash_alone(words),
        Record::Removed => false,
    }
}

// Whether the only word is a dash, which in a text denotes no words.
fn is_dash_alone(words: &Words) -> bool
    ensures { IsTrue result ↔ (words.now ≡ codes "-" ∷ []) }
{
    words.len() == 1 && words.get(0).text() == "-"
}

fn fits_version(script: &Script, version: Version) -> bool
    ensures { IsTrue result ↔ FitsVersion script.now version }
{
    let author = version.author();
    let number = version.n();
    usize::from(author.value()) < script.devices()
        && author.epoch() <= MAX_EPOCH
        && number > 0
        && number <= MAX_VERSION
}
