//! Single fields of a line, for texts that aren't scripts and have the same fields.
ghost use Rattle.std.specs.Prelude.{◌≡◌, ◌≢◌, None, Err, IfOk};
ghost use Rattle.photo_record.specs.Reading.{rating_of_text, day_of_text};
ghost use Rattle.photo_filter_rules.specs.Matching.{IsInRange};
ghost use Rattle.script_reader.specs.Fields.{picture_of};
ghost use Rattle.script_reader.specs.Saying.{filter_said, record_said};
ghost use Rattle.script_reader.specs.Steps.{Gives};
ghost use Rattle.script_reader.specs.declared.refusal.Refusal.TheVariants.{Memory};

use crate::field::{filter_of, picture_of};
use crate::reader::record_of;
use crate::refusal::Refusal;
use crate::word_sets::WordSets;
use photo_filter_rules::Filter;
use photo_record::{PicNo, Record};
use std::alloc::Global;

/// Reads PIC, a picture's number: a decimal from 1 to 999,999,999 without a leading zero. `None` where the text is no such one.
pub fn read_picture(text: &str) -> Option<PicNo>
    ensures { result ≡ picture_of text.now }
{
    picture_of(text)
}

/// Reads RATING, DATE and WORDS as the record of a picture.
///
/// Its faults are `BadRating`, `BadDate` and `BadKeyword`, in this order; or memory was refused, after rating and date were read.
pub fn read_record(alloc: Global, rating: &str, date: &str, words: &str) -> Result<Record, Refusal>
    ensures said { Gives (λ r. r) result (record_said rating.now date.now words.now) }
    ensures memory { result ≡ Err Memory → (rating_of_text rating.now ≢ None) × (day_of_text date.now ≢ None) }
    ensures in_range { IfOk result IsInRange }
{
    record_of(&mut WordSets::new(alloc), rating, date, words)
}

/// Reads FILTER. Its only fault is `BadFilter`, where the text isn't a filter of the grammar or has too many alternatives; or
/// memory was refused.
pub fn read_filter(alloc: Global, text: &str) -> Result<Filter, Refusal>
    ensures { Gives (λ f. f) result (filter_said text.now) }
{
    filter_of(alloc, text)
}
