//! How values are shown in reports.
ghost use Rattle.std.specs.Prelude.{◌∷◌, Some};
ghost use Rattle.std.specs.Fmt.{DisplaysOnOk, decimal, styled_decimal, styled_text};
ghost use Rattle.std.specs.List.{flat_map};
ghost use Rattle.photo_record.specs.Showing.{day_text, words_text, record_text};

use crate::{Day, PicNo, Rating, Record, Word, Words};
use std::fmt;

impl fmt::Display for Rating {
    ghost output = { λ rating. Some (decimal rating) };

    ghost styled_output = { λ rating style. Some (styled_decimal style rating) };

    fn fmt<W: fmt::Write>(&self, f: &mut fmt::Formatter<W>) -> fmt::Result {
        fmt::Display::fmt(&self.value(), f)
    }
}

impl fmt::Display for PicNo {
    ghost output = { λ picture. Some (decimal picture) };

    ghost styled_output = { λ picture style. Some (styled_decimal style picture) };

    fn fmt<W: fmt::Write>(&self, f: &mut fmt::Formatter<W>) -> fmt::Result {
        fmt::Display::fmt(&self.value(), f)
    }
}

impl fmt::Display for Day {
    ghost output = { λ day. Some (day_text day) };

    fn fmt<W: fmt::Write>(&self, f: &mut fmt::Formatter<W>) -> fmt::Result {
        let (year, month, day) = (self.year(), self.month(), self.day());
        write!(f, "{year:04}-{month:02}-{day:02}")
    }
}

impl fmt::Display for Word {
    ghost output = { λ word. Some word };

    ghost styled_output = { λ word style. Some (styled_text style word) };

    fn fmt<W: fmt::Write>(&self, f: &mut fmt::Formatter<W>) -> fmt::Result {
        fmt::Display::fmt(&self.text(), f)
    }
}

impl fmt::Display for Words {
    ghost output = { λ words. Some (words_text words) };

    fn fmt<W: fmt::Write>(&self, f: &mut fmt::Formatter<W>) -> fmt::Result {
        let Some((first, others)) = self.as_slice().split_first() else {
            return f.write_str("-");
        };
        write!(f, "{first}")?;
        fmt_behind_commas(others, f)
    }
}

// Writes each word behind a comma.
fn fmt_behind_commas<W: fmt::Write>(words: &[Word], f: &mut fmt::Formatter<W>) -> fmt::Result
    ensures { DisplaysOnOk W.write_str_gives f.old result (Some (flat_map (λ word. 44 ∷ word) words.now)) f.new }
{
    for word in words {
        write!(f, ",{word}")?;
    }
    Ok(())
}

impl fmt::Display for Record {
    ghost output = { λ content. Some (record_text content) };

    fn fmt<W: fmt::Write>(&self, f: &mut fmt::Formatter<W>) -> fmt::Result {
        match self {
            Record::Picture { rating, day, words } => {
                write!(f, "rating {rating} day {day} words {words}")
            }
            Record::Removed => f.write_str("removed"),
        }
    }
}
