//! Days of the calendar.
ghost use Rattle.std.specs.Prelude.{◌≡◌, ℤ, Some, None, length, ◌≤◌, if◌then◌else◌};
ghost use Rattle.photo_record.specs.Limits.{IsDay, max_year};
ghost use Rattle.std.specs.Int.{IsInRange};
ghost use Rattle.photo_record.specs.Calendar.{IsDateOf, date_of};
ghost use Rattle.photo_record.specs.Reading.{day_of_text, is_number, number};

use jiff::civil::Date;
use jiff_core::civil;
use std::marker::Model;

/// A day of the calendar, 0000-01-01 to 9999-12-31. Contracts see its day number.
#[derive(Clone, Copy, Debug, PartialEq, Eq, PartialOrd, Ord, Hash)]
pub struct Day {
    number: i32,
}

impl Model for Day {
    ghost Value = { ℤ };

    ghost view = { λ d. d.number };

    ghost invariant = { λ d. IsDay d.number };

    ghost inverse = { λ n. record { number = n } };
}

impl Day {
    ghost use Rattle.photo_record.specs.Civil.{IsCivil};

    /// Reads `YYYY-MM-DD` in ASCII digits. `None` where the text has another form, or the calendar has no such date.
    pub fn read(text: &str) -> Option<Day>
        ensures { result ≡ day_of_text text.now }
    {
        let bytes = text.as_bytes();
        if bytes.len() != 10 || bytes[4] != b'-' || bytes[7] != b'-' {
            return None;
        }
        let year = digits(&bytes[..4])?;
        let month = digits(&bytes[5..7])?;
        let day = digits(&bytes[8..10])?;
        let date = Date::new(year as i16, month as i8, day as i8).ok()?;
        Some(Day {
            number: date.to_plain().to_unix_epoch_day(),
        })
    }

    /// The days since 1970-01-01, negative before it: -719,528 to 2,932,896.
    pub fn number(&self) -> i32
        ensures value { result ≡ self.now }
        ensures in_range { IsDay result }
    {
        self.number
    }

    /// The year, 0 to 9999.
    pub fn year(&self) -> u16
        ensures value { result ≡ (date_of self.now).year }
        ensures in_range { result ≤ max_year }
    {
        self.date().year as u16
    }

    /// The month, 1 to 12.
    pub fn month(&self) -> u8
        ensures value { result ≡ (date_of self.now).month }
        ensures in_range { IsInRange 1 12 result }
    {
        self.date().month
    }

    /// The day of the month, 1 to 31.
    pub fn day(&self) -> u8
        ensures value { result ≡ (date_of self.now).day }
        ensures in_range { IsInRange 1 31 result }
    {
        self.date().day
    }

    fn date(&self) -> civil::Date
        ensures value { IsCivil (date_of self.now) result }
        ensures in_calendar { IsDateOf self.now (date_of self.now) }
    {
        civil::Date::from_unix_epoch_day(i64::from(self.number)).unwrap()
    }
}

// What digits alone stand for, of which there are one to four.
fn digits(text: &[u8]) -> Option<u16>
    requires { length text.now ≤ 4 }
    ensures { result ≡ (if is_number text.now then Some (number text.now) else None) }
{
    if text.is_empty() || !text.iter().all(u8::is_ascii_digit) {
        return None;
    }
    let mut value = 0;
    for digit in text {
        value = 10 * value + u16::from(*digit - b'0');
    }
    Some(value)
}
