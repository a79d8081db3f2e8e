//! Ratings.
ghost use Rattle.std.specs.Prelude.{◌≡◌, ℕ, ◌≤◌, ◌<◌};
ghost use Rattle.std.specs.Option.{SomeIff};
ghost use Rattle.photo_record.specs.Limits.{max_rating};
ghost use Rattle.photo_record.specs.Reading.{rating_of_text};

use std::marker::Model;

// The greatest rating.
const MAX_RATING: u8 = 5;

/// How good a picture is: 0 to 5.
#[derive(Clone, Copy, Debug, PartialEq, Eq, PartialOrd, Ord, Hash)]
pub struct Rating {
    value: u8,
}

impl Model for Rating {
    ghost Value = { ℕ };

    ghost view = { λ r. r.value };

    ghost invariant = { λ r. r.value ≤ max_rating };

    ghost inverse = { λ n. record { value = n } };
}

impl Rating {
    /// The rating of that value; `None` above 5.
    pub fn new(value: u8) -> Option<Rating>
        ensures { SomeIff result (value ≤ max_rating) value }
    {
        if value > MAX_RATING {
            return None;
        }
        Some(Rating { value })
    }

    /// The rating that a text writes, one ASCII digit from 0 to 5; `None` for any other text.
    pub fn read(text: &str) -> Option<Rating>
        ensures { result ≡ rating_of_text text.now }
    {
        match text.as_bytes() {
            [digit @ b'0'..=b'9'] => Rating::new(*digit - b'0'),
            _ => None,
        }
    }

    /// The rating as a number, 0 to 5.
    pub fn value(&self) -> u8
        ensures value { result ≡ self.now }
        ensures in_range { result ≤ max_rating }
    {
        self.value
    }
}
