//! Picture numbers.
ghost use Rattle.std.specs.Prelude.{◌≡◌, ℕ};
ghost use Rattle.std.specs.Option.{SomeIff};
ghost use Rattle.photo_record.specs.Limits.{IsPicNo};

use std::marker::Model;

// The greatest picture number.
const MAX_PICTURE: u32 = 999_999_999;

/// The number of a picture: 1 to 999,999,999.
#[derive(Clone, Copy, Debug, PartialEq, Eq, PartialOrd, Ord, Hash)]
pub struct PicNo {
    value: u32,
}

impl Model for PicNo {
    ghost Value = { ℕ };

    ghost view = { λ p. p.value };

    ghost invariant = { λ p. IsPicNo p.value };

    ghost inverse = { λ n. record { value = n } };
}

impl PicNo {
    /// The picture number of that value; `None` for 0 and above 999,999,999.
    pub fn new(value: u32) -> Option<PicNo>
        ensures { SomeIff result (IsPicNo value) value }
    {
        if value == 0 || value > MAX_PICTURE {
            return None;
        }
        Some(PicNo { value })
    }

    /// The number, 1 to 999,999,999.
    pub fn value(&self) -> u32
        ensures value { result ≡ self.now }
        ensures in_range { IsPicNo result }
    {
        self.value
    }
}
