//! Ranges of numbers.
ghost use Rattle.std.specs.Prelude.{◌≡◌, int_le, not};

/// The numbers from the first to the last, both included; none if the last is below the first.
#[derive(Clone, Copy, Debug, PartialEq, Eq)]
pub struct Span {
    pub first: i32,
    pub last: i32,
}

/// All ratings.
pub const ALL_RATINGS: Span = Span { first: 0, last: 5 };

/// The numbers of all days of the calendar.
pub const ALL_DAYS: Span = Span {
    first: -719_528,
    last: 2_932_896,
};

impl Span {
    ghost use Rattle.photo_filter_rules.specs.Alternatives.{is_within, both_spans};
    ghost use Rattle.photo_filter_rules.specs.Covers.{contains};

    /// Whether the range has the number.
    pub fn has(&self, number: i32) -> bool
        ensures { result ≡ is_within self.now number }
    {
        self.first <= number && number <= self.last
    }

    /// Whether the range has no number.
    pub fn is_empty(&self) -> bool
        ensures { result ≡ not (int_le self.now.first self.now.last) }
    {
        self.last < self.first
    }

    /// Whether this range has all numbers of the other.
    pub fn contains(&self, other: &Span) -> bool
        ensures { result ≡ contains self.now other.now }
    {
        self.first <= other.first && other.last <= self.last
    }

    /// The numbers in both ranges.
    pub fn meet(&self, other: &Span) -> Span
        ensures { result ≡ both_spans self.now other.now }
    {
        Span {
            first: self.first.max(other.first),
            last: self.last.min(other.last),
        }
    }
}
