//! Polarity: plain, or under `not`.
ghost use Rattle.std.specs.Prelude.{◌≡◌};

/// Whether a part of a tree stands plain or under `not`.
#[derive(Clone, Copy, Debug, PartialEq, Eq)]
pub enum Polarity {
    Plain,
    Negated,
}

impl Polarity {
    ghost use Rattle.photo_filter_rules.specs.Alternatives.{opposite};

    /// The opposite polarity.
    pub fn opposite(self) -> Polarity
        ensures { result ≡ opposite self }
    {
        match self {
            Polarity::Plain => Polarity::Negated,
            Polarity::Negated => Polarity::Plain,
        }
    }
}
