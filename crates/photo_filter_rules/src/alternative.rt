//! One alternative of a filter.
ghost use Rattle.std.specs.Prelude.{◌≡◌, IfOk};
ghost use Rattle.photo_filter_rules.specs.Matching.{content};
ghost use Rattle.photo_filter_rules.specs.Alternatives.{anything, with_ratings, with_days, with_keyword, fits, is_possible, both_of};
ghost use Rattle.photo_filter_rules.specs.Covers.{asks_no_more};

use crate::copies::{TryClone, copied};
use crate::polarity::Polarity;
use crate::span::{ALL_DAYS, ALL_RATINGS, Span};
use crate::words;
use photo_record::{Word, Words};
use std::alloc::{AllocError, Global};
use std::marker::Model;

/// One alternative: ranges of ratings and days, required words and forbidden words.
#[derive(Debug, Drop)]
pub struct Alternative {
    ratings: Span,
    days: Span,
    required: Vec<Word>,
    forbidden: Vec<Word>,
}

impl Model for Alternative {
    ghost use Rattle.photo_filter_rules.specs.Alternatives as spec;

    ghost Value = { spec.Alternative };

    ghost view = { λ c. record { ratings = c.ratings; days = c.days; required = c.required.items; forbidden = c.forbidden.items } };
}

impl Alternative {
    /// The alternative that asks nothing, so every picture fits.
    pub fn anything(alloc: Global) -> Alternative
        ensures { result ≡ anything }
    {
        Alternative {
            ratings: ALL_RATINGS,
            days: ALL_DAYS,
            required: Vec::new(alloc),
            forbidden: Vec::new(alloc),
        }
    }

    /// The alternative that asks only for a rating in the range.
    pub fn with_ratings(alloc: Global, ratings: Span) -> Alternative
        ensures { result ≡ with_ratings ratings }
    {
        Alternative {
            ratings,
            ..Alternative::anything(alloc)
        }
    }

    /// The alternative that asks only for a day in the range, by day number.
    pub fn with_days(alloc: Global, days: Span) -> Alternative
        ensures { result ≡ with_days days }
    {
        Alternative {
            days,
            ..Alternative::anything(alloc)
        }
    }

    /// The alternative that only requires the word, or under `not` only forbids it. Its only error is want of memory.
    pub fn with_keyword(
        alloc: Global,
        polarity: Polarity,
        word: &Word,
    ) -> Result<Alternative, AllocError>
        ensures { IfOk result (λ alternative. alternative ≡ with_keyword polarity word.now) }
    {
        let mut alternative = Alternative::anything(alloc);
        match polarity {
            Polarity::Plain => alternative.required.push(word.try_clone()?)?,
            Polarity::Negated => alternative.forbidden.push(word.try_clone()?)?,
        }
        Ok(alternative)
    }

    /// Whether a picture with that rating, day number and words fits. It takes no memory.
    pub fn fits(&self, rating: u8, day: i32, words: &Words) -> bool
        ensures { result ≡ fits (content rating day words.now) self.now }
    {
        self.ratings.has(i32::from(rating))
            && self.days.has(day)
            && words::has_all(words, &self.required)
            && !words::has_any(words, &self.forbidden)
    }

    /// Whether both ranges have numbers and no word is both required and forbidden. It takes no memory.
    pub fn is_possible(&self) -> bool
        ensures { result ≡ is_possible self.now }
    {
        !self.ratings.is_empty()
            && !self.days.is_empty()
            && !words::meets(&self.required, &self.forbidden)
    }

    /// Whether this alternative asks nothing that the other doesn't ask. It takes no memory.
    pub fn asks_no_more(&self, other: &Alternative) -> bool
        ensures { result ≡ asks_no_more self.now other.now }
    {
        self.ratings.contains(&other.ratings)
            && self.days.contains(&other.days)
            && words::contain_all(&other.required, &self.required)
            && words::contain_all(&other.forbidden, &self.forbidden)
    }

    /// The alternative that asks for what both ask. Its only error is want of memory.
    pub fn meet(&self, other: &Alternative) -> Result<Alternative, AllocError>
        ensures { IfOk result (λ both. both ≡ both_of self.now other.now) }
    {
        Ok(Alternative {
            ratings: self.ratings.meet(&other.ratings),
            days: self.days.meet(&other.days),
            required: words::both_sets(&self.required, &other.required)?,
            forbidden: words::both_sets(&self.forbidden, &other.forbidden)?,
        })
    }
}

impl TryClone for Alternative {
    fn try_clone(&self) -> Result<Alternative, AllocError> {
        Ok(Alternative {
            ratings: self.ratings,
            days: self.days,
            required: copied(&self.required)?,
            forbidden: copied(&self.forbidden)?,
        })
    }
}
