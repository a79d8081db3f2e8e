//! The fixed tokens of the grammar.
ghost use Rattle.std.specs.Prelude.{◌≡◌};
ghost use Rattle.photo_filter_text.specs.Grammar.{cmp_of};
ghost use Rattle.photo_filter_text.specs.Steps.{symbol_of};

use crate::Cmp;

/// The fixed tokens of the grammar; any other token is `Other`.
#[derive(Clone, Copy)]
pub(crate) enum Symbol {
    Open,
    Close,
    OrWord,
    AndWord,
    NotWord,
    AllWord,
    NoneWord,
    RatingWord,
    DayWord,
    KeywordWord,
    Other,
}

#[tactic(auto, unfolding(crate::specs::Steps::symbol_of))]
pub(crate) fn read_symbol(token: &str) -> Symbol
    ensures { result ≡ symbol_of token.now }
{
    match token {
        "(" => Symbol::Open,
        ")" => Symbol::Close,
        "or" => Symbol::OrWord,
        "and" => Symbol::AndWord,
        "not" => Symbol::NotWord,
        "all" => Symbol::AllWord,
        "none" => Symbol::NoneWord,
        "rating" => Symbol::RatingWord,
        "day" => Symbol::DayWord,
        "keyword" => Symbol::KeywordWord,
        _ => Symbol::Other,
    }
}

pub(crate) fn read_comparison(token: &str) -> Option<Cmp>
    ensures { result ≡ cmp_of token.now }
{
    match token {
        ">=" => Some(Cmp::AtLeast),
        "<=" => Some(Cmp::AtMost),
        "=" => Some(Cmp::Equal),
        _ => None,
    }
}
