//! Lists of alternatives.
ghost use Rattle.std.specs.Prelude.{◌≡◌, ◌++◌, ◌<ℤ◌, ◌∷◌, [], pos, false, true, map, IfOk, IfErr, OnOk};
ghost use Rattle.photo_filter_text.specs.Tree.{tree_of};
ghost use Rattle.std.specs.List.{list_any, list_all};
ghost use Rattle.std.specs.Option.{option_to_list};
ghost use Rattle.photo_filter_rules.specs.Matching.{content};
ghost use Rattle.photo_filter_rules.specs.declared.fault.BuildFault.TheVariants.{NoMemory};
ghost use Rattle.photo_filter_rules.specs.Limits.{all_ratings, all_days};
ghost use Rattle.photo_filter_rules.specs.Alternatives.{fits, possible, spans_of, with_ratings, with_days, with_keyword, all_or_none};
ghost use Rattle.photo_filter_rules.specs.Alternatives.{both_of, pairs, either_list, alternatives_of, is_long, is_too_wide};
ghost use Rattle.photo_filter_rules.specs.Covers.{has_room_for};

use crate::BuildFault;
use crate::alternative::Alternative;
use crate::polarity::Polarity;
use crate::span::{ALL_DAYS, ALL_RATINGS, Span};
use photo_filter_text::{Cmp, FilterTree};
use photo_record::{Day, Rating, Word, Words};
use std::alloc::Global;

/// The most alternatives that a tree, or a part of one, may have.
pub const MAX_ALTERNATIVES: usize = 64;

/// The alternatives of a tree in this polarity. `TooWide` means that the tree or one of its parts has over 64; `NoMemory` may
/// come in place of either answer.
pub fn alternatives_of(
    alloc: Global,
    tree: &FilterTree,
    polarity: Polarity,
) -> Result<Vec<Alternative>, BuildFault>
    ensures list { IfOk result (λ list. list.items ≡ alternatives_of (tree_of tree.now) polarity) }
    ensures short { IfOk result (λ list. is_long list.items ≡ false) }
    ensures narrow { OnOk result (is_too_wide (tree_of tree.now) polarity ≡ false) }
    ensures wide { IfErr result
        (λ fault. fault ≡ BuildFault.TooWide → is_too_wide (tree_of tree.now) polarity ≡ true) }
{
    match tree {
        FilterTree::All => all_or_none(alloc, polarity),
        FilterTree::Nothing => all_or_none(alloc, polarity.opposite()),
        FilterTree::Rate(cmp, rating) => ratings_list(alloc, polarity, *cmp, *rating),
        FilterTree::On(cmp, day) => days_list(alloc, polarity, *cmp, *day),
        FilterTree::Keyword(word) => word_list(alloc, polarity, word),
        FilterTree::Not(part) => alternatives_of(alloc, part, polarity.opposite()),
        FilterTree::Both(left, right) => {
            let left = alternatives_of(alloc, left, polarity)?;
            let right = alternatives_of(alloc, right, polarity)?;
            either_list(alloc, polarity.opposite(), left, right)
        }
        FilterTree::Either(left, right) => {
            let left = alternatives_of(alloc, left, polarity)?;
            let right = alternatives_of(alloc, right, polarity)?;
            either_list(alloc, polarity, left, right)
        }
    }
}

fn all_or_none(alloc: Global, polarity: Polarity) -> Result<Vec<Alternative>, BuildFault>
    ensures list { IfOk result (λ list. list.items ≡ all_or_none polarity) }
    ensures memory { IfErr result (λ fault. fault ≡ NoMemory) }
{
    let mut list = Vec::new(alloc);
    if polarity == Polarity::Plain {
        list.push(Alternative::anything(alloc))?;
    }
    Ok(list)
}

fn ratings_list(
    alloc: Global,
    polarity: Polarity,
    cmp: Cmp,
    rating: Rating,
) -> Result<Vec<Alternative>, BuildFault>
    ensures list { IfOk result
        (λ list. list.items ≡ possible (map with_ratings (spans_of all_ratings polarity cmp (pos rating)))) }
    ensures memory { IfErr result (λ fault. fault ≡ NoMemory) }
{
    let (first, second) = spans_of(ALL_RATINGS, polarity, cmp, i32::from(rating.value()));
    let second = second.map(|ratings| Alternative::with_ratings(alloc, ratings));
    possible_of(alloc, Alternative::with_ratings(alloc, first), second)
}

fn days_list(
    alloc: Global,
    polarity: Polarity,
    cmp: Cmp,
    day: Day,
) -> Result<Vec<Alternative>, BuildFault>
    ensures list { IfOk result (λ list. list.items ≡ possible (map with_days (spans_of all_days polarity cmp day))) }
    ensures memory { IfErr result (λ fault. fault ≡ NoMemory) }
{
    let (first, second) = spans_of(ALL_DAYS, polarity, cmp, day.number());
    let second = second.map(|days| Alternative::with_days(alloc, days));
    possible_of(alloc, Alternative::with_days(alloc, first), second)
}

// The possible ones among one or two alternatives.
fn possible_of(
    alloc: Global,
    first: Alternative,
    second: Option<Alternative>,
) -> Result<Vec<Alternative>, BuildFault>
    ensures list { IfOk result (λ list. list.items ≡ possible (first ∷ option_to_list second)) }
    ensures memory { IfErr result (λ fault. fault ≡ NoMemory) }
{
    let mut list = Vec::new(alloc);
    add_possible(first, &mut list)?;
    if let Some(second) = second {
        add_possible(second, &mut list)?;
    }
    Ok(list)
}

// Appends an alternative if it is possible.
fn add_possible(alternative: Alternative, list: &mut Vec<Alternative>) -> Result<(), BuildFault>
    ensures list { OnOk result (list.new.items ≡ list.old.items ++ possible (alternative ∷ [])) }
    ensures memory { IfErr result (λ fault. fault ≡ NoMemory) }
{
    if !alternative.is_possible() {
        return Ok(());
    }
    list.push(alternative)?;
    Ok(())
}

fn word_list(alloc: Global, polarity: Polarity, word: &Word) -> Result<Vec<Alternative>, BuildFault>
    ensures list { IfOk result (λ list. list.items ≡ with_keyword polarity word.now ∷ []) }
    ensures memory { IfErr result (λ fault. fault ≡ NoMemory) }
{
    let mut list = Vec::new(alloc);
    list.push(Alternative::with_keyword(alloc, polarity, word)?)?;
    Ok(list)
}

// The first range of numbers that pass the test, and the second if there are two.
fn spans_of(whole: Span, polarity: Polarity, cmp: Cmp, named: i32) -> (Span, Option<Span>)
    requires above { i32.MIN <ℤ named }
    requires below { named <ℤ i32.MAX }
    ensures { result.0 ∷ option_to_list result.1 ≡ spans_of whole polarity cmp named }
{
    let Span { first, last } = whole;
    let only = Span {
        first: named,
        last: named,
    };
    let below = Span {
        first,
        last: named - 1,
    };
    let above = Span {
        first: named + 1,
        last,
    };
    match (polarity, cmp) {
        (Polarity::Plain, Cmp::AtLeast) => (Span { first: named, last }, None),
        (Polarity::Plain, Cmp::AtMost) => (Span { first, last: named }, None),
        (Polarity::Plain, Cmp::Equal) => (only, None),
        (Polarity::Negated, Cmp::AtLeast) => (below, None),
        (Polarity::Negated, Cmp::AtMost) => (above, None),
        (Polarity::Negated, Cmp::Equal) => (below, Some(above)),
    }
}

fn either_list(
    alloc: Global,
    polarity: Polarity,
    left: Vec<Alternative>,
    right: Vec<Alternative>,
) -> Result<Vec<Alternative>, BuildFault>
    requires { is_long left.items ≡ false }
    ensures list { IfOk result (λ list. list.items ≡ either_list polarity left.items right.items) }
    ensures short { OnOk result (is_long (either_list polarity left.items right.items) ≡ false) }
    ensures long { IfErr result
        (λ fault. fault ≡ BuildFault.TooWide → is_long (either_list polarity left.items right.items) ≡ true) }
{
    match polarity {
        Polarity::Plain => joined(left, right),
        Polarity::Negated => paired(alloc, &left, &right),
    }
}

fn joined(
    mut left: Vec<Alternative>,
    mut right: Vec<Alternative>,
) -> Result<Vec<Alternative>, BuildFault>
    requires { is_long left.items ≡ false }
    ensures list { IfOk result (λ list. list.items ≡ left.items ++ right.items) }
    ensures short { OnOk result (is_long (left.items ++ right.items) ≡ false) }
    ensures long { IfErr result
        (λ fault. fault ≡ BuildFault.TooWide → is_long (left.items ++ right.items) ≡ true) }
{
    if right.len() > MAX_ALTERNATIVES - left.len() {
        return Err(BuildFault::TooWide);
    }
    left.append(&mut right)?;
    Ok(left)
}

fn paired(
    alloc: Global,
    left: &[Alternative],
    right: &[Alternative],
) -> Result<Vec<Alternative>, BuildFault>
    ensures list { IfOk result (λ list. list.items ≡ pairs left.now right.now) }
    ensures short { OnOk result (is_long (pairs left.now right.now) ≡ false) }
    ensures long { IfErr result
        (λ fault. fault ≡ BuildFault.TooWide → is_long (pairs left.now right.now) ≡ true) }
{
    let mut list = Vec::new(alloc);
    for alternative in left {
        pair_with(alternative, right, &mut list)?;
    }
    Ok(list)
}

// Appends the possible pairs of one alternative with the others, as long as the list has at most 64.
fn pair_with(
    alternative: &Alternative,
    others: &[Alternative],
    list: &mut Vec<Alternative>,
) -> Result<(), BuildFault>
    requires { is_long list.old.items ≡ false }
    ensures list { OnOk result (list.new.items ≡ list.old.items ++ possible (map (both_of alternative.now) others.now)) }
    ensures short { OnOk result (is_long list.new.items ≡ false) }
    ensures long { IfErr result
        (λ fault. fault ≡ BuildFault.TooWide
        → is_long (list.old.items ++ possible (map (both_of alternative.now) others.now)) ≡ true) }
{
    for other in others {
        push_possible(alternative.meet(other)?, list)?;
    }
    Ok(())
}

// Appends an alternative, if it is possible, to a list that has at most 64 before and after.
fn push_possible(alternative: Alternative, list: &mut Vec<Alternative>) -> Result<(), BuildFault>
    requires { is_long list.old.items ≡ false }
    ensures list { OnOk result (list.new.items ≡ list.old.items ++ possible (alternative ∷ [])) }
    ensures short { OnOk result (is_long list.new.items ≡ false) }
    ensures long { IfErr result
        (λ fault. fault ≡ BuildFault.TooWide → is_long (list.old.items ++ possible (alternative ∷ [])) ≡ true) }
{
    if !alternative.is_possible() {
        return Ok(());
    }
    if list.len() == MAX_ALTERNATIVES {
        return Err(BuildFault::TooWide);
    }
    list.push(alternative)?;
    Ok(())
}

/// Whether a picture with that rating, day number and words fits one of the alternatives. It takes no memory.
pub fn any_fits(list: &[Alternative], rating: u8, day: i32, words: &Words) -> bool
    ensures { result ≡ list_any (fits (content rating day words.now)) list.now }
{
    list.iter()
        .any(|alternative| alternative.fits(rating, day, words))
}

/// Whether some alternative of the list asks no more than this one. It takes no memory.
pub fn has_room_for(list: &[Alternative], alternative: &Alternative) -> bool
    ensures { result ≡ has_room_for list.now alternative.now }
{
    list.iter().any(|wider| wider.asks_no_more(alternative))
}

/// Whether the first list has, for each alternative of the second, one that asks no more. It takes no memory.
pub fn has_room_for_all(list: &[Alternative], others: &[Alternative]) -> bool
    ensures { result ≡ list_all (has_room_for list.now) others.now }
{
    others.iter().all(|other| has_room_for(list, other))
}
