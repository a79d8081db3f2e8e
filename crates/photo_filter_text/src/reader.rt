//! The reader's states and its steps from token to token.
ghost use Rattle.std.specs.Prelude.{◌≡◌, ◌≢◌, ◌+◌, ◌<◌, ◌^◌, ◌||◌, ◌∷◌};
ghost use Rattle.std.specs.Prelude.{nat_lt, true, false, is_some, IfOk, IfErr, IsErr, Some, None, Ok, Err, option_map};
ghost use Rattle.photo_filter_text.specs.Grammar.{is_bracket};
ghost use Rattle.photo_filter_text.specs.declared.reader.Refusal.TheVariants.{Unexpected, BadWord, NoMemory};
ghost use Rattle.photo_filter_text.specs.Tree.{tree_of, Keyword, Both, Either};
ghost use Rattle.photo_filter_text.specs.declared.reader.Field.TheVariants.{RatingField, DayField};
ghost use Rattle.photo_filter_text.specs.Steps.{start, step, step_at, fresh, level_with, levels_of, state_of};
ghost use Rattle.photo_filter_text.specs.Steps.{place_of, level_of, state_with};
ghost use Rattle.photo_filter_text.specs.Steps.{AtFactor, AtOperator, AtValue, AtWord, After, at_factor, after_factor, after_term};
ghost use Rattle.photo_filter_text.specs.Steps.{finish, finished, joined, negated, closed};
ghost use Rattle.photo_filter_text.specs.Steps.{keeps, keeps_at, keeps_at_end, keeps_factor, keeps_at_factor, keeps_after_term};
ghost use Rattle.photo_filter_text.specs.Steps.{keeps_finished, keeps_closed};

use crate::symbol::{Symbol, read_comparison, read_symbol};
use crate::{Cmp, FilterTree};
use photo_record::{Day, Rating, Word, WordFault};
use std::alloc::{AllocError, AllocFailed, Global};

/// Why the reader refuses a token.
#[derive(Clone, Copy)]
pub(crate) enum Refusal {
    Unexpected,
    BadWord,
    NoMemory,
}

impl From<AllocError> for Refusal {
    ghost from_gives = { λ _ e. e ≡ NoMemory };

    fn from(_error: AllocError) -> Refusal {
        Refusal::NoMemory
    }
}

impl<T: Drop> From<AllocFailed<T>> for Refusal {
    ghost from_gives = { λ _ e. e ≡ NoMemory };

    fn from(_error: AllocFailed<T>) -> Refusal {
        Refusal::NoMemory
    }
}

/// What a test compares.
#[derive(Clone, Copy)]
pub(crate) enum Field {
    RatingField,
    DayField,
}

/// What may come next.
#[derive(Drop)]
pub(crate) enum Place {
    // A test, a `not` or a bracket.
    Factor,
    // `>=`, `<=` or `=`.
    Operator(Field),
    // A rating or a date.
    Value(Field, Cmp),
    // A word.
    Word,
    // `and`, `or`, a closing bracket or the end; the term stands before it.
    After(FilterTree),
}

/// What stands before the next factor in the innermost open bracket.
#[derive(Drop)]
pub(crate) struct Level {
    // The terms before the last `or`.
    either: Option<FilterTree>,
    // The factors after that, before the last `and`.
    both: Option<FilterTree>,
    // How many `not` stand after those.
    negations: usize,
}

/// The state after the tokens read so far.
#[derive(Drop)]
pub(crate) struct Reader {
    alloc: Global,
    place: Place,
    level: Level,
    outer: Vec<Level>,
}

impl Reader {
    pub(crate) fn new(alloc: Global) -> Reader
        ensures { state_of result ≡ start }
    {
        Reader {
            alloc,
            place: Place::Factor,
            level: Level::new(),
            outer: Vec::new(alloc),
        }
    }

    /// Reads the next token.
    pub(crate) fn take(self, token: &str) -> Result<Reader, Refusal>
        requires { self.level.negations < 2 ^ 32 }
        ensures taken { IfOk result (λ reader. step (state_of self) token.now ≡ Ok (state_of reader)) }
        ensures refused { IfErr result (λ refusal. refusal ≢ NoMemory → step (state_of self) token.now ≡ Err refusal) }
        ensures memory { IfErr result (λ refusal. refusal ≡ NoMemory → keeps (state_of self) token.now ≡ true) }
    {
        let Reader {
            alloc,
            place,
            level,
            outer,
        } = self;
        match place {
            Place::Factor => at_factor(alloc, level, outer, read_symbol(token)),
            Place::Operator(field) => at_operator(alloc, level, outer, field, token),
            Place::Value(Field::RatingField, cmp) => at_rating(alloc, level, outer, cmp, token),
            Place::Value(Field::DayField, cmp) => at_day(alloc, level, outer, cmp, token),
            Place::Word => at_word(alloc, level, outer, token),
            Place::After(tree) => after_term(alloc, level, outer, tree, read_symbol(token)),
        }
    }

    /// The whole tree if the tokens read are a filter, else `None`.
    pub(crate) fn finish(self) -> Result<Option<FilterTree>, AllocError>
        ensures tree { IfOk result (λ tree. option_map tree_of tree ≡ finish (state_of self)) }
        ensures memory { IsErr result → keeps_at_end (state_of self) ≡ true }
    {
        let Reader {
            alloc,
            place,
            level,
            outer,
        } = self;
        match place {
            Place::After(term) => whole(alloc, level.into_either(), outer, term),
            _ => Ok(None),
        }
    }
}

impl Level {
    fn new() -> Level
        ensures { level_of result ≡ fresh }
    {
        Level {
            either: None,
            both: None,
            negations: 0,
        }
    }

    // The level with one more `not`.
    fn with_negation(self) -> Level
        requires { self.negations < 2 ^ 32 }
        ensures { level_of result ≡ level_with (option_map tree_of self.either) (option_map tree_of self.both) (self.negations + 1) }
    {
        Level {
            negations: self.negations + 1,
            ..self
        }
    }

    // The terms before the last `or`.
    fn into_either(self) -> Option<FilterTree>
        ensures { option_map tree_of result ≡ option_map tree_of self.either }
    {
        self.either
    }
}

// Reads a token where a word must come.
fn read_word(alloc: Global, token: &str) -> Result<Word, Refusal>
    ensures read { IfOk result (λ word. (level : _) (outer : _)
        → step_at AtWord level outer token.now ≡ Ok (after_factor level outer (Keyword word))) }
    ensures refused { IfErr result
        (λ refusal. refusal ≢ NoMemory → (level : _) (outer : _) → step_at AtWord level outer token.now ≡ Err refusal) }
    ensures word { IfOk result (λ word. is_bracket token.now ≡ false) }
    ensures memory { IfErr result (λ refusal. refusal ≡ NoMemory → is_bracket token.now ≡ false) }
{
    if token == "(" || token == ")" {
        return Err(Refusal::Unexpected);
    }
    match Word::read(alloc, token) {
        Ok(word) => Ok(word),
        Err(WordFault::NoMemory) => Err(Refusal::NoMemory),
        Err(_) => Err(Refusal::BadWord),
    }
}

#[tactic(auto, unfolding(crate::specs::Steps::at_factor, crate::specs::Steps::keeps_at_factor))]
fn at_factor(
    alloc: Global,
    level: Level,
    outer: Vec<Level>,
    symbol: Symbol,
) -> Result<Reader, Refusal>
    requires { level.negations < 2 ^ 32 }
    ensures taken { IfOk result (λ reader. at_factor (level_of level) (levels_of outer.items) symbol ≡ Ok (state_of reader)) }
    ensures refused { IfErr result
        (λ refusal. refusal ≢ NoMemory → at_factor (level_of level) (levels_of outer.items) symbol ≡ Err refusal) }
    ensures memory { IfErr result (λ refusal. refusal ≡ NoMemory → keeps_at_factor (level_of level) symbol ≡ true) }
{
    let (place, level) = match symbol {
        Symbol::AllWord => return after_factor(alloc, level, outer, FilterTree::All),
        Symbol::NoneWord => return after_factor(alloc, level, outer, FilterTree::Nothing),
        Symbol::Open => return opened(alloc, level, outer),
        Symbol::NotWord => (Place::Factor, level.with_negation()),
        Symbol::RatingWord => (Place::Operator(Field::RatingField), level),
        Symbol::DayWord => (Place::Operator(Field::DayField), level),
        Symbol::KeywordWord => (Place::Word, level),
        Symbol::Close | Symbol::OrWord | Symbol::AndWord | Symbol::Other => {
            return Err(Refusal::Unexpected);
        }
    };
    Ok(placed(alloc, place, level, outer))
}

fn placed(alloc: Global, place: Place, level: Level, outer: Vec<Level>) -> Reader
    ensures { state_of result ≡ state_with (place_of place) (level_of level) (levels_of outer.items) }
{
    Reader {
        alloc,
        place,
        level,
        outer,
    }
}

// The reader after an opening bracket.
#[tactic(auto, using(crate::proofs::Levels::levels_push))]
fn opened(alloc: Global, level: Level, mut outer: Vec<Level>) -> Result<Reader, Refusal>
    ensures taken { IfOk result (λ reader. state_of reader ≡ state_with AtFactor fresh (level_of level ∷ levels_of outer.items)) }
    ensures refused { IfErr result (λ refusal. refusal ≡ NoMemory) }
{
    outer.push(level)?;
    Ok(placed(alloc, Place::Factor, Level::new(), outer))
}

// Reads a comparison.
fn at_operator(
    alloc: Global,
    level: Level,
    outer: Vec<Level>,
    field: Field,
    token: &str,
) -> Result<Reader, Refusal>
    ensures taken { IfOk result
        (λ reader. step_at (AtOperator field) (level_of level) (levels_of outer.items) token.now ≡ Ok (state_of reader)) }
    ensures refused { IfErr result (λ refusal. refusal ≢ NoMemory
        → step_at (AtOperator field) (level_of level) (levels_of outer.items) token.now ≡ Err refusal) }
    ensures memory { IfErr result (λ refusal. refusal ≡ NoMemory
        → keeps_at (AtOperator field) (level_of level) (levels_of outer.items) token.now ≡ true) }
{
    match read_comparison(token) {
        Some(cmp) => Ok(Reader {
            alloc,
            place: Place::Value(field, cmp),
            level,
            outer,
        }),
        None => Err(Refusal::Unexpected),
    }
}

// Reads a rating.
fn at_rating(
    alloc: Global,
    level: Level,
    outer: Vec<Level>,
    cmp: Cmp,
    token: &str,
) -> Result<Reader, Refusal>
    ensures taken { IfOk result (λ reader.
        step_at (AtValue RatingField cmp) (level_of level) (levels_of outer.items) token.now ≡ Ok (state_of reader)) }
    ensures refused { IfErr result (λ refusal. refusal ≢ NoMemory
        → step_at (AtValue RatingField cmp) (level_of level) (levels_of outer.items) token.now ≡ Err refusal) }
    ensures memory { IfErr result (λ refusal. refusal ≡ NoMemory
        → keeps_at (AtValue RatingField cmp) (level_of level) (levels_of outer.items) token.now ≡ true) }
{
    match Rating::read(token) {
        Some(rating) => after_factor(alloc, level, outer, FilterTree::Rate(cmp, rating)),
        None => Err(Refusal::Unexpected),
    }
}

// Reads a date.
fn at_day(
    alloc: Global,
    level: Level,
    outer: Vec<Level>,
    cmp: Cmp,
    token: &str,
) -> Result<Reader, Refusal>
    ensures taken { IfOk result
        (λ reader. step_at (AtValue DayField cmp) (level_of level) (levels_of outer.items) token.now ≡ Ok (state_of reader)) }
    ensures refused { IfErr result (λ refusal. refusal ≢ NoMemory
        → step_at (AtValue DayField cmp) (level_of level) (levels_of outer.items) token.now ≡ Err refusal) }
    ensures memory { IfErr result (λ refusal. refusal ≡ NoMemory
        → keeps_at (AtValue DayField cmp) (level_of level) (levels_of outer.items) token.now ≡ true) }
{
    match Day::read(token) {
        Some(day) => after_factor(alloc, level, outer, FilterTree::On(cmp, day)),
        None => Err(Refusal::Unexpected),
    }
}

// Reads a word.
fn at_word(alloc: Global, level: Level, outer: Vec<Level>, token: &str) -> Result<Reader, Refusal>
    ensures taken { IfOk result (λ reader. step_at AtWord (level_of level) (levels_of outer.items) token.now ≡ Ok (state_of reader)) }
    ensures refused { IfErr result
        (λ refusal. refusal ≢ NoMemory → step_at AtWord (level_of level) (levels_of outer.items) token.now ≡ Err refusal) }
    ensures memory { IfErr result
        (λ refusal. refusal ≡ NoMemory → keeps_at AtWord (level_of level) (levels_of outer.items) token.now ≡ true) }
{
    match read_word(alloc, token) {
        Ok(word) => after_factor(alloc, level, outer, FilterTree::Keyword(word)),
        Err(refusal) => Err(refusal),
    }
}

// The reader after a complete factor.
#[tactic(auto, unfolding(crate::specs::Steps::after_factor))]
fn after_factor(
    alloc: Global,
    level: Level,
    outer: Vec<Level>,
    factor: FilterTree,
) -> Result<Reader, Refusal>
    ensures taken { IfOk result (λ reader. state_of reader ≡ after_factor (level_of level) (levels_of outer.items) (tree_of factor)) }
    ensures refused { IfErr result (λ refusal. (refusal ≡ NoMemory) × (keeps_factor (level_of level) ≡ true)) }
{
    let Level {
        either,
        both,
        negations,
    } = level;
    let term = term_of(alloc, both, negations, factor)?;
    let level = Level {
        either,
        both: None,
        negations: 0,
    };
    Ok(placed(alloc, Place::After(term), level, outer))
}

// The term after a factor: the factor under its `not`s, joined to the factors before it.
fn term_of(
    alloc: Global,
    both: Option<FilterTree>,
    negations: usize,
    factor: FilterTree,
) -> Result<FilterTree, AllocError>
    ensures tree { IfOk result (λ tree. tree_of tree ≡ joined Both (option_map tree_of both) (negated negations (tree_of factor))) }
    ensures memory { IsErr result → (nat_lt 0 negations || is_some (option_map tree_of both)) ≡ true }
{
    let factor = negated(alloc, negations, factor)?;
    conjunction(alloc, both, factor)
}

#[tactic(auto, unfolding(crate::specs::Steps::after_term, crate::specs::Steps::keeps_after_term))]
fn after_term(
    alloc: Global,
    level: Level,
    outer: Vec<Level>,
    term: FilterTree,
    symbol: Symbol,
) -> Result<Reader, Refusal>
    ensures taken { IfOk result
        (λ reader. after_term (level_of level) (levels_of outer.items) (tree_of term) symbol ≡ Ok (state_of reader)) }
    ensures refused { IfErr result (λ refusal. refusal ≢ NoMemory
        → after_term (level_of level) (levels_of outer.items) (tree_of term) symbol ≡ Err refusal) }
    ensures memory { IfErr result
        (λ refusal. refusal ≡ NoMemory → keeps_after_term (level_of level) (levels_of outer.items) symbol ≡ true) }
{
    let either = level.into_either();
    match symbol {
        Symbol::AndWord => Ok(after_and(alloc, either, outer, term)),
        Symbol::OrWord => after_or(alloc, either, outer, term),
        Symbol::Close => after_close(alloc, either, outer, term),
        _ => Err(Refusal::Unexpected),
    }
}

// The reader after an `and`, which follows a term.
fn after_and(
    alloc: Global,
    either: Option<FilterTree>,
    outer: Vec<Level>,
    term: FilterTree,
) -> Reader
    ensures { state_of result
        ≡ state_with AtFactor (level_with (option_map tree_of either) (Some (tree_of term)) 0) (levels_of outer.items) }
{
    Reader {
        alloc,
        place: Place::Factor,
        level: Level {
            either,
            both: Some(term),
            negations: 0,
        },
        outer,
    }
}

// The reader after an `or`, which follows a term.
fn after_or(
    alloc: Global,
    either: Option<FilterTree>,
    outer: Vec<Level>,
    term: FilterTree,
) -> Result<Reader, Refusal>
    ensures taken { IfOk result (λ reader. state_of reader ≡ state_with AtFactor
        (level_with (Some (joined Either (option_map tree_of either) (tree_of term))) None 0) (levels_of outer.items)) }
    ensures refused { IfErr result (λ refusal. (refusal ≡ NoMemory) × (is_some (option_map tree_of either) ≡ true)) }
{
    let tree = disjunction(alloc, either, term)?;
    Ok(Reader {
        alloc,
        place: Place::Factor,
        level: Level {
            either: Some(tree),
            both: None,
            negations: 0,
        },
        outer,
    })
}

// The reader after a closing bracket, which follows a term.
#[tactic(auto, using(crate::proofs::Levels::levels_push))]
fn after_close(
    alloc: Global,
    either: Option<FilterTree>,
    mut outer: Vec<Level>,
    term: FilterTree,
) -> Result<Reader, Refusal>
    ensures taken { IfOk result (λ reader.
        closed (joined Either (option_map tree_of either) (tree_of term)) (levels_of outer.items) ≡ Ok (state_of reader)) }
    ensures refused { IfErr result (λ refusal. refusal ≢ NoMemory
        → closed (joined Either (option_map tree_of either) (tree_of term)) (levels_of outer.items) ≡ Err refusal) }
    ensures memory { IfErr result
        (λ refusal. refusal ≡ NoMemory → keeps_closed (option_map tree_of either) (levels_of outer.items) ≡ true) }
{
    let Some(below) = outer.pop() else {
        return Err(Refusal::Unexpected);
    };
    let tree = disjunction(alloc, either, term)?;
    after_factor(alloc, below, outer, tree)
}

// The whole tree after the last term, if no bracket is open.
fn whole(
    alloc: Global,
    either: Option<FilterTree>,
    outer: Vec<Level>,
    term: FilterTree,
) -> Result<Option<FilterTree>, AllocError>
    ensures tree { IfOk result (λ tree. option_map tree_of tree
        ≡ finished (After (tree_of term)) (level_with (option_map tree_of either) None 0) (levels_of outer.items)) }
    ensures memory { IsErr result
        → keeps_finished (After (tree_of term)) (level_with (option_map tree_of either) None 0) (levels_of outer.items)
        ≡ true }
{
    if !outer.is_empty() {
        return Ok(None);
    }
    let tree = disjunction(alloc, either, term)?;
    Ok(Some(tree))
}

fn negated(alloc: Global, times: usize, factor: FilterTree) -> Result<FilterTree, AllocError>
    ensures tree { IfOk result (λ tree. tree_of tree ≡ negated times (tree_of factor)) }
    ensures memory { IsErr result → 0 < times }
{
    let mut tree = factor;
    for _ in 0..times {
        tree = FilterTree::negation(alloc, tree)?;
    }
    Ok(tree)
}

// Joins the right side to the left side of an `and`, if there is one.
fn conjunction(
    alloc: Global,
    left: Option<FilterTree>,
    right: FilterTree,
) -> Result<FilterTree, AllocError>
    ensures tree { IfOk result (λ tree. tree_of tree ≡ joined Both (option_map tree_of left) (tree_of right)) }
    ensures memory { IsErr result → is_some (option_map tree_of left) ≡ true }
{
    match left {
        Some(left) => FilterTree::conjunction(alloc, left, right),
        None => Ok(right),
    }
}

// Joins the right side to the left side of an `or`, if there is one.
fn disjunction(
    alloc: Global,
    left: Option<FilterTree>,
    right: FilterTree,
) -> Result<FilterTree, AllocError>
    ensures tree { IfOk result (λ tree. tree_of tree ≡ joined Either (option_map tree_of left) (tree_of right)) }
    ensures memory { IsErr result → is_some (option_map tree_of left) ≡ true }
{
    match left {
        Some(left) => FilterTree::disjunction(alloc, left, right),
        None => Ok(right),
    }
}
