//! Reading a filter, with its faults in order.
ghost use Rattle.std.specs.Prelude.{◌≡◌, IfOk, IfErr, MatchResult, Ok};
ghost use Rattle.photo_filter_text.specs.Tree.{Tree, tree_of};
ghost use Rattle.photo_filter_text.specs.Tokens.{tokens_of};
ghost use Rattle.photo_filter_text.specs.Grammar.{IsExpr};
ghost use Rattle.photo_filter_text.specs.Fault.{IsFilter, IsFault, IsRoomy};
ghost use Rattle.photo_filter_text.specs.Steps.{start, run, state_of};
ghost use Rattle.photo_filter_text.specs.declared.fault.FilterFault.TheVariants.{NoMemory};

use crate::reader::{Reader, Refusal};
use crate::tokens::{MAX_TOKENS, count_tokens, next_token};
use crate::{FilterFault, FilterTree};
use std::alloc::Global;

// The greatest height of a filter's tree.
const MAX_HEIGHT: u32 = 32;

/// Reads a filter.
///
/// Spaces separate the tokens, and each bracket is a token. `Ok` has the tree that the grammar gives the tokens. Otherwise the
/// error is the first fault in this order: `Empty`; `TooManyTokens`; `Unexpected` or `BadWord`, at the first token up to which
/// the tokens begin no filter; `EndsEarly`; `TooDeep`. `NoMemory` comes only where neither of the first two holds and the
/// reader asks for memory: at an opening bracket, at the token that ends the factor of a `not` or an `and`, where the term of
/// an `or` ends, and in the place of a word. It stands in place of later faults, never of an earlier one.
pub fn read(alloc: Global, text: &str) -> Result<FilterTree, FilterFault>
    ensures filter { IfOk result (λ tree. IsFilter (tokens_of text.now) (tree_of tree)) }
    ensures fault { IfErr result (IsFault (tokens_of text.now)) }

    // Every filter within the limits is read, unless memory is refused.
    ensures accepted { (tree : Tree) → IsFilter (tokens_of text.now) tree
        → MatchResult result (λ found. tree_of found ≡ tree) (λ fault. fault ≡ NoMemory) }
{
    let count = count_tokens(text);
    if count == 0 {
        return Err(FilterFault::Empty);
    }
    if count > MAX_TOKENS {
        return Err(FilterFault::TooManyTokens);
    }
    let tree = read_tree(alloc, text)?;
    if !tree.height_is_at_most(MAX_HEIGHT) {
        return Err(FilterFault::TooDeep);
    }
    Ok(tree)
}

// The tree of the tokens, of any height.
fn read_tree(alloc: Global, text: &str) -> Result<FilterTree, FilterFault>
    requires { IsRoomy (tokens_of text.now) }
    ensures tree { IfOk result (λ tree. IsExpr (tokens_of text.now) (tree_of tree)) }
    ensures fault { IfErr result (IsFault (tokens_of text.now)) }
{
    let reader = take_all(alloc, text)?;
    match reader.finish() {
        Ok(Some(tree)) => Ok(tree),
        Ok(None) => Err(FilterFault::EndsEarly),
        Err(_) => Err(FilterFault::NoMemory),
    }
}

// The reader after all tokens.
fn take_all(alloc: Global, text: &str) -> Result<Reader, FilterFault>
    requires { IsRoomy (tokens_of text.now) }
    ensures taken { IfOk result (λ reader. run start (tokens_of text.now) ≡ Ok (state_of reader)) }
    ensures fault { IfErr result (IsFault (tokens_of text.now)) }
{
    let mut reader = Reader::new(alloc);
    let mut rest = text;
    let mut number = 0;
    while let Some((token, more)) = next_token(rest) {
        number += 1;
        reader = match reader.take(token) {
            Ok(next) => next,
            Err(Refusal::Unexpected) => return Err(FilterFault::Unexpected(number)),
            Err(Refusal::BadWord) => return Err(FilterFault::BadWord),
            Err(Refusal::NoMemory) => return Err(FilterFault::NoMemory),
        };
        rest = more;
    }
    Ok(reader)
}
