//! Printing a tree.
ghost use Rattle.std.specs.Prelude.{◌≡◌, ◌<◌, ◌≤◌, [], ◌∷◌, ◌++◌, string_bytes, IfOk, OnOk};
ghost use Rattle.photo_record.specs.Limits.{max_rating, IsDay};
ghost use Rattle.photo_filter_text.specs.Tree.{Tree, Rate, On, Keyword, tree_of};
ghost use Rattle.photo_filter_text.specs.Tokens.{tokens_of};
ghost use Rattle.photo_filter_text.specs.Grammar.{IsExpr};
ghost use Rattle.photo_filter_text.specs.Printed.{text_of, cmp_text, date_text, digit, two_digits, IsSound};

use crate::{Cmp, FilterTree};
use photo_record::{Day, Rating, Word};
use std::alloc::{AllocError, Global};

/// Prints a filter as `all`, `none`, `rating OP R`, `day OP DATE`, `keyword WORD`, `not X`, `( X and Y )` or `( X or Y )`, with
/// one space between tokens. Its only error is want of memory.
pub fn print(alloc: Global, tree: &FilterTree) -> Result<String, AllocError>
    ensures text { IfOk result (λ text. string_bytes text ≡ text_of (tree_of tree.now)) }

    // The text has that tree in the grammar, and no other.
    ensures tree { IfOk result (λ text. IsExpr (tokens_of (string_bytes text)) (tree_of tree.now)) }
    ensures only { IfOk result (λ text. (other : Tree) → IsExpr (tokens_of (string_bytes text)) other → other ≡ tree_of tree.now) }
{
    let mut text = String::new(alloc);
    push_tree(&mut text, "", tree)?;
    Ok(text)
}

// Appends `front` and the tree's text.
fn push_tree(text: &mut String, front: &str, tree: &FilterTree) -> Result<(), AllocError>
    ensures text { OnOk result (string_bytes text.new ≡ string_bytes text.old ++ (front.now ++ text_of (tree_of tree.now))) }
    ensures sound { OnOk result (IsSound (tree_of tree.now)) }
{
    text.push_str(front)?;
    match tree {
        FilterTree::All => text.push_str("all"),
        FilterTree::Nothing => text.push_str("none"),
        FilterTree::Rate(cmp, rating) => push_rating_test(text, *cmp, *rating),
        FilterTree::On(cmp, day) => push_day_test(text, *cmp, *day),
        FilterTree::Keyword(word) => push_keyword(text, word),
        FilterTree::Not(part) => push_tree(text, "not ", part),
        FilterTree::Both(left, right) => {
            push_tree(text, "( ", left)?;
            push_tree(text, " and ", right)?;
            text.push_str(" )")
        }
        FilterTree::Either(left, right) => {
            push_tree(text, "( ", left)?;
            push_tree(text, " or ", right)?;
            text.push_str(" )")
        }
    }
}

fn push_rating_test(text: &mut String, cmp: Cmp, rating: Rating) -> Result<(), AllocError>
    ensures text { OnOk result (string_bytes text.new ≡ string_bytes text.old ++ text_of (Rate cmp rating)) }
    ensures sound { OnOk result (IsSound (Rate cmp rating)) }
{
    text.push_str("rating ")?;
    text.push_str(cmp_text(cmp))?;
    push_rating(text, rating)
}

fn push_day_test(text: &mut String, cmp: Cmp, day: Day) -> Result<(), AllocError>
    ensures text { OnOk result (string_bytes text.new ≡ string_bytes text.old ++ text_of (On cmp day)) }
    ensures sound { OnOk result (IsSound (On cmp day)) }
{
    text.push_str("day ")?;
    text.push_str(cmp_text(cmp))?;
    text.push_str(" ")?;
    push_date(text, day)
}

fn push_keyword(text: &mut String, word: &Word) -> Result<(), AllocError>
    ensures text { OnOk result (string_bytes text.new ≡ string_bytes text.old ++ text_of (Keyword word.now)) }
    ensures sound { OnOk result (IsSound (Keyword word.now)) }
{
    text.push_str("keyword ")?;
    text.push_str(word.text())
}

pub(crate) fn cmp_text(cmp: Cmp) -> &'static str
    ensures { result.now ≡ cmp_text cmp }
{
    match cmp {
        Cmp::AtLeast => ">=",
        Cmp::AtMost => "<=",
        Cmp::Equal => "=",
    }
}

// Appends a space and the rating.
fn push_rating(text: &mut String, rating: Rating) -> Result<(), AllocError>
    ensures text { OnOk result (string_bytes text.new ≡ string_bytes text.old ++ 32 ∷ digit rating ∷ []) }
    ensures in_range { rating ≤ max_rating }
{
    text.push(' ')?;
    push_digit(text, rating.value())
}

// Appends the date as `YYYY-MM-DD`.
#[tactic(auto, unfolding(crate::specs::Printed::date_text))]
fn push_date(text: &mut String, day: Day) -> Result<(), AllocError>
    ensures text { OnOk result (string_bytes text.new ≡ string_bytes text.old ++ date_text day) }
    ensures in_range { IsDay day }
{
    // `number` is called because its contract says that the day is in range.
    let _number = day.number();
    let year = day.year();
    push_two_digits(text, (year / 100) as u8)?;
    push_two_digits(text, (year % 100) as u8)?;
    text.push('-')?;
    push_two_digits(text, day.month())?;
    text.push('-')?;
    push_two_digits(text, day.day())
}

fn push_two_digits(text: &mut String, n: u8) -> Result<(), AllocError>
    ensures { OnOk result (string_bytes text.new ≡ string_bytes text.old ++ two_digits n) }
{
    push_digit(text, n / 10)?;
    push_digit(text, n % 10)
}

fn push_digit(text: &mut String, n: u8) -> Result<(), AllocError>
    requires { n < 80 }
    ensures { OnOk result (string_bytes text.new ≡ string_bytes text.old ++ digit n ∷ []) }
{
    text.push(char::from(b'0' + n))
}
