//! Showing trees: the text is the printed one.
ghost use Rattle.std.specs.Prelude.{Some};
ghost use Rattle.std.specs.Fmt.{DisplaysOnOk};
ghost use Rattle.photo_filter_text.specs.Tree.{Rate, On, tree_of};
ghost use Rattle.photo_filter_text.specs.Printed.{text_of, cmp_text};

use crate::printing::cmp_text;
use crate::{Cmp, FilterTree};
use photo_record::{Day, Rating};
use std::fmt;

impl fmt::Display for Cmp {
    ghost output = { λ cmp. Some (cmp_text cmp) };

    fn fmt<W: fmt::Write>(&self, f: &mut fmt::Formatter<W>) -> fmt::Result {
        f.write_str(cmp_text(*self))
    }
}

impl fmt::Display for FilterTree {
    ghost output = { λ tree. Some (text_of (tree_of tree)) };

    fn fmt<W: fmt::Write>(&self, f: &mut fmt::Formatter<W>) -> fmt::Result {
        match self {
            FilterTree::All => f.write_str("all"),
            FilterTree::Nothing => f.write_str("none"),
            FilterTree::Rate(cmp, rating) => fmt_rating_test(*cmp, *rating, f),
            FilterTree::On(cmp, day) => fmt_day_test(*cmp, *day, f),
            FilterTree::Keyword(word) => write!(f, "keyword {word}"),
            FilterTree::Not(part) => {
                f.write_str("not ")?;
                (**part).fmt(f)
            }
            FilterTree::Both(left, right) => {
                f.write_str("( ")?;
                (**left).fmt(f)?;
                f.write_str(" and ")?;
                (**right).fmt(f)?;
                f.write_str(" )")
            }
            FilterTree::Either(left, right) => {
                f.write_str("( ")?;
                (**left).fmt(f)?;
                f.write_str(" or ")?;
                (**right).fmt(f)?;
                f.write_str(" )")
            }
        }
    }
}

fn fmt_rating_test<W: fmt::Write>(
    cmp: Cmp,
    rating: Rating,
    f: &mut fmt::Formatter<W>,
) -> fmt::Result
    ensures { DisplaysOnOk W.write_str_gives f.old result (Some (text_of (Rate cmp rating))) f.new }
{
    // `value` is called because its contract says that the rating is at most 5, so it is one digit.
    let _value = rating.value();
    write!(f, "rating {cmp} {rating}")
}

fn fmt_day_test<W: fmt::Write>(cmp: Cmp, day: Day, f: &mut fmt::Formatter<W>) -> fmt::Result
    ensures { DisplaysOnOk W.write_str_gives f.old result (Some (text_of (On cmp day))) f.new }
{
    // `number` is called because its contract says that the day is in range.
    let _number = day.number();
    write!(f, "day {cmp} {day}")
}
