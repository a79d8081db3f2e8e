//! Laws of alternatives and matching. Each function's contract states a law; its body is empty.
ghost use Rattle.photo_filter_rules.specs.Laws.{FitsWhereMatched, CoversSelects};
ghost use Rattle.photo_filter_rules.specs.Examples.{TheLists, TheWidths, TheRemoved, TheCovers, TheFilters};
ghost use Rattle.photo_filter_rules.specs.Filters.{IsFoundWhereFilter};

/// A tree matches a picture exactly if the picture fits one of the tree's alternatives. It doesn't match exactly if the picture
/// fits one of those under `not`.
pub fn fits_where_matched()
    ensures { FitsWhereMatched }
{}

/// A filter matches every record, with rating and day in range, that a filter which it covers matches.
pub fn covers_selects()
    ensures { CoversSelects }
{}

/// The tree found for a text is the one that the grammar gives. A tree is found for each text that is a filter within the
/// limits and not too wide.
pub fn found_where_filter()
    ensures { IsFoundWhereFilter }
{}

/// Worked trees: their alternatives, that no tree matches a removal, and which tree covers which.
pub fn examples()
    ensures lists { TheLists }
    ensures widths { TheWidths }
    ensures removed { TheRemoved }
    ensures covers { TheCovers }
    ensures filters { TheFilters }
{}
