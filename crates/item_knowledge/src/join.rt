// The join of two rows of entries.
ghost use Rattle.std.specs.Prelude.{◌≡◌, true, OnOk};
ghost use Rattle.item_knowledge.specs.Tables.{in_order};
ghost use Rattle.item_knowledge.specs.Entries.{joined};
ghost use Rattle.item_knowledge.specs.Excess.{exceeding};
ghost use Rattle.item_knowledge.specs.Rows.{pairs, IsRow};

use crate::pair_cursor::PairCursor;
use crate::search::{SortedPairs, place_near, value_at};
use std::alloc::AllocError;

/// Replaces `out` by a row: the entries of the join of `xs` and `ys` whose bounds are above the star's.
#[inline(always)]
pub(crate) fn join(
    xs: &[u64],
    ys: &[u64],
    star: &[u64],
    out: &mut Vec<u64>,
) -> Result<(), AllocError>
    requires left_row { IsRow xs.now }
    requires right_row { IsRow ys.now }
    requires star_row { IsRow star.now }
    requires left { in_order (pairs xs.now) ≡ true }
    requires right { in_order (pairs ys.now) ≡ true }
    requires star { in_order (pairs star.now) ≡ true }
    ensures row { OnOk result (IsRow out.new.items) }
    ensures entries { OnOk result (pairs out.new.items ≡ exceeding (pairs star.now) (joined (pairs xs.now) (pairs ys.now))) }
{
    out.clear();
    out.reserve(xs.len().saturating_add(ys.len()))?;
    let mut cursor = PairCursor::new();
    let bounds = SortedPairs::Row(star);
    let mut place = 0;
    while let Some((author, n)) = cursor.next_entry(xs, ys) {
        place = place_near(bounds, place, author);
        if value_at(bounds, place, author) < n {
            out.push(author)?;
            out.push(n)?;
        }
    }
    Ok(())
}
