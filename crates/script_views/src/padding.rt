//! The padding of a table's cells on a terminal.
ghost use Rattle.std.specs.Prelude.{◌≡◌, ◌-◌, false, chars};
ghost use Rattle.unicode_width.specs.Width.{str_width};

use unicode_width::UnicodeWidthStr;

/// How many spaces fill the column behind a cell.
pub fn missing(cell: &str, width: usize) -> usize
    ensures { result ≡ width - str_width false (chars cell.now) }
{
    width.saturating_sub(cell.width())
}
