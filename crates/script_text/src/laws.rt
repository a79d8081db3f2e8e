//! Laws of the texts of scripts. Each function's contract states a law; its body is empty.
ghost use Rattle.script_text.specs.Laws.{PrintedIsRead, LineIsRead, ReadIsPrintable, ShortFilterFits};
ghost use Rattle.script_text.specs.Examples.{EachKind, NotAgain};

/// The text of a script within the limits reads as that script.
pub fn printed_is_read()
    ensures { PrintedIsRead }
{}

/// The line of a command reads as that command, if a line can state the command and may follow the lines before it.
pub fn line_is_read()
    ensures { LineIsRead }
{}

/// A filter's text reads as that filter if it has at most 256 tokens, its height is at most 32 and it isn't too wide.
pub fn short_filter_fits()
    ensures { ShortFilterFits }
{}

/// Worked scripts: a line of each kind, printed and read; and scripts that aren't read back.
pub fn examples()
    ensures each_kind { EachKind }
    ensures not_again { NotAgain }
{}

/// Only a script within the limits is read back from its text.
pub fn read_is_printable()
    ensures { ReadIsPrintable }
{}
