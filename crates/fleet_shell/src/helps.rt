//! The texts that help.

/// The end of the program's help.
pub const OVERVIEW: &str =
    "Each line of standard input is a line of a script, as 'photofleet plain --help' tells them, and its
report is told at once. A line with a fault is told with its mend, and isn't taken. The lines begin with
those of FILE, whose reports are told first, or with none.

Lines that no script has:

  where [PICTURE]...  where each picture, or each that is named, is now
  story PICTURE       what happened to a picture, and why devices don't have it
  undo                takes the last line back
  save FILE           writes the lines to a new file
  help                tells these words
  quit                ends the talk, as the end of the input does

Exit status: 0 done, 2 refused words, 3 script fault of FILE, or what can't be read, 4 no memory, 5 output
not written. A line that isn't taken changes no status.

Example:

    fleet_shell my.script";

/// What `help` tells.
pub const WORDS: &str =
    "A line of a script is taken, and its report is told: 'photofleet plain --help' tells such lines.
Lines that no script has:
  where [PICTURE]...  where each picture, or each that is named, is now
  story PICTURE       what happened to a picture, and why devices don't have it
  undo                takes the last line back
  save FILE           writes the lines to a new file
  help                tells these words
  quit                ends the talk, as the end of the input does
";
