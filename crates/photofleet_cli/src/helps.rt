//! The last parts of the help texts, and the version.

/// The version of the program: of its command line, its formats and its texts.
pub const VERSION: &str = "1.0.0";

/// The last part of the program's help.
pub const OVERVIEW: &str =
    "A script declares the devices of a household, each with what it is to keep, and then
says what happens. Two lines of one:

    device phone all
    new phone 1 5 2026-07-01 beach,family

A file with a script is run by

    photofleet plain FILE

and 'photofleet plain --help' tells all lines. By four workers at once, to the same reports, by

    photofleet run --workers 4 FILE

Which of its commands can run at once is told by

    photofleet batches FILE

and 'photofleet replay FILE ORDER...' runs them in another order, to the same reports. The FILE '-'
is standard input.";

/// The last part of the help of `plain`.
pub const PLAIN: &str = "Lines of a script, those of devices first:
  device NAME FILTER              a device, and what it is to keep
  new DEV PIC RATING DATE WORDS   the first version of a picture, made on a device
  edit DEV PIC RATING DATE WORDS  a further version of a picture that the device holds
  remove DEV PIC                  a version that removes a picture that the device holds
  pull TARGET SOURCE              the first device takes and learns from the second
  narrow DEV FILTER               the device is to keep less from now on
  refilter DEV FILTER             the device gets any other filter, and forgets what it doesn't hold
  preview TARGET SOURCE           what a pull of the first device from the second would move
  list DEV                        what the device holds
  conflicts DEV                   the pictures of which it holds several versions
  knowledge DEV                   the versions that it knows
  knows DEV PIC VERSION           whether it knows that version of the picture
  # TEXT                          nothing: it is for the reader alone

NAME      a letter from a to z, and up to 15 such letters and digits
DEV       a declared name, and so are TARGET and SOURCE
PIC       a number from 1 to 999999999, another one for each 'new'
RATING    a digit from 0 to 5
DATE      YYYY-MM-DD
WORDS     words with commas between them and no spaces, or - for none
VERSION   NAME:N, the device's Nth version before any refilter, or NAME.E:N, the Nth after its Eth
FILTER    tests joined by 'and', 'or' and 'not', with round brackets. A test is all, none,
          rating OP 4, day OP 2026-12-31 or keyword beach, where OP is >=, <= or =

Exit status: 0 done, 2 refused words, 3 script fault, 4 no memory, 5 output not written.

Example: a phone's picture comes to a frame that shows good ones.

    device phone all
    device hall rating >= 4
    new phone 1 5 2026-07-01 beach,family
    pull hall phone
    list hall

Written to the file my.script, it is run by 'photofleet plain my.script'.";

/// The last part of the help of `run`.
pub const RUN: &str =
    "The first worker is the calling thread, each other one a thread of its own. The batches, which
'photofleet batches FILE' prints, run one after another, and of each batch the commands are dealt
to the workers in turn.

The reports are those of 'photofleet plain FILE', however many workers there are, in the order of
the commands' numbers. They are written when all commands have run.

Exit status: 0 done, 2 refused words, 3 script fault, 4 no memory or no thread, 5 output not
written.

Example: two devices take pictures at once, and then a server collects them.

    device phone all
    device camera all
    device server all
    new phone 1 5 2026-07-01 beach
    new camera 2 4 2026-07-01 -
    pull server phone
    pull server camera
    list server

Written to the file my.script, it is run by 'photofleet run --workers 2 my.script'.";

/// The last part of the help of `batches`.
pub const BATCHES: &str =
    "A command works on the devices that it names, but for the one in a VERSION. Commands of one
batch work on no common device, so they can run at once. The batches run one after another.

For each command a line is printed with its number, counted from 1 without the device lines, with
its batch, and with the command that it goes after: the last one of the batch just below that works
on a device of its own, or - for none. The last line has the number of batches.

Exit status: 0 done, 2 refused words, 3 script fault, 4 no memory, 5 output not written.

Example: two devices take pictures, and then a server collects them.

    device phone all
    device camera all
    device server all
    new phone 1 5 2026-07-01 beach
    new camera 2 4 2026-07-01 -
    pull server phone
    pull server camera
    list phone

Written to the file my.script, it is planned by 'photofleet batches my.script':

      1 batch 0 after -
      2 batch 0 after -
      3 batch 1 after 1
      4 batch 2 after 3
      5 batch 2 after 3
      batches 3";

/// The last part of the help of `replay`.
pub const REPLAY: &str =
    "Commands are numbered from 1, without the device lines. An order is lawful where it has the number
of each command of the script once, and no other number, and where of two commands that work on a
common device the one with the smaller number comes first. A command works on the devices that it
names, but for the one in a VERSION.

The reports are those of 'photofleet plain FILE', in the order of the commands' numbers. Of an
order that is not lawful nothing is run.

Exit status: 0 done, 2 refused words, 3 script fault, 4 no memory or no lawful order, 5 output not
written.

Example: what happens on the camera runs first.

    device phone all
    device camera all
    device server all
    new phone 1 5 2026-07-01 beach
    new camera 2 4 2026-07-01 -
    pull server phone
    list camera

Written to the file my.script, it is run by 'photofleet replay my.script 2 4 1 3'.";
