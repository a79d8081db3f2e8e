//! What the helps end with.

/// The end of the program's help.
pub const OVERVIEW: &str =
    "Scripts are those of 'photofleet', whose 'photofleet plain --help' tells their lines.

    fleet_view where my.script            a table: a line for each picture, a column for each device
    fleet_view where my.script 3 7        the same of the pictures 3 and 7
    fleet_view story my.script 3          what happened to picture 3, and why devices don't have it
    fleet_view page my.script > my.html   the run as a page to step through, for a browser
    fleet_view chart my.script > my.svg   the run as a picture, for a browser
    fleet_view fault my.script            where the script's fault is, and how it is mended
    fleet_view where - < my.script        each of them takes - for standard input

Exit status: 0 done, 2 refused words, 3 script fault, 4 no memory, 5 output not written.";

/// The end of the help of `where`.
pub const WHERE: &str =
    "The script is run command by command. In a device's column stands of each current version

  V      it is in the device's store
  [V]    it waits in the device's out until another device takes it
  ~V     the device knows of it and doesn't hold it
  -V     the device doesn't know of it

and V* or [V]* of a version that the device holds and that is superseded. Two versions that are
current are in conflict, and have ! between them.

Below stand the versions that devices only know, with their records and those devices' filters, which
don't select them; the pictures in conflict; and each pull that would bring its target a version: one
that its filter selects, or one that waits in the source's out, which stands in brackets. What a pull
takes and is handed is counted of the pictures that are asked for.

With --at N it is told where the pictures are after the first N commands. With --width N a table that
is wider becomes several, as in 'fleet_view where --width 80 my.script'.

Exit status: 0 done, 2 refused words, 3 script fault, 4 no memory, 5 output not written.";

/// The end of the help of `story`.
pub const STORY: &str =
    "The script is run command by command. Each thing that happens to a version of the picture has a line
with the command's number and the device: it is made, in the store or in the out; taken by a pull from
the source's store, or handed over by its out; told of or learned of without its contents; given up,
with the version that supersedes it; moved between store and out by another filter; or forgotten.

Below stands for each device that lacks a current version why: it doesn't know of it, or its filter
doesn't select it. What the device held last is told too, where it holds nothing of the picture now.

Exit status: 0 done, 2 refused words, 3 script fault, 4 no memory, 5 output not written.";

/// The end of the help of `page`.
pub const PAGE: &str =
    "One HTML file that needs no network: the chart, the command and its report, and each device after it
with its filter, its store, its out and what it knows. Rows that came with the command are green, those
that left with it red. A click on a picture's number follows it through the run.

Left and right go one command back and on, Home before the first and End to the last; / asks for a
picture, n and p go to the next and the previous command that did something to it, Esc stops following. The page's
address keeps the command and the picture.

Exit status: 0 done, 2 refused words, 3 script fault, 4 no memory, 5 output not written.";

/// The end of the help of `chart`.
pub const CHART: &str =
    "A lane for each device, with its filter; time runs from left to right, a column for each command. A
dot is a version that was made, under its picture's number: filled in the store, hollow in the out.
An arrow is a pull, with what was taken (t), handed over (h) and dropped (d). A cross is a refused
command, a square another filter, a triangle a conflict, which lasts as long as the broad band.
Each mark tells more where the mouse rests on it: a pull which versions it moved, those from an out in
brackets, and a refused command why. Above 500 columns there are no texts in the lanes.

Exit status: 0 done, 2 refused words, 3 script fault, 4 no memory, 5 output not written.";

/// The end of the help of `fault`.
pub const FAULT: &str =
    "The fault is told as 'photofleet' tells it, on standard output. Of a line's fault follow the line, a
caret under what is wrong, what may stand there, what is known of the cause, and how it is mended. Of a
script without a fault follows a remark on what is rarely meant, as one word with ; in it; or, where an
order of its commands is given that 'photofleet replay' refuses, which number is wrong, and why.

Exit status: 0 no fault, 2 refused words, 3 a fault, which is told, 4 no memory, 5 output not written.";
