//! The words of the command line, and what they ask for.
use crate::helps::OVERVIEW;
use clap::{Arg, ArgAction, Command};
use std::alloc::{AllocError, Global};
use std::convert::AsStr;

/// The file that the words name, if they name one, or why they are refused. They begin with the program's name.
pub fn file_of<'a, S: AsStr>(
    alloc: Global,
    words: &'a [S],
) -> Result<Option<&'a str>, clap::Error> {
    let mut command = command_line(alloc)?;
    let matches = command.try_get_matches_from_mut(words)?;
    Ok(matches.get_str("FILE"))
}

/// The program's command line.
pub fn command_line<'a>(alloc: Global) -> Result<Command<'a>, AllocError> {
    Command::new(alloc, "fleet_shell")
        .about("Takes a script line by line, and tells each report at once")
        .after_help(OVERVIEW)
        .arg(file_argument(alloc))
}

fn file_argument<'a>(alloc: Global) -> Arg<'a> {
    Arg::new(alloc, "FILE")
        .help("The file with the script to go on from")
        .action(ArgAction::Set)
}
