//! The words of the command line, and what they ask for.
use crate::helps::{CHART, FAULT, OVERVIEW, PAGE, STORY, WHERE};
use clap::error::ErrorKind;
use clap::{Arg, ArgAction, ArgMatches, Command, value_parser};
use script_pages::Columns;
use script_views::Wanted;
use std::alloc::{AllocError, Global};
use std::convert::AsStr;

/// What a command line asks for: a view of the script of a file.
#[derive(Drop)]
pub struct Request<'a> {
    pub file: &'a str,
    pub view: View,
}

impl Request<'_> {
    /// What the script is called.
    pub fn name(&self) -> &str {
        if self.file == "-" {
            "standard input"
        } else {
            self.file
        }
    }
}

/// What is shown of a script.
#[derive(Drop)]
pub enum View {
    /// Where pictures are.
    Where(Wanted),
    /// What happened to a picture.
    Story(u32),
    /// Its run as a page.
    Page,
    /// A chart of its run.
    Chart(Columns),
    /// What is wrong with it, or with that order of its commands where one is given.
    Fault(Vec<u32>),
}

/// What the words ask for, which begin with the program's name, or why they are refused.
pub fn request_of<'a, S: AsStr>(alloc: Global, words: &'a [S]) -> Result<Request<'a>, clap::Error> {
    let mut command = command_line(alloc)?;
    asked(alloc, &mut command, words)
}

// What the words ask of the program's command line.
fn asked<'a, S: AsStr>(
    alloc: Global,
    command: &mut Command<'a>,
    words: &'a [S],
) -> Result<Request<'a>, clap::Error> {
    let matches = command.try_get_matches_from_mut(words)?;
    match request_in(alloc, &matches)? {
        Some(request) => Ok(request),
        None => Err(command.error(ErrorKind::MissingSubcommand, "a command is missing")?),
    }
}

// What was found on the command line.
fn request_in<'a>(
    alloc: Global,
    matches: &ArgMatches<'a>,
) -> Result<Option<Request<'a>>, AllocError> {
    let Some((name, given)) = matches.subcommand() else {
        return Ok(None);
    };
    let Some(file) = given.get_str("FILE") else {
        return Ok(None);
    };
    match view_in(alloc, name, given)? {
        Some(view) => Ok(Some(Request { file, view })),
        None => Ok(None),
    }
}

// What a command with its arguments shows.
fn view_in(alloc: Global, name: &str, given: &ArgMatches<'_>) -> Result<Option<View>, AllocError> {
    match name {
        "where" => match numbers_in(alloc, given, "PICTURE")? {
            Some(pictures) => Ok(Some(View::Where(Wanted {
                pictures,
                commands: number_in(given, "at").unwrap_or(u32::MAX),
                width: number_in(given, "width").unwrap_or(0) as usize,
            }))),
            None => Ok(None),
        },
        "story" => match number_in(given, "PICTURE") {
            Some(picture) => Ok(Some(View::Story(picture))),
            None => Ok(None),
        },
        "page" => Ok(Some(View::Page)),
        "chart" => {
            let columns = if given.get_flag("batches") {
                Columns::Batches
            } else {
                Columns::Commands
            };
            Ok(Some(View::Chart(columns)))
        }
        "fault" => match numbers_in(alloc, given, "ORDER")? {
            Some(order) => Ok(Some(View::Fault(order))),
            None => Ok(None),
        },
        _ => Ok(None),
    }
}

// The number of an argument, if it is there.
fn number_in(given: &ArgMatches<'_>, argument: &str) -> Option<u32> {
    given.get_str(argument)?.parse::<u32>().ok()
}

// The numbers of an argument, perhaps none.
fn numbers_in(
    alloc: Global,
    given: &ArgMatches<'_>,
    argument: &str,
) -> Result<Option<Vec<u32>>, AllocError> {
    let mut numbers = Vec::new(alloc);
    let words: &[&str] = given.get_strs(argument).unwrap_or(&[]);
    for word in words {
        let Ok(number) = word.parse::<u32>() else {
            return Ok(None);
        };
        numbers.push(number)?;
    }
    Ok(Some(numbers))
}

/// The program's command line.
pub fn command_line<'a>(alloc: Global) -> Result<Command<'a>, AllocError> {
    let mut commands = Vec::new(alloc);
    push_commands(alloc, &mut commands)?;
    Command::new(alloc, "fleet_view")
        .about(
            "Shows where a script's pictures are, their story, its run as a page or a chart, or its fault",
        )
        .after_help(OVERVIEW)
        .subcommand_required(true)
        .subcommands(commands)
}

fn push_commands<'a>(alloc: Global, commands: &mut Vec<Command<'a>>) -> Result<(), AllocError> {
    push_command(commands, where_command(alloc))?;
    push_command(commands, story_command(alloc))?;
    push_command(commands, page_command(alloc))?;
    push_command(commands, chart_command(alloc))?;
    push_command(commands, fault_command(alloc))
}

fn push_command<'a>(
    commands: &mut Vec<Command<'a>>,
    command: Result<Command<'a>, AllocError>,
) -> Result<(), AllocError> {
    commands.push(command?)?;
    Ok(())
}

// `where [--at N] [--width N] FILE [PICTURE]...`
fn where_command<'a>(alloc: Global) -> Result<Command<'a>, AllocError> {
    Command::new(alloc, "where")
        .about("Tells where each picture is once the script has run")
        .after_help(WHERE)
        .arg(number_argument(alloc, "at", "After the first N commands, and not after all"))?
        .arg(number_argument(
            alloc,
            "width",
            "In tables of at most N columns of the terminal",
        ))?
        .arg(file_argument(alloc))?
        .arg(picture_argument(alloc))
}

// `story FILE PICTURE`
fn story_command<'a>(alloc: Global) -> Result<Command<'a>, AllocError> {
    Command::new(alloc, "story")
        .about("Tells what happened to a picture, and why devices don't have it")
        .after_help(STORY)
        .arg(file_argument(alloc))?
        .arg(one_picture_argument(alloc))
}

// `page FILE`
fn page_command<'a>(alloc: Global) -> Result<Command<'a>, AllocError> {
    Command::new(alloc, "page")
        .about("Writes the script's run as an HTML page to step through")
        .after_help(PAGE)
        .arg(file_argument(alloc))
}

// `chart [--batches] FILE`
fn chart_command<'a>(alloc: Global) -> Result<Command<'a>, AllocError> {
    Command::new(alloc, "chart")
        .about("Draws the script's run as an SVG")
        .after_help(CHART)
        .arg(batches_argument(alloc))?
        .arg(file_argument(alloc))
}

// `fault FILE [ORDER]...`
fn fault_command<'a>(alloc: Global) -> Result<Command<'a>, AllocError> {
    Command::new(alloc, "fault")
        .about("Tells what is wrong with a script, where, and how it is mended")
        .after_help(FAULT)
        .arg(file_argument(alloc))?
        .arg(order_argument(alloc))
}

fn file_argument<'a>(alloc: Global) -> Arg<'a> {
    Arg::new(alloc, "FILE")
        .help("The file with the script, or - for standard input")
        .required(true)
        .action(ArgAction::Set)
}

fn picture_argument<'a>(alloc: Global) -> Arg<'a> {
    Arg::new(alloc, "PICTURE")
        .help("The numbers of the pictures that are asked for; all where none is said")
        .num_args(0..)
        .value_parser(value_parser!(u32).range(1..=999_999_999))
        .action(ArgAction::Append)
}

fn one_picture_argument<'a>(alloc: Global) -> Arg<'a> {
    Arg::new(alloc, "PICTURE")
        .help("The picture's number")
        .required(true)
        .value_parser(value_parser!(u32).range(1..=999_999_999))
        .action(ArgAction::Set)
}

fn number_argument<'a>(alloc: Global, name: &'a str, help: &'a str) -> Arg<'a> {
    Arg::new(alloc, name)
        .long(name)
        .value_name("N")
        .help(help)
        .value_parser(value_parser!(u32).range(0..=999_999_999))
        .action(ArgAction::Set)
}

fn order_argument<'a>(alloc: Global) -> Arg<'a> {
    Arg::new(alloc, "ORDER")
        .help("The numbers of the script's commands in the order of a 'photofleet replay'")
        .num_args(0..)
        .value_parser(value_parser!(u32).range(0..=999_999_999))
        .action(ArgAction::Append)
}

fn batches_argument<'a>(alloc: Global) -> Arg<'a> {
    Arg::new(alloc, "batches")
        .long("batches")
        .help("A band for each batch, the commands that can run at once, and not for each command")
        .action(ArgAction::SetTrue)
}
