//! The words of the command line, and what they ask for.
ghost use Rattle.std.specs.Prelude.{◌≡◌, ◌≢◌, false, Some, map, IfOk, IfErr, option_map, option_and_then};
ghost use Rattle.clap.specs.Words.{app_of, found_of, kind_of, rows_of, rule_of, subcommand_rows_of};
ghost use Rattle.photofleet_cli.specs.CommandLine.{program, plain_command, run_command, replay_command, batches_command};
ghost use Rattle.photofleet_cli.specs.CommandLine.{file_argument, workers_argument, order_argument};
ghost use Rattle.photofleet_cli.specs.Asked.{asked_in, numbers_in, order_in, request_shown, texts, work_in, work_of};
ghost use Rattle.photofleet_cli.specs.Asked.{workers_in, AsksRequest, IsRefusal};

use crate::helps::{BATCHES, OVERVIEW, PLAIN, REPLAY, RUN, VERSION};
use clap::error::ErrorKind;
use clap::{Arg, ArgAction, ArgMatches, Command, value_parser};
use fleet_runner::Workers;
use std::alloc::{AllocError, Global};
use std::convert::AsStr;

/// What a command line asks for: a job on the script of a file.
#[derive(Drop)]
pub struct Request<'a> {
    pub file: &'a str,
    pub job: Job,
}

/// What is done with a script.
#[derive(Drop)]
pub enum Job {
    /// Runs it command by command.
    Plain,
    /// Runs it by that many workers.
    Run(Workers),
    /// Runs it in that order.
    Replay(Vec<u32>),
    /// Plans it.
    Batches,
}

/// What the words, which begin with the program's name, ask for, or why they are refused.
pub fn request_of<'a, S: AsStr>(alloc: Global, words: &'a [S]) -> Result<Request<'a>, clap::Error>
    ensures asked { IfOk result (AsksRequest (map S.text words.now)) }
    ensures refusal { IfErr result (λ e. kind_of e ≢ ErrorKind.OutOfMemory → IsRefusal (map S.text words.now) (kind_of e)) }
{
    let mut command = command_line(alloc)?;
    asked(alloc, &mut command, words)
}

// What the words ask for, by the program's command line.
fn asked<'a, S: AsStr>(
    alloc: Global,
    command: &mut Command<'a>,
    words: &'a [S],
) -> Result<Request<'a>, clap::Error>
    requires { app_of command.old ≡ program }
    ensures asked { IfOk result (AsksRequest (map S.text words.now)) }
    ensures refusal { IfErr result (λ e. kind_of e ≢ ErrorKind.OutOfMemory → IsRefusal (map S.text words.now) (kind_of e)) }
{
    let matches = command.try_get_matches_from_mut(words)?;
    match request_in(alloc, &matches)? {
        Some(request) => Ok(request),
        None => Err(command.error(ErrorKind::MissingSubcommand, "a command is missing")?),
    }
}

// What the matches of the command line ask for.
fn request_in<'a>(
    alloc: Global,
    matches: &ArgMatches<'a>,
) -> Result<Option<Request<'a>>, AllocError>
    ensures { IfOk result (λ request. option_map request_shown request ≡ option_and_then asked_in (subcommand_rows_of matches.now)) }
{
    let Some((name, given)) = matches.subcommand() else {
        return Ok(None);
    };
    let Some(file) = given.get_str("FILE") else {
        return Ok(None);
    };
    match job_in(alloc, name, given)? {
        Some(job) => Ok(Some(Request { file, job })),
        None => Ok(None),
    }
}

// What a command with its arguments does with a script.
fn job_in(alloc: Global, name: &str, given: &ArgMatches<'_>) -> Result<Option<Job>, AllocError>
    ensures { IfOk result (λ job. option_map work_of job ≡ work_in name.now (rows_of (found_of given.now))) }
{
    match name {
        "plain" => Ok(Some(Job::Plain)),
        "run" => Ok(workers_in(given).map(Job::Run)),
        "replay" => match order_in(alloc, given)? {
            Some(order) => Ok(Some(Job::Replay(order))),
            None => Ok(None),
        },
        "batches" => Ok(Some(Job::Batches)),
        _ => Ok(None),
    }
}

// The number of workers that `run` got.
fn workers_in(given: &ArgMatches<'_>) -> Option<Workers>
    ensures { result ≡ workers_in (rows_of (found_of given.now)) }
{
    Workers::new(given.get_one::<u16>("workers")?)
}

// The numbers of the order that `replay` got; there may be none.
fn order_in(alloc: Global, given: &ArgMatches<'_>) -> Result<Option<Vec<u32>>, AllocError>
    ensures { IfOk result (λ order. option_map (λ numbers. numbers.items) order ≡ order_in (rows_of (found_of given.now))) }
{
    match given.get_strs("ORDER") {
        Some(words) => numbers_in(alloc, words),
        None => Ok(Some(Vec::new(alloc))),
    }
}

// The numbers that the words write, if each writes one.
fn numbers_in(alloc: Global, words: &[&str]) -> Result<Option<Vec<u32>>, AllocError>
    ensures { IfOk result (λ order. option_map (λ numbers. numbers.items) order ≡ numbers_in (texts words.now)) }
{
    let mut numbers = Vec::new(alloc);
    for word in words {
        let Ok(number) = word.parse::<u32>() else {
            return Ok(None);
        };
        numbers.push(number)?;
    }
    Ok(Some(numbers))
}

/// The program's command line.
pub fn command_line<'a>(alloc: Global) -> Result<Command<'a>, AllocError>
    ensures { IfOk result (λ command. app_of command ≡ program) }
{
    let command = Command::new(alloc, "photofleet")
        .about("Runs scripts of a photo collection")
        .version(VERSION)
        .after_help(OVERVIEW)
        .subcommand_required(true)
        .subcommand(plain_command(alloc)?)?
        .subcommand(run_command(alloc)?)?;
    command
        .subcommand(batches_command(alloc)?)?
        .subcommand(replay_command(alloc)?)
}

// `plain FILE`
fn plain_command<'a>(alloc: Global) -> Result<Command<'a>, AllocError>
    ensures { IfOk result (λ command. app_of command ≡ plain_command) }
{
    Command::new(alloc, "plain")
        .about("Runs a script command by command and prints the reports")
        .after_help(PLAIN)
        .arg(file_argument(alloc))
}

// `run --workers N FILE`
fn run_command<'a>(alloc: Global) -> Result<Command<'a>, AllocError>
    ensures { IfOk result (λ command. app_of command ≡ run_command) }
{
    Command::new(alloc, "run")
        .about("Runs a script by several workers at once and prints the same reports")
        .after_help(RUN)
        .arg(workers_argument(alloc))?
        .arg(file_argument(alloc))
}

// `batches FILE`
fn batches_command<'a>(alloc: Global) -> Result<Command<'a>, AllocError>
    ensures { IfOk result (λ command. app_of command ≡ batches_command) }
{
    Command::new(alloc, "batches")
        .about("Tells which commands of a script can run at once")
        .after_help(BATCHES)
        .arg(file_argument(alloc))
}

// `replay FILE ORDER...`
fn replay_command<'a>(alloc: Global) -> Result<Command<'a>, AllocError>
    ensures { IfOk result (λ command. app_of command ≡ replay_command) }
{
    Command::new(alloc, "replay")
        .about("Runs a script in another lawful order and prints the same reports")
        .after_help(REPLAY)
        .arg(file_argument(alloc))?
        .arg(order_argument(alloc))
}

fn workers_argument<'a>(alloc: Global) -> Arg<'a>
    ensures rule { rule_of result ≡ workers_argument }
    ensures own { result.global ≡ false }
{
    Arg::new(alloc, "workers")
        .long("workers")
        .value_name("N")
        .help("How many workers run at most, 1 to 256")
        .required(true)
        .value_parser(value_parser!(u16).range(1..=256))
        .action(ArgAction::Set)
}

fn file_argument<'a>(alloc: Global) -> Arg<'a>
    ensures rule { rule_of result ≡ file_argument }
    ensures own { result.global ≡ false }
{
    Arg::new(alloc, "FILE")
        .help("The file with the script")
        .required(true)
        .action(ArgAction::Set)
}

// The order is one argument with many values, since an occurrence for each number would cost more.
fn order_argument<'a>(alloc: Global) -> Arg<'a>
    ensures rule { rule_of result ≡ order_argument }
    ensures own { result.global ≡ false }
{
    Arg::new(alloc, "ORDER")
        .help("The numbers of all commands, in the order in which they are to run")
        .num_args(0..)
        .value_parser(value_parser!(u32).range(1..=100_000))
        .action(ArgAction::Append)
}
