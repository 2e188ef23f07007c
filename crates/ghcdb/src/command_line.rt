// The command line, read by `clap`.
ghost use Rattle.std.specs.Prelude.{◌≡◌, ◌↔◌, IfOk, IsTrue, codes, false, map, string_bytes};
ghost use Rattle.clap.specs.Words.{found_of};
ghost use Rattle.ghcdb.specs.inner.CommandLine.{AreOptionsOf, AskForAuto, HasOptions, IsGhcdb, IsGivenBy, IsOptionalValue, IsRequiredValue, IsWorkersValue, SaysAuto};

use crate::help::AFTER_HELP;
use crate::settings::{Given, Options, WorkersOption};
use clap::builder::ValueParser;
use clap::{Arg, ArgAction, ArgMatches, Command, Error};
use ghc_pool::Workers;
use std::alloc::{AllocError, Global};

const ABOUT: &str = "Runs, traces and reverses programs of Flat GHC";

const VERSION: &str = "0.1.0";

const FILE_HELP: &str = "The program, a file of Flat GHC clauses";

const QUERY_HELP: &str = "The goals to start from, such as 'append([1],[2],R)'";

const LOAD_HELP: &str = "A history to start from, as the command save writes it";

const SCHEDULE_HELP: &str = "A schedule to play in place of a session";

const WORKERS_HELP: &str = "How many workers make a run, 1 to 64, or auto; one if left out";

fn file_argument<'a>(alloc: Global) -> Arg<'a>
    ensures { IsRequiredValue (codes "FILE") result }
{
    Arg::new(alloc, "FILE")
        .required(true)
        .action(ArgAction::Set)
        .help(FILE_HELP)
}

// A query may begin with a hyphen, as `-1 = X` does.
fn query_argument<'a>(alloc: Global) -> Arg<'a>
    ensures { IsRequiredValue (codes "query") result }
{
    Arg::new(alloc, "query")
        .long("query")
        .value_name("TEXT")
        .required(true)
        .action(ArgAction::Set)
        .allow_hyphen_values(true)
        .help(QUERY_HELP)
}

fn load_argument<'a>(alloc: Global) -> Arg<'a>
    ensures { IsOptionalValue (codes "load") result }
{
    Arg::new(alloc, "load")
        .long("load")
        .value_name("FILE")
        .action(ArgAction::Set)
        .help(LOAD_HELP)
}

fn schedule_argument<'a>(alloc: Global) -> Arg<'a>
    ensures { IsOptionalValue (codes "schedule") result }
{
    Arg::new(alloc, "schedule")
        .long("schedule")
        .value_name("FILE")
        .action(ArgAction::Set)
        .help(SCHEDULE_HELP)
}

fn workers_argument<'a>(alloc: Global, parser: ValueParser<'a>) -> Arg<'a>
    ensures { IsWorkersValue parser.entry result }
{
    Arg::new(alloc, "workers")
        .long("workers")
        .value_name("N")
        .action(ArgAction::Set)
        .value_parser(parser)
        .help(WORKERS_HELP)
}

// The command, with a parser of the value that says how many workers make a run.
fn command<'a>(alloc: Global, workers: ValueParser<'a>) -> Result<Command<'a>, AllocError>
    ensures { IfOk result (IsGhcdb workers.entry) }
{
    let command = Command::new(alloc, "ghcdb")
        .about(ABOUT)
        .version(VERSION)
        .after_help(AFTER_HELP)
        .arg(file_argument(alloc))?
        .arg(query_argument(alloc))?
        .arg(load_argument(alloc))?
        .arg(schedule_argument(alloc))?
        .arg(workers_argument(alloc, workers))?;
    Ok(command)
}

// The options that were found.
fn options_in<'a>(matches: &ArgMatches<'a>) -> Options<'a>
    requires { HasOptions (found_of matches.now) }
    ensures { AreOptionsOf (found_of matches.now) result }
{
    let file = matches.get_str("FILE").unwrap();
    let query = matches.get_str("query").unwrap();
    let load = matches.get_str("load");
    let schedule = matches.get_str("schedule");
    Options {
        file,
        query,
        load,
        schedule,
    }
}

// What the words give where the workers are a number, or nothing is said of them.
fn by_number<'a>(alloc: Global, words: &'a [String]) -> Result<Given<'a>, Error>
    ensures { IfOk result (IsGivenBy (map string_bytes words.now)) }
{
    let command = command(alloc, ValueParser::unsigned(1, 64))?;
    let matches = command.try_get_matches_from(words)?;
    let workers = match matches.get_one::<u32>("workers") {
        Some(count) => Workers::new(count).unwrap(),
        None => Workers::one(),
    };
    let options = options_in(&matches);
    let workers = WorkersOption::Number(workers);
    Ok(Given { options, workers })
}

// What the words give where the workers are `auto`, or else the refusal.
fn by_auto<'a>(alloc: Global, words: &'a [String], refusal: Error) -> Result<Given<'a>, Error>
    ensures { IfOk result (IsGivenBy (map string_bytes words.now)) }
{
    let command = command(alloc, ValueParser::string())?;
    let matches = command.try_get_matches_from(words)?;
    match matches.get_str("workers") {
        Some(text) if text == "auto" => {
            let options = options_in(&matches);
            let workers = WorkersOption::Auto;
            Ok(Given { options, workers })
        }
        _ => Err(refusal),
    }
}

// Whether the word says `--workers auto`: alone, by an equals sign, or as `auto` behind `--workers`.
fn says_auto(behind: bool, word: &str) -> bool
    ensures { IsTrue result ↔ SaysAuto behind word.now }
{
    word == "--workers=auto" || (behind && word == "auto")
}

// Whether the words ask for `auto`.
fn ask_for_auto(words: &[String]) -> bool
    ensures { IsTrue result ↔ AskForAuto false (map string_bytes words.now) }
{
    let mut behind = false;
    for word in words {
        let text = word.as_str();
        if says_auto(behind, text) {
            return true;
        }
        behind = text == "--workers";
    }
    false
}

/// Reads the command line, of which the first word is the program's name. It answers with `clap`'s error to what is no command line of
/// this program, to a call for help or for the version, and where memory is refused. `clap` has no parser of a number or a word. So
/// words that are refused with a number of workers are read once more where they say `--workers auto`.
pub fn options<'a>(alloc: Global, words: &'a [String]) -> Result<Given<'a>, Error>
    ensures { IfOk result (IsGivenBy (map string_bytes words.now)) }
{
    match by_number(alloc, words) {
        Err(refusal) if ask_for_auto(words) => by_auto(alloc, words, refusal),
        given => given,
    }
}
