//! What the words of the programs `nsf-replay`, `nsf-threads` and `nsf-store` ask for.
//!
//! Proved: `read` answers what the words ask for (`asked`), each number in its range (`in_range`). Help and faults come
//! only where the words have them, with their status (`none`). What words ask for is said in the terms of `clap`'s own
//! contract. Only tested: the texts of help and of faults, and what the words of `nsf-store` and `nsf-threads` ask for.
#![tactic(auto)]

mod args;
mod load;
mod scan;
mod size;
mod store;
mod threads;
mod verbs;

ghost use Rattle.std.specs.Prelude.{◌≡◌, ◌⊎◌, ◌≤◌, false, map, IfErr, IfOk, OnOk};
ghost use Rattle.clap.specs.Words.{app_of, found_of, kind_of, rows_of, rule_of, with_rule};
ghost use Rattle.program_arguments.specs.CommandLine.{Ask, AreInRange, FailBy, IsCommandLine, fate_in, option_of};
ghost use Rattle.program_arguments.specs.Words.{IsTold, Tells};

use crate::args::{numbers, program_named};
use clap::builder::ValueParser;
use clap::error::ErrorKind;
use clap::{Arg, ArgMatches, Command, Error};
pub use load::LoadArguments;
use program_values::{Arguments, FATES, Options, fate_named};
use records::{ENTRIES_MAX, ENTRIES_MIN, LOG_SLOTS_MAX, LOG_SLOTS_MIN, PAGES_MAX};
pub use scan::ScanArguments;
use sector_device::Fate;
use std::alloc::{AllocError, Global};
use std::convert::AsStr;
use std::io::Write;
pub use store::{Asked, Build, Export, Order, Serving, Size, Verb, read_asked};
pub use threads::{ThreadsArguments, read_threads};

/// The version of the programs.
pub const VERSION: &str = "0.2.0";

/// The most sectors that a disk may be given.
pub const SECTORS_MAX: u32 = 100_000;

const ABOUT: &str =
    "Runs a script of commands on a store of a simulated disk, and prints each answer; with --crash-map [--svg FILE], what a stop at each write and sync leaves";

const PAGES_HELP: &str = "Pages of the table, 1 to 256 [default: 1]";

const ENTRIES_HELP: &str = "Places for entries of the index, 64 to 65536 [default: 64]";

const SLOTS_HELP: &str = "Slots of each log, 4 to 256 [default: 4]";

const SECTORS_HELP: &str = "Sectors of the disk, 0 to 100000 [default: as many as the store needs]";

const STOP_HELP: &str = "The write or sync that fails with a crash, 1 to 4294967295";

const FATE_HELP: &str = "What becomes of unsynced sectors in that crash [default: old]";

/// Why there are no arguments.
#[derive(Clone, Copy)]
pub enum NoArguments {
    /// There was no memory for them.
    NoMemory,
    /// What there is to say in their place was said, and this is the program's status.
    Told(u8),
}

// The option `--name`, with one value, and what help says of it.
fn option_named<'a>(
    alloc: Global,
    name: &'a str,
    value: &'a str,
    takes: ValueParser<'a>,
    help: &'a str,
) -> Arg<'a>
    ensures rule { rule_of result ≡ option_of name.entry.now takes.entry }
    ensures local { result.global ≡ false }
{
    Arg::new(alloc, name)
        .long(name)
        .value_name(value)
        .value_parser(takes)
        .help(help)
}

// The command line with one option more, `--name`, with one value.
fn with_option<'a>(
    alloc: Global,
    all: Command<'a>,
    name: &'a str,
    value: &'a str,
    takes: ValueParser<'a>,
    help: &'a str,
) -> Result<Command<'a>, AllocError>
    ensures { IfOk result (λ r. app_of r ≡ with_rule (app_of all.entry) (option_of name.entry.now takes.entry)) }
{
    all.arg(option_named(alloc, name, value, takes, help))
}

// The command line, with the ranges of its numbers.
fn command<'a>(alloc: Global) -> Result<Command<'a>, AllocError>
    ensures { IfOk result (λ command. IsCommandLine (app_of command)) }
{
    let pages = numbers(1, i64::from(PAGES_MAX));
    let entries = numbers(i64::from(ENTRIES_MIN), i64::from(ENTRIES_MAX));
    let slots = numbers(i64::from(LOG_SLOTS_MIN), i64::from(LOG_SLOTS_MAX));
    let sectors = numbers(0, i64::from(SECTORS_MAX));
    let stop = numbers(1, i64::from(u32::MAX));
    let fate = ValueParser::from(FATES.as_slice());
    let all = program_named(alloc, "nsf-replay", ABOUT);
    let all = with_option(alloc, all, "pages", "P", pages, PAGES_HELP)?;
    let all = with_option(alloc, all, "entries", "E", entries, ENTRIES_HELP)?;
    let all = with_option(alloc, all, "slots", "S", slots, SLOTS_HELP)?;
    let all = with_option(alloc, all, "sectors", "N", sectors, SECTORS_HELP)?;
    let all = with_option(alloc, all, "stop", "K", stop, STOP_HELP)?;
    let all = with_option(alloc, all, "fate", "F", fate, FATE_HELP)?;
    all.bin_name("nsf-replay")
}

// The fate that was given, where it was.
fn fate_found(matches: &ArgMatches<'_>) -> Option<Fate>
    ensures { result ≡ fate_in (rows_of (found_of matches.now)) }
{
    fate_named(matches.get_str("fate")?)
}

// The arguments that the words give, or what clap says of them.
fn arguments_of<S: AsStr>(alloc: Global, words: &[S]) -> Result<Arguments, Error>
    ensures asked { IfOk result (Ask (map S.text words.now)) }
    ensures in_range { IfOk result AreInRange }
    ensures fault { IfErr result (λ error. (kind_of error ≡ ErrorKind.OutOfMemory)
        ⊎ FailBy (map S.text words.now) (kind_of error)) }
{
    let matches = command(alloc)?.try_get_matches_from(words)?;
    let given = Options {
        pages: matches.get_one::<u32>("pages"),
        entries: matches.get_one::<u32>("entries"),
        slots: matches.get_one::<u32>("slots"),
        sectors: matches.get_one::<u32>("sectors"),
        stop: matches.get_one::<u32>("stop"),
        fate: fate_found(&matches),
    };
    Ok(given.with_defaults())
}

// Prints what was asked for, and answers the program's status.
fn print<O: Write>(error: &Error, output: &mut O) -> u8
    ensures { result ≤ 1 }
{
    match write!(output, "{error}") {
        Ok(()) => 0,
        Err(_) => 1,
    }
}

// Prints what clap says, and answers the program's status.
fn tell<O: Write, E: Write>(error: &Error, output: &mut O, errors: &mut E) -> u8
    ensures { IsTold (kind_of error.now) result output.old output.new errors.old errors.new }
{
    match error.kind() {
        ErrorKind::DisplayHelp => print(error, output),
        ErrorKind::DisplayVersion => print(error, output),
        _ => {
            let _ = write!(errors, "{error}");
            2
        }
    }
}

/// The arguments that the words give, the first of which is the program's own name. Where they are bad, the error
/// stream says why, and the status is 2. Where they ask for help or for the version, the output has it, and the status
/// is 0, or 1 where it can't be written.
pub fn read<S: AsStr, O: Write, E: Write>(
    alloc: Global,
    words: &[S],
    output: &mut O,
    errors: &mut E,
) -> Result<Arguments, NoArguments>
    ensures asked { IfOk result (Ask (map S.text words.now)) }
    ensures in_range { IfOk result AreInRange }
    ensures output { OnOk result (output.new ≡ output.old) }
    ensures errors { OnOk result (errors.new ≡ errors.old) }
    ensures none { IfErr result (λ none.
        Tells (map S.text words.now) none output.old output.new errors.old errors.new) }
{
    match arguments_of(alloc, words) {
        Ok(arguments) => Ok(arguments),
        Err(error) => match error.kind() {
            ErrorKind::OutOfMemory => Err(NoArguments::NoMemory),
            _ => Err(NoArguments::Told(tell(&error, output, errors))),
        },
    }
}
