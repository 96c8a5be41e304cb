//! The arguments of the program `nsf-threads`.
use crate::args::{Form, Takes, program_named, with_forms};
use crate::scan::word_in;
use crate::{NoArguments, tell};
use clap::error::ErrorKind;
use clap::{ArgMatches, Command, Error};
use std::alloc::{AllocError, Global};
use std::convert::AsStr;
use std::io::Write;

const ABOUT: &str =
    "Lets writers, a builder, a cleaner and a flusher run side by side on a new store of a simulated disk, whose power is cut then, or on the store in a file

Exit status: 0 where all was done and each row was found with its entry; 1 where something was refused or is not so; 2 for bad words";

static FORMS: [Form; 4] = [
    Form {
        name: "writers",
        takes: Takes::Number("N", 1, 8),
        apart_from: None,
        help: "Threads that write, 1 to 8 [default: 4]",
    },
    Form {
        name: "changes",
        takes: Takes::Number("M", 1, 60),
        apart_from: None,
        help: "Transactions of each, 1 to 60 [default: 8]",
    },
    Form {
        name: "watch",
        takes: Takes::Nothing,
        apart_from: None,
        help: "Shows on the error stream how far the builder is",
    },
    Form {
        name: "file",
        takes: Takes::Word("FILE"),
        apart_from: None,
        help: "Works on the store in this file, which `nsf-store new` made, and prints each commit that is safe",
    },
];

/// What the arguments ask for: the path of the store's file, if it is in one, how many threads write, how many
/// transactions each of them makes, and whether the builder's progress is to be shown.
#[derive(Drop)]
pub struct ThreadsArguments {
    pub file: Option<String>,
    pub writers: u8,
    pub changes: u8,
    pub watch: bool,
}

fn command<'a>(alloc: Global) -> Result<Command<'a>, AllocError> {
    let program = program_named(alloc, "nsf-threads", ABOUT);
    with_forms(alloc, program, &FORMS)?.bin_name("nsf-threads")
}

fn given_in(alloc: Global, matches: &ArgMatches<'_>) -> Result<ThreadsArguments, AllocError> {
    Ok(ThreadsArguments {
        file: word_in(alloc, matches, "file")?,
        writers: matches.get_one::<u8>("writers").unwrap_or(4),
        changes: matches.get_one::<u8>("changes").unwrap_or(8),
        watch: matches.get_flag("watch"),
    })
}

// The arguments that the words give, or what clap says of them.
fn arguments_of<S: AsStr>(alloc: Global, words: &[S]) -> Result<ThreadsArguments, Error> {
    let matches = command(alloc)?.try_get_matches_from(words)?;
    let given = given_in(alloc, &matches);
    drop(matches);
    Ok(given?)
}

/// The arguments of `nsf-threads` that the words give, the first of which is the program's own name. Where they are
/// bad, or ask for help or for the version, that is told as by `read`.
pub fn read_threads<S: AsStr, O: Write, E: Write>(
    alloc: Global,
    words: &[S],
    output: &mut O,
    errors: &mut E,
) -> Result<ThreadsArguments, NoArguments> {
    match arguments_of(alloc, words) {
        Ok(arguments) => Ok(arguments),
        Err(error) => match error.kind() {
            ErrorKind::OutOfMemory => Err(NoArguments::NoMemory),
            _ => Err(NoArguments::Told(tell(&error, output, errors))),
        },
    }
}
