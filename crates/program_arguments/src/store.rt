//! What the words of the program `nsf-store` ask for.
use crate::load::{LoadArguments, load_of};
use crate::scan::{ScanArguments, scan_of};
use crate::size::{PAGES, entries_for, pages_for, slots_for};
use crate::tell;
use crate::verbs::command;
use clap::error::ErrorKind;
use clap::{ArgMatches, Error};
use std::alloc::{AllocError, Global};
use std::convert::AsStr;
use std::io::Write;

/// How an index is to be built.
#[derive(Clone, Copy)]
pub struct Build {
    /// Whether it is dropped before, if there is one, and created.
    pub is_anew: bool,
    /// Whether the count of attempts is shown.
    pub shows_progress: bool,
    /// How many seconds it waits for a file that another process has open.
    pub wait: u32,
}

/// How the commands of the input are to be served.
#[derive(Clone, Copy)]
pub struct Serving {
    /// Whether each commit is flushed before its answer.
    pub is_durable: bool,
    /// Whether the input ends at the first command that is refused.
    pub stops_on_refusal: bool,
    /// Whether a prompt is printed before each line.
    pub prompts: bool,
    /// How many seconds it waits for a file that another process has open.
    pub wait: u32,
}

/// In which order rows are exported.
#[derive(Clone, Copy)]
pub enum Order {
    /// That of their places.
    Place,
    /// That of the index.
    Key,
}

/// How rows are exported.
#[derive(Clone, Copy)]
pub struct Export {
    pub order: Order,
    /// Whether they are printed as objects of JSON, a line each.
    pub is_json: bool,
}

/// How large a store is to be.
#[derive(Clone, Copy)]
pub struct Size {
    pub pages: u32,
    pub entries: u32,
    pub slots: u32,
}

/// What is to be done with the file.
#[derive(Clone, Copy)]
pub enum Verb {
    /// A store of this size is made in it, a file of blocks where that is wanted.
    New { size: Size, has_blocks: bool },
    /// The commands of the input are served.
    Run(Serving),
    /// It is read, and what is wrong with it is said.
    Check,
    /// Its rows and entries are printed.
    Dump,
    /// What it is and how far it has come is printed.
    Stat,
    /// The index is built to its end, or dropped, created and built anew.
    Build(Build),
    /// Its rows are printed.
    Export(Export),
}

/// What is asked for of `nsf-store`.
#[derive(Drop)]
pub enum Asked {
    /// Something is done with the file of this path.
    Of {
        path: String,
        verb: Verb,
    },
    /// A range of the index in the file of this path is shown.
    Scan {
        path: String,
        asked: ScanArguments,
    },
    /// Rows of another file are loaded into the store in the file of this path.
    Load {
        path: String,
        asked: LoadArguments,
    },
    /// What can still be read of the rows of a damaged store is put into a new file, a file of blocks where that is
    /// wanted.
    Salvage {
        old: String,
        new: String,
        has_blocks: bool,
        /// How large that was made, where its own first sector is not to say so.
        size: Option<Size>,
    },
    /// The store in a file is copied to a new file of the same kind.
    Backup {
        old: String,
        new: String,
    },
    /// The store in a file is moved to a new file, a file of blocks where that is wanted.
    Migrate {
        old: String,
        new: String,
        has_blocks: bool,
    },
}

fn number_in(matches: &ArgMatches<'_>, name: &str, default: u32) -> u32 {
    matches.get_one::<u32>(name).unwrap_or(default)
}

// The pages that are asked for, or those for the rows that are.
fn pages_in(matches: &ArgMatches<'_>) -> u32 {
    match matches.get_one::<u32>("rows") {
        Some(rows) => pages_for(rows),
        None => number_in(matches, "pages", PAGES),
    }
}

// How large a store is to be; what isn't given of that follows from its pages.
fn size_in(matches: &ArgMatches<'_>) -> Size {
    let pages = pages_in(matches);
    Size {
        pages,
        entries: number_in(matches, "entries", entries_for(pages)),
        slots: number_in(matches, "slots", slots_for(pages)),
    }
}

fn has_number(matches: &ArgMatches<'_>, name: &str) -> bool {
    matches.get_one::<u32>(name).is_some()
}

// The same, where any of it is given.
fn size_given(matches: &ArgMatches<'_>) -> Option<Size> {
    let is_given = has_number(matches, "rows")
        || has_number(matches, "pages")
        || has_number(matches, "entries")
        || has_number(matches, "slots");
    if is_given {
        Some(size_in(matches))
    } else {
        None
    }
}

fn new_of(matches: &ArgMatches<'_>) -> Verb {
    Verb::New {
        size: size_in(matches),
        has_blocks: matches.get_flag("blocks"),
    }
}

fn run_of(matches: &ArgMatches<'_>) -> Verb {
    Verb::Run(Serving {
        is_durable: matches.get_flag("durable"),
        stops_on_refusal: matches.get_flag("stop-on-refusal"),
        prompts: matches.get_flag("prompt"),
        wait: number_in(matches, "wait", 0),
    })
}

fn build_of(matches: &ArgMatches<'_>) -> Verb {
    Verb::Build(Build {
        is_anew: matches.get_flag("again"),
        shows_progress: matches.get_flag("progress"),
        wait: number_in(matches, "wait", 0),
    })
}

// In which order rows are to be exported.
fn order_in(matches: &ArgMatches<'_>) -> Order {
    match matches.get_str("order") {
        Some("key") => Order::Key,
        _ => Order::Place,
    }
}

fn export_of(matches: &ArgMatches<'_>) -> Verb {
    Verb::Export(Export {
        order: order_in(matches),
        is_json: matches.get_flag("json"),
    })
}

// The verb of this name; each but the last has a name of its own.
fn verb_of(name: &str, matches: &ArgMatches<'_>) -> Verb {
    match name {
        "new" => new_of(matches),
        "run" => run_of(matches),
        "check" => Verb::Check,
        "dump" => Verb::Dump,
        "stat" => Verb::Stat,
        "export" => export_of(matches),
        _ => build_of(matches),
    }
}

// The path that was given under this name.
fn path_in(alloc: Global, matches: &ArgMatches<'_>, name: &str) -> Result<String, AllocError> {
    String::from_str(alloc, matches.get_str(name).unwrap_or(""))
}

// The paths of the old file and of the new one.
fn paths_in(alloc: Global, matches: &ArgMatches<'_>) -> Result<(String, String), AllocError> {
    let old = path_in(alloc, matches, "OLD")?;
    let new = path_in(alloc, matches, "NEW")?;
    Ok((old, new))
}

// What is asked for by a verb of this name, which has two files.
fn move_of(alloc: Global, name: &str, matches: &ArgMatches<'_>) -> Result<Asked, AllocError> {
    let (old, new) = paths_in(alloc, matches)?;
    Ok(match name {
        "backup" => Asked::Backup { old, new },
        "migrate" => Asked::Migrate {
            old,
            new,
            has_blocks: matches.get_flag("blocks"),
        },
        _ => Asked::Salvage {
            old,
            new,
            has_blocks: matches.get_flag("blocks"),
            size: size_given(matches),
        },
    })
}

fn showing_of(alloc: Global, matches: &ArgMatches<'_>) -> Result<Asked, AllocError> {
    Ok(Asked::Scan {
        path: path_in(alloc, matches, "FILE")?,
        asked: scan_of(alloc, matches)?,
    })
}

fn loading_of(alloc: Global, matches: &ArgMatches<'_>) -> Result<Asked, AllocError> {
    Ok(Asked::Load {
        path: path_in(alloc, matches, "FILE")?,
        asked: load_of(alloc, matches)?,
    })
}

// What is asked for by the verb of this name.
fn asked_by(alloc: Global, name: &str, matches: &ArgMatches<'_>) -> Result<Asked, AllocError> {
    match name {
        "backup" | "migrate" | "salvage" => move_of(alloc, name, matches),
        "scan" => showing_of(alloc, matches),
        "load" => loading_of(alloc, matches),
        _ => Ok(Asked::Of {
            path: path_in(alloc, matches, "FILE")?,
            verb: verb_of(name, matches),
        }),
    }
}

// What was found in the words.
fn asked_of(alloc: Global, matches: &ArgMatches<'_>) -> Result<Asked, AllocError> {
    match matches.subcommand() {
        Some((name, given)) => asked_by(alloc, name, given),
        None => Err(AllocError),
    }
}

// What the words ask for, or what is said in place of it.
fn asked_in<S: AsStr>(alloc: Global, words: &[S]) -> Result<Asked, Error> {
    let matches = command(alloc)?.try_get_matches_from(words)?;
    let asked = asked_of(alloc, &matches);
    drop(matches);
    Ok(asked?)
}

// Says what there is to say in place of what words ask for, and answers the exit status.
fn tell_why<W: Write, E: Write>(error: &Error, output: &mut W, errors: &mut E) -> u8 {
    match error.kind() {
        ErrorKind::OutOfMemory => {
            let _ = writeln!(errors, "nsf-store: out of memory");
            1
        }
        _ => tell(error, output, errors),
    }
}

/// What the words of `nsf-store` ask for, the first of which is the program's own name. Or what there is to say in
/// place of it is said, and the exit status answered: 0 for help and version, on the output, or 1 where that can't be
/// written; 2 for bad words, on the error stream, or 1 where there is no memory for them.
pub fn read_asked<S: AsStr, W: Write, E: Write>(
    alloc: Global,
    words: &[S],
    output: &mut W,
    errors: &mut E,
) -> Result<Asked, u8> {
    match asked_in(alloc, words) {
        Ok(asked) => Ok(asked),
        Err(error) => {
            let status = tell_why(&error, output, errors);
            drop(error);
            Err(status)
        }
    }
}
