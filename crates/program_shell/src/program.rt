//! The verbs of the program.
use crate::loading::{NotLoaded, load_file};
use crate::looks::{Look, look_in};
use crate::scan::shown_by;
use program_arguments::{Asked, LoadArguments, ScanArguments, Size, Verb, read_asked};
use program_files::{NotMoved, Refused, Taking, build_file, make, take_over};
use program_lines::{Ended, run_file};
use records::{Error, Geometry};
use std::convert::AsStr;
use std::fmt;
use std::fs::File;
use std::io::{BufRead, Write};
use std::rt::{Clock, Files};

// What was done came to its end.
fn well(done: Result<(), Refused>) -> Result<Ended, Refused> {
    match done {
        Ok(()) => Ok(Ended::Well),
        Err(refused) => Err(refused),
    }
}

// The geometry of this size.
fn geometry_of(size: Size) -> Result<Geometry, Error> {
    Geometry::large(size.pages, size.entries, size.slots)
}

// Shows this of the store in the file.
fn look_well<R: Files<File = File> + AllocGlobal, W: Write>(
    rt: &R,
    path: &str,
    look: Look<'_>,
    output: &mut W,
) -> Result<Ended, Refused> {
    well(look_in(rt, path, look, output))
}

// Does what is asked for with a file alone, and tells how the input ended.
fn act<R: Files<File = File> + Clock + AllocGlobal, I: BufRead, W: Write, E: Write>(
    rt: &R,
    path: &str,
    verb: Verb,
    input: &mut I,
    output: &mut W,
    errors: &mut E,
) -> Result<Ended, Refused> {
    match verb {
        Verb::New { size, has_blocks } => {
            let geometry = geometry_of(size)?;
            well(make(rt, path, geometry, has_blocks))
        }
        Verb::Run(serving) => run_file(rt, path, serving, input, output, errors),
        Verb::Build(build) => well(build_file(rt, path, build, output, errors)),
        Verb::Check => look_well(rt, path, Look::Check, output),
        Verb::Dump => look_well(rt, path, Look::Dump, output),
        Verb::Stat => look_well(rt, path, Look::Stat, output),
        Verb::Export(asked) => look_well(rt, path, Look::Export(asked), output),
    }
}

// Tells why what this names was refused, and answers the exit status for that.
fn tell<T: fmt::Display, E: Write>(name: &str, why: &T, errors: &mut E) -> u8 {
    let _ = writeln!(errors, "nsf-store: {name}: {why}");
    1
}

// Tells why the store in the file was refused, if it was, and answers the exit status.
fn status_of<E: Write>(path: &str, done: Result<Ended, Refused>, errors: &mut E) -> u8 {
    match done {
        Ok(Ended::Well) => 0,
        Ok(Ended::WithBadLine) => 1,
        Ok(Ended::WithRefusal) => 3,
        Err(refused) => tell(path, &refused, errors),
    }
}

// Shows what is asked for of the store in the file, and answers the exit status.
fn show<R: Files<File = File> + AllocGlobal, W: Write, E: Write>(
    rt: &R,
    path: &str,
    look: Look<'_>,
    output: &mut W,
    errors: &mut E,
) -> u8 {
    let shown = look_well(rt, path, look, output);
    status_of(path, shown, errors)
}

// Does what is asked for with a file alone, and answers the exit status.
fn answer_verb<R: Files<File = File> + Clock + AllocGlobal, I: BufRead, W: Write, E: Write>(
    rt: &R,
    path: &str,
    verb: Verb,
    input: &mut I,
    output: &mut W,
    errors: &mut E,
) -> u8 {
    let done = act(rt, path, verb, input, output, errors);
    status_of(path, done, errors)
}

// Shows a range of the index of the store in the file, and answers the exit status.
fn scan<R: Files<File = File> + AllocGlobal, W: Write, E: Write>(
    rt: &R,
    path: &str,
    asked: &ScanArguments,
    output: &mut W,
    errors: &mut E,
) -> u8 {
    match shown_by(rt.alloc(), asked) {
        Ok(shown) => show(rt, path, Look::Scan(&shown), output, errors),
        Err(refused) => {
            let _ = writeln!(errors, "nsf-store: {refused}");
            2
        }
    }
}

// Loads rows into the store in the file, and answers the exit status.
fn load<R: Files<File = File> + Clock + AllocGlobal, I: BufRead, W: Write, E: Write>(
    rt: &R,
    path: &str,
    asked: &LoadArguments,
    input: &mut I,
    output: &mut W,
    errors: &mut E,
) -> u8 {
    match load_file(rt, path, asked, input, output, errors) {
        Ok(ended) => status_of(path, Ok(ended), errors),
        Err(NotLoaded::Header(error)) => tell(asked.rows.as_str(), &error, errors),
        Err(NotLoaded::Rows(refused)) => tell(asked.rows.as_str(), &refused, errors),
        Err(NotLoaded::Store(refused)) => tell(path, &refused, errors),
    }
}

// Tells where the index of the store in a new file, which was moved there, isn't that of its rows.
fn tell_unsound<R: Files<File = File> + AllocGlobal, E: Write>(rt: &R, new: &str, errors: &mut E) {
    let mut checked = Vec::new(rt.alloc());
    let looked = look_in(rt, new, Look::Check, &mut checked);
    drop(checked);
    if let Err(Refused::Unsound) = looked {
        let _ = writeln!(
            errors,
            "nsf-store: {new}: it is made, but its index isn't that of its rows, as in the old file; `nsf-store salvage` leaves the index out"
        );
    }
}

// Shows what the store in a new file is, and answers the exit status.
fn show_new<R: Files<File = File> + AllocGlobal, W: Write, E: Write>(
    rt: &R,
    new: &str,
    output: &mut W,
    errors: &mut E,
) -> u8 {
    let status = show(rt, new, Look::Stat, output, errors);
    if status != 0 {
        let _ = writeln!(
            errors,
            "nsf-store: {new}: it is made, and whole; only its numbers were not printed"
        );
    }
    status
}

// Puts the store in the old file into a new one, shows what that is, and answers the exit status.
fn take<R: Files<File = File> + AllocGlobal, W: Write, E: Write>(
    rt: &R,
    old: &str,
    new: &str,
    taking: Taking,
    output: &mut W,
    errors: &mut E,
) -> u8 {
    let is_move = matches!(taking, Taking::Move { .. });
    match take_over(rt, old, new, taking, output) {
        Ok(()) => {
            if is_move {
                tell_unsound(rt, new, errors);
            }
            show_new(rt, new, output, errors)
        }
        Err(NotMoved::Old(refused)) => tell(old, &refused, errors),
        Err(NotMoved::New(refused)) => tell(new, &refused, errors),
    }
}

// A salvage of a store of this size, where one is given.
fn salvage_of(has_blocks: bool, size: Option<Size>) -> Result<Taking, Error> {
    let geometry = match size {
        Some(size) => Some(geometry_of(size)?),
        None => None,
    };
    Ok(Taking::Salvage {
        has_blocks,
        geometry,
    })
}

// Does what is asked for, and answers the exit status.
fn answer<R: Files<File = File> + Clock + AllocGlobal, I: BufRead, W: Write, E: Write>(
    rt: &R,
    asked: &Asked,
    input: &mut I,
    output: &mut W,
    errors: &mut E,
) -> u8 {
    let (old, new, taking) = match asked {
        Asked::Of { path, verb } => {
            return answer_verb(rt, path.as_str(), *verb, input, output, errors);
        }
        Asked::Scan { path, asked } => return scan(rt, path.as_str(), asked, output, errors),
        Asked::Load { path, asked } => {
            return load(rt, path.as_str(), asked, input, output, errors);
        }
        Asked::Backup { old, new } => (old, new, Taking::Copy),
        Asked::Salvage {
            old,
            new,
            has_blocks,
            size,
        } => match salvage_of(*has_blocks, *size) {
            Ok(taking) => (old, new, taking),
            Err(error) => return tell(old.as_str(), &Refused::Store(error), errors),
        },
        Asked::Migrate {
            old,
            new,
            has_blocks,
        } => {
            let has_blocks = *has_blocks;
            (old, new, Taking::Move { has_blocks })
        }
    };
    take(rt, old.as_str(), new.as_str(), taking, output, errors)
}

/// Runs the program on these words, the first of which is its own name, and answers its exit status: 0 where what they
/// ask for was done, refused commands included; 1 where the file or the store was refused, of which the error stream
/// says why, or a line of the input was no command; 2 for bad words; 3 where the input was to end with a command that
/// is refused or skipped, and one was, or where a row that was to be loaded is none.
pub fn run<R: Files<File = File> + Clock + AllocGlobal, S: AsStr, I: BufRead, W: Write, E: Write>(
    rt: &R,
    words: &[S],
    input: &mut I,
    output: &mut W,
    errors: &mut E,
) -> u8 {
    match read_asked(rt.alloc(), words, output, errors) {
        Ok(asked) => answer(rt, &asked, input, output, errors),
        Err(status) => status,
    }
}
