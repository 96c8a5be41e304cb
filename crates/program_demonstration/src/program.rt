//! The program over what it writes.
use crate::file::work_on_file;
use crate::found::{Found, look};
use crate::listeners::{Nobody, Printer};
use flip_image::Halves;
use program_arguments::{NoArguments, ThreadsArguments, read_threads};
use program_files::Refused;
use program_team::{Beginning, Listener, NotOpened, Progress, Team, Worked, work_on};
use records::{Error, Geometry};
use sector_device::{Device, Fate, MemDisk};
use std::alloc::Global;
use std::convert::AsStr;
use std::fs::File;
use std::io;
use std::io::Write;
use std::rt::{Clock, Files};
use std::sync::Wait;
use std::thread::Threads;

const PAGES: u32 = 8;

const ENTRIES: u32 = 4_096;

const SLOTS: u32 = 16;

// How many writes and syncs the disk has room to record.
const CALLS: usize = 16_384;

// A disk in memory with a new store on it.
fn formatted(alloc: Global) -> Result<MemDisk<Global>, Error> {
    let geometry = Geometry::new(PAGES, ENTRIES, SLOTS)?;
    let mut disk = MemDisk::new(alloc, geometry.sectors(), CALLS)?;
    match Halves::format(&mut disk, geometry) {
        Ok(()) => Ok(disk),
        Err(error) => {
            drop(disk);
            Err(error)
        }
    }
}

/// The device with what the threads left, beside a refusal where one of them met it.
pub(crate) fn work_through<
    D: Device + Send + Drop,
    R: Threads + Wait + Clock + Sync,
    L: Listener + Sync,
    E: Write + Send + Drop,
>(device: D, writers: u8, team: Team<'_, R, L, E>) -> Result<D, (NotOpened, D)> {
    let Worked {
        device,
        acknowledged,
        refusals,
    } = work_on(device, writers, team)?;
    drop(acknowledged);
    match refusals.any() {
        Some(refused) => Err((refused, device)),
        None => Ok(device),
    }
}

// What a crash leaves of the store in memory, or why the threads could not work on it.
fn found_behind_crash(
    alloc: Global,
    worked: Result<MemDisk<Global>, (NotOpened, MemDisk<Global>)>,
) -> Result<Found, NotOpened> {
    match worked {
        Ok(mut disk) => {
            disk.crash(&[Fate::Junk]);
            match look(alloc, disk) {
                Ok(found) => Ok(found),
                Err(error) => Err(NotOpened::Refused(error)),
            }
        }
        Err((error, disk)) => {
            drop(disk);
            Err(error)
        }
    }
}

// Lets the threads work on a new store in memory, and looks at what a crash leaves of it.
fn work_in_memory<R: Threads + Wait + Clock + Sync, E: Write + Send + Drop>(
    rt: &R,
    alloc: Global,
    arguments: &ThreadsArguments,
    progress: Option<Progress<E>>,
) -> Result<Found, NotOpened> {
    let team = Team {
        rt,
        alloc,
        beginning: Beginning::New,
        listener: &Nobody,
        changes: u16::from(arguments.changes),
        progress,
    };
    match formatted(alloc) {
        Ok(disk) => found_behind_crash(alloc, work_through(disk, arguments.writers, team)),
        Err(error) => {
            drop(team);
            Err(NotOpened::Refused(error))
        }
    }
}

// Lets the threads work on the store in the file, prints each commit that is safe, and looks at what is there.
fn work_in_file<
    R: Threads + Wait + Clock + Files<File = File> + Print + Sync,
    E: Write + Send + Drop,
>(
    rt: &R,
    alloc: Global,
    path: &str,
    arguments: &ThreadsArguments,
    progress: Option<Progress<E>>,
) -> Result<Found, Refused> {
    let team = Team {
        rt,
        alloc,
        beginning: Beginning::Found,
        listener: &Printer { rt },
        changes: u16::from(arguments.changes),
        progress,
    };
    work_on_file(path, arguments.writers, team)
}

// Prints what was found, and answers the program's status.
fn print<W: Write>(output: &mut W, found: Found) -> io::Result<u8> {
    let Found { rows, shown, same } = found;
    let word = if same { "yes" } else { "no" };
    writeln!(output, "rows {rows} shown {shown} same {word}")?;
    Ok(if same { 0 } else { 1 })
}

fn print_refusal<W: Write>(output: &mut W, error: NotOpened) -> io::Result<()> {
    match error {
        NotOpened::Refused(error) => writeln!(output, "refused {error}"),
        NotOpened::Unsound => writeln!(output, "refused Unsound"),
        NotOpened::NoThread => writeln!(output, "refused NoThread"),
    }
}

/// Prints what was found, or why it wasn't, and answers the program's status: 1 where a row is without its entry, an
/// entry without its row, or something was refused.
pub fn told<W: Write>(output: &mut W, found: Result<Found, NotOpened>) -> io::Result<u8> {
    match found {
        Ok(found) => print(output, found),
        Err(error) => {
            print_refusal(output, error)?;
            Ok(1)
        }
    }
}

// The same of the store in a file, whose refusals the error stream tells.
fn told_of_file<W: Write, E: Write>(
    output: &mut W,
    errors: &mut E,
    path: &str,
    found: Result<Found, Refused>,
) -> io::Result<u8> {
    match found {
        Ok(found) => print(output, found),
        Err(refused) => {
            let _ = writeln!(errors, "nsf-threads: {path}: {refused}");
            drop(refused);
            Ok(1)
        }
    }
}

// Does what the arguments ask for, and answers the program's status.
fn act<
    R: Threads + Wait + Clock + Files<File = File> + Print + Sync,
    W: Write,
    E: Write,
    P: Write + Send + Drop,
>(
    rt: &R,
    alloc: Global,
    arguments: &ThreadsArguments,
    output: &mut W,
    progress: Progress<P>,
    errors: &mut E,
) -> io::Result<u8> {
    let progress = if arguments.watch {
        Some(progress)
    } else {
        drop(progress);
        None
    };
    match &arguments.file {
        Some(path) => {
            let found = work_in_file(rt, alloc, path.as_str(), arguments, progress);
            told_of_file(output, errors, path.as_str(), found)
        }
        None => told(output, work_in_memory(rt, alloc, arguments, progress)),
    }
}

// Runs the program on these words. The error is that of the output.
fn run_words<
    S: AsStr,
    R: Threads + Wait + Clock + Files<File = File> + Print + Sync,
    W: Write,
    E: Write,
    P: Write + Send + Drop,
>(
    rt: &R,
    alloc: Global,
    words: &[S],
    output: &mut W,
    mut progress: Progress<P>,
    errors: &mut E,
) -> io::Result<u8> {
    match read_threads(alloc, words, output, &mut progress.errors) {
        Ok(arguments) => {
            let status = act(rt, alloc, &arguments, output, progress, errors);
            drop(arguments);
            status
        }
        Err(NoArguments::NoMemory) => {
            drop(progress);
            told(output, Err(NotOpened::Refused(Error::NoMemory)))
        }
        Err(NoArguments::Told(status)) => {
            drop(progress);
            Ok(status)
        }
    }
}

/// Runs the program on these words, the first of them its own name, and answers its exit status: 0 where the rows of
/// all commits were found, with just their entries, or help or the version was told; 1 where something was refused, or
/// the output can't be written, which the error stream says; 2 for bad arguments. Commits that are safe are printed by
/// the runtime.
pub fn run<
    S: AsStr,
    R: Threads + Wait + Clock + Files<File = File> + Print + Sync,
    W: Write,
    E: Write,
    P: Write + Send + Drop,
>(rt: &R, alloc: Global, words: &[S], output: &mut W, progress: Progress<P>, errors: &mut E) -> u8 {
    match run_words(rt, alloc, words, output, progress, errors) {
        Ok(status) => status,
        Err(_) => {
            let _ = writeln!(errors, "nsf: cannot write to standard output");
            1
        }
    }
}
