//! Rows of a file are loaded into a store.
use block_host::InFile;
use program_arguments::LoadArguments;
use program_files::{Refused, close, open_store, open_within};
use program_lines::Ended;
use program_rows::{
    ColumnNames, HeaderError, Loader, RowError, RowReader, RowsError, Taken, TextError,
};
use records::Error;
use sector_device::Device;
use std::alloc::Global;
use std::fs::File;
use std::io::{Read, Write};
use std::rt::{Clock, Files};
use std::{fs, io};
use store_file::{Trouble, Troubled};

/// Why rows weren't loaded, by the file that was refused.
#[derive(Drop)]
pub(crate) enum NotLoaded {
    /// That of the rows: its header isn't there, or doesn't name their columns.
    Header(HeaderError),
    /// That of the rows.
    Rows(Refused),
    /// The store's.
    Store(Refused),
}

impl From<TextError> for NotLoaded {
    fn from(error: TextError) -> NotLoaded {
        match error {
            TextError::Header(error) => NotLoaded::Header(error),
            TextError::Io(error) => NotLoaded::Rows(Refused::Device(Trouble::of(error))),
            TextError::NoMemory => NotLoaded::Rows(Refused::Store(Error::NoMemory)),
        }
    }
}

impl From<Refused> for NotLoaded {
    fn from(refused: Refused) -> NotLoaded {
        NotLoaded::Store(refused)
    }
}

// Why rows weren't loaded into the store on this device.
fn why_not<D: Troubled>(error: RowsError, device: &D) -> NotLoaded {
    match error {
        RowsError::Text(error) => NotLoaded::from(error),
        RowsError::Store(Error::IndexFull) => NotLoaded::Store(Refused::FullIndex),
        RowsError::Store(error) => NotLoaded::Store(Refused::Store(error).because(device)),
    }
}

// The word that stands for the program's own input.
const INPUT: &str = "-";

// What is shown of how far a load is.
#[derive(Clone, Copy)]
struct Progress {
    is_shown: bool,
    // How many bytes the text has, where that is known.
    length: Option<u64>,
}

// How many hundredths of the text so many bytes are.
fn percent_of(bytes: u64, length: u64) -> u64 {
    if length == 0 {
        return 100;
    }
    bytes.min(length).saturating_mul(100) / length
}

impl Progress {
    // Shows how many rows are safe, and how much of the text is read, if that is known, where that is wanted. What is
    // written next takes the place of that.
    fn show<E: Write>(self, loaded: u64, bytes: u64, errors: &mut E) {
        if !self.is_shown {
            return;
        }
        if let Some(length) = self.length {
            let percent = percent_of(bytes, length);
            let _ = write!(errors, "rows loaded: {loaded} ({percent} %)\r");
        } else {
            let _ = write!(errors, "rows loaded: {loaded}\r");
        }
    }
}

fn tell_line<E: Write>(line: u64, error: RowError, errors: &mut E) {
    let _ = writeln!(errors, "nsf-store: line {line}: {error}");
}

// Loads the row of the next record, if there is one, and tells what is to be told of it. Whether there was none.
fn load_next<D: Device, R: Read + Drop, E: Write>(
    loader: &mut Loader<D>,
    rows: &mut RowReader<R>,
    progress: Progress,
    errors: &mut E,
) -> Result<bool, RowsError> {
    match loader.take(rows)? {
        Taken::Row => {}
        Taken::Batch => progress.show(loader.loaded(), rows.bytes_read(), errors),
        Taken::Refused(error) => tell_line(rows.line(), error, errors),
        Taken::End => {
            progress.show(loader.loaded(), rows.bytes_read(), errors);
            return Ok(true);
        }
    }
    Ok(false)
}

// Loads the rows that are left of a text, in transactions that are committed one behind another.
fn load_all<D: Device, R: Read + Drop, E: Write>(
    loader: &mut Loader<D>,
    rows: &mut RowReader<R>,
    progress: Progress,
    errors: &mut E,
) -> Result<(), RowsError> {
    for _ in 0..u64::MAX {
        if load_next(loader, rows, progress, errors)? {
            break;
        }
    }
    Ok(())
}

// The same. Where that is refused, the rows before are committed, and it is told behind which line none is loaded.
fn load<D: Device + Troubled, R: Read + Drop, E: Write>(
    loader: &mut Loader<D>,
    rows: &mut RowReader<R>,
    progress: Progress,
    errors: &mut E,
) -> Result<(), NotLoaded> {
    let loaded = load_all(loader, rows, progress, errors);
    if progress.is_shown {
        let _ = writeln!(errors);
    }
    match loaded {
        Ok(()) => Ok(()),
        Err(error) => {
            let _ = loader.commit();
            let line = loader.line();
            let _ = writeln!(errors, "nsf-store: no row behind line {line} is loaded");
            Err(why_not(error, loader.store().device()))
        }
    }
}

// Prints how many rows are safe, and how many records have no row.
fn sum_up<D: Device, W: Write>(loader: &Loader<D>, output: &mut W) -> io::Result<()> {
    let (loaded, refused) = (loader.loaded(), loader.refused());
    writeln!(output, "loaded {loaded}")?;
    writeln!(output, "refused {refused}")
}

// How a load ended that came to its end.
fn ended<D: Device>(loader: &Loader<D>) -> Ended {
    if loader.refused() > 0 {
        Ended::WithRefusal
    } else {
        Ended::Well
    }
}

// Loads the rows into the store on the disk, and prints how many. The use of the disk is ended.
fn load_disk<D: Device + Troubled + InFile + Drop, R: Read + Drop, W: Write, E: Write>(
    alloc: Global,
    disk: D,
    rows: &mut RowReader<R>,
    progress: Progress,
    output: &mut W,
    errors: &mut E,
) -> Result<Ended, NotLoaded> {
    let mut loader = Loader::new(open_store(alloc, disk)?, rows.line());
    let loaded = load(&mut loader, rows, progress, errors);
    let told = sum_up(&loader, output);
    let ended = ended(&loader);
    let closed = close(loader.into_store().into_device());
    loaded?;
    if let Err(error) = told {
        return Err(NotLoaded::Store(Refused::Stream(error)));
    }
    closed?;
    Ok(ended)
}

// The columns' names, if any are given.
fn names_in(asked: &LoadArguments) -> Option<ColumnNames<'_>> {
    let (key, body) = match (&asked.key, &asked.body) {
        (None, None) => return None,
        (Some(key), None) => (key.as_str(), "body"),
        (None, Some(body)) => ("key", body.as_str()),
        (Some(key), Some(body)) => (key.as_str(), body.as_str()),
    };
    Some(ColumnNames { key, body })
}

// The file of the rows that are to be loaded, and how many bytes it has.
fn open_text<R: Files<File = File>>(rt: &R, path: &str) -> io::Result<(File, u64)> {
    let file = fs::open(rt, path)?;
    let length = file.metadata()?.len();
    Ok((file, length))
}

// The rows of the text.
fn rows_of<S: Read + Drop>(
    alloc: Global,
    source: S,
    asked: &LoadArguments,
) -> Result<RowReader<S>, TextError> {
    if asked.has_no_header {
        return Ok(RowReader::without_header(alloc, source));
    }
    RowReader::new(alloc, source, names_in(asked))
}

// Tells which columns are taken.
fn tell_columns<E: Write>(asked: &LoadArguments, errors: &mut E) {
    let rows = asked.rows.as_str();
    if asked.has_no_header {
        let _ = writeln!(
            errors,
            "nsf-store: {rows}: the first column is taken as the key, the second as the body"
        );
        return;
    }
    let (key, body) = match names_in(asked) {
        Some(names) => (names.key, names.body),
        None => ("key", "body"),
    };
    let _ = writeln!(
        errors,
        "nsf-store: {rows}: the column `{key}` is taken as the key, `{body}` as the body"
    );
}

// Loads the rows that are left into the store in the file.
fn load_into<R: Files<File = File> + Clock + AllocGlobal, S: Read + Drop, W: Write, E: Write>(
    rt: &R,
    path: &str,
    rows: &mut RowReader<S>,
    (asked, progress): (&LoadArguments, Progress),
    output: &mut W,
    errors: &mut E,
) -> Result<Ended, NotLoaded> {
    match open_within(rt, path, 0) {
        Ok(disk) => {
            tell_columns(asked, errors);
            load_disk(rt.alloc(), disk, rows, progress, output, errors)
        }
        Err(refused) => Err(NotLoaded::Store(refused)),
    }
}

// Loads the rows of the text, of so many bytes, where that is known, into the store in the file.
fn load_text<R: Files<File = File> + Clock + AllocGlobal, S: Read + Drop, W: Write, E: Write>(
    rt: &R,
    path: &str,
    asked: &LoadArguments,
    (source, length): (S, Option<u64>),
    output: &mut W,
    errors: &mut E,
) -> Result<Ended, NotLoaded> {
    let mut rows = rows_of(rt.alloc(), source, asked)?;
    let progress = Progress {
        is_shown: asked.shows_progress,
        length,
    };
    load_into(rt, path, &mut rows, (asked, progress), output, errors)
}

/// Loads rows into the store in the file at the path, in transactions of 64 rows, and prints how many are safe and how
/// many records have no row. The error stream says which columns are taken; why a record has no row, by line; and where
/// no more is loaded, behind which line. The rows' path may be `-`, for the input.
///
/// What is wrong with the rows' header is told before what is wrong with the store.
pub(crate) fn load_file<R: Files<File = File> + Clock + AllocGlobal, I: Read, W: Write, E: Write>(
    rt: &R,
    path: &str,
    asked: &LoadArguments,
    input: &mut I,
    output: &mut W,
    errors: &mut E,
) -> Result<Ended, NotLoaded> {
    let rows = asked.rows.as_str();
    if rows == INPUT {
        return load_text(rt, path, asked, (input, None), output, errors);
    }
    match open_text(rt, rows) {
        Ok((file, length)) => load_text(rt, path, asked, (file, Some(length)), output, errors),
        Err(error) => Err(NotLoaded::from(TextError::Io(error))),
    }
}
