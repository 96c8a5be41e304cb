//! Stores in files: one is made, and opened again; and what is refused stays as it is.
use crate::one_thread::{ask, device_of, granted, opened};
use nsf::file::{OpenError, Trouble};
use nsf::{
    Body, Device, Engine, Error, Event, FileError, Geometry, Key, Reply, Rid, SECTOR_SIZE,
    SLOTS_PER_PAGE, open_or_create,
};
use std::alloc::Global;
use std::fs::File;
use std::process::Abort;
use std::rt::Files;
use std::{fs, io};

// How many places of the first page have a row.
fn rows_in<D: Device>(engine: &Engine<D, Global>) -> u16 {
    let mut rows: u16 = 0;
    for slot in 0..SLOTS_PER_PAGE {
        let row = engine.core().get(Rid { page: 0, slot });
        rows = rows.saturating_add(u16::from(row.is_some()));
    }
    rows
}

// Puts a row, and writes all to the device. How many rows there are then.
fn put<D: Device>(engine: &mut Engine<D, Global>, key: Key) -> Result<u16, Error> {
    let Reply::Txn(txn) = ask(engine, Event::Begin)? else {
        return Err(Error::NoSuchTxn);
    };
    let body = Body::new(b"1")?;
    ask(engine, Event::Insert { txn, key, body })?;
    ask(engine, Event::Commit { txn })?;
    granted(engine.flush_all())?;
    Ok(rows_in(engine))
}

// Puts a row into the store of the file of this name, which is made where it isn't there.
fn put_in<R: Files<File = File> + AllocGlobal>(rt: &R, path: &str) -> Result<u16, FileError> {
    let key = Key::new(b"ant")?;
    let disk = open_or_create(rt, rt.alloc(), path, Geometry::new(1, 64, 4)?)?;
    match opened(rt.alloc(), disk) {
        Ok(mut engine) => {
            let rows = put(&mut engine, key);
            drop(device_of(engine));
            Ok(rows?)
        }
        Err((error, disk)) => {
            drop(disk);
            Err(FileError::Store(error))
        }
    }
}

// What that comes to.
fn told_of(put: Result<u16, FileError>) -> &'static str {
    match put {
        Ok(1) => "one row",
        Ok(2) => "two rows",
        Ok(_) => "other rows",
        Err(FileError::Store(Error::NotFormatted)) => "NotFormatted",
        Err(FileError::File(OpenError::BadLength(11))) => "BadLength 11",
        Err(FileError::File(OpenError::DraftExists)) => "DraftExists",
        Err(FileError::File(OpenError::NotAFile)) => "NotAFile",
        Err(FileError::File(OpenError::Io(Trouble::System(2)))) => "System 2",
        Err(_) => "another refusal",
    }
}

// Where the one file has these bytes, it comes to this to put a row into the store of the other one. Then the file is
// as it was. It goes then.
fn comes_to<R: Files<File = File> + AllocGlobal>(
    rt: &R,
    there: &str,
    bytes: &[u8],
    path: &str,
    wanted: &str,
) -> io::Result<bool> {
    fs::write(rt, there, bytes)?;
    let told = told_of(put_in(rt, path));
    let left = fs::read(rt, there)?;
    let is_same = left.as_slice() == bytes;
    drop(left);
    fs::remove_file(rt, there)?;
    Ok(is_same && told == wanted)
}

// Stops the test unless it is so.
fn claim<R: Abort>(rt: &R, done: io::Result<bool>) {
    assert!(rt; matches!(done, Ok(true)));
}

// Whether two rows are put, one in a store that is made and one where it is there, and the file goes.
fn two_are_put<R: Files<File = File> + AllocGlobal>(rt: &R) -> io::Result<bool> {
    let first = told_of(put_in(rt, "made"));
    let second = told_of(put_in(rt, "made"));
    fs::remove_file(rt, "made")?;
    Ok(first == "one row" && second == "two rows")
}

#[test]
fn a_store_is_made_in_a_file_and_opened_again(rt: HostRuntime) {
    claim(&rt, two_are_put(&rt));
}

// No store.
const JUNK: &[u8] = &[7; 2 * SECTOR_SIZE];

// A file, and its bytes; the file into whose store a row is put then; and what that comes to.
static REFUSED: [(&str, &[u8], &str, &str); 5] = [
    ("text", b"not a store", "text", "BadLength 11"),
    ("junk", JUNK, "junk", "NotFormatted"),
    ("left.nsf-draft", b"half", "left", "DraftExists"),
    ("text", b"", ".", "NotAFile"),
    ("text", b"", "none/store", "System 2"),
];

// What isn't a store is refused, be it no device or one with something else; so is a file that can't be made, or is
// made by another.
#[test]
fn a_file_that_is_refused_stays_as_it_is(rt: HostRuntime) {
    for (there, bytes, path, wanted) in &REFUSED {
        claim(&rt, comes_to(&rt, *there, *bytes, *path, *wanted));
    }
}
