//! Tests of the crate `records`.
use records::{Error, Record, Version};
use std::alloc::{AllocError, Global};
use std::fmt::Write;

// The calls of a record. None says anything before it runs.

fn decode(bytes: &[u8]) -> Option<(Record, usize)> {
    Record::decode(bytes)
}

fn is_of_version_1(bytes: &[u8]) -> bool {
    Record::decode_in(Version::One, bytes).is_some()
}

// A record, as all its values are shown.
fn shown(alloc: Global, record: &Record) -> Result<String, AllocError> {
    format!(in alloc; "{record:?}")
}

// The vectors of the format document, and which records they are. Transaction 1 inserts a row at the first place, and
// commits; an index is created; and the builder puts in a pair.
static RECORDS: [(&[u8], &str); 4] = [
    (
        b"\0\0\0\0\0\0\0\x01\0\0\0\0\0\0\0\x01\x01\0\0\0\0\0\0\0\0\x01\x03\x61\x6e\x74\x01\x78",
        "Record { number: RecordNumber { number: 1 }, action: OfTxn { txn: Txn { number: 1 }, \
         action: Forward { part: Slot, change: Change { position: 0, rid: Rid { page: 0, slot: 0 }, \
         rows: Inserted { new: Row { key: Key([97, 110, 116]), body: Body([120]) } } } } } }",
    ),
    (
        b"\0\0\0\0\0\0\0\x02\0\0\0\0\0\0\0\x01\x07",
        "Record { number: RecordNumber { number: 2 }, action: OfTxn { txn: Txn { number: 1 }, \
         action: Commit } }",
    ),
    (
        b"\0\0\0\0\0\0\0\x01\0\0\0\0\0\0\0\0\x09",
        "Record { number: RecordNumber { number: 1 }, action: OfIndex { action: Create } }",
    ),
    (
        b"\0\0\0\0\0\0\0\x07\0\0\0\0\0\0\0\0\x0a\x01\x61\0\0\0\0\0\0",
        "Record { number: RecordNumber { number: 7 }, action: OfIndex { action: BuildPlace { \
         pair: Pair { key: Key([97]), rid: Rid { page: 0, slot: 0 } } } } }",
    ),
];

// Whether the record is shown so.
fn is_shown(alloc: Global, record: &Record, text: &str) -> bool {
    match shown(alloc, record) {
        Ok(shown) => {
            let is_same = shown.as_str() == text;
            drop(shown);
            is_same
        }
        Err(_) => false,
    }
}

// Whether all of these bytes is a record that is shown so.
fn is_record(alloc: Global, bytes: &[u8], text: &str) -> bool {
    match decode(bytes) {
        Some((record, read)) => read == bytes.len() && is_shown(alloc, &record, text),
        None => false,
    }
}

/// Whether the vectors are those records. That a record is spelled as it is read, clauses say (`found` of `decode`,
/// `ok` of `encode_into`).
pub(crate) fn are_records(alloc: Global) -> bool {
    for (bytes, text) in &RECORDS {
        if !is_record(alloc, *bytes, *text) {
            return false;
        }
    }
    true
}

// The longest row of version 1, one with a longer key, one with a longer body, and a drop, which version 1 doesn't
// have; and whether it has the record.
static VERSIONS: [(&[u8], bool); 4] = [
    (
        b"\0\0\0\0\0\0\0\x01\0\0\0\0\0\0\0\x01\x01\0\0\0\0\0\0\0\0\x01\
        \x18kkkkkkkkkkkkkkkkkkkkkkkk\x25bbbbbbbbbbbbbbbbbbbbbbbbbbbbbbbbbbbbb",
        true,
    ),
    (
        b"\0\0\0\0\0\0\0\x01\0\0\0\0\0\0\0\x01\x01\0\0\0\0\0\0\0\0\x01\
        \x19kkkkkkkkkkkkkkkkkkkkkkkkk\0",
        false,
    ),
    (
        b"\0\0\0\0\0\0\0\x01\0\0\0\0\0\0\0\x01\x01\0\0\0\0\0\0\0\0\x01\
        \0\x26bbbbbbbbbbbbbbbbbbbbbbbbbbbbbbbbbbbbbb",
        false,
    ),
    (b"\0\0\0\0\0\0\0\x01\0\0\0\0\0\0\0\0\x0e", false),
];

/// Whether version 2 reads all of them, and version 1 the first alone.
pub(crate) fn are_of_versions() -> bool {
    for (bytes, fits) in &VERSIONS {
        if decode(*bytes).is_none() || is_of_version_1(*bytes) != *fits {
            return false;
        }
    }
    true
}

static ERRORS: [Error; 23] = [
    Error::NoMemory,
    Error::DeviceFailed,
    Error::NotFormatted,
    Error::Damaged { sector: 516 },
    Error::DeviceTooSmall,
    Error::BadGeometry,
    Error::TooManyTxns,
    Error::TooManyChanges,
    Error::NoSuchTxn,
    Error::NoSuchRow,
    Error::RowBusy,
    Error::HeapFull,
    Error::IndexFull,
    Error::KeyTooLong,
    Error::BodyTooLong,
    Error::TxnsActive,
    Error::IndexExists,
    Error::NoIndex,
    Error::NotBuilt,
    Error::Stopped,
    Error::Exhausted,
    Error::BadScript { line: 2 },
    Error::OldVersion,
];

const REFUSALS: &str =
    "1 NoMemory\n2 DeviceFailed\n3 NotFormatted\n4 Damaged 516\n5 DeviceTooSmall\n\
    6 BadGeometry\n7 TooManyTxns\n8 TooManyChanges\n9 NoSuchTxn\n10 NoSuchRow\n11 RowBusy\n\
    12 HeapFull\n13 IndexFull\n14 KeyTooLong\n15 BodyTooLong\n16 TxnsActive\n17 IndexExists\n\
    18 NoIndex\n19 NotBuilt\n20 Stopped\n21 Exhausted\n22 BadScript 2\n23 OldVersion\n";

fn print_all(text: &mut String) -> Result<(), AllocError> {
    for error in &ERRORS {
        writeln!(text, "{error}")?;
    }
    Ok(())
}

/// Whether each refusal is printed as it is to be.
pub(crate) fn are_printed(alloc: Global) -> bool {
    let mut text = String::new(alloc);
    let printed = print_all(&mut text);
    let is_same = text.as_str() == REFUSALS;
    drop(text);
    is_same && printed.is_ok()
}
