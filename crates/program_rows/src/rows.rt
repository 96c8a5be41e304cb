//! Rows and records.
ghost use Rattle.std.specs.Prelude.{◌≡◌, IfOk, Some};
ghost use Rattle.csv.specs.Records.{fields_of};
ghost use Rattle.program_rows.specs.Rows.{fields_of_row, own_columns, row_in, row_under, row_with};

use csv::ByteRecord;
use records::{Body, Key, Row};
use std::alloc::{AllocError, Global};
use thiserror::Error;

/// Which columns of a record have a row's key and its body, counted from 0.
#[derive(Clone, Copy)]
pub struct Columns {
    pub key: usize,
    pub body: usize,
}

impl Columns {
    /// Those of the record that `record_of` makes.
    pub fn own() -> Columns
        ensures { result ≡ own_columns }
    {
        Columns { key: 0, body: 1 }
    }
}

/// Why a record gives no row.
#[derive(Clone, Copy, Debug, PartialEq, Eq, Error)]
pub enum RowError {
    /// It has no field in the key's column.
    #[error("there is no field for the key")]
    NoKey,
    /// It has no field in the body's column.
    #[error("there is no field for the body")]
    NoBody,
    /// The key is longer than 56 bytes.
    #[error("the key is longer than 56 bytes")]
    KeyTooLong,
    /// The body is longer than 69 bytes.
    #[error("the body is longer than 69 bytes")]
    BodyTooLong,
    /// It has another number of fields than the header.
    #[error("fields: {found}, where {wanted} are wanted")]
    OtherFields { found: usize, wanted: usize },
    /// The text ends within it, inside a quote.
    #[error("a quote isn't closed")]
    OpenQuote,
    /// It is longer than a record may be, and no further one is read.
    #[error("the record is longer than 1048576 bytes, and nothing behind it is read")]
    RecordTooLong,
}

// The row with these bytes as its key and its body.
fn row_from(key: &[u8], body: &[u8]) -> Result<Row, RowError>
    ensures { result ≡ row_with (Some key.now) (Some body.now) }
{
    let Ok(key) = Key::new(key) else {
        return Err(RowError::KeyTooLong);
    };
    let Ok(body) = Body::new(body) else {
        return Err(RowError::BodyTooLong);
    };
    Ok(Row { key, body })
}

/// The row of the record, whose fields in these columns are its key and its body. Any other fields are passed over.
///
/// `NoKey`, then `NoBody`, `KeyTooLong` and `BodyTooLong`.
pub fn row_of(record: &ByteRecord, columns: Columns) -> Result<Row, RowError>
    ensures { result ≡ row_in columns (fields_of record.now) }
{
    let Some(key) = record.get(columns.key) else {
        return Err(RowError::NoKey);
    };
    let Some(body) = record.get(columns.body) else {
        return Err(RowError::NoBody);
    };
    row_from(key, body)
}

/// The row of the record under a header of so many fields, as `row_of` gives it.
///
/// `OtherFields` where the record has more or fewer, and then the refusals of `row_of`.
pub fn row_under(record: &ByteRecord, columns: Columns, fields: usize) -> Result<Row, RowError>
    ensures { result ≡ row_under columns fields (fields_of record.now) }
{
    let found = record.len();
    if found != fields {
        return Err(RowError::OtherFields {
            found,
            wanted: fields,
        });
    }
    row_of(record, columns)
}

/// The record of the row: its key and its body. The error is that memory was refused.
pub fn record_of(alloc: Global, row: &Row) -> Result<ByteRecord, AllocError>
    ensures { IfOk result (λ r. fields_of r ≡ fields_of_row row.now) }
{
    ByteRecord::from_fields(alloc, &[row.key.as_slice(), row.body.as_slice()])
}
