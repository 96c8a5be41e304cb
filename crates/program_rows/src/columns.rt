//! The names of columns.
ghost use Rattle.std.specs.Prelude.{◌≡◌, ◌≢◌, ◌<◌, ◌∷◌, [], ℕ, None, Some, IfErr, IfOk, IfSome, codes};
ghost use Rattle.csv.specs.Records.{field_at, fields_of};
ghost use Rattle.program_rows.specs.Headers.{AreNamed, IsLacking, IsLackingDefault};

use crate::rows::Columns;
use csv::ByteRecord;
use std::alloc::{AllocError, Global};
use thiserror::Error;

/// What a header lacks.
#[derive(Clone, Copy, Debug, PartialEq, Eq, Error)]
pub enum HeaderError {
    /// It isn't there: the text has no record.
    #[error("it has no header")]
    Missing,
    /// No field of it is the name of the key's column.
    #[error("its header has no column with the key's name")]
    NoKey,
    /// No field of it is the name of the body's column.
    #[error("its header has no column with the body's name")]
    NoBody,
    /// No columns were named, and no field of it is `key` or `body`.
    #[error("its first line has no column `key` and none `body`: --key and --body name others, and --no-header takes that line as a row too")]
    NoNames,
    /// The text ends within it, inside a quote.
    #[error("a quote in its header isn't closed")]
    OpenQuote,
    /// It is longer than a record may be.
    #[error("its header is longer than 1048576 bytes")]
    TooLong,
}

/// The header of exported rows: `key` and `body`. The error is that memory was refused.
pub fn header(alloc: Global) -> Result<ByteRecord, AllocError>
    ensures { IfOk result (λ r. fields_of r ≡ codes "key" ∷ codes "body" ∷ []) }
{
    ByteRecord::from_fields(alloc, &[b"key".as_slice(), b"body".as_slice()])
}

/// The first column of this name; none where the header has no such one.
pub fn column_named(header: &ByteRecord, name: &[u8]) -> Option<usize>
    ensures named { IfSome result (λ n. field_at (fields_of header.now) n ≡ Some name.now) }
    ensures first { IfSome result (λ n. (m : ℕ) → m < n → field_at (fields_of header.now) m ≢ Some name.now) }
    ensures none { result ≡ None → (m : ℕ) → field_at (fields_of header.now) m ≢ Some name.now }
{
    let mut column = 0;
    while let Some(field) = header.get(column) {
        if field == name {
            return Some(column);
        }
        column += 1;
    }
    None
}

/// The columns of these names, the first of each.
///
/// `NoKey`, then `NoBody`.
pub fn columns_named(header: &ByteRecord, key: &[u8], body: &[u8]) -> Result<Columns, HeaderError>
    ensures found { IfOk result (AreNamed (fields_of header.now) key.now body.now) }
    ensures lacking { IfErr result (IsLacking (fields_of header.now) key.now body.now) }
{
    let Some(key) = column_named(header, key) else {
        return Err(HeaderError::NoKey);
    };
    let Some(body) = column_named(header, body) else {
        return Err(HeaderError::NoBody);
    };
    Ok(Columns { key, body })
}

/// The columns `key` and `body`, the first of each.
///
/// `NoNames` where both are lacking, and else `NoKey` or `NoBody`.
pub fn default_columns(header: &ByteRecord) -> Result<Columns, HeaderError>
    ensures found { IfOk result (AreNamed (fields_of header.now) (codes "key") (codes "body")) }
    ensures lacking { IfErr result (IsLackingDefault (fields_of header.now)) }
{
    match (column_named(header, b"key"), column_named(header, b"body")) {
        (Some(key), Some(body)) => Ok(Columns { key, body }),
        (None, Some(_)) => Err(HeaderError::NoKey),
        (Some(_), None) => Err(HeaderError::NoBody),
        (None, None) => Err(HeaderError::NoNames),
    }
}
