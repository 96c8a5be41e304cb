//! The text of a record.
ghost use Rattle.std.specs.Prelude.{◌≡◌, IfErr, IfOk};
ghost use Rattle.csv.specs.Records.{fields_of};
ghost use Rattle.csv.specs.Writing.{default_writer, row_text};
ghost use Rattle.program_rows.specs.Reading.{IsReadError};
ghost use Rattle.program_rows.specs.Rows.{line_of_row, own_header};

use crate::columns::header;
use crate::error::TextError;
use crate::rows::record_of;
use csv::{ByteRecord, WriterBuilder};
use records::Row;
use std::alloc::Global;

/// The line of the record, as a writer writes it. The error is that memory was refused, or is a writer's
/// (`refused`; that a writer to memory has none, no clause says).
pub fn line_of(alloc: Global, record: &ByteRecord) -> Result<Vec<u8>, TextError>
    ensures text { IfOk result (λ text. text.items ≡ row_text default_writer (fields_of record.now)) }
    ensures refused { IfErr result IsReadError }
{
    let mut writer = WriterBuilder::new().from_writer(Vec::new(alloc));
    writer.write_byte_record(record)?;
    match writer.into_inner() {
        Ok(text) => Ok(text),
        Err(error) => Err(TextError::from(error.into_error())),
    }
}

/// The line of the row's record.
pub fn row_line(alloc: Global, row: &Row) -> Result<Vec<u8>, TextError>
    ensures text { IfOk result (λ text. text.items ≡ line_of_row row.now) }
    ensures refused { IfErr result IsReadError }
{
    let fields = record_of(alloc, row)?;
    line_of(alloc, &fields)
}

/// The line of the header of exported rows.
pub fn header_line(alloc: Global) -> Result<Vec<u8>, TextError>
    ensures text { IfOk result (λ text. text.items ≡ own_header) }
    ensures refused { IfErr result IsReadError }
{
    let fields = header(alloc)?;
    line_of(alloc, &fields)
}
