//! Rows as comma-separated fields: what a program loads from such a text into a store, and exports from it, so or as
//! lines of JSON.
//!
//! Proved: which row a record gives, or why none (`row_of`, and `row_under` beneath a header of so many fields); the
//! record of a row (`record_of`), and the lines of both (`line_of`, `row_line`). So are the columns of names, the first
//! of each (`column_named`, `columns_named`), or `key` and `body` (`default_columns`). An export prints just the rows,
//! in the order of their places (`export_by_place`) or of the visible pairs (`export_by_key`). So does one as objects
//! of JSON, a line each (`export_json_by_place`, `export_json_by_key`), which have the bytes of key and body as text
//! where they are UTF-8, and else as digits under another name (`json_line`).
//!
//! A `RowReader` begins behind the header of its text, the first record (`begins`), or at the start of a text without
//! one (`without_header`), and gives what the records behind that give, one behind the other (`gives`); so where the
//! bytes of the source are known, those of the text are the ones that it reads. A `Loader` inserts just the row of the
//! record that it takes, and counts a record without one (`taken`). It counts rows whose transaction is committed and
//! safe (`commit`), and tells what the store refused (`refused`).
//!
//! Laws: the record of a row gives the row, and a record of two fields is that of the row which it gives (`each_row`).
//! What a writer writes of a row's record, a reader reads (`each_line`). A reader of JSON reads a row's object, and no
//! two rows have one line as objects (`each_object`).
//!
//! Only tested: the lines in which records begin, and that a record which ends with the text inside a quote, or is too
//! long, is refused. The source is watched for that: where it has ended inside a quote, or how long its record is, is
//! proved of what was read of it. Nor is it proved, but only tested, that an error of the text (`Io`) comes only where
//! its source or the output failed, or `NoMemory` where memory was refused; or what was printed before an error.
//!
//! A field has the bytes of its key or body as they are. A text that begins with such a record, whose key begins with a
//! byte order mark, is read without that: so an export begins with a header.
#![tactic(auto)]

mod columns;
mod error;
mod exporting;
mod laws;
mod loading;
mod objects;
mod reading;
mod rows;
mod text;

pub use columns::{HeaderError, column_named, columns_named, default_columns, header};
pub use error::{RowsError, TextError};
pub use exporting::{export_by_key, export_by_place, export_json_by_key, export_json_by_place};
pub use laws::{each_line, each_object, each_row};
pub use loading::{Loader, Taken};
pub use objects::json_line;
pub use reading::{ColumnNames, RowReader};
pub use rows::{Columns, RowError, record_of, row_of, row_under};
pub use text::{header_line, line_of, row_line};
