//! Rows are read from a text.
ghost use Rattle.std.specs.Prelude.{◌≡◌, Ok, None, true, IfErr, IfOk, OnErr};
ghost use Rattle.csv.specs.Reading.{has_failed, reader_source};
ghost use Rattle.csv.specs.Records.{fields_of};
ghost use Rattle.program_quotes.specs.Quotes.{passed_in};
ghost use Rattle.program_rows.specs.Reading.{AreChosen, BeginsAt, CameTo, IsCutOrLong, IsNoHeader, IsPlain};
ghost use Rattle.program_rows.specs.Reading.{IsReadError, IsWhole, ReadsOne};
ghost use Rattle.program_rows.specs.Rows.{own_columns};

use crate::columns::{HeaderError, columns_named, default_columns};
use crate::error::{TextError, error_of_text};
use crate::rows::{Columns, RowError, row_under};
use csv::{ByteRecord, Reader, ReaderBuilder};
use program_quotes::Watched;
use records::Row;
use std::alloc::Global;
use std::io::Read;

/// The names of a row's columns.
#[derive(Clone, Copy)]
pub struct ColumnNames<'a> {
    pub key: &'a str,
    pub body: &'a str,
}

// The columns of these names, or of their own ones.
fn columns_in(header: &ByteRecord, names: Option<ColumnNames<'_>>) -> Result<Columns, HeaderError>
    ensures { AreChosen (fields_of header.now) names.entry result }
{
    match names {
        Some(names) => columns_named(header, names.key.as_bytes(), names.body.as_bytes()),
        None => default_columns(header),
    }
}

// How many line feeds the fields of the record have.
fn line_feeds_in(record: &ByteRecord) -> u64 {
    let mut count: u64 = 0;
    for byte in record.as_slice() {
        if *byte == b'\n' {
            count = count.saturating_add(1);
        }
    }
    count
}

// How many line feeds are read late of a text whose first record was read up to this line.
fn late_feeds(to: u64, first: &ByteRecord) -> u64 {
    u64::from(to <= line_feeds_in(first).saturating_add(1))
}

// What a read of a record came to.
#[derive(Clone, Copy)]
enum Came {
    /// It gave a record.
    Record,
    /// The text has none any more.
    End,
    /// The text ends inside a quote.
    Cut,
    /// The record is too long.
    TooLong,
}

// A reader of the records of a text, each as it is.
fn plain_reader<R: Read>(alloc: Global, source: R) -> Reader<Watched<R>>
    ensures { BeginsAt R.remaining source result }
{
    ReaderBuilder::new()
        .has_headers(false)
        .flexible(true)
        .from_reader(alloc, Watched::new(source))
}

// Why no record was read.
fn refusal_of<R: Read>(reader: &Reader<Watched<R>>, error: csv::Error) -> Result<Came, TextError>
    ensures cut { IfOk result (IsCutOrLong (reader_source reader.now)) }
    ensures whole { OnErr result (IsWhole (reader_source reader.now)) }
    ensures failed { IfErr result IsReadError }
{
    if reader.get_ref().is_cut_off() {
        return Ok(Came::Cut);
    }
    if reader.get_ref().is_too_long() {
        return Ok(Came::TooLong);
    }
    Err(error_of_text(error))
}

// Reads the next record.
fn read_record<R: Read>(
    reader: &mut Reader<Watched<R>>,
    record: &mut ByteRecord,
) -> Result<Came, TextError>
    ensures came { IfOk result (λ came. IsPlain reader.old
        → CameTo R.remaining came (fields_of record.new) reader.old reader.new) }
    ensures fails { OnErr result (IsPlain reader.old → has_failed reader.new ≡ true) }
    ensures failed { IfErr result IsReadError }
    ensures whole { OnErr result (IsWhole (reader_source reader.new)) }
    ensures ended { has_failed reader.old ≡ true → (result ≡ Ok Came.End) × (has_failed reader.new ≡ true) }
{
    match reader.read_byte_record(record) {
        Ok(true) => Ok(Came::Record),
        Ok(false) => Ok(Came::End),
        Err(error) => refusal_of(reader, error),
    }
}

// Reads the header, and finds the columns of rows in it.
fn read_header<R: Read>(
    reader: &mut Reader<Watched<R>>,
    record: &mut ByteRecord,
    names: Option<ColumnNames<'_>>,
) -> Result<Columns, TextError>
    ensures read { IfOk result (λ columns. IsPlain reader.old
        → ReadsOne R.remaining true (fields_of record.new) reader.old reader.new
        × AreChosen (fields_of record.new) names.entry (Ok columns)) }
    ensures refused { IfErr result (λ e. IsPlain reader.old
        → IsNoHeader R.remaining names.entry e reader.old reader.new) }
{
    match read_record(reader, record) {
        Ok(Came::Record) => match columns_in(record, names) {
            Ok(columns) => Ok(columns),
            Err(error) => Err(TextError::Header(error)),
        },
        Ok(Came::End) => Err(TextError::Header(HeaderError::Missing)),
        Ok(Came::Cut) => Err(TextError::Header(HeaderError::OpenQuote)),
        Ok(Came::TooLong) => Err(TextError::Header(HeaderError::TooLong)),
        Err(error) => Err(error),
    }
}

/// The rows of a text, record by record, under a header.
#[derive(Drop)]
pub struct RowReader<R: Read> {
    reader: Reader<Watched<R>>,
    record: ByteRecord,
    columns: Columns,
    /// How many fields the header has.
    fields: usize,
    /// The line in which the last record begins that was read.
    line: u64,
    /// How many line feeds are read with the record behind the one that they end: a carriage return ends it before. It
    /// is known once one was read.
    late: Option<u64>,
}

impl<R: Read + Drop> RowReader<R> {
    ghost use Rattle.program_rows.specs.Reading.{GivesNext, HasNoHeader, StandsBehindHeader, columns_of, fields_in};
    ghost use Rattle.program_rows.specs.Reading.{has_ended, line_in, reader_of};

    /// A reader of the rows behind the header of the text (`begins`). Its columns are those of these names, as by
    /// `columns_named`, or without names as by `default_columns`.
    ///
    /// `Header` where there is no header, or it doesn't name the columns, ends with the text inside a quote, or is too
    /// long; else the text's error, or `NoMemory`.
    pub fn new(alloc: Global, source: R, names: Option<ColumnNames<'_>>) -> Result<Self, TextError>
        ensures begins { IfOk result (StandsBehindHeader R.remaining source names.entry) }
        ensures refused { IfErr result (HasNoHeader R.remaining source names.entry) }
    {
        let mut reader = plain_reader(alloc, source);
        let mut record = ByteRecord::new(alloc);
        let columns = read_header(&mut reader, &mut record, names)?;
        let fields = record.len();
        let late = late_feeds(reader.position().line, &record);
        let mut rows = RowReader {
            reader,
            record,
            columns,
            fields,
            line: 1,
            late: None,
        };
        rows.line = rows.line_from(1);
        rows.late = Some(late);
        Ok(rows)
    }

    /// A reader of the rows of a text without a header (`begins`): each record has two fields, the key and the body
    /// (`columns`, `fields`).
    pub fn without_header(alloc: Global, source: R) -> Self
        ensures begins { BeginsAt R.remaining source (reader_of result) }
        ensures columns { columns_of result ≡ own_columns }
        ensures fields { fields_in result ≡ 2 }
    {
        RowReader {
            reader: plain_reader(alloc, source),
            record: ByteRecord::new(alloc),
            columns: Columns::own(),
            fields: 2,
            line: 1,
            late: None,
        }
    }

    // The line in which the record begins that was read from this line on. A line feed ended it, or follows the
    // carriage return that did; or the text ended.
    fn line_from(&self, from: u64) -> u64 {
        let to = self.reader.position().line;
        let within = line_feeds_in(&self.record);
        if self.reader.get_ref().has_ended() {
            return from.max(to.saturating_sub(within));
        }
        let first = to.saturating_sub(within).saturating_sub(1);
        from.max(first).saturating_add(self.late.unwrap_or(0))
    }

    // How many line feeds are read late, by the record that was read, if that is the first one.
    fn late_now(&self) -> u64 {
        match self.late {
            Some(late) => late,
            None => late_feeds(self.reader.position().line, &self.record),
        }
    }

    /// Reads the next record, and answers its row, or why it has none; none behind the last record (`gives`). A record
    /// that ends with the text inside a quote, or is too long, has no row, and is the last one.
    ///
    /// The error is the text's, or `NoMemory`, and neither of these (`whole`). It ends the text (`fails`): then there
    /// is no record any more (`ended`).
    pub fn next_row(&mut self) -> Result<Option<Result<Row, RowError>>, TextError>
        ensures gives { IfOk result (λ found. IsPlain (reader_of self.old)
            → GivesNext R.remaining found self.old self.new) }
        ensures fails { OnErr result (IsPlain (reader_of self.old) → has_ended self.new ≡ true) }
        ensures whole { OnErr result (IsWhole (reader_source (reader_of self.new))) }
        ensures ended { has_ended self.old ≡ true → (result ≡ Ok None) × (has_ended self.new ≡ true) }
        ensures columns { columns_of self.new ≡ columns_of self.old }
        ensures fields { fields_in self.new ≡ fields_in self.old }
    {
        let from = self.reader.position().line;
        match read_record(&mut self.reader, &mut self.record) {
            Ok(Came::Record) => {
                self.line = self.line_from(from);
                self.late = Some(self.late_now());
                Ok(Some(row_under(&self.record, self.columns, self.fields)))
            }
            Ok(Came::End) => Ok(None),
            Ok(Came::Cut) => {
                self.line = self.line_from(from);
                Ok(Some(Err(RowError::OpenQuote)))
            }
            Ok(Came::TooLong) => {
                self.line = from.saturating_add(self.late.unwrap_or(0));
                Ok(Some(Err(RowError::RecordTooLong)))
            }
            Err(error) => Err(error),
        }
    }

    /// How many bytes of the source were read so far, in whatever pieces.
    pub fn bytes_read(&self) -> u64
        ensures { result ≡ passed_in (reader_source (reader_of self.now)) }
    {
        self.reader.get_ref().passed()
    }

    /// The line in which the last record begins that was read, from 1.
    pub fn line(&self) -> u64
        ensures { result ≡ line_in self.now }
    {
        self.line
    }
}
