//! Tests of the crate `program_rows`: rows that are loaded from a text, and written to one as comma-separated fields.
use crate::claims::claim;
use program_rows::{
    ColumnNames, HeaderError, RowError, RowReader, TextError, header, line_of, record_of,
};
use records::Row;
use std::alloc::Global;
use std::io;
use std::io::Read;
use std::mem::forget;

// More than the records of a text.
const MOST: usize = 9;

// What a text gave: its rows as they are exported; and as digits the lines of its records, and of those without a row.
#[derive(Drop)]
struct Given {
    text: Vec<u8>,
    lines: u64,
    refused: u64,
}

// The line of a row.
fn line_by(alloc: Global, row: &Row) -> Result<Vec<u8>, TextError> {
    let record = record_of(alloc, row)?;
    let line = line_of(alloc, &record);
    forget(record);
    line
}

// The line of the header.
fn first_line(alloc: Global) -> Result<Vec<u8>, TextError> {
    let record = header(alloc)?;
    let line = line_of(alloc, &record);
    forget(record);
    line
}

impl Given {
    fn add(&mut self, alloc: Global, row: &Row) -> Result<(), TextError> {
        let line = line_by(alloc, row)?;
        let added = self.text.extend_from_slice(line.as_slice());
        forget(line);
        Ok(added?)
    }

    fn take(
        &mut self,
        alloc: Global,
        found: Result<Row, RowError>,
        line: u64,
    ) -> Result<(), TextError> {
        self.lines = self.lines.saturating_mul(10).saturating_add(line);
        match found {
            Ok(row) => self.add(alloc, &row),
            Err(_) => {
                self.refused = self.refused.saturating_mul(10).saturating_add(line);
                Ok(())
            }
        }
    }
}

// A reader of the rows of a text.
type Rows<'a> = RowReader<&'a [u8]>;

// The calls of a reader. None says anything before it runs.

fn opened<'a>(
    alloc: Global,
    text: &'a [u8],
    names: Option<ColumnNames<'_>>,
) -> Result<Rows<'a>, TextError> {
    RowReader::new(alloc, text, names)
}

fn next(rows: &mut Rows<'_>) -> Result<Option<Result<Row, RowError>>, TextError> {
    rows.next_row()
}

fn line(rows: &Rows<'_>) -> u64 {
    rows.line()
}

// What is given before the first row.
fn begun(alloc: Global, lines: u64) -> Result<Given, TextError> {
    let text = first_line(alloc)?;
    Ok(Given {
        text,
        lines,
        refused: 0,
    })
}

// Takes the rows that are left.
fn take_all(alloc: Global, rows: &mut Rows<'_>, given: &mut Given) -> Result<(), TextError> {
    for _ in 0..MOST {
        let Some(found) = next(rows)? else {
            return Ok(());
        };
        given.take(alloc, found, line(rows))?;
    }
    Ok(())
}

// What the rows of a reader give.
fn given_by(alloc: Global, rows: &mut Rows<'_>) -> Result<Given, TextError> {
    let mut given = begun(alloc, line(rows))?;
    match take_all(alloc, rows, &mut given) {
        Ok(()) => Ok(given),
        Err(error) => {
            forget(given);
            Err(error)
        }
    }
}

// What a text gives.
fn read_all(
    alloc: Global,
    text: &[u8],
    names: Option<ColumnNames<'_>>,
) -> Result<Given, TextError> {
    let mut rows = opened(alloc, text, names)?;
    let read = given_by(alloc, &mut rows);
    forget(rows);
    read
}

// A text, the text that its rows are exported to, and as digits the lines of its records, and of those without a row.
type Case = (&'static [u8], &'static [u8], u64, u64);

static CASES: [Case; 8] = [
    // the columns are found by their names; a record has two lines, and an empty one is before the last
    (
        b"body,other,key\n1,x,ant\n\"say\n\"\"hi\"\"\",,\"b,c\"\nlonely\n\n2,y,bee\n",
        b"key,body\nant,1\n\"b,c\",\"say\n\"\"hi\"\"\"\nbee,2\n",
        12357,
        5,
    ),
    // what is exported is loaded
    (
        b"key,body\n,\n\"\r\",\"\n\"\n",
        b"key,body\n,\n\"\r\",\"\n\"\n",
        123,
        0,
    ),
    // lines may end with a carriage return too
    (
        b"key,body\r\nant,1\r\nx\r\n\r\n\"b\r\nc\",2\r\nbee,3",
        b"key,body\nant,1\n\"b\r\nc\",2\nbee,3\n",
        12357,
        3,
    ),
    // a quote opens only at the start of a field, and a byte order mark is before that; a last record whose quote isn't
    // closed has no row
    (
        b"\xef\xbb\xbf\"key\",body\n\n\nx,\"y\n",
        b"key,body\n",
        14,
        4,
    ),
    (b"key,body\nx,\"", b"key,body\n", 12, 2),
    (b"key,body\nx,\"y\"\"", b"key,body\n", 12, 2),
    (b"key,body\nx,\"y\"\"\"", b"key,body\nx,\"y\"\"\"\n", 12, 0),
    (b"key,body\n\nx,y\"", b"key,body\nx,\"y\"\"\"\n", 13, 0),
];

// Whether a text comes to that.
fn comes_to(alloc: Global, case: &Case) -> bool {
    let (text, wanted, lines, refused) = *case;
    match read_all(alloc, text, None) {
        Ok(given) => {
            let is_so = given.text.as_slice() == wanted
                && given.lines == lines
                && given.refused == refused;
            forget(given);
            is_so
        }
        Err(_) => false,
    }
}

#[test]
fn rows_are_loaded_and_exported(rt: HostRuntime) {
    for case in &CASES {
        claim(&rt, comes_to(rt.alloc(), case), "what a text gives");
    }
}

// A source of one byte without end.
#[derive(Drop)]
struct Endless;

impl Read for Endless {
    fn read(&mut self, buffer: &mut [u8]) -> io::Result<usize> {
        buffer.fill(b'a');
        Ok(buffer.len())
    }
}

// Whether a record without end is refused, is the last one, and little of it is read.
fn ends_early(alloc: Global) -> Result<bool, TextError> {
    let mut rows = RowReader::without_header(alloc, Endless);
    let first = rows.next_row()?;
    let line = rows.line();
    let second = rows.next_row()?;
    let read = rows.bytes_read();
    forget(rows);
    let is_told = matches!(first, Some(Err(RowError::RecordTooLong)));
    Ok(is_told && second.is_none() && line == 1 && read < 1 << 21)
}

// Why the header of a text is refused.
fn fault_of(alloc: Global, text: &[u8], names: Option<ColumnNames<'_>>) -> Option<HeaderError> {
    match read_all(alloc, text, names) {
        Ok(given) => {
            forget(given);
            None
        }
        Err(TextError::Header(error)) => Some(error),
        Err(_) => None,
    }
}

// Texts, whether the columns are named, and what their headers lack.
static LACKING: [(&[u8], bool, Option<HeaderError>); 8] = [
    (b"", false, Some(HeaderError::Missing)),
    (b"ant,1\n", false, Some(HeaderError::NoNames)),
    (b"a,b,key,d\n", false, Some(HeaderError::NoBody)),
    (b"body,x\n", false, Some(HeaderError::NoKey)),
    (b"b,c\n", true, Some(HeaderError::NoKey)),
    (b"a,b\n", true, Some(HeaderError::NoBody)),
    (b"c,a\n", true, None),
    (b"a,\"c\n", false, Some(HeaderError::OpenQuote)),
];

// The names of the columns, where they are named.
fn names(are_named: bool) -> Option<ColumnNames<'static>> {
    if are_named {
        Some(ColumnNames {
            key: "a",
            body: "c",
        })
    } else {
        None
    }
}

#[test]
fn what_a_header_lacks_is_told(rt: HostRuntime) {
    for (text, are_named, wanted) in &LACKING {
        let fault = fault_of(rt.alloc(), *text, names(*are_named));
        claim(&rt, fault == *wanted, "what a header lacks");
    }
    let is_early = ends_early(rt.alloc()).unwrap_or(false);
    claim(&rt, is_early, "a record without end");
}
