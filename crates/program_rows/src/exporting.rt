//! The rows of a core are printed.
ghost use Rattle.std.specs.Prelude.{◌≡◌, IfErr, IfOk, OnOk, take};
ghost use Rattle.std.specs.Io.KnownBytes.{Appends};
ghost use Rattle.nsf_core.specs.Value.{value_of};
ghost use Rattle.core_scan.specs.Visible.{left_of, next_after};
ghost use Rattle.program_rows.specs.Exported.{IsNotInOrder, IsNotPrinted};
ghost use Rattle.program_rows.specs.Exported.{all_keys, json_by_key, json_by_place, line_by, pair_records};
ghost use Rattle.program_rows.specs.Exported.{page_records, row_record, slot_records, text_by_key, text_by_place};
ghost use Rattle.program_rows.specs.Exported.{visible_records};
ghost use Rattle.program_rows.specs.Reading.{IsReadError};
ghost use Rattle.program_rows.specs.Rows.{own_header};

use crate::error::{RowsError, TextError};
use crate::objects::json_line;
use crate::text::{header_line, row_line};
use core_scan::{KeyRange, scan};
use model::Life;
use nsf_core::Core;
use records::{Pair, Rid, Row, SLOTS_PER_PAGE};
use std::alloc::Global;
use std::io::Write;
use std::ops::Bound;

// How many pairs are asked for at once, in the order of the index.
const PAIRS: usize = 64;

/// How the line of a row is written.
#[derive(Clone, Copy)]
enum Format {
    /// As comma-separated fields.
    Fields,
    /// As an object of JSON.
    Json,
}

// The line of the row.
fn line_by(alloc: Global, format: Format, row: &Row) -> Result<Vec<u8>, TextError>
    ensures text { IfOk result (λ text. text.items ≡ line_by format row.now) }
    ensures refused { IfErr result IsReadError }
{
    match format {
        Format::Fields => row_line(alloc, row),
        Format::Json => match json_line(alloc, row) {
            Ok(line) => Ok(line),
            Err(_) => Err(TextError::NoMemory),
        },
    }
}

fn print_header<W: Write>(alloc: Global, output: &mut W) -> Result<(), TextError>
    ensures printed { OnOk result (Appends (W.contents output.old) (W.contents output.new) own_header) }
    ensures refused { IfErr result IsReadError }
{
    let line = header_line(alloc)?;
    output.write_all(line.as_slice())?;
    Ok(())
}

// Prints the record of the row at the place, if there is one.
fn print_row<W: Write>(
    alloc: Global,
    core: &Core<Global>,
    format: Format,
    rid: Rid,
    output: &mut W,
) -> Result<(), TextError>
    ensures printed { OnOk result (Appends (W.contents output.old) (W.contents output.new)
        (row_record format (value_of core.now).heap.rows rid)) }
    ensures refused { IfErr result IsReadError }
{
    let Some(row) = core.get(rid) else {
        return Ok(());
    };
    let line = line_by(alloc, format, &row)?;
    output.write_all(line.as_slice())?;
    Ok(())
}

// Prints the records of a page, in the order of its slots.
fn print_page<W: Write>(
    alloc: Global,
    core: &Core<Global>,
    format: Format,
    page: u32,
    output: &mut W,
) -> Result<(), TextError>
    ensures printed { OnOk result (Appends (W.contents output.old) (W.contents output.new)
        (slot_records format (value_of core.now).heap.rows page SLOTS_PER_PAGE)) }
    ensures refused { IfErr result IsReadError }
{
    for slot in 0..SLOTS_PER_PAGE {
        print_row(alloc, core, format, Rid { page, slot }, output)?;
    }
    Ok(())
}

// The same by one write.
fn print_page_at_once<W: Write>(
    alloc: Global,
    core: &Core<Global>,
    format: Format,
    page: u32,
    output: &mut W,
) -> Result<(), TextError>
    ensures printed { OnOk result (Appends (W.contents output.old) (W.contents output.new)
        (slot_records format (value_of core.now).heap.rows page SLOTS_PER_PAGE)) }
    ensures refused { IfErr result IsReadError }
{
    let mut text = Vec::new(alloc);
    print_page(alloc, core, format, page, &mut text)?;
    output.write_all(text.as_slice())?;
    Ok(())
}

// Prints the records of all pages.
fn print_pages<W: Write>(
    alloc: Global,
    core: &Core<Global>,
    format: Format,
    output: &mut W,
) -> Result<(), TextError>
    ensures printed { OnOk result (Appends (W.contents output.old) (W.contents output.new)
        (page_records format (value_of core.now).heap.rows (value_of core.now).heap.pages)) }
    ensures refused { IfErr result IsReadError }
{
    for page in 0..core.pages() {
        print_page_at_once(alloc, core, format, page, output)?;
    }
    Ok(())
}

/// Prints a header and the record of each row, in the order of their places.
///
/// The error is the output's, or that memory was refused (`refused`): then a part is printed (which, no clause says).
pub fn export_by_place<W: Write>(
    alloc: Global,
    core: &Core<Global>,
    output: &mut W,
) -> Result<(), RowsError>
    ensures printed { OnOk result (Appends (W.contents output.old) (W.contents output.new)
        (text_by_place (value_of core.now))) }
    ensures refused { IfErr result IsNotPrinted }
{
    print_header(alloc, output)?;
    print_pages(alloc, core, Format::Fields, output)?;
    Ok(())
}

/// Prints the object of each row, a line each, in the order of their places.
///
/// The error is the output's, or that memory was refused (`refused`): then a part is printed (which, no clause says).
pub fn export_json_by_place<W: Write>(
    alloc: Global,
    core: &Core<Global>,
    output: &mut W,
) -> Result<(), RowsError>
    ensures printed { OnOk result (Appends (W.contents output.old) (W.contents output.new)
        (json_by_place (value_of core.now))) }
    ensures refused { IfErr result IsNotPrinted }
{
    match print_pages(alloc, core, Format::Json, output) {
        Ok(()) => Ok(()),
        Err(error) => Err(RowsError::Text(error)),
    }
}

// Prints the records of the rows of these pairs.
fn print_pairs<W: Write>(
    alloc: Global,
    core: &Core<Global>,
    format: Format,
    pairs: &[Pair],
    output: &mut W,
) -> Result<(), TextError>
    ensures printed { OnOk result (Appends (W.contents output.old) (W.contents output.new)
        (pair_records format (value_of core.now).heap.rows pairs.now)) }
    ensures refused { IfErr result IsReadError }
{
    for pair in pairs {
        print_row(alloc, core, format, pair.rid, output)?;
    }
    Ok(())
}

// The same by one write.
fn print_pairs_at_once<W: Write>(
    alloc: Global,
    core: &Core<Global>,
    format: Format,
    pairs: &[Pair],
    output: &mut W,
) -> Result<(), TextError>
    ensures printed { OnOk result (Appends (W.contents output.old) (W.contents output.new)
        (pair_records format (value_of core.now).heap.rows pairs.now)) }
    ensures refused { IfErr result IsReadError }
{
    let mut text = Vec::new(alloc);
    print_pairs(alloc, core, format, pairs, &mut text)?;
    output.write_all(text.as_slice())?;
    Ok(())
}

fn all_keys() -> KeyRange
    ensures { result ≡ all_keys }
{
    KeyRange {
        from: Bound::Unbounded,
        to: Bound::Unbounded,
    }
}

// Prints the records of the next pairs behind this one, and answers behind which to go on.
fn print_next<W: Write>(
    alloc: Global,
    core: &Core<Global>,
    format: Format,
    last: Option<Pair>,
    output: &mut W,
) -> Result<Option<Pair>, RowsError>
    ensures printed { OnOk result (Appends (W.contents output.old) (W.contents output.new)
        (pair_records format (value_of core.now).heap.rows
        (take PAIRS (left_of (value_of core.now).index.entries all_keys last)))) }
    ensures next { IfOk result (λ next. next ≡ next_after last PAIRS
        (left_of (value_of core.now).index.entries all_keys last)) }
    ensures complete { OnOk result ((value_of core.now).life ≡ Life.Complete) }
    ensures refused { IfErr result (IsNotInOrder (value_of core.now).life) }
{
    let page = scan(alloc, core, &all_keys(), last.as_ref(), PAIRS)?;
    print_pairs_at_once(alloc, core, format, page.pairs.as_slice(), output)?;
    Ok(page.next)
}

// Prints the records of the rows of all visible pairs, in the order of these.
fn print_visible<W: Write>(
    alloc: Global,
    core: &Core<Global>,
    format: Format,
    output: &mut W,
) -> Result<(), RowsError>
    ensures printed { OnOk result (Appends (W.contents output.old) (W.contents output.new)
        (visible_records format (value_of core.now))) }
    ensures complete { OnOk result ((value_of core.now).life ≡ Life.Complete) }
    ensures refused { IfErr result (IsNotInOrder (value_of core.now).life) }
{
    let mut last = print_next(alloc, core, format, None, output)?;
    while let Some(pair) = last {
        last = print_next(alloc, core, format, Some(pair), output)?;
    }
    Ok(())
}

/// Prints a header and the record of each row, in the order of the index.
///
/// `NoIndex`, `NotBuilt` while the index is built, and `NoMemory`; or the error is the output's (`refused`). Then a
/// part is printed, or none (what, no clause says).
pub fn export_by_key<W: Write>(
    alloc: Global,
    core: &Core<Global>,
    output: &mut W,
) -> Result<(), RowsError>
    ensures printed { OnOk result (Appends (W.contents output.old) (W.contents output.new)
        (text_by_key (value_of core.now))) }
    ensures complete { OnOk result ((value_of core.now).life ≡ Life.Complete) }
    ensures refused { IfErr result (IsNotInOrder (value_of core.now).life) }
{
    print_header(alloc, output)?;
    print_visible(alloc, core, Format::Fields, output)
}

/// Prints the object of each row, a line each, in the order of the index. It is refused as `export_by_key` is.
pub fn export_json_by_key<W: Write>(
    alloc: Global,
    core: &Core<Global>,
    output: &mut W,
) -> Result<(), RowsError>
    ensures printed { OnOk result (Appends (W.contents output.old) (W.contents output.new)
        (json_by_key (value_of core.now))) }
    ensures complete { OnOk result ((value_of core.now).life ≡ Life.Complete) }
    ensures refused { IfErr result (IsNotInOrder (value_of core.now).life) }
{
    print_visible(alloc, core, Format::Json, output)
}
