//! The map as a picture.
use crate::map::{Calls, CrashMap};
use program_values::FATES;
use std::io;
use std::io::Write;

// What is drawn begins so far from the left and the top.
const LEFT: u64 = 90;

const TOP: u64 = 70;

// A fate's column is so wide.
const COLUMN: u64 = 90;

// One write or sync is so high where there are few, and all together are at most so high, but at least one each.
const CALL: u64 = 12;

const HEIGHT: u64 = 720;

// A line of the legend is so high.
const LINE: u64 = 20;

// The hues of what was left lie so far apart.
const HUES: u64 = 47;

// How high one write or sync is drawn of so many.
fn call_height(calls: u64) -> u64 {
    HEIGHT.checked_div(calls).unwrap_or(CALL).clamp(1, CALL)
}

// The hue of what has this number.
fn hue_of(number: usize) -> u64 {
    (number as u64 % 360)
        .saturating_mul(HUES)
        .saturating_add(210)
        % 360
}

// How many writes and syncs there are.
fn calls_of(map: &CrashMap) -> u64 {
    map.calls.last().map_or(0, |calls| u64::from(calls.last))
}

// Draws one column's piece.
fn write_piece<W: Write>(
    output: &mut W,
    column: usize,
    top: u64,
    height: u64,
    number: usize,
) -> io::Result<()> {
    let x = (column as u64 % 5)
        .saturating_mul(COLUMN)
        .saturating_add(LEFT);
    writeln!(
        output,
        "<rect x=\"{x}\" y=\"{top}\" width=\"{}\" height=\"{height}\" fill=\"hsl({},60%,70%)\"/>",
        COLUMN - 2,
        hue_of(number)
    )
}

// Draws writes and syncs in a row that leave the same.
fn write_calls<W: Write>(output: &mut W, calls: &Calls, each: u64) -> io::Result<()> {
    let first = u64::from(calls.first);
    let many = u64::from(calls.last)
        .saturating_sub(first)
        .saturating_add(1);
    let top = first
        .saturating_sub(1)
        .saturating_mul(each)
        .saturating_add(TOP);
    let height = many.saturating_mul(each);
    for (column, number) in calls.left.iter().enumerate() {
        write_piece(output, column, top, height, *number)?;
    }
    if height >= 10 {
        writeln!(
            output,
            "<text x=\"{}\" y=\"{}\" text-anchor=\"end\">{first}</text>",
            LEFT - 8,
            top.saturating_add(10)
        )?;
    }
    Ok(())
}

// Writes the names of the columns.
fn write_head<W: Write>(output: &mut W, width: u64, height: u64) -> io::Result<()> {
    writeln!(
        output,
        "<svg xmlns=\"http://www.w3.org/2000/svg\" width=\"{width}\" height=\"{height}\" font-family=\"sans-serif\" font-size=\"12\">
<rect width=\"{width}\" height=\"{height}\" fill=\"white\"/>
<text x=\"{LEFT}\" y=\"24\">What a crash leaves, by the write or sync that it cuts short (down) and what becomes of unsynced sectors (across)</text>"
    )?;
    for (column, fate) in FATES.iter().enumerate() {
        writeln!(
            output,
            "<text x=\"{}\" y=\"58\">{fate}</text>",
            (column as u64 % 5)
                .saturating_mul(COLUMN)
                .saturating_add(LEFT)
        )?;
    }
    Ok(())
}

// The first line of what was left.
fn first_line(lines: &[u8]) -> &[u8] {
    match lines.iter().position(|byte| *byte == b'\n') {
        Some(end) => &lines[..end],
        None => lines,
    }
}

// Writes a line of the legend.
fn write_legend<W: Write>(output: &mut W, number: usize, lines: &[u8]) -> io::Result<()> {
    let top = (number as u64 % 100_000)
        .saturating_mul(LINE)
        .saturating_add(TOP);
    let x = LEFT + 5 * COLUMN + 20;
    write!(
        output,
        "<rect x=\"{x}\" y=\"{top}\" width=\"14\" height=\"14\" fill=\"hsl({},60%,70%)\"/>
<text x=\"{}\" y=\"{}\">prefix {number}: ",
        hue_of(number),
        x + 22,
        top.saturating_add(12)
    )?;
    output.write_all(first_line(lines))?;
    let rows = lines
        .split(|byte| *byte == b'\n')
        .filter(|line| line.starts_with(b"row "))
        .count();
    writeln!(output, ", rows: {rows}</text>")
}

/// Draws the map: writes and syncs down, fates across, and a colour for what was left, with a legend beside it.
pub(crate) fn write_picture<W: Write>(output: &mut W, map: &CrashMap) -> io::Result<()> {
    let calls = calls_of(map);
    let each = call_height(calls);
    let legend = (map.prefixes.len() as u64 % 100_000).saturating_mul(LINE);
    let height = calls
        .saturating_mul(each)
        .max(legend)
        .saturating_add(TOP + 20);
    write_head(output, LEFT + 5 * COLUMN + 320, height)?;
    for run in &map.calls {
        write_calls(output, run, each)?;
    }
    for (number, lines) in map.prefixes.iter().enumerate() {
        write_legend(output, number, lines)?;
    }
    writeln!(output, "</svg>")
}
