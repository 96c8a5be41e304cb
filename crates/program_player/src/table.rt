//! The map as a table.
use crate::map::{Calls, CrashMap};
use program_values::FATES;
use std::io;
use std::io::Write;

// Writes which calls these are.
fn write_calls<W: Write>(output: &mut W, calls: &Calls) -> io::Result<()> {
    if calls.first == calls.last {
        return write!(output, "{}", calls.first);
    }
    write!(output, "{} to {}", calls.first, calls.last)
}

// Writes what each fate leaves.
fn write_row<W: Write>(output: &mut W, calls: &Calls) -> io::Result<()> {
    write_calls(output, calls)?;
    for number in calls.left {
        write!(output, "\t{number}")?;
    }
    writeln!(output)
}

// Writes what was left, each line behind two spaces.
fn write_prefix<W: Write>(output: &mut W, number: usize, lines: &[u8]) -> io::Result<()> {
    writeln!(output, "prefix {number}")?;
    for line in lines.split(|byte| *byte == b'\n') {
        if !line.is_empty() {
            output.write_all(b"  ")?;
            output.write_all(line)?;
            output.write_all(b"\n")?;
        }
    }
    Ok(())
}

/// Writes the map: a line for writes and syncs in a row that leave the same, with the number of what each fate leaves,
/// parted by tabs; and then what was left, by its number.
pub(crate) fn write_table<W: Write>(output: &mut W, map: &CrashMap) -> io::Result<()> {
    write!(output, "call")?;
    for fate in FATES {
        write!(output, "\t{fate}")?;
    }
    writeln!(output)?;
    for calls in &map.calls {
        write_row(output, calls)?;
    }
    for (number, lines) in map.prefixes.iter().enumerate() {
        write_prefix(output, number, lines)?;
    }
    Ok(())
}
