//! What a store is, and how far it has come.
use flip_image::VERSION;
use model::Life;
use nsf_core::Core;
use program_files::Stored;
use program_values::Answer;
use records::{Geometry, SLOTS_PER_PAGE};
use std::alloc::Global;
use std::io;
use std::io::Write;

// The version of a store that isn't small.
const LARGE_VERSION: u32 = VERSION + 1;

fn write_life<W: Write>(life: Life, output: &mut W) -> io::Result<()> {
    let answer = Answer::Life(life);
    writeln!(output, "{answer}")
}

// The version of the format that has a store of this size.
fn version_of(geometry: Geometry) -> u32 {
    if geometry.is_small() {
        VERSION
    } else {
        LARGE_VERSION
    }
}

// A number that is told of a store, under its name.
type Told = (&'static str, u64);

// How large the store is, and how far its log has come.
fn sizes_of(stored: &Stored) -> [Told; 7] {
    let Geometry {
        pages,
        entries,
        slots,
    } = stored.geometry;
    [
        ("format", u64::from(version_of(stored.geometry))),
        ("pages", u64::from(pages)),
        ("entries", u64::from(entries)),
        ("slots", u64::from(slots)),
        ("slots in use", stored.open_slots),
        ("records behind image", stored.records),
        ("last record", stored.last),
    ]
}

// How many rows and entries there are, and how many more there is room for. No transaction is active behind an opening,
// so no place is reserved.
fn counts_of(core: &Core<Global>, geometry: Geometry) -> [Told; 6] {
    let counts = core.counts();
    let (rows, entries) = (counts.rows as u64, counts.entries as u64);
    let room = u64::from(geometry.pages).saturating_mul(u64::from(SLOTS_PER_PAGE));
    [
        ("rows", rows),
        ("live", counts.visible() as u64),
        ("marked", counts.marked as u64),
        ("reserved", 0),
        ("free", u64::from(geometry.entries).saturating_sub(entries)),
        ("rows free", room.saturating_sub(rows)),
    ]
}

// Prints numbers, a line each.
fn write_numbers<W: Write>(numbers: &[Told], output: &mut W) -> io::Result<()> {
    for (name, number) in numbers {
        writeln!(output, "{name} {number}")?;
    }
    Ok(())
}

/// Prints what is told of the store, a line each.
pub(crate) fn write_stat<W: Write>(
    stored: &Stored,
    core: &Core<Global>,
    output: &mut W,
) -> io::Result<()> {
    write_numbers(&sizes_of(stored), output)?;
    write_life(core.life(), output)?;
    write_numbers(&counts_of(core, stored.geometry), output)
}
