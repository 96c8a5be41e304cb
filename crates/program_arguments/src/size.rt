//! How large a new store is made, where its numbers aren't given.
ghost use Rattle.std.specs.Prelude.{◌*◌, ◌≤◌};
ghost use Rattle.record_values.specs.declared.geometry.TheConstants.{ENTRIES_MIN, LARGE_ENTRIES_MAX};
ghost use Rattle.record_values.specs.declared.geometry.TheConstants.{LARGE_LOG_SLOTS_MAX, LARGE_PAGES_MAX};
ghost use Rattle.record_values.specs.declared.geometry.TheConstants.{LOG_SLOTS_MIN};
ghost use Rattle.record_values.specs.declared.rid.TheConstants.{SLOTS_PER_PAGE};
ghost use Rattle.program_arguments.specs.declared.size.TheConstants.{ROWS_MAX};

use records::{
    ENTRIES_MIN, LARGE_ENTRIES_MAX, LARGE_LOG_SLOTS_MAX, LARGE_PAGES_MAX, PAGES_MAX, SLOTS_PER_PAGE,
};

/// The most rows that a store has room for.
pub(crate) const ROWS_MAX: u32 = 4_128_768;

/// The pages of a store of which nothing is said.
pub(crate) const PAGES: u32 = 16;

// How many places for entries there are for each row.
const ENTRIES_PER_ROW: u32 = 4;

// The slots of each log of a small store, and of a thousand rows of a large one.
const SLOTS: u32 = 16;

/// As many pages as so many rows need (`enough`), if a store can have them.
pub(crate) fn pages_for(rows: u32) -> u32
    ensures within { (1 ≤ result) × (result ≤ LARGE_PAGES_MAX) }
    ensures enough { rows ≤ ROWS_MAX → rows ≤ SLOTS_PER_PAGE * result }
{
    rows.div_ceil(u32::from(SLOTS_PER_PAGE))
        .clamp(1, LARGE_PAGES_MAX)
}

// As many rows as so many pages hold.
fn rows_of(pages: u32) -> u32 {
    pages.saturating_mul(u32::from(SLOTS_PER_PAGE))
}

/// As many places for entries as so many pages are given: four for each row, if an index can have them.
pub(crate) fn entries_for(pages: u32) -> u32
    ensures within { (ENTRIES_MIN ≤ result) × (result ≤ LARGE_ENTRIES_MAX) }
{
    rows_of(pages)
        .saturating_mul(ENTRIES_PER_ROW)
        .clamp(ENTRIES_MIN, LARGE_ENTRIES_MAX)
}

/// As many slots of a log as so many pages are given. A large store has more: an image of it is dear, and the log's
/// length says how often one is taken.
pub(crate) fn slots_for(pages: u32) -> u32
    ensures within { (LOG_SLOTS_MIN ≤ result) × (result ≤ LARGE_LOG_SLOTS_MAX) }
{
    if pages <= PAGES_MAX {
        return SLOTS;
    }
    (rows_of(pages) / 1_000)
        .saturating_mul(SLOTS)
        .clamp(SLOTS, LARGE_LOG_SLOTS_MAX)
}
