// Whether what is found is what was told.
use crate::told::Told;
use model::{Life, ROWS_PER_PAGE};
use nsf_core::{Core, Ticket};
use records::{Error, Mark, Pair};
use restart::Engine;
use sector_device::Device;
use std::alloc::Allocator;

// More than the entries of an index.
const ENTRIES: usize = 65;

// Whether the rows of the only page are those.
fn has_rows<A: Allocator + Copy>(core: &Core<A>, told: &Told) -> bool {
    match core.page_slots(0) {
        Some(rows) => *rows == told.rows.page(0),
        None => told.rows.page(0) == [None; ROWS_PER_PAGE],
    }
}

fn count_rows<A: Allocator + Copy>(core: &Core<A>) -> usize {
    match core.page_slots(0) {
        Some(rows) => rows.iter().filter(|row| row.is_some()).count(),
        None => 0,
    }
}

fn is_of_row<A: Allocator + Copy>(core: &Core<A>, pair: Pair) -> bool {
    match core.get(pair.rid) {
        Some(row) => row.key == pair.key,
        None => false,
    }
}

// How many entries are visible; none where one of them is of no row.
fn count_entries<A: Allocator + Copy>(core: &Core<A>) -> Option<usize> {
    let mut count: usize = 0;
    let mut entry = core.above(None);
    for _ in 0..ENTRIES {
        let Some((pair, mark)) = entry else {
            return Some(count);
        };
        if mark == Mark::Live {
            if !is_of_row(core, pair) {
                return None;
            }
            count = count.saturating_add(1);
        }
        entry = core.above(Some(&pair));
    }
    None
}

// Whether the index fits the rows. So few are in it that its build makes no checkpoint.
fn is_indexed<A: Allocator + Copy>(core: &Core<A>) -> bool {
    match core.life() {
        Life::Absent => core.above(None).is_none(),
        Life::Building { .. } => count_entries(core).is_some(),
        Life::Complete => count_entries(core) == Some(count_rows(core)),
    }
}

fn is_told<A: Allocator + Copy>(core: &Core<A>, told: &Told) -> bool {
    told.safe <= core.last() && told.life == core.life() && has_rows(core, told) && is_indexed(core)
}

// Makes steps of the builder up to the end of the build.
fn build<D: Device, A: Allocator + Copy>(
    engine: &mut Engine<D, A>,
) -> Result<Option<Ticket>, Error> {
    engine.build_to_end()
}

// Whether the build comes to its end, where there is an index, and has the pair of each row then. Where memory is
// refused it goes on.
fn is_built<D: Device, A: Allocator + Copy>(engine: &mut Engine<D, A>) -> bool {
    if engine.core().life() == Life::Absent {
        return true;
    }
    let built = match build(engine) {
        Err(Error::NoMemory) => build(engine),
        built => built,
    };
    built.is_ok() && engine.core().life() == Life::Complete && is_indexed(engine.core())
}

/// Whether the store has the rows that were told, is as far, and has kept what was told to be safe; whether its entries
/// fit; and whether they do so once its build has come to its end.
pub(crate) fn is_found<D: Device, A: Allocator + Copy>(
    engine: &mut Engine<D, A>,
    told: &Told,
) -> bool {
    is_told(engine.core(), told) && is_built(engine) && has_rows(engine.core(), told)
}
