//! What is found behind the crash.
use nsf_core::Core;
use records::{Error, LARGE_ENTRIES_MAX, Mark, Pair, Rid, SLOTS_PER_PAGE};
use restart::{Engine, Reply, restart};
use sector_device::Device;
use std::alloc::Global;

/// How many rows there are, how many visible entries, and whether these are the pairs of the rows, and as many.
#[derive(Clone, Copy)]
pub struct Found {
    pub rows: u32,
    pub shown: u32,
    pub same: bool,
}

// How many rows there are.
fn count_rows(core: &Core<Global>) -> u32 {
    let mut rows: u32 = 0;
    for page in 0..core.pages() {
        for slot in 0..SLOTS_PER_PAGE {
            rows = rows.saturating_add(u32::from(core.get(Rid { page, slot }).is_some()));
        }
    }
    rows
}

// Whether there is a row at the pair's place, with its key.
fn has_row(core: &Core<Global>, pair: &Pair) -> bool {
    match core.get(pair.rid) {
        Some(row) => row.key == pair.key,
        None => false,
    }
}

// How many visible entries there are, and how many of them are pairs of rows.
fn count_shown(core: &Core<Global>) -> (u32, u32) {
    let mut shown: u32 = 0;
    let mut fitting: u32 = 0;
    let mut next = core.above(None);
    for _ in 0..=LARGE_ENTRIES_MAX {
        let Some((pair, mark)) = next else {
            return (shown, fitting);
        };
        if mark == Mark::Live {
            shown = shown.saturating_add(1);
            fitting = fitting.saturating_add(u32::from(has_row(core, &pair)));
        }
        next = core.above(Some(&pair));
    }
    (shown, fitting)
}

// The refusal that a reply tells, if it is one.
fn granted(reply: &Reply<Global>) -> Result<(), Error> {
    match reply {
        Reply::Refused(error) => Err(*error),
        _ => Ok(()),
    }
}

// Makes all safe.
fn flush<D: Device>(engine: &mut Engine<D, Global>) -> Result<(), Error> {
    let reply = engine.flush_all();
    let flushed = granted(&reply);
    drop(reply);
    flushed
}

// What is found in a core.
fn found_in(core: &Core<Global>) -> Found {
    let rows = count_rows(core);
    let (shown, fitting) = count_shown(core);
    Found {
        rows,
        shown,
        same: shown == rows && fitting == rows,
    }
}

// Carries the store's build to the end, makes that safe, and looks at what is there.
fn look_into<D: Device>(engine: &mut Engine<D, Global>) -> Result<Found, Error> {
    engine.build_to_end()?;
    flush(engine)?;
    Ok(found_in(engine.core()))
}

/// Opens the store on the device, carries its build to the end, makes that safe, and looks at its rows and visible
/// entries.
pub(crate) fn look<D: Device + Drop>(alloc: Global, device: D) -> Result<Found, Error> {
    match restart(alloc, device) {
        Ok(mut engine) => {
            let found = look_into(&mut engine);
            drop(engine.into_device());
            found
        }
        Err((error, device)) => {
            drop(device);
            Err(error)
        }
    }
}
