//! Stores on disks in memory, and what is found after a crash.
use crate::seats::{Put, Told};
use nsf_core::Core;
use program_demonstration::key_of;
use records::{Body, Error, Geometry, Key, LARGE_ENTRIES_MAX, Mark, Rid};
use restart::{Engine, Event, Reply, restart};
use sector_device::{Device, FaultDisk, MemDisk, Which};
use std::alloc::Global;
use std::mem::forget;
use threads_lifetime::format_store;

/// A disk in memory that may fail.
pub type Disk = FaultDisk<MemDisk<Global>>;

/// The row that an engine puts before the threads begin.
pub const SERVED: Put = Put {
    rid: Rid { page: 0, slot: 0 },
    first: 100,
    second: 0,
};

/// A disk in memory with a new store, and with room to record so many writes and syncs.
pub fn formatted(
    alloc: Global,
    geometry: Geometry,
    calls: usize,
) -> Result<MemDisk<Global>, Error> {
    let mut disk = MemDisk::new(alloc, geometry.sectors(), calls)?;
    match format_store(&mut disk, geometry) {
        Ok(()) => Ok(disk),
        Err(error) => {
            forget(disk);
            Err(error)
        }
    }
}

/// A disk with a new store of eight pages and 16 slots, whose write or sync of this number fails, counted from 1.
pub fn failing(alloc: Global, fails_at: u64) -> Result<Disk, Error> {
    let disk = formatted(alloc, Geometry::new(8, 1_024, 16)?, 16_384)?;
    Ok(FaultDisk::new(disk, Which::WritesAndSyncs, fails_at))
}

// Lets the engine put its row and commit it.
fn put_row<D: Device>(engine: &mut Engine<D, Global>) -> Result<(), Error> {
    let key = key_of(SERVED.first, SERVED.second)?;
    let body = Body::new(b"")?;
    if let Reply::Txn(txn) = engine.serve(Event::Begin) {
        forget(engine.serve(Event::Insert { txn, key, body }));
        forget(engine.serve(Event::Commit { txn }));
    }
    Ok(())
}

/// An engine over the store on the device that has put a row and committed it, and flushed nothing.
pub fn served<D: Device + Drop>(alloc: Global, device: D) -> Result<Engine<D, Global>, Error> {
    match restart(alloc, device) {
        Ok(mut engine) => match put_row(&mut engine) {
            Ok(()) => Ok(engine),
            Err(error) => {
                forget(engine);
                Err(error)
            }
        },
        Err((error, device)) => {
            forget(device);
            Err(error)
        }
    }
}

// How many entries are marked.
fn count_marked(core: &Core<Global>) -> u32 {
    let mut marked: u32 = 0;
    let mut next = core.above(None);
    for _ in 0..=LARGE_ENTRIES_MAX {
        let Some((pair, mark)) = next else {
            return marked;
        };
        marked = marked.saturating_add(u32::from(mark == Mark::Marked));
        next = core.above(Some(&pair));
    }
    marked
}

// Whether there is a row at the place, with the key.
fn has_row(core: &Core<Global>, rid: Rid, key: &Key) -> bool {
    match core.get(rid) {
        Some(row) => row.key == *key,
        None => false,
    }
}

// How many of the rows are there.
fn count_there(core: &Core<Global>, rows: &[Put]) -> Result<usize, Error> {
    let mut there: usize = 0;
    for row in rows {
        let key = key_of(row.first, row.second)?;
        there = there.saturating_add(usize::from(has_row(core, row.rid, &key)));
    }
    Ok(there)
}

/// What a restart finds: how many rows are lost that were told to be safe, with the engine's, how many are there that
/// were told to be gone, and how many entries are marked.
#[derive(Clone, Copy, PartialEq)]
pub struct Found {
    pub lost: usize,
    pub back: usize,
    pub marked: u32,
}

/// What is found of these rows.
pub fn look_in(core: &Core<Global>, told: &Told) -> Result<Found, Error> {
    let served = count_there(core, &[SERVED])?;
    let there = count_there(core, &told.kept)?.saturating_add(served);
    let kept = told.kept.len().saturating_add(1);
    Ok(Found {
        lost: kept.saturating_sub(there),
        back: count_there(core, &told.gone)?,
        marked: count_marked(core),
    })
}
