//! Four writers beside the loops, on the store of an engine that served, to the end of all threads.
use crate::ends::{Seen, look};
use crate::found::{Disk, failing, served};
use crate::players::{Left, Writes, play_beside};
use crate::seats::{Told, WRITERS, Writer, gather, writers_on};
use crate::stage::{HeldDisk, Stage};
use crate::store::Finished;
use records::Error;
use sector_device::Device;
use std::alloc::Global;
use std::mem::forget;
use std::rt::Clock;
use std::sync::Wait;
use std::thread::Threads;
use threads_lifetime::{Closed, OpenError, OpenStore, open_engine};

/// What was seen: what the writers were told; how the flusher ended; and the end of all threads.
#[derive(Drop)]
pub struct Played {
    pub told: Told,
    pub flusher: Option<Error>,
    pub seen: Seen,
}

// The store of an engine that served, with a seat for each writer.
fn open<D: Device + Drop>(alloc: Global, device: D) -> Result<OpenStore<D>, Error> {
    match open_engine(alloc, served(alloc, device)?, usize::from(WRITERS)) {
        Ok(store) => Ok(store),
        Err((refused, engine)) => {
            forget(engine);
            match refused {
                OpenError::Refused(error) => Err(error),
                _ => Err(Error::Stopped),
            }
        }
    }
}

// The end, with the disk below the one that is held.
fn end_below<R>(end: Finished<HeldDisk<'_, Disk, R>>) -> Finished<Disk> {
    match end {
        Ok(closed) => {
            let Closed {
                device,
                core,
                horizon,
                commits,
            } = closed;
            Ok(Closed {
                device: device.disk,
                core,
                horizon,
                commits,
            })
        }
        Err((error, device)) => Err((error, device.disk)),
    }
}

// Lets the writers play on the disk.
fn play_on<'a, R: Threads + Wait + Clock + Sync>(
    rt: &R,
    alloc: Global,
    disk: Disk,
    (stage, writes): (&'a Stage<'a, R>, Writes),
) -> Result<Left<Writer<'a, R>, HeldDisk<'a, Disk, R>>, Error> {
    let writers = writers_on(alloc, stage)?;
    match open(alloc, HeldDisk { disk, stage }) {
        Ok(store) => play_beside(rt, alloc, store, writers, stage, writes),
        Err(error) => {
            forget(writers);
            Err(error)
        }
    }
}

/// Plays the scene on a new store, where the write or sync of this number fails, or none at 0.
pub fn play<R: Threads + Wait + Clock + Sync>(
    rt: &R,
    alloc: Global,
    stage: &Stage<'_, R>,
    writes: Writes,
    fails_at: u64,
) -> Result<Played, Error> {
    let disk = failing(alloc, fails_at)?;
    let Left {
        players,
        flusher,
        end,
    } = play_on(rt, alloc, disk, (stage, writes))?;
    let told = gather(alloc, &players)?;
    forget(players);
    let seen = look(alloc, end_below(end), &told)?;
    Ok(Played {
        told,
        flusher,
        seen,
    })
}
