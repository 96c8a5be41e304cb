//! A store that is opened again after its threads, and one of version 1 that lives on.
ghost use Rattle.std.specs.Prelude.{◌≡◌};
ghost use Rattle.shared.specs.Seats.{AreNewSeats};
ghost use Rattle.threads_lifetime.specs.Gathered.{AreAllSeats};

use crate::days_tests::{Place, are_placed, day};
use crate::many_threads::Put;
use crate::one_thread::{device_of, formatted};
use headline::{Day, Lived, Mortal, NotLived, Reopened, finish_and_open, live_on};
use nsf::{Device, Error, Geometry, Group, Key, MemDisk, MigrateError, Rid, Shared};
use shared::Told;
use std::alloc::Global;
use std::marker::Brand;
use std::mem::forget;
use std::sync::Wait;
use test_store::{BUILDING_1, sector_with};
use threads_lifetime::{OpenStore, Parts, open_store};

// ---- after threads

// The key of the row that is put.
const KEY: &[u8] = b"ant";

// Takes all back, and opens the store again.
fn end<B: Group, D: Mortal, R: Wait>(
    rt: &R,
    alloc: Global,
    shared: Shared<B>,
    parts: Parts<B, D>,
) -> Result<Reopened<D, Global>, Error>
    requires { AreAllSeats B.site.seats parts.seats.items }
{
    match finish_and_open(rt, alloc, shared, parts, Vec::new(alloc)) {
        Ok(reopened) => Ok(reopened),
        Err((error, device)) => {
            forget(device);
            Err(error)
        }
    }
}

// A row is put at the last of new seats, and is still under way as all is taken back. What is opened then.
fn put_and_end<B: Group, D: Mortal, R: Wait>(
    rt: &R,
    alloc: Global,
    shared: Shared<B>,
    mut parts: Parts<B, D>,
) -> Result<Reopened<D, Global>, Error>
    requires { AreNewSeats B.site.board B.site.seats parts.seats.items }
{
    let Some(mut seat) = parts.seats.pop() else {
        forget(parts);
        forget(shared);
        return Err(Error::NoMemory);
    };
    let put = Put::put_one(rt, &shared, &mut seat, Key::new(KEY)?);
    match parts.seats.push(seat) {
        Ok(()) => {
            let reopened = end(rt, alloc, shared, parts)?;
            put.and(Ok(reopened))
        }
        Err(failed) => {
            forget(failed);
            forget(parts);
            forget(shared);
            Err(Error::NoMemory)
        }
    }
}

// The same in the store.
fn put_in<B: Group, D: Mortal, R: Wait>(
    rt: &R,
    alloc: Global,
    store: OpenStore<D>,
) -> Result<Reopened<D, Global>, Error>
    requires { store.site ≡ B.site }
{
    match store.start::<B, Told>() {
        Ok((shared, parts)) => put_and_end(rt, alloc, shared, parts),
        Err((error, device)) => {
            forget(device);
            Err(error)
        }
    }
}

// Whether all was written out, and the row is at the first place.
fn is_reopened<D: Mortal>(reopened: Reopened<D, Global>) -> bool {
    let Reopened { engine, unwritten } = reopened;
    let row = engine.core().get(Rid { page: 0, slot: 0 });
    forget(engine);
    match row {
        Some(row) => unwritten.is_none() && row.key.as_slice() == KEY,
        None => false,
    }
}

fn reopen<D: Mortal, R: Wait>(rt: &R, alloc: Global, device: D) -> Result<bool, Error> {
    match open_store(alloc, device, 2) {
        Ok(store) => Ok(is_reopened(put_in::<Brand, D, R>(rt, alloc, store)?)),
        Err((_, device)) => {
            forget(device);
            Err(Error::NotFormatted)
        }
    }
}

/// Whether a row that a seat put is found, where all is taken back while it is under way, and the power fails then.
pub(crate) fn is_kept_by_the_end<R: Wait>(rt: &R, alloc: Global) -> Result<bool, Error> {
    let disk = formatted(alloc, Geometry::new(1, 64, 4)?)?;
    reopen(rt, alloc, disk)
}

// ---- a store of version 1

const OLD_SECTORS: u64 = 1_118;

// Writes a store of version 1, as the format document has it, and syncs it. Whether that was done.
fn write_old<D: Device>(disk: &mut D) -> bool {
    for n in 0..OLD_SECTORS {
        let sector = sector_with(BUILDING_1, n);
        let written = n < disk.sectors() && disk.write(n, &sector).is_ok();
        if !written {
            return false;
        }
    }
    disk.sync().is_ok()
}

// The one call of `live_on`, which promises much.
fn live_moved<O: Device, D: Mortal>(
    alloc: Global,
    old: &mut O,
    device: D,
    days: &[Day<Global>],
) -> Result<Lived<D, Global>, NotLived<MigrateError, D, Global>> {
    live_on(alloc, old, device, days, true)
}

// The places of the rows after a day on which another row is put.
static PLACES: [Place; 2] = [(b"ant", Some(0)), (b"bee", Some(1))];

// Whether the rows lie in their places, and the index is complete.
fn are_moved<O: Device, D: Mortal>(
    alloc: Global,
    old: &mut O,
    device: D,
    days: &[Day<Global>],
) -> Result<bool, Error> {
    match live_moved(alloc, old, device, days) {
        Ok(lived) => {
            let Lived {
                answers,
                engine,
                unbuilt,
            } = lived;
            forget(answers);
            let placed = are_placed(engine.core(), &PLACES);
            forget(engine);
            Ok(placed? && unbuilt.is_none())
        }
        Err(_) => Err(Error::OldVersion),
    }
}

/// Whether a store of version 1 is moved, serves a day, and is built to its end.
pub(crate) fn is_moved(alloc: Global) -> Result<bool, Error> {
    let mut old = MemDisk::new(alloc, OLD_SECTORS, 2_000)?;
    if !write_old(&mut old) {
        return Err(Error::DeviceFailed);
    }
    let new = MemDisk::new(alloc, Geometry::new(1, 64, 4)?.sectors(), 4_096)?;
    let days = [day(
        alloc,
        "begin\ninsert 1 =bee =\nstep 1\ncommit 1\nflush\n",
        false,
    )?];
    are_moved(alloc, &mut old, new, &days)
}
