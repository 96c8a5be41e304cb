//! A store under one thread.
use nsf::{
    Body, Device, Engine, Error, Event, Geometry, Key, MemDisk, Reply, format_store, restart,
};
use std::alloc::{Allocator, Global};

// The calls of an engine, each once: they promise nothing, so that who makes them has no more to read than it needs.

/// Opens the store on the device.
pub fn opened<D: Device, A: Allocator + Copy>(
    alloc: A,
    device: D,
) -> Result<Engine<D, A>, (Error, D)> {
    restart(alloc, device)
}

/// The device, with what was written to it.
pub fn device_of<D: Device, A: Allocator + Copy>(engine: Engine<D, A>) -> D {
    engine.into_device()
}

/// Serves a request: the reply, unless it tells that nothing was done.
pub fn ask<D: Device>(
    engine: &mut Engine<D, Global>,
    event: Event,
) -> Result<Reply<Global>, Error> {
    granted(engine.serve(event))
}

/// A disk in memory with a new store of this shape.
pub fn formatted(alloc: Global, geometry: Geometry) -> Result<MemDisk<Global>, Error> {
    let mut disk = MemDisk::new(alloc, geometry.sectors(), 10_000)?;
    format_store(&mut disk, geometry)?;
    Ok(disk)
}

/// The reply, unless it tells that nothing was done. (What is asked for below is never `Skipped`, nor is the log full.)
pub fn granted(reply: Reply<Global>) -> Result<Reply<Global>, Error> {
    match reply {
        Reply::Refused(error) => Err(error),
        Reply::Skipped | Reply::LogFull => Err(Error::NoSuchTxn),
        reply => Ok(reply),
    }
}

// Puts a row, builds the index, and writes all to the device.
fn serve_all(engine: &mut Engine<MemDisk<Global>, Global>) -> Result<(), Error> {
    let Reply::Txn(txn) = granted(engine.serve(Event::Begin))? else {
        return Err(Error::NoSuchTxn);
    };
    let key = Key::new(b"ant")?;
    let body = Body::new(b"1")?;
    granted(engine.serve(Event::Insert { txn, key, body }))?;
    granted(engine.serve(Event::Commit { txn }))?;
    granted(engine.serve(Event::Create))?;
    engine.build_to_end()?;
    granted(engine.flush_all())?;
    Ok(())
}

// Makes a store on the disk, with a row and an index.
fn fill(
    alloc: Global,
    mut disk: MemDisk<Global>,
    geometry: Geometry,
) -> Result<MemDisk<Global>, Error> {
    format_store(&mut disk, geometry)?;
    match restart(alloc, disk) {
        Ok(mut engine) => {
            let served = serve_all(&mut engine);
            let disk = engine.into_device();
            served?;
            Ok(disk)
        }
        Err((error, _)) => Err(error),
    }
}

/// A disk in memory with a new store, which has a row and an index.
pub fn filled(alloc: Global) -> Result<MemDisk<Global>, Error> {
    let geometry = Geometry::new(1, 64, 4)?;
    let disk = MemDisk::new(alloc, geometry.sectors(), 1_000)?;
    fill(alloc, disk, geometry)
}

/// Whether just one row has each of the keys, by the index of the store; where it may be lacking, one or none.
pub fn has_each<D: Device>(
    engine: &Engine<D, Global>,
    keys: &[&[u8]],
    may_lack: &[bool],
) -> Result<bool, Error> {
    for (key, may_lack) in keys.iter().zip(may_lack) {
        let places = engine.core().find(Key::new(key)?)?;
        let count = places.len();
        drop(places);
        if count > 1 || (count == 0 && !*may_lack) {
            return Ok(false);
        }
    }
    Ok(true)
}

/// Whether just one row has each of the keys, by the index of the store on the disk.
pub fn holds_each(alloc: Global, disk: MemDisk<Global>, keys: &[&[u8]; 3]) -> Result<bool, Error> {
    match opened(alloc, disk) {
        Ok(engine) => {
            let has = has_each(&engine, keys, &[false; 3]);
            drop(device_of(engine));
            has
        }
        Err((error, _)) => Err(error),
    }
}
