//! A store on a disk is copied or moved to a new file.
use crate::copying::{NotCopied, copy_disk};
use crate::making::{create_device, publish};
use crate::opening::read_disk;
use crate::refused::Refused;
use block_host::InFile;
use records::{Error, Geometry};
use restart::MigrateError;
use sector_device::Device;
use std::alloc::Global;
use std::fs::File;
use std::rt::Files;
use store_file::Troubled;
use store_moving::{NotVersionOne, move_disk, old_geometry};

/// Why a store wasn't moved, by the file that was refused.
#[derive(Drop)]
pub enum NotMoved {
    /// The old file, or the store in it.
    Old(Refused),
    /// The new one.
    New(Refused),
}

impl NotMoved {
    // The same; where the new device failed, with the reason that it tells.
    fn because<D: Troubled>(self, new: &D) -> NotMoved {
        match self {
            NotMoved::New(refused) => NotMoved::New(refused.because(new)),
            old => old,
        }
    }
}

// Why the store isn't of version 1.
fn of_other(refused: NotVersionOne) -> NotMoved {
    match refused {
        NotVersionOne::Newer => NotMoved::Old(Refused::Newer),
        NotVersionOne::Refused(error) => NotMoved::Old(Refused::Store(error)),
    }
}

fn of_move(error: MigrateError) -> NotMoved {
    match error {
        MigrateError::Old(error) => NotMoved::Old(Refused::Store(error)),
        MigrateError::New(error) => NotMoved::New(Refused::Store(error)),
        MigrateError::NoMemory => NotMoved::Old(Refused::Store(Error::NoMemory)),
    }
}

fn of_copy(error: NotCopied) -> NotMoved {
    match error {
        NotCopied::Old(error) => NotMoved::Old(Refused::Store(error)),
        NotCopied::New(error) => NotMoved::New(Refused::Store(error)),
    }
}

/// How the store on an old disk comes to a new one.
#[derive(Clone, Copy)]
enum Way {
    /// Its sectors are copied.
    Copy,
    /// It is of version 1, and moved.
    Move,
}

// Ends the use of the new file's device, and gives the file its name.
fn publish_new<R: Files<File = File> + AllocGlobal, N: InFile + Troubled>(
    rt: &R,
    path: &str,
    new: &mut N,
) -> Result<(), NotMoved> {
    match publish(rt, path, new) {
        Ok(()) => Ok(()),
        Err(refused) => Err(NotMoved::New(refused)),
    }
}

// Copies the store to the disk of the new file's draft, and gives that its name.
fn finish_copy<
    R: Files<File = File> + AllocGlobal,
    O: Device,
    N: Device + Troubled + InFile + Drop,
>(rt: &R, old: &mut O, path: &str, geometry: Geometry, mut new: N) -> Result<(), NotMoved> {
    if let Err(error) = copy_disk(old, &mut new, geometry.sectors()) {
        return Err(of_copy(error).because(&new));
    }
    publish_new(rt, path, &mut new)
}

// Moves the store of version 1 to the disk of the new file's draft, and gives that its name.
fn finish_move<
    R: Files<File = File> + AllocGlobal,
    O: Device,
    N: Device + Troubled + InFile + Drop,
>(rt: &R, old: &mut O, path: &str, new: N) -> Result<(), NotMoved> {
    // The disk has the file's lock until that has its name.
    let mut disk = match move_disk(rt.alloc(), old, new) {
        Ok(disk) => disk,
        Err((error, disk)) => return Err(of_move(error).because(&disk)),
    };
    publish_new(rt, path, &mut disk)
}

fn finish<R: Files<File = File> + AllocGlobal, O: Device, N: Device + Troubled + InFile + Drop>(
    rt: &R,
    old: &mut O,
    path: &str,
    geometry: Geometry,
    new: N,
    way: Way,
) -> Result<(), NotMoved> {
    match way {
        Way::Copy => finish_copy(rt, old, path, geometry, new),
        Way::Move => finish_move(rt, old, path, new),
    }
}

// Makes a new file, and puts the store on the old disk into it. Where that is refused before the file has its name, no
// file is left, if the draft can be removed.
fn make_from<R: Files<File = File> + AllocGlobal, O: Device>(
    rt: &R,
    old: &mut O,
    path: &str,
    geometry: Geometry,
    has_blocks: bool,
    way: Way,
) -> Result<(), NotMoved> {
    let disk = match create_device(rt, path, geometry, has_blocks) {
        Ok(disk) => disk,
        Err(refused) => return Err(NotMoved::New(refused)),
    };
    let made = finish(rt, old, path, geometry, disk, way);
    if made.is_err() {
        let _ = store_file::discard(rt, path);
    }
    made
}

// How large the store of version 2 or 3 on the disk is.
fn geometry_of<O: Device>(alloc: Global, old: &mut O) -> Result<Geometry, NotMoved> {
    match read_disk(alloc, old) {
        Ok(stored) => Ok(stored.geometry),
        Err(refused) => Err(NotMoved::Old(refused)),
    }
}

/// Copies the store of version 2 or 3 on the old disk to a new file.
pub(crate) fn copy_to<R: Files<File = File> + AllocGlobal, O: Device>(
    rt: &R,
    old: &mut O,
    path: &str,
    has_blocks: bool,
) -> Result<(), NotMoved> {
    let geometry = geometry_of(rt.alloc(), old)?;
    make_from(rt, old, path, geometry, has_blocks, Way::Copy)
}

/// Moves the store on the old disk to a new file. One of version 2 or 3 needs that only where the new file is of
/// another kind.
pub(crate) fn move_to<R: Files<File = File> + AllocGlobal, O: Device>(
    rt: &R,
    old: &mut O,
    path: &str,
    has_blocks: bool,
    is_same_kind: bool,
) -> Result<(), NotMoved> {
    match old_geometry(old) {
        Ok(geometry) => make_from(rt, old, path, geometry, has_blocks, Way::Move),
        Err(NotVersionOne::Newer) if !is_same_kind => copy_to(rt, old, path, has_blocks),
        Err(refused) => Err(of_other(refused)),
    }
}
