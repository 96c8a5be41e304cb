//! What can still be read of a damaged store is put into a new file.
use crate::migration::{NotMoved, copy_to};
use crate::refused::{Refused, granted};
use flip_image::{Half, Halves, SUPERBLOCK_SECTOR};
use model::Life;
use program_commands::Store;
use records::{Error, Geometry};
use restart::Event;
use sector_device::{Device, SECTOR_SIZE, zero_sector};
use std::alloc::Global;
use std::fs::File;
use std::io;
use std::io::Write;
use std::rt::Files;
use store_file::{Detached, FileDisk};
use store_salvage::{Part, Salvaged, copy_readable, salvage};

// The sectors of the largest small store, and of the largest store.
const FEW_SECTORS: u64 = 30_726;

const MOST_SECTORS: u64 = 4_458_502;

// More sizes than are tried, each four times the one before.
const SIZES: u32 = 8;

// A disk in memory.
type Memory = FileDisk<Detached, Global>;

// What was salvaged of a store, on a disk in memory.
#[derive(Drop)]
struct Found {
    disk: Memory,
    // the sectors that can't be read, also such as the store doesn't have
    unread: Vec<u64>,
    salvaged: Salvaged<Global>,
    // Whether it is of the half that wasn't current.
    is_older: bool,
}

impl Found {
    fn into_disk(self) -> Memory {
        self.disk
    }
}

// Makes the half current that isn't.
fn turn<D: Device>(disk: &mut D) -> Result<(), Error> {
    let mut halves = Halves::open(disk)?;
    halves.flip(disk)
}

// The first sector of a store of this geometry, which is made on the disk.
fn first_of(disk: &mut Memory, geometry: Geometry) -> Result<[u8; SECTOR_SIZE], Error> {
    Halves::format(disk, geometry)?;
    let mut first = zero_sector();
    if disk.sectors() == 0 || disk.read(SUPERBLOCK_SECTOR, &mut first).is_err() {
        return Err(Error::DeviceFailed);
    }
    Ok(first)
}

// Writes the first sector.
fn put_first(disk: &mut Memory, first: &[u8; SECTOR_SIZE]) -> Result<(), Error> {
    if disk.sectors() == 0 || disk.write(SUPERBLOCK_SECTOR, first).is_err() {
        return Err(Error::DeviceFailed);
    }
    Ok(())
}

// Copies what can be read to the disk. `DeviceTooSmall` where that has fewer sectors than so many.
fn copy_on<O: Device>(
    alloc: Global,
    old: &mut O,
    disk: &mut Memory,
    sectors: u64,
) -> Result<Vec<u64>, Error> {
    if disk.sectors() < sectors {
        return Err(Error::DeviceTooSmall);
    }
    copy_readable(alloc, old, disk, sectors)
}

// The same; where a geometry is given, the first sector is that of a store which has it.
fn copy_under<O: Device>(
    alloc: Global,
    old: &mut O,
    disk: &mut Memory,
    sectors: u64,
    given: Option<Geometry>,
) -> Result<Vec<u64>, Error> {
    let Some(geometry) = given else {
        return copy_on(alloc, old, disk, sectors);
    };
    let first = first_of(disk, geometry)?;
    let unread = copy_on(alloc, old, disk, sectors)?;
    put_first(disk, &first)?;
    Ok(unread)
}

// What can be salvaged of the current half, or of the other one, on a disk of so many sectors. `DeviceTooSmall` where
// the store has more.
fn salvage_on<O: Device>(
    alloc: Global,
    old: &mut O,
    sectors: u64,
    given: Option<Geometry>,
    is_older: bool,
) -> Result<Found, Error> {
    let mut disk = FileDisk::new(alloc, Detached, sectors as usize)?;
    let unread = copy_under(alloc, old, &mut disk, sectors, given)?;
    if is_older {
        turn(&mut disk)?;
    }
    let salvaged = salvage(alloc, &mut disk)?;
    Ok(Found {
        disk,
        unread,
        salvaged,
        is_older,
    })
}

// The same, on a disk that the store fits on. Where its geometry isn't given, its first sector says how large that is,
// which may be damaged: so larger disks are tried, one behind the other.
fn salvage_half<O: Device>(
    alloc: Global,
    old: &mut O,
    given: Option<Geometry>,
    is_older: bool,
) -> Result<Found, Error> {
    if let Some(geometry) = given {
        return salvage_on(alloc, old, geometry.sectors(), given, is_older);
    }
    let mut sectors = FEW_SECTORS;
    for _ in 0..SIZES {
        match salvage_on(alloc, old, sectors, None, is_older) {
            Err(Error::DeviceTooSmall) => sectors = sectors.saturating_mul(4).min(MOST_SECTORS),
            found => return found,
        }
    }
    Err(Error::DeviceTooSmall)
}

// What can be salvaged of the other half. Where nothing can, the current one is refused so.
fn salvage_older<O: Device>(
    alloc: Global,
    old: &mut O,
    given: Option<Geometry>,
    refused: Error,
) -> Result<Found, Error> {
    match salvage_half(alloc, old, given, true) {
        Ok(found) => Ok(found),
        Err(_) => Err(refused),
    }
}

// What can be salvaged of the current half; of the other one, where the image of that is damaged.
fn salvage_newest<O: Device>(
    alloc: Global,
    old: &mut O,
    given: &Option<Geometry>,
) -> Result<Found, Error> {
    match salvage_half(alloc, old, *given, false) {
        Err(Error::Damaged { sector }) if sector != SUPERBLOCK_SECTOR => {
            salvage_older(alloc, old, *given, Error::Damaged { sector })
        }
        found => found,
    }
}

fn name_of(half: Half) -> &'static str {
    match half {
        Half::A => "A",
        Half::B => "B",
    }
}

// Prints the sectors of the store that can't be read.
fn write_unread<W: Write>(found: &Found, output: &mut W) -> io::Result<()> {
    let sectors = found.salvaged.halves.geometry().sectors();
    for sector in &found.unread {
        if *sector < sectors {
            writeln!(output, "unread sector {sector}")?;
        }
    }
    Ok(())
}

fn write_part<W: Write>(part: &Part, output: &mut W) -> io::Result<()> {
    match part {
        Part::Page(page) => writeln!(output, "lost page {page}"),
        Part::Log(slot) => writeln!(output, "lost log from slot {slot}"),
    }
}

// Prints what is lost, a line each.
fn write_lost<W: Write>(found: &Found, output: &mut W) -> io::Result<()> {
    write_unread(found, output)?;
    if found.is_older {
        let half = name_of(found.salvaged.halves.current().other());
        writeln!(output, "lost half {half}")?;
    }
    for part in &found.salvaged.lost {
        write_part(part, output)?;
    }
    Ok(())
}

// Drops the index, where there is one.
fn drop_index<D: Device>(store: &mut Store<D>) -> Result<(), Refused> {
    if store.life() != Life::Absent {
        granted(store.serve(Event::Drop))?;
    }
    granted(store.flush())
}

// The store that was salvaged, without an index.
fn without_index<D: Device + Drop>(alloc: Global, disk: D) -> Result<D, Refused> {
    let mut store = match Store::open(alloc, disk) {
        Ok(store) => store,
        Err((error, disk)) => {
            drop(disk);
            return Err(Refused::Store(error));
        }
    };
    let dropped = drop_index(&mut store);
    let disk = store.into_device();
    match dropped {
        Ok(()) => Ok(disk),
        Err(refused) => {
            drop(disk);
            Err(refused)
        }
    }
}

// The disk of what can be salvaged of an old one. What is lost is printed.
fn salvaged_disk<O: Device, W: Write>(
    alloc: Global,
    old: &mut O,
    given: Option<Geometry>,
    output: &mut W,
) -> Result<Memory, Refused> {
    let found = salvage_newest(alloc, old, &given)?;
    let written = write_lost(&found, output);
    let disk = found.into_disk();
    match written {
        Ok(()) => without_index(alloc, disk),
        Err(error) => {
            drop(disk);
            Err(Refused::Stream(error))
        }
    }
}

/// Puts the rows that can still be read of the store on the old disk into a store in a new file, one of blocks where
/// that is wanted. It has no index. What is lost is printed. A geometry that is given is taken for that of the old
/// store.
pub(crate) fn salvage_to<R: Files<File = File> + AllocGlobal, O: Device, W: Write>(
    rt: &R,
    old: &mut O,
    new: &str,
    (has_blocks, given): (bool, Option<Geometry>),
    output: &mut W,
) -> Result<(), NotMoved> {
    let mut disk = match salvaged_disk(rt.alloc(), old, given, output) {
        Ok(disk) => disk,
        Err(refused) => return Err(NotMoved::Old(refused)),
    };
    copy_to(rt, &mut disk, new, has_blocks)
}
