//! A disk in memory, of which one call may fail.
use flip_image::Halves;
use records::{Error, Geometry};
use sector_device::{Device, Fate, FaultDisk, MemDisk, SECTOR_SIZE, Which};
use std::alloc::Global;
use std::marker::Model;
use test_store::{Edit, sector_with, write_at};

// More than the calls that a test makes from one crash to the next.
const CALLS: usize = 4_096;

fn is_read<D: Device>(device: &mut D, n: u64, sector: &mut [u8; SECTOR_SIZE]) -> bool {
    n < device.sectors() && device.read(n, sector).is_ok()
}

fn is_written<D: Device>(device: &mut D, n: u64, sector: &[u8; SECTOR_SIZE]) -> bool {
    n < device.sectors() && device.write(n, sector).is_ok()
}

// Writes bytes into sectors of a device.
fn edit<D: Device>(device: &mut D, edits: &[Edit<'_>]) -> Result<(), Error> {
    for (n, at, bytes) in edits {
        let mut sector = [0; SECTOR_SIZE];
        if !is_read(device, *n, &mut sector) {
            return Err(Error::DeviceTooSmall);
        }
        write_at(&mut sector, *at, bytes);
        if !is_written(device, *n, &sector) {
            return Err(Error::DeviceFailed);
        }
    }
    Ok(())
}

// Whether the sectors from the first number up to the end, which is left out, hold these bytes, and zeros elsewhere.
fn holds<D: Device>(device: &mut D, edits: &[Edit<'_>], first: u64, end: u64) -> bool {
    for n in first..end {
        let mut sector = [0; SECTOR_SIZE];
        if !is_read(device, n, &mut sector) || sector != sector_with(edits, n) {
            return false;
        }
    }
    true
}

// Makes each sector of a device hold what the same one of another does, and syncs it.
fn make_same<D: Device, E: Device>(from: &mut D, to: &mut E) -> Result<(), Error> {
    let mut sector = [0; SECTOR_SIZE];
    for n in 0..from.sectors() {
        let copied = is_read(from, n, &mut sector) && is_written(to, n, &sector);
        if !copied {
            return Err(Error::DeviceFailed);
        }
    }
    match to.sync() {
        Ok(()) => Ok(()),
        Err(_) => Err(Error::DeviceFailed),
    }
}

// A disk of zeros, with room to record its calls.
fn zeros(alloc: Global, sectors: u64) -> Result<MemDisk<Global>, Error> {
    Ok(MemDisk::new(alloc, sectors, CALLS)?)
}

// The disk, of which the call of this number fails.
fn faulty(disk: MemDisk<Global>, which: Which, call: u64) -> FaultDisk<MemDisk<Global>> {
    FaultDisk::new(disk, which, call)
}

// The disk below.
fn below(device: FaultDisk<MemDisk<Global>>) -> MemDisk<Global> {
    device.into_inner()
}

fn crash(disk: &mut MemDisk<Global>, fate: Fate) {
    disk.crash(&[fate]);
}

fn format_on<D: Device>(device: &mut D, geometry: Geometry) -> Result<(), Error> {
    Halves::format(device, geometry)
}

/// A disk in memory, of which one call may fail.
#[derive(Drop)]
pub struct Disk {
    pub(crate) device: FaultDisk<MemDisk<Global>>,
    // the memory of what is answered of a store on it
    pub(crate) alloc: Global,
}

impl Model for Disk {
    ghost use Rattle.std.specs.Prelude.{⊤};

    ghost Value = { ⊤ };

    ghost view = { λ _. tt };
}

impl Disk {
    /// A disk of so many sectors of zeros. No call of it fails.
    pub fn bare(alloc: Global, sectors: u64) -> Result<Disk, Error> {
        let device = faulty(zeros(alloc, sectors)?, Which::All, 0);
        Ok(Disk { device, alloc })
    }

    /// A disk with a store that was just formatted, of so many pages and slots. No call of it fails.
    pub fn formatted(alloc: Global, pages: u32, slots: u32) -> Result<Disk, Error> {
        let geometry = Geometry::large(pages, pages.saturating_mul(64), slots)?;
        let mut disk = Disk::bare(alloc, geometry.sectors())?;
        match format_on(&mut disk.device, geometry) {
            Ok(()) => Ok(disk),
            Err(error) => {
                drop(disk);
                Err(error)
            }
        }
    }

    /// The disk with these bytes in its sectors.
    pub fn edited(mut self, edits: &[Edit<'_>]) -> Result<Disk, Error> {
        match edit(&mut self.device, edits) {
            Ok(()) => Ok(self),
            Err(error) => {
                drop(self);
                Err(error)
            }
        }
    }

    /// Another disk of as many sectors, all zeros. No call of it fails.
    pub fn blank(&self) -> Result<Disk, Error> {
        Disk::bare(self.alloc, self.device.sectors())
    }

    /// This disk, once its sectors hold what those of the other do, all synced. No call of it fails.
    pub fn made_as(self, other: &mut Disk) -> Result<Disk, Error> {
        let mut disk = self.failing(Which::All, 0);
        match make_same(&mut other.device, &mut disk.device) {
            Ok(()) => Ok(disk.crash(Fate::New)),
            Err(error) => {
                drop(disk);
                Err(error)
            }
        }
    }

    /// The disk, where from now on the call of this number fails, of those that are counted; or none at 0.
    pub fn failing(self, which: Which, call: u64) -> Disk {
        let Disk { device, alloc } = self;
        let device = faulty(below(device), which, call);
        Disk { device, alloc }
    }

    /// How many calls were counted.
    pub fn made(&self) -> u64 {
        self.device.made()
    }

    /// What a crash leaves, where each sector that is not synced has this fate. No call of it fails.
    pub fn crash(self, fate: Fate) -> Disk {
        let Disk { device, alloc } = self;
        let mut disk = below(device);
        crash(&mut disk, fate);
        let device = faulty(disk, Which::All, 0);
        Disk { device, alloc }
    }

    /// Whether the sectors from the first number up to the end, which is left out, hold these bytes, and zeros
    /// elsewhere.
    pub fn holds(&mut self, edits: &[Edit<'_>], first: u64, end: u64) -> bool {
        holds(&mut self.device, edits, first, end)
    }
}
