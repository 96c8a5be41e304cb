//! Files of the operating system below a disk.
ghost use Rattle.std.specs.Prelude.{◌≡◌, ◌+◌, ◌^◌, ◌<◌};

use crate::backing::{Backing, Stored};
use crate::names::{FileNumber, number_of};
use crate::trouble::Trouble;
use sector_device::SECTOR_SIZE;
use std::fs::{File, Metadata, OpenFile, TryLockError};
use std::io;
use std::io::ErrorKind;
use std::os::fd::AsRawFd;
use std::os::unix::fs::{FileExt, MetadataExt};

/// A file that can hold a disk: it is read and written at a place, synced and locked.
pub trait StoreFile: FileExt + OpenFile + Drop {
    /// Locks it for this opening alone.
    fn try_lock(&self) -> Result<(), TryLockError>;

    /// Locks it against those that would lock it alone.
    fn try_lock_shared(&self) -> Result<(), TryLockError>;

    /// The same file, under a number that no standard stream has: what is meant for one that was closed must not land
    /// in the file.
    fn apart(self) -> io::Result<Self>
    where
        Self: Sized;
}

impl StoreFile for File {
    fn try_lock(&self) -> Result<(), TryLockError> {
        File::try_lock(self)
    }

    fn try_lock_shared(&self) -> Result<(), TryLockError> {
        File::try_lock_shared(self)
    }

    fn apart(self) -> io::Result<File> {
        if self.as_raw_fd() <= 2 {
            return File::try_clone(&self);
        }
        Ok(self)
    }
}

// Whether both are of the same file.
pub(crate) fn is_same(one: &Metadata, other: &Metadata) -> bool {
    one.dev() == other.dev() && one.ino() == other.ino()
}

// The place of the sector's first byte.
fn place_of(n: u64) -> io::Result<u64> {
    match n.checked_mul(SECTOR_SIZE as u64) {
        Some(place) => Ok(place),
        None => Err(io::Error::from(ErrorKind::InvalidInput)),
    }
}

/// A file of the operating system, whose sector n stands at the byte 512 * n. Its lock is held until it is dropped.
#[derive(Drop)]
pub struct HostFile<H = File> {
    pub(crate) file: H,
    // how many bytes it has
    pub(crate) length: u64,
    // whether it was looked at since its last sync
    pub(crate) is_seen: bool,
    pub(crate) trouble: Option<Trouble>,
}

impl<H: StoreFile> HostFile<H> {
    /// The number of the file, which it keeps whatever becomes of its name. (It is only tested.)
    pub fn number(&self) -> io::Result<FileNumber> {
        Ok(number_of(&self.file.metadata()?))
    }

    // The file has a name, and its length.
    fn look(&self) -> Result<(), Trouble> {
        let found = self.file.metadata()?;
        if found.nlink() == 0 {
            return Err(Trouble::Gone);
        }
        if found.len() != self.length {
            return Err(Trouble::Resized);
        }
        Ok(())
    }

    // The first write behind a sync looks at it: one that was cut off before may get its length again by later ones.
    fn write(&mut self, n: u64, bytes: &[u8]) -> Result<(), Trouble> {
        if !self.is_seen {
            self.look()?;
            self.is_seen = true;
        }
        Ok(self.file.write_all_at(bytes, place_of(n)?)?)
    }

    fn sync_all(&mut self) -> Result<(), Trouble> {
        self.is_seen = false;
        self.file.sync_data()?;
        self.look()
    }

    // Keeps what was the trouble.
    fn keep(&mut self, done: Result<(), Trouble>) -> io::Result<()> {
        match done {
            Ok(()) => Ok(()),
            Err(trouble) => {
                self.trouble = Some(trouble);
                Err(io::Error::from(ErrorKind::Other))
            }
        }
    }
}

impl<H: StoreFile> Backing for HostFile<H> {
    fn put(&mut self, n: u64, bytes: &[u8; SECTOR_SIZE]) -> io::Result<()> {
        let done = self.write(n, bytes);
        self.keep(done)
    }

    fn sync(&mut self) -> io::Result<()> {
        let done = self.sync_all();
        self.keep(done)
    }

    fn trouble(&self) -> Option<Trouble> {
        self.trouble
    }
}

impl<H: StoreFile> Stored for HostFile<H> {
    fn get_run(&mut self, first: u64, run: &mut [[u8; SECTOR_SIZE]]) -> io::Result<()> {
        self.file
            .read_exact_at(run.as_flattened_mut(), place_of(first)?)
    }

    fn put_run(&mut self, first: u64, run: &[[u8; SECTOR_SIZE]]) -> io::Result<()> {
        let done = self.write(first, run.as_flattened());
        self.keep(done)
    }
}

/// A file that a disk is read from. Nothing is written to it, and its lock is held until it is dropped.
#[derive(Drop)]
pub struct Held<H> {
    pub(crate) file: H,
}

impl<H: StoreFile> Backing for Held<H> {
    fn put(&mut self, _n: u64, _bytes: &[u8; SECTOR_SIZE]) -> io::Result<()> {
        Ok(())
    }

    fn sync(&mut self) -> io::Result<()> {
        Ok(())
    }
}

impl<H: StoreFile> Stored for Held<H> {
    fn get_run(&mut self, first: u64, run: &mut [[u8; SECTOR_SIZE]]) -> io::Result<()> {
        self.file
            .read_exact_at(run.as_flattened_mut(), place_of(first)?)
    }

    fn put_run(&mut self, _first: u64, _run: &[[u8; SECTOR_SIZE]]) -> io::Result<()> {
        Ok(())
    }
}
