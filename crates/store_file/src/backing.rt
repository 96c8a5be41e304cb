//! What is below a disk: it takes writes and syncs, of which no clause can say anything.
use crate::trouble::Trouble;
use sector_device::SECTOR_SIZE;
use std::io;
use std::io::ErrorKind;

/// Takes what is written to a disk.
pub trait Backing {
    /// Writes a sector.
    fn put(&mut self, n: u64, bytes: &[u8; SECTOR_SIZE]) -> io::Result<()>;

    /// It is to return once all that was put before is safe. (That it does is trusted.)
    fn sync(&mut self) -> io::Result<()>;

    /// Why a put or a sync failed, where that is known.
    fn trouble(&self) -> Option<Trouble> {
        None
    }
}

/// A backing that holds sectors of an earlier time, over which a disk is opened.
pub trait Stored: Backing {
    /// Reads as many sectors as there is room for, from the first one's number on.
    fn get_run(&mut self, first: u64, run: &mut [[u8; SECTOR_SIZE]]) -> io::Result<()>;

    /// Writes these sectors, from the first one's number on.
    fn put_run(&mut self, first: u64, run: &[[u8; SECTOR_SIZE]]) -> io::Result<()>;
}

/// Nothing is below: what is written stays in memory.
#[derive(Clone, Copy, Debug, Drop)]
pub struct Detached;

impl Backing for Detached {
    fn put(&mut self, _n: u64, _bytes: &[u8; SECTOR_SIZE]) -> io::Result<()> {
        Ok(())
    }

    fn sync(&mut self) -> io::Result<()> {
        Ok(())
    }
}

/// What was never written can't be read.
impl Stored for Detached {
    fn get_run(&mut self, _first: u64, _run: &mut [[u8; SECTOR_SIZE]]) -> io::Result<()> {
        Err(io::Error::from(ErrorKind::Unsupported))
    }

    fn put_run(&mut self, _first: u64, _run: &[[u8; SECTOR_SIZE]]) -> io::Result<()> {
        Ok(())
    }
}
