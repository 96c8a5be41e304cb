// A disk in memory that stops at an earlier moment.
ghost use Rattle.std.specs.Prelude.{◌≡◌};
ghost use Rattle.sector_device.specs.MemDisk.{failures_of, past_of};

use headline::Mortal;
use sector_device::{Device, Failed, Fate, MemDisk, SECTOR_SIZE};
use std::alloc::{AllocError, Allocator};

/// At which moment a disk stops: so many behind the marked one, where there are so many, else where it is. And what
/// becomes in turn of the sectors that are unsynced then.
#[derive(Clone, Copy)]
pub(crate) struct Stop {
    pub(crate) behind: u64,
    pub(crate) fates: [Fate; 2],
}

/// A disk in memory that stops so. What was done later never came to it.
#[derive(Drop)]
pub(crate) struct RecordedDisk<A: Allocator> {
    disk: MemDisk<A>,
    stop: Stop,
    /// Whether it stopped at the last of its moments.
    pub(crate) is_last: bool,
}

impl<A: Allocator + Copy> RecordedDisk<A> {
    /// A disk of zeros, with room to record this many writes and syncs.
    pub(crate) fn new(
        alloc: A,
        sectors: u64,
        calls: usize,
        stop: Stop,
    ) -> Result<RecordedDisk<A>, AllocError> {
        Ok(RecordedDisk {
            disk: MemDisk::new(alloc, sectors, calls)?,
            stop,
            is_last: false,
        })
    }
}

/// A number marks the one moment that has it.
impl<A: Allocator + Copy> Device for RecordedDisk<A> {
    ghost past_of = { λ d. past_of d.disk };

    ghost marks = { λ mark moment. mark ≡ moment };

    ghost failures = { λ d. failures_of d.disk };

    fn sectors(&self) -> u64 {
        self.disk.sectors()
    }

    fn read(&mut self, n: u64, buffer: &mut [u8; SECTOR_SIZE]) -> Result<(), Failed> {
        self.disk.read(n, buffer)
    }

    fn write(&mut self, n: u64, bytes: &[u8; SECTOR_SIZE]) -> Result<(), Failed> {
        self.disk.write(n, bytes)
    }

    fn sync(&mut self) -> Result<(), Failed> {
        self.disk.sync()
    }

    fn clock(&self) -> Option<u64> {
        Some(self.disk.moment())
    }
}

impl<A: Allocator + Copy> Mortal for RecordedDisk<A> {
    fn mark(&self) -> u64 {
        self.disk.moment()
    }

    fn stop_now(&mut self) {
        self.disk.crash(&self.stop.fates);
    }

    fn stop(&mut self, since: u64) {
        let now = self.disk.moment();
        let wanted = since.saturating_add(self.stop.behind);
        self.is_last = now <= wanted;
        self.disk.crash_at(wanted.min(now), &self.stop.fates);
    }
}
