// A backing in memory with a cache of pages, whose power can fail.
use sector_device::SECTOR_SIZE;
use std::alloc::{AllocError, Global};
use std::io;
use std::io::ErrorKind;
use store_file::{Backing, Stored};

/// What becomes of the sectors that are in the cache alone, once the power is lost.
#[derive(Clone, Copy)]
pub enum Loss {
    Dropped,
    Kept,
    // The first half of each is there.
    Torn,
    // The same of each that the next sync would have written. What a sync that failed left is dropped.
    TornDirty,
}

/// A sector.
pub type Sector = [u8; SECTOR_SIZE];

// A sector of the device, and as the cache shows it.
#[derive(Clone, Copy)]
struct Page {
    safe: Sector,
    shown: Sector,
    // whether the next sync writes it
    is_dirty: bool,
}

fn torn(old: &Sector, new: &Sector) -> Sector {
    let mut sector = *old;
    for n in 0..SECTOR_SIZE / 2 {
        sector[n] = new[n];
    }
    sector
}

impl Page {
    // What is there of the sector once the power was lost.
    fn left(&self, loss: Loss) -> Sector {
        match loss {
            Loss::Dropped => self.safe,
            Loss::Kept => self.shown,
            Loss::Torn => torn(&self.safe, &self.shown),
            Loss::TornDirty if self.is_dirty => torn(&self.safe, &self.shown),
            Loss::TornDirty => self.safe,
        }
    }

    fn lose_power(&mut self, loss: Loss) {
        let sector = self.left(loss);
        self.safe = sector;
        self.shown = sector;
        self.is_dirty = false;
    }

    // A sync has come to its end, and was well, or failed.
    fn end_sync(&mut self, is_well: bool) {
        if self.is_dirty && is_well {
            self.safe = self.shown;
        }
        self.is_dirty = false;
    }
}

/// What is below a disk: a device, and a cache of it. As with Linux, a sync that fails leaves what it didn't write in
/// the cache, and no later sync writes it.
#[derive(Drop)]
pub struct Host {
    pages: Vec<Page>,
    calls: u64,
    // The number of the call that fails, from 1, or 0.
    fails_at: u64,
}

impl Host {
    /// No sector yet.
    pub fn new(alloc: Global) -> Host {
        Host::over(Vec::new(alloc))
    }

    // No call of it fails.
    fn over(pages: Vec<Page>) -> Host {
        Host {
            pages,
            calls: 0,
            fails_at: 0,
        }
    }

    /// One sector more, which the device holds so, and the cache shows so. No sync writes it.
    pub fn add(&mut self, safe: Sector, shown: Sector) -> Result<(), AllocError> {
        self.pages.push(Page {
            safe,
            shown,
            is_dirty: false,
        })?;
        Ok(())
    }

    /// How many writes and syncs came since it was said which fails.
    pub fn calls(&self) -> u64 {
        self.calls
    }

    /// The write or sync of this number from now on fails, from 1, or none at 0.
    pub fn fail_at(&mut self, number: u64) {
        self.calls = 0;
        self.fails_at = number;
    }

    /// The cache is gone with the power. No later call fails.
    pub fn lose_power(&mut self, loss: Loss) {
        self.fails_at = 0;
        for page in &mut self.pages {
            page.lose_power(loss);
        }
    }

    /// The same device and cache.
    pub fn copied(&self) -> Result<Host, AllocError> {
        Ok(Host::over(self.pages.clone()?))
    }

    // Counts a call, and answers it.
    fn answer(&mut self) -> io::Result<()> {
        self.calls = self.calls.saturating_add(1);
        if self.calls == self.fails_at {
            return Err(io::Error::from(ErrorKind::Other));
        }
        Ok(())
    }

    fn sync(&mut self) -> io::Result<()> {
        let answer = self.answer();
        let is_well = answer.is_ok();
        for page in &mut self.pages {
            page.end_sync(is_well);
        }
        answer
    }

    fn show(&mut self, n: u64, bytes: &Sector) {
        if let Some(page) = self.pages.get_mut(n as usize) {
            page.shown = *bytes;
            page.is_dirty = true;
        }
    }

    fn shown(&self, n: u64) -> Option<&Sector> {
        match self.pages.get(n as usize) {
            Some(page) => Some(&page.shown),
            None => None,
        }
    }
}

/// What a process has of it.
#[derive(Drop)]
pub struct Used<'a> {
    pub host: &'a mut Host,
}

impl Backing for Used<'_> {
    fn put(&mut self, n: u64, bytes: &Sector) -> io::Result<()> {
        self.host.show(n, bytes);
        self.host.answer()
    }

    fn sync(&mut self) -> io::Result<()> {
        self.host.sync()
    }
}

impl Stored for Used<'_> {
    fn get_run(&mut self, first: u64, run: &mut [Sector]) -> io::Result<()> {
        let mut number = first;
        for sector in run.iter_mut() {
            if let Some(shown) = self.host.shown(number) {
                *sector = *shown;
            }
            number = number.saturating_add(1);
        }
        Ok(())
    }

    fn put_run(&mut self, first: u64, run: &[Sector]) -> io::Result<()> {
        let mut number = first;
        for sector in run {
            self.host.show(number, sector);
            number = number.saturating_add(1);
        }
        self.host.answer()
    }
}
