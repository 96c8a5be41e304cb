//! A disk over what is below: reads are answered from a mirror in memory, and writes go through.
ghost use Rattle.std.specs.Prelude.{◌≡◌, ◌+◌, ◌^◌, ◌-◌, ◌<◌, length, ◌≤◌, min, replicate, nat_le, IfOk, IsOk, OnOk};
ghost use Rattle.std.specs.Prelude.{OnErr, false, true};
ghost use Rattle.sector_device.specs.Disk.{sector, after_write, after_sync, IsSynced, IsFailedWrite};
ghost use Rattle.sector_device.specs.DevicePast.{Elapses, CountsFailure, Rises};
ghost use Rattle.sector_device.specs.Values.{zero_sector};
ghost use Rattle.store_file.specs.Mirror.{IsMirror};

use crate::backing::{Backing, Stored};
use crate::error::OpenError;
use crate::past::Past;
use crate::trouble::{Trouble, Troubled};
use sector_device::{Device, Failed, SECTOR_SIZE, zero_sector};
use std::alloc::{AllocError, Allocator};
use std::io;

// How many sectors are read and written in one call where a disk is opened.
const RUN: usize = 128;

/// A disk over what is below. Once a write or sync of that failed, nothing is written any more, and each write and sync
/// fails (`has_failed_of`): what is below is not known then, until it is read again. (That nothing reaches it then is
/// only tested.)
#[derive(Drop)]
pub struct FileDisk<F, A: Allocator> {
    below: F,
    // what the disk holds
    content: Vec<[u8; SECTOR_SIZE], A>,
    past: Past,
    failures: u64,
    has_failed: bool,
    ghost mirrors: { IsMirror (length content.items) past.done content.items },
}

// Sectors of zeros.
fn zeros<A: Allocator>(alloc: A, sectors: usize) -> Result<Vec<[u8; SECTOR_SIZE], A>, AllocError>
    ensures { IfOk result (λ image. image.items ≡ replicate sectors zero_sector) }
{
    let mut image = Vec::with_capacity(alloc, sectors)?;
    for _ in 0..sectors {
        image.push(zero_sector())?;
    }
    Ok(image)
}

impl<F: Drop, A: Allocator> FileDisk<F, A> {
    ghost use Rattle.store_file.specs.FileDisk.{past_of, failures_of, has_failed_of};

    /// A disk of zeros over what is below, which is to hold zeros, all of them safe. The error is that memory was
    /// refused.
    pub fn new(alloc: A, below: F, sectors: usize) -> Result<Self, AllocError>
        ensures zeros { IfOk result (λ d. (past_of d).disk.content ≡ replicate sectors zero_sector) }
        ensures synced { IfOk result (λ d. IsSynced (past_of d).disk) }
        ensures failures { IfOk result (λ d. failures_of d ≡ 0) }
        ensures sound { IfOk result (λ d. has_failed_of d ≡ false) }
    {
        Ok(FileDisk {
            below,
            content: zeros(alloc, sectors)?,
            past: Past::new(),
            failures: 0,
            has_failed: false,
        })
    }

    /// A disk over what is below that holds these sectors, all of them safe, as what is below is to. The error is that
    /// memory was refused.
    pub fn holding(alloc: A, below: F, sectors: &[[u8; SECTOR_SIZE]]) -> Result<Self, AllocError>
        ensures content { IfOk result (λ d. (past_of d).disk.content ≡ sectors.now) }
        ensures synced { IfOk result (λ d. IsSynced (past_of d).disk) }
        ensures failures { IfOk result (λ d. failures_of d ≡ 0) }
        ensures sound { IfOk result (λ d. has_failed_of d ≡ false) }
    {
        let mut disk = FileDisk::new(alloc, below, sectors.len())?;
        for n in 0..sectors.len() {
            disk.put(n as u64, &sectors[n]);
        }
        disk.settle();
        Ok(disk)
    }

    /// The sectors that the disk holds.
    pub fn content(&self) -> &[[u8; SECTOR_SIZE]]
        ensures { result.now ≡ (past_of self.now).disk.content }
    {
        &self.content
    }

    /// What is below.
    pub fn into_below(self) -> F {
        self.below
    }

    /// The same disk over this in place of what is below.
    pub fn with_below<G: Drop>(self, below: G) -> FileDisk<G, A>
        ensures disk { (past_of result).disk ≡ (past_of self).disk }
        ensures failures { failures_of result ≡ failures_of self }
        ensures failed { has_failed_of result ≡ has_failed_of self }
    {
        FileDisk {
            below,
            content: self.content,
            past: self.past,
            failures: self.failures,
            has_failed: self.has_failed,
        }
    }

    /// Takes a sector over as what is below is to hold it.
    pub(crate) fn put(&mut self, n: u64, bytes: &[u8; SECTOR_SIZE])
        requires { n < length (past_of self.old).disk.content }
        ensures disk { (past_of self.new).disk ≡ after_write (past_of self.old).disk n bytes.now }
        ensures time { Elapses (past_of self.old) (past_of self.new) }
        ensures failures { failures_of self.new ≡ failures_of self.old }
        ensures failed { has_failed_of self.new ≡ has_failed_of self.old }
    {
        self.past.note(&[n], bytes);
        self.content[n as usize] = *bytes;
    }

    /// Takes over that all is safe.
    pub(crate) fn settle(&mut self)
        ensures disk { (past_of self.new).disk ≡ after_sync (past_of self.old).disk }
        ensures time { Elapses (past_of self.old) (past_of self.new) }
        ensures failures { failures_of self.new ≡ failures_of self.old }
        ensures failed { has_failed_of self.new ≡ has_failed_of self.old }
    {
        self.past.note(&[], &[]);
    }

    // Counts a failure, behind which nothing is written any more.
    fn refuse(&mut self)
        ensures disk { (past_of self.new).disk ≡ (past_of self.old).disk }
        ensures time { Elapses (past_of self.old) (past_of self.new) }
        ensures later { failures_of self.old ≤ failures_of self.new }
        ensures rises { Rises (failures_of self.old) (failures_of self.new) }
        ensures failed { has_failed_of self.new ≡ true }
    {
        self.has_failed = true;
        self.failures = self.failures.saturating_add(1);
    }

    // Counts a failure, and leaves the sector unsynced, with what it holds.
    fn spoil(&mut self, n: u64)
        requires { n < length (past_of self.old).disk.content }
        ensures disk { (past_of self.new).disk
            ≡ after_write (past_of self.old).disk n (sector (past_of self.old).disk.content n) }
        ensures time { Elapses (past_of self.old) (past_of self.new) }
        ensures later { failures_of self.old ≤ failures_of self.new }
        ensures rises { Rises (failures_of self.old) (failures_of self.new) }
        ensures failed { has_failed_of self.new ≡ true }
    {
        self.has_failed = true;
        self.failures = self.failures.saturating_add(1);
        let bytes = self.content[n as usize];
        self.put(n, &bytes);
    }
}

// Reads sectors of what is below, from the first one's number on, and writes them back.
fn renew<F: Stored>(below: &mut F, first: usize, run: &mut [[u8; SECTOR_SIZE]]) -> io::Result<()>
    ensures { length run.new ≡ length run.old }
{
    below.get_run(first as u64, run)?;
    below.put_run(first as u64, run)
}

impl<F: Stored + Drop, A: Allocator> FileDisk<F, A> {
    ghost use Rattle.store_file.specs.FileDisk.{past_of, failures_of, has_failed_of};

    // Takes over sectors as what is below holds them, from the first one's number on.
    fn put_run(&mut self, first: usize, run: &[[u8; SECTOR_SIZE]])
        requires { first + length run.now ≤ length (past_of self.old).disk.content }
        ensures size { length (past_of self.new).disk.content ≡ length (past_of self.old).disk.content }
        ensures failures { failures_of self.new ≡ failures_of self.old }
        ensures failed { has_failed_of self.new ≡ has_failed_of self.old }
    {
        for n in 0..run.len() {
            self.put((first + n) as u64, &run[n]);
        }
    }

    // Why what is below refused a call.
    fn refused_by(&self, error: io::Error) -> OpenError {
        match self.below.trouble() {
            Some(trouble) => OpenError::Io(trouble),
            None => OpenError::from(error),
        }
    }

    // Reads all that is below, and writes it back.
    fn load(&mut self) -> io::Result<()>
        ensures size { length (past_of self.new).disk.content ≡ length (past_of self.old).disk.content }
        ensures failures { failures_of self.new ≡ failures_of self.old }
        ensures failed { has_failed_of self.new ≡ has_failed_of self.old }
    {
        let sectors = self.content.len();
        let mut buffer = [[0; SECTOR_SIZE]; RUN];
        for k in 0..sectors {
            let first = k.saturating_mul(RUN);
            if first >= sectors {
                break;
            }
            let run = &mut buffer[..RUN.min(sectors - first)];
            renew(&mut self.below, first, run)?;
            self.put_run(first, run);
        }
        self.below.sync()
    }

    /// A disk over what is below, which holds the sectors that that does. Each that was read is written back, and all
    /// are synced, before one counts as safe: after a sync that failed, what is read may be on no device.
    pub fn over(alloc: A, below: F, sectors: usize) -> Result<Self, OpenError>
        ensures sectors { IfOk result (λ d. length (past_of d).disk.content ≡ sectors) }
        ensures synced { IfOk result (λ d. IsSynced (past_of d).disk) }
        ensures failures { IfOk result (λ d. failures_of d ≡ 0) }
        ensures sound { IfOk result (λ d. has_failed_of d ≡ false) }
    {
        let mut disk = FileDisk::new(alloc, below, sectors)?;
        if let Err(error) = disk.load() {
            return Err(disk.refused_by(error));
        }
        disk.settle();
        Ok(disk)
    }
}

impl<F: Backing + Drop, A: Allocator> Troubled for FileDisk<F, A> {
    fn trouble(&self) -> Option<Trouble> {
        self.below.trouble()
    }
}

impl<F: Backing + Drop, A: Allocator> FileDisk<F, A> {
    // Whether what is below took the sector.
    fn put_below(&mut self, n: u64, bytes: &[u8; SECTOR_SIZE]) -> bool
        ensures same { self.new.content ≡ self.old.content }
        ensures past { self.new.past ≡ self.old.past }
        ensures failures { self.new.failures ≡ self.old.failures }
        ensures failed { self.new.has_failed ≡ self.old.has_failed }
        ensures sound { result ≡ true → self.old.has_failed ≡ false }
        ensures stays { self.old.has_failed ≡ true → result ≡ false }
    {
        !self.has_failed && self.below.put(n, bytes).is_ok()
    }

    // Whether what is below synced.
    fn sync_below(&mut self) -> bool
        ensures same { self.new.content ≡ self.old.content }
        ensures past { self.new.past ≡ self.old.past }
        ensures failures { self.new.failures ≡ self.old.failures }
        ensures failed { self.new.has_failed ≡ self.old.has_failed }
        ensures sound { result ≡ true → self.old.has_failed ≡ false }
        ensures stays { self.old.has_failed ≡ true → result ≡ false }
    {
        !self.has_failed && self.below.sync().is_ok()
    }
}

impl<F: Backing + Drop, A: Allocator> Device for FileDisk<F, A> {
    ghost use Rattle.store_file.specs.FileDisk.{past_of, failures_of, has_failed_of};

    ghost past_of = { past_of };

    ghost failures = { failures_of };

    fn sectors(&self) -> u64 {
        self.content.len() as u64
    }

    /// It never fails.
    fn read(&mut self, n: u64, buffer: &mut [u8; SECTOR_SIZE]) -> Result<(), Failed>
        requires { n < length (past_of self.old).disk.content }
        ensures ok { OnOk result (buffer.new ≡ sector (past_of self.old).disk.content n) }
        ensures err { OnErr result (buffer.new ≡ buffer.old) }
        ensures disk { (past_of self.new).disk ≡ (past_of self.old).disk }
        ensures time { Elapses (past_of self.old) (past_of self.new) }
        ensures counts { CountsFailure (failures_of self.old) (failures_of self.new) result }
        ensures succeeds { IsOk result }
        ensures failed { has_failed_of self.new ≡ has_failed_of self.old }
    {
        *buffer = self.content[n as usize];
        Ok(())
    }

    /// Where it fails, the sector holds what it held, unsynced, and what is below holds anything there. A disk that has
    /// failed fails from then on (`sound`, `failed`).
    fn write(&mut self, n: u64, bytes: &[u8; SECTOR_SIZE]) -> Result<(), Failed>
        requires { n < length (past_of self.old).disk.content }
        ensures ok { OnOk result ((past_of self.new).disk ≡ after_write (past_of self.old).disk n bytes.now) }
        ensures err { OnErr result (IsFailedWrite (past_of self.old).disk n (past_of self.new).disk) }
        ensures time { Elapses (past_of self.old) (past_of self.new) }
        ensures counts { CountsFailure (failures_of self.old) (failures_of self.new) result }
        ensures kept { OnErr result ((past_of self.new).disk.content ≡ (past_of self.old).disk.content) }
        ensures sound { OnOk result ((has_failed_of self.old ≡ false) × (has_failed_of self.new ≡ false)) }
        ensures failed { OnErr result (has_failed_of self.new ≡ true) }
    {
        if !self.put_below(n, bytes) {
            self.spoil(n);
            return Err(Failed);
        }
        self.put(n, bytes);
        Ok(())
    }

    /// A disk that has failed fails from then on (`sound`, `failed`).
    fn sync(&mut self) -> Result<(), Failed>
        ensures ok { OnOk result ((past_of self.new).disk ≡ after_sync (past_of self.old).disk) }
        ensures err { OnErr result ((past_of self.new).disk ≡ (past_of self.old).disk) }
        ensures time { Elapses (past_of self.old) (past_of self.new) }
        ensures counts { CountsFailure (failures_of self.old) (failures_of self.new) result }
        ensures sound { OnOk result ((has_failed_of self.old ≡ false) × (has_failed_of self.new ≡ false)) }
        ensures failed { OnErr result (has_failed_of self.new ≡ true) }
    {
        if !self.sync_below() {
            self.refuse();
            return Err(Failed);
        }
        self.settle();
        Ok(())
    }
}
