// A disk in memory. It keeps what it held at first and each write and sync since, which tell what a crash at any
// moment might have left.
ghost use Rattle.std.specs.Prelude.{◌≡◌, ◌+◌, ◌-◌, ◌^◌, ◌<◌, ◌≤◌, length, min, replicate, nat_le, count_by, vec_len};
ghost use Rattle.std.specs.Prelude.{vec_capacity, IfOk, IsOk, OnOk, OnErr, Some};
ghost use Rattle.sector_device.specs.Disk.{sector, after_write, after_sync, IsCrashState, IsDiskWhole, IsSynced};
ghost use Rattle.sector_device.specs.Disk.{IsFailedWrite};
ghost use Rattle.sector_device.specs.DevicePast.{Elapses, CountsFailure};
ghost use Rattle.sector_device.specs.Memory.{initial_state, state_after, Represents};
ghost use Rattle.sector_device.specs.Values.{zero_sector};

use crate::call::Call;
use crate::crash::{crash_behind, tear};
use crate::{Device, Failed, Fate, SECTOR_SIZE, zero_sector};
use std::alloc::{AllocError, Allocator};

/// A disk in memory, with a record of its writes and syncs.
#[derive(Drop)]
pub struct MemDisk<A: Allocator> {
    // what the disk held when the record began, and the calls since
    first: Vec<[u8; SECTOR_SIZE], A>,
    calls: Vec<Call, A>,
    content: Vec<[u8; SECTOR_SIZE], A>,
    // what each unsynced sector held at the last sync
    before: Vec<[u8; SECTOR_SIZE], A>,
    // how many calls there were at the last write of each sector, and at the last sync
    written_at: Vec<usize, A>,
    synced_at: usize,
    failures: u64,
    ghost represents: { Represents (state_after (initial_state first.items) calls.items) (length calls.items)
        content.items before.items written_at.items synced_at },
    ghost first_size: { length first.items ≡ length content.items },
    ghost first_whole: { IsDiskWhole first.items },
    // a write that fails is recorded too: there is room for one of each sector that is synced
    ghost size: { length content.items ≤ vec_capacity calls },
    ghost room: { vec_len calls + count_by (λ at. nat_le at synced_at) written_at.items ≤ vec_capacity calls },
}

// Sectors of zeros.
fn zeros<A: Allocator>(alloc: A, sectors: usize) -> Result<Vec<[u8; SECTOR_SIZE], A>, AllocError>
    ensures { IfOk result (λ image. image.items ≡ replicate sectors zero_sector) }
{
    let mut image = Vec::with_capacity(alloc, sectors)?;
    for _ in 0..sectors {
        image.push(zero_sector())?;
    }
    Ok(image)
}

// Makes room to record a call, and after it a failed write of each sector. Where there is none, that is a failure.
fn make_room<A: Allocator>(
    calls: &mut Vec<Call, A>,
    sectors: usize,
    failures: &mut u64,
) -> Result<(), Failed>
    requires { sectors < 2 ^ 63 }
    ensures items { calls.new.items ≡ calls.old.items }
    ensures len { vec_len calls.new ≡ vec_len calls.old }
    ensures ok { OnOk result (vec_len calls.new + sectors + 1 ≤ vec_capacity calls.new) }
    ensures capacity { vec_capacity calls.old ≤ vec_capacity calls.new }
    ensures full { OnErr result (vec_capacity calls.old ≤ vec_len calls.old + sectors) }
    ensures counts { CountsFailure failures.old failures.new result }
    ensures counts_one { OnErr result (failures.new ≡ min (failures.old + 1) (2 ^ 64 - 1)) }
{
    if calls.reserve(sectors + 1).is_err() {
        *failures = failures.saturating_add(1);
        return Err(Failed);
    }
    Ok(())
}

impl<A: Allocator + Copy> MemDisk<A> {
    ghost use Rattle.sector_device.specs.MemDisk.{past_of, failures_of, state_of, state_at, last_synced_of};
    ghost use Rattle.sector_device.specs.MemDisk.{record_room, calls_left, HasRoom};
    ghost use Rattle.sector_device.specs.Crash.{IsCrashed};

    /// A disk of zeros, with room to record this many writes and syncs.
    pub fn new(alloc: A, sectors: u64, calls: usize) -> Result<Self, AllocError>
        ensures zeros { IfOk result (λ d. (past_of d).disk.content ≡ replicate sectors zero_sector) }
        ensures synced { IfOk result (λ d. IsSynced (past_of d).disk) }
        ensures last_synced { IfOk result (λ d. last_synced_of d ≡ (past_of d).disk.content) }
        ensures moment { IfOk result (λ d. (past_of d).moment ≡ 0) }
        ensures failures { IfOk result (λ d. failures_of d ≡ 0) }
        ensures room { IfOk result (λ d. calls ≤ record_room d) }
        ensures left { IfOk result (λ d. calls ≤ calls_left d) }
    {
        let size = sectors as usize;
        let room = calls.checked_add(size).ok_or(AllocError)?;
        Ok(MemDisk {
            first: zeros(alloc, size)?,
            calls: Vec::with_capacity(alloc, room)?,
            content: zeros(alloc, size)?,
            before: zeros(alloc, size)?,
            written_at: vec![in alloc; 0; size]?,
            synced_at: 0,
            failures: 0,
        })
    }

    /// Which moment it is: how many writes and syncs it has recorded.
    pub fn moment(&self) -> u64
        ensures { result ≡ (past_of self.now).moment }
    {
        self.calls.len() as u64
    }

    /// Stops the disk as a loss of power would. The unsynced sectors, ascending, get the fates in turn, beginning the
    /// list again at its end; an empty list is `Old`. Afterwards no sector is unsynced, and the record begins anew.
    pub fn crash(&mut self, fates: &[Fate])
        ensures crash { IsCrashState (past_of self.old).disk (past_of self.new).disk.content }
        ensures fates { IsCrashed fates.now (state_of self.old) (past_of self.new).disk.content }
        ensures synced { IsSynced (past_of self.new).disk }
        ensures last_synced { last_synced_of self.new ≡ (past_of self.new).disk.content }
        ensures moment { (past_of self.new).moment ≡ 0 }
        ensures failures { failures_of self.new ≡ failures_of self.old }
        ensures room { record_room self.new ≡ record_room self.old }
        ensures anew { calls_left self.new ≡ record_room self.new }
    {
        tear(
            &mut self.content,
            &self.before,
            &self.written_at,
            self.synced_at,
            fates,
        );
        self.first.copy_from_slice(&self.content);
        self.calls.clear();
        self.written_at.fill(0);
        self.synced_at = 0;
    }

    /// Stops the disk as a loss of power at this moment would have: what was done later never came to it. All else is
    /// as `crash` says.
    pub fn crash_at(&mut self, moment: u64, fates: &[Fate])
        requires { moment ≤ (past_of self.old).moment }
        ensures crash { IsCrashState ((past_of self.old).disk_at moment) (past_of self.new).disk.content }
        ensures fates { IsCrashed fates.now (state_at self.old moment) (past_of self.new).disk.content }
        ensures synced { IsSynced (past_of self.new).disk }
        ensures last_synced { last_synced_of self.new ≡ (past_of self.new).disk.content }
        ensures moment { (past_of self.new).moment ≡ 0 }
        ensures failures { failures_of self.new ≡ failures_of self.old }
        ensures room { record_room self.new ≡ record_room self.old }
        ensures anew { calls_left self.new ≡ record_room self.new }
    {
        crash_behind(
            &self.first,
            &self.calls[..moment as usize],
            &mut self.content,
            &mut self.before,
            &mut self.written_at,
            fates,
        );
        self.first.copy_from_slice(&self.content);
        self.calls.clear();
        self.written_at.fill(0);
        self.synced_at = 0;
    }

    // What a sector held at the last sync.
    fn at_last_sync(&self, n: usize) -> [u8; SECTOR_SIZE]
        requires { n < length (past_of self.now).disk.content }
        ensures { result ≡ sector (last_synced_of self.now) n }
    {
        if self.written_at[n] <= self.synced_at {
            self.content[n]
        } else {
            self.before[n]
        }
    }

    // Records a write, and makes it.
    fn put(&mut self, n: u64, bytes: &[u8; SECTOR_SIZE])
        requires inside { n < length (past_of self.old).disk.content }
        requires room { HasRoom self.old n }
        ensures disk { (past_of self.new).disk ≡ after_write (past_of self.old).disk n bytes.now }
        ensures time { Elapses (past_of self.old) (past_of self.new) }
        ensures last_synced { last_synced_of self.new ≡ last_synced_of self.old }
        ensures failures { failures_of self.new ≡ failures_of self.old }
        ensures left { calls_left self.old ≤ calls_left self.new + 1 }
        ensures room { record_room self.old ≤ record_room self.new }
    {
        let at = n as usize;
        self.before[at] = self.at_last_sync(at);
        let call = Call::Write {
            sector: n,
            bytes: *bytes,
        };
        self.calls.push(call).unwrap();
        self.content[at] = *bytes;
        self.written_at[at] = self.calls.len();
    }

    // Leaves a sector unsynced, with what it holds.
    fn spoil(&mut self, n: u64)
        requires { n < length (past_of self.old).disk.content }
        ensures disk { (past_of self.new).disk
            ≡ after_write (past_of self.old).disk n (sector (past_of self.old).disk.content n) }
        ensures time { Elapses (past_of self.old) (past_of self.new) }
        ensures last_synced { last_synced_of self.new ≡ last_synced_of self.old }
        ensures failures { failures_of self.new ≡ failures_of self.old }
        ensures left { calls_left self.old ≤ calls_left self.new + 1 }
        ensures room { record_room self.old ≤ record_room self.new }
    {
        let at = n as usize;
        if self.written_at[at] <= self.synced_at {
            let bytes = self.content[at];
            self.put(n, &bytes);
        }
    }
}

impl<A: Allocator + Copy> Device for MemDisk<A> {
    ghost use Rattle.sector_device.specs.MemDisk.{past_of, failures_of, last_synced_of, record_room, calls_left};

    ghost past_of = { past_of };

    ghost failures = { failures_of };

    ghost marks = { λ mark moment. mark ≡ moment };

    fn sectors(&self) -> u64 {
        self.content.len() as u64
    }

    /// It never fails.
    fn read(&mut self, n: u64, buffer: &mut [u8; SECTOR_SIZE]) -> Result<(), Failed>
        requires { n < length (past_of self.old).disk.content }
        ensures ok { OnOk result (buffer.new ≡ sector (past_of self.old).disk.content n) }
        ensures err { OnErr result (buffer.new ≡ buffer.old) }
        ensures disk { (past_of self.new).disk ≡ (past_of self.old).disk }
        ensures time { Elapses (past_of self.old) (past_of self.new) }
        ensures counts { CountsFailure (failures_of self.old) (failures_of self.new) result }
        ensures last_synced { last_synced_of self.new ≡ last_synced_of self.old }
        ensures succeeds { IsOk result }
        ensures left { calls_left self.new ≡ calls_left self.old }
        ensures room { record_room self.new ≡ record_room self.old }
    {
        *buffer = self.content[n as usize];
        Ok(())
    }

    /// It fails where the record is to grow and memory is refused. Then the sector holds what it held, unsynced.
    fn write(&mut self, n: u64, bytes: &[u8; SECTOR_SIZE]) -> Result<(), Failed>
        requires { n < length (past_of self.old).disk.content }
        ensures ok { OnOk result ((past_of self.new).disk
            ≡ after_write (past_of self.old).disk n bytes.now) }
        ensures err { OnErr result (IsFailedWrite (past_of self.old).disk n (past_of self.new).disk) }
        ensures time { Elapses (past_of self.old) (past_of self.new) }
        ensures counts { CountsFailure (failures_of self.old) (failures_of self.new) result }
        ensures counts_one { OnErr result (failures_of self.new ≡ min (failures_of self.old + 1) (2 ^ 64 - 1)) }
        ensures last_synced { last_synced_of self.new ≡ last_synced_of self.old }
        ensures kept { OnErr result ((past_of self.new).disk.content
            ≡ (past_of self.old).disk.content) }
        ensures succeeds { 0 < calls_left self.old → IsOk result }
        ensures left { calls_left self.old ≤ calls_left self.new + 1 }
        ensures room { record_room self.old ≤ record_room self.new }
    {
        let sectors = self.content.len();
        if make_room(&mut self.calls, sectors, &mut self.failures).is_err() {
            self.spoil(n);
            return Err(Failed);
        }
        self.put(n, bytes);
        Ok(())
    }

    /// It fails where the record is to grow and memory is refused.
    fn sync(&mut self) -> Result<(), Failed>
        ensures ok { OnOk result ((past_of self.new).disk ≡ after_sync (past_of self.old).disk) }
        ensures err { OnErr result ((past_of self.new).disk ≡ (past_of self.old).disk) }
        ensures time { Elapses (past_of self.old) (past_of self.new) }
        ensures counts { CountsFailure (failures_of self.old) (failures_of self.new) result }
        ensures counts_one { OnErr result (failures_of self.new ≡ min (failures_of self.old + 1) (2 ^ 64 - 1)) }
        ensures last_synced { OnOk result (last_synced_of self.new ≡ (past_of self.old).disk.content) }
        ensures last_synced_err { OnErr result (last_synced_of self.new ≡ last_synced_of self.old) }
        ensures succeeds { 0 < calls_left self.old → IsOk result }
        ensures left { calls_left self.old ≤ calls_left self.new + 1 }
        ensures room { record_room self.old ≤ record_room self.new }
    {
        let sectors = self.content.len();
        make_room(&mut self.calls, sectors, &mut self.failures)?;
        self.calls.push(Call::Sync).unwrap();
        let calls = self.calls.len();
        self.synced_at = calls;
        Ok(())
    }

    /// Each moment is marked by its own number.
    fn clock(&self) -> Option<u64>
        ensures { result ≡ Some (past_of self.now).moment }
    {
        Some(self.moment())
    }
}
