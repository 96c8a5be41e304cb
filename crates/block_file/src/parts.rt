// The parts of a device over a file of blocks, and what it does with them.
ghost use Rattle.std.specs.Prelude.{◌≡◌, ◌⊎◌, ◌+◌, ◌-◌, ◌^◌, ◌<◌, ◌≤◌, ℕ, [], is_ok, false, true, IfNone, IfOk, IfSome};
ghost use Rattle.std.specs.Prelude.{OnErr, OnOk};
ghost use Rattle.sector_device.specs.Disk.{IsFailedWrite, IsSynced, after_sync, after_write, sector};
ghost use Rattle.sector_device.specs.DevicePast.{CountsFailure, Elapses, Rises};
ghost use Rattle.block_journal.specs.Journal.{KeepsBatch, OnlyReads};
ghost use Rattle.block_journal.specs.Value.{LeavesEither, room_of};
ghost use Rattle.block_table.specs.Checked.{CountsRead};

use crate::Plan;
use crate::sectors::{first_damaged, read_sector, write_sector};
use block_device::Blocks;
use block_table::{CheckedBlocks, ReadError};
use ghost_list::GhostList;
use sector_device::{Failed, SECTOR_SIZE};
use std::alloc::Allocator;

/// What a device holds: its blocks, and, for clauses alone, which sectors were written since the last sync.
#[derive(Drop)]
pub struct Held<B: Blocks, A: Allocator> {
    pub(crate) checked: CheckedBlocks<B, A>,
    pub(crate) written: GhostList<u64>,
}

/// The parts of a device over a file of blocks.
#[derive(Drop)]
pub struct DiskParts<B: Blocks, A: Allocator> {
    pub(crate) plan: Plan,
    pub(crate) now: Held<B, A>,
    // what it held before each call, which takes no memory
    pub(crate) past: GhostList<Held<B, A>>,
    // how many reads have found a block damaged
    pub(crate) damaged: u64,
}

// Counts a block that was found damaged, as a failure.
fn count(damaged: &mut u64, done: Result<(), ReadError>) -> Result<(), Failed>
    ensures ok { OnOk result (is_ok done ≡ true) }
    ensures err { OnErr result (is_ok done ≡ false) }
    ensures counts { (before now : ℕ) → CountsRead before now done
        → CountsFailure (before + damaged.old) (now + damaged.new) result }
{
    match done {
        Ok(()) => Ok(()),
        Err(ReadError::FileFailed) => Err(Failed),
        Err(ReadError::Damaged) => {
            *damaged = damaged.saturating_add(1);
            Err(Failed)
        }
    }
}

impl<B: Blocks, A: Allocator + Copy> DiskParts<B, A> {
    ghost use Rattle.block_file.specs.Closing.{StandsAlone};
    ghost use Rattle.block_file.specs.Damage.{FitsAsBefore, IsFirstDamaged, IsSectorFit};
    ghost use Rattle.block_file.specs.Disks.{OffersOne, ReadsAlone, disk_failed, disk_failures, disk_file};
    ghost use Rattle.block_file.specs.Disks.{disk_journal, disk_number, disk_past, disk_plan, disk_settled};
    ghost use Rattle.block_file.specs.Disks.{disk_table};
    ghost use Rattle.block_file.specs.Good.{IsGood, OpensMeanwhile};
    ghost use Rattle.block_file.specs.Moves.{IsSound};

    /// Reads a sector.
    pub(crate) fn read(&mut self, n: u64, buffer: &mut [u8; SECTOR_SIZE]) -> Result<(), Failed>
        requires sound { IsSound B.past_of self.old }
        requires inside { n < (disk_plan self.old).sectors }
        ensures ok { OnOk result (buffer.new ≡ sector (disk_past B.past_of self.old).disk.content n) }
        ensures err { OnErr result (buffer.new ≡ buffer.old) }
        ensures fits { OnOk result (IsSectorFit (disk_plan self.old) (disk_table B.past_of self.old) n) }
        ensures failed { OnErr result ((disk_failed self.old ≡ true)
            ⊎ Rises (B.failures (disk_file self.old)) (B.failures (disk_file self.new))
            ⊎ ¬ IsSectorFit (disk_plan self.old) (disk_table B.past_of self.old) n) }
        ensures working { OnOk result (disk_failed self.old ≡ false) }
        ensures quiet { OnOk result (B.failures (disk_file self.new) ≡ B.failures (disk_file self.old)) }
        ensures left_alone { disk_failed self.old ≡ true → disk_file self.new ≡ disk_file self.old }
        ensures back { B.written_back (disk_file self.new) ≡ B.written_back (disk_file self.old) }
        ensures reads { ReadsAlone B.past_of self.old self.new }
        ensures good { IsGood B.past_of self.old → IsGood B.past_of self.new }
        ensures disk { (disk_past B.past_of self.new).disk ≡ (disk_past B.past_of self.old).disk }
        ensures time { Elapses (disk_past B.past_of self.old) (disk_past B.past_of self.new) }
        ensures counts { CountsFailure (disk_failures B.failures self.old) (disk_failures B.failures self.new) result }
        ensures sound { IsSound B.past_of self.new }
    {
        self.past = self.past.and(&self.now);
        let done = read_sector(&mut self.now.checked, self.plan, n, buffer);
        count(&mut self.damaged, done)
    }

    /// Writes a sector. Where it fails, the sector holds what it held, unsynced.
    pub(crate) fn write(&mut self, n: u64, bytes: &[u8; SECTOR_SIZE]) -> Result<(), Failed>
        requires sound { IsSound B.past_of self.old }
        requires inside { n < (disk_plan self.old).sectors }
        ensures ok { OnOk result ((disk_past B.past_of self.new).disk
            ≡ after_write (disk_past B.past_of self.old).disk n bytes.now) }
        ensures err { OnErr result (IsFailedWrite (disk_past B.past_of self.old).disk n
            (disk_past B.past_of self.new).disk) }
        ensures kept { OnErr result ((disk_past B.past_of self.new).disk.content
            ≡ (disk_past B.past_of self.old).disk.content) }
        ensures failed { OnErr result ((disk_failed self.old ≡ true) ⊎ (disk_number self.old ≡ 2 ^ 64 - 1)
            ⊎ Rises (B.failures (disk_file self.old)) (B.failures (disk_file self.new))
            ⊎ ¬ IsSectorFit (disk_plan self.old) (disk_table B.past_of self.old) n) }
        ensures working { OnOk result ((disk_failed self.old ≡ false) × (disk_failed self.new ≡ false)) }
        ensures quiet { OnOk result (B.failures (disk_file self.new) ≡ B.failures (disk_file self.old)) }
        ensures left_alone { disk_failed self.old ≡ true → disk_file self.new ≡ disk_file self.old }
        ensures back { B.written_back (disk_file self.new) ≡ B.written_back (disk_file self.old) }
        ensures fits { FitsAsBefore (disk_plan self.old) (disk_table B.past_of self.old)
            (disk_table B.past_of self.new) }
        ensures broken { disk_failed self.new ≡ true → (disk_failed self.old ≡ true)
            ⊎ (disk_number self.old ≡ 2 ^ 64 - 1)
            ⊎ Rises (B.failures (disk_file self.old)) (B.failures (disk_file self.new)) }
        ensures number { disk_number self.new ≤ disk_number self.old + 1 }
        ensures settled { (disk_settled B.past_of self.new ≡ disk_settled B.past_of self.old)
            ⊎ (disk_settled B.past_of self.new ≡ disk_table B.past_of self.old) }
        ensures any_moment { disk_failed self.old ≡ false
            → LeavesEither B.past_of (disk_journal self.old) (disk_journal self.new) }
        ensures good { IsGood B.past_of self.old → disk_failed self.new ≡ false → IsGood B.past_of self.new }
        ensures opens { IsGood B.past_of self.old → OpensMeanwhile B.past_of self.old self.new }
        ensures gathers { 1 < room_of (disk_journal self.old)
            → OnlyReads (B.past_of (disk_file self.old)) (B.past_of (disk_file self.new)) }
        ensures room { 1 < room_of (disk_journal self.old)
            → room_of (disk_journal self.old) ≤ room_of (disk_journal self.new) + 2 }
        ensures plan { disk_plan self.new ≡ disk_plan self.old }
        ensures time { Elapses (disk_past B.past_of self.old) (disk_past B.past_of self.new) }
        ensures counts { CountsFailure (disk_failures B.failures self.old) (disk_failures B.failures self.new) result }
        ensures sound { IsSound B.past_of self.new }
    {
        self.past = self.past.and(&self.now);
        let done = write_sector(&mut self.now.checked, self.plan, n, bytes);
        self.now.written = self.now.written.and(&n);
        count(&mut self.damaged, done)
    }

    /// Syncs all sectors.
    pub(crate) fn sync(&mut self) -> Result<(), Failed>
        requires sound { IsSound B.past_of self.old }
        ensures ok { OnOk result ((disk_past B.past_of self.new).disk
            ≡ after_sync (disk_past B.past_of self.old).disk) }
        ensures err { OnErr result ((disk_past B.past_of self.new).disk ≡ (disk_past B.past_of self.old).disk) }
        ensures none { OnOk result ((disk_journal self.new).next ≡ []) }
        ensures working { OnOk result ((disk_failed self.old ≡ false) × (disk_failed self.new ≡ false)) }
        ensures broken { OnErr result (disk_failed self.new ≡ true) }
        ensures settled { OnOk result (disk_settled B.past_of self.new ≡ disk_table B.past_of self.old) }
        ensures unsettled { OnErr result (disk_settled B.past_of self.new ≡ disk_settled B.past_of self.old) }
        ensures any_moment { disk_failed self.old ≡ false
            → LeavesEither B.past_of (disk_journal self.old) (disk_journal self.new) }
        ensures good { IsGood B.past_of self.old → disk_failed self.new ≡ false → IsGood B.past_of self.new }
        ensures opens { IsGood B.past_of self.old → OpensMeanwhile B.past_of self.old self.new }
        ensures holds { disk_failed self.old ≡ false → KeepsBatch (disk_journal self.old).shape
            (disk_journal self.old).last (B.past_of (disk_file self.old)) (B.past_of (disk_file self.new)) }
        ensures offers { OffersOne (disk_journal self.old) (disk_journal self.new) }
        ensures left_alone { disk_failed self.old ≡ true → disk_file self.new ≡ disk_file self.old }
        ensures back { B.written_back (disk_file self.new) ≡ B.written_back (disk_file self.old) }
        ensures table { disk_table B.past_of self.new ≡ disk_table B.past_of self.old }
        ensures last { OnOk result (disk_number self.new ≡ disk_number self.old + 1) }
        ensures quiet { OnOk result (B.failures (disk_file self.new) ≡ B.failures (disk_file self.old)) }
        ensures fails { OnErr result ((disk_failed self.old ≡ true) ⊎ (disk_number self.old ≡ 2 ^ 64 - 1)
            ⊎ Rises (B.failures (disk_file self.old)) (B.failures (disk_file self.new))) }
        ensures plan { disk_plan self.new ≡ disk_plan self.old }
        ensures time { Elapses (disk_past B.past_of self.old) (disk_past B.past_of self.new) }
        ensures counts { CountsFailure (disk_failures B.failures self.old) (disk_failures B.failures self.new) result }
        ensures sound { IsSound B.past_of self.new }
    {
        self.past = self.past.and(&self.now);
        self.now.checked.commit()?;
        self.now.checked.stands();
        self.now.written = GhostList::new();
        Ok(())
    }

    // Puts all blocks in their places, behind a sync, so that no area of the journal is needed.
    fn settle(&mut self) -> Result<(), Failed>
        requires sound { IsSound B.past_of self.old }
        requires none { (disk_journal self.old).next ≡ [] }
        ensures working { OnOk result ((disk_failed self.old ≡ false) × (disk_failed self.new ≡ false)) }
        ensures broken { OnErr result (disk_failed self.new ≡ true) }
        ensures settled { OnOk result (disk_settled B.past_of self.new ≡ disk_table B.past_of self.old) }
        ensures good { IsGood B.past_of self.old → disk_failed self.new ≡ false → IsGood B.past_of self.new }
        ensures opens { IsGood B.past_of self.old → OpensMeanwhile B.past_of self.old self.new }
        ensures offers { OffersOne (disk_journal self.old) (disk_journal self.new) }
        ensures left_alone { disk_failed self.old ≡ true → disk_file self.new ≡ disk_file self.old }
        ensures back { B.written_back (disk_file self.new) ≡ B.written_back (disk_file self.old) }
        ensures table { disk_table B.past_of self.new ≡ disk_table B.past_of self.old }
        ensures last { OnOk result (disk_number self.new ≡ disk_number self.old + 1) }
        ensures quiet { OnOk result (B.failures (disk_file self.new) ≡ B.failures (disk_file self.old)) }
        ensures fails { OnErr result ((disk_failed self.old ≡ true) ⊎ (disk_number self.old ≡ 2 ^ 64 - 1)
            ⊎ Rises (B.failures (disk_file self.old)) (B.failures (disk_file self.new))) }
        ensures disk { (disk_past B.past_of self.new).disk ≡ (disk_past B.past_of self.old).disk }
        ensures alone { OnOk result (StandsAlone (disk_plan self.old)
            (B.past_of (disk_file self.new)).file.content (disk_past B.past_of self.old).disk.content) }
        ensures safe { OnOk result ((n : ℕ) → (B.past_of (disk_file self.new)).file.loose n ≡ false) }
        ensures plan { disk_plan self.new ≡ disk_plan self.old }
        ensures time { Elapses (disk_past B.past_of self.old) (disk_past B.past_of self.new) }
        ensures counts { CountsFailure (disk_failures B.failures self.old) (disk_failures B.failures self.new) result }
        ensures sound { IsSound B.past_of self.new }
    {
        self.past = self.past.and(&self.now);
        self.now.checked.close()
    }

    /// Syncs all sectors, and puts all blocks in their places.
    pub(crate) fn close(&mut self) -> Result<(), Failed>
        requires sound { IsSound B.past_of self.old }
        ensures content { (disk_past B.past_of self.new).disk.content ≡ (disk_past B.past_of self.old).disk.content }
        ensures synced { OnOk result (IsSynced (disk_past B.past_of self.new).disk) }
        ensures alone { OnOk result (StandsAlone (disk_plan self.old)
            (B.past_of (disk_file self.new)).file.content (disk_past B.past_of self.old).disk.content) }
        ensures safe { OnOk result ((n : ℕ) → (B.past_of (disk_file self.new)).file.loose n ≡ false) }
        ensures failed { OnErr result ((disk_failed self.old ≡ true) ⊎ (2 ^ 64 - 2 ≤ disk_number self.old)
            ⊎ Rises (B.failures (disk_file self.old)) (B.failures (disk_file self.new))) }
        ensures working { OnOk result ((disk_failed self.old ≡ false) × (disk_failed self.new ≡ false)) }
        ensures broken { OnErr result (disk_failed self.new ≡ true) }
        ensures settled { OnOk result (disk_settled B.past_of self.new ≡ disk_table B.past_of self.old) }
        ensures good { IsGood B.past_of self.old → disk_failed self.new ≡ false → IsGood B.past_of self.new }
        ensures opens { IsGood B.past_of self.old → OpensMeanwhile B.past_of self.old self.new }
        ensures left_alone { disk_failed self.old ≡ true → disk_file self.new ≡ disk_file self.old }
        ensures back { B.written_back (disk_file self.new) ≡ B.written_back (disk_file self.old) }
        ensures table { disk_table B.past_of self.new ≡ disk_table B.past_of self.old }
        ensures number { OnOk result (disk_number self.new ≡ disk_number self.old + 2) }
        ensures quiet { OnOk result (B.failures (disk_file self.new) ≡ B.failures (disk_file self.old)) }
        ensures plan { disk_plan self.new ≡ disk_plan self.old }
        ensures time { Elapses (disk_past B.past_of self.old) (disk_past B.past_of self.new) }
        ensures counts { CountsFailure (disk_failures B.failures self.old) (disk_failures B.failures self.new) result }
        ensures sound { IsSound B.past_of self.new }
    {
        self.now.checked.stands();
        self.sync()?;
        self.settle()
    }

    /// The first sector, from a number on, whose block doesn't fit its digest.
    pub(crate) fn check(&mut self, from: u64) -> Result<Option<u64>, Failed>
        requires sound { IsSound B.past_of self.old }
        ensures damaged { IfOk result (λ found. IfSome found (IsFirstDamaged (disk_plan self.old)
            (disk_table B.past_of self.old) from)) }
        ensures fit { IfOk result (λ found. IfNone found ((n : ℕ) → from ≤ n → n < (disk_plan self.old).sectors
            → IsSectorFit (disk_plan self.old) (disk_table B.past_of self.old) n)) }
        ensures failed { OnErr result ((disk_failed self.old ≡ true)
            ⊎ Rises (B.failures (disk_file self.old)) (B.failures (disk_file self.new))) }
        ensures unfailed { from < (disk_plan self.old).sectors → OnOk result (disk_failed self.old ≡ false) }
        ensures quiet { OnOk result (B.failures (disk_file self.new) ≡ B.failures (disk_file self.old)) }
        ensures left_alone { disk_failed self.old ≡ true → disk_file self.new ≡ disk_file self.old }
        ensures back { B.written_back (disk_file self.new) ≡ B.written_back (disk_file self.old) }
        ensures reads { ReadsAlone B.past_of self.old self.new }
        ensures good { IsGood B.past_of self.old → IsGood B.past_of self.new }
        ensures disk { (disk_past B.past_of self.new).disk ≡ (disk_past B.past_of self.old).disk }
        ensures plan { disk_plan self.new ≡ disk_plan self.old }
        ensures time { Elapses (disk_past B.past_of self.old) (disk_past B.past_of self.new) }
        ensures counts { CountsFailure (disk_failures B.failures self.old) (disk_failures B.failures self.new) result }
        ensures sound { IsSound B.past_of self.new }
    {
        self.past = self.past.and(&self.now);
        first_damaged(&mut self.now.checked, self.plan, from)
    }
}
