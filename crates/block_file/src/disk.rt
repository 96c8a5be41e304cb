//! A device of sectors over a file of blocks.
ghost use Rattle.std.specs.Prelude.{◌≡◌, ◌⊎◌, ◌+◌, ◌-◌, ◌^◌, ◌<◌, ◌≤◌, ℕ, [], false, true, length, IfNone};
ghost use Rattle.std.specs.Prelude.{IfOk, IfSome, OnErr, OnOk};
ghost use Rattle.sector_device.specs.Disk.{IsFailedWrite, IsSynced, after_sync, after_write, sector};
ghost use Rattle.sector_device.specs.DevicePast.{CountsFailure, Elapses, Rises};
ghost use Rattle.block_file.specs.Plans.{IsPlan};
ghost use Rattle.block_file.specs.Sectors.{sectors_of};
ghost use Rattle.block_table.specs.Checked.{settled_data};
ghost use Rattle.block_device.specs.Blocks.{CrashFile, IsCrashFile};
ghost use Rattle.block_journal.specs.Journal.{OnlyReads};
ghost use Rattle.block_journal.specs.Layout.{IsHonest, recovered};
ghost use Rattle.block_journal.specs.Value.{LeavesEither, failures_of, room_of};

use crate::Plan;
use crate::parts::{DiskParts, Held};
use block_device::Blocks;
use block_table::CheckedBlocks;
use ghost_list::GhostList;
use sector_device::{Device, Failed, SECTOR_SIZE};
use std::alloc::Allocator;
use std::marker::Model;

/// A device of sectors over a file of blocks. A write is gathered, and a sync commits what was gathered; a batch that
/// is full is committed by the next write.
///
/// Where a call of the file fails, the call of the device fails (`quiet`). Once a commit has failed, each call fails
/// from then on (`sound`; `unfailed` of a check), and the file is left alone (`left_alone`). Only an opening writes
/// back what a file has (`written_back` of [`crate::open`], [`crate::open_uncompared`] and [`crate::create`]): no other
/// call does (`back`).
#[derive(Drop)]
pub struct BlockDisk<B: Blocks, A: Allocator> {
    parts: DiskParts<B, A>,
}

impl<B: Blocks, A: Allocator> Model for BlockDisk<B, A> {
    ghost use Rattle.std.specs.Coded.{codes};
    ghost use Rattle.block_file.specs.declared.parts.DiskParts.{DiskParts};
    ghost use Rattle.block_file.specs.Moves.{IsSound};

    ghost Value = { DiskParts B A };

    ghost coded = { Prim.hlevel codes };

    ghost view = { λ d. d.parts };

    ghost invariant = { λ d. IsSound B.past_of d.parts };
}

impl<B: Blocks, A: Allocator + Copy> BlockDisk<B, A> {
    ghost use Rattle.block_file.specs.Closing.{StandsAlone};
    ghost use Rattle.block_file.specs.Damage.{IsFirstDamaged, IsSectorFit};
    ghost use Rattle.block_file.specs.Disks.{BeforeStays, CrashStandsNow, EachCrashStands, EachOffers, ReadsAlone};
    ghost use Rattle.block_file.specs.Disks.{TellsStill, disk_blocks, disk_failed, disk_failures, disk_file};
    ghost use Rattle.block_file.specs.Disks.{disk_journal, disk_number, disk_past, disk_plan, disk_state, disk_table};
    ghost use Rattle.block_file.specs.Disks.{disk_settled, first_content};
    ghost use Rattle.block_file.specs.Good.{IsGood, OpensMeanwhile, OpensNow};

    /// The device whose sectors these blocks hold, which were just opened: all of them synced.
    pub fn over(checked: CheckedBlocks<B, A>, plan: Plan) -> Self
        requires plan { IsPlan plan }
        requires shape { checked.journal.shape ≡ plan.shape }
        requires blocks { checked.blocks ≡ plan.blocks }
        requires none { checked.journal.next ≡ [] }
        requires good { checked.journal.has_failed ≡ false }
        ensures content { (disk_past B.past_of result).disk.content
            ≡ sectors_of plan.lead plan.sectors (settled_data B.past_of checked) }
        ensures synced { IsSynced (disk_past B.past_of result).disk }
        ensures moment { (disk_past B.past_of result).moment ≡ 0 }
        ensures plan { disk_plan result ≡ plan }
        ensures journal { disk_journal result ≡ checked.journal }
        ensures failures { disk_failures B.failures result ≡ failures_of B.failures checked.journal }
        ensures first { first_content B.past_of result ≡ (B.past_of checked.journal.below).file.content }
    {
        checked.stands();
        BlockDisk {
            parts: DiskParts {
                plan,
                now: Held {
                    checked,
                    written: GhostList::new(),
                },
                past: GhostList::new(),
                damaged: 0,
            },
        }
    }

    /// A law: from each moment of the device to the next one, and now, whatever a crash leaves of the file stands,
    /// under the premise, for a crash state of the device at that moment (`each`, `now`). Meanwhile at most the batch
    /// that was gathered is handed to be written (`offers`), and the premise holds of the file as it is (`honest`). The
    /// blocks before the journal stay (`headers`). So the file tells where the device is, if it did (`told`).
    ///
    /// Unless a commit has failed, what a crash leaves now has the table and the data as they were committed
    /// (`survives`), and can be opened, if each block fits (`opens`). The journal is where the plan says (`plan`,
    /// `shape`).
    pub fn stands(&self)
        ensures each { EachCrashStands B.past_of self.now }
        ensures now { CrashStandsNow B.past_of (disk_plan self.now) (disk_state self.now) }
        ensures offers { EachOffers self.now }
        ensures honest { disk_failed self.now ≡ false → IsHonest (disk_journal self.now).offered
            (disk_plan self.now).shape (B.past_of (disk_file self.now)).file.content }
        ensures survives { disk_failed self.now ≡ false → (image : CrashFile)
            → IsCrashFile (B.past_of (disk_file self.now)).file image
            → IsHonest (disk_journal self.now).offered (disk_plan self.now).shape image
            → recovered (disk_plan self.now).shape image ≡ disk_settled B.past_of self.now }
        ensures opens { IsGood B.past_of self.now → OpensNow B.past_of self.now }
        ensures plan { IsPlan (disk_plan self.now) }
        ensures shape { (disk_journal self.now).shape ≡ (disk_plan self.now).shape }
        ensures headers { BeforeStays B.past_of self.now }
        ensures told { TellsStill B.past_of self.now }
    {
        self.parts.now.checked.stands();
    }

    /// Ends the use of the file: syncs all sectors, and puts all blocks in their places. Then the file stands for the
    /// device, whatever batches the areas of its journal lose (`alone`). It fails where the file does, once a commit
    /// has failed, and at the last numbers of 64 bits (`failed`). A crash meanwhile leaves a file that can be opened
    /// (`opens`).
    pub fn close(&mut self) -> Result<(), Failed>
        ensures content { (disk_past B.past_of self.new).disk.content ≡ (disk_past B.past_of self.old).disk.content }
        ensures synced { OnOk result (IsSynced (disk_past B.past_of self.new).disk) }
        ensures alone { OnOk result (StandsAlone (disk_plan self.old)
            (B.past_of (disk_file self.new)).file.content (disk_past B.past_of self.old).disk.content) }
        ensures safe { OnOk result ((n : ℕ) → (B.past_of (disk_file self.new)).file.loose n ≡ false) }
        ensures failed { OnErr result ((disk_failed self.old ≡ true) ⊎ (2 ^ 64 - 2 ≤ disk_number self.old)
            ⊎ Rises (B.failures (disk_file self.old)) (B.failures (disk_file self.new))) }
        ensures sound { OnOk result ((disk_failed self.old ≡ false) × (disk_failed self.new ≡ false)) }
        ensures broken { OnErr result (disk_failed self.new ≡ true) }
        ensures settled { OnOk result (disk_settled B.past_of self.new ≡ disk_table B.past_of self.old) }
        ensures good { IsGood B.past_of self.old → disk_failed self.new ≡ false → IsGood B.past_of self.new }
        ensures opens { IsGood B.past_of self.old → OpensMeanwhile B.past_of self.old self.new }
        ensures left_alone { disk_failed self.old ≡ true → disk_file self.new ≡ disk_file self.old }
        ensures back { B.written_back (disk_file self.new) ≡ B.written_back (disk_file self.old) }
        ensures table { disk_table B.past_of self.new ≡ disk_table B.past_of self.old }
        ensures number { OnOk result (disk_number self.new ≡ disk_number self.old + 2) }
        ensures quiet { OnOk result (B.failures (disk_file self.new) ≡ B.failures (disk_file self.old)) }
        ensures plan { disk_plan self.new ≡ disk_plan self.old }
        ensures time { Elapses (disk_past B.past_of self.old) (disk_past B.past_of self.new) }
        ensures counts { CountsFailure (disk_failures B.failures self.old) (disk_failures B.failures self.new) result }
    {
        self.parts.close()
    }

    /// The first sector, from a number on, whose block doesn't fit its digest. The other sectors of the block are told
    /// likewise, so a search for more goes on behind its last one. It fails where the file does, and once a commit has
    /// failed (`failed`).
    pub fn check(&mut self, from: u64) -> Result<Option<u64>, Failed>
        ensures damaged { IfOk result (λ found. IfSome found (IsFirstDamaged (disk_plan self.old)
            (disk_table B.past_of self.old) from)) }
        ensures fit { IfOk result (λ found. IfNone found ((n : ℕ) → from ≤ n → n < (disk_plan self.old).sectors
            → IsSectorFit (disk_plan self.old) (disk_table B.past_of self.old) n)) }
        ensures failed { OnErr result ((disk_failed self.old ≡ true)
            ⊎ Rises (B.failures (disk_file self.old)) (B.failures (disk_file self.new))) }
        ensures unfailed { from < (disk_plan self.old).sectors → OnOk result (disk_failed self.old ≡ false) }
        ensures quiet { OnOk result (B.failures (disk_file self.new) ≡ B.failures (disk_file self.old)) }
        ensures left_alone { disk_failed self.old ≡ true → disk_file self.new ≡ disk_file self.old }
        ensures back { B.written_back (disk_file self.new) ≡ B.written_back (disk_file self.old) }
        ensures reads { ReadsAlone B.past_of self.old self.new }
        ensures good { IsGood B.past_of self.old → IsGood B.past_of self.new }
        ensures disk { (disk_past B.past_of self.new).disk ≡ (disk_past B.past_of self.old).disk }
        ensures plan { disk_plan self.new ≡ disk_plan self.old }
        ensures time { Elapses (disk_past B.past_of self.old) (disk_past B.past_of self.new) }
        ensures counts { CountsFailure (disk_failures B.failures self.old) (disk_failures B.failures self.new) result }
    {
        self.parts.check(from)
    }

    /// The file as it is now.
    pub fn file(&self) -> &B
        ensures { result.now ≡ disk_file self.now }
    {
        self.parts.now.checked.file()
    }

    /// The blocks, with what was gathered since the last sync.
    pub fn into_checked(self) -> CheckedBlocks<B, A>
        ensures { result ≡ disk_blocks self }
    {
        self.parts.now.checked
    }
}

impl<B: Blocks, A: Allocator + Copy> Device for BlockDisk<B, A> {
    ghost use Rattle.block_file.specs.Damage.{FitsAsBefore, IsSectorFit};
    ghost use Rattle.block_file.specs.Disks.{ReadsAlone, disk_failed, disk_failures, disk_file, disk_number};
    ghost use Rattle.block_file.specs.Disks.{disk_journal, disk_past, disk_plan, disk_settled, disk_table};
    ghost use Rattle.block_file.specs.Good.{IsGood, OpensMeanwhile};

    ghost past_of = { λ d. disk_past B.past_of d };

    ghost failures = { λ d. disk_failures B.failures d };

    fn sectors(&self) -> u64 {
        self.parts.plan.sectors
    }

    /// It answers only what fits its digest (`fits`). It fails where that doesn't, where the file does, and once a
    /// commit has failed (`failed`). It changes nothing, and writes nothing back (`reads`, `back`).
    fn read(&mut self, n: u64, buffer: &mut [u8; SECTOR_SIZE]) -> Result<(), Failed>
        requires { n < length (disk_past B.past_of self.old).disk.content }
        ensures ok { OnOk result (buffer.new ≡ sector (disk_past B.past_of self.old).disk.content n) }
        ensures err { OnErr result (buffer.new ≡ buffer.old) }
        ensures disk { (disk_past B.past_of self.new).disk ≡ (disk_past B.past_of self.old).disk }
        ensures time { Elapses (disk_past B.past_of self.old) (disk_past B.past_of self.new) }
        ensures counts { CountsFailure (disk_failures B.failures self.old) (disk_failures B.failures self.new) result }
        ensures fits { OnOk result (IsSectorFit (disk_plan self.old) (disk_table B.past_of self.old) n) }
        ensures failed { OnErr result ((disk_failed self.old ≡ true)
            ⊎ Rises (B.failures (disk_file self.old)) (B.failures (disk_file self.new))
            ⊎ ¬ IsSectorFit (disk_plan self.old) (disk_table B.past_of self.old) n) }
        ensures sound { OnOk result (disk_failed self.old ≡ false) }
        ensures quiet { OnOk result (B.failures (disk_file self.new) ≡ B.failures (disk_file self.old)) }
        ensures left_alone { disk_failed self.old ≡ true → disk_file self.new ≡ disk_file self.old }
        ensures back { B.written_back (disk_file self.new) ≡ B.written_back (disk_file self.old) }
        ensures reads { ReadsAlone B.past_of self.old self.new }
        ensures good { IsGood B.past_of self.old → IsGood B.past_of self.new }
    {
        self.parts.read(n, buffer)
    }

    /// Where it fails, the sector holds what it held (`kept`), unsynced. It fails as a read of the sector does, and
    /// where a batch that is full can't be committed (`failed`). The same blocks fit as before (`fits`), and a commit
    /// has failed only where it had before, or that one does (`broken`). Where a batch has room for two blocks, nothing
    /// is committed, the file stays as it is (`gathers`), and the batch takes two blocks more at most (`room`). A crash
    /// meanwhile leaves a file that can be opened (`opens`), with the table and the data as they were committed, or as
    /// they were put (`any_moment`).
    fn write(&mut self, n: u64, bytes: &[u8; SECTOR_SIZE]) -> Result<(), Failed>
        requires { n < length (disk_past B.past_of self.old).disk.content }
        ensures ok { OnOk result ((disk_past B.past_of self.new).disk
            ≡ after_write (disk_past B.past_of self.old).disk n bytes.now) }
        ensures err { OnErr result (IsFailedWrite (disk_past B.past_of self.old).disk n
            (disk_past B.past_of self.new).disk) }
        ensures time { Elapses (disk_past B.past_of self.old) (disk_past B.past_of self.new) }
        ensures counts { CountsFailure (disk_failures B.failures self.old) (disk_failures B.failures self.new) result }
        ensures kept { OnErr result ((disk_past B.past_of self.new).disk.content
            ≡ (disk_past B.past_of self.old).disk.content) }
        ensures failed { OnErr result ((disk_failed self.old ≡ true) ⊎ (disk_number self.old ≡ 2 ^ 64 - 1)
            ⊎ Rises (B.failures (disk_file self.old)) (B.failures (disk_file self.new))
            ⊎ ¬ IsSectorFit (disk_plan self.old) (disk_table B.past_of self.old) n) }
        ensures sound { OnOk result ((disk_failed self.old ≡ false) × (disk_failed self.new ≡ false)) }
        ensures quiet { OnOk result (B.failures (disk_file self.new) ≡ B.failures (disk_file self.old)) }
        ensures left_alone { disk_failed self.old ≡ true → disk_file self.new ≡ disk_file self.old }
        ensures back { B.written_back (disk_file self.new) ≡ B.written_back (disk_file self.old) }
        ensures fits { FitsAsBefore (disk_plan self.old) (disk_table B.past_of self.old)
            (disk_table B.past_of self.new) }
        ensures broken { disk_failed self.new ≡ true → (disk_failed self.old ≡ true)
            ⊎ (disk_number self.old ≡ 2 ^ 64 - 1)
            ⊎ Rises (B.failures (disk_file self.old)) (B.failures (disk_file self.new)) }
        ensures number { disk_number self.new ≤ disk_number self.old + 1 }
        ensures settled { (disk_settled B.past_of self.new ≡ disk_settled B.past_of self.old)
            ⊎ (disk_settled B.past_of self.new ≡ disk_table B.past_of self.old) }
        ensures any_moment { disk_failed self.old ≡ false
            → LeavesEither B.past_of (disk_journal self.old) (disk_journal self.new) }
        ensures good { IsGood B.past_of self.old → disk_failed self.new ≡ false → IsGood B.past_of self.new }
        ensures opens { IsGood B.past_of self.old → OpensMeanwhile B.past_of self.old self.new }
        ensures gathers { 1 < room_of (disk_journal self.old)
            → OnlyReads (B.past_of (disk_file self.old)) (B.past_of (disk_file self.new)) }
        ensures room { 1 < room_of (disk_journal self.old)
            → room_of (disk_journal self.old) ≤ room_of (disk_journal self.new) + 2 }
        ensures plan { disk_plan self.new ≡ disk_plan self.old }
    {
        self.parts.write(n, bytes)
    }

    /// It fails where the file does, once a commit has failed, and at the last number of 64 bits (`failed`). A crash
    /// meanwhile leaves what one leaves in a write (`opens`, `any_moment`).
    fn sync(&mut self) -> Result<(), Failed>
        ensures ok { OnOk result ((disk_past B.past_of self.new).disk
            ≡ after_sync (disk_past B.past_of self.old).disk) }
        ensures err { OnErr result ((disk_past B.past_of self.new).disk ≡ (disk_past B.past_of self.old).disk) }
        ensures time { Elapses (disk_past B.past_of self.old) (disk_past B.past_of self.new) }
        ensures counts { CountsFailure (disk_failures B.failures self.old) (disk_failures B.failures self.new) result }
        ensures failed { OnErr result ((disk_failed self.old ≡ true) ⊎ (disk_number self.old ≡ 2 ^ 64 - 1)
            ⊎ Rises (B.failures (disk_file self.old)) (B.failures (disk_file self.new))) }
        ensures sound { OnOk result ((disk_failed self.old ≡ false) × (disk_failed self.new ≡ false)) }
        ensures broken { OnErr result (disk_failed self.new ≡ true) }
        ensures settled { OnOk result (disk_settled B.past_of self.new ≡ disk_table B.past_of self.old) }
        ensures unsettled { OnErr result (disk_settled B.past_of self.new ≡ disk_settled B.past_of self.old) }
        ensures any_moment { disk_failed self.old ≡ false
            → LeavesEither B.past_of (disk_journal self.old) (disk_journal self.new) }
        ensures good { IsGood B.past_of self.old → disk_failed self.new ≡ false → IsGood B.past_of self.new }
        ensures opens { IsGood B.past_of self.old → OpensMeanwhile B.past_of self.old self.new }
        ensures left_alone { disk_failed self.old ≡ true → disk_file self.new ≡ disk_file self.old }
        ensures back { B.written_back (disk_file self.new) ≡ B.written_back (disk_file self.old) }
        ensures table { disk_table B.past_of self.new ≡ disk_table B.past_of self.old }
        ensures quiet { OnOk result (B.failures (disk_file self.new) ≡ B.failures (disk_file self.old)) }
        ensures number { OnOk result (disk_number self.new ≡ disk_number self.old + 1) }
        ensures plan { disk_plan self.new ≡ disk_plan self.old }
    {
        self.parts.sync()
    }
}
