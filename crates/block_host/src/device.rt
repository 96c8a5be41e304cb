//! A device in a file of either kind.
ghost use Rattle.std.specs.Prelude.{◌≡◌, ◌⊎◌, ◌-◌, ◌^◌, ◌<◌, ◌≤◌, ℕ, false, true, None, Ok, IfNone, IfOk, IfSome, IsOk};
ghost use Rattle.std.specs.Prelude.{OnErr, OnOk};
ghost use Rattle.sector_device.specs.Disk.{IsSynced};
ghost use Rattle.sector_device.specs.DevicePast.{CountsFailure, Rises};
ghost use Rattle.block_host.specs.Kinds.{InBlocks, IsInBlocks, IsInPlain, StaysPlain, failures_by, past_by};

use crate::mirror::FileBlocks;
use block_file::BlockDisk;
use sector_device::{Device, Failed, SECTOR_SIZE};
use std::alloc::Allocator;
use store_file::{Stored, Trouble, Troubled};

/// A device in a file of either kind.
#[derive(Drop)]
pub enum FileDevice<P, B> {
    /// In a plain file, which has its sectors one behind the other.
    Plain(P),
    /// In a file of blocks.
    Blocks(B),
}

/// What a device in a file does besides. What more [`FileDevice`] promises of both calls, its clauses say.
pub trait InFile {
    /// Whether the bytes of the sector of this number fit what the file keeps of them, where it keeps anything.
    ghost fits: { Self → ℕ → Type 0 };

    /// The first damaged sector, from a number on, where the file can tell (`harmed`); or none, where all behind that
    /// fit (`whole`). It fails where the device does.
    fn check(&mut self, from: u64) -> Result<Option<u64>, Failed>
        ensures harmed { IfOk result (λ found. IfSome found (λ n. (from ≤ n) × (¬ fits self.old n))) }
        ensures whole { IfOk result (λ found. IfNone found ((n : ℕ) → from ≤ n → fits self.old n)) };

    /// Ends its use, where it was synced: what is below it needs no repair then. It fails where the device does.
    fn end(&mut self) -> Result<(), Failed>;
}

impl<P: Device, B: Device> Device for FileDevice<P, B> {
    ghost past_of = { λ d. past_by P.past_of B.past_of d };

    ghost failures = { λ d. failures_by P.failures B.failures d };

    fn sectors(&self) -> u64 {
        match self {
            FileDevice::Plain(disk) => disk.sectors(),
            FileDevice::Blocks(disk) => disk.sectors(),
        }
    }

    fn read(&mut self, n: u64, buffer: &mut [u8; SECTOR_SIZE]) -> Result<(), Failed> {
        match self {
            FileDevice::Plain(disk) => disk.read(n, buffer),
            FileDevice::Blocks(disk) => disk.read(n, buffer),
        }
    }

    fn write(&mut self, n: u64, bytes: &[u8; SECTOR_SIZE]) -> Result<(), Failed> {
        match self {
            FileDevice::Plain(disk) => disk.write(n, bytes),
            FileDevice::Blocks(disk) => disk.write(n, bytes),
        }
    }

    fn sync(&mut self) -> Result<(), Failed> {
        match self {
            FileDevice::Plain(disk) => disk.sync(),
            FileDevice::Blocks(disk) => disk.sync(),
        }
    }
}

impl<P: Troubled, F: Stored + Drop, A: Allocator + Copy> Troubled
    for FileDevice<P, BlockDisk<FileBlocks<F, A>, A>> {
    fn trouble(&self) -> Option<Trouble> {
        match self {
            FileDevice::Plain(disk) => disk.trouble(),
            FileDevice::Blocks(disk) => disk.file().trouble(),
        }
    }
}

impl<P, F: Stored + Drop, A: Allocator + Copy> InFile
    for FileDevice<P, BlockDisk<FileBlocks<F, A>, A>> {
    ghost use Rattle.block_file.specs.Closing.{StandsAlone};
    ghost use Rattle.block_file.specs.Damage.{IsFirstDamaged, IsSectorFit};
    ghost use Rattle.block_file.specs.Disks.{ReadsAlone, disk_failed, disk_failures, disk_file, disk_number, disk_past};
    ghost use Rattle.block_file.specs.Disks.{disk_plan, disk_settled, disk_table};
    ghost use Rattle.block_file.specs.Good.{IsGood, OpensMeanwhile};
    ghost use Rattle.block_host.specs.FileBlocks.{failures_of, past_of, written_back_of};
    ghost use Rattle.block_host.specs.Fits.{IsFitIn};

    ghost fits = { IsFitIn past_of };

    /// Of a file of blocks the first sector whose block doesn't fit its digest (`damaged`, `fit`), and of a plain file
    /// none (`plain`). It changes nothing, and writes nothing back (`reads`, `back`). Once a commit has failed, it
    /// leaves the file alone (`left_alone`).
    fn check(&mut self, from: u64) -> Result<Option<u64>, Failed>
        ensures harmed { IfOk result (λ found. IfSome found (λ n. (from ≤ n) × (¬ IsFitIn past_of self.old n))) }
        ensures whole { IfOk result (λ found. IfNone found ((n : ℕ) → from ≤ n → IsFitIn past_of self.old n)) }
        ensures damaged { IsInBlocks self.old (λ disk. IfOk result (λ found. IfSome found
            (IsFirstDamaged (disk_plan disk) (disk_table past_of disk) from))) }
        ensures fit { IsInBlocks self.old (λ disk. IfOk result (λ found. IfNone found ((n : ℕ) → from ≤ n
            → n < (disk_plan disk).sectors → IsSectorFit (disk_plan disk) (disk_table past_of disk) n))) }
        ensures plain { IsInPlain self.old (λ _. result ≡ Ok None) }
        ensures reads { StaysPlain (ReadsAlone past_of) self.old self.new }
        ensures back { InBlocks (λ old new. written_back_of (disk_file new) ≡ written_back_of (disk_file old))
            self.old self.new }
        ensures disk { InBlocks (λ old new. (disk_past past_of new).disk ≡ (disk_past past_of old).disk)
            self.old self.new }
        ensures good { InBlocks (λ old new. IsGood past_of old → IsGood past_of new) self.old self.new }
        ensures failed { InBlocks (λ old new. OnErr result ((disk_failed old ≡ true)
            ⊎ Rises (failures_of (disk_file old)) (failures_of (disk_file new)))) self.old self.new }
        ensures left_alone { InBlocks (λ old new. disk_failed old ≡ true → disk_file new ≡ disk_file old)
            self.old self.new }
        ensures counts { InBlocks (λ old new. CountsFailure (disk_failures failures_of old)
            (disk_failures failures_of new) result) self.old self.new }
    {
        match self {
            FileDevice::Plain(_) => Ok(None),
            FileDevice::Blocks(disk) => disk.check(from),
        }
    }

    /// Ends its use. A file of blocks is synced, and all its blocks are put in their places: then it stands for the
    /// device, whatever batches the areas of its journal lose (`alone`), and no block is loose (`safe`). A crash
    /// meanwhile leaves a file that can be opened (`opens`). Nothing is written back (`back`). A plain file needs no
    /// end (`plain`), and stays as it is (`content`).
    fn end(&mut self) -> Result<(), Failed>
        ensures plain { IsInPlain self.old (λ _. IsOk result) }
        ensures content { StaysPlain (λ old new. (disk_past past_of new).disk.content
            ≡ (disk_past past_of old).disk.content) self.old self.new }
        ensures synced { InBlocks (λ old new. OnOk result (IsSynced (disk_past past_of new).disk)) self.old self.new }
        ensures alone { InBlocks (λ old new. OnOk result (StandsAlone (disk_plan old)
            (past_of (disk_file new)).file.content (disk_past past_of old).disk.content)) self.old self.new }
        ensures safe { InBlocks (λ old new. OnOk result ((n : ℕ) → (past_of (disk_file new)).file.loose n ≡ false))
            self.old self.new }
        ensures settled { InBlocks (λ old new. OnOk result (disk_settled past_of new ≡ disk_table past_of old))
            self.old self.new }
        ensures good { InBlocks (λ old new. IsGood past_of old → disk_failed new ≡ false → IsGood past_of new)
            self.old self.new }
        ensures opens { InBlocks (λ old new. IsGood past_of old → OpensMeanwhile past_of old new) self.old self.new }
        ensures failed { InBlocks (λ old new. OnErr result ((disk_failed old ≡ true) ⊎ (2 ^ 64 - 2 ≤ disk_number old)
            ⊎ Rises (failures_of (disk_file old)) (failures_of (disk_file new)))) self.old self.new }
        ensures left_alone { InBlocks (λ old new. disk_failed old ≡ true → disk_file new ≡ disk_file old)
            self.old self.new }
        ensures back { InBlocks (λ old new. written_back_of (disk_file new) ≡ written_back_of (disk_file old))
            self.old self.new }
        ensures counts { InBlocks (λ old new. CountsFailure (disk_failures failures_of old)
            (disk_failures failures_of new) result) self.old self.new }
    {
        match self {
            FileDevice::Plain(_) => Ok(()),
            FileDevice::Blocks(disk) => disk.close(),
        }
    }
}
