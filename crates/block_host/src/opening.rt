//! A device in a file of blocks is opened, or made.
ghost use Rattle.std.specs.Prelude.{◌≡◌, ◌≢◌, ◌⊎◌, ◌+◌, ◌*◌, ◌<◌, ℕ, [], false, length, replicate, Some, IfErr, IfOk};
ghost use Rattle.sector_device.specs.Disk.{IsSynced};
ghost use Rattle.sector_device.specs.Values.{zero_sector};
ghost use Rattle.block_device.specs.Blocks.{zero_block};
ghost use Rattle.block_file.specs.Disks.{disk_failures, disk_file, disk_past, disk_plan, first_content};
ghost use Rattle.block_file.specs.Good.{IsGood};
ghost use Rattle.block_file.specs.Header.{CanBeTold, TellTwice, plan_told};
ghost use Rattle.block_file.specs.Making.{WritesNewBack};
ghost use Rattle.block_file.specs.declared.opening.FileError.{FileError};
ghost use Rattle.block_file.specs.declared.opening.FileError.TheVariants.{FileFailed, NoMemory};
ghost use Rattle.block_host.specs.FileBlocks.{past_of, failures_of, has_failed_of, written_back_of, IsFileSynced};
ghost use Rattle.block_host.specs.Opened.{IsOpened, first_read};
ghost use Rattle.store_file.specs.declared.draft.TheConstants.{SECTORS_MAX};

use crate::error::DiskError;
use crate::mirror::FileBlocks;
use crate::passing::SECTORS;
use block_file::{BlockDisk, FileError, Plan, Refused, read_plan};
use std::alloc::Allocator;
use std::rt::Files;
use store_file::{HostFile, OpenError, StoreFile, Stored, Troubled};

/// A device in a file of the system.
pub type HostDisk<H, A> = BlockDisk<FileBlocks<HostFile<H>, A>, A>;

/// Makes a file of so many blocks of zeros, all of them safe, under the name `PATH.nsf-draft`: [`store_file::publish`]
/// gives it its own, and [`store_file::discard`] removes it. The refusals are those of [`store_file::create`]. Where it
/// is refused, no file is left, if that can be removed (no clause says so).
pub fn create<R: Files + AllocGlobal, A: Allocator + Copy>(
    rt: &R,
    alloc: A,
    path: &str,
    blocks: u64,
) -> Result<FileBlocks<HostFile<R::File>, A>, OpenError>
where
    R::File: StoreFile,
    ensures zeros { IfOk result (λ b. (past_of b).file.content ≡ replicate blocks zero_block) }
    ensures fits { IfOk result (λ _. (0 < blocks) × (8 * blocks < SECTORS_MAX + 1)) }
    ensures synced { IfOk result (λ b. IsFileSynced b) }
    ensures moment { IfOk result (λ b. (past_of b).moment ≡ 0) }
    ensures failures { IfOk result (λ b. failures_of b ≡ 0) }
    ensures back { IfOk result (λ b. written_back_of b ≡ []) }
    ensures sound { IfOk result (λ b. has_failed_of b ≡ false) }
{
    let disk = store_file::create(rt, alloc, path, blocks.saturating_mul(SECTORS))?;
    match FileBlocks::new(alloc, disk.into_below(), blocks as usize) {
        Ok(file) => Ok(file),
        Err(_) => {
            let _ = store_file::discard(rt, path);
            Err(OpenError::NoMemory)
        }
    }
}

/// Why there is no device in a file. A block that doesn't fit its digest is told by its first sector, and a failure of
/// the file by what was its trouble.
pub(crate) fn refusal_of<F: Stored + Drop, A: Allocator>(
    refused: Refused<FileBlocks<F, A>>,
) -> DiskError {
    let mut file = refused.file;
    match refused.error {
        FileError::Damaged(n) => match read_plan(&mut file) {
            Ok(plan) if n < 1 << 61 => DiskError::Damaged(plan.first_sector(n)),
            _ => DiskError::File(FileError::Damaged(n)),
        },
        FileError::FileFailed => match file.trouble() {
            Some(trouble) => DiskError::Open(OpenError::Io(trouble)),
            None => DiskError::File(FileError::FileFailed),
        },
        error => DiskError::File(error),
    }
}

/// The device in a file of blocks that was just read (`first`): the one that the file told then.
pub(crate) fn disk_in<F: Stored + Drop, A: Allocator + Copy>(
    alloc: A,
    below: FileBlocks<F, A>,
) -> Result<BlockDisk<FileBlocks<F, A>, A>, DiskError>
    requires synced { IsFileSynced below }
    requires moment { (past_of below).moment ≡ 0 }
    requires failures { failures_of below ≡ 0 }
    requires back { written_back_of below ≡ [] }
    ensures first { IfOk result (λ d. first_read d ≡ (past_of below).file.content) }
    ensures opened { IfOk result (λ d. IsOpened d) }
    ensures still { IfOk result (λ d. plan_told (first_content past_of d) ≡ Some (disk_plan d)) }
    ensures synced { IfOk result (λ d. IsSynced (disk_past past_of d).disk) }
    ensures good { IfOk result (λ d. IsGood past_of d) }
    ensures failures { IfOk result (λ d. disk_failures failures_of d ≡ 0) }
{
    match block_file::open(alloc, below) {
        Ok(disk) => Ok(disk),
        Err(refused) => Err(refusal_of(refused)),
    }
}

/// Makes a file, as [`create`] does, and in it a device of zeros. Both areas of its journal were written back, and no
/// other block (`written_back`). Where it is refused, no file is left, if that can be removed (no clause says so). The
/// refusals are those of [`create`], and of a device want of memory, or that the file failed (`refused`); a new file
/// isn't told as damaged (`undamaged`).
pub fn create_disk<R: Files + AllocGlobal, A: Allocator + Copy>(
    rt: &R,
    alloc: A,
    path: &str,
    plan: Plan,
) -> Result<HostDisk<R::File, A>, DiskError>
where
    R::File: StoreFile,
    requires { CanBeTold plan }
    ensures plan { IfOk result (λ d. disk_plan d ≡ plan) }
    ensures still { IfOk result (λ d. plan_told (first_content past_of d) ≡ Some plan) }
    ensures headers { IfOk result (λ d. TellTwice plan (first_content past_of d)) }
    ensures zeros { IfOk result (λ d. (disk_past past_of d).disk.content ≡ replicate plan.sectors zero_sector) }
    ensures synced { IfOk result (λ d. IsSynced (disk_past past_of d).disk) }
    ensures good { IfOk result (λ d. IsGood past_of d) }
    ensures failures { IfOk result (λ d. disk_failures failures_of d ≡ 0) }
    ensures written_back { IfOk result (λ d. WritesNewBack plan 0 (past_of (disk_file d)) []
        (written_back_of (disk_file d))) }
    ensures refused { IfErr result (λ e. (error : FileError) → e ≡ DiskError.File error
        → (error ≡ NoMemory) ⊎ (error ≡ FileFailed)) }
    ensures undamaged { IfErr result (λ e. (n : ℕ) → e ≢ DiskError.Damaged n) }
{
    let below = create(rt, alloc, path, plan.file_blocks())?;
    match block_file::create(alloc, below, plan) {
        Ok(disk) => Ok(disk),
        Err(refused) => {
            let Refused { file, error } = refused;
            // Its lock goes with it.
            drop(file);
            let _ = store_file::discard(rt, path);
            Err(DiskError::File(error))
        }
    }
}
