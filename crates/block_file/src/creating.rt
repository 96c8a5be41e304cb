//! A file of blocks is made, for a new device.
ghost use Rattle.std.specs.Prelude.{◌≡◌, ◌≢◌, ℕ, false, replicate, Some, IfErr, IfOk};
ghost use Rattle.sector_device.specs.Disk.{IsSynced};
ghost use Rattle.sector_device.specs.DevicePast.{Rises};
ghost use Rattle.sector_device.specs.Values.{zero_sector};
ghost use Rattle.block_journal.specs.Layout.{IsInside};
ghost use Rattle.block_file.specs.Disks.{disk_failures, disk_file, disk_past, disk_plan, first_content};
ghost use Rattle.block_file.specs.Good.{IsGood};
ghost use Rattle.block_file.specs.Header.{CanBeTold, TellTwice, plan_told};
ghost use Rattle.block_file.specs.Making.{BecomesZeros, BeginsNewBack, WritesNewBack};

use crate::making::lay_out;
use crate::opening::{error_of, has_room};
use crate::{BlockDisk, FileError, Plan, Refused};
use block_device::Blocks;
use block_table::CheckedBlocks;
use std::alloc::Allocator;

/// Makes a file of blocks for a new device, whose sectors are of zeros, as [`lay_out`] does, and opens it. No block of
/// the file is loose. The opening writes back both areas of the journal, and no other block (`written_back`,
/// `written_back_refused`).
///
/// It is refused where the file has fewer blocks than the plan asks for, and is then left alone (`left_alone`); where
/// the file fails; and where memory is refused.
///
/// Whatever it answers, a crash at any moment of it leaves headers that tell what they told before, or zeros
/// (`any_moment`, `refused`).
pub fn create<B: Blocks, A: Allocator + Copy>(
    alloc: A,
    below: B,
    plan: Plan,
) -> Result<BlockDisk<B, A>, Refused<B>>
    requires told { CanBeTold plan }
    requires synced { (n : ℕ) → (B.past_of below).file.loose n ≡ false }
    ensures plan { IfOk result (λ d. disk_plan d ≡ plan) }
    ensures still { IfOk result (λ d. plan_told (first_content B.past_of d) ≡ Some plan) }
    ensures headers { IfOk result (λ d. TellTwice plan (first_content B.past_of d)) }
    ensures content { IfOk result (λ d. (disk_past B.past_of d).disk.content
        ≡ replicate plan.sectors zero_sector) }
    ensures synced { IfOk result (λ d. IsSynced (disk_past B.past_of d).disk) }
    ensures good { IfOk result (λ d. IsGood B.past_of d) }
    ensures failures { IfOk result (λ d. disk_failures B.failures d ≡ B.failures below) }
    ensures any_moment { IfOk result (λ d. BecomesZeros plan (B.past_of below) (B.past_of (disk_file d))) }
    ensures written_back { IfOk result (λ d. WritesNewBack plan (B.past_of below).moment (B.past_of (disk_file d))
        (B.written_back below) (B.written_back (disk_file d))) }
    ensures refused { IfErr result (λ e. BecomesZeros plan (B.past_of below) (B.past_of e.file)) }
    ensures written_back_refused { IfErr result (λ e. BeginsNewBack plan (B.past_of below).moment (B.past_of e.file)
        (B.written_back below) (B.written_back e.file)) }
    ensures left_alone { IfErr result (λ e. e.error ≡ FileError.TooShort → e.file ≡ below) }
    ensures too_short { IfErr result (λ e. e.error ≡ FileError.TooShort
        → ¬ IsInside plan.shape (B.past_of below).file.content) }
    ensures failed { IfErr result (λ e. e.error ≡ FileError.FileFailed
        → Rises (B.failures below) (B.failures e.file)) }
    ensures header { IfErr result (λ e. e.error ≢ FileError.NoHeader) }
    ensures batch { IfErr result (λ e. e.error ≢ FileError.NoBatch) }
    ensures undamaged { IfErr result (λ e. (n : ℕ) → e.error ≢ FileError.Damaged n) }
{
    let mut below = below;
    if !has_room(&below, plan) {
        return Err(Refused {
            file: below,
            error: FileError::TooShort,
        });
    }
    if lay_out(&mut below, plan).is_err() {
        return Err(Refused {
            file: below,
            error: FileError::FileFailed,
        });
    }
    match CheckedBlocks::open(alloc, below, plan.shape, plan.blocks) {
        Ok(checked) => Ok(BlockDisk::over(checked, plan)),
        Err(refused) => Err(Refused {
            file: refused.file,
            error: error_of(refused.error),
        }),
    }
}
