//! A file of blocks is opened, of which some may be damaged.
ghost use Rattle.std.specs.Prelude.{◌≡◌, ◌≢◌, ◌⊎◌, ◌<◌, ℕ, false, length, None, Some, IfErr, IfOk};
ghost use Rattle.sector_device.specs.Disk.{IsSynced};
ghost use Rattle.sector_device.specs.DevicePast.{Rises};
ghost use Rattle.block_journal.specs.Layout.{IsInside, recovered};
ghost use Rattle.block_journal.specs.Journal.{BeginsBack, LeavesBefore, OnlyReads, StaysRecovered, WritesBackFirst};
ghost use Rattle.block_file.specs.Disks.{disk_failed, disk_failures, disk_file, disk_past, disk_plan, disk_table};
ghost use Rattle.block_file.specs.Disks.{first_content};
ghost use Rattle.block_file.specs.Header.{HasNoBatch, HasNoPlan, IsCut, plan_told};
ghost use Rattle.block_file.specs.Plans.{disk_image};
ghost use Rattle.block_file.specs.declared.plan.Plan.{Plan};

use crate::opening::{error_of, has_room, read_plan};
use crate::{BlockDisk, FileError, Refused};
use block_device::Blocks;
use block_table::CheckedBlocks;
use std::alloc::Allocator;

/// Opens a file of blocks as [`crate::open`] does, but compares no block with its digest: each is compared as it is
/// read, and [`BlockDisk::check`] tells those that don't fit. So it is never refused for such a block (`undamaged`). No
/// batch is handed on, so the areas of the journal are needed still. They are written back as by that (`written_back`,
/// `written_back_refused`, `back_none`).
pub fn open_uncompared<B: Blocks, A: Allocator + Copy>(
    alloc: A,
    below: B,
) -> Result<BlockDisk<B, A>, Refused<B>>
    requires { (n : ℕ) → (B.past_of below).file.loose n ≡ false }
    ensures told { IfOk result (λ d. plan_told (B.past_of below).file.content ≡ Some (disk_plan d)) }
    ensures still { IfOk result (λ d. plan_told (first_content B.past_of d) ≡ Some (disk_plan d)) }
    ensures content { IfOk result (λ d. (disk_past B.past_of d).disk.content
        ≡ disk_image (disk_plan d) (B.past_of below).file.content) }
    ensures synced { IfOk result (λ d. IsSynced (disk_past B.past_of d).disk) }
    ensures table { IfOk result (λ d. disk_table B.past_of d
        ≡ recovered (disk_plan d).shape (B.past_of below).file.content) }
    ensures sound { IfOk result (λ d. disk_failed d ≡ false) }
    ensures failures { IfOk result (λ d. disk_failures B.failures d ≡ B.failures below) }
    ensures any_moment { IfOk result (λ d. StaysRecovered (disk_plan d).shape (B.past_of below)
        (B.past_of (disk_file d))) }
    ensures headers { IfOk result (λ d. LeavesBefore (disk_plan d).shape (B.past_of below)
        (B.past_of (disk_file d))) }
    ensures written_back { IfOk result (λ d. WritesBackFirst (disk_plan d).shape (B.past_of below)
        (B.past_of (disk_file d)) (B.written_back below) (B.written_back (disk_file d))) }
    ensures left_alone { IfErr result (λ e. HasNoPlan (B.past_of below).file.content
        → OnlyReads (B.past_of below) (B.past_of e.file)) }
    ensures back_alone { IfErr result (λ e. HasNoPlan (B.past_of below).file.content
        → B.written_back e.file ≡ B.written_back below) }
    ensures back_none { IfErr result (λ e. e.error ≡ FileError.NoBatch
        → B.written_back e.file ≡ B.written_back below) }
    ensures headers_refused { IfErr result (λ e. (p : Plan) → plan_told (B.past_of below).file.content ≡ Some p
        → LeavesBefore p.shape (B.past_of below) (B.past_of e.file)) }
    ensures refused { IfErr result (λ e. (p : Plan) → plan_told (B.past_of below).file.content ≡ Some p
        → IsInside p.shape (B.past_of below).file.content
        → StaysRecovered p.shape (B.past_of below) (B.past_of e.file)) }
    ensures written_back_refused { IfErr result (λ e. (p : Plan)
        → plan_told (B.past_of below).file.content ≡ Some p
        → BeginsBack p.shape (B.past_of below) (B.past_of e.file) (B.written_back below) (B.written_back e.file)
        ⊎ WritesBackFirst p.shape (B.past_of below) (B.past_of e.file) (B.written_back below)
        (B.written_back e.file)) }
    ensures undamaged { IfErr result (λ e. (n : ℕ) → e.error ≢ FileError.Damaged n) }
    ensures no_header { IfErr result (λ e. e.error ≡ FileError.NoHeader
        → plan_told (B.past_of below).file.content ≡ None) }
    ensures too_short { IfErr result (λ e. e.error ≡ FileError.TooShort
        → (length (B.past_of below).file.content < 2) ⊎ IsCut (B.past_of below).file.content) }
    ensures failed { IfErr result (λ e. e.error ≡ FileError.FileFailed
        → Rises (B.failures below) (B.failures e.file)) }
    ensures no_batch { IfErr result (λ e. e.error ≡ FileError.NoBatch
        → HasNoBatch (B.past_of below).file.content) }
{
    let mut below = below;
    let plan = match read_plan(&mut below) {
        Ok(plan) => plan,
        Err(error) => return Err(Refused { file: below, error }),
    };
    if !has_room(&below, plan) {
        return Err(Refused {
            file: below,
            error: FileError::TooShort,
        });
    }
    match CheckedBlocks::open(alloc, below, plan.shape, plan.blocks) {
        Ok(checked) => Ok(BlockDisk::over(checked, plan)),
        Err(refused) => Err(Refused {
            file: refused.file,
            error: error_of(refused.error),
        }),
    }
}
