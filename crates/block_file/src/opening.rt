//! A file of blocks is opened.
ghost use Rattle.std.specs.Prelude.{◌≡◌, ◌≢◌, ◌⊎◌, ◌-◌, ◌^◌, ◌<◌, ◌≤◌, ℕ, [], false, true, length, None, Some, IfErr};
ghost use Rattle.std.specs.Prelude.{IfOk, IfSome};
ghost use Rattle.sector_device.specs.Disk.{IsSynced};
ghost use Rattle.sector_device.specs.DevicePast.{Rises};
ghost use Rattle.block_journal.specs.Layout.{IsHonest, IsInside, recovered};
ghost use Rattle.block_journal.specs.Journal.{BeginsBack, LeavesBefore, OnlyReads, WritesBackFirst};
ghost use Rattle.block_journal.specs.Value.{failures_of};
ghost use Rattle.block_table.specs.Checked.{settled_data, settled_table};
ghost use Rattle.block_table.specs.Table.{EachFits, IsFirstUnfit};
ghost use Rattle.block_file.specs.Closing.{StandsAlone};
ghost use Rattle.block_file.specs.Damage.{CanBeOpened, IsDamagedAt};
ghost use Rattle.block_file.specs.Disks.{disk_failed, disk_failures, disk_file, disk_journal, disk_past, disk_plan};
ghost use Rattle.block_file.specs.Disks.{disk_settled, disk_table, first_content};
ghost use Rattle.block_file.specs.Good.{IsGood};
ghost use Rattle.block_file.specs.Header.{HasNoBatch, HasNoPlan, IsCut, first_of, plan_told};
ghost use Rattle.block_file.specs.Plans.{IsPlan, disk_image};
ghost use Rattle.block_file.specs.Sectors.{sectors_of};
ghost use Rattle.block_file.specs.Settling.{AreHandedOn, HasLastNumber, IsHandingOn, IsLeft, IsRefusedBehind};
ghost use Rattle.block_file.specs.Settling.{OpensUnder, StaysUnder, handed_on};

use crate::header::{AREA_MAX, read_header};
use crate::settling::settle;
use crate::{BlockDisk, Plan};
use block_device::{BLOCK_SIZE, Blocks};
use block_journal::OpenError;
use block_table::CheckedBlocks;
use std::alloc::Allocator;

/// Why a file of blocks can't be opened.
#[derive(Clone, Copy, Debug, PartialEq, Eq, thiserror::Error)]
pub enum FileError {
    /// There isn't enough memory.
    #[error("not enough memory")]
    NoMemory,
    /// The file failed.
    #[error("the file failed")]
    FileFailed,
    /// Neither of the first two blocks is a header.
    #[error("no header")]
    NoHeader,
    /// The file ends before what its header tells.
    #[error("the file is too short")]
    TooShort,
    /// Neither area of the journal has a batch.
    #[error("no batch in the journal")]
    NoBatch,
    /// This block of data, the first of such, doesn't fit its digest.
    #[error("block {0} is damaged")]
    Damaged(u64),
}

/// A file that couldn't be opened, and why.
#[derive(Drop)]
pub struct Refused<B> {
    /// The file.
    pub file: B,
    /// Why.
    pub error: FileError,
}

// Why a journal can't be opened, as of its file.
pub(crate) fn error_of(error: OpenError) -> FileError
    ensures undamaged { (n : ℕ) → result ≢ FileError.Damaged n }
    ensures header { result ≢ FileError.NoHeader }
    ensures short { result ≢ FileError.TooShort }
    ensures batch { result ≡ FileError.NoBatch → error ≡ OpenError.NoBatch }
    ensures failed { result ≡ FileError.FileFailed → error ≡ OpenError.FileFailed }
{
    match error {
        OpenError::NoMemory => FileError::NoMemory,
        OpenError::FileFailed => FileError::FileFailed,
        OpenError::NoBatch => FileError::NoBatch,
    }
}

// What the first header tells, or else the second one.
fn first_told(first: Option<Plan>, second: Option<Plan>) -> Option<Plan>
    ensures told { result ≡ first_of first second }
    ensures plan { IfSome first IsPlan → IfSome second IsPlan → IfSome result IsPlan }
{
    match first {
        Some(plan) => Some(plan),
        None => second,
    }
}

/// The plan that a file tells. (It takes no memory, and is never refused for want of it.)
pub fn read_plan<B: Blocks>(below: &mut B) -> Result<Plan, FileError>
    ensures told { IfOk result (λ p. plan_told (B.past_of below.old).file.content ≡ Some p) }
    ensures plan { IfOk result IsPlan }
    ensures none { IfErr result (λ e. e ≡ FileError.NoHeader
        → plan_told (B.past_of below.old).file.content ≡ None) }
    ensures undamaged { IfErr result (λ e. (n : ℕ) → e ≢ FileError.Damaged n) }
    ensures short { IfErr result (λ e. e ≡ FileError.TooShort → length (B.past_of below.old).file.content < 2) }
    ensures batch { IfErr result (λ e. e ≢ FileError.NoBatch) }
    ensures memory { IfErr result (λ e. e ≢ FileError.NoMemory) }
    ensures quiet { IfOk result (λ _. B.failures below.new ≡ B.failures below.old) }
    ensures failed { IfErr result (λ e. e ≡ FileError.FileFailed
        → Rises (B.failures below.old) (B.failures below.new)) }
    ensures reads { OnlyReads (B.past_of below.old) (B.past_of below.new) }
    ensures back { B.written_back below.new ≡ B.written_back below.old }
{
    if below.blocks() < 2 {
        return Err(FileError::TooShort);
    }
    let mut headers = [[0; BLOCK_SIZE]; 2];
    if below.read(0, &mut headers).is_err() {
        return Err(FileError::FileFailed);
    }
    let first = read_header(&headers[0]);
    let second = read_header(&headers[1]);
    match first_told(first, second) {
        Some(plan) => Ok(plan),
        None => Err(FileError::NoHeader),
    }
}

/// Whether a file has room for a plan.
pub fn has_room<B: Blocks>(below: &B, plan: Plan) -> bool
    requires { IsPlan plan }
    ensures room { result ≡ true → IsInside plan.shape (B.past_of below.now).file.content }
    ensures short { result ≡ false → ¬ IsInside plan.shape (B.past_of below.now).file.content }
{
    let shape = plan.shape;
    let blocks = below.blocks();
    if shape.area > AREA_MAX || shape.first > blocks || shape.kept > blocks {
        return false;
    }
    2 * shape.area <= blocks - shape.first && shape.kept <= blocks - shape.first - 2 * shape.area
}

// The device of checked blocks that were just opened, each of which fits, once all of them are in their places.
fn settled<B: Blocks, A: Allocator + Copy>(
    checked: CheckedBlocks<B, A>,
    plan: Plan,
) -> Result<BlockDisk<B, A>, Refused<B>>
    requires plan { IsPlan plan }
    requires shape { checked.journal.shape ≡ plan.shape }
    requires blocks { checked.blocks ≡ plan.blocks }
    requires none { checked.journal.next ≡ [] }
    requires good { checked.journal.has_failed ≡ false }
    ensures plan { IfOk result (λ d. disk_plan d ≡ plan) }
    ensures content { IfOk result (λ d. (disk_past B.past_of d).disk.content
        ≡ sectors_of plan.lead plan.sectors (settled_data B.past_of checked)) }
    ensures synced { IfOk result (λ d. IsSynced (disk_past B.past_of d).disk) }
    ensures alone { IfOk result (λ d. StandsAlone plan (B.past_of (disk_file d)).file.content
        (disk_past B.past_of d).disk.content) }
    ensures safe { IfOk result (λ d. (n : ℕ) → (B.past_of (disk_file d)).file.loose n ≡ false) }
    ensures first { IfOk result (λ d. first_content B.past_of d ≡ (B.past_of (disk_file d)).file.content) }
    ensures failures { IfOk result (λ d. disk_failures B.failures d ≡ failures_of B.failures checked.journal) }
    ensures offered { IfOk result (λ d. (disk_journal d).offered
        ≡ handed_on checked.journal.offered checked.journal.last) }
    ensures sound { IfOk result (λ d. disk_failed d ≡ false) }
    ensures table { IfOk result (λ d. disk_table B.past_of d ≡ settled_table B.past_of checked) }
    ensures committed { IfOk result (λ d. disk_settled B.past_of d ≡ disk_table B.past_of d) }
    ensures hands { IfOk result (λ d. IsHandingOn B.past_of checked.journal (B.past_of (disk_file d))) }
    ensures back { IfOk result (λ d. B.written_back (disk_file d) ≡ B.written_back checked.journal.below) }
    ensures back_refused { IfErr result (λ e. B.written_back e.file ≡ B.written_back checked.journal.below) }
    ensures refused { IfErr result (λ e. IsHandingOn B.past_of checked.journal (B.past_of e.file)) }
    ensures why { IfErr result (λ e. e.error ≡ FileError.FileFailed) }
    ensures failed { IfErr result (λ e. (2 ^ 64 - 2 ≤ checked.journal.last.number)
        ⊎ Rises (B.failures checked.journal.below) (B.failures e.file)) }
{
    let mut checked = checked;
    match settle(&mut checked) {
        Ok(()) => Ok(BlockDisk::over(checked, plan)),
        Err(_) => Err(Refused {
            file: checked.into_file(),
            error: FileError::FileFailed,
        }),
    }
}

// The device of checked blocks that were just opened, if each of them fits its digest.
fn compared<B: Blocks, A: Allocator + Copy>(
    checked: CheckedBlocks<B, A>,
    plan: Plan,
) -> Result<BlockDisk<B, A>, Refused<B>>
    requires plan { IsPlan plan }
    requires shape { checked.journal.shape ≡ plan.shape }
    requires blocks { checked.blocks ≡ plan.blocks }
    requires none { checked.journal.next ≡ [] }
    requires good { checked.journal.has_failed ≡ false }
    ensures plan { IfOk result (λ d. disk_plan d ≡ plan) }
    ensures content { IfOk result (λ d. (disk_past B.past_of d).disk.content
        ≡ sectors_of plan.lead plan.sectors (settled_data B.past_of checked)) }
    ensures synced { IfOk result (λ d. IsSynced (disk_past B.past_of d).disk) }
    ensures alone { IfOk result (λ d. StandsAlone plan (B.past_of (disk_file d)).file.content
        (disk_past B.past_of d).disk.content) }
    ensures fits { IfOk result (λ d. EachFits plan.blocks (settled_table B.past_of checked)) }
    ensures safe { IfOk result (λ d. (n : ℕ) → (B.past_of (disk_file d)).file.loose n ≡ false) }
    ensures first { IfOk result (λ d. first_content B.past_of d ≡ (B.past_of (disk_file d)).file.content) }
    ensures failures { IfOk result (λ d. disk_failures B.failures d ≡ failures_of B.failures checked.journal) }
    ensures offered { IfOk result (λ d. (disk_journal d).offered
        ≡ handed_on checked.journal.offered checked.journal.last) }
    ensures sound { IfOk result (λ d. disk_failed d ≡ false) }
    ensures each { IfOk result (λ d. EachFits plan.blocks (disk_table B.past_of d)) }
    ensures committed { IfOk result (λ d. disk_settled B.past_of d ≡ disk_table B.past_of d) }
    ensures hands { IfOk result (λ d. IsHandingOn B.past_of checked.journal (B.past_of (disk_file d))) }
    ensures back { IfOk result (λ d. B.written_back (disk_file d) ≡ B.written_back checked.journal.below) }
    ensures back_refused { IfErr result (λ e. B.written_back e.file ≡ B.written_back checked.journal.below) }
    ensures refused { IfErr result (λ e. IsRefusedBehind B.past_of checked.journal e.error (B.past_of e.file)) }
    ensures damaged { IfErr result (λ e. (n : ℕ) → e.error ≡ FileError.Damaged n
        → IsFirstUnfit plan.blocks (settled_table B.past_of checked) 0 n) }
    ensures header { IfErr result (λ e. e.error ≢ FileError.NoHeader) }
    ensures short { IfErr result (λ e. e.error ≢ FileError.TooShort) }
    ensures batch { IfErr result (λ e. e.error ≢ FileError.NoBatch) }
    ensures failed { IfErr result (λ e. e.error ≡ FileError.FileFailed
        → (2 ^ 64 - 2 ≤ checked.journal.last.number)
        ⊎ Rises (B.failures checked.journal.below) (B.failures e.file)) }
{
    let mut checked = checked;
    match checked.check(0) {
        Ok(None) => settled(checked, plan),
        Ok(Some(n)) => Err(Refused {
            file: checked.into_file(),
            error: FileError::Damaged(n),
        }),
        Err(_) => Err(Refused {
            file: checked.into_file(),
            error: FileError::FileFailed,
        }),
    }
}

/// Opens a file of blocks: its header, or where the first one is damaged, the second; its journal; and each block of
/// data is compared with its digest. No block of the file is loose. So each sector can be read, where the file
/// doesn't fail (`good`).
///
/// What was read of the journal's areas is written back, and synced, before anything else is written (`written_back`).
/// One that is refused meanwhile has written back nothing, or one area alone (`written_back_refused`). The blocks of
/// the batch before the last one are put in their places. Once each block fits, the last batch is handed on as one of
/// its own, and then all blocks are put in their places: no area of the journal is needed, and no block is loose
/// (`alone`, `safe`, `handed`). So what was acknowledged is not in the journal alone. Behind the last numbers of 64
/// bits none can be handed on (`failed`). (That the last batch is handed on before its blocks come to their places, no
/// clause says.)
///
/// Whatever it answers, a crash at any moment of it leaves, under the premise, what stands for the same blocks
/// (`any_moment`, `refused`), behind the same headers (`headers`, `headers_refused`). The premise is needed only once
/// batches are handed on. Where the file has no plan that it has room for, nothing changes, and nothing is written back
/// (`left_alone`, `back_alone`). Nor is anything where the journal has no batch (`back_none`). One that can be opened
/// is refused for want of memory, or as the file failed (`only`), and a crash meanwhile leaves one that can be opened
/// (`again`, `refused`).
pub fn open<B: Blocks, A: Allocator + Copy>(
    alloc: A,
    below: B,
) -> Result<BlockDisk<B, A>, Refused<B>>
    requires { (n : ℕ) → (B.past_of below).file.loose n ≡ false }
    ensures told { IfOk result (λ d. plan_told (B.past_of below).file.content ≡ Some (disk_plan d)) }
    ensures still { IfOk result (λ d. plan_told (first_content B.past_of d) ≡ Some (disk_plan d)) }
    ensures content { IfOk result (λ d. (disk_past B.past_of d).disk.content
        ≡ disk_image (disk_plan d) (B.past_of below).file.content) }
    ensures synced { IfOk result (λ d. IsSynced (disk_past B.past_of d).disk) }
    ensures fits { IfOk result (λ d. EachFits (disk_plan d).blocks
        (recovered (disk_plan d).shape (B.past_of below).file.content)) }
    ensures good { IfOk result (λ d. IsGood B.past_of d) }
    ensures failures { IfOk result (λ d. disk_failures B.failures d ≡ B.failures below) }
    ensures honest { IfOk result (λ d. IsHonest (disk_journal d).offered (disk_plan d).shape
        (B.past_of below).file.content) }
    ensures handed { IfOk result (λ d. AreHandedOn (disk_plan d).shape (B.past_of below).file.content
        (disk_journal d).offered) }
    ensures alone { IfOk result (λ d. StandsAlone (disk_plan d) (B.past_of (disk_file d)).file.content
        (disk_past B.past_of d).disk.content) }
    ensures safe { IfOk result (λ d. (n : ℕ) → (B.past_of (disk_file d)).file.loose n ≡ false) }
    ensures any_moment { IfOk result (λ d. StaysUnder (disk_journal d).offered (disk_plan d).shape (B.past_of below)
        (B.past_of (disk_file d))) }
    ensures headers { IfOk result (λ d. LeavesBefore (disk_plan d).shape (B.past_of below)
        (B.past_of (disk_file d))) }
    ensures written_back { IfOk result (λ d. WritesBackFirst (disk_plan d).shape (B.past_of below)
        (B.past_of (disk_file d)) (B.written_back below) (B.written_back (disk_file d))) }
    ensures left_alone { IfErr result (λ e. HasNoPlan (B.past_of below).file.content
        → OnlyReads (B.past_of below) (B.past_of e.file)) }
    ensures back_alone { IfErr result (λ e. HasNoPlan (B.past_of below).file.content
        → B.written_back e.file ≡ B.written_back below) }
    ensures back_none { IfErr result (λ e. e.error ≡ FileError.NoBatch
        → B.written_back e.file ≡ B.written_back below) }
    ensures headers_refused { IfErr result (λ e. (p : Plan) → plan_told (B.past_of below).file.content ≡ Some p
        → LeavesBefore p.shape (B.past_of below) (B.past_of e.file)) }
    ensures refused { IfErr result (λ e. (p : Plan) → plan_told (B.past_of below).file.content ≡ Some p
        → IsInside p.shape (B.past_of below).file.content
        → IsLeft p e.error (B.past_of below) (B.past_of e.file)) }
    ensures written_back_refused { IfErr result (λ e. (p : Plan)
        → plan_told (B.past_of below).file.content ≡ Some p
        → BeginsBack p.shape (B.past_of below) (B.past_of e.file) (B.written_back below) (B.written_back e.file)
        ⊎ WritesBackFirst p.shape (B.past_of below) (B.past_of e.file) (B.written_back below)
        (B.written_back e.file)) }
    ensures damaged { IfErr result (λ e. (n : ℕ) → e.error ≡ FileError.Damaged n
        → IsDamagedAt n (B.past_of below).file.content) }
    ensures no_header { IfErr result (λ e. e.error ≡ FileError.NoHeader
        → plan_told (B.past_of below).file.content ≡ None) }
    ensures too_short { IfErr result (λ e. e.error ≡ FileError.TooShort
        → (length (B.past_of below).file.content < 2) ⊎ IsCut (B.past_of below).file.content) }
    ensures failed { IfErr result (λ e. e.error ≡ FileError.FileFailed
        → HasLastNumber (B.past_of below).file.content ⊎ Rises (B.failures below) (B.failures e.file)) }
    ensures no_batch { IfErr result (λ e. e.error ≡ FileError.NoBatch
        → HasNoBatch (B.past_of below).file.content) }
    ensures again { IfOk result (λ d. CanBeOpened (disk_plan d) (B.past_of below).file.content
        → OpensUnder (disk_journal d).offered (disk_plan d) (B.past_of below) (B.past_of (disk_file d))) }
    ensures only { IfErr result (λ e. (p : Plan) → CanBeOpened p (B.past_of below).file.content
        → (e.error ≡ FileError.NoMemory) ⊎ (e.error ≡ FileError.FileFailed)) }
{
    let mut below = below;
    let plan = match read_plan(&mut below) {
        Ok(plan) => plan,
        Err(error) => return Err(Refused { file: below, error }),
    };
    if !has_room(&below, plan) {
        return Err(Refused {
            file: below,
            error: FileError::TooShort,
        });
    }
    match CheckedBlocks::open(alloc, below, plan.shape, plan.blocks) {
        Ok(checked) => {
            checked.stands();
            compared(checked, plan)
        }
        Err(refused) => Err(Refused {
            file: refused.file,
            error: error_of(refused.error),
        }),
    }
}
