//! Devices are opened in files of either kind.
ghost use Rattle.std.specs.Prelude.{◌≡◌, [], false, true, Some, IfOk};
ghost use Rattle.sector_device.specs.Disk.{IsSynced};
ghost use Rattle.block_file.specs.Disks.{disk_failures, disk_past, disk_plan, first_content};
ghost use Rattle.block_file.specs.Good.{IsGood};
ghost use Rattle.block_file.specs.Header.{plan_told};
ghost use Rattle.block_host.specs.FileBlocks as blocks;
ghost use Rattle.block_host.specs.Kinds.{IsInBlocks, IsInPlain, are_blocks, begins, failures_by, past_by, show_blocks};
ghost use Rattle.block_host.specs.Opened.{IsOpened, IsRead, first_read};
ghost use Rattle.store_file.specs.FileDisk as plain;

use crate::device::FileDevice;
use crate::error::DiskError;
use crate::mirror::FileBlocks;
use crate::opening::{HostDisk, disk_in, refusal_of};
use crate::passing::SECTORS;
use block_device::BLOCK_SIZE;
use block_file::{BlockDisk, FileError, open_uncompared};
use sector_device::SECTOR_SIZE;
use std::alloc::Allocator;
use std::rt::Files;
use store_file::{Detached, FileDisk, Held, HostFile, OpenError, StoreFile, Stored, Taken};

/// A device in a file of the system, of either kind.
pub type OpenDevice<H, A> = FileDevice<FileDisk<HostFile<H>, A>, HostDisk<H, A>>;

/// A device in a file that is only read, and locked until it is dropped.
pub type HeldDevice<H, A> = FileDevice<FileDisk<Held<H>, A>, BlockDisk<FileBlocks<Held<H>, A>, A>>;

/// A device in memory, as a file had it.
pub type ReadDevice<A> = FileDevice<FileDisk<Detached, A>, BlockDisk<FileBlocks<Detached, A>, A>>;

// With what a store in a plain file begins, and a header of a file of blocks.
const PLAIN: &[u8] = b"NSFINDEX";

const BLOCKS: &[u8] = b"NSFBLOCK";

// How many sectors of a file tell of which kind it is: its first block, and the first one of the second.
const TELLING: usize = 9;

// Whether the sector of this number begins with a text.
fn begins(content: &[[u8; SECTOR_SIZE]], n: usize, text: &[u8]) -> bool
    ensures { result ≡ begins content.now n text.now }
{
    n < content.len() && content[n].starts_with(text)
}

/// Whether these sectors of a file are those of a file of blocks. Its first block may be damaged, and then its second
/// one tells.
pub fn are_blocks(content: &[[u8; SECTOR_SIZE]]) -> bool
    ensures { result ≡ are_blocks content.now }
{
    begins(content, 0, BLOCKS)
        || (begins(content, SECTORS as usize, BLOCKS) && !begins(content, 0, PLAIN))
}

// Whether the block of this number begins with a text.
fn block_begins(content: &[[u8; BLOCK_SIZE]], n: usize, text: &[u8]) -> bool
    ensures { result ≡ begins content.now n text.now }
{
    n < content.len() && content[n].starts_with(text)
}

// The same of the blocks of a file.
fn show_blocks(content: &[[u8; BLOCK_SIZE]]) -> bool
    ensures { result ≡ show_blocks content.now }
{
    block_begins(content, 0, BLOCKS)
        || (block_begins(content, 1, BLOCKS) && !block_begins(content, 0, PLAIN))
}

// Whether a file that was taken shows a file of blocks. (What it reads, no clause says: the kind that was taken is told
// by the file as it is opened.)
fn shows_blocks<F: Stored>(below: &mut F, sectors: u64) -> Result<bool, OpenError> {
    let mut first = [[0; SECTOR_SIZE]; TELLING];
    let count = TELLING.min(sectors as usize);
    let run = &mut first[..count];
    below.get_run(0, run)?;
    Ok(are_blocks(run))
}

// The disk in a plain file that was taken. One that shows a file of blocks now has failed, since it didn't before.
fn plain_in<F: Stored + Drop, A: Allocator + Copy>(
    alloc: A,
    taken: Taken<F>,
) -> Result<FileDisk<F, A>, DiskError>
    ensures told { IfOk result (λ d. are_blocks (plain.past_of d).disk.content ≡ false) }
    ensures synced { IfOk result (λ d. IsSynced (plain.past_of d).disk) }
    ensures failures { IfOk result (λ d. plain.failures_of d ≡ 0) }
    ensures sound { IfOk result (λ d. plain.has_failed_of d ≡ false) }
{
    let disk = FileDisk::over(alloc, taken.below, taken.sectors as usize)?;
    if are_blocks(disk.content()) {
        return Err(DiskError::File(FileError::FileFailed));
    }
    Ok(disk)
}

// The file of blocks that was taken, as it is read. One that shows none now has failed, since it did before.
fn blocks_in<F: Stored + Drop, A: Allocator + Copy>(
    alloc: A,
    taken: Taken<F>,
) -> Result<FileBlocks<F, A>, DiskError>
    ensures shown { IfOk result (λ b. show_blocks (blocks.past_of b).file.content ≡ true) }
    ensures synced { IfOk result (λ b. blocks.IsFileSynced b) }
    ensures moment { IfOk result (λ b. (blocks.past_of b).moment ≡ 0) }
    ensures failures { IfOk result (λ b. blocks.failures_of b ≡ 0) }
    ensures back { IfOk result (λ b. blocks.written_back_of b ≡ []) }
{
    let count = taken.sectors / SECTORS;
    let file = FileBlocks::over(alloc, taken.below, count as usize)?;
    if !show_blocks(file.content()) {
        return Err(DiskError::File(FileError::FileFailed));
    }
    Ok(file)
}

// The device in a file of blocks that was just read. No block is compared with its digest, and none is put in its place
// but those before the last batch of the journal.
fn uncompared_in<F: Stored + Drop, A: Allocator + Copy>(
    alloc: A,
    below: FileBlocks<F, A>,
) -> Result<BlockDisk<FileBlocks<F, A>, A>, DiskError>
    requires synced { blocks.IsFileSynced below }
    requires moment { (blocks.past_of below).moment ≡ 0 }
    requires failures { blocks.failures_of below ≡ 0 }
    ensures first { IfOk result (λ d. first_read d ≡ (blocks.past_of below).file.content) }
    ensures read { IfOk result (λ d. IsRead d) }
    ensures told { IfOk result (λ d. plan_told (first_content blocks.past_of d) ≡ Some (disk_plan d)) }
    ensures synced { IfOk result (λ d. IsSynced (disk_past blocks.past_of d).disk) }
    ensures failures { IfOk result (λ d. disk_failures blocks.failures_of d ≡ 0) }
{
    match open_uncompared(alloc, below) {
        Ok(disk) => Ok(disk),
        Err(refused) => Err(refusal_of(refused)),
    }
}

/// The device in a file that was taken, whichever kind that is: a plain file doesn't show a file of blocks (`told`),
/// and one that does (`shown`) tells this device (`opened`). What is below is read, and written to from then on. The
/// refusals are those of [`FileDisk::over`], and of [`block_file::open`].
pub fn device_in<F: Stored + Drop, A: Allocator + Copy>(
    alloc: A,
    taken: Taken<F>,
) -> Result<FileDevice<FileDisk<F, A>, BlockDisk<FileBlocks<F, A>, A>>, DiskError>
    ensures told { IfOk result (λ d. IsInPlain d (λ disk. are_blocks (plain.past_of disk).disk.content ≡ false)) }
    ensures shown { IfOk result (λ d. IsInBlocks d (λ disk. show_blocks (first_read disk) ≡ true)) }
    ensures opened { IfOk result (λ d. IsInBlocks d (λ disk. IsOpened disk)) }
    ensures good { IfOk result (λ d. IsInBlocks d (λ disk. IsGood blocks.past_of disk)) }
    ensures sound { IfOk result (λ d. IsInPlain d (λ disk. plain.has_failed_of disk ≡ false)) }
    ensures synced { IfOk result (λ d. IsSynced (past_by plain.past_of (disk_past blocks.past_of) d).disk) }
    ensures failures { IfOk result (λ d. failures_by plain.failures_of (disk_failures blocks.failures_of) d ≡ 0) }
{
    let mut taken = taken;
    if !shows_blocks(&mut taken.below, taken.sectors)? {
        return Ok(FileDevice::Plain(plain_in(alloc, taken)?));
    }
    let below = blocks_in(alloc, taken)?;
    Ok(FileDevice::Blocks(disk_in(alloc, below)?))
}

/// Opens the device in the file at the path, which is taken as by [`store_file::take`], as [`device_in`] does. The
/// refusals are those of both.
pub fn open_device<R: Files, A: Allocator + Copy>(
    rt: &R,
    alloc: A,
    path: &str,
) -> Result<OpenDevice<R::File, A>, DiskError>
where
    R::File: StoreFile,
    ensures told { IfOk result (λ d. IsInPlain d (λ disk. are_blocks (plain.past_of disk).disk.content ≡ false)) }
    ensures shown { IfOk result (λ d. IsInBlocks d (λ disk. show_blocks (first_read disk) ≡ true)) }
    ensures opened { IfOk result (λ d. IsInBlocks d (λ disk. IsOpened disk)) }
    ensures good { IfOk result (λ d. IsInBlocks d (λ disk. IsGood blocks.past_of disk)) }
    ensures sound { IfOk result (λ d. IsInPlain d (λ disk. plain.has_failed_of disk ≡ false)) }
    ensures synced { IfOk result (λ d. IsSynced (past_by plain.past_of (disk_past blocks.past_of) d).disk) }
    ensures failures { IfOk result (λ d. failures_by plain.failures_of (disk_failures blocks.failures_of) d ≡ 0) }
{
    let taken = store_file::take(rt, &alloc, path)?;
    device_in(alloc, taken)
}

// The device in a file that was taken to be read alone.
fn held_in<F: Stored + Drop, A: Allocator + Copy>(
    alloc: A,
    taken: Taken<F>,
) -> Result<FileDevice<FileDisk<F, A>, BlockDisk<FileBlocks<F, A>, A>>, DiskError>
    ensures told { IfOk result (λ d. IsInPlain d (λ disk. are_blocks (plain.past_of disk).disk.content ≡ false)) }
    ensures shown { IfOk result (λ d. IsInBlocks d (λ disk. show_blocks (first_read disk) ≡ true)) }
    ensures read { IfOk result (λ d. IsInBlocks d (λ disk. IsRead disk)) }
    ensures plan { IfOk result (λ d. IsInBlocks d (λ disk. plan_told (first_content blocks.past_of disk)
        ≡ Some (disk_plan disk))) }
    ensures sound { IfOk result (λ d. IsInPlain d (λ disk. plain.has_failed_of disk ≡ false)) }
    ensures synced { IfOk result (λ d. IsSynced (past_by plain.past_of (disk_past blocks.past_of) d).disk) }
    ensures failures { IfOk result (λ d. failures_by plain.failures_of (disk_failures blocks.failures_of) d ≡ 0) }
{
    let mut taken = taken;
    if !shows_blocks(&mut taken.below, taken.sectors)? {
        return Ok(FileDevice::Plain(plain_in(alloc, taken)?));
    }
    let below = blocks_in(alloc, taken)?;
    Ok(FileDevice::Blocks(uncompared_in(alloc, below)?))
}

/// The device in the file at the path, whichever kind that is (`told`, `shown`), which is only read, and locked until
/// the device is dropped: what is written to this stays in memory. A file of blocks tells this device, which holds what
/// the file stood for (`read`). No block is compared with its digest before it is read. The refusals are those of
/// [`open_device`], but for a block that doesn't fit.
pub fn hold_device<R: Files, A: Allocator + Copy>(
    rt: &R,
    alloc: A,
    path: &str,
) -> Result<HeldDevice<R::File, A>, DiskError>
where
    R::File: StoreFile,
    ensures told { IfOk result (λ d. IsInPlain d (λ disk. are_blocks (plain.past_of disk).disk.content ≡ false)) }
    ensures shown { IfOk result (λ d. IsInBlocks d (λ disk. show_blocks (first_read disk) ≡ true)) }
    ensures read { IfOk result (λ d. IsInBlocks d (λ disk. IsRead disk)) }
    ensures plan { IfOk result (λ d. IsInBlocks d (λ disk. plan_told (first_content blocks.past_of disk)
        ≡ Some (disk_plan disk))) }
    ensures sound { IfOk result (λ d. IsInPlain d (λ disk. plain.has_failed_of disk ≡ false)) }
    ensures synced { IfOk result (λ d. IsSynced (past_by plain.past_of (disk_past blocks.past_of) d).disk) }
    ensures failures { IfOk result (λ d. failures_by plain.failures_of (disk_failures blocks.failures_of) d ≡ 0) }
{
    let taken = store_file::share(rt, &alloc, path)?;
    held_in(alloc, taken)
}

/// The same where the file may end within a sector, which is passed over then, as by [`store_file::share_whole`].
pub fn hold_whole_device<R: Files, A: Allocator + Copy>(
    rt: &R,
    alloc: A,
    path: &str,
) -> Result<HeldDevice<R::File, A>, DiskError>
where
    R::File: StoreFile,
    ensures told { IfOk result (λ d. IsInPlain d (λ disk. are_blocks (plain.past_of disk).disk.content ≡ false)) }
    ensures shown { IfOk result (λ d. IsInBlocks d (λ disk. show_blocks (first_read disk) ≡ true)) }
    ensures read { IfOk result (λ d. IsInBlocks d (λ disk. IsRead disk)) }
    ensures plan { IfOk result (λ d. IsInBlocks d (λ disk. plan_told (first_content blocks.past_of disk)
        ≡ Some (disk_plan disk))) }
    ensures sound { IfOk result (λ d. IsInPlain d (λ disk. plain.has_failed_of disk ≡ false)) }
    ensures synced { IfOk result (λ d. IsSynced (past_by plain.past_of (disk_past blocks.past_of) d).disk) }
    ensures failures { IfOk result (λ d. failures_by plain.failures_of (disk_failures blocks.failures_of) d ≡ 0) }
{
    let taken = store_file::share_whole(rt, &alloc, path)?;
    held_in(alloc, taken)
}

/// The device that [`hold_device`] gives, with no lock once the file is read.
pub fn read_device<R: Files, A: Allocator + Copy>(
    rt: &R,
    alloc: A,
    path: &str,
) -> Result<ReadDevice<A>, DiskError>
where
    R::File: StoreFile,
    ensures told { IfOk result (λ d. IsInPlain d (λ disk. are_blocks (plain.past_of disk).disk.content ≡ false)) }
    ensures shown { IfOk result (λ d. IsInBlocks d (λ disk. show_blocks (first_read disk) ≡ true)) }
    ensures read { IfOk result (λ d. IsInBlocks d (λ disk. IsRead disk)) }
    ensures plan { IfOk result (λ d. IsInBlocks d (λ disk. plan_told (first_content blocks.past_of disk)
        ≡ Some (disk_plan disk))) }
    ensures sound { IfOk result (λ d. IsInPlain d (λ disk. plain.has_failed_of disk ≡ false)) }
    ensures synced { IfOk result (λ d. IsSynced (past_by plain.past_of (disk_past blocks.past_of) d).disk) }
    ensures failures { IfOk result (λ d. failures_by plain.failures_of (disk_failures blocks.failures_of) d ≡ 0) }
{
    let mut taken = store_file::share(rt, &alloc, path)?;
    if !shows_blocks(&mut taken.below, taken.sectors)? {
        let disk = plain_in(alloc, taken)?;
        let read = disk.with_below(Detached);
        return Ok(FileDevice::Plain(read));
    }
    let file = blocks_in(alloc, taken)?;
    let below = file.with_below(Detached);
    Ok(FileDevice::Blocks(uncompared_in(alloc, below)?))
}
