//! The store in a file that this process itself has open to write is copied to a new file.
ghost use Rattle.std.specs.Prelude.{◌≡◌, IfOk, false, true};
ghost use Rattle.sector_device.specs.Disk.{IsSynced};
ghost use Rattle.block_file.specs.Disks.{disk_failures, disk_past};
ghost use Rattle.block_host.specs.FileBlocks as blocks;
ghost use Rattle.block_host.specs.Kinds.{IsInBlocks, IsInPlain, are_blocks, failures_by, past_by, show_blocks};
ghost use Rattle.block_host.specs.Opened.{IsOpened, first_read};
ghost use Rattle.store_file.specs.FileDisk as plain;

use crate::migration::{NotMoved, copy_to};
use crate::refused::Refused;
use block_file::BlockDisk;
use block_host::{FileBlocks, FileDevice, device_in};
use sector_device::SECTOR_SIZE;
use std::alloc::Global;
use std::fs::File;
use std::io::ErrorKind;
use std::os::unix::fs::FileExt;
use std::rt::Files;
use std::{fs, io};
use store_file::{
    Backing, FileDisk, FileNumber, OpenError, StoreFile, Stored, Taken, Trouble, number_at,
};

// A file that is read without a lock. Nothing is written to it.
#[derive(Drop)]
struct Beside {
    file: File,
}

impl Backing for Beside {
    fn put(&mut self, _n: u64, _bytes: &[u8; SECTOR_SIZE]) -> io::Result<()> {
        Ok(())
    }

    fn sync(&mut self) -> io::Result<()> {
        Ok(())
    }
}

impl Stored for Beside {
    fn get_run(&mut self, first: u64, run: &mut [[u8; SECTOR_SIZE]]) -> io::Result<()> {
        match first.checked_mul(SECTOR_SIZE as u64) {
            Some(place) => self.file.read_exact_at(run.as_flattened_mut(), place),
            None => Err(io::Error::from(ErrorKind::InvalidInput)),
        }
    }

    fn put_run(&mut self, _first: u64, _run: &[[u8; SECTOR_SIZE]]) -> io::Result<()> {
        Ok(())
    }
}

// A device in memory, as such a file has it.
type DeviceBeside = FileDevice<
    FileDisk<Beside, Global>,
    BlockDisk<FileBlocks<Beside, Global>, Global>,
>;

// Refused unless the file of this number has the name.
fn refuse_other<R: Files>(rt: &R, path: &str, number: Option<FileNumber>) -> Result<(), OpenError> {
    let found = number_at(rt, path)?;
    if found.is_some() && found == number {
        return Ok(());
    }
    Err(OpenError::Io(Trouble::Gone))
}

// The file of this number, which has the name before and behind its opening, without a lock.
fn take_beside<R: Files<File = File>>(
    rt: &R,
    path: &str,
    number: Option<FileNumber>,
) -> Result<Taken<Beside>, OpenError> {
    refuse_other(rt, path, number)?;
    let file = fs::open(rt, path)?.apart()?;
    refuse_other(rt, path, number)?;
    let sectors = file.metadata()?.len() / SECTOR_SIZE as u64;
    let below = Beside { file };
    Ok(Taken { below, sectors })
}

// The device in it, all of which counts as safe. What the file is, and what of it is known, are as `device_in` says.
// What is written back is so in the mirror alone.
fn device_beside<R: Files<File = File> + AllocGlobal>(
    rt: &R,
    path: &str,
    number: Option<FileNumber>,
) -> Result<DeviceBeside, Refused>
    ensures told { IfOk result (λ d. IsInPlain d (λ disk. are_blocks (plain.past_of disk).disk.content ≡ false)) }
    ensures shown { IfOk result (λ d. IsInBlocks d (λ disk. show_blocks (first_read disk) ≡ true)) }
    ensures opened { IfOk result (λ d. IsInBlocks d (λ disk. IsOpened disk)) }
    ensures synced { IfOk result (λ d. IsSynced (past_by plain.past_of (disk_past blocks.past_of) d).disk) }
    ensures failures { IfOk result (λ d. failures_by plain.failures_of (disk_failures blocks.failures_of) d ≡ 0) }
{
    let taken = take_beside(rt, path, number)?;
    Ok(device_in(rt.alloc(), taken)?)
}

/// Copies the store in the file of this number, whose name is the path, to a new file of the same kind. This process
/// itself has the file open to write, and locked: it is read as it stands, and is to be flushed before. Nothing is
/// written to it.
///
/// The old file is refused as `Gone` where another one, or none, has its name. The other refusals are those of
/// [`crate::take_over`]: no file is left then, if the draft can be removed.
pub fn copy_beside<R: Files<File = File> + AllocGlobal>(
    rt: &R,
    path: &str,
    number: Option<FileNumber>,
    new: &str,
) -> Result<(), NotMoved> {
    let mut disk = match device_beside(rt, path, number) {
        Ok(disk) => disk,
        Err(refused) => return Err(NotMoved::Old(refused)),
    };
    let is_in_blocks = matches!(disk, FileDevice::Blocks(_));
    copy_to(rt, &mut disk, new, is_in_blocks)
}
