//! Stores on disks are read, and the devices of files opened.
ghost use Rattle.std.specs.Prelude.{◌≡◌, ◌≢◌, IfErr, IfOk, OnOk, false, true};
ghost use Rattle.sector_device.specs.Disk.{IsSynced};
ghost use Rattle.sector_device.specs.DevicePast.{OnlyReads};
ghost use Rattle.block_file.specs.Disks.{disk_failures, disk_past};
ghost use Rattle.block_file.specs.Good.{IsGood};
ghost use Rattle.block_host.specs.FileBlocks as blocks;
ghost use Rattle.block_host.specs.Kinds.{IsInBlocks, IsInPlain, are_blocks, failures_by, past_by, show_blocks};
ghost use Rattle.block_host.specs.Opened.{IsOpened, first_read};
ghost use Rattle.store_file.specs.FileDisk as plain;
ghost use Rattle.program_files.specs.Openings.{IsUnopened, OpensWhole};
ghost use Rattle.program_files.specs.Stored.{IsNotRead, IsStored};

use crate::length::refuse_longer;
use crate::refused::{Refused, refuse_disk};
use block_host::{OpenDevice, device_in, take_within};
use program_commands::Store;
use records::{Error, Geometry, Version};
use sector_device::Device;
use std::alloc::Global;
use std::fs::File;
use std::rt::{Clock, Files};
use store_file::{FileNumber, Troubled};
use store_reader::read_store;

/// What the disk itself says, before the store on it is opened.
#[derive(Clone, Copy)]
pub struct Stored {
    pub geometry: Geometry,
    /// The slots of the log that hold records behind the last image.
    pub open_slots: u64,
    /// The records in these.
    pub records: u64,
    /// The number of the last record.
    pub last: u64,
}

/// What the disk itself says (`stored`). It is only read (`reads`).
///
/// It is refused as `read_store` refuses it (`refused`). A log that was found is read, but for want of memory, or where
/// the device fails. With any other error no call of the device has failed (`told`).
pub fn read_disk<D: Device>(alloc: Global, disk: &mut D) -> Result<Stored, Refused>
    ensures stored { IfOk result (IsStored (D.past_of disk.old).disk.content) }
    ensures refused { IfErr result
        (IsNotRead (D.failures disk.old) (D.failures disk.new) (D.past_of disk.old).disk.content) }
    ensures reads { OnlyReads (D.past_of disk.old) (D.past_of disk.new) }
    ensures quiet { OnOk result (D.failures disk.new ≡ D.failures disk.old) }
    ensures told { IfErr result (λ told. told ≢ Refused.Store Error.DeviceFailed
        → D.failures disk.new ≡ D.failures disk.old) }
{
    let found = read_store(alloc, disk)?;
    let (mut log, restored) = (found.log, found.restored);
    let open_slots = log.open_slots();
    let records = log.read_all(alloc, Version::Two, disk)?;
    Ok(Stored {
        geometry: restored.geometry,
        open_slots,
        records: records.len() as u64,
        last: restored.last,
    })
}

/// The device in the file, which is waited for so many seconds where another process has it open. All that it holds is
/// safe, and no call of it has failed. What the file is, and what of it is known, are as `device_in` says.
pub fn open_within<R: Files<File = File> + Clock + AllocGlobal>(
    rt: &R,
    path: &str,
    seconds: u32,
) -> Result<OpenDevice<File, Global>, Refused>
    ensures told { IfOk result (λ d. IsInPlain d (λ disk. are_blocks (plain.past_of disk).disk.content ≡ false)) }
    ensures shown { IfOk result (λ d. IsInBlocks d (λ disk. show_blocks (first_read disk) ≡ true)) }
    ensures opened { IfOk result (λ d. IsInBlocks d (λ disk. IsOpened disk)) }
    ensures good { IfOk result (λ d. IsInBlocks d (λ disk. IsGood blocks.past_of disk)) }
    ensures sound { IfOk result (λ d. IsInPlain d (λ disk. plain.has_failed_of disk ≡ false)) }
    ensures synced { IfOk result (λ d. IsSynced (past_by plain.past_of (disk_past blocks.past_of) d).disk) }
    ensures failures { IfOk result (λ d. failures_by plain.failures_of (disk_failures blocks.failures_of) d ≡ 0) }
{
    let taken = take_within(rt, &rt.alloc(), path, seconds)?;
    Ok(device_in(rt.alloc(), taken)?)
}

/// The same, and the number of that file, where the system tells it. The file keeps it, whatever becomes of its name.
pub fn open_numbered<R: Files<File = File> + Clock + AllocGlobal>(
    rt: &R,
    path: &str,
    seconds: u32,
) -> Result<(OpenDevice<File, Global>, Option<FileNumber>), Refused>
    ensures told { IfOk result (λ d. IsInPlain d.0 (λ disk. are_blocks (plain.past_of disk).disk.content ≡ false)) }
    ensures shown { IfOk result (λ d. IsInBlocks d.0 (λ disk. show_blocks (first_read disk) ≡ true)) }
    ensures opened { IfOk result (λ d. IsInBlocks d.0 (λ disk. IsOpened disk)) }
    ensures good { IfOk result (λ d. IsInBlocks d.0 (λ disk. IsGood blocks.past_of disk)) }
    ensures sound { IfOk result (λ d. IsInPlain d.0 (λ disk. plain.has_failed_of disk ≡ false)) }
    ensures synced { IfOk result (λ d. IsSynced (past_by plain.past_of (disk_past blocks.past_of) d.0).disk) }
    ensures failures { IfOk result (λ d. failures_by plain.failures_of (disk_failures blocks.failures_of) d.0 ≡ 0) }
{
    let taken = take_within(rt, &rt.alloc(), path, seconds)?;
    let number = taken.below.number().ok();
    let disk = device_in(rt.alloc(), taken)?;
    Ok((disk, number))
}

/// The store on the disk, opened (`opened`). It is refused where the disk is longer than the store, or as a restart
/// refuses it (`refused`); the disk is let go then.
pub fn open_store<D: Device + Troubled + Drop>(
    alloc: Global,
    mut disk: D,
) -> Result<Store<D>, Refused>
    ensures opened { IfOk result (OpensWhole D.past_of D.failures disk) }
    ensures refused { IfErr result (IsUnopened D.past_of D.failures disk) }
{
    if let Err(refused) = refuse_longer(&mut disk) {
        drop(disk);
        return Err(refused);
    }
    match Store::open(alloc, disk) {
        Ok(store) => Ok(store),
        Err((error, disk)) => Err(refuse_disk(error, disk)),
    }
}
