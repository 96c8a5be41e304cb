//! Files of stores are made.
ghost use Rattle.std.specs.Prelude.{◌≡◌, ◌+◌, ◌%◌, false, true, replicate, IfErr, IfOk};
ghost use Rattle.record_values.specs.GeometryValue.{sectors_of};
ghost use Rattle.sector_device.specs.Disk.{IsSynced};
ghost use Rattle.sector_device.specs.Values.{zero_sector};
ghost use Rattle.block_file.specs.Disks.{disk_failures, disk_past};
ghost use Rattle.block_file.specs.Header.{CanBeTold};
ghost use Rattle.block_host.specs.FileBlocks as blocks;
ghost use Rattle.block_host.specs.Kinds.{IsInBlocks, IsInPlain, failures_by, past_by};
ghost use Rattle.flip_image.specs.Layout.{log_first};
ghost use Rattle.program_files.specs.Refusals.{IsFailure};
ghost use Rattle.store_file.specs.FileDisk as plain;

use crate::refused::Refused;
use block_file::Plan;
use block_host::{FileDevice, InFile, OpenDevice, create_disk, plan_with};
use flip_image::{Half, Halves};
use records::{Error, Geometry};
use sector_device::{Device, SECTOR_SIZE};
use std::alloc::Global;
use std::fs::File;
use std::rt::Files;
use store_file::{OpenError, Troubled};

// Where a file of blocks has a store of this geometry: each slot of its first log has a block of its own (`slots`).
fn plan_of(geometry: Geometry) -> Result<Plan, Refused>
    ensures told { IfOk result CanBeTold }
    ensures sectors { IfOk result (λ plan. plan.sectors ≡ sectors_of geometry) }
    ensures slots { IfOk result (λ plan. (plan.lead + log_first geometry Half.A) % 8 ≡ 0) }
{
    let sectors = geometry.sectors();
    match plan_with(sectors, Half::A.log_first(geometry)) {
        Some(plan) => Ok(plan),
        None => Err(Refused::File(OpenError::BadLength(sectors.saturating_mul(
            SECTOR_SIZE as u64,
        )))),
    }
}

/// A device for a store of this geometry, in the draft of a new file: of zeros, all of them safe (`zeros`, `synced`).
/// It is in a file of blocks just where that is asked for (`plain`, `blocks`). What is refused for its geometry makes
/// nothing.
pub(crate) fn create_device<R: Files<File = File> + AllocGlobal>(
    rt: &R,
    path: &str,
    geometry: Geometry,
    has_blocks: bool,
) -> Result<OpenDevice<File, Global>, Refused>
    ensures zeros { IfOk result (λ d. (past_by plain.past_of (disk_past blocks.past_of) d).disk.content
        ≡ replicate (sectors_of geometry) zero_sector) }
    ensures synced { IfOk result (λ d. IsSynced (past_by plain.past_of (disk_past blocks.past_of) d).disk) }
    ensures failures { IfOk result (λ d. failures_by plain.failures_of (disk_failures blocks.failures_of) d ≡ 0) }
    ensures plain { IfOk result (λ d. IsInPlain d (λ disk. has_blocks ≡ false)) }
    ensures blocks { IfOk result (λ d. IsInBlocks d (λ disk. has_blocks ≡ true)) }
{
    if has_blocks {
        let plan = plan_of(geometry)?;
        let disk = create_disk(rt, rt.alloc(), path, plan)?;
        return Ok(FileDevice::Blocks(disk));
    }
    let disk = store_file::create(rt, rt.alloc(), path, geometry.sectors())?;
    Ok(FileDevice::Plain(disk))
}

// Ends the use of a device.
fn end<D: InFile + Troubled>(disk: &mut D) -> Result<(), Refused>
    ensures { IfErr result IsFailure }
{
    match disk.end() {
        Ok(()) => Ok(()),
        Err(_) => Err(Refused::Store(Error::DeviceFailed).because(disk)),
    }
}

/// Ends the use of a device, and lets it go. The error is that the device failed.
pub fn close<D: InFile + Troubled + Drop>(disk: D) -> Result<(), Refused>
    ensures { IfErr result IsFailure }
{
    let mut disk = disk;
    let ended = end(&mut disk);
    drop(disk);
    ended
}

/// Ends the use of a new file's device, and gives the file its name.
pub(crate) fn publish<R: Files<File = File> + AllocGlobal, D: InFile + Troubled>(
    rt: &R,
    path: &str,
    disk: &mut D,
) -> Result<(), Refused> {
    end(disk)?;
    store_file::publish(rt, path)?;
    Ok(())
}

// Makes the disk a store, and gives its file its name.
fn finish<R: Files<File = File> + AllocGlobal, D: Device + Troubled + InFile + Drop>(
    rt: &R,
    path: &str,
    geometry: Geometry,
    mut disk: D,
) -> Result<(), Refused> {
    if let Err(error) = Halves::format(&mut disk, geometry) {
        return Err(Refused::Store(error).because(&disk));
    }
    publish(rt, path, &mut disk)
}

/// Makes a store of this geometry in a new file. Where that is refused before the file has its name, no file is left,
/// if the draft can be removed.
pub fn make<R: Files<File = File> + AllocGlobal>(
    rt: &R,
    path: &str,
    geometry: Geometry,
    has_blocks: bool,
) -> Result<(), Refused> {
    let disk = create_device(rt, path, geometry, has_blocks)?;
    let made = finish(rt, path, geometry, disk);
    if made.is_err() {
        let _ = store_file::discard(rt, path);
    }
    made
}
