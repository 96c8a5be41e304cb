//! A disk over a file is opened.
ghost use Rattle.std.specs.Prelude.{◌≡◌, ◌+◌, ◌*◌, ◌<◌, length, false, IfOk};
ghost use Rattle.sector_device.specs.Disk.{IsSynced};
ghost use Rattle.store_file.specs.FileDisk.{past_of, failures_of, has_failed_of};

use crate::backing::Detached;
use crate::draft::SECTORS_MAX;
use crate::error::OpenError;
use crate::host::{Held, HostFile, StoreFile};
use crate::mirror::FileDisk;
use crate::names::{draft_of, has_both, refuse_other, sync_readable_folder};
use sector_device::SECTOR_SIZE;
use std::alloc::Allocator;
use std::fs;
use std::fs::{OpenFile, OpenOptions};
use std::rt::Files;

// How many sectors a file of this length has.
fn sectors_in(length: u64) -> Result<u64, OpenError>
    ensures { IfOk result (λ n. (length ≡ n * SECTOR_SIZE) × (0 < n) × (n < SECTORS_MAX + 1)) }
{
    let sectors = length / SECTOR_SIZE as u64;
    if length % SECTOR_SIZE as u64 != 0 || sectors == 0 || sectors > SECTORS_MAX {
        return Err(OpenError::BadLength(length));
    }
    Ok(sectors)
}

// Ends a publication that was cut off, behind which the file has the name of its draft too.
fn remove_draft<R: Files, A: Allocator>(rt: &R, alloc: &A, path: &str) -> Result<(), OpenError> {
    let draft = draft_of(alloc, path)?;
    fs::remove_file(rt, draft.as_str())?;
    Ok(())
}

/// A file that was taken, and how many sectors it has. None of them was read or written.
#[derive(Drop)]
pub struct Taken<F> {
    /// The file, as what is below a disk.
    pub below: F,
    /// How many sectors it has.
    pub sectors: u64,
}

/// Takes the file at the path: it is locked until it is dropped, and looked at. It is an advisory lock, which goes with
/// the process. No sector is read or written. The folder is synced, if it may be read: who made the file may have been
/// cut off before its name was safe. (It is only tested.)
///
/// `Busy` where another process has it open, `NotAFile` and `Linked` where the path names no regular file, a link, or
/// one of several names of a file, `BadLength` where its length is no number of sectors from 1 to 2^23.
pub fn take<R: Files, A: Allocator>(
    rt: &R,
    alloc: &A,
    path: &str,
) -> Result<Taken<HostFile<R::File>>, OpenError>
where
    R::File: StoreFile,
    ensures sectors { IfOk result (λ t. (0 < t.sectors) × (t.sectors < SECTORS_MAX + 1)) }
{
    refuse_other(rt, path)?;
    let opened = OpenOptions::new().read(true).write(true).open(rt, path)?;
    let file = opened.apart()?;
    file.try_lock()?;
    if has_both(rt, alloc, &file, path)? {
        remove_draft(rt, alloc, path)?;
    }
    sync_readable_folder(rt, path)?;
    let length = file.metadata()?.len();
    let below = HostFile {
        file,
        length,
        is_seen: false,
        trouble: None,
    };
    let sectors = sectors_in(length)?;
    Ok(Taken { below, sectors })
}

// The file at the path, locked against those that would write it, and how many bytes it has.
fn open_shared<R: Files, A: Allocator>(
    rt: &R,
    alloc: &A,
    path: &str,
) -> Result<(R::File, u64), OpenError>
where
    R::File: StoreFile,
{
    refuse_other(rt, path)?;
    let file = fs::open(rt, path)?.apart()?;
    file.try_lock_shared()?;
    has_both(rt, alloc, &file, path)?;
    let length = file.metadata()?.len();
    Ok((file, length))
}

/// Takes the file at the path to read it alone: what is written to it never reaches it. Other processes may read it at
/// the same time. The refusals are those of [`take`].
pub fn share<R: Files, A: Allocator>(
    rt: &R,
    alloc: &A,
    path: &str,
) -> Result<Taken<Held<R::File>>, OpenError>
where
    R::File: StoreFile,
    ensures sectors { IfOk result (λ t. (0 < t.sectors) × (t.sectors < SECTORS_MAX + 1)) }
{
    let (file, length) = open_shared(rt, alloc, path)?;
    let sectors = sectors_in(length)?;
    let below = Held { file };
    Ok(Taken { below, sectors })
}

/// The same where the file may end within a sector, which is passed over then: it is refused only where it has no whole
/// one, or more than 2^23.
pub fn share_whole<R: Files, A: Allocator>(
    rt: &R,
    alloc: &A,
    path: &str,
) -> Result<Taken<Held<R::File>>, OpenError>
where
    R::File: StoreFile,
    ensures sectors { IfOk result (λ t. (0 < t.sectors) × (t.sectors < SECTORS_MAX + 1)) }
{
    let (file, length) = open_shared(rt, alloc, path)?;
    let sectors = sectors_in(length - length % SECTOR_SIZE as u64)?;
    let below = Held { file };
    Ok(Taken { below, sectors })
}

/// A disk over the file at the path, which holds what the file does, all of it safe: what was read is written back, and
/// synced, as the file may show what no device holds, after a sync that failed. The file is locked until the disk is
/// dropped. The refusals are those of [`take`], and want of memory.
pub fn open<R: Files, A: Allocator>(
    rt: &R,
    alloc: A,
    path: &str,
) -> Result<FileDisk<HostFile<R::File>, A>, OpenError>
where
    R::File: StoreFile,
    ensures synced { IfOk result (λ d. IsSynced (past_of d).disk) }
    ensures failures { IfOk result (λ d. failures_of d ≡ 0) }
    ensures sound { IfOk result (λ d. has_failed_of d ≡ false) }
    ensures sectors { IfOk result (λ d. (0 < length (past_of d).disk.content)
        × (length (past_of d).disk.content < SECTORS_MAX + 1)) }
{
    let taken = take(rt, &alloc, path)?;
    FileDisk::over(alloc, taken.below, taken.sectors as usize)
}

/// A disk in memory that holds what the file at the path does. What is written to it never reaches the file, which is
/// locked until the disk is dropped.
///
/// The refusals are those of [`open`]; other processes may read the file at the same time.
pub fn hold<R: Files, A: Allocator>(
    rt: &R,
    alloc: A,
    path: &str,
) -> Result<FileDisk<Held<R::File>, A>, OpenError>
where
    R::File: StoreFile,
    ensures synced { IfOk result (λ d. IsSynced (past_of d).disk) }
    ensures failures { IfOk result (λ d. failures_of d ≡ 0) }
    ensures sound { IfOk result (λ d. has_failed_of d ≡ false) }
    ensures sectors { IfOk result (λ d. (0 < length (past_of d).disk.content)
        × (length (past_of d).disk.content < SECTORS_MAX + 1)) }
{
    let taken = share(rt, &alloc, path)?;
    FileDisk::over(alloc, taken.below, taken.sectors as usize)
}

/// The same, with no lock once the file is read.
pub fn read<R: Files, A: Allocator>(
    rt: &R,
    alloc: A,
    path: &str,
) -> Result<FileDisk<Detached, A>, OpenError>
where
    R::File: StoreFile,
    ensures synced { IfOk result (λ d. IsSynced (past_of d).disk) }
    ensures failures { IfOk result (λ d. failures_of d ≡ 0) }
    ensures sound { IfOk result (λ d. has_failed_of d ≡ false) }
    ensures sectors { IfOk result (λ d. (0 < length (past_of d).disk.content)
        × (length (past_of d).disk.content < SECTORS_MAX + 1)) }
{
    Ok(hold(rt, alloc, path)?.with_below(Detached))
}
