//! A file is made under a name of its own, and gets its name in one step.
ghost use Rattle.std.specs.Prelude.{◌≡◌, ◌+◌, ◌^◌, ◌<◌, replicate, false, IfOk};
ghost use Rattle.sector_device.specs.Disk.{IsSynced};
ghost use Rattle.sector_device.specs.Values.{zero_sector};
ghost use Rattle.store_file.specs.FileDisk.{past_of, failures_of, has_failed_of};

use crate::error::OpenError;
use crate::host::{HostFile, StoreFile, is_same};
use crate::mirror::FileDisk;
use crate::names::{draft_of, found_at, is_there, sync_folder};
use crate::trouble::Trouble;
use sector_device::{SECTOR_SIZE, zero_sector};
use std::alloc::Allocator;
use std::fs::{OpenFile, OpenOptions, TryLockError};
use std::io::ErrorKind;
use std::os::unix::fs::FileExt;
use std::rt::Files;
use std::{fs, io};

/// The most sectors that a file may have.
pub const SECTORS_MAX: u64 = 1 << 23;

// What the system says where a file system gives no second name: that it isn't permitted, or isn't supported.
const NO_LINKS: [i32; 2] = [1, 95];

// With what the draft of a store begins, once it isn't zeros any more: a plain one, and one of blocks.
const PLAIN: &[u8] = b"NSFINDEX";

const BLOCKS: &[u8] = b"NSFBLOCK";

// Whether the first bytes of a file are those of a draft.
fn are_of_draft(first: &[u8]) -> bool {
    first.starts_with(PLAIN) || first.starts_with(BLOCKS) || first.iter().all(|byte| *byte == 0)
}

// Whether the file begins as a draft does: with a store, or with a sector of zeros, as far as it reaches.
fn is_draft<H: StoreFile>(file: &H) -> io::Result<bool> {
    let mut first = zero_sector();
    let length = file.metadata()?.len().min(SECTOR_SIZE as u64) as usize;
    let begun = &mut first[..length];
    file.read_exact_at(begun, 0)?;
    Ok(are_of_draft(begun))
}

// Whether the file has this name.
fn is_named<R: Files>(rt: &R, file: &R::File, name: &str) -> io::Result<bool>
where
    R::File: StoreFile,
{
    let found = file.metadata()?;
    match found_at(rt, name)? {
        Some(named) => Ok(is_same(&found, &named)),
        None => Ok(false),
    }
}

// Locks the draft, where it has its name still: whoever has that lock makes the file, or removes it.
fn own<R: Files>(rt: &R, file: &R::File, draft: &str) -> Result<(), OpenError>
where
    R::File: StoreFile,
{
    match file.try_lock() {
        Ok(()) => {}
        Err(TryLockError::WouldBlock) => return Err(OpenError::DraftInUse),
        Err(TryLockError::Error(error)) => return Err(OpenError::from(error)),
    }
    if is_named(rt, file, draft)? {
        Ok(())
    } else {
        Err(OpenError::DraftInUse)
    }
}

// The file that has the name of a draft, where it can be one that was left.
fn open_left<R: Files>(rt: &R, draft: &str) -> Result<R::File, OpenError>
where
    R::File: StoreFile,
{
    match found_at(rt, draft)? {
        Some(found) if found.is_file() => {}
        Some(_) => return Err(OpenError::DraftExists),
        // Whoever made it has given it its name, or removed it.
        None => return Err(OpenError::DraftInUse),
    }
    match fs::open(rt, draft) {
        Ok(file) => Ok(file),
        Err(error) if error.kind() == ErrorKind::NotFound => Err(OpenError::DraftInUse),
        Err(error) => Err(OpenError::from(error)),
    }
}

// Removes a draft whose maker was cut off, or has let it go.
fn remove_left<R: Files>(rt: &R, draft: &str, path: &str) -> Result<(), OpenError>
where
    R::File: StoreFile,
{
    let file = open_left(rt, draft)?;
    own(rt, &file, draft)?;
    if !is_draft(&file)? {
        return Err(OpenError::DraftExists);
    }
    remove(rt, draft, path)?;
    Ok(())
}

// A new file of this name. `DraftInUse` where something has it.
fn new_file<R: Files>(rt: &R, draft: &str) -> Result<R::File, OpenError>
where
    R::File: StoreFile,
{
    let opened = OpenOptions::new()
        .read(true)
        .write(true)
        .create_new(true)
        .open(rt, draft);
    match opened {
        Ok(file) => Ok(file),
        Err(error) if error.kind() == ErrorKind::AlreadyExists => Err(OpenError::DraftInUse),
        Err(error) => Err(OpenError::from(error)),
    }
}

// The same, in place of a draft that was left.
fn begin<R: Files>(rt: &R, draft: &str, path: &str) -> Result<R::File, OpenError>
where
    R::File: StoreFile,
{
    match new_file(rt, draft) {
        Err(OpenError::DraftInUse) => {
            remove_left(rt, draft, path)?;
            new_file(rt, draft)
        }
        begun => begun,
    }
}

// Fills the file with this many sectors of zeros.
fn clear<H: StoreFile>(file: &H, sectors: u64) -> io::Result<()>
    requires { sectors < SECTORS_MAX + 1 }
{
    for n in 0..sectors {
        file.write_all_at(&zero_sector(), n * SECTOR_SIZE as u64)?;
    }
    file.sync_all()
}

// A disk over the new file, which is locked, filled with zeros, and safe as its name is.
fn fill<R: Files, A: Allocator>(
    rt: &R,
    alloc: A,
    file: R::File,
    draft: &str,
    path: &str,
    sectors: u64,
) -> Result<FileDisk<HostFile<R::File>, A>, OpenError>
where
    R::File: StoreFile,
    requires { sectors < SECTORS_MAX + 1 }
    ensures zeros { IfOk result (λ d. (past_of d).disk.content ≡ replicate sectors zero_sector) }
    ensures synced { IfOk result (λ d. IsSynced (past_of d).disk) }
    ensures failures { IfOk result (λ d. failures_of d ≡ 0) }
    ensures sound { IfOk result (λ d. has_failed_of d ≡ false) }
{
    let file = file.apart()?;
    own(rt, &file, draft)?;
    clear(&file, sectors)?;
    sync_folder(rt, path)?;
    let below = HostFile {
        file,
        length: sectors * SECTOR_SIZE as u64,
        is_seen: false,
        trouble: None,
    };
    Ok(FileDisk::new(alloc, below, sectors as usize)?)
}

// Removes the draft of this path.
fn remove<R: Files>(rt: &R, draft: &str, path: &str) -> io::Result<()>
where
    R::File: StoreFile,
{
    fs::remove_file(rt, draft)?;
    sync_folder(rt, path)
}

/// Makes a file of so many sectors of zeros, all of them safe, and a disk over it, under the name `PATH.nsf-draft`:
/// [`publish`] gives it its own. So a crash meanwhile leaves no half of a store under it. Where it is refused, no file
/// is left, if that can be removed.
///
/// A file of the name `PATH.nsf-draft` that was left by a making that was cut off gives way: nobody has it open, and it
/// begins with a store, or with zeros as far as it has a first sector. (That is only tested.) So names that end in
/// `.nsf-draft` are of drafts alone: a store is to have no such name.
///
/// `Exists` where something has the name `PATH`. `DraftInUse` where another process makes it now, and `DraftExists`
/// where something else has the name `PATH.nsf-draft`. `BadLength` for no sector or more than 2^23.
pub fn create<R: Files + AllocGlobal, A: Allocator>(
    rt: &R,
    alloc: A,
    path: &str,
    sectors: u64,
) -> Result<FileDisk<HostFile<R::File>, A>, OpenError>
where
    R::File: StoreFile,
    ensures zeros { IfOk result (λ d. (past_of d).disk.content ≡ replicate sectors zero_sector) }
    ensures synced { IfOk result (λ d. IsSynced (past_of d).disk) }
    ensures failures { IfOk result (λ d. failures_of d ≡ 0) }
    ensures sound { IfOk result (λ d. has_failed_of d ≡ false) }
    ensures fits { IfOk result (λ d. (0 < sectors) × (sectors < SECTORS_MAX + 1)) }
{
    if sectors == 0 || sectors > SECTORS_MAX {
        return Err(OpenError::BadLength(sectors.saturating_mul(SECTOR_SIZE as u64)));
    }
    if is_there(rt, path)? {
        return Err(OpenError::Exists);
    }
    let draft = draft_of(rt.alloc(), path)?;
    let file = begin(rt, draft.as_str(), path)?;
    match fill(rt, alloc, file, draft.as_str(), path, sectors) {
        Ok(disk) => Ok(disk),
        // It is another one's now.
        Err(OpenError::DraftInUse) => Err(OpenError::DraftInUse),
        Err(error) => {
            let _ = remove_left(rt, draft.as_str(), path);
            Err(error)
        }
    }
}

// Gives the draft the name too, where nothing has it.
fn link<R: Files>(rt: &R, draft: &str, path: &str) -> Result<(), OpenError> {
    let Err(error) = fs::hard_link(rt, draft, path) else {
        return Ok(());
    };
    let is_refused = match error.raw_os_error() {
        Some(code) => NO_LINKS.contains(&code),
        None => error.kind() == ErrorKind::Unsupported,
    };
    if error.kind() == ErrorKind::AlreadyExists {
        return Err(OpenError::Exists);
    }
    if is_refused {
        return Err(OpenError::NoSecondName);
    }
    Err(OpenError::from(error))
}

/// Gives the file that was made for this path its name, in one step, which is safe then. A file that has the name stays
/// as it is. (It is only tested.)
///
/// `Exists` where something has this name. `Made` where it has its name, and a call behind that was refused; the other
/// refusals leave it the name of its draft alone.
pub fn publish<R: Files + AllocGlobal>(rt: &R, path: &str) -> Result<(), OpenError>
where
    R::File: StoreFile,
{
    let draft = draft_of(rt.alloc(), path)?;
    link(rt, draft.as_str(), path)?;
    match remove(rt, draft.as_str(), path) {
        Ok(()) => Ok(()),
        Err(error) => Err(OpenError::Made(Trouble::of(error))),
    }
}

/// Removes the file that was made for this path and is not to be published. The disk over it is to be let go before,
/// with its lock. (It is only tested.)
///
/// `DraftInUse` where somebody has it open, and `DraftExists` where another file has its name.
pub fn discard<R: Files + AllocGlobal>(rt: &R, path: &str) -> Result<(), OpenError>
where
    R::File: StoreFile,
{
    let draft = draft_of(rt.alloc(), path)?;
    remove_left(rt, draft.as_str(), path)
}
