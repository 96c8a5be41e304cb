//! The device of a file: it is opened, or made a store.
//!
//! Proved of a device that is made: it holds a store of the geometry, which may be opened (`openable`, `formatted`), it
//! is synced, no call of it has failed, and it has no more sectors than a file may have (`fits`). Of one that is
//! opened: it is synced, and no call of it has failed. Each refusal is one of files, or tells that a write or a sync of
//! the new file failed (`refused`).
//!
//! No clause says what an opened file holds, nor that it is a store: `restart` and `open_store` read it, and tell. Nor
//! that a store is made just where nothing has the name, that the file gets its name, and only once the store is safe
//! (what gives it the name asks for that), or what a refusal leaves of it. That is only tested (`test_nsf`,
//! `test_files`).
ghost use Rattle.std.specs.Prelude.{◌≡◌, ◌+◌, ◌<◌, ◌≤◌, IfErr, IfOk, length};
ghost use Rattle.record_values.specs.GeometryValue.{sectors_of};
ghost use Rattle.sector_device.specs.Disk.{IsSynced};
ghost use Rattle.flip_image.specs.Store.{IsFormatted};
ghost use Rattle.store_file.specs.FileDisk.{failures_of, past_of};
ghost use Rattle.store_file.specs.declared.draft.TheConstants.{SECTORS_MAX};
ghost use Rattle.threads_lifetime.specs.Openings.{IsOpenable};
ghost use Rattle.nsf.specs.Files.{IsNoDevice};

use records::{Error, Geometry};
use std::alloc::Allocator;
use std::io;
use std::rt::Files;
use store_file::{
    FileDisk, HostFile, OpenError, StoreFile, create, discard, number_at, open, publish,
};
use threads_lifetime::format_store;

/// Why there is no device of a file. It tells what its cause tells.
#[derive(Debug, Drop, thiserror::Error)]
pub enum FileError {
    /// The file can't be opened, or made.
    #[error(transparent)]
    File(OpenError),
    /// What was made can't be made a store.
    #[error(transparent)]
    Store(Error),
}

impl From<OpenError> for FileError {
    ghost use Rattle.nsf.specs.declared.files.FileError.TheVariants.{File};

    ghost from_gives = { λ error result. result ≡ File error };

    fn from(error: OpenError) -> FileError {
        FileError::File(error)
    }
}

impl From<Error> for FileError {
    ghost use Rattle.nsf.specs.declared.files.FileError.TheVariants.{Store};

    ghost from_gives = { λ error result. result ≡ Store error };

    fn from(error: Error) -> FileError {
        FileError::Store(error)
    }
}

impl From<io::Error> for FileError {
    ghost use Rattle.nsf.specs.Files.{IsOfFile};

    ghost from_gives = { λ _ result. IsOfFile result };

    fn from(error: io::Error) -> FileError {
        FileError::File(OpenError::from(error))
    }
}

// Gives the file of a disk its name: only once the disk is a store, and safe.
fn give_name<R: Files + AllocGlobal, A: Allocator>(
    rt: &R,
    path: &str,
    _disk: &FileDisk<HostFile<R::File>, A>,
) -> Result<(), OpenError>
where
    R::File: StoreFile,
    requires store { IsOpenable (past_of _disk.now).disk.content }
    requires safe { IsSynced (past_of _disk.now).disk }
{
    publish(rt, path)
}

// Makes the disk of a draft a store, and gives the file its name.
fn finish<R: Files + AllocGlobal, A: Allocator>(
    rt: &R,
    path: &str,
    geometry: Geometry,
    mut disk: FileDisk<HostFile<R::File>, A>,
) -> Result<FileDisk<HostFile<R::File>, A>, FileError>
where
    R::File: StoreFile,
    requires room { sectors_of geometry ≤ length (past_of disk).disk.content }
    ensures openable { IfOk result (λ d. IsOpenable (past_of d).disk.content) }
    ensures formatted { IfOk result (λ d. IsFormatted geometry (past_of d).disk.content) }
    ensures synced { IfOk result (λ d. IsSynced (past_of d).disk) }
    ensures failures { IfOk result (λ d. failures_of d ≡ failures_of disk) }
    ensures refused { IfErr result IsNoDevice }
{
    format_store(&mut disk, geometry)?;
    give_name(rt, path, &disk)?;
    Ok(disk)
}

/// Makes a store of this geometry, with no row and no index, in a new file, and its device, which is synced. The file
/// gets its name once all of that is safe (no clause says so). Where it is refused before, no file is left, if that can
/// be removed; behind that the file stands, whole.
///
/// The refusals are those of `file::create` and `file::publish`, and `DeviceFailed` where a write or a sync of the new
/// file failed.
pub fn create_store<R: Files + AllocGlobal, A: Allocator>(
    rt: &R,
    alloc: A,
    path: &str,
    geometry: Geometry,
) -> Result<FileDisk<HostFile<R::File>, A>, FileError>
where
    R::File: StoreFile,
    ensures openable { IfOk result (λ d. IsOpenable (past_of d).disk.content) }
    ensures formatted { IfOk result (λ d. IsFormatted geometry (past_of d).disk.content) }
    ensures synced { IfOk result (λ d. IsSynced (past_of d).disk) }
    ensures failures { IfOk result (λ d. failures_of d ≡ 0) }
    ensures fits { IfOk result (λ _. sectors_of geometry < SECTORS_MAX + 1) }
    ensures refused { IfErr result IsNoDevice }
{
    let disk = create(rt, alloc, path, geometry.sectors())?;
    match finish(rt, path, geometry, disk) {
        Ok(disk) => Ok(disk),
        Err(error) => {
            let _ = discard(rt, path);
            Err(error)
        }
    }
}

/// The device of the file of this name, which is opened as by `file::open`. Where nothing has the name, a store of this
/// geometry is made there, as by `create_store`. The geometry is not looked at where the file is there. (Which of the
/// two it does, no clause says.)
///
/// The refusals are those of `file::open`, and of `create_store`: `Exists` where the file was made meanwhile. A draft
/// that was left by a making that was cut off gives way (`file::create`). `DraftExists` where something else has its
/// name.
pub fn open_or_create<R: Files + AllocGlobal, A: Allocator>(
    rt: &R,
    alloc: A,
    path: &str,
    geometry: Geometry,
) -> Result<FileDisk<HostFile<R::File>, A>, FileError>
where
    R::File: StoreFile,
    ensures synced { IfOk result (λ d. IsSynced (past_of d).disk) }
    ensures failures { IfOk result (λ d. failures_of d ≡ 0) }
    ensures refused { IfErr result IsNoDevice }
{
    match number_at(rt, path)? {
        Some(_) => Ok(open(rt, alloc, path)?),
        None => create_store(rt, alloc, path, geometry),
    }
}
