//! The names of files.
use crate::error::OpenError;
use crate::host::{StoreFile, is_same};
use std::alloc::{AllocError, Allocator};
use std::fs::{Metadata, OpenFile};
use std::io::ErrorKind;
use std::os::unix::fs::MetadataExt;
use std::path::Path;
use std::rt::Files;
use std::{fs, io};

/// The name under which the file of this path is made, until it is published.
pub(crate) fn draft_of<A: Allocator>(alloc: A, path: &str) -> Result<String<A>, AllocError> {
    format!(in alloc; "{path}.nsf-draft")
}

/// What has this name, if anything.
pub(crate) fn found_at<R: Files>(rt: &R, path: &str) -> io::Result<Option<Metadata>> {
    match fs::symlink_metadata(rt, path) {
        Ok(found) => Ok(Some(found)),
        Err(error) if error.kind() == ErrorKind::NotFound => Ok(None),
        Err(error) => Err(error),
    }
}

/// Which file it is, by the numbers that the system has for its device and for itself.
#[derive(Clone, Copy, PartialEq, Eq)]
pub struct FileNumber {
    device: u64,
    file: u64,
}

/// The number of the file that was looked at.
pub(crate) fn number_of(found: &Metadata) -> FileNumber {
    FileNumber {
        device: found.dev(),
        file: found.ino(),
    }
}

/// The number of what has this name, if anything has it. A file keeps its number when it is renamed.
pub fn number_at<R: Files>(rt: &R, path: &str) -> io::Result<Option<FileNumber>> {
    match found_at(rt, path)? {
        Some(found) => Ok(Some(number_of(&found))),
        None => Ok(None),
    }
}

/// Whether something has this name.
pub(crate) fn is_there<R: Files>(rt: &R, path: &str) -> io::Result<bool> {
    Ok(found_at(rt, path)?.is_some())
}

// The folder that the path stands in.
fn open_folder<R: Files>(rt: &R, path: &str) -> io::Result<R::File> {
    match Path::new(path).parent() {
        Some(folder) if !folder.as_str().is_empty() => fs::open(rt, folder),
        _ => fs::open(rt, "."),
    }
}

/// Syncs the folder that the path stands in, so that its names are safe.
pub(crate) fn sync_folder<R: Files>(rt: &R, path: &str) -> io::Result<()> {
    open_folder(rt, path)?.sync_all()
}

/// Syncs it, unless this process may not read it.
pub(crate) fn sync_readable_folder<R: Files>(rt: &R, path: &str) -> io::Result<()> {
    match open_folder(rt, path) {
        Ok(folder) => folder.sync_all(),
        Err(error) if error.kind() == ErrorKind::PermissionDenied => Ok(()),
        Err(error) => Err(error),
    }
}

/// Refuses what is no regular file before it is opened, as an opening of some others waits.
pub(crate) fn refuse_other<R: Files>(rt: &R, path: &str) -> Result<(), OpenError> {
    if fs::metadata(rt, path)?.is_file() {
        return Ok(());
    }
    Err(OpenError::NotAFile)
}

// Whether what was found has the name of the draft of this path too.
fn has_draft<R: Files, A: Allocator>(
    rt: &R,
    alloc: &A,
    found: &Metadata,
    path: &str,
) -> Result<bool, OpenError> {
    let draft = draft_of(alloc, path)?;
    match found_at(rt, draft.as_str())? {
        Some(named) => Ok(is_same(found, &named)),
        None => Ok(false),
    }
}

/// Whether the file, which is a regular one, has this name and that of its draft, from a publication that was cut off.
/// It is refused where it has neither one nor those two alone.
pub(crate) fn has_both<R: Files, H: OpenFile, A: Allocator>(
    rt: &R,
    alloc: &A,
    file: &H,
    path: &str,
) -> Result<bool, OpenError> {
    let found = file.metadata()?;
    if !found.is_file() {
        return Err(OpenError::NotAFile);
    }
    if !is_same(&found, &fs::symlink_metadata(rt, path)?) {
        return Err(OpenError::Linked);
    }
    match found.nlink() {
        1 => Ok(false),
        2 if has_draft(rt, alloc, &found, path)? => Ok(true),
        _ => Err(OpenError::Linked),
    }
}
