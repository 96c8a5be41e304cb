//! Why no store was made or opened.
ghost use Rattle.std.specs.Prelude.{◌≡◌};

use crate::below::Below;
use records::Error;
use std::alloc::Global;
use store_file::FileDisk;

/// Why no store was made or opened on a disk. The disk comes back as it was left, but for want of memory.
#[derive(Drop)]
pub(crate) enum Unopened {
    /// There was no memory for the disk, or for the store that was opened on it.
    NoMemory,
    /// A call of the disk failed as a store was made on it.
    Failed(FileDisk<Below, Global>),
    /// A restart refused the disk.
    Refused(Error, FileDisk<Below, Global>),
}

impl Unopened {
    ghost use Rattle.nsf_c.specs.Unopened.{error_of};

    /// As which error it is told.
    pub(crate) fn error(&self) -> Error
        ensures { result ≡ error_of self.now }
    {
        match self {
            Unopened::NoMemory => Error::NoMemory,
            Unopened::Failed(_) => Error::DeviceFailed,
            Unopened::Refused(error, _) => *error,
        }
    }
}
