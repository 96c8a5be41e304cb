//! Why there is no disk over a file.
use crate::trouble::Trouble;
use std::alloc::AllocError;
use std::fs::TryLockError;
use std::{fmt, io};

/// Why there is no disk over a file.
#[derive(Debug, Drop)]
pub enum OpenError {
    /// The system refused a call.
    Io(Trouble),
    /// There is no memory for the mirror.
    NoMemory,
    /// Another process, or another disk of this one, has it open.
    Busy,
    /// It is there already.
    Exists,
    /// Something has the name under which it would be made, `PATH.nsf-draft`, that was not left by a making.
    DraftExists,
    /// Another process, or another disk of this one, has `PATH.nsf-draft` open, as one that makes it now.
    DraftInUse,
    /// It is made, and has its name, but the system refused a call behind that: the name may not be safe, or that of
    /// its draft is there too, which the next opening takes away.
    Made(Trouble),
    /// The file system gives a file no second name, as a new one needs to get its own.
    NoSecondName,
    /// It is no regular file.
    NotAFile,
    /// It is a link, or has more than one name.
    Linked,
    /// Its length, in bytes, is no number of sectors from 1 to 2^23.
    BadLength(u64),
}

impl From<io::Error> for OpenError {
    fn from(error: io::Error) -> OpenError {
        OpenError::Io(Trouble::of(error))
    }
}

impl From<AllocError> for OpenError {
    fn from(_error: AllocError) -> OpenError {
        OpenError::NoMemory
    }
}

impl From<TryLockError> for OpenError {
    fn from(error: TryLockError) -> OpenError {
        match error {
            TryLockError::WouldBlock => OpenError::Busy,
            TryLockError::Error(error) => OpenError::from(error),
        }
    }
}

impl fmt::Display for OpenError {
    fn fmt<W: fmt::Write>(&self, f: &mut fmt::Formatter<W>) -> fmt::Result {
        match self {
            OpenError::Io(trouble) => write!(f, "{trouble}"),
            OpenError::NoMemory => f.write_str("out of memory"),
            OpenError::Busy => f.write_str("another process has it open"),
            OpenError::Exists => f.write_str("it is there already"),
            OpenError::DraftExists => f.write_str(
                "something that is no part of a store has this name with .nsf-draft added, under which it would be made",
            ),
            OpenError::DraftInUse => {
                f.write_str("another process makes it now, under this name with .nsf-draft added")
            }
            OpenError::Made(trouble) => {
                write!(
                    f,
                    "it is made, and whole, but its name may not be safe yet: {trouble}"
                )
            }
            OpenError::NoSecondName => f.write_str(
                "the file system gives a file no second name, as a new one needs to get its own",
            ),
            OpenError::NotAFile => f.write_str("it is no regular file"),
            OpenError::Linked => f.write_str("it is a link, or has more than one name"),
            OpenError::BadLength(length) => {
                write!(
                    f,
                    "its length of {length} bytes is no number of sectors from 1 to 8388608"
                )
            }
        }
    }
}

impl std::error::Error for OpenError {}
