//! Why what is done with a store in a file was refused.
ghost use Rattle.std.specs.Prelude.{◌≡◌};
ghost use Rattle.record_values.specs.declared.error.Error.TheVariants.{NoMemory};
ghost use Rattle.program_files.specs.Granted.{granted_by};
ghost use Rattle.program_files.specs.Refusals.{IsBecause, refusal_of};
ghost use Rattle.program_files.specs.declared.refused.Refused.TheVariants.{File, Store, Stream};

use block_file::FileError;
use block_host::DiskError;
use records::Error;
use restart::Reply;
use std::alloc::{AllocError, Global};
use std::io::{ErrorKind, Write};
use std::{fmt, io};
use store_file::{OpenError, Trouble, Troubled};

const OLD_VERSION: &str =
    "it holds a store of version 1, which `nsf-store migrate` moves to a new file";

const FULL_INDEX: &str =
    "its index is full: `nsf-store build --again` drops it, creates it anew and builds it";

const IN_BLOCKS: &str =
    "it is a file of blocks, and a plain one is wanted: `nsf-store migrate` moves its store to one";

const NO_KEY: &str =
    "a key is `=` and graphic bytes, as `=ant`, or `:` and hexadecimal digits, as `:616e74`";

/// Why what is done with a store in a file was refused.
#[derive(Drop)]
pub enum Refused {
    /// The file can't be made or opened.
    File(OpenError),
    /// What the file holds can't be opened as a store, or the store refused.
    Store(Error),
    /// The file is one of blocks that has no device which is whole.
    Blocks(FileError),
    /// The device failed, and this is why.
    Device(Trouble),
    /// It is a file of blocks, where a plain one is wanted.
    InBlocks,
    /// There is no index.
    NoIndex,
    /// The index isn't complete.
    NotBuilt,
    /// A word that is to give a key gives none.
    NoKey,
    /// No place of the index is free, so that it can't be built on.
    FullIndex,
    /// The index that was made anew has fewer places than the table has rows.
    SmallIndex,
    /// The store opens, but its index doesn't fit its rows.
    Unsound,
    /// No thread could be made.
    NoThread,
    /// The disk has more sectors than the store needs that it begins with.
    Longer { sectors: u64, needed: u64 },
    /// The store that is to be moved is of version 2 or 3 already.
    Newer,
    /// The input can't be read, or the output can't be written.
    Stream(io::Error),
}

// That the device failed, with the reason that it tells. (Which one, no clause says.)
fn told_by<D: Troubled>(device: &D) -> Refused
    ensures { IsBecause (Refused.Store Error.DeviceFailed) result }
{
    match device.trouble() {
        Some(trouble) => Refused::Device(trouble),
        None => Refused::Store(Error::DeviceFailed),
    }
}

impl Refused {
    /// The same; where the device failed, with the reason that it tells. (Which one, no clause says.)
    pub fn because<D: Troubled>(self, device: &D) -> Refused
        ensures { IsBecause self result }
    {
        match self {
            Refused::Store(Error::DeviceFailed) => told_by(device),
            other => other,
        }
    }
}

/// Why no store was opened on the disk, which is let go: this error of the restart; where the device failed, with the
/// reason that it tells. (Which one, no clause says.)
pub fn refuse_disk<D: Troubled + Drop>(error: Error, disk: D) -> Refused
    ensures { IsBecause (Refused.Store error) result }
{
    let refused = Refused::Store(error).because(&disk);
    drop(disk);
    refused
}

impl From<OpenError> for Refused {
    ghost from_gives = { λ error result. result ≡ File error };

    fn from(error: OpenError) -> Refused {
        Refused::File(error)
    }
}

impl From<DiskError> for Refused {
    ghost from_gives = { λ error result. result ≡ refusal_of error };

    fn from(error: DiskError) -> Refused {
        match error {
            DiskError::Open(error) => Refused::File(error),
            DiskError::Damaged(sector) => Refused::Store(Error::Damaged { sector }),
            DiskError::File(FileError::NoMemory) => Refused::Store(Error::NoMemory),
            DiskError::File(FileError::FileFailed) => Refused::Store(Error::DeviceFailed),
            DiskError::File(FileError::TooShort) => Refused::Store(Error::DeviceTooSmall),
            DiskError::File(error) => Refused::Blocks(error),
        }
    }
}

impl From<Error> for Refused {
    ghost from_gives = { λ error result. result ≡ Store error };

    fn from(error: Error) -> Refused {
        Refused::Store(error)
    }
}

impl From<io::Error> for Refused {
    ghost from_gives = { λ error result. result ≡ Stream error };

    fn from(error: io::Error) -> Refused {
        Refused::Stream(error)
    }
}

impl From<AllocError> for Refused {
    ghost from_gives = { λ _ result. result ≡ Store NoMemory };

    fn from(_error: AllocError) -> Refused {
        Refused::Store(Error::NoMemory)
    }
}

/// The refusal that a reply tells, if it is one.
pub(crate) fn granted(reply: Reply<Global>) -> Result<(), Refused>
    ensures { result ≡ granted_by reply }
{
    match reply {
        Reply::Refused(error) => Err(Refused::Store(error)),
        _ => Ok(()),
    }
}

/// Tells why the words of a program can't be read, and answers the exit status for that: 1 where there is no memory for
/// them, and else 2.
pub fn refuse_words<E: Write>(program: &str, error: io::Error, errors: &mut E) -> u8 {
    let status = match error.kind() {
        ErrorKind::OutOfMemory => 1,
        _ => 2,
    };
    let trouble = Trouble::of(error);
    let _ = writeln!(errors, "{program}: {trouble}");
    status
}

// What a store's refusal says of its file, where that is always the same.
fn text_of(error: Error) -> Option<&'static str> {
    match error {
        Error::NotFormatted => Some("it holds no store of this format"),
        Error::DeviceTooSmall => Some("it is shorter than the store that it begins with"),
        Error::OldVersion => Some(OLD_VERSION),
        Error::DeviceFailed => Some("its device failed"),
        Error::NoMemory => Some("out of memory"),
        Error::HeapFull => Some("its table is full"),
        _ => None,
    }
}

// What a store's refusal says of its file.
fn write_error<W: fmt::Write>(error: Error, f: &mut fmt::Formatter<W>) -> fmt::Result {
    if let Some(text) = text_of(error) {
        return f.write_str(text);
    }
    match error {
        Error::Damaged { sector } => write!(f, "it is damaged at sector {sector}"),
        error => write!(f, "refused {error}"),
    }
}

// What is said of a file of blocks.
fn write_file_error<W: fmt::Write>(error: FileError, f: &mut fmt::Formatter<W>) -> fmt::Result {
    match error {
        FileError::NoHeader => f.write_str("both of its headers are damaged"),
        FileError::NoBatch => f.write_str("both areas of its journal are damaged"),
        error => write!(f, "{error}"),
    }
}

// What is said of a disk that is longer than its store.
fn write_longer<W: fmt::Write>(
    sectors: u64,
    needed: u64,
    f: &mut fmt::Formatter<W>,
) -> fmt::Result {
    write!(
        f,
        "it has {sectors} sectors, and the store that it begins with {needed}: a number in its first sector may be damaged. `nsf-store salvage` takes the right ones by --pages, --entries and --slots"
    )
}

// What is said of a refusal that has no other reason in it.
fn text_of_refusal(refused: &Refused) -> &'static str {
    match refused {
        Refused::Unsound => "it opens, but its index isn't that of its rows",
        Refused::NoThread => "no thread could be made",
        Refused::Newer => "it holds a store of version 2 or 3, which needs no move",
        Refused::FullIndex => FULL_INDEX,
        Refused::SmallIndex => "its index has fewer places than the table has rows",
        Refused::InBlocks => IN_BLOCKS,
        Refused::NotBuilt => "its index isn't complete; `nsf-store build` builds it to its end",
        Refused::NoKey => NO_KEY,
        Refused::NoIndex => "it has no index; `create` in `run` begins one",
        _ => "",
    }
}

impl fmt::Display for Refused {
    fn fmt<W: fmt::Write>(&self, f: &mut fmt::Formatter<W>) -> fmt::Result {
        match self {
            Refused::File(error) => write!(f, "{error}"),
            Refused::Store(error) => write_error(*error, f),
            Refused::Blocks(error) => write_file_error(*error, f),
            Refused::Device(trouble) => write!(f, "{trouble}"),
            Refused::Stream(error) => write!(f, "input or output failed: {error}"),
            Refused::Longer { sectors, needed } => write_longer(*sectors, *needed, f),
            refused => f.write_str(text_of_refusal(refused)),
        }
    }
}
