//! What is wrong with a file.
use std::io::ErrorKind;
use std::{fmt, io};

// The system's number of an input or output error.
const INPUT_OUTPUT: i32 = 5;

/// What is wrong with a file, as far as the system tells.
#[derive(Clone, Copy, Debug, PartialEq, Eq)]
pub enum Trouble {
    /// There is no room on the device, or none is granted.
    NoRoom,
    /// The file system takes no file of this size.
    TooLarge,
    /// The device failed.
    InputOutput,
    /// A name isn't text.
    NotText,
    /// The file was removed while it was open, or another was put in its place.
    Gone,
    /// The file's length was changed while it was open.
    Resized,
    /// Another error of the system, by its number.
    System(i32),
    /// Another error.
    Other(ErrorKind),
}

impl Trouble {
    /// What the error tells.
    pub fn of(error: io::Error) -> Trouble {
        match (error.kind(), error.raw_os_error()) {
            (ErrorKind::StorageFull | ErrorKind::QuotaExceeded, _) => Trouble::NoRoom,
            (ErrorKind::FileTooLarge, _) => Trouble::TooLarge,
            (ErrorKind::InvalidData, _) => Trouble::NotText,
            (_, Some(INPUT_OUTPUT)) => Trouble::InputOutput,
            (_, Some(code)) => Trouble::System(code),
            (kind, None) => Trouble::Other(kind),
        }
    }
}

impl From<io::Error> for Trouble {
    fn from(error: io::Error) -> Trouble {
        Trouble::of(error)
    }
}

impl fmt::Display for Trouble {
    fn fmt<W: fmt::Write>(&self, f: &mut fmt::Formatter<W>) -> fmt::Result {
        match self {
            Trouble::NoRoom => f.write_str("there is no room on the device"),
            Trouble::TooLarge => f.write_str("the file system takes no file of this size"),
            Trouble::InputOutput => f.write_str("the device failed: an input or output error"),
            Trouble::NotText => f.write_str("a name that isn't text"),
            Trouble::Gone => f.write_str(
                "the file was removed while it was open, or another was put in its place",
            ),
            Trouble::Resized => f.write_str("the file's length was changed while it was open"),
            Trouble::System(code) => write!(f, "{}", io::Error::from_raw_os_error(*code)),
            Trouble::Other(kind) => write!(f, "{kind}"),
        }
    }
}

/// Tells why a device fails.
pub trait Troubled {
    /// Why its first call failed that did, where that is known.
    fn trouble(&self) -> Option<Trouble>;
}
