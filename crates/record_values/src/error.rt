//! Refusals.
ghost use Rattle.std.specs.Prelude.{◌≡◌};
ghost use Rattle.record_values.specs.declared.error.Error.TheVariants.{NoMemory};
ghost use Rattle.record_values.specs.Refusals.{number_of, name_of};

use std::alloc::{AllocError, AllocFailed};
use thiserror::Error;

/// Why a call was refused. Printed as its number and its name, and behind them
/// the sector or the line that it names: `11 RowBusy`, `4 Damaged 516`.
#[derive(Clone, Copy, Debug, PartialEq, Eq, Error)]
pub enum Error {
    /// An allocation was refused. What earlier steps did stays.
    #[error("1 NoMemory")]
    NoMemory,
    /// A call of the device failed. The writer answers so until a restart.
    #[error("2 DeviceFailed")]
    DeviceFailed,
    /// The device's first bytes are not this format's.
    #[error("3 NotFormatted")]
    NotFormatted,
    /// What lies in this sector is nothing that the format allows.
    #[error("4 Damaged {sector}")]
    Damaged { sector: u64 },
    /// The device has fewer sectors than the geometry needs.
    #[error("5 DeviceTooSmall")]
    DeviceTooSmall,
    /// A number of pages, entries or slots is outside its limits.
    #[error("6 BadGeometry")]
    BadGeometry,
    /// As many transactions are active as may be.
    #[error("7 TooManyTxns")]
    TooManyTxns,
    /// The transaction has made as many changes as it may.
    #[error("8 TooManyChanges")]
    TooManyChanges,
    /// No active transaction has this number.
    #[error("9 NoSuchTxn")]
    NoSuchTxn,
    /// No row is at this place.
    #[error("10 NoSuchRow")]
    NoSuchRow,
    /// Another active transaction holds the row.
    #[error("11 RowBusy")]
    RowBusy,
    /// No place is free for a further row.
    #[error("12 HeapFull")]
    HeapFull,
    /// The index has no room for a further entry.
    #[error("13 IndexFull")]
    IndexFull,
    /// The key has more bytes than a key may have.
    #[error("14 KeyTooLong")]
    KeyTooLong,
    /// The body has more bytes than a body may have.
    #[error("15 BodyTooLong")]
    BodyTooLong,
    /// A transaction is active.
    #[error("16 TxnsActive")]
    TxnsActive,
    /// The index exists, built or being built.
    #[error("17 IndexExists")]
    IndexExists,
    /// No index exists.
    #[error("18 NoIndex")]
    NoIndex,
    /// The index is not complete yet.
    #[error("19 NotBuilt")]
    NotBuilt,
    /// The store was told to stop.
    #[error("20 Stopped")]
    Stopped,
    /// The last number that a record may have is given away.
    #[error("21 Exhausted")]
    Exhausted,
    /// This line of a script, from 1, is no command.
    #[error("22 BadScript {line}")]
    BadScript { line: u64 },
    /// The store is one of version 1, which is only read.
    #[error("23 OldVersion")]
    OldVersion,
}

impl Error {
    /// The number of the refusal, from 1 to 23.
    pub fn number(self) -> u8
        ensures { result ≡ number_of self }
    {
        match self {
            Error::NoMemory => 1,
            Error::DeviceFailed => 2,
            Error::NotFormatted => 3,
            Error::Damaged { .. } => 4,
            Error::DeviceTooSmall => 5,
            Error::BadGeometry => 6,
            Error::TooManyTxns => 7,
            Error::TooManyChanges => 8,
            Error::NoSuchTxn => 9,
            Error::NoSuchRow => 10,
            Error::RowBusy => 11,
            Error::HeapFull => 12,
            Error::IndexFull => 13,
            Error::KeyTooLong => 14,
            Error::BodyTooLong => 15,
            Error::TxnsActive => 16,
            Error::IndexExists => 17,
            Error::NoIndex => 18,
            Error::NotBuilt => 19,
            Error::Stopped => 20,
            Error::Exhausted => 21,
            Error::BadScript { .. } => 22,
            Error::OldVersion => 23,
        }
    }

    /// The name of the refusal, in one word.
    pub fn name(self) -> &'static str
        ensures { result.now ≡ name_of self }
    {
        match self {
            Error::NoMemory => "NoMemory",
            Error::DeviceFailed => "DeviceFailed",
            Error::NotFormatted => "NotFormatted",
            Error::Damaged { .. } => "Damaged",
            Error::DeviceTooSmall => "DeviceTooSmall",
            Error::BadGeometry => "BadGeometry",
            Error::TooManyTxns => "TooManyTxns",
            Error::TooManyChanges => "TooManyChanges",
            Error::NoSuchTxn => "NoSuchTxn",
            Error::NoSuchRow => "NoSuchRow",
            Error::RowBusy => "RowBusy",
            Error::HeapFull => "HeapFull",
            Error::IndexFull => "IndexFull",
            Error::KeyTooLong => "KeyTooLong",
            Error::BodyTooLong => "BodyTooLong",
            Error::TxnsActive => "TxnsActive",
            Error::IndexExists => "IndexExists",
            Error::NoIndex => "NoIndex",
            Error::NotBuilt => "NotBuilt",
            Error::Stopped => "Stopped",
            Error::Exhausted => "Exhausted",
            Error::BadScript { .. } => "BadScript",
            Error::OldVersion => "OldVersion",
        }
    }
}

impl From<AllocError> for Error {
    ghost from_gives = { λ _ e. e ≡ NoMemory };

    fn from(_error: AllocError) -> Error {
        Error::NoMemory
    }
}

impl<T: Drop> From<AllocFailed<T>> for Error {
    ghost from_gives = { λ _ e. e ≡ NoMemory };

    fn from(_error: AllocFailed<T>) -> Error {
        Error::NoMemory
    }
}
