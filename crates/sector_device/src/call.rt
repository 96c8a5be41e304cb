// What a disk in memory records, and how a crash treats an unsynced sector.
use crate::SECTOR_SIZE;

/// A write or a sync that was done.
#[derive(Clone, Copy)]
pub(crate) enum Call {
    Write {
        sector: u64,
        bytes: [u8; SECTOR_SIZE],
    },
    Sync,
}

/// What a crash leaves in an unsynced sector.
#[derive(Clone, Copy, Debug, PartialEq, Eq)]
pub enum Fate {
    /// What it held at the last sync.
    Old,
    /// What it held last.
    New,
    /// Zeros.
    Zero,
    /// The byte 0xA5 everywhere.
    Gate,
    /// Byte i is `(7 * i + 13) mod 256`.
    Junk,
}
