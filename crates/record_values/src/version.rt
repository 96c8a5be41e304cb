//! Versions of the store's format.
ghost use Rattle.std.specs.Prelude.{◌≡◌, ◌≤◌, ◌↔◌, IsTrue};
ghost use Rattle.record_values.specs.Version.{key_max, body_max, HasDrop, undo_sectors, page_sectors};
ghost use Rattle.record_values.specs.Version.{entries_per_sector};

use crate::geometry::{ENTRIES_PER_SECTOR, PAGE_SECTORS, UNDO_SECTORS};
use crate::key::{BODY_MAX, KEY_MAX};

/// The most bytes of a key in version 1.
pub const OLD_KEY_MAX: usize = 24;

/// The most bytes of a body in version 1.
pub const OLD_BODY_MAX: usize = 37;

/// The sectors of an image's undo items in version 1.
pub const OLD_UNDO_SECTORS: u64 = 512;

/// The sectors of a page of rows in version 1.
pub const OLD_PAGE_SECTORS: u64 = 8;

/// How many entries of the index lie in a sector in version 1.
pub const OLD_ENTRIES_PER_SECTOR: u64 = 16;

/// A version of the store's format: how long keys and bodies are at most, and
/// so how large what has them is, and whether an index may be dropped.
#[derive(Clone, Copy, Debug, PartialEq, Eq)]
pub enum Version {
    /// Version 1, which is only read.
    One,
    /// Version 2.
    Two,
}

impl Version {
    /// The most bytes of a key.
    pub fn key_max(self) -> usize
        ensures value { result ≡ key_max self }
        ensures most { result ≤ KEY_MAX }
    {
        match self {
            Version::One => OLD_KEY_MAX,
            Version::Two => KEY_MAX,
        }
    }

    /// The most bytes of a body.
    pub fn body_max(self) -> usize
        ensures value { result ≡ body_max self }
        ensures most { result ≤ BODY_MAX }
    {
        match self {
            Version::One => OLD_BODY_MAX,
            Version::Two => BODY_MAX,
        }
    }

    /// Whether there is a record for the drop of an index.
    pub fn has_drop(self) -> bool
        ensures { IsTrue result ↔ HasDrop self }
    {
        match self {
            Version::One => false,
            Version::Two => true,
        }
    }

    /// The sectors of an image's undo items.
    pub fn undo_sectors(self) -> u64
        ensures value { result ≡ undo_sectors self }
        ensures most { result ≤ UNDO_SECTORS }
    {
        match self {
            Version::One => OLD_UNDO_SECTORS,
            Version::Two => UNDO_SECTORS,
        }
    }

    /// The sectors of a page of rows.
    pub fn page_sectors(self) -> u64
        ensures value { result ≡ page_sectors self }
        ensures most { result ≤ PAGE_SECTORS }
    {
        match self {
            Version::One => OLD_PAGE_SECTORS,
            Version::Two => PAGE_SECTORS,
        }
    }

    /// How many entries of the index lie in a sector.
    pub fn entries_per_sector(self) -> u64
        ensures value { result ≡ entries_per_sector self }
        ensures least { ENTRIES_PER_SECTOR ≤ result }
        ensures most { result ≤ OLD_ENTRIES_PER_SECTOR }
    {
        match self {
            Version::One => OLD_ENTRIES_PER_SECTOR,
            Version::Two => ENTRIES_PER_SECTOR,
        }
    }
}
