//! How large a store is.
ghost use Rattle.std.specs.Prelude.{◌≡◌, ◌<◌, ◌↔◌, true, IsTrue, IsOk, IfOk, IfErr};
ghost use Rattle.record_values.specs.GeometryValue.{IsGeometry, is_small, half_sectors_in, sectors_in, half_sectors_of};
ghost use Rattle.record_values.specs.GeometryValue.{sectors_of};

use crate::error::Error;
use crate::rid::Rid;
use crate::version::Version;
use std::marker::Model;

/// The most pages of rows of a small store.
pub const PAGES_MAX: u32 = 256;

/// The most pages of rows.
pub const LARGE_PAGES_MAX: u32 = 65_536;

/// The least room of an index, in entries.
pub const ENTRIES_MIN: u32 = 64;

/// The greatest room of an index of a small store, in entries.
pub const ENTRIES_MAX: u32 = 65_536;

/// The greatest room of an index, in entries.
pub const LARGE_ENTRIES_MAX: u32 = 8_388_608;

/// The fewest slots of a log.
pub const LOG_SLOTS_MIN: u32 = 4;

/// The most slots of a log of a small store.
pub const LOG_SLOTS_MAX: u32 = 256;

/// The most slots of a log.
pub const LARGE_LOG_SLOTS_MAX: u32 = 16_384;

/// The sectors before the two halves: the superblock and the flip sector.
pub const FRONT_SECTORS: u64 = 2;

/// The sectors of an image's header.
pub const HEADER_SECTORS: u64 = 1;

/// The sectors of an image's transaction heads.
pub const HEADS_SECTORS: u64 = 1;

/// The sectors of an image's undo items.
pub const UNDO_SECTORS: u64 = 1024;

/// The sectors of a page of rows.
pub const PAGE_SECTORS: u64 = 16;

/// How many entries of the index lie in a sector.
pub const ENTRIES_PER_SECTOR: u64 = 8;

/// The sectors of a slot of the log: a gate, and seven of a body.
pub const SLOT_SECTORS: u64 = 8;

/// How large a store is: its pages of rows, the room of its index in entries,
/// and the slots of its log. Each number is within its limits. A store that is
/// within the lower limits, those of the formats of versions 1 and 2, is small.
#[derive(Clone, Copy, Debug, PartialEq, Eq)]
pub struct Geometry {
    /// Pages of rows, 1 to 65,536; 256 at most in a small store.
    pub pages: u32,
    /// Entries of the index, 64 to 8,388,608; 65,536 at most in a small store.
    pub entries: u32,
    /// Slots of the log of a half, 4 to 16,384; 256 at most in a small store.
    pub slots: u32,
}

impl Model for Geometry {
    ghost use Rattle.record_values.specs.GeometryValue.{GeometryValue, IsGeometry};

    ghost Value = { GeometryValue };

    ghost view = { λ g. record { pages = g.pages; entries = g.entries; slots = g.slots } };

    ghost invariant = { λ g. IsGeometry (record { pages = g.pages; entries = g.entries; slots = g.slots }) };

    ghost inverse = { λ g. record { pages = g.pages; entries = g.entries; slots = g.slots } };
}

impl Geometry {
    /// The geometry of a small store of these numbers. `BadGeometry` where one
    /// of them is outside the limits of a small store.
    pub fn new(pages: u32, entries: u32, slots: u32) -> Result<Self, Error>
        ensures within { IsOk result ↔ (IsGeometry (record { pages = pages; entries = entries; slots = slots })
            × (is_small (record { pages = pages; entries = entries; slots = slots }) ≡ true)) }
        ensures ok { IfOk result (λ g. g ≡ record { pages = pages; entries = entries; slots = slots }) }
        ensures bad { IfErr result (λ e. e ≡ Error.BadGeometry) }
    {
        if pages > PAGES_MAX || entries > ENTRIES_MAX || slots > LOG_SLOTS_MAX {
            return Err(Error::BadGeometry);
        }
        Self::large(pages, entries, slots)
    }

    /// The geometry of these numbers. `BadGeometry` where one of them is
    /// outside its limits.
    pub fn large(pages: u32, entries: u32, slots: u32) -> Result<Self, Error>
        ensures within { IsOk result ↔ IsGeometry (record { pages = pages; entries = entries; slots = slots }) }
        ensures ok { IfOk result (λ g. g ≡ record { pages = pages; entries = entries; slots = slots }) }
        ensures bad { IfErr result (λ e. e ≡ Error.BadGeometry) }
    {
        if pages < 1
            || pages > LARGE_PAGES_MAX
            || entries < ENTRIES_MIN
            || entries > LARGE_ENTRIES_MAX
            || slots < LOG_SLOTS_MIN
            || slots > LARGE_LOG_SLOTS_MAX
        {
            return Err(Error::BadGeometry);
        }
        Ok(Geometry {
            pages,
            entries,
            slots,
        })
    }

    /// Whether a store of this geometry is small: within the limits of
    /// versions 1 and 2 of the format.
    pub fn is_small(self) -> bool
        ensures { result ≡ is_small self }
    {
        self.pages <= PAGES_MAX && self.entries <= ENTRIES_MAX && self.slots <= LOG_SLOTS_MAX
    }

    /// The sectors of one half in a version: header, transaction heads, undo
    /// items, pages, entries and log (the format document has them in this
    /// order).
    pub fn half_sectors_in(self, version: Version) -> u64
        ensures { result ≡ half_sectors_in version self }
    {
        let entries = u64::from(self.entries).div_ceil(version.entries_per_sector());
        HEADER_SECTORS
            + HEADS_SECTORS
            + version.undo_sectors()
            + version.page_sectors() * u64::from(self.pages)
            + entries
            + SLOT_SECTORS * u64::from(self.slots)
    }

    /// The least device of a version, in sectors: what stands before the
    /// halves, and both halves.
    pub fn sectors_in(self, version: Version) -> u64
        ensures { result ≡ sectors_in version self }
    {
        FRONT_SECTORS + 2 * self.half_sectors_in(version)
    }

    /// The sectors of one half in version 2.
    pub fn half_sectors(self) -> u64
        ensures { result ≡ half_sectors_of self }
    {
        self.half_sectors_in(Version::Two)
    }

    /// The least device in version 2, in sectors.
    pub fn sectors(self) -> u64
        ensures { result ≡ sectors_of self }
    {
        self.sectors_in(Version::Two)
    }

    /// Whether the place is in one of the pages.
    pub fn contains(self, rid: Rid) -> bool
        ensures { IsTrue result ↔ (rid.page < self.pages) }
    {
        rid.page < self.pages
    }
}
