//! The halves of a store, and where their parts lie.
ghost use Rattle.std.specs.Prelude.{◌≡◌, ◌+◌, ◌*◌, ◌^◌, ◌<◌, ◌≤◌};
ghost use Rattle.record_values.specs.GeometryValue.{sectors_in, sectors_of};
ghost use Rattle.flip_image.specs.Layout.{other, header_sector_in, header_sector, heads_sector, pages_first};
ghost use Rattle.flip_image.specs.Layout.{log_first_in, log_first};
ghost use Rattle.store_image_half.specs.Layout.{image_end_in};

use records::{
    ENTRIES_PER_SECTOR, FRONT_SECTORS, Geometry, HEADER_SECTORS, HEADS_SECTORS,
    OLD_ENTRIES_PER_SECTOR, OLD_PAGE_SECTORS, OLD_UNDO_SECTORS, PAGE_SECTORS, SLOT_SECTORS,
    UNDO_SECTORS, Version,
};

/// The sector that names a half (the format document, "Device"): half B where it is marked, and else half A.
pub const FLIP_SECTOR: u64 = 1;

/// One of the two halves of a store.
#[derive(Clone, Copy, Debug, PartialEq, Eq)]
pub enum Half {
    /// Behind the superblock and the flip sector.
    A,
    /// Behind half A.
    B,
}

impl Half {
    /// The half that isn't this one.
    pub fn other(self) -> Half
        ensures { result ≡ other self }
    {
        match self {
            Half::A => Half::B,
            Half::B => Half::A,
        }
    }

    /// The sector of its image's header in a version, which is its first.
    pub(crate) fn header_sector_in(self, version: Version, geometry: Geometry) -> u64
        ensures value { result ≡ header_sector_in version geometry self }
        ensures inside { image_end_in version geometry result ≤ sectors_in version geometry }
        ensures number { image_end_in version geometry result < 2 ^ 64 }
    {
        match self {
            Half::A => FRONT_SECTORS,
            Half::B => FRONT_SECTORS + geometry.half_sectors_in(version),
        }
    }

    /// The sector of its image's header in version 2.
    pub(crate) fn header_sector(self, geometry: Geometry) -> u64
        ensures { result ≡ header_sector geometry self }
    {
        self.header_sector_in(Version::Two, geometry)
    }

    /// The sector of its transaction heads.
    pub(crate) fn heads_sector(self, geometry: Geometry) -> u64
        ensures { result ≡ heads_sector geometry self }
    {
        self.header_sector(geometry) + HEADER_SECTORS
    }

    /// The first sector of its pages.
    pub(crate) fn pages_first(self, geometry: Geometry) -> u64
        ensures { result ≡ pages_first geometry self }
    {
        self.heads_sector(geometry) + HEADS_SECTORS + UNDO_SECTORS
    }

    /// The first sector of its log in a version, which has the geometry's slots and ends within the store.
    pub(crate) fn log_first_in(self, version: Version, geometry: Geometry) -> u64
        ensures value { result ≡ log_first_in version geometry self }
        ensures inside { result + SLOT_SECTORS * geometry.slots ≤ sectors_in version geometry }
    {
        let undo = self.header_sector_in(version, geometry) + HEADER_SECTORS + HEADS_SECTORS;
        let entries = u64::from(geometry.entries);
        match version {
            Version::One => {
                undo + OLD_UNDO_SECTORS
                    + OLD_PAGE_SECTORS * u64::from(geometry.pages)
                    + entries.div_ceil(OLD_ENTRIES_PER_SECTOR)
            }
            Version::Two => {
                undo + UNDO_SECTORS
                    + PAGE_SECTORS * u64::from(geometry.pages)
                    + entries.div_ceil(ENTRIES_PER_SECTOR)
            }
        }
    }

    /// The first sector of its log in version 2, which has the geometry's slots and ends within the store.
    pub fn log_first(self, geometry: Geometry) -> u64
        ensures value { result ≡ log_first geometry self }
        ensures inside { result + SLOT_SECTORS * geometry.slots ≤ sectors_of geometry }
    {
        self.log_first_in(Version::Two, geometry)
    }
}
