//! The superblock: which format a device has, and for which geometry.
ghost use Rattle.std.specs.Prelude.{◌≡◌, ◌⊎◌, ◌↔◌, ◌≤◌, ◌++◌, true, length, take, drop, All, IsTrue, IfOk, IfErr};
ghost use Rattle.record_values.specs.GeometryValue.{GeometryValue, IsGeometry, is_small};
ghost use Rattle.records.specs.Spelling.{u32, u64};
ghost use Rattle.flip_image.specs.Store.{title, number_of, superblock_in, IsSuperblock, IsSuperblockIn, HasOlderNumber};
ghost use Rattle.flip_image.specs.Store.{CanBeIn};
ghost use Rattle.flip_image.specs.Steps.{IsOlderNumber};
ghost use Rattle.record_values.specs.declared.version.Version.TheVariants.{Two};

use byteorder::{BigEndian, ByteOrder};
use records::{Error, Geometry, Version};
use sector_device::{SECTOR_SIZE, are_zeros};

/// The sector of the superblock (the format document, "Device").
pub const SUPERBLOCK_SECTOR: u64 = 0;

/// The version of the format that is written, for a small store.
pub const VERSION: u32 = 2;

/// The version that a store has which isn't small: version 2 but for this number.
pub const LARGE_VERSION: u32 = 3;

/// The version before it, which is only read.
pub const OLD_VERSION: u32 = 1;

/// The bytes of the title.
pub(crate) const TITLE_SIZE: usize = 8;

/// The bytes of a superblock that are not zero: the title, and four numbers of four bytes.
pub(crate) const SUPERBLOCK_SIZE: usize = TITLE_SIZE + 16;

// The title, the text "NSFINDEX", as a number of eight bytes.
const TITLE: u64 = 0x4E53_4649_4E44_4558;

// Writes two numbers at the front.
#[tactic(auto, unfolding(records::specs::Spelling::u32))]
fn write_pair(bytes: &mut [u8], first: u32, second: u32)
    requires { 8 ≤ length bytes.old }
    ensures { bytes.new ≡ u32 first ++ (u32 second ++ drop 8 bytes.old) }
{
    BigEndian::write_u32(bytes, first);
    BigEndian::write_u32(&mut bytes[4..], second);
}

// Writes the version and the geometry at the front.
fn write_numbers(bytes: &mut [u8], version: u32, geometry: Geometry)
    requires { 16 ≤ length bytes.old }
    ensures { bytes.new ≡ u32 version ++ (u32 geometry.pages
        ++ (u32 geometry.entries ++ (u32 geometry.slots ++ drop 16 bytes.old))) }
{
    write_pair(bytes, version, geometry.pages);
    write_pair(&mut bytes[8..], geometry.entries, geometry.slots);
}

// Writes the title, the version and the geometry at the front.
#[tactic(auto, unfolding(records::specs::Spelling::u64))]
fn write_front(bytes: &mut [u8], geometry: Geometry)
    requires { SUPERBLOCK_SIZE ≤ length bytes.old }
    ensures { bytes.new ≡ superblock_in Two geometry ++ drop SUPERBLOCK_SIZE bytes.old }
{
    BigEndian::write_u64(bytes, TITLE);
    let version = number_of(Version::Two, geometry);
    write_numbers(&mut bytes[TITLE_SIZE..], version, geometry);
}

/// The superblock of a store of this geometry.
pub(crate) fn superblock(geometry: Geometry) -> [u8; SECTOR_SIZE]
    ensures { IsSuperblock geometry result }
{
    let mut bytes = [0; SECTOR_SIZE];
    write_front(&mut bytes, geometry);
    bytes
}

// The title, and four numbers, at the front.
fn read_front(bytes: &[u8]) -> (u64, u32, u32, u32, u32)
    requires { SUPERBLOCK_SIZE ≤ length bytes.now }
    ensures { bytes.now ≡ u64 result.0 ++ (u32 result.1
        ++ (u32 result.2 ++ (u32 result.3 ++ (u32 result.4 ++ drop SUPERBLOCK_SIZE bytes.now)))) }
{
    let (_, behind) = bytes.split_at(TITLE_SIZE);
    let (_, second) = behind.split_at(4);
    let (_, third) = second.split_at(4);
    let (_, fourth) = third.split_at(4);
    (
        BigEndian::read_u64(bytes),
        BigEndian::read_u32(behind),
        BigEndian::read_u32(second),
        BigEndian::read_u32(third),
        BigEndian::read_u32(fourth),
    )
}

// The number of a version in the superblock of a store of this geometry.
fn number_of(version: Version, geometry: Geometry) -> u32
    ensures { result ≡ number_of version geometry }
{
    match version {
        Version::One => OLD_VERSION,
        Version::Two if geometry.is_small() => VERSION,
        Version::Two => LARGE_VERSION,
    }
}

// Whether the version has stores of this geometry.
fn can_be_in(version: Version, geometry: Geometry) -> bool
    ensures { IsTrue result ↔ CanBeIn version geometry }
{
    match version {
        Version::One => geometry.is_small(),
        Version::Two => true,
    }
}

// Whether it is the number of this version for a geometry that it has, with nothing but zeros behind the numbers.
fn is_supported(version: Version, number: u32, geometry: Geometry, rest: &[u8]) -> bool
    ensures { IsTrue result ↔ (((number ≡ number_of version geometry) × CanBeIn version geometry)
        × All (λ b. b ≡ 0) rest.now) }
{
    number == number_of(version, geometry) && can_be_in(version, geometry) && are_zeros(rest)
}

// Whether it is the number of an older version.
fn is_older(version: Version, number: u32) -> bool
    ensures { IsTrue result ↔ IsOlderNumber version number }
{
    match version {
        Version::One => false,
        Version::Two => number == OLD_VERSION,
    }
}

/// The geometry of the store of a version with this superblock. `NotFormatted` where the bytes have another title,
/// `OldVersion` where an older version stands behind it, whatever follows, and `Damaged` where they have the title but
/// are no superblock.
pub(crate) fn geometry_of(version: Version, bytes: &[u8]) -> Result<Geometry, Error>
    requires { length bytes.now ≡ SECTOR_SIZE }
    ensures ok { IfOk result (λ geometry. IsSuperblockIn version geometry bytes.now) }
    ensures err { IfErr result (λ e. ((e ≡ Error.NotFormatted) × (¬ (take TITLE_SIZE bytes.now ≡ title)))
        ⊎ (((e ≡ Error.OldVersion) × (take TITLE_SIZE bytes.now ≡ title) × HasOlderNumber version bytes.now)
        ⊎ ((e ≡ Error.Damaged SUPERBLOCK_SECTOR) × (take TITLE_SIZE bytes.now ≡ title)
        × (¬ HasOlderNumber version bytes.now)
        × ((g : GeometryValue) → IsGeometry g → ¬ IsSuperblockIn version g bytes.now)))) }
{
    let (title, number, pages, entries, slots) = read_front(bytes);
    if title != TITLE {
        return Err(Error::NotFormatted);
    }
    if is_older(version, number) {
        return Err(Error::OldVersion);
    }
    let (_, rest) = bytes.split_at(SUPERBLOCK_SIZE);
    let damaged = Error::Damaged {
        sector: SUPERBLOCK_SECTOR,
    };
    let Ok(geometry) = Geometry::large(pages, entries, slots) else {
        return Err(damaged);
    };
    if !is_supported(version, number, geometry, rest) {
        return Err(damaged);
    }
    Ok(geometry)
}
