//! Pieces of equal sizes, as many to a sector as fit.
ghost use Rattle.std.specs.Prelude.{◌≡◌, ◌≢◌, ℕ, ◌+◌, ◌*◌, ◌/◌, ◌%◌, ◌^◌, ◌<◌, ◌≤◌, length, OnOk, IfErr};
ghost use Rattle.sector_device.specs.Disk.{sector};
ghost use Rattle.sector_device.specs.DevicePast.{OnlyReads};
ghost use Rattle.record_values.specs.Version.{entries_per_sector};
ghost use Rattle.store_image_parts.specs.Spelling.{item_size, entry_size};
ghost use Rattle.store_image_half.specs.Layout.{cut, sector_of_piece, undo_at, items_per_sector, page_at_in};
ghost use Rattle.store_image_half.specs.Layout.{entries_at_in};
ghost use Rattle.store_image_half.specs.Layout.{image_end_in};
ghost use Rattle.store_image_half.specs.Damage.{IsHindered};

use crate::page::page_at;
use records::{
    CHANGES_MAX, ENTRIES_PER_SECTOR, Error, Geometry, HEADER_SECTORS, HEADS_SECTORS,
    OLD_ENTRIES_PER_SECTOR, TXNS_MAX, Version,
};
use sector_device::{Device, SECTOR_SIZE};

/// Where a piece lies: its sector, and which of the pieces of that sector it is.
#[derive(Clone, Copy)]
pub(crate) struct PiecePlace {
    pub(crate) sector: u64,
    pub(crate) index: usize,
}

/// Where the undo item of a head at a position lies in the image that begins at sector `first`.
pub(crate) fn item_place(version: Version, first: u64, h: u64, position: u8) -> PiecePlace
    requires head { h < TXNS_MAX }
    requires position { position < CHANGES_MAX }
    requires number { page_at_in version first 0 < 2 ^ 64 }
    ensures sector { result.sector ≡ sector_of_piece (undo_at first) (items_per_sector version)
        (CHANGES_MAX * h + position) }
    ensures index { result.index ≡ (CHANGES_MAX * h + position) % items_per_sector version }
    ensures inside { result.sector < page_at_in version first 0 }
    ensures room { item_size version * result.index + item_size version ≤ SECTOR_SIZE }
{
    let at = first + HEADER_SECTORS + HEADS_SECTORS;
    let i = u64::from(CHANGES_MAX) * h + u64::from(position);
    match version {
        Version::One => PiecePlace {
            sector: at + i / 2,
            index: (i % 2) as usize,
        },
        Version::Two => PiecePlace {
            sector: at + i,
            index: 0,
        },
    }
}

/// Where the i-th entry lies in the image that begins at sector `first`.
pub(crate) fn entry_place(version: Version, geometry: Geometry, first: u64, i: u32) -> PiecePlace
    requires entry { i < geometry.entries }
    requires number { image_end_in version geometry first < 2 ^ 64 }
    ensures sector { result.sector ≡ sector_of_piece (entries_at_in version geometry first)
        (entries_per_sector version) i }
    ensures index { result.index ≡ i % entries_per_sector version }
    ensures inside { result.sector < image_end_in version geometry first }
    ensures room { entry_size version * result.index + entry_size version ≤ SECTOR_SIZE }
{
    let at = page_at(version, first, u64::from(geometry.pages));
    let i = u64::from(i);
    match version {
        Version::One => PiecePlace {
            sector: at + i / OLD_ENTRIES_PER_SECTOR,
            index: (i % OLD_ENTRIES_PER_SECTOR) as usize,
        },
        Version::Two => PiecePlace {
            sector: at + i / ENTRIES_PER_SECTOR,
            index: (i % ENTRIES_PER_SECTOR) as usize,
        },
    }
}

/// Reads the sector of a piece, where it begins with that piece. The buffer holds it else.
pub(crate) fn load<D: Device>(
    device: &mut D,
    buffer: &mut [u8; SECTOR_SIZE],
    place: PiecePlace,
) -> Result<(), Error>
    requires inside { place.sector < length (D.past_of device.old).disk.content }
    requires held { 0 < place.index → buffer.old ≡ sector (D.past_of device.old).disk.content place.sector }
    ensures loaded { OnOk result (buffer.new ≡ sector (D.past_of device.old).disk.content place.sector) }
    ensures refused { IfErr result (IsHindered (D.failures device.old) (D.failures device.new)) }
    ensures reads { OnlyReads (D.past_of device.old) (D.past_of device.new) }
    ensures quiet { OnOk result (D.failures device.new ≡ D.failures device.old) }
    ensures told { IfErr result (λ e. e ≢ Error.DeviceFailed → D.failures device.new ≡ D.failures device.old) }
    ensures later { D.failures device.old ≤ D.failures device.new }
{
    if place.index == 0 && device.read(place.sector, buffer).is_err() {
        return Err(Error::DeviceFailed);
    }
    Ok(())
}

/// The j-th piece of this size.
pub(crate) fn piece_in(buffer: &[u8; SECTOR_SIZE], size: usize, j: usize) -> &[u8]
    requires { size * j + size ≤ SECTOR_SIZE }
    ensures piece { result.now ≡ cut buffer.now size j }
    ensures size { length result.now ≡ size }
{
    let start = size * j;
    &buffer[start..start + size]
}

/// The j-th piece of `N` bytes.
pub(crate) fn piece_of<const N: usize>(buffer: &[u8; SECTOR_SIZE], j: usize) -> [u8; N]
    requires some { 0 < N }
    requires inside { j < SECTOR_SIZE / N }
    ensures { result ≡ cut buffer.now N j }
{
    let (pieces, _) = buffer.as_chunks::<N>();
    pieces[j]
}

/// Puts the j-th piece of `N` bytes in its place. Those before it stay.
pub(crate) fn put_piece<const N: usize>(buffer: &mut [u8; SECTOR_SIZE], j: usize, bytes: &[u8; N])
    requires { N * j + N ≤ SECTOR_SIZE }
    ensures put { cut buffer.new N j ≡ bytes.now }
    ensures before { (k : ℕ) → k < j → cut buffer.new N k ≡ cut buffer.old N k }
{
    let start = N * j;
    let end = start + N;
    let all = &mut buffer[..];
    all[start..end].copy_from_slice(bytes);
}
