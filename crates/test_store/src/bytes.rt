//! Bytes of sectors.
use sector_device::SECTOR_SIZE;

/// A sector, a place in it, and what is written there.
pub type Edit<'a> = (u64, usize, &'a [u8]);

/// The group of the format document's example, in which transaction 1 inserts a row and commits.
pub const GROUP: &[u8] = b"\0\x02\0\x31\
    \0\0\0\0\0\0\0\x01\0\0\0\0\0\0\0\x01\x01\0\0\0\0\0\0\0\0\x01\x03\x61\x6e\x74\x01\x78\
    \0\0\0\0\0\0\0\x02\0\0\0\0\0\0\0\x01\x07";

/// The superblock of the least store of version 1.
pub const SUPERBLOCK_1: Edit<'_> = (0, 0, b"NSFINDEX\0\0\0\x01\0\0\0\x01\0\0\0\x40\0\0\0\x04");

/// The least store of version 1, as record 6 left it: a row, and an index that is built up to its pair, behind a marked
/// entry.
pub const BUILDING_1: &[Edit<'_>] = &[
    SUPERBLOCK_1,
    (2, 0, b"\x01\x01\x03ant"),
    (2, 40, b"\x06\0\0\0\x02"),
    (516, 64, b"\x01\x03ant"),
    (516, 90, b"\x01x"),
    (524, 0, b"\x01a"),
    (524, 30, b"\x01\x02"),
    (524, 32, b"\x03ant"),
    (524, 63, b"\x01"),
];

/// Writes bytes into a sector from this place on, as far as it goes.
pub fn write_at(sector: &mut [u8; SECTOR_SIZE], at: usize, bytes: &[u8]) {
    for n in 0..bytes.len() {
        let place = at.saturating_add(n);
        if place < SECTOR_SIZE {
            sector[place] = bytes[n];
        }
    }
}

/// The sector of this number, where all is zeros but for these bytes.
pub fn sector_with(edits: &[Edit<'_>], n: u64) -> [u8; SECTOR_SIZE] {
    let mut sector = [0; SECTOR_SIZE];
    for (number, at, bytes) in edits {
        if *number == n {
            write_at(&mut sector, *at, bytes);
        }
    }
    sector
}
