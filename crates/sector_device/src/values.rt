//! Sectors of a known value: of zeros, or with a mark in front.
ghost use Rattle.std.specs.Prelude.{◌≡◌, ◌⊎◌, ◌↔◌, ◌+◌, ◌*◌, ◌^◌, ◌≤◌, ◌<◌, ℕ, true, length, slice_index, All, IsTrue};
ghost use Rattle.std.specs.Prelude.{OnOk};
ghost use Rattle.sector_device.specs.Disk.{SameOutside};
ghost use Rattle.sector_device.specs.DevicePast.{RunsWithin, CountsFailure};
ghost use Rattle.sector_device.specs.Values.{zero_sector, marked_sector, IsMarked, InRow, AreZeroSectors};

use crate::{Device, Failed, SECTOR_SIZE};

/// The first byte of a marked sector: of a gate that is open, or of a flip sector that names half B.
pub const MARK: u8 = 0xA5;

/// A sector of zeros.
pub fn zero_sector() -> [u8; SECTOR_SIZE]
    ensures { result ≡ zero_sector }
{
    [0; SECTOR_SIZE]
}

/// The mark, and zeros behind it.
pub fn marked_sector() -> [u8; SECTOR_SIZE]
    ensures { result ≡ marked_sector }
{
    let mut bytes = [0; SECTOR_SIZE];
    bytes[0] = MARK;
    bytes
}

/// Whether the sector is marked, which its first byte alone says.
pub fn is_marked(bytes: &[u8; SECTOR_SIZE]) -> bool
    ensures { IsTrue result ↔ IsMarked bytes.now }
{
    bytes[0] == MARK
}

/// Whether all bytes are zero.
pub fn are_zeros(bytes: &[u8]) -> bool
    ensures { IsTrue result ↔ All (λ b. b ≡ 0) bytes.now }
{
    bytes.iter().all(|byte| *byte == 0)
}

/// Fills sectors with zeros, without a sync: this many, from the first on, each `step` sectors behind the one before.
/// Until a sync they may hold anything.
pub fn write_zeros<D: Device>(
    device: &mut D,
    first: u64,
    step: u64,
    count: u64,
) -> Result<(), Failed>
    requires step { 0 < step }
    requires inside { first + step * count ≤ length (D.past_of device.old).disk.content }
    requires number { first + step * count < 2 ^ 64 }
    ensures zeros { OnOk result (AreZeroSectors (D.past_of device.new).disk.content first step count) }
    ensures outside { SameOutside (InRow first step count) (D.past_of device.old).disk.content
        (D.past_of device.new).disk.content }
    ensures within { RunsWithin (λ n. InRow first step count n ⊎ ((D.past_of device.old).disk.unsynced n ≡ true))
        (D.past_of device.old).disk.content (D.past_of device.old) (D.past_of device.new) }
    ensures counts { CountsFailure (D.failures device.old) (D.failures device.new) result }
{
    let zeros = zero_sector();
    for i in 0..count {
        device.write(first + step * i, &zeros)?;
    }
    Ok(())
}
