//! The flip sector: which half is current.
ghost use Rattle.std.specs.Prelude.{◌≡◌, ◌≤◌, length, OnOk};
ghost use Rattle.sector_device.specs.Disk.{sector, IsSynced, SameOutside};
ghost use Rattle.sector_device.specs.DevicePast.{LeavesOnly, CountsFailure};
ghost use Rattle.flip_image.specs.Store.{Names, IsFlipping, flip_sector};

use crate::half::{FLIP_SECTOR, Half};
use records::FRONT_SECTORS;
use sector_device::{Device, Failed, SECTOR_SIZE, marked_sector, zero_sector};

/// Syncs, names this half current, and syncs.
pub(crate) fn write_flip_sector<D: Device>(device: &mut D, to: Half) -> Result<(), Failed>
    requires { FRONT_SECTORS ≤ length (D.past_of device.old).disk.content }
    ensures sector { OnOk result (sector (D.past_of device.new).disk.content FLIP_SECTOR ≡ flip_sector to) }
    ensures named { OnOk result (Names (sector (D.past_of device.new).disk.content FLIP_SECTOR) to) }
    ensures synced { OnOk result (IsSynced (D.past_of device.new).disk) }
    ensures outside { SameOutside (λ n. n ≡ FLIP_SECTOR) (D.past_of device.old).disk.content
        (D.past_of device.new).disk.content }
    ensures any_moment { LeavesOnly (D.past_of device.old) (D.past_of device.new)
        (IsFlipping (D.past_of device.old).disk) }
    ensures counts { CountsFailure (D.failures device.old) (D.failures device.new) result }
{
    let bytes = flip_sector(to);
    device.sync()?;
    device.write(FLIP_SECTOR, &bytes)?;
    device.sync()
}

// The flip sector that names this half.
fn flip_sector(to: Half) -> [u8; SECTOR_SIZE]
    ensures is { result ≡ flip_sector to }
    ensures named { Names result to }
{
    match to {
        Half::A => zero_sector(),
        Half::B => marked_sector(),
    }
}
