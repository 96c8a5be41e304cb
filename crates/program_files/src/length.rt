//! The length of a disk is compared with that of its store.
ghost use Rattle.std.specs.Prelude.{◌≡◌, ◌⊎◌, ◌<◌, ◌≤◌, length, Some, IfErr, IfSome, OnOk};
ghost use Rattle.record_values.specs.GeometryValue.{GeometryValue, sectors_of};
ghost use Rattle.sector_device.specs.DevicePast.{OnlyReads, Rises};
ghost use Rattle.flip_image.specs.Store.{IsStore};
ghost use Rattle.flip_image.specs.declared.half.Half.{Half};
ghost use Rattle.program_files.specs.Lengths.{IsLonger, IsNeeded};

use crate::refused::Refused;
use flip_image::Halves;
use records::{Error, Version};
use sector_device::Device;

// How many sectors the store of version 1 on the disk needs, if there is one.
fn sectors_of_old<D: Device>(disk: &mut D) -> Option<u64>
    ensures needed { IfSome result (IsNeeded (D.past_of disk.old).disk.content) }
    ensures reads { OnlyReads (D.past_of disk.old) (D.past_of disk.new) }
{
    match Halves::open_in(Version::One, disk) {
        Ok(halves) => Some(halves.geometry().sectors_in(Version::One)),
        Err(_) => None,
    }
}

// How many sectors the store on the disk needs, of whatever version, if there is one.
fn sectors_needed<D: Device>(disk: &mut D) -> Option<u64>
    ensures needed { IfSome result (IsNeeded (D.past_of disk.old).disk.content) }
    ensures newer { (g : GeometryValue) (half : Half) → IsStore g half (D.past_of disk.old).disk.content
        → (result ≡ Some (sectors_of g)) ⊎ Rises (D.failures disk.old) (D.failures disk.new) }
    ensures reads { OnlyReads (D.past_of disk.old) (D.past_of disk.new) }
{
    match Halves::open(disk) {
        Ok(halves) => Some(halves.geometry().sectors()),
        Err(Error::OldVersion) => sectors_of_old(disk),
        Err(_) => None,
    }
}

/// Refused where a store is on the disk that needs fewer sectors than there are (`longer`): so its size may be damaged.
/// Else a store of version 2 or 3 has just its length, unless the device failed (`fits`). The disk is only read
/// (`reads`).
pub fn refuse_longer<D: Device>(disk: &mut D) -> Result<(), Refused>
    ensures fits { OnOk result ((g : GeometryValue) (half : Half) → IsStore g half (D.past_of disk.old).disk.content
        → (length (D.past_of disk.old).disk.content ≤ sectors_of g)
        ⊎ Rises (D.failures disk.old) (D.failures disk.new)) }
    ensures longer { IfErr result (IsLonger (D.past_of disk.old).disk.content) }
    ensures reads { OnlyReads (D.past_of disk.old) (D.past_of disk.new) }
{
    let sectors = disk.sectors();
    match sectors_needed(disk) {
        Some(needed) if needed < sectors => Err(Refused::Longer { sectors, needed }),
        _ => Ok(()),
    }
}
