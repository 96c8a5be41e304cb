//! The entries of an index are left out.
ghost use Rattle.std.specs.Prelude.{◌≡◌, ◌⊎◌, ◌<◌, ◌≤◌, length, IfErr, IfOk, OnOk};
ghost use Rattle.sector_device.specs.Disk.{sector};
ghost use Rattle.sector_device.specs.DevicePast.{OnlyReads};
ghost use Rattle.record_values.specs.GeometryValue.{sectors_of};
ghost use Rattle.store_image_half.specs.Image.{IsHeader};
ghost use Rattle.gate_log.specs.Area.{Refuses};
ghost use Rattle.store_image_parts.specs.declared.header.Header.{Header};
ghost use Rattle.flip_image.specs.Layout.{header_sector};
ghost use Rattle.store_salvage.specs.Salvage.{HasNoHeader, IsUnindexed};

use flip_image::Halves;
use records::{Error, Geometry, Version};
use sector_device::{Device, zero_sector};
use store_image_half::{Header, header_in, write_header};

// What the header in a sector says. `Damaged` with the sector where it says nothing.
fn header_at<D: Device>(device: &mut D, geometry: Geometry, first: u64) -> Result<Header, Error>
    requires inside { first < length (D.past_of device.old).disk.content }
    ensures said { IfOk result (IsHeader geometry (sector (D.past_of device.old).disk.content first)) }
    ensures refused { IfErr result (λ e. Refuses (D.failures device.old) (D.failures device.new) e
        ⊎ ((e ≡ Error.Damaged first)
        × ((h : Header) → ¬ IsHeader geometry (sector (D.past_of device.old).disk.content first) h))) }
    ensures reads { OnlyReads (D.past_of device.old) (D.past_of device.new) }
    ensures quiet { OnOk result (D.failures device.new ≡ D.failures device.old) }
{
    let mut bytes = zero_sector();
    if device.read(first, &mut bytes).is_err() {
        return Err(Error::DeviceFailed);
    }
    header_in(Version::Two, geometry, &bytes).ok_or(Error::Damaged { sector: first })
}

/// Writes the header of the current half's image anew, without entries. `Damaged` with its sector where that says
/// nothing.
pub(crate) fn leave_entries<D: Device>(device: &mut D, halves: &Halves) -> Result<(), Error>
    requires room { sectors_of halves.now.geometry ≤ length (D.past_of device.old).disk.content }
    ensures done { OnOk result (IsUnindexed halves.now.geometry halves.now.current (D.past_of device.old).disk.content
        (D.past_of device.new).disk.content) }
    ensures refused { IfErr result (λ e. Refuses (D.failures device.old) (D.failures device.new) e
        ⊎ ((e ≡ Error.Damaged (header_sector halves.now.geometry halves.now.current))
        × HasNoHeader halves.now.geometry halves.now.current (D.past_of device.old).disk.content)) }
    ensures quiet { OnOk result (D.failures device.new ≡ D.failures device.old) }
{
    let first = halves.header_sector_in(Version::Two);
    let found = header_at(device, halves.geometry(), first)?;
    let header = Header {
        life: found.life,
        base: found.base,
        entries: 0,
    };
    if write_header(device, halves.geometry(), first, &header).is_err() {
        return Err(Error::DeviceFailed);
    }
    Ok(())
}
