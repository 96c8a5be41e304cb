//! A page of an image that is written part by part.
ghost use Rattle.std.specs.Prelude.{◌≡◌, ◌⊎◌, ◌≤◌, ◌<◌, true, length, OnOk};
ghost use Rattle.sector_device.specs.Disk.{sector, SameOutside};
ghost use Rattle.sector_device.specs.DevicePast.{RunsWithin, CountsFailure};
ghost use Rattle.record_values.specs.GeometryValue.{sectors_of};
ghost use Rattle.store_image_half.specs.Layout.{InPage};
ghost use Rattle.store_image_half.specs.Part.{HasPage};
ghost use Rattle.flip_image.specs.Layout.{other, header_sector, InHalfImage};
ghost use Rattle.flip_image.specs.Store.{Names};
ghost use Rattle.flip_image.specs.declared.half.TheConstants.{FLIP_SECTOR};

use flip_image::Halves;
use model::ROWS_PER_PAGE;
use sector_device::{Device, Failed};
use std::alloc::Allocator;
use store_image_model::PageRows;

/// Writes a page of the image in the half that isn't current, with the rows that this table has there.
pub(crate) fn write_rows<D: Device, A: Allocator>(
    device: &mut D,
    halves: Halves,
    page: u32,
    rows: &PageRows<A>,
) -> Result<(), Failed>
    requires inside { sectors_of halves.geometry ≤ length (D.past_of device.old).disk.content }
    requires current { Names (sector (D.past_of device.old).disk.content FLIP_SECTOR) halves.current }
    requires page { page < halves.geometry.pages }
    ensures written { OnOk result (HasPage (header_sector halves.geometry (other halves.current))
        (D.past_of device.new).disk.content page rows.now) }
    ensures outside { SameOutside (InPage (header_sector halves.geometry (other halves.current)) page)
        (D.past_of device.old).disk.content (D.past_of device.new).disk.content }
    ensures within { RunsWithin (λ n. InHalfImage halves.geometry (other halves.current) n
        ⊎ ((D.past_of device.old).disk.unsynced n ≡ true)) (D.past_of device.old).disk.content (D.past_of device.old)
        (D.past_of device.new) }
    ensures counts { CountsFailure (D.failures device.old) (D.failures device.new) result }
{
    match rows.page(page) {
        Some(slots) => halves.write_page(device, page, slots),
        None => halves.write_page(device, page, &[None; ROWS_PER_PAGE]),
    }
}
