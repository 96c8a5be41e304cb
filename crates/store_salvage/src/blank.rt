//! Parts are blanked.
ghost use Rattle.std.specs.Prelude.{◌<◌, ◌≤◌, length, OnOk};
ghost use Rattle.sector_device.specs.Disk.{SameOutside};
ghost use Rattle.sector_device.specs.DevicePast.{CountsFailure};
ghost use Rattle.record_values.specs.GeometryValue.{sectors_of};
ghost use Rattle.store_salvage.specs.Salvage.{InPart, IsBlank, IsPartOf};

use crate::part::{Part, gate_of, page_of};
use flip_image::Halves;
use records::{PAGE_SECTORS, SLOT_SECTORS};
use sector_device::{Device, Failed, write_zeros};

// Fills the sectors of a page with zeros.
fn blank_page<D: Device>(device: &mut D, halves: &Halves, page: u32) -> Result<(), Failed>
    requires of { page < halves.now.geometry.pages }
    requires room { sectors_of halves.now.geometry ≤ length (D.past_of device.old).disk.content }
    ensures blank { OnOk result (IsBlank halves.now.geometry halves.now.current (D.past_of device.new).disk.content
        (Part.Page page)) }
    ensures others { SameOutside (InPart halves.now.geometry halves.now.current (Part.Page page))
        (D.past_of device.old).disk.content (D.past_of device.new).disk.content }
    ensures counts { CountsFailure (D.failures device.old) (D.failures device.new) result }
{
    write_zeros(device, page_of(halves, page), 1, PAGE_SECTORS)
}

// Closes the gates of the log, from a slot on.
fn close_from<D: Device>(device: &mut D, halves: &Halves, slot: u32) -> Result<(), Failed>
    requires of { slot < halves.now.geometry.slots }
    requires room { sectors_of halves.now.geometry ≤ length (D.past_of device.old).disk.content }
    ensures blank { OnOk result (IsBlank halves.now.geometry halves.now.current (D.past_of device.new).disk.content
        (Part.Log slot)) }
    ensures others { SameOutside (InPart halves.now.geometry halves.now.current (Part.Log slot))
        (D.past_of device.old).disk.content (D.past_of device.new).disk.content }
    ensures counts { CountsFailure (D.failures device.old) (D.failures device.new) result }
{
    let slots = halves.geometry().slots - slot;
    write_zeros(
        device,
        gate_of(halves, slot),
        SLOT_SECTORS,
        u64::from(slots),
    )
}

/// Blanks a part: its sectors are of zeros then.
pub(crate) fn blank<D: Device>(device: &mut D, halves: &Halves, part: Part) -> Result<(), Failed>
    requires of { IsPartOf halves.now.geometry part }
    requires room { sectors_of halves.now.geometry ≤ length (D.past_of device.old).disk.content }
    ensures blank { OnOk result (IsBlank halves.now.geometry halves.now.current (D.past_of device.new).disk.content
        part) }
    ensures others { SameOutside (InPart halves.now.geometry halves.now.current part)
        (D.past_of device.old).disk.content (D.past_of device.new).disk.content }
    ensures counts { CountsFailure (D.failures device.old) (D.failures device.new) result }
{
    match part {
        Part::Page(page) => blank_page(device, halves, page),
        Part::Log(slot) => close_from(device, halves, slot),
    }
}
