//! The bytes of a page: how they are read, and how they are made of its rows.
ghost use Rattle.std.specs.Prelude.{◌≡◌, ◌≢◌, ℕ, ◌+◌, ◌*◌, ◌^◌, ◌<◌, ◌≤◌, Option, Some, length, slice_get, OnOk, IfOk};
ghost use Rattle.std.specs.Prelude.{IfErr};
ghost use Rattle.sector_device.specs.DevicePast.{OnlyReads};
ghost use Rattle.record_values.specs.declared.version.Version.TheVariants.{Two};
ghost use Rattle.record_values.specs.declared.row.Row.{Row};
ghost use Rattle.store_image_half.specs.Layout.{page_at_in, bytes_of, row_of};
ghost use Rattle.store_image_half.specs.Image.{HasEdges, IsRow};
ghost use Rattle.store_image_half.specs.Damage.{IsHindered};
ghost use Rattle.store_image_half.specs.Steps.{AreRowsNone};

use crate::parts::EDGE_SIZE;
use records::{
    Error, HEADER_SECTORS, HEADS_SECTORS, OLD_PAGE_SECTORS, OLD_UNDO_SECTORS, PAGE_SECTORS, Row,
    SLOTS_PER_PAGE, UNDO_SECTORS, Version,
};
use sector_device::{Device, SECTOR_SIZE, zero_sector};
use std::alloc::Allocator;
use store_image_parts::{ROW_SIZE, spell_row};

/// The bytes of a page.
pub(crate) const PAGE_SIZE: usize = SECTOR_SIZE * PAGE_SECTORS as usize;

/// The first sector of a page of the image that begins at sector `first`.
pub(crate) fn page_at(version: Version, first: u64, page: u64) -> u64
    requires { page_at_in version first page < 2 ^ 64 }
    ensures { result ≡ page_at_in version first page }
{
    let front = first + HEADER_SECTORS + HEADS_SECTORS;
    match version {
        Version::One => front + OLD_UNDO_SECTORS + OLD_PAGE_SECTORS * page,
        Version::Two => front + UNDO_SECTORS + PAGE_SECTORS * page,
    }
}

/// The bytes of the page that begins at sector `at`, of so many sectors.
pub(crate) fn read_bytes<D: Device, A: Allocator>(
    alloc: A,
    device: &mut D,
    at: u64,
    sectors: u64,
) -> Result<Vec<u8, A>, Error>
    requires few { sectors ≤ PAGE_SECTORS }
    requires inside { at + sectors ≤ length (D.past_of device.old).disk.content }
    requires number { at + sectors < 2 ^ 64 }
    ensures value { IfOk result (λ bytes. bytes.items ≡ bytes_of (D.past_of device.old).disk.content at sectors) }
    ensures size { IfOk result (λ bytes. length bytes.items ≡ SECTOR_SIZE * sectors) }
    ensures refused { IfErr result (IsHindered (D.failures device.old) (D.failures device.new)) }
    ensures reads { OnlyReads (D.past_of device.old) (D.past_of device.new) }
    ensures quiet { OnOk result (D.failures device.new ≡ D.failures device.old) }
    ensures told { IfErr result (λ e. e ≢ Error.DeviceFailed → D.failures device.new ≡ D.failures device.old) }
    ensures later { D.failures device.old ≤ D.failures device.new }
{
    let mut bytes = Vec::with_capacity(alloc, SECTOR_SIZE * sectors as usize)?;
    let mut sector = zero_sector();
    for k in 0..sectors {
        if device.read(at + k, &mut sector).is_err() {
            return Err(Error::DeviceFailed);
        }
        bytes.extend_from_slice(&sector)?;
    }
    Ok(bytes)
}

// Puts the row of a slot in its place. The other rows stay, and the zeros around the rows.
fn put_row(page: &mut [u8; PAGE_SIZE], slot: usize, row: &[u8; ROW_SIZE])
    requires { slot < SLOTS_PER_PAGE }
    ensures put { row_of Two page.new slot ≡ row.now }
    ensures before { (k : ℕ) → k < slot → row_of Two page.new k ≡ row_of Two page.old k }
    ensures behind { (k : ℕ) → slot < k → row_of Two page.new k ≡ row_of Two page.old k }
    ensures edges { HasEdges Two page.old → HasEdges Two page.new }
{
    let start = EDGE_SIZE + ROW_SIZE * slot;
    let end = start + ROW_SIZE;
    let all = &mut page[..];
    all[start..end].copy_from_slice(row);
}

/// The bytes of a page without rows.
pub(crate) fn zero_page() -> [u8; PAGE_SIZE]
    ensures edges { HasEdges Two result }
    ensures rows { AreRowsNone result }
{
    [0; PAGE_SIZE]
}

/// Puts these rows into the slots of a page without rows. The zeros around them stay.
pub(crate) fn put_rows(page: &mut [u8; PAGE_SIZE], rows: &[Option<Row>])
    requires count { length rows.now ≡ SLOTS_PER_PAGE }
    requires none { AreRowsNone page.old }
    ensures edges { HasEdges Two page.old → HasEdges Two page.new }
    ensures rows { (slot : ℕ) (o : Option Row) → slice_get rows.now slot ≡ Some o → IsRow (row_of Two page.new slot) o }
{
    for (slot, row) in rows.iter().enumerate() {
        if row.is_none() {
            continue;
        }
        put_row(page, slot, &spell_row(row));
    }
}
