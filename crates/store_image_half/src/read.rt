//! An image is read.
ghost use Rattle.std.specs.Prelude.{◌≡◌, ◌≢◌, ◌⊎◌, ◌+◌, ◌*◌, ◌^◌, ◌≤◌, ◌<◌, ℕ, List, length, slice_get, Some, None};
ghost use Rattle.std.specs.Prelude.{OnOk, IfOk, IfErr};
ghost use Rattle.std.specs.FinMap as finite;
ghost use Rattle.sector_device.specs.Disk.{sector};
ghost use Rattle.sector_device.specs.DevicePast.{OnlyReads};
ghost use Rattle.record_values.specs.Maps.{set_at};
ghost use Rattle.record_values.specs.declared.txn.TheConstants.{TXNS_MAX};
ghost use Rattle.records.specs.declared.change.TheConstants.{CHANGES_MAX};
ghost use Rattle.store_image_half.specs.Layout.{heads_at, page_at_in, entries_at_in, image_end_in};
ghost use Rattle.store_image_half.specs.Image.{IsHeaderIn, AreHeads, IsImageIn, HoldsListIn, no_cells};
ghost use Rattle.store_image_half.specs.Damage.{SaysSomethingIn, TheHeader, TheHeads, IsHindered, IsUnreadIn};
ghost use Rattle.store_image_half.specs.Steps.{HoldsLists, HoldsPages, HoldsEntries, IsItemRefused, AreListsRefused};
ghost use Rattle.store_image_half.specs.Steps.{IsPageRefused, ArePagesRefused, AreEntriesRefused};
ghost use Rattle.model.specs.Extended.{table_of};

use crate::page::{page_at, read_bytes};
use crate::parts::{entry_in, has_edges, header_in, heads_in, is_above, item_in, row_in};
use crate::pieces::{entry_place, item_place, load, piece_in};
use crate::sink::CellSink;
use model::ROWS_PER_PAGE;
use records::{
    CHANGES_MAX, Change, Error, Geometry, HEADER_SECTORS, Rid, Row, SLOTS_PER_PAGE, Version,
};
use sector_device::{Device, zero_sector};
use std::alloc::{AllocError, Allocator};
use store_image_parts::{Head, Header, entry_size, item_size};

// What the header says.
fn read_header<D: Device>(
    version: Version,
    device: &mut D,
    geometry: Geometry,
    first: u64,
) -> Result<Header, Error>
    requires inside { first < length (D.past_of device.old).disk.content }
    ensures found { IfOk result (IsHeaderIn version geometry (sector (D.past_of device.old).disk.content first)) }
    ensures refused { IfErr result (λ e. IsHindered (D.failures device.old) (D.failures device.new) e
        ⊎ ((e ≡ Error.Damaged first) × (¬ SaysSomethingIn version geometry first
        (D.past_of device.old).disk.content TheHeader))) }
    ensures reads { OnlyReads (D.past_of device.old) (D.past_of device.new) }
    ensures quiet { OnOk result (D.failures device.new ≡ D.failures device.old) }
    ensures told { IfErr result (λ e. e ≢ Error.DeviceFailed → D.failures device.new ≡ D.failures device.old) }
    ensures no_memory { IfErr result (λ e. e ≢ Error.NoMemory) }
    ensures later { D.failures device.old ≤ D.failures device.new }
{
    let mut bytes = zero_sector();
    if device.read(first, &mut bytes).is_err() {
        return Err(Error::DeviceFailed);
    }
    header_in(version, geometry, &bytes).ok_or(Error::Damaged { sector: first })
}

// The transaction heads that are used.
fn read_heads<D: Device, A: Allocator + Copy>(
    alloc: A,
    version: Version,
    device: &mut D,
    geometry: Geometry,
    first: u64,
) -> Result<Vec<Head, A>, Error>
    requires inside { heads_at first < length (D.past_of device.old).disk.content }
    requires number { heads_at first < 2 ^ 64 }
    ensures found { IfOk result (λ heads.
        AreHeads (sector (D.past_of device.old).disk.content (heads_at first)) heads.items) }
    ensures refused { IfErr result (λ e. IsHindered (D.failures device.old) (D.failures device.new) e
        ⊎ ((e ≡ Error.Damaged (heads_at first))
        × (¬ SaysSomethingIn version geometry first (D.past_of device.old).disk.content TheHeads))) }
    ensures reads { OnlyReads (D.past_of device.old) (D.past_of device.new) }
    ensures quiet { OnOk result (D.failures device.new ≡ D.failures device.old) }
    ensures told { IfErr result (λ e. e ≢ Error.DeviceFailed → D.failures device.new ≡ D.failures device.old) }
    ensures later { D.failures device.old ≤ D.failures device.new }
{
    let at = first + HEADER_SECTORS;
    let mut bytes = zero_sector();
    if device.read(at, &mut bytes).is_err() {
        return Err(Error::DeviceFailed);
    }
    heads_in(alloc, &bytes)?.ok_or(Error::Damaged { sector: at })
}

// The first `count` changes of head h.
fn read_list<D: Device, A: Allocator + Copy>(
    alloc: A,
    version: Version,
    device: &mut D,
    geometry: Geometry,
    first: u64,
    h: u64,
    count: u8,
) -> Result<Vec<Change, A>, Error>
    requires head { h < TXNS_MAX }
    requires count { count ≤ CHANGES_MAX }
    requires inside { page_at_in version first 0 ≤ length (D.past_of device.old).disk.content }
    requires number { page_at_in version first 0 < 2 ^ 64 }
    ensures count { IfOk result (λ changes. length changes.items ≡ count) }
    ensures held { IfOk result (λ changes. HoldsListIn version geometry first
        (D.past_of device.old).disk.content h changes.items) }
    ensures refused { IfErr result (IsItemRefused version geometry first (D.past_of device.old).disk.content h count
        (D.failures device.old) (D.failures device.new)) }
    ensures reads { OnlyReads (D.past_of device.old) (D.past_of device.new) }
    ensures quiet { OnOk result (D.failures device.new ≡ D.failures device.old) }
    ensures told { IfErr result (λ e. e ≢ Error.DeviceFailed → D.failures device.new ≡ D.failures device.old) }
    ensures later { D.failures device.old ≤ D.failures device.new }
{
    let mut buffer = zero_sector();
    let mut changes = Vec::with_capacity(alloc, usize::from(count))?;
    for position in 0..count {
        let place = item_place(version, first, h, position);
        load(device, &mut buffer, place)?;
        let bytes = piece_in(&buffer, item_size(version), place.index);
        let Some(item) = item_in(version, geometry, bytes) else {
            return Err(Error::Damaged {
                sector: place.sector,
            });
        };
        changes.push(Change {
            position,
            rid: item.rid,
            rows: item.rows,
        })?;
    }
    Ok(changes)
}

// Reads the lists of these heads into the sink.
fn read_lists<D: Device, S: CellSink, A: Allocator + Copy>(
    alloc: A,
    version: Version,
    device: &mut D,
    geometry: Geometry,
    first: u64,
    heads: &[Head],
    sink: &mut S,
) -> Result<(), Error>
    requires heads { AreHeads (sector (D.past_of device.old).disk.content (heads_at first)) heads.now }
    requires empty { (S.cells sink.old).pending ≡ finite.empty }
    requires inside { page_at_in version first 0 ≤ length (D.past_of device.old).disk.content }
    requires number { page_at_in version first 0 < 2 ^ 64 }
    ensures held { OnOk result (HoldsLists version geometry first (D.past_of device.old).disk.content heads.now
        (S.cells sink.new).pending) }
    ensures rest { OnOk result (S.cells sink.new ≡ record (S.cells sink.old) { pending = (S.cells sink.new).pending }) }
    ensures refused { IfErr result (AreListsRefused version geometry first (D.past_of device.old).disk.content heads.now
        (D.failures device.old) (D.failures device.new)) }
    ensures reads { OnlyReads (D.past_of device.old) (D.past_of device.new) }
    ensures quiet { OnOk result (D.failures device.new ≡ D.failures device.old) }
    ensures told { IfErr result (λ e. e ≢ Error.DeviceFailed → D.failures device.new ≡ D.failures device.old) }
    ensures later { D.failures device.old ≤ D.failures device.new }
{
    for (h, head) in heads.iter().enumerate() {
        let changes = read_list(
            alloc,
            version,
            device,
            geometry,
            first,
            h as u64,
            head.changes,
        )?;
        sink.set_list(head.txn, &changes)?;
    }
    Ok(())
}

// Adds the row at a place that has none yet, where there is one.
fn add_row<A: Allocator>(
    rows: &mut Vec<(Rid, Row), A>,
    rid: Rid,
    found: Option<Row>,
) -> Result<(), AllocError>
    requires { finite.get (table_of rows.old.items) rid ≡ None }
    ensures { OnOk result (table_of rows.new.items ≡ set_at (table_of rows.old.items) rid found) }
{
    match found {
        None => Ok(()),
        Some(row) => {
            rows.push((rid, row))?;
            Ok(())
        }
    }
}

// Adds the rows of a page to those of the pages before it.
fn read_page<D: Device, A: Allocator + Copy>(
    alloc: A,
    version: Version,
    device: &mut D,
    geometry: Geometry,
    first: u64,
    page: u32,
    rows: &mut Vec<(Rid, Row), A>,
) -> Result<(), Error>
    requires page { page < geometry.pages }
    requires inside { entries_at_in version geometry first ≤ length (D.past_of device.old).disk.content }
    requires number { entries_at_in version geometry first < 2 ^ 64 }
    requires held { HoldsPages version geometry first (D.past_of device.old).disk.content page
        (table_of rows.old.items) }
    ensures held { OnOk result (HoldsPages version geometry first (D.past_of device.old).disk.content (page + 1)
        (table_of rows.new.items)) }
    ensures refused { IfErr result (IsPageRefused version geometry first (D.past_of device.old).disk.content page
        (D.failures device.old) (D.failures device.new)) }
    ensures reads { OnlyReads (D.past_of device.old) (D.past_of device.new) }
    ensures quiet { OnOk result (D.failures device.new ≡ D.failures device.old) }
    ensures told { IfErr result (λ e. e ≢ Error.DeviceFailed → D.failures device.new ≡ D.failures device.old) }
    ensures later { D.failures device.old ≤ D.failures device.new }
{
    let at = page_at(version, first, u64::from(page));
    let spelled = read_bytes(alloc, device, at, version.page_sectors())?;
    let bytes = spelled.as_slice();
    if !has_edges(version, bytes) {
        return Err(Error::Damaged { sector: at });
    }
    for slot in 0..SLOTS_PER_PAGE {
        let Some(found) = row_in(version, bytes, slot) else {
            return Err(Error::Damaged { sector: at });
        };
        add_row(rows, Rid { page, slot }, found)?;
    }
    Ok(())
}

// Reads the rows of all pages into the sink.
fn read_pages<D: Device, S: CellSink, A: Allocator + Copy>(
    alloc: A,
    version: Version,
    device: &mut D,
    geometry: Geometry,
    first: u64,
    sink: &mut S,
) -> Result<(), Error>
    requires empty { (S.cells sink.old).rows ≡ finite.empty }
    requires inside { entries_at_in version geometry first ≤ length (D.past_of device.old).disk.content }
    requires number { entries_at_in version geometry first < 2 ^ 64 }
    ensures held { OnOk result (HoldsPages version geometry first (D.past_of device.old).disk.content geometry.pages
        (S.cells sink.new).rows) }
    ensures rest { OnOk result (S.cells sink.new ≡ record (S.cells sink.old) { rows = (S.cells sink.new).rows }) }
    ensures refused { IfErr result (ArePagesRefused version geometry first (D.past_of device.old).disk.content
        (D.failures device.old) (D.failures device.new)) }
    ensures reads { OnlyReads (D.past_of device.old) (D.past_of device.new) }
    ensures quiet { OnOk result (D.failures device.new ≡ D.failures device.old) }
    ensures told { IfErr result (λ e. e ≢ Error.DeviceFailed → D.failures device.new ≡ D.failures device.old) }
    ensures later { D.failures device.old ≤ D.failures device.new }
{
    let mut rows = Vec::with_capacity(alloc, geometry.pages as usize * ROWS_PER_PAGE)?;
    for page in 0..geometry.pages {
        read_page(alloc, version, device, geometry, first, page, &mut rows)?;
    }
    sink.set_rows(&rows)?;
    Ok(())
}

// Reads the first `count` entries into the sink. `Damaged` names the sector of the first that says nothing, or isn't
// above the one before it.
fn read_entries<D: Device, S: CellSink, A: Allocator>(
    alloc: A,
    version: Version,
    device: &mut D,
    geometry: Geometry,
    first: u64,
    count: u32,
    sink: &mut S,
) -> Result<(), Error>
    requires count { count ≤ geometry.entries }
    requires empty { (S.cells sink.old).entries ≡ finite.empty }
    requires inside { image_end_in version geometry first ≤ length (D.past_of device.old).disk.content }
    requires number { image_end_in version geometry first < 2 ^ 64 }
    ensures held { OnOk result (HoldsEntries version geometry first (D.past_of device.old).disk.content count
        (S.cells sink.new).entries) }
    ensures rest { OnOk result (S.cells sink.new ≡ record (S.cells sink.old) { entries = (S.cells sink.new).entries }) }
    ensures refused { IfErr result (AreEntriesRefused version geometry first (D.past_of device.old).disk.content count
        (D.failures device.old) (D.failures device.new)) }
    ensures reads { OnlyReads (D.past_of device.old) (D.past_of device.new) }
    ensures quiet { OnOk result (D.failures device.new ≡ D.failures device.old) }
    ensures told { IfErr result (λ e. e ≢ Error.DeviceFailed → D.failures device.new ≡ D.failures device.old) }
    ensures later { D.failures device.old ≤ D.failures device.new }
{
    let mut entries = Vec::with_capacity(alloc, count as usize)?;
    let mut buffer = zero_sector();
    let mut last = None;
    for n in 0..count {
        let place = entry_place(version, geometry, first, n);
        load(device, &mut buffer, place)?;
        let bytes = piece_in(&buffer, entry_size(version), place.index);
        let damaged = Error::Damaged {
            sector: place.sector,
        };
        let Some((pair, mark)) = entry_in(version, geometry, bytes) else {
            return Err(damaged);
        };
        if !is_above(&pair, &last) {
            return Err(damaged);
        }
        entries.push((pair, mark))?;
        last = Some(pair);
    }
    sink.set_entries(&entries)?;
    Ok(())
}

/// Reads the image of a store of this geometry that begins at sector `first`, by a version of the format, into an empty
/// sink. The answer is its base, the number of the last record made as the image began. Nothing is written. That each
/// of its sectors is read once at most is only tested.
///
/// `Damaged` names the first sector with a part that says nothing: the header, the transaction heads, an undo item of a
/// head that is used, the first sector of a page, or an entry, which is above the one before it. A place in a page that
/// the geometry doesn't have says nothing. `DeviceFailed` where the device failed in the call, and only then.
/// `NoMemory` where there is none for what is read, or the sink has none; a damaged header is told before any is wanted
/// (`memory`).
pub fn read_image<D: Device, S: CellSink, A: Allocator + Copy>(
    alloc: A,
    version: Version,
    device: &mut D,
    geometry: Geometry,
    first: u64,
    sink: &mut S,
) -> Result<u64, Error>
    requires empty { S.cells sink.old ≡ no_cells }
    requires inside { image_end_in version geometry first ≤ length (D.past_of device.old).disk.content }
    requires number { image_end_in version geometry first < 2 ^ 64 }

    // This is the only image that lies there, by the law `one_image`, and where one does no sector is damaged.
    ensures read { IfOk result (λ base. IsImageIn version geometry first (D.past_of device.old).disk.content base
        (S.cells sink.new)) }
    ensures refused { IfErr result (IsUnreadIn version geometry first (D.past_of device.old).disk.content
        (D.failures device.old) (D.failures device.new)) }
    ensures reads { OnlyReads (D.past_of device.old) (D.past_of device.new) }
    ensures quiet { OnOk result (D.failures device.new ≡ D.failures device.old) }
    ensures told { IfErr result (λ e. e ≢ Error.DeviceFailed → D.failures device.new ≡ D.failures device.old) }
    ensures memory { IfErr result (λ e. e ≡ Error.NoMemory
        → SaysSomethingIn version geometry first (D.past_of device.old).disk.content TheHeader) }
    ensures later { D.failures device.old ≤ D.failures device.new }
{
    let header = read_header(version, device, geometry, first)?;
    let heads = read_heads(alloc, version, device, geometry, first)?;
    read_lists(alloc, version, device, geometry, first, &heads, sink)?;
    read_pages(alloc, version, device, geometry, first, sink)?;
    read_entries(
        alloc,
        version,
        device,
        geometry,
        first,
        header.entries,
        sink,
    )?;
    sink.set_life(header.life);
    Ok(header.base)
}
