//! A whole image is written, without a sync.
ghost use Rattle.std.specs.Prelude.{◌≡◌, ◌⊎◌, ℕ, ◌+◌, ◌-◌, ◌*◌, ◌^◌, ◌<◌, ◌≤◌, List, Option, true, length, map};
ghost use Rattle.std.specs.Prelude.{slice_get, Some, None, OnOk};
ghost use Rattle.std.specs.Option.{option_map};
ghost use Rattle.std.specs.FinMap as finite;
ghost use Rattle.sector_device.specs.Disk.{sector, SameOutside};
ghost use Rattle.sector_device.specs.DevicePast.{RunsWithin, CountsFailure};
ghost use Rattle.records.specs.ChangeValue.{ChangeValue};
ghost use Rattle.record_values.specs.declared.pair.Pair.{Pair};
ghost use Rattle.record_values.specs.declared.pair.Mark.{Mark};
ghost use Rattle.record_values.specs.declared.number.TheConstants.{LAST_NUMBER};
ghost use Rattle.store_image_parts.specs.declared.head.Head.{Head as HeadValue};
ghost use Rattle.store_image_half.specs.Layout.{cut, heads_at, page_at, entries_at, image_end, InPage, InPages};
ghost use Rattle.store_image_half.specs.Layout.{InEntries};
ghost use Rattle.store_image_half.specs.Image.{AreHeads, HoldsList, IsImage, IsEntry, entry_bytes, head_of};
ghost use Rattle.store_image_half.specs.Image.{ZerosBehindEntries, InLists, InStart, InImageOf};
ghost use Rattle.store_image_half.specs.Source.{FitsImage, IsPassed};
ghost use Rattle.store_image_half.specs.Steps.{IsEntryPlace, IsReached, WritesIn};
ghost use Rattle.store_image_half.specs.Part.{IsImagePart, HasPage};

use crate::page::page_at;
use crate::pieces::put_piece;
use crate::source::{CellSource, SECTOR_ENTRIES};
use crate::write::{write_header, write_list, write_page};
use records::{ENTRIES_PER_SECTOR, Geometry, HEADER_SECTORS, Mark, Pair, TXNS_MAX, Txn, Version};
use sector_device::{Device, Failed, SECTOR_SIZE, zero_sector};
use store_image_parts::{ENTRY_SIZE, Head, Header, spell_entry, spell_head};

// Writes the list of each transaction as the undo items of its head.
fn write_lists<D: Device, S: CellSource>(
    device: &mut D,
    geometry: Geometry,
    first: u64,
    source: &S,
) -> Result<(), Failed>
    requires fits { FitsImage geometry (S.cells source.now) }
    requires inside { page_at first 0 ≤ length (D.past_of device.old).disk.content }
    requires number { page_at first 0 < 2 ^ 64 }
    ensures written { OnOk result ((h : ℕ) (list : ℕ × List ChangeValue)
        → slice_get (finite.entries (S.cells source.now).pending) h ≡ Some list
        → HoldsList geometry first (D.past_of device.new).disk.content h list.1) }
    ensures part { WritesIn (InLists first (S.cells source.now)) (D.past_of device.old) (D.past_of device.new) }
    ensures counts { CountsFailure (D.failures device.old) (D.failures device.new) result }
{
    let mut last = None;
    for h in 0..TXNS_MAX {
        let Some(list) = source.list_behind(last) else {
            return Ok(());
        };
        write_list(device, geometry, first, h as u64, list.1)?;
        last = Some(list.0);
    }
    Ok(())
}

// The head of the transaction that comes behind this one.
fn head_behind<S: CellSource>(geometry: Geometry, source: &S, txn: Option<Txn>) -> Option<Head>
    requires fits { FitsImage geometry (S.cells source.now) }
    requires reached { (n : ℕ) × IsReached (finite.entries (S.cells source.now).pending) n txn }
    ensures { (n : ℕ) → IsReached (finite.entries (S.cells source.now).pending) n txn
        → result ≡ option_map head_of (slice_get (finite.entries (S.cells source.now).pending) n) }
{
    let Some(list) = source.list_behind(txn) else {
        return None;
    };
    Some(Head {
        txn: list.0,
        changes: list.1.len() as u8,
    })
}

// Goes on to the transaction of a head, where there is one.
fn go_on(head: &Option<Head>, last: &mut Option<Txn>)
    ensures head { (h : HeadValue) → head.now ≡ Some h → last.new ≡ Some h.txn }
    ensures other { head.now ≡ None → last.new ≡ last.old }
{
    if let Some(head) = head {
        *last = Some(head.txn);
    }
}

// The sector of the heads of all lists.
fn heads_sector<S: CellSource>(geometry: Geometry, source: &S) -> [u8; SECTOR_SIZE]
    requires { FitsImage geometry (S.cells source.now) }
    ensures { AreHeads result (map head_of (finite.entries (S.cells source.now).pending)) }
{
    let mut bytes = zero_sector();
    let mut last = None;
    for k in 0..TXNS_MAX {
        let found = head_behind(geometry, source, last);
        let piece = spell_head(&found);
        put_piece(&mut bytes, k, &piece);
        go_on(&found, &mut last);
    }
    bytes
}

// Writes the heads of all lists.
fn write_all_heads<D: Device, S: CellSource>(
    device: &mut D,
    geometry: Geometry,
    first: u64,
    source: &S,
) -> Result<(), Failed>
    requires fits { FitsImage geometry (S.cells source.now) }
    requires inside { heads_at first < length (D.past_of device.old).disk.content }
    requires number { heads_at first < 2 ^ 64 }
    ensures written { OnOk result (AreHeads (sector (D.past_of device.new).disk.content (heads_at first))
        (map head_of (finite.entries (S.cells source.now).pending))) }
    ensures part { WritesIn (λ n. n ≡ heads_at first) (D.past_of device.old) (D.past_of device.new) }
    ensures counts { CountsFailure (D.failures device.old) (D.failures device.new) result }
{
    let bytes = heads_sector(geometry, source);
    device.write(first + HEADER_SECTORS, &bytes)
}

// Writes every page.
fn write_pages<D: Device, S: CellSource>(
    device: &mut D,
    geometry: Geometry,
    first: u64,
    source: &S,
) -> Result<(), Failed>
    requires inside { entries_at geometry first ≤ length (D.past_of device.old).disk.content }
    requires number { entries_at geometry first < 2 ^ 64 }
    ensures written { OnOk result ((page : ℕ) → page < geometry.pages
        → HasPage first (D.past_of device.new).disk.content page (S.cells source.now).rows) }
    ensures part { WritesIn (InPages geometry first) (D.past_of device.old) (D.past_of device.new) }
    ensures counts { CountsFailure (D.failures device.old) (D.failures device.new) result }
{
    for page in 0..geometry.pages {
        write_rows(device, geometry, first, page, source)?;
    }
    Ok(())
}

// The spelling of an entry, or zeros.
#[tactic(auto, unfolding(store_image_parts::specs::Spelling::zeros))]
fn piece_of_entry(entry: &Option<(Pair, Mark)>) -> [u8; ENTRY_SIZE]
    ensures { IsEntryPlace result entry.now }
{
    match entry {
        Some(found) => spell_entry(found),
        None => [0; ENTRY_SIZE],
    }
}

// The last pair of the entries of a sector, or else this one.
fn last_pair(entries: &[Option<(Pair, Mark)>; SECTOR_ENTRIES], other: Option<Pair>) -> Option<Pair>
    ensures { (e : Pair × Mark) → slice_get entries.now (SECTOR_ENTRIES - 1) ≡ Some (Some e) → result ≡ Some e.0 }
{
    match entries[SECTOR_ENTRIES - 1] {
        Some(entry) => Some(entry.0),
        None => other,
    }
}

// The sector of the entries behind that of the last pair, which is then the last one of them where the sector is full.
fn entries_sector<S: CellSource>(source: &S, last: &mut Option<Pair>) -> [u8; SECTOR_SIZE]
    ensures spelled { (n : ℕ) → IsPassed (finite.entries (S.cells source.now).entries) n last.old
        → (j : ℕ) → j < ENTRIES_PER_SECTOR
        → IsEntryPlace (cut result ENTRY_SIZE j) (slice_get (finite.entries (S.cells source.now).entries) (n + j)) }
    ensures passed { (n : ℕ) → IsPassed (finite.entries (S.cells source.now).entries) n last.old
        → n + ENTRIES_PER_SECTOR ≤ length (finite.entries (S.cells source.now).entries)
        → IsPassed (finite.entries (S.cells source.now).entries) (n + ENTRIES_PER_SECTOR) last.new }
{
    let entries = source.entries_behind(*last);
    *last = last_pair(&entries, *last);
    pieces_of(&entries)
}

// The sector of these entries.
fn pieces_of(entries: &[Option<(Pair, Mark)>; SECTOR_ENTRIES]) -> [u8; SECTOR_SIZE]
    ensures { (j : ℕ) (o : Option (Pair × Mark)) → slice_get entries.now j ≡ Some o
        → IsEntryPlace (cut result ENTRY_SIZE j) o }
{
    let mut bytes = zero_sector();
    for j in 0..SECTOR_ENTRIES {
        let piece = piece_of_entry(&entries[j]);
        put_piece(&mut bytes, j, &piece);
    }
    bytes
}

// Writes all entries, so many.
fn write_all_entries<D: Device, S: CellSource>(
    device: &mut D,
    geometry: Geometry,
    first: u64,
    source: &S,
    count: u32,
) -> Result<(), Failed>
    requires fits { FitsImage geometry (S.cells source.now) }
    requires count { count ≡ length (finite.entries (S.cells source.now).entries) }
    requires inside { image_end geometry first ≤ length (D.past_of device.old).disk.content }
    requires number { image_end geometry first < 2 ^ 64 }
    ensures written { OnOk result ((i : ℕ) (e : Pair × Mark)
        → slice_get (finite.entries (S.cells source.now).entries) i ≡ Some e
        → IsEntry geometry (entry_bytes geometry (D.past_of device.new).disk.content first i) e) }
    ensures rest { OnOk result (ZerosBehindEntries geometry first (D.past_of device.new).disk.content count) }
    ensures part { WritesIn (InEntries geometry first 0 count) (D.past_of device.old) (D.past_of device.new) }
    ensures counts { CountsFailure (D.failures device.old) (D.failures device.new) result }
{
    let at = page_at(Version::Two, first, u64::from(geometry.pages));
    let mut last = None;
    for k in 0..u64::from(count).div_ceil(ENTRIES_PER_SECTOR) {
        let bytes = entries_sector(source, &mut last);
        device.write(at + k, &bytes)?;
    }
    Ok(())
}

/// Begins the image of these cells that is written part by part from sector `first` on: writes undo items and heads.
/// That no sector is written twice is only tested.
pub fn write_start<D: Device, S: CellSource>(
    device: &mut D,
    geometry: Geometry,
    first: u64,
    source: &S,
) -> Result<(), Failed>
    requires fits { FitsImage geometry (S.cells source.now) }
    requires inside { page_at first 0 ≤ length (D.past_of device.old).disk.content }
    requires number { page_at first 0 < 2 ^ 64 }
    ensures written { OnOk result (IsImagePart geometry first (D.past_of device.new).disk.content 0
        (record (S.cells source.now) { rows = finite.empty; entries = finite.empty })) }
    ensures outside { SameOutside (InStart first (S.cells source.now)) (D.past_of device.old).disk.content
        (D.past_of device.new).disk.content }
    ensures within { RunsWithin (λ n. InStart first (S.cells source.now) n
        ⊎ ((D.past_of device.old).disk.unsynced n ≡ true)) (D.past_of device.old).disk.content (D.past_of device.old)
        (D.past_of device.new) }
    ensures counts { CountsFailure (D.failures device.old) (D.failures device.new) result }
{
    write_lists(device, geometry, first, source)?;
    write_all_heads(device, geometry, first, source)
}

/// Writes a page of the image that begins at sector `first`, with the rows that these cells have there. That each of
/// its sixteen sectors is written once is only tested.
pub fn write_rows<D: Device, S: CellSource>(
    device: &mut D,
    geometry: Geometry,
    first: u64,
    page: u32,
    source: &S,
) -> Result<(), Failed>
    requires page { page < geometry.pages }
    requires inside { entries_at geometry first ≤ length (D.past_of device.old).disk.content }
    requires number { entries_at geometry first < 2 ^ 64 }
    ensures written { OnOk result (HasPage first (D.past_of device.new).disk.content page (S.cells source.now).rows) }
    ensures outside { SameOutside (InPage first page) (D.past_of device.old).disk.content
        (D.past_of device.new).disk.content }
    ensures within { RunsWithin (λ n. InPage first page n
        ⊎ ((D.past_of device.old).disk.unsynced n ≡ true)) (D.past_of device.old).disk.content (D.past_of device.old)
        (D.past_of device.new) }
    ensures counts { CountsFailure (D.failures device.old) (D.failures device.new) result }
{
    let rows = source.page(page);
    write_page(device, geometry, first, page, &rows)
}

/// Writes the image of these cells, which record `base` left, from sector `first` on: undo items, heads, every page,
/// the entries, and the header behind them. What is left of the sector of the last entry is zeros then (`rest`);
/// sectors of undo items and of entries behind the last ones stay as they are (`outside`). That no sector is written
/// twice is only tested.
pub fn write_image<D: Device, S: CellSource>(
    device: &mut D,
    geometry: Geometry,
    first: u64,
    base: u64,
    source: &S,
) -> Result<(), Failed>
    requires fits { FitsImage geometry (S.cells source.now) }
    requires base { base ≤ LAST_NUMBER }
    requires inside { image_end geometry first ≤ length (D.past_of device.old).disk.content }
    requires number { image_end geometry first < 2 ^ 64 }
    ensures written { OnOk result (IsImage geometry first (D.past_of device.new).disk.content base
        (S.cells source.now)) }
    ensures rest { OnOk result (ZerosBehindEntries geometry first (D.past_of device.new).disk.content
        (length (finite.entries (S.cells source.now).entries))) }
    ensures outside { SameOutside (InImageOf geometry first (S.cells source.now)) (D.past_of device.old).disk.content
        (D.past_of device.new).disk.content }
    ensures within { RunsWithin (λ n. InImageOf geometry first (S.cells source.now) n
        ⊎ ((D.past_of device.old).disk.unsynced n ≡ true)) (D.past_of device.old).disk.content (D.past_of device.old)
        (D.past_of device.new) }
    ensures counts { CountsFailure (D.failures device.old) (D.failures device.new) result }
{
    let life = source.life();
    let entries = source.entry_count() as u32;
    write_lists(device, geometry, first, source)?;
    write_all_heads(device, geometry, first, source)?;
    write_pages(device, geometry, first, source)?;
    write_all_entries(device, geometry, first, source, entries)?;
    let header = Header {
        life,
        base,
        entries,
    };
    write_header(device, geometry, first, &header)
}
