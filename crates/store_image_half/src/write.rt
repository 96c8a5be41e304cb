//! Parts of an image are written, without a sync. Until a sync a sector that was written may hold anything.
ghost use Rattle.std.specs.Prelude.{◌≡◌, ◌⊎◌, ℕ, ◌+◌, ◌*◌, ◌%◌, ◌^◌, ◌<◌, ◌≤◌, Option, true, length, slice_get, Some};
ghost use Rattle.std.specs.Prelude.{OnOk};
ghost use Rattle.sector_device.specs.Disk.{sector, SameOutside};
ghost use Rattle.sector_device.specs.DevicePast.{RunsWithin, CountsFailure};
ghost use Rattle.records.specs.ChangeValue.{ChangeValue};
ghost use Rattle.record_values.specs.declared.row.Row.{Row};
ghost use Rattle.record_values.specs.declared.pair.Pair.{Pair};
ghost use Rattle.record_values.specs.declared.pair.Mark.{Mark};
ghost use Rattle.store_image_parts.specs.declared.head.Head.{Head};
ghost use Rattle.record_values.specs.declared.number.TheConstants.{LAST_NUMBER};
ghost use Rattle.store_image_parts.specs.Spelling.{HeadFits, head};
ghost use Rattle.record_values.specs.declared.version.Version.TheVariants.{Two};
ghost use Rattle.store_image_half.specs.Layout.{cut, heads_at, page_at, entries_at, image_end, page_bytes, InPage};
ghost use Rattle.store_image_half.specs.Layout.{InEntries};
ghost use Rattle.store_image_half.specs.Layout.{InList};
ghost use Rattle.store_image_half.specs.Image.{IsHeader, AreHeads, HoldsList, HasEdges, IsRow, IsEntry, row_bytes};
ghost use Rattle.store_image_half.specs.Image.{entry_bytes, ZerosBehindEntries};
ghost use Rattle.store_image_half.specs.Steps.{IsEntryPlace};

use crate::page::{page_at, put_rows, zero_page};
use crate::pieces::put_piece;
use model::Life;
use records::{
    CHANGES_MAX, Change, ENTRIES_PER_SECTOR, Geometry, HEADER_SECTORS, HEADS_SECTORS, Mark, Pair,
    Row, SLOTS_PER_PAGE, TXNS_MAX, Version,
};
use sector_device::{Device, Failed, SECTOR_SIZE, zero_sector};
use store_image_parts::{
    ENTRY_SIZE, HEAD_SIZE, Head, Header, UndoItem, spell_entry, spell_head, spell_header,
    spell_item,
};

// The sectors of the undo items of a head, one for each of its changes.
const LIST_SECTORS: u64 = CHANGES_MAX as u64;

/// Writes the header of the image that begins at sector `first`. It counts the entries that are in the image, so it is
/// written behind them.
pub fn write_header<D: Device>(
    device: &mut D,
    geometry: Geometry,
    first: u64,
    header: &Header,
) -> Result<(), Failed>
    requires base { header.now.base ≤ LAST_NUMBER }
    requires room { header.now.entries ≤ geometry.entries }
    requires pages { (p : Pair) → header.now.life ≡ Life.Building (Some p) → p.rid.page < geometry.pages }
    requires inside { first < length (D.past_of device.old).disk.content }
    ensures written { OnOk result (IsHeader geometry (sector (D.past_of device.new).disk.content first) header.now) }
    ensures outside { SameOutside (λ n. n ≡ first) (D.past_of device.old).disk.content
        (D.past_of device.new).disk.content }
    ensures within { RunsWithin (λ n. (n ≡ first) ⊎ ((D.past_of device.old).disk.unsynced n ≡ true))
        (D.past_of device.old).disk.content (D.past_of device.old) (D.past_of device.new) }
    ensures counts { CountsFailure (D.failures device.old) (D.failures device.new) result }
{
    let bytes = spell_header(header);
    device.write(first, &bytes)
}

/// Writes a page of the image that begins at sector `first`, with the rows of its slots in order, or none. That each of
/// its sixteen sectors is written once is only tested.
pub fn write_page<D: Device>(
    device: &mut D,
    geometry: Geometry,
    first: u64,
    page: u32,
    rows: &[Option<Row>],
) -> Result<(), Failed>
    requires rows { length rows.now ≡ SLOTS_PER_PAGE }
    requires page { page < geometry.pages }
    requires inside { entries_at geometry first ≤ length (D.past_of device.old).disk.content }
    requires number { entries_at geometry first < 2 ^ 64 }
    ensures edges { OnOk result (HasEdges Two (page_bytes (D.past_of device.new).disk.content first page)) }
    ensures written { OnOk result ((slot : ℕ) (o : Option Row) → slice_get rows.now slot ≡ Some o
        → IsRow (row_bytes (D.past_of device.new).disk.content first page slot) o) }
    ensures outside { SameOutside (InPage first page) (D.past_of device.old).disk.content
        (D.past_of device.new).disk.content }
    ensures within { RunsWithin (λ n. InPage first page n
        ⊎ ((D.past_of device.old).disk.unsynced n ≡ true)) (D.past_of device.old).disk.content (D.past_of device.old)
        (D.past_of device.new) }
    ensures counts { CountsFailure (D.failures device.old) (D.failures device.new) result }
{
    let mut bytes = zero_page();
    put_rows(&mut bytes, rows);
    let at = page_at(Version::Two, first, u64::from(page));
    let (sectors, _) = bytes.as_chunks::<SECTOR_SIZE>();
    for (k, sector) in sectors.iter().enumerate() {
        device.write(at + k as u64, sector)?;
    }
    Ok(())
}

// The spelling of the i-th of these entries, or zeros behind the last one.
#[tactic(auto, unfolding(store_image_parts::specs::Spelling::zeros))]
fn entry_piece(entries: &[(Pair, Mark)], i: usize) -> [u8; ENTRY_SIZE]
    ensures { IsEntryPlace result (slice_get entries.now i) }
{
    match entries.get(i) {
        Some(found) => spell_entry(found),
        None => [0; ENTRY_SIZE],
    }
}

// The k-th sector of these entries.
fn entries_sector(entries: &[(Pair, Mark)], k: usize) -> [u8; SECTOR_SIZE]
    requires { ENTRIES_PER_SECTOR * k < length entries.now }
    ensures { (j : ℕ) → j < ENTRIES_PER_SECTOR
        → IsEntryPlace (cut result ENTRY_SIZE j) (slice_get entries.now (ENTRIES_PER_SECTOR * k + j)) }
{
    let mut bytes = zero_sector();
    for j in 0..ENTRIES_PER_SECTOR as usize {
        let piece = entry_piece(entries, ENTRIES_PER_SECTOR as usize * k + j);
        put_piece(&mut bytes, j, &piece);
    }
    bytes
}

/// Writes these entries of the image that begins at sector `first`, from the entry number `start` on, which begins a
/// sector. What is left of the last sector behind them is zeros then (`rest`). That each sector is written once is only
/// tested.
pub fn write_entries<D: Device>(
    device: &mut D,
    geometry: Geometry,
    first: u64,
    start: u32,
    entries: &[(Pair, Mark)],
) -> Result<(), Failed>
    requires start { start % ENTRIES_PER_SECTOR ≡ 0 }
    requires room { start + length entries.now ≤ geometry.entries }
    requires pages { (i : ℕ) (e : Pair × Mark) → slice_get entries.now i ≡ Some e → e.0.rid.page < geometry.pages }
    requires inside { image_end geometry first ≤ length (D.past_of device.old).disk.content }
    requires number { image_end geometry first < 2 ^ 64 }
    ensures written { OnOk result ((i : ℕ) (e : Pair × Mark) → slice_get entries.now i ≡ Some e
        → IsEntry geometry (entry_bytes geometry (D.past_of device.new).disk.content first (start + i)) e) }
    ensures rest { OnOk result (ZerosBehindEntries geometry first (D.past_of device.new).disk.content
        (start + length entries.now)) }
    ensures outside { SameOutside (InEntries geometry first start (length entries.now))
        (D.past_of device.old).disk.content (D.past_of device.new).disk.content }
    ensures within { RunsWithin (λ n. InEntries geometry first start (length entries.now) n
        ⊎ ((D.past_of device.old).disk.unsynced n ≡ true)) (D.past_of device.old).disk.content (D.past_of device.old)
        (D.past_of device.new) }
    ensures counts { CountsFailure (D.failures device.old) (D.failures device.new) result }
{
    let at = page_at(Version::Two, first, u64::from(geometry.pages))
        + u64::from(start) / ENTRIES_PER_SECTOR;
    let sectors = (entries.len() as u64).div_ceil(ENTRIES_PER_SECTOR);
    for k in 0..sectors {
        let bytes = entries_sector(entries, k as usize);
        device.write(at + k, &bytes)?;
    }
    Ok(())
}

// The spelling of the k-th of these heads, or zeros behind the last one.
fn head_piece(heads: &[Head], k: usize) -> [u8; HEAD_SIZE]
    ensures { result ≡ head (slice_get heads.now k) }
{
    match heads.get(k) {
        Some(found) => spell_head(&Some(*found)),
        None => spell_head(&None),
    }
}

// The sector of these heads.
fn heads_sector(heads: &[Head]) -> [u8; SECTOR_SIZE]
    ensures { (k : ℕ) → k < TXNS_MAX → cut result HEAD_SIZE k ≡ head (slice_get heads.now k) }
{
    let mut bytes = zero_sector();
    for k in 0..TXNS_MAX {
        let piece = head_piece(heads, k);
        put_piece(&mut bytes, k, &piece);
    }
    bytes
}

/// Writes the transaction heads of the image that begins at sector `first`, of transactions in the order of their
/// numbers.
pub fn write_heads<D: Device>(device: &mut D, first: u64, heads: &[Head]) -> Result<(), Failed>
    requires count { length heads.now ≤ TXNS_MAX }
    requires fits { (k : ℕ) (h : Head) → slice_get heads.now k ≡ Some h → HeadFits h }
    requires rising { (k : ℕ) (a b : Head) → slice_get heads.now k ≡ Some a → slice_get heads.now (k + 1) ≡ Some b
        → a.txn < b.txn }
    requires inside { heads_at first < length (D.past_of device.old).disk.content }
    requires number { heads_at first < 2 ^ 64 }
    ensures written { OnOk result (AreHeads (sector (D.past_of device.new).disk.content (heads_at first)) heads.now) }
    ensures outside { SameOutside (λ n. n ≡ heads_at first) (D.past_of device.old).disk.content
        (D.past_of device.new).disk.content }
    ensures within { RunsWithin (λ n. (n ≡ heads_at first)
        ⊎ ((D.past_of device.old).disk.unsynced n ≡ true)) (D.past_of device.old).disk.content (D.past_of device.old)
        (D.past_of device.new) }
    ensures counts { CountsFailure (D.failures device.old) (D.failures device.new) result }
{
    let bytes = heads_sector(heads);
    device.write(first + HEADER_SECTORS, &bytes)
}

/// Writes the changes of a head, numbered from 0, as undo items of the image that begins at sector `first`, each in a
/// sector of its own. That each sector is written once is only tested.
pub fn write_list<D: Device>(
    device: &mut D,
    geometry: Geometry,
    first: u64,
    h: u64,
    changes: &[Change],
) -> Result<(), Failed>
    requires head { h < TXNS_MAX }
    requires count { length changes.now ≤ CHANGES_MAX }
    requires positions { (p : ℕ) (c : ChangeValue) → slice_get changes.now p ≡ Some c → c.position ≡ p }
    requires pages { (p : ℕ) (c : ChangeValue) → slice_get changes.now p ≡ Some c → c.rid.page < geometry.pages }
    requires inside { page_at first 0 ≤ length (D.past_of device.old).disk.content }
    requires number { page_at first 0 < 2 ^ 64 }
    ensures written { OnOk result (HoldsList geometry first (D.past_of device.new).disk.content h changes.now) }
    ensures outside { SameOutside (InList first h (length changes.now)) (D.past_of device.old).disk.content
        (D.past_of device.new).disk.content }
    ensures within { RunsWithin (λ n. InList first h (length changes.now) n
        ⊎ ((D.past_of device.old).disk.unsynced n ≡ true)) (D.past_of device.old).disk.content (D.past_of device.old)
        (D.past_of device.new) }
    ensures counts { CountsFailure (D.failures device.old) (D.failures device.new) result }
{
    let at = first + HEADER_SECTORS + HEADS_SECTORS + LIST_SECTORS * h;
    for (position, change) in changes.iter().enumerate() {
        let bytes = spell_item(&UndoItem {
            rid: change.rid,
            rows: change.rows,
        });
        device.write(at + position as u64, &bytes)?;
    }
    Ok(())
}
