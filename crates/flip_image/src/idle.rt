//! The half that isn't current is written, part by part or as a whole, without a sync. Until a sync, a sector that was
//! written may hold anything after a crash; the current half and the sectors in front of the halves stay as they are.
//! Each call wants a value whose current half is the one that the device names (`current`), so none from before a flip.
ghost use Rattle.std.specs.Prelude.{◌≡◌, ◌⊎◌, ℕ, ◌+◌, ◌%◌, ◌<◌, ◌≤◌, List, Option, true, length, slice_get, Some, OnOk};
ghost use Rattle.std.specs.FinMap.{empty, entries};
ghost use Rattle.sector_device.specs.Disk.{sector, SameOutside};
ghost use Rattle.sector_device.specs.DevicePast.{RunsWithin, CountsFailure};
ghost use Rattle.record_values.specs.GeometryValue.{sectors_of};
ghost use Rattle.records.specs.ChangeValue.{ChangeValue};
ghost use Rattle.record_values.specs.declared.row.Row.{Row as RowValue};
ghost use Rattle.record_values.specs.declared.pair.Pair.{Pair as PairValue};
ghost use Rattle.record_values.specs.declared.pair.Mark.{Mark as MarkValue};
ghost use Rattle.record_values.specs.declared.txn.TheConstants.{TXNS_MAX};
ghost use Rattle.records.specs.declared.change.TheConstants.{CHANGES_MAX};
ghost use Rattle.record_values.specs.declared.number.TheConstants.{LAST_NUMBER};
ghost use Rattle.record_values.specs.declared.rid.TheConstants.{SLOTS_PER_PAGE};
ghost use Rattle.record_values.specs.declared.geometry.TheConstants.{ENTRIES_PER_SECTOR};
ghost use Rattle.record_values.specs.declared.version.Version.TheVariants.{Two};
ghost use Rattle.model.specs.declared.life.Life.TheVariants.{Building};
ghost use Rattle.store_image_half.specs.Head.{Head as HeadValue};
ghost use Rattle.store_image_half.specs.Spelling.{HeadFits};
ghost use Rattle.store_image_half.specs.Layout.{page_bytes, InPage, InEntries, InList};
ghost use Rattle.store_image_half.specs.Image.{IsHeader, AreHeads, HoldsList, HasEdges, IsRow, IsEntry, row_bytes};
ghost use Rattle.store_image_half.specs.Image.{entry_bytes, ZerosBehindEntries, InStart, InImageOf};
ghost use Rattle.store_image_half.specs.Part.{IsImagePart, HasPage};
ghost use Rattle.store_image_half.specs.Source.{FitsImage};
ghost use Rattle.flip_image.specs.Layout.{other, header_sector, heads_sector, InHalfImage};
ghost use Rattle.flip_image.specs.Store.{Names, HoldsImage};

use crate::half::FLIP_SECTOR;
use crate::halves::Halves;
use records::{Change, Mark, Pair, Row};
use sector_device::{Device, Failed};
use store_image_half::{
    CellSource, Head, Header, write_entries, write_header, write_heads, write_image, write_list,
    write_page, write_rows, write_start,
};

impl Halves {
    /// Writes the header of the image. It counts the entries that are in the image, so it is written behind them.
    pub fn write_header<D: Device>(&self, device: &mut D, header: &Header) -> Result<(), Failed>
        requires inside { sectors_of self.now.geometry ≤ length (D.past_of device.old).disk.content }
        requires current { Names (sector (D.past_of device.old).disk.content FLIP_SECTOR) self.now.current }
        requires base { header.now.base ≤ LAST_NUMBER }
        requires room { header.now.entries ≤ self.now.geometry.entries }
        requires pages { (p : PairValue) → header.now.life ≡ Building (Some p) → p.rid.page < self.now.geometry.pages }
        ensures written { OnOk result (IsHeader self.now.geometry
            (sector (D.past_of device.new).disk.content (header_sector self.now.geometry (other self.now.current)))
            header.now) }
        ensures outside { SameOutside (λ n. n ≡ header_sector self.now.geometry (other self.now.current))
            (D.past_of device.old).disk.content (D.past_of device.new).disk.content }
        ensures within { RunsWithin (λ n. InHalfImage self.now.geometry (other self.now.current) n
            ⊎ ((D.past_of device.old).disk.unsynced n ≡ true)) (D.past_of device.old).disk.content
            (D.past_of device.old) (D.past_of device.new) }
        ensures counts { CountsFailure (D.failures device.old) (D.failures device.new) result }
    {
        let first = self.idle_first();
        write_header(device, self.geometry(), first, header)
    }

    /// Writes the transaction heads of the image, of transactions in the order of their numbers.
    pub fn write_heads<D: Device>(&self, device: &mut D, heads: &[Head]) -> Result<(), Failed>
        requires inside { sectors_of self.now.geometry ≤ length (D.past_of device.old).disk.content }
        requires current { Names (sector (D.past_of device.old).disk.content FLIP_SECTOR) self.now.current }
        requires count { length heads.now ≤ TXNS_MAX }
        requires fits { (k : ℕ) (h : HeadValue) → slice_get heads.now k ≡ Some h → HeadFits h }
        requires rising { (k : ℕ) (a b : HeadValue) → slice_get heads.now k ≡ Some a
            → slice_get heads.now (k + 1) ≡ Some b → a.txn < b.txn }
        ensures written { OnOk result (AreHeads (sector (D.past_of device.new).disk.content
            (heads_sector self.now.geometry (other self.now.current))) heads.now) }
        ensures outside { SameOutside (λ n. n ≡ heads_sector self.now.geometry (other self.now.current))
            (D.past_of device.old).disk.content (D.past_of device.new).disk.content }
        ensures within { RunsWithin (λ n. InHalfImage self.now.geometry (other self.now.current) n
            ⊎ ((D.past_of device.old).disk.unsynced n ≡ true)) (D.past_of device.old).disk.content
            (D.past_of device.old) (D.past_of device.new) }
        ensures counts { CountsFailure (D.failures device.old) (D.failures device.new) result }
    {
        let first = self.idle_first();
        write_heads(device, first, heads)
    }

    /// Writes the changes of a head, numbered from 0, as undo items of the image, each in a sector of its own. That
    /// each sector is written once is only tested.
    pub fn write_list<D: Device>(
        &self,
        device: &mut D,
        h: u64,
        changes: &[Change],
    ) -> Result<(), Failed>
        requires inside { sectors_of self.now.geometry ≤ length (D.past_of device.old).disk.content }
        requires current { Names (sector (D.past_of device.old).disk.content FLIP_SECTOR) self.now.current }
        requires head { h < TXNS_MAX }
        requires count { length changes.now ≤ CHANGES_MAX }
        requires positions { (p : ℕ) (c : ChangeValue) → slice_get changes.now p ≡ Some c → c.position ≡ p }
        requires pages { (p : ℕ) (c : ChangeValue) → slice_get changes.now p ≡ Some c
            → c.rid.page < self.now.geometry.pages }
        ensures written { OnOk result (HoldsList self.now.geometry
            (header_sector self.now.geometry (other self.now.current))
            (D.past_of device.new).disk.content h changes.now) }
        ensures outside { SameOutside (InList (header_sector self.now.geometry (other self.now.current)) h
            (length changes.now)) (D.past_of device.old).disk.content (D.past_of device.new).disk.content }
        ensures within { RunsWithin (λ n. InHalfImage self.now.geometry (other self.now.current) n
            ⊎ ((D.past_of device.old).disk.unsynced n ≡ true)) (D.past_of device.old).disk.content
            (D.past_of device.old) (D.past_of device.new) }
        ensures counts { CountsFailure (D.failures device.old) (D.failures device.new) result }
    {
        let first = self.idle_first();
        write_list(device, self.geometry(), first, h, changes)
    }

    /// Writes a page of the image, with the rows of its slots in order, or none. That each of its sixteen sectors is
    /// written once is only tested.
    pub fn write_page<D: Device>(
        &self,
        device: &mut D,
        page: u32,
        rows: &[Option<Row>],
    ) -> Result<(), Failed>
        requires inside { sectors_of self.now.geometry ≤ length (D.past_of device.old).disk.content }
        requires current { Names (sector (D.past_of device.old).disk.content FLIP_SECTOR) self.now.current }
        requires rows { length rows.now ≡ SLOTS_PER_PAGE }
        requires page { page < self.now.geometry.pages }
        ensures edges { OnOk result (HasEdges Two (page_bytes (D.past_of device.new).disk.content
            (header_sector self.now.geometry (other self.now.current)) page)) }
        ensures written { OnOk result ((slot : ℕ) (o : Option RowValue) → slice_get rows.now slot ≡ Some o
            → IsRow (row_bytes (D.past_of device.new).disk.content
            (header_sector self.now.geometry (other self.now.current)) page slot) o) }
        ensures outside { SameOutside (InPage (header_sector self.now.geometry (other self.now.current)) page)
            (D.past_of device.old).disk.content (D.past_of device.new).disk.content }
        ensures within { RunsWithin (λ n. InHalfImage self.now.geometry (other self.now.current) n
            ⊎ ((D.past_of device.old).disk.unsynced n ≡ true)) (D.past_of device.old).disk.content
            (D.past_of device.old) (D.past_of device.new) }
        ensures counts { CountsFailure (D.failures device.old) (D.failures device.new) result }
    {
        let first = self.idle_first();
        write_page(device, self.geometry(), first, page, rows)
    }

    /// Writes these entries of the image, from the entry number `start` on, which begins a sector. What is left of the
    /// last sector behind them is zeros then (`rest`). That each sector is written once is only tested.
    pub fn write_entries<D: Device>(
        &self,
        device: &mut D,
        start: u32,
        entries: &[(Pair, Mark)],
    ) -> Result<(), Failed>
        requires inside { sectors_of self.now.geometry ≤ length (D.past_of device.old).disk.content }
        requires current { Names (sector (D.past_of device.old).disk.content FLIP_SECTOR) self.now.current }
        requires start { start % ENTRIES_PER_SECTOR ≡ 0 }
        requires room { start + length entries.now ≤ self.now.geometry.entries }
        requires pages { (i : ℕ) (e : PairValue × MarkValue) → slice_get entries.now i ≡ Some e
            → e.0.rid.page < self.now.geometry.pages }
        ensures written { OnOk result ((i : ℕ) (e : PairValue × MarkValue) → slice_get entries.now i ≡ Some e
            → IsEntry self.now.geometry (entry_bytes self.now.geometry (D.past_of device.new).disk.content
            (header_sector self.now.geometry (other self.now.current)) (start + i)) e) }
        ensures rest { OnOk result (ZerosBehindEntries self.now.geometry
            (header_sector self.now.geometry (other self.now.current)) (D.past_of device.new).disk.content
            (start + length entries.now)) }
        ensures outside { SameOutside (InEntries self.now.geometry
            (header_sector self.now.geometry (other self.now.current)) start (length entries.now))
            (D.past_of device.old).disk.content (D.past_of device.new).disk.content }
        ensures within { RunsWithin (λ n. InHalfImage self.now.geometry (other self.now.current) n
            ⊎ ((D.past_of device.old).disk.unsynced n ≡ true)) (D.past_of device.old).disk.content
            (D.past_of device.old) (D.past_of device.new) }
        ensures counts { CountsFailure (D.failures device.old) (D.failures device.new) result }
    {
        let first = self.idle_first();
        write_entries(device, self.geometry(), first, start, entries)
    }

    /// Begins an image of these cells that is written part by part: writes undo items and transaction heads. That no
    /// sector is written twice is only tested.
    pub fn write_start<D: Device, S: CellSource>(
        &self,
        device: &mut D,
        source: &S,
    ) -> Result<(), Failed>
        requires inside { sectors_of self.now.geometry ≤ length (D.past_of device.old).disk.content }
        requires current { Names (sector (D.past_of device.old).disk.content FLIP_SECTOR) self.now.current }
        requires fits { FitsImage self.now.geometry (S.cells source.now) }
        ensures written { OnOk result (IsImagePart self.now.geometry
            (header_sector self.now.geometry (other self.now.current)) (D.past_of device.new).disk.content 0
            (record (S.cells source.now) { rows = empty; entries = empty })) }
        ensures outside { SameOutside (InStart (header_sector self.now.geometry (other self.now.current))
            (S.cells source.now)) (D.past_of device.old).disk.content (D.past_of device.new).disk.content }
        ensures within { RunsWithin (λ n. InHalfImage self.now.geometry (other self.now.current) n
            ⊎ ((D.past_of device.old).disk.unsynced n ≡ true)) (D.past_of device.old).disk.content
            (D.past_of device.old) (D.past_of device.new) }
        ensures counts { CountsFailure (D.failures device.old) (D.failures device.new) result }
    {
        let first = self.idle_first();
        write_start(device, self.geometry(), first, source)
    }

    /// Writes a page of the image, with the rows that these cells have there. That each of its sixteen sectors is
    /// written once is only tested.
    pub fn write_rows<D: Device, S: CellSource>(
        &self,
        device: &mut D,
        page: u32,
        source: &S,
    ) -> Result<(), Failed>
        requires inside { sectors_of self.now.geometry ≤ length (D.past_of device.old).disk.content }
        requires current { Names (sector (D.past_of device.old).disk.content FLIP_SECTOR) self.now.current }
        requires page { page < self.now.geometry.pages }
        ensures written { OnOk result (HasPage (header_sector self.now.geometry (other self.now.current))
            (D.past_of device.new).disk.content page (S.cells source.now).rows) }
        ensures outside { SameOutside (InPage (header_sector self.now.geometry (other self.now.current)) page)
            (D.past_of device.old).disk.content (D.past_of device.new).disk.content }
        ensures within { RunsWithin (λ n. InHalfImage self.now.geometry (other self.now.current) n
            ⊎ ((D.past_of device.old).disk.unsynced n ≡ true)) (D.past_of device.old).disk.content
            (D.past_of device.old) (D.past_of device.new) }
        ensures counts { CountsFailure (D.failures device.old) (D.failures device.new) result }
    {
        let first = self.idle_first();
        write_rows(device, self.geometry(), first, page, source)
    }

    /// Writes the image of these cells, which record `base` left: undo items, transaction heads, every page, the
    /// entries, and the header behind them. What is left of the sector of the last entry is zeros then (`rest`);
    /// sectors of undo items and of entries behind the last ones stay as they are (`outside`). That no sector is
    /// written twice is only tested.
    pub fn write_image<D: Device, S: CellSource>(
        &self,
        device: &mut D,
        base: u64,
        source: &S,
    ) -> Result<(), Failed>
        requires inside { sectors_of self.now.geometry ≤ length (D.past_of device.old).disk.content }
        requires current { Names (sector (D.past_of device.old).disk.content FLIP_SECTOR) self.now.current }
        requires fits { FitsImage self.now.geometry (S.cells source.now) }
        requires base { base ≤ LAST_NUMBER }
        ensures written { OnOk result (HoldsImage self.now.geometry (other self.now.current)
            (D.past_of device.new).disk.content base (S.cells source.now)) }
        ensures rest { OnOk result (ZerosBehindEntries self.now.geometry
            (header_sector self.now.geometry (other self.now.current)) (D.past_of device.new).disk.content
            (length (entries (S.cells source.now).entries))) }
        ensures outside { SameOutside (InImageOf self.now.geometry
            (header_sector self.now.geometry (other self.now.current)) (S.cells source.now))
            (D.past_of device.old).disk.content (D.past_of device.new).disk.content }
        ensures within { RunsWithin (λ n. InHalfImage self.now.geometry (other self.now.current) n
            ⊎ ((D.past_of device.old).disk.unsynced n ≡ true)) (D.past_of device.old).disk.content
            (D.past_of device.old) (D.past_of device.new) }
        ensures counts { CountsFailure (D.failures device.old) (D.failures device.new) result }
    {
        let first = self.idle_first();
        write_image(device, self.geometry(), first, base, source)
    }
}
