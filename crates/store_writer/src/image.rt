//! An image that is under way in the half that isn't current, and the log behind it.
ghost use Rattle.std.specs.Prelude.{◌≡◌, ◌⊎◌, ◌+◌, ◌%◌, ◌^◌, ◌<◌, ◌≤◌, ◌++◌, ◌∷◌, [], ℕ, List, Option, Some, None};
ghost use Rattle.std.specs.Prelude.{IfSome, length, slice_get, true, OnOk, OnErr, IfOk, IfErr};
ghost use Rattle.std.specs.FinMap as map;
ghost use Rattle.sector_device.specs.Disk.{IsSynced, sector, SameOutside};
ghost use Rattle.sector_device.specs.DevicePast.{LeavesOnly, RunsWithin, CountsFailure};
ghost use Rattle.records.specs.RecordValue.{RecordValue};
ghost use Rattle.record_values.specs.GeometryValue.{sectors_of};
ghost use Rattle.record_values.specs.declared.number.TheConstants.{LAST_NUMBER};
ghost use Rattle.record_values.specs.declared.pair.Pair.{Pair as PairValue};
ghost use Rattle.record_values.specs.declared.pair.Mark.{Mark as MarkValue};
ghost use Rattle.record_values.specs.declared.geometry.TheConstants.{ENTRIES_PER_SECTOR};
ghost use Rattle.model.specs.Cells.{Cells};
ghost use Rattle.record_values.specs.Entries.{Index};
ghost use Rattle.model.specs.declared.life.Life.TheVariants.{Building};
ghost use Rattle.model.specs.declared.life.Life.{Life as LifeValue};
ghost use Rattle.model.specs.Redo.{cells_of};
ghost use Rattle.gate_log.specs.Group.{FitsGroup};
ghost use Rattle.gate_log.specs.Area.{IsAreaInside, IsGate, Stands};
ghost use Rattle.store_image_half.specs.Part.{IsImagePart};
ghost use Rattle.store_image_half.specs.Source.{FitsImage};
ghost use Rattle.flip_image.specs.declared.half.Half.{Half};
ghost use Rattle.flip_image.specs.Layout.{other, header_sector, InHalf, InHalfImage};
ghost use Rattle.flip_image.specs.declared.half.TheConstants.{FLIP_SECTOR};
ghost use Rattle.flip_image.specs.Store.{Names, HoldsImage};
ghost use Rattle.store_image_model.specs.Run.{Run, end_of, records_between};
ghost use Rattle.store_image_model.specs.declared.chunk.TheConstants.{CHUNK_ENTRIES};
ghost use Rattle.store_reader.specs.Contents.{log_area};
ghost use Rattle.store_writer.specs.declared.image.Stage.TheVariants.{Partly};
ghost use Rattle.store_writer.specs.Image.{IsUnderway, InNewLog, InNewSlot, IsPlan, BecomesImage, StaysAtStage};
ghost use Rattle.store_writer.specs.Known.{SamePages};
ghost use Rattle.store_writer.specs.Writer.{WritesOnly};
ghost use Rattle.store_writer.specs.Writer.{stage_behind};

use flip_image::Halves;
use gate_log::{Appended, LogArea, spell};
use model::{CellMaps, EntryMap, Life, ListMap, RowMap};
use records::{Error, Geometry, Mark, Pair, Record};
use sector_device::{Device, Failed};
use std::alloc::Allocator;
use store_image_model::CHUNK_ENTRIES;
use store_image_parts::Header;

/// How much of an image there is.
#[derive(Clone, Copy, Debug)]
pub(crate) enum Stage {
    /// All of it.
    Whole,
    /// Its lists, the rows of so many pages, and so many entries, of which the last one has the highest pair. The
    /// header is wanting, which is to tell the life.
    Partly {
        pages: u32,
        entries: u32,
        highest: Option<Pair>,
        life: Life,
    },
}

/// An image in the half that isn't current.
#[derive(Clone, Copy, Debug)]
pub(crate) struct NewImage {
    // The number of the last record made as it began.
    pub(crate) base: u64,
    // That of the last record made at its last step.
    pub(crate) number: u64,
    // How much of it there is.
    pub(crate) stage: Stage,
    // The log of its half, with the synced records above its base.
    pub(crate) log: LogArea,
}

/// What becomes of an image under way when a group is flushed.
#[derive(Drop)]
pub(crate) enum Plan<A: Allocator> {
    /// No record of the group is above its base, or there is no image.
    Keep,
    /// Its log has groups in half the slots.
    GiveUp,
    /// This is the body of the group's records above its base.
    Carry(Vec<u8, A>),
}

/// What is to become of an image when this group is flushed, which comes behind the record `synced`. Memory for the
/// group in the image's log is taken now.
pub(crate) fn plan_for<A: Allocator + Copy>(
    alloc: A,
    image: Option<NewImage>,
    geometry: Geometry,
    synced: u64,
    group: &[Record],
) -> Result<Plan<A>, Error>
    requires { FitsGroup group.now }
    ensures planned { IfOk result (IsPlan image geometry.slots synced group.now) }
    ensures no_memory { IfErr result (λ e. e ≡ Error.NoMemory) }
{
    let Some(image) = image else {
        return Ok(Plan::Keep);
    };
    let below = image.base.saturating_sub(synced);
    if group.len() as u64 <= below {
        return Ok(Plan::Keep);
    }
    if u64::from(geometry.slots) / 2 <= image.log.open_slots() {
        return Ok(Plan::GiveUp);
    }
    let body = spell(alloc, &group[below as usize..])?;
    Ok(Plan::Carry(body))
}

/// Does with an image what is planned.
pub(crate) fn carry<D: Device, A: Allocator>(
    device: &mut D,
    image: Option<NewImage>,
    plan: Plan<A>,
) -> Result<Option<NewImage>, Failed>
    requires planned { (slots synced : ℕ) × (group : List RecordValue) × IsPlan image slots synced group plan }
    requires inside { (i : NewImage) → image ≡ Some i → IsAreaInside i.log.area (D.past_of device.old).disk.content }
    requires room { (i : NewImage) → image ≡ Some i → i.log.open_slots ≤ i.log.area.slots }
    requires synced { IsSynced (D.past_of device.old).disk }
    requires stands { (i : NewImage) → image ≡ Some i → (groups : List (List RecordValue))
        × Stands i.log (D.past_of device.old).disk.content groups }
    ensures carried { IfOk result (λ new. (slots synced : ℕ) (group : List RecordValue)
        → IsPlan image slots synced group plan
        → (run : Run) (half : Half) → IfSome image (IsUnderway run half (D.past_of device.old).disk.content synced)
        → slots ≡ run.geometry.slots → run.last ≤ synced → synced + length group ≤ end_of run
        → group ≡ records_between run synced (synced + length group)
        → IfSome new (IsUnderway run half (D.past_of device.new).disk.content (synced + length group))) }
    ensures becomes { IfOk result (λ new. (slots synced : ℕ) (group : List RecordValue)
        → IsPlan image slots synced group plan
        → (run : Run) (half : Half) → IfSome image (IsUnderway run half (D.past_of device.old).disk.content synced)
        → slots ≡ run.geometry.slots → 0 < length group → BecomesImage slots synced (length group) image new) }
    ensures none { IfOk result (λ new. image ≡ None → new ≡ None) }
    ensures stage { IfOk result (λ new. StaysAtStage image new) }
    ensures synced { OnOk result (IsSynced (D.past_of device.new).disk) }
    ensures outside { SameOutside (InNewLog image) (D.past_of device.old).disk.content
        (D.past_of device.new).disk.content }
    ensures any_moment { LeavesOnly (D.past_of device.old) (D.past_of device.new)
        (SameOutside (InNewLog image) (D.past_of device.old).disk.content) }
    ensures slot { WritesOnly D.past_of (InNewSlot image) device.old device.new }
    ensures counts { CountsFailure (D.failures device.old) (D.failures device.new) result }
    ensures keeps { image ≡ None → OnErr result ⊥ }
{
    let body = match plan {
        Plan::Keep => return Ok(image),
        Plan::GiveUp => return Ok(None),
        Plan::Carry(body) => body,
    };
    let Some(mut image) = image else {
        return Ok(None);
    };
    match image.log.append_spelled(device, &body) {
        Ok(Appended::Done) => Ok(Some(image)),
        Ok(Appended::Full) => Ok(None),
        Err(_) => Err(Failed),
    }
}

// Closes the gates of the half that isn't current, and syncs. The answer is that half's log.
fn closed_log<D: Device>(device: &mut D, halves: Halves) -> Result<LogArea, Failed>
    requires room { sectors_of halves.geometry ≤ length (D.past_of device.old).disk.content }
    ensures area { IfOk result (λ log. log.area ≡ log_area halves.geometry (other halves.current)) }
    ensures empty { IfOk result (λ log. Stands log (D.past_of device.new).disk.content []) }
    ensures synced { OnOk result (IsSynced (D.past_of device.new).disk) }
    ensures outside { SameOutside (IsGate (log_area halves.geometry (other halves.current)))
        (D.past_of device.old).disk.content (D.past_of device.new).disk.content }
    ensures any_moment { LeavesOnly (D.past_of device.old) (D.past_of device.new)
        (SameOutside (λ n. IsGate (log_area halves.geometry (other halves.current)) n
        ⊎ ((D.past_of device.old).disk.unsynced n ≡ true)) (D.past_of device.old).disk.content) }
    ensures counts { CountsFailure (D.failures device.old) (D.failures device.new) result }
{
    let half = halves.current().other();
    let geometry = halves.geometry();
    let mut log = LogArea::new(half.log_first(geometry), u64::from(geometry.slots));
    match log.clear(device) {
        Ok(()) => Ok(log),
        Err(_) => Err(Failed),
    }
}

/// Closes the gates of the half that isn't current, and syncs; then writes the image of these cells into it, which the
/// record `base` left, without a sync. The answer is that half's log, which is empty. At each moment a crash leaves the
/// rest of the device as it is.
pub fn write_whole<D: Device, A: Allocator + Copy>(
    device: &mut D,
    halves: Halves,
    base: u64,
    cells: &CellMaps<A>,
) -> Result<LogArea, Failed>
    requires room { sectors_of halves.geometry ≤ length (D.past_of device.old).disk.content }
    requires current { Names (sector (D.past_of device.old).disk.content FLIP_SECTOR) halves.current }
    requires number { base ≤ LAST_NUMBER }
    requires fits { FitsImage halves.geometry (cells_of cells.now) }
    requires loose { (n : ℕ) → (D.past_of device.old).disk.unsynced n ≡ true
        → InHalfImage halves.geometry (other halves.current) n }
    ensures written { OnOk result (HoldsImage halves.geometry (other halves.current)
        (D.past_of device.new).disk.content base (cells_of cells.now)) }
    ensures area { IfOk result (λ log. log.area ≡ log_area halves.geometry (other halves.current)) }
    ensures empty { IfOk result (λ log. Stands log (D.past_of device.new).disk.content []) }
    ensures loose { OnOk result ((n : ℕ) → (D.past_of device.new).disk.unsynced n ≡ true
        → InHalfImage halves.geometry (other halves.current) n) }
    ensures outside { SameOutside (InHalf halves.geometry (other halves.current)) (D.past_of device.old).disk.content
        (D.past_of device.new).disk.content }
    ensures any_moment { LeavesOnly (D.past_of device.old) (D.past_of device.new)
        (SameOutside (InHalf halves.geometry (other halves.current)) (D.past_of device.old).disk.content) }
    ensures counts { CountsFailure (D.failures device.old) (D.failures device.new) result }
{
    let log = closed_log(device, halves)?;
    halves.write_image(device, base, cells)?;
    Ok(log)
}

/// Closes the gates of the half that isn't current, and syncs; then begins an image in it that is written part by part,
/// with the lists of these cells. The answer is that half's log.
pub(crate) fn write_first<D: Device, A: Allocator + Copy>(
    device: &mut D,
    halves: Halves,
    cells: &CellMaps<A>,
) -> Result<LogArea, Failed>
    requires room { sectors_of halves.geometry ≤ length (D.past_of device.old).disk.content }
    requires current { Names (sector (D.past_of device.old).disk.content FLIP_SECTOR) halves.current }
    requires fits { FitsImage halves.geometry (cells_of cells.now) }
    requires loose { (n : ℕ) → (D.past_of device.old).disk.unsynced n ≡ true
        → InHalfImage halves.geometry (other halves.current) n }
    ensures written { OnOk result (IsImagePart halves.geometry (header_sector halves.geometry (other halves.current))
        (D.past_of device.new).disk.content 0 (record (cells_of cells.now) { rows = map.empty; entries = map.empty })) }
    ensures area { IfOk result (λ log. log.area ≡ log_area halves.geometry (other halves.current)) }
    ensures empty { IfOk result (λ log. Stands log (D.past_of device.new).disk.content []) }
    ensures loose { OnOk result ((n : ℕ) → (D.past_of device.new).disk.unsynced n ≡ true
        → InHalfImage halves.geometry (other halves.current) n) }
    ensures outside { SameOutside (InHalf halves.geometry (other halves.current)) (D.past_of device.old).disk.content
        (D.past_of device.new).disk.content }
    ensures pages { SamePages halves.geometry (other halves.current) (D.past_of device.old).disk.content
        (D.past_of device.new).disk.content }
    ensures any_moment { LeavesOnly (D.past_of device.old) (D.past_of device.new)
        (SameOutside (InHalf halves.geometry (other halves.current)) (D.past_of device.old).disk.content) }
    ensures counts { CountsFailure (D.failures device.old) (D.failures device.new) result }
{
    let log = closed_log(device, halves)?;
    halves.write_start(device, cells)?;
    Ok(log)
}

/// Writes the next entries of an image that has all pages, behind as many as the header counts; and where they are
/// fewer than a chunk takes, the header behind them, which counts them too.
pub(crate) fn write_next<D: Device>(
    device: &mut D,
    halves: Halves,
    header: &Header,
    entries: &[(Pair, Mark)],
) -> Result<(), Failed>
    requires inside { sectors_of halves.geometry ≤ length (D.past_of device.old).disk.content }
    requires current { Names (sector (D.past_of device.old).disk.content FLIP_SECTOR) halves.current }
    requires full { header.now.entries % ENTRIES_PER_SECTOR ≡ 0 }
    requires room { header.now.entries + length entries.now ≤ halves.geometry.entries }
    requires pages { (i : ℕ) (e : PairValue × MarkValue) → slice_get entries.now i ≡ Some e
        → e.0.rid.page < halves.geometry.pages }
    requires base { header.now.base ≤ LAST_NUMBER }
    requires highest { (p : PairValue) → header.now.life ≡ Building (Some p) → p.rid.page < halves.geometry.pages }
    ensures part { OnOk result ((cells : Cells) (index : Index) → CHUNK_ENTRIES ≤ length entries.now
        → IsImagePart halves.geometry (header_sector halves.geometry (other halves.current))
        (D.past_of device.old).disk.content halves.geometry.pages cells
        → header.now.entries ≡ length (map.entries cells.entries)
        → map.entries index ≡ map.entries cells.entries ++ entries.now
        → IsImagePart halves.geometry (header_sector halves.geometry (other halves.current))
        (D.past_of device.new).disk.content halves.geometry.pages (record cells { entries = index })) }
    ensures whole { OnOk result ((cells : Cells) (index : Index) → length entries.now < CHUNK_ENTRIES
        → IsImagePart halves.geometry (header_sector halves.geometry (other halves.current))
        (D.past_of device.old).disk.content halves.geometry.pages cells
        → header.now.entries ≡ length (map.entries cells.entries)
        → map.entries index ≡ map.entries cells.entries ++ entries.now → header.now.life ≡ cells.life
        → HoldsImage halves.geometry (other halves.current) (D.past_of device.new).disk.content header.now.base
        (record cells { entries = index })) }
    ensures within { RunsWithin (λ n. InHalfImage halves.geometry (other halves.current) n
        ⊎ ((D.past_of device.old).disk.unsynced n ≡ true)) (D.past_of device.old).disk.content (D.past_of device.old)
        (D.past_of device.new) }
    ensures counts { CountsFailure (D.failures device.old) (D.failures device.new) result }
{
    halves.write_entries(device, header.entries, entries)?;
    if entries.len() < CHUNK_ENTRIES {
        let counted = header.entries + entries.len() as u32;
        halves.write_header(
            device,
            &Header {
                entries: counted,
                ..*header
            },
        )?;
    }
    Ok(())
}

/// Cells that have these lists and this life, and no more.
pub(crate) fn lists_alone<A: Allocator + Copy>(
    alloc: A,
    life: Life,
    lists: ListMap<A>,
) -> CellMaps<A>
    ensures { cells_of result ≡ record { rows = map.empty; entries = map.empty; pending = lists; life = life } }
{
    CellMaps {
        rows: RowMap::new(alloc),
        entries: EntryMap::new(alloc),
        lists,
        life,
    }
}

/// How much there is of an image behind so many pages and entries, with these entries: all of it where they are fewer
/// than a chunk takes.
pub(crate) fn stage_behind(pages: u32, count: u32, life: Life, entries: &[(Pair, Mark)]) -> Stage
    requires { count + length entries.now < 2 ^ 32 }
    ensures { result ≡ stage_behind pages count life entries.now }
{
    match entries.get(CHUNK_ENTRIES - 1) {
        None => Stage::Whole,
        Some(last) => Stage::Partly {
            pages,
            entries: count + entries.len() as u32,
            highest: Some(last.0),
            life,
        },
    }
}

/// An image that is copied in steps, with the rows of this page as the record `number` left them.
pub(crate) fn with_page(image: NewImage, number: u64, page: u32) -> NewImage
    requires partly { (pages count : ℕ) × (highest : Option PairValue) × (life : LifeValue)
        × (image.stage ≡ Partly pages count highest life) }
    requires room { page + 1 < 2 ^ 32 }
    ensures { (pages count : ℕ) (highest : Option PairValue) (life : LifeValue)
        → image.stage ≡ Partly pages count highest life
        → result ≡ record image { number = number; stage = Partly (page + 1) count highest life } }
{
    let NewImage {
        base,
        stage,
        log,
        ..
    } = image;
    let Stage::Partly {
        entries,
        highest,
        life,
        ..
    } = stage
    else {
        unreachable!()
    };
    let stage = Stage::Partly {
        pages: page + 1,
        entries,
        highest,
        life,
    };
    NewImage {
        base,
        number,
        stage,
        log,
    }
}
