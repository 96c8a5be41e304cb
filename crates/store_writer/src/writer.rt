//! A device, its log, and the records that wait for it.
ghost use Rattle.std.specs.Prelude.{◌≡◌, ◌≢◌, ◌↔◌, ◌⊎◌, ◌+◌, ◌^◌, ◌≤◌, ◌<◌, ℕ, length, take, true};
ghost use Rattle.std.specs.Prelude.{false, Some, None, IsFalse, IsTrue, OnOk, OnErr, IfErr};
ghost use Rattle.sector_device.specs.DevicePast.{LeavesOnly};
ghost use Rattle.model.specs.Redo.{cells_of};
ghost use Rattle.store_image_model.specs.Run.{Run};
ghost use Rattle.store_image_model.specs.Places.{place_behind};
ghost use Rattle.flip_image.specs.Layout.{other, InHalf};
ghost use Rattle.store_writer.specs.Contents.{LeftBy};
ghost use Rattle.store_writer.specs.Copying.{entries_behind, page_behind};
ghost use Rattle.store_writer.specs.Image.{IsPlan};
ghost use Rattle.store_writer.specs.Known.{BeginsToKnow, KnowsAsBefore, KnowsBehind, StaysKnown};
ghost use Rattle.store_writer.specs.Parts.{changed_of, handed_of, known_here, known_there};

use crate::Copying;
use crate::image::{
    NewImage, Plan, Stage, carry, lists_alone, plan_for, stage_behind, with_page, write_first,
    write_next, write_whole,
};
use crate::known::KnownPages;
use crate::page::write_rows;
use crate::waiting::Waiting;
use flip_image::Halves;
use gate_log::{Appended, LogArea, group_len, spell};
use model::{CellMaps, Life, ListMap};
use records::{Error, Geometry, Mark, Pair};
use sector_device::Device;
use std::alloc::Allocator;
use store_image_model::{CopyPlace, PageRows, Piece};
use store_image_parts::Header;

/// What became of a flush.
#[derive(Clone, Copy, Debug, PartialEq, Eq)]
pub enum FlushReply {
    /// The next group is in the log, and the records up to this number are synced.
    Flushed(u64),
    /// No record waited.
    Nothing,
    /// A record waits, and every slot of the log is open. A flip gives room; where records that a whole image has to
    /// reach still wait, it can't, and a whole image is to be taken.
    LogFull,
}

/// What became of a step of an image.
#[derive(Clone, Copy, Debug, PartialEq, Eq)]
pub enum StepReply {
    /// What was copied is in the image.
    Taken,
    /// It isn't, and the image has to be copied from its start.
    StartAgain,
}

/// What became of a flip.
#[derive(Clone, Copy, Debug, PartialEq, Eq)]
pub enum FlipReply {
    /// The image is current, and the records up to this number are synced.
    Flipped(u64),
    /// There is no whole image, or a record up to its last step isn't handed in, or one of them above its base isn't
    /// synced. Where the log is full and such a record waits, no flush will sync it: a whole image is to be taken.
    Behind,
}

/// The one that owns a store's device.
#[derive(Drop)]
pub(crate) struct Writer<D, A: Allocator> {
    pub(crate) device: D,
    pub(crate) halves: Halves,
    // The log of the current half.
    pub(crate) log: LogArea,
    // The records that were handed in and are not synced yet, in order.
    pub(crate) waiting: Waiting<A>,
    // The number of the last synced record.
    pub(crate) synced: u64,
    // The image in the half that isn't current, if one is under way.
    pub(crate) image: Option<NewImage>,
    // How far its copying has come.
    pub(crate) copying: Copying,
    // Which pages the halves have as they are.
    pub(crate) known: KnownPages<A>,
    // Whether the device has failed.
    pub(crate) failed: bool,
}

// Whether every slot of a log of this geometry is open.
pub(crate) fn is_full(log: LogArea, geometry: Geometry) -> bool
    ensures { IsTrue result ↔ (log.open_slots ≡ geometry.slots) }
{
    log.open_slots() == u64::from(geometry.slots)
}

// Whether so many entries and so many more pass those that there is room for.
fn has_no_room(geometry: Geometry, count: u32, more: usize) -> bool
    ensures { IsTrue result ↔ (geometry.entries < count + more) }
{
    u64::from(geometry.entries) - u64::from(count.min(geometry.entries)) < more as u64
        || geometry.entries < count
}

impl<D: Device, A: Allocator + Copy> Writer<D, A> {
    ghost use Rattle.store_writer.specs.Writer.{IsWriter, HasAppended, HasBegun, HasCarriedOn, HasFlushed, HasKept};
    ghost use Rattle.store_writer.specs.Writer.{HasRows, HasTaken, HaveEntries, IsAsBefore, IsChunk, IsEntriesChunk};
    ghost use Rattle.store_writer.specs.Writer.{IsPageChunk, IsPast, IsSomewhere, IsStartChunk, IsWholeChunk};
    ghost use Rattle.store_writer.specs.Writer.{MustStartAgain, HasFailed, HasPassed, IsAsTaken, MayPass, WritesOnly};

    // Writes the next group of the records that wait, and syncs it.
    pub(crate) fn flush(&mut self, alloc: A) -> Result<FlushReply, Error>
        requires { IsSomewhere D.past_of self.old }
        ensures { HasFlushed D.past_of D.failures self.old self.new result }
    {
        if self.failed {
            return Err(Error::DeviceFailed);
        }
        let waiting = self.waiting.as_slice();
        let count = group_len(waiting);
        if count == 0 {
            return Ok(FlushReply::Nothing);
        }
        if is_full(self.log, self.halves.geometry()) {
            return Ok(FlushReply::LogFull);
        }
        let group = &waiting[..count];
        let body = spell(alloc, group)?;
        let plan = plan_for(
            alloc,
            self.image,
            self.halves.geometry(),
            self.synced,
            group,
        )?;
        match self.log.append_spelled(&mut self.device, &body) {
            Ok(Appended::Done) => self.carry_on(count, plan),
            Ok(Appended::Full) => Ok(FlushReply::LogFull),
            Err(_) => {
                self.failed = true;
                Err(Error::DeviceFailed)
            }
        }
    }

    // The first waiting records, a group, were added to the current half's log: those above the base of an image go
    // into the log of its half, as planned.
    pub(crate) fn carry_on(&mut self, count: usize, plan: Plan<A>) -> Result<FlushReply, Error>
        requires appended { (run : Run) × (handed : ℕ) × HasAppended D.past_of run handed count self.old }
        requires planned { IsPlan self.old.image self.old.halves.geometry.slots self.old.synced
            (take count self.old.waiting) plan }
        requires sound { self.old.failed ≡ false }
        ensures { HasCarriedOn D.past_of D.failures count plan self.old self.new result }
    {
        match carry(&mut self.device, self.image, plan) {
            Ok(image) => {
                self.image = image;
                self.synced += count as u64;
                self.waiting.take_first(count);
                Ok(FlushReply::Flushed(self.synced))
            }
            Err(_) => {
                self.failed = true;
                Err(Error::DeviceFailed)
            }
        }
    }

    // Whether an image is to be copied from its start, so that this piece isn't taken.
    pub(crate) fn must_start_again(&self, piece: &Piece<A>) -> bool
        ensures { IsTrue result ↔ MustStartAgain piece.now self.now }
    {
        let geometry = self.halves.geometry();
        match piece {
            Piece::Whole { .. } => false,
            Piece::Start { .. } => is_full(self.log, geometry),
            Piece::Page { .. } => self.image.is_none() || is_full(self.log, geometry),
            Piece::Entries { entries } => {
                self.image.is_none() || is_full(self.log, geometry) || self.is_past(entries.len())
            }
        }
    }

    // Whether the image's entries with so many more pass the geometry's.
    fn is_past(&self, more: usize) -> bool
        ensures { IsTrue result ↔ IsPast self.now more }
    {
        let Some(image) = self.image else {
            return false;
        };
        let Stage::Partly { entries, .. } = image.stage else {
            return false;
        };
        has_no_room(self.halves.geometry(), entries, more)
    }

    // Takes a piece that may be taken.
    pub(crate) fn take(
        &mut self,
        number: u64,
        piece: Piece<A>,
        behind: Option<CopyPlace>,
    ) -> Result<(), Error>
        requires sound { self.old.failed ≡ false }
        requires chunk { (run : Run) × (handed : ℕ) × IsWriter D.past_of run handed self.old
            × IsChunk run self.old number piece }
        requires goes_on { ¬ MustStartAgain piece self.old }
        requires behind { behind ≡ place_behind self.old.halves.geometry.pages piece }
        ensures writer { (run : Run) (handed : ℕ) → IsWriter D.past_of run handed self.old
            → IsChunk run self.old number piece → IsWriter D.past_of run handed self.new }
        ensures images { (run : Run) (handed : ℕ) → IsWriter D.past_of run handed self.old
            → LeavesOnly (D.past_of self.old.device) (D.past_of self.new.device) (LeftBy run self.old.synced handed) }
        ensures taken { OnOk result (HasTaken number piece self.old self.new) }
        ensures knows { OnOk result (KnowsBehind number piece self.old self.new) }
        ensures synced { self.new.synced ≡ self.old.synced }
        ensures err { IfErr result (λ e. HasFailed D.failures e self.old self.new) }
        ensures quiet { OnOk result (D.failures self.new.device ≡ D.failures self.old.device) }
        ensures later { D.failures self.old.device ≤ D.failures self.new.device }
        ensures around { WritesOnly D.past_of (InHalf self.old.halves.geometry (other self.old.halves.current))
            self.old.device self.new.device }
        ensures left { OnErr result (IsAsBefore self.old self.new) }
    {
        match piece {
            Piece::Whole { cells } => self.take_whole(number, &cells),
            Piece::Start { life, lists } => self.take_start(number, life, lists),
            Piece::Page { page, rows } => self.take_page(number, page, rows, behind),
            Piece::Entries { entries } => self.take_entries(number, &entries, behind),
        }
    }

    /// Writes the image of these cells, which the record `number` left, into the half that isn't current, whose log is
    /// then empty. An image that was under way is given up.
    pub(crate) fn take_whole(&mut self, number: u64, cells: &CellMaps<A>) -> Result<(), Error>
        requires sound { self.old.failed ≡ false }
        requires whole { (run : Run) × (handed : ℕ) × IsWriter D.past_of run handed self.old
            × IsWholeChunk run self.old.synced number (cells_of cells.now) }
        ensures writer { (run : Run) (handed : ℕ) → IsWriter D.past_of run handed self.old
            → IsWholeChunk run self.old.synced number (cells_of cells.now) → IsWriter D.past_of run handed self.new }
        ensures images { (run : Run) (handed : ℕ) → IsWriter D.past_of run handed self.old
            → LeavesOnly (D.past_of self.old.device) (D.past_of self.new.device) (LeftBy run self.old.synced handed) }
        ensures taken { OnOk result ((image : NewImage) × HasKept image self.old self.new
            × HasBegun number Stage.Whole image × (self.new.copying ≡ Copying.Steps None)) }
        ensures knows { OnOk result ((changed_of self.new ≡ changed_of self.old)
            × (known_here self.new ≡ known_here self.old)) }
        ensures synced { self.new.synced ≡ self.old.synced }
        ensures err { IfErr result (λ e. HasFailed D.failures e self.old self.new) }
        ensures quiet { OnOk result (D.failures self.new.device ≡ D.failures self.old.device) }
        ensures later { D.failures self.old.device ≤ D.failures self.new.device }
        ensures around { WritesOnly D.past_of (InHalf self.old.halves.geometry (other self.old.halves.current))
            self.old.device self.new.device }
        ensures left { OnErr result (IsAsBefore self.old self.new) }
    {
        match write_whole(&mut self.device, self.halves, number, cells) {
            Ok(log) => {
                self.image = Some(NewImage {
                    base: number,
                    number,
                    stage: Stage::Whole,
                    log,
                });
                self.copying = Copying::Steps(None);
                self.known.other = None;
                Ok(())
            }
            Err(_) => {
                self.failed = true;
                Err(Error::DeviceFailed)
            }
        }
    }

    /// Begins an image that is copied in steps with life and lists as the record `number` left them. An image that was
    /// under way is given up.
    pub(crate) fn take_start(
        &mut self,
        number: u64,
        life: Life,
        lists: ListMap<A>,
    ) -> Result<(), Error>
        requires sound { self.old.failed ≡ false }
        requires start { (run : Run) × (handed : ℕ) × IsWriter D.past_of run handed self.old
            × IsStartChunk run self.old.synced number life lists }
        ensures writer { (run : Run) (handed : ℕ) → IsWriter D.past_of run handed self.old
            → IsStartChunk run self.old.synced number life lists → IsWriter D.past_of run handed self.new }
        ensures images { (run : Run) (handed : ℕ) → IsWriter D.past_of run handed self.old
            → LeavesOnly (D.past_of self.old.device) (D.past_of self.new.device) (LeftBy run self.old.synced handed) }
        ensures taken { OnOk result ((image : NewImage) × HasKept image self.old self.new
            × HasBegun number (Stage.Partly 0 0 None life) image
            × (self.new.copying ≡ Copying.Steps (Some (CopyPlace.Page 0)))) }
        ensures knows { OnOk result (KnowsAsBefore self.old self.new ⊎ BeginsToKnow self.old self.new) }
        ensures synced { self.new.synced ≡ self.old.synced }
        ensures err { IfErr result (λ e. HasFailed D.failures e self.old self.new) }
        ensures quiet { OnOk result (D.failures self.new.device ≡ D.failures self.old.device) }
        ensures later { D.failures self.old.device ≤ D.failures self.new.device }
        ensures around { WritesOnly D.past_of (InHalf self.old.halves.geometry (other self.old.halves.current))
            self.old.device self.new.device }
        ensures left { OnErr result (IsAsBefore self.old self.new) }
    {
        let alloc = self.waiting.allocator();
        let handed = self.handed();
        let cells = lists_alone(alloc, life, lists);
        match write_first(&mut self.device, self.halves, &cells) {
            Ok(log) => {
                let life = cells.life;
                let stage = Stage::Partly {
                    pages: 0,
                    entries: 0,
                    highest: None,
                    life,
                };
                self.image = Some(NewImage {
                    base: number,
                    number,
                    stage,
                    log,
                });
                self.copying = Copying::Steps(Some(CopyPlace::Page(0)));
                self.known.begin_at(self.halves.geometry().pages, handed);
                Ok(())
            }
            Err(_) => {
                self.failed = true;
                Err(Error::DeviceFailed)
            }
        }
    }

    /// Takes the rows of the image's next page, as they are after the record `number`. The copying goes on behind it.
    pub(crate) fn take_page(
        &mut self,
        number: u64,
        page: u32,
        rows: PageRows<A>,
        behind: Option<CopyPlace>,
    ) -> Result<(), Error>
        requires sound { self.old.failed ≡ false }
        requires some { self.old.image ≢ None }
        requires page { (run : Run) × (handed : ℕ) × IsWriter D.past_of run handed self.old
            × ((image : NewImage) → self.old.image ≡ Some image → IsPageChunk run image number page rows) }
        requires behind { behind ≡ page_behind self.old.halves.geometry.pages page }
        ensures writer { (run : Run) (handed : ℕ) → IsWriter D.past_of run handed self.old
            → ((image : NewImage) → self.old.image ≡ Some image → IsPageChunk run image number page rows)
            → IsWriter D.past_of run handed self.new }
        ensures images { (run : Run) (handed : ℕ) → IsWriter D.past_of run handed self.old
            → LeavesOnly (D.past_of self.old.device) (D.past_of self.new.device) (LeftBy run self.old.synced handed) }
        ensures taken { OnOk result ((image : NewImage) × HasKept image self.old self.new
            × HasRows number page self.old image × (self.new.copying ≡ Copying.Steps behind)) }
        ensures knows { OnOk result ((changed_of self.new ≡ changed_of self.old)
            × (known_here self.new ≡ known_here self.old)
            × StaysKnown number (handed_of self.old) (known_there self.old) (known_there self.new)) }
        ensures synced { self.new.synced ≡ self.old.synced }
        ensures err { IfErr result (λ e. HasFailed D.failures e self.old self.new) }
        ensures quiet { OnOk result (D.failures self.new.device ≡ D.failures self.old.device) }
        ensures later { D.failures self.old.device ≤ D.failures self.new.device }
        ensures around { WritesOnly D.past_of (InHalf self.old.halves.geometry (other self.old.halves.current))
            self.old.device self.new.device }
        ensures left { OnErr result (IsAsBefore self.old self.new) }
    {
        let Some(image) = self.image else {
            unreachable!()
        };
        let handed = self.handed();
        if write_rows(&mut self.device, self.halves, page, &rows).is_err() {
            self.failed = true;
            return Err(Error::DeviceFailed);
        }
        self.image = Some(with_page(image, number, page));
        self.copying = Copying::Steps(behind);
        self.known.page_written(number, handed);
        Ok(())
    }

    /// Takes the image's next entries, as they are after the record `number`: behind the last ones it is whole.
    pub(crate) fn take_entries(
        &mut self,
        number: u64,
        entries: &[(Pair, Mark)],
        behind: Option<CopyPlace>,
    ) -> Result<(), Error>
        requires sound { self.old.failed ≡ false }
        requires some { self.old.image ≢ None }
        requires room { ¬ IsPast self.old (length entries.now) }
        requires entries { (run : Run) × (handed : ℕ) × IsWriter D.past_of run handed self.old
            × ((image : NewImage) → self.old.image ≡ Some image → IsEntriesChunk run image number entries.now) }
        requires behind { behind ≡ entries_behind entries.now }
        ensures writer { (run : Run) (handed : ℕ) → IsWriter D.past_of run handed self.old
            → ((image : NewImage) → self.old.image ≡ Some image → IsEntriesChunk run image number entries.now)
            → IsWriter D.past_of run handed self.new }
        ensures images { (run : Run) (handed : ℕ) → IsWriter D.past_of run handed self.old
            → LeavesOnly (D.past_of self.old.device) (D.past_of self.new.device) (LeftBy run self.old.synced handed) }
        ensures taken { OnOk result ((image : NewImage) × HasKept image self.old self.new
            × HaveEntries number entries.now self.old image × (self.new.copying ≡ Copying.Steps behind)) }
        ensures knows { OnOk result ((changed_of self.new ≡ changed_of self.old)
            × (known_here self.new ≡ known_here self.old)) }
        ensures synced { self.new.synced ≡ self.old.synced }
        ensures err { IfErr result (λ e. HasFailed D.failures e self.old self.new) }
        ensures quiet { OnOk result (D.failures self.new.device ≡ D.failures self.old.device) }
        ensures later { D.failures self.old.device ≤ D.failures self.new.device }
        ensures around { WritesOnly D.past_of (InHalf self.old.halves.geometry (other self.old.halves.current))
            self.old.device self.new.device }
        ensures left { OnErr result (IsAsBefore self.old self.new) }
    {
        let Some(image) = self.image else {
            unreachable!()
        };
        let NewImage {
            base,
            stage,
            log,
            ..
        } = image;
        let Stage::Partly {
            pages,
            entries: count,
            life,
            ..
        } = stage
        else {
            unreachable!()
        };
        let header = Header {
            life,
            base,
            entries: count,
        };
        if write_next(&mut self.device, self.halves, &header, entries).is_err() {
            self.failed = true;
            return Err(Error::DeviceFailed);
        }
        let stage = stage_behind(pages, count, header.life, entries);
        self.image = Some(NewImage {
            base,
            number,
            stage,
            log,
        });
        self.copying = Copying::Steps(behind);
        self.known.other = None;
        Ok(())
    }

    /// The number of the last record that was handed in.
    fn handed(&self) -> u64
        requires { IsSomewhere D.past_of self.now }
        ensures { result ≡ handed_of self.now }
    {
        self.synced + self.waiting.len() as u64
    }

    // The place behind a page.
    fn place_behind(&self, page: u32) -> CopyPlace
        requires { page + 1 < 2 ^ 32 }
        ensures { Some result ≡ page_behind self.now.halves.geometry.pages page }
    {
        if page + 1 < self.halves.geometry().pages {
            CopyPlace::Page(page + 1)
        } else {
            CopyPlace::Entries(None)
        }
    }

    /// Passes over the next page of the image under way, if its half has it as it is.
    pub(crate) fn pass(&mut self) -> bool
        requires { IsSomewhere D.past_of self.old }
        ensures writer { (run : Run) (handed : ℕ) → IsWriter D.past_of run handed self.old
            → IsWriter D.past_of run handed self.new }
        ensures passed { IsTrue result → HasPassed self.old self.new }
        ensures still { IsFalse result → self.new ≡ self.old }
        ensures when { IsTrue result ↔ MayPass self.old }
        ensures taken { IsTrue result → (run : Run) (handed : ℕ) → IsWriter D.past_of run handed self.old
            → IsAsTaken run handed self.old self.new }
    {
        let Some(image) = self.image else {
            return false;
        };
        let Stage::Partly { pages: page, .. } = image.stage else {
            return false;
        };
        if self.failed || is_full(self.log, self.halves.geometry()) || !self.known.has(page) {
            return false;
        }
        let handed = self.handed();
        if handed < image.number {
            return false;
        }
        self.image = Some(with_page(image, handed, page));
        self.copying = Copying::Steps(Some(self.place_behind(page)));
        true
    }
}
