//! The writer of a store.
ghost use Rattle.std.specs.Prelude.{◌≡◌, ◌≢◌, ◌+◌, ◌-◌, ◌≤◌, ◌++◌, ℕ, List, [], length, false, Some, Option, None};
ghost use Rattle.std.specs.Prelude.{◌↔◌, IsFalse, IsTrue, OnOk, OnErr, IfOk, IfErr};
ghost use Rattle.sector_device.specs.Disk.{CrashState, IsCrashState};
ghost use Rattle.sector_device.specs.DevicePast.{LeavesOnly};
ghost use Rattle.records.specs.RecordValue.{RecordValue};
ghost use Rattle.model.specs.Cells.{Cells};
ghost use Rattle.record_values.specs.declared.number.TheConstants.{LAST_NUMBER};
ghost use Rattle.record_values.specs.declared.pair.Pair.{Pair as PairValue};
ghost use Rattle.record_values.specs.declared.pair.Mark.{Mark as MarkValue};
ghost use Rattle.model.specs.Table.{Table};
ghost use Rattle.store_image_model.specs.declared.chunk.CopyPlace.{CopyPlace};
ghost use Rattle.store_image_model.specs.Run.{Run, IsRun, end_of};
ghost use Rattle.flip_image.specs.Layout.{other, InHalf};
ghost use Rattle.flip_image.specs.declared.half.TheConstants.{FLIP_SECTOR};
ghost use Rattle.store_writer.specs.Contents.{LeftBy};
ghost use Rattle.store_writer.specs.declared.image.NewImage.{NewImage};
ghost use Rattle.store_writer.specs.Copying.{next_place};
ghost use Rattle.store_writer.specs.Places.{AreRowsNow, AreEntriesNow};
ghost use Rattle.store_writer.specs.Image.{BecomesImage};
ghost use Rattle.store_writer.specs.Parts.{device_of, halves_of, log_of, waiting_of, synced_of, has_failed, image_of};
ghost use Rattle.store_writer.specs.Parts.{changed_of, copying_of, known_here, known_there, without_image};
ghost use Rattle.store_writer.specs.Known.{KnowsAsBefore, KnowsBehind, KnowsTurned, NotesChanges};

use crate::image::Stage;
use crate::known::KnownPages;
use crate::waiting::Waiting;
use crate::writer::Writer;
use crate::{Copying, FlipReply, FlushReply, StepReply};
use flip_image::Halves;
use gate_log::LogArea;
use records::{Error, Geometry, Record};
use sector_device::Device;
use std::alloc::Allocator;
use std::marker::Model;
use store_image_model::Chunk;

/// The one that owns a store's device, and takes the records that are made.
///
/// A crash at any moment leaves what a prefix of the records handed in makes of the store that was opened, one that has
/// every synced record. Every writer is where some run of records has left it: its type keeps that.
///
/// After `DeviceFailed` each call that needs the device answers that, and the device is left alone. It is to be opened
/// again.
#[derive(Drop)]
pub struct StoreWriter<D: Device, A: Allocator> {
    pub(crate) writer: Writer<D, A>,
}

impl<D: Device, A: Allocator> Model for StoreWriter<D, A> {
    ghost use Rattle.std.specs.Coded.{codes};
    ghost use Rattle.store_writer.specs.declared.writer.Writer.{Writer};
    ghost use Rattle.std.specs.FinMap as map;
    ghost use Rattle.store_writer.specs.Writer.{IsSomewhere};

    ghost Value = { Writer D A };

    ghost coded = { Prim.hlevel (codes, map.code) };

    ghost view = { λ store. store.writer };

    ghost invariant = { λ store. IsSomewhere D.past_of store.writer };
}

impl<D: Device, A: Allocator + Copy> StoreWriter<D, A> {
    ghost use Rattle.store_writer.specs.Writer.{IsWriter, IsOpenedAt, opened_run, longer, AreNext, IsLogFull};
    ghost use Rattle.store_writer.specs.Writer.{IsFlushReply, IsNotFlushed, IsPageChunk, IsEntriesChunk, IsChunk};
    ghost use Rattle.store_writer.specs.Writer.{MustStartAgain, IsStepReply, CanFlip, IsFlipReply, HasFailed};
    ghost use Rattle.store_writer.specs.Writer.{HasPassed, IsAsTaken, MayPass};
    ghost use Rattle.store_writer.specs.Writer.{InOpenedSlots, WritesLogsAlone, WritesOnly, IsAsBefore, IsBeforeFlush};

    /// A writer to which nothing was handed, over a device that is synced. The log is that of the current half, as a
    /// reader or `LogArea::clear` left it, and the current half has the cells after the record `synced`. Nothing is
    /// read, and no memory is taken.
    pub fn new(alloc: A, device: D, halves: Halves, log: LogArea, synced: u64) -> Self
        requires { (cells : Cells) × IsOpenedAt (D.past_of device) halves log synced cells }
        ensures writer { (cells : Cells) → IsOpenedAt (D.past_of device) halves log synced cells
            → IsWriter D.past_of (opened_run halves synced cells) synced result }
        ensures device { device_of result ≡ device }
        ensures halves { halves_of result ≡ halves }
        ensures log { log_of result ≡ log }
        ensures waiting { waiting_of result ≡ [] }
        ensures synced { synced_of result ≡ synced }
        ensures image { image_of result ≡ None }
        ensures copying { copying_of result ≡ Copying.Idle }
        ensures sound { has_failed result ≡ false }
        ensures knows { (changed_of result ≡ []) × (known_here result ≡ None) × (known_there result ≡ None) }
    {
        let writer = Writer {
            device,
            halves,
            log,
            waiting: Waiting::new(alloc),
            synced,
            image: None,
            copying: Copying::Idle,
            known: KnownPages::new(alloc),
            failed: false,
        };
        StoreWriter { writer }
    }

    /// A law: where more records are made, the writer stands as before.
    pub fn goes_on(&self)
        ensures { (run : Run) (handed : ℕ) (more : List RecordValue) → IsWriter D.past_of run handed self.now
            → IsRun (longer run more) → IsWriter D.past_of (longer run more) handed self.now }
    {}

    /// A law: the piece of an image that is due may be taken, as the last record made left its cells.
    pub fn next_pieces(&self)
        ensures page { (run : Run) (handed page : ℕ) (rows : Table) → IsWriter D.past_of run handed self.now
            → has_failed self.now ≡ false → end_of run ≤ LAST_NUMBER
            → next_place (copying_of self.now) ≡ Some (CopyPlace.Page page)
            → AreRowsNow run page rows → (i : NewImage) → (image_of self.now) ≡ Some i
            → IsPageChunk run i (end_of run) page rows }
        ensures entries { (run : Run) (handed : ℕ) (above : Option PairValue) (entries : List (PairValue × MarkValue))
            → IsWriter D.past_of run handed self.now → has_failed self.now ≡ false → end_of run ≤ LAST_NUMBER
            → next_place (copying_of self.now) ≡ Some (CopyPlace.Entries above)
            → AreEntriesNow run above entries → (i : NewImage) → (image_of self.now) ≡ Some i
            → IsEntriesChunk run i (end_of run) entries }
    {}

    /// Takes the records that come next in the run. They wait until `flush_group` writes them.
    ///
    /// An `Err` gives them back, for want of memory, and changes nothing. An empty list takes none.
    pub fn hand_in(&mut self, mut records: Vec<Record, A>) -> Result<(), Vec<Record, A>>
        requires { (run : Run) × (handed : ℕ) × IsWriter D.past_of run handed self.old
            × AreNext run handed records.items }
        ensures writer { OnOk result ((run : Run) (handed : ℕ) → IsWriter D.past_of run handed self.old
            → AreNext run handed records.items → IsWriter D.past_of run (handed + length records.items) self.new) }
        ensures waits { OnOk result (waiting_of self.new ≡ waiting_of self.old ++ records.items) }
        ensures unchanged { OnErr result ((run : Run) (handed : ℕ) → IsWriter D.past_of run handed self.old
            → IsWriter D.past_of run handed self.new) }
        ensures still { OnErr result (waiting_of self.new ≡ waiting_of self.old) }
        ensures back { IfErr result (λ back. back.items ≡ records.items) }
        ensures some { OnErr result (records.items ≢ []) }
        ensures device { device_of self.new ≡ device_of self.old }
        ensures halves { halves_of self.new ≡ halves_of self.old }
        ensures log { log_of self.new ≡ log_of self.old }
        ensures synced { synced_of self.new ≡ synced_of self.old }
        ensures image { image_of self.new ≡ image_of self.old }
        ensures copying { copying_of self.new ≡ copying_of self.old }
        ensures failed { has_failed self.new ≡ has_failed self.old }
        ensures notes { OnOk result (NotesChanges records.items self.old self.new) }
        ensures knows { OnErr result (KnowsAsBefore self.old self.new) }
    {
        if records.is_empty() {
            return Ok(());
        }
        let before = self.writer.waiting.len();
        match self.writer.waiting.append(&mut records) {
            Ok(()) => {}
            Err(_) => return Err(records),
        }
        self.writer
            .known
            .note(&self.writer.waiting.as_slice()[before..]);
        Ok(())
    }

    /// Writes the next group of the records that wait, as many of them, in order, as fill one, and syncs it. A group is
    /// written only where no memory is wanting. Where an image is under way, the group's records above its base are
    /// written to the log of its half too, or the image is given up (`image`).
    ///
    /// `NoMemory` means that nothing was written, and nothing changed. `DeviceFailed` comes where the device fails in
    /// the call, and from then on; the log has then no group more, unless an image is under way (`left`). Whatever the
    /// answer is, no sector is written but those of one slot of the current half's log, the first that isn't open, and,
    /// where an image is under way, of one slot of the log of its half (`slot`): the halves and the place of the log
    /// stay, and each lies within its half (`around`).
    pub fn flush_group(&mut self, alloc: A) -> Result<FlushReply, Error>
        ensures writer { (run : Run) (handed : ℕ) → IsWriter D.past_of run handed self.old
            → IsWriter D.past_of run handed self.new }
        ensures images { (run : Run) (handed : ℕ) → IsWriter D.past_of run handed self.old
            → LeavesOnly (D.past_of (device_of self.old)) (D.past_of (device_of self.new))
            (LeftBy run (synced_of self.old) handed) }
        ensures flushed { IfOk result (λ reply. IsFlushReply reply self.old self.new) }
        ensures image { (n : ℕ) → result ≡ Ok (FlushReply.Flushed n)
            → BecomesImage (halves_of self.old).geometry.slots (synced_of self.old) (n - synced_of self.old)
            (image_of self.old) (image_of self.new) }
        ensures copying { copying_of self.new ≡ copying_of self.old }
        ensures nothing { result ≡ Ok FlushReply.Nothing → (run : Run) (handed : ℕ)
            → IsWriter D.past_of run handed self.old → synced_of self.old ≡ handed }
        ensures idle { (run : Run) (handed : ℕ) → IsWriter D.past_of run handed self.old → has_failed self.old ≡ false
            → synced_of self.old ≡ handed → result ≡ Ok FlushReply.Nothing }
        ensures sound { OnOk result ((has_failed self.old ≡ false) × (has_failed self.new ≡ false)) }
        ensures full { has_failed self.old ≡ false → waiting_of self.old ≢ [] → IsLogFull self.old
            → result ≡ Ok FlushReply.LogFull }
        ensures err { IfErr result (λ e. IsNotFlushed D.failures e self.old self.new) }
        ensures kept { OnErr result (synced_of self.new ≡ synced_of self.old) }
        ensures quiet { OnOk result (D.failures (device_of self.new) ≡ D.failures (device_of self.old)) }
        ensures later { D.failures (device_of self.old) ≤ D.failures (device_of self.new) }
        ensures around { WritesLogsAlone D.past_of self.old self.new }
        ensures slot { WritesOnly D.past_of (InOpenedSlots self.old) (device_of self.old) (device_of self.new) }
        ensures left { OnErr result (IsBeforeFlush self.old self.new) }
        ensures knows { KnowsAsBefore self.old self.new }
    {
        self.writer.flush(alloc)
    }

    /// Takes what was copied into an image, into the half that isn't current. All cells, as the record of the chunk's
    /// number left them, make a whole image; life and lists begin one that is copied in steps; either gives up an image
    /// that was under way, and its log is empty. Then come the rows of each page in order, and the entries in order,
    /// the last ones fewer than a chunk takes: with them the image is whole. Its copying goes on behind the piece.
    ///
    /// `StartAgain` where the image is copied in steps and every slot of the current log is open, or it was given up,
    /// or its entries would pass the geometry's: the image is given up, nothing is written, and a whole image is
    /// wanted. `DeviceFailed` comes where the device fails in the call, and from then on. Whatever the answer is, no
    /// sector is written but those of the half that isn't current (`around`).
    pub fn checkpoint_step(&mut self, chunk: Chunk<A>) -> Result<StepReply, Error>
        requires { (run : Run) × (handed : ℕ) × IsWriter D.past_of run handed self.old
            × IsChunk run self.old chunk.number chunk.piece }
        ensures writer { (run : Run) (handed : ℕ) → IsWriter D.past_of run handed self.old
            → IsChunk run self.old chunk.number chunk.piece → IsWriter D.past_of run handed self.new }
        ensures images { (run : Run) (handed : ℕ) → IsWriter D.past_of run handed self.old
            → LeavesOnly (D.past_of (device_of self.old)) (D.past_of (device_of self.new))
            (LeftBy run (synced_of self.old) handed) }
        ensures stepped { IfOk result (λ reply. IsStepReply chunk.number chunk.piece reply self.old self.new) }
        ensures sound { OnOk result ((has_failed self.old ≡ false) × (has_failed self.new ≡ false)) }
        ensures again { has_failed self.old ≡ false → MustStartAgain chunk.piece self.old
            → result ≡ Ok StepReply.StartAgain }
        ensures err { IfErr result (λ e. HasFailed D.failures e self.old self.new) }
        ensures quiet { OnOk result (D.failures (device_of self.new) ≡ D.failures (device_of self.old)) }
        ensures later { D.failures (device_of self.old) ≤ D.failures (device_of self.new) }
        ensures kept { synced_of self.new ≡ synced_of self.old }
        ensures around { WritesOnly D.past_of (InHalf (halves_of self.old).geometry
            (other (halves_of self.old).current)) (device_of self.old) (device_of self.new) }
        ensures left { OnErr result (IsAsBefore self.old self.new) }
        ensures knows { IfOk result (λ reply. reply ≡ StepReply.Taken
            → KnowsBehind chunk.number chunk.piece self.old self.new) }
    {
        if self.writer.failed {
            return Err(Error::DeviceFailed);
        }
        let behind = chunk.place_behind(self.writer.halves.geometry());
        let Chunk { number, piece } = chunk;
        if self.writer.must_start_again(&piece) {
            self.writer.image = None;
            self.writer.copying = Copying::GivenUp;
            return Ok(StepReply::StartAgain);
        }
        self.writer.take(number, piece, behind)?;
        Ok(StepReply::Taken)
    }

    /// Passes over the next page of the image under way, if its half is known to have it as it is (`when`): from the
    /// image that it had before the current one, since whose base no record set a row of it. Nothing is written, and
    /// the image is as if the page had been copied and taken (`taken`).
    pub fn pass_page(&mut self) -> bool
        ensures writer { (run : Run) (handed : ℕ) → IsWriter D.past_of run handed self.old
            → IsWriter D.past_of run handed self.new }
        ensures passed { IsTrue result → HasPassed self.old self.new }
        ensures still { IsFalse result → self.new ≡ self.old }
        ensures when { IsTrue result ↔ MayPass self.old }
        ensures taken { IsTrue result → (run : Run) (handed : ℕ) → IsWriter D.past_of run handed self.old
            → IsAsTaken run handed self.old self.new }
    {
        self.writer.pass()
    }

    /// Gives up an image under way: a whole one is to be taken at once. No sector is written.
    pub fn give_up(&mut self)
        ensures writer { (run : Run) (handed : ℕ) → IsWriter D.past_of run handed self.old
            → IsWriter D.past_of run handed self.new }
        ensures gives_up { self.new ≡ without_image Copying.GivenUp self.old }
    {
        self.writer.image = None;
        self.writer.copying = Copying::GivenUp;
    }

    /// Forgets an image under way: the next one is copied from its start. No sector is written.
    pub fn forget_image(&mut self)
        ensures writer { (run : Run) (handed : ℕ) → IsWriter D.past_of run handed self.old
            → IsWriter D.past_of run handed self.new }
        ensures forgets { self.new ≡ without_image Copying.Idle self.old }
    {
        self.writer.image = None;
        self.writer.copying = Copying::Idle;
    }

    /// Makes the image current, and drops the records that wait and are in it. From then on what a crash leaves has
    /// every record up to the image's base, and those of its log.
    ///
    /// `Behind` where there is no image, or a record up to its last step isn't handed in, or one of them above its base
    /// isn't synced; nothing changes. `DeviceFailed` comes where the device fails in the call, and from then on.
    /// Whatever the answer is, no sector is written but the one that tells which half is current (`around`).
    pub fn checkpoint_flip(&mut self) -> Result<FlipReply, Error>
        ensures writer { (run : Run) (handed : ℕ) → IsWriter D.past_of run handed self.old
            → IsWriter D.past_of run handed self.new }
        ensures images { (run : Run) (handed : ℕ) → IsWriter D.past_of run handed self.old
            → LeavesOnly (D.past_of (device_of self.old)) (D.past_of (device_of self.new))
            (LeftBy run (synced_of self.old) handed) }
        ensures flipped { (run : Run) (handed : ℕ) → IsWriter D.past_of run handed self.old
            → IfOk result (λ reply. IsFlipReply handed reply self.old self.new) }
        ensures sound { OnOk result ((has_failed self.old ≡ false) × (has_failed self.new ≡ false)) }
        ensures behind { (run : Run) (handed : ℕ) → IsWriter D.past_of run handed self.old → has_failed self.old ≡ false
            → ¬ CanFlip handed self.old → result ≡ Ok FlipReply.Behind }
        ensures err { IfErr result (λ e. HasFailed D.failures e self.old self.new) }
        ensures quiet { OnOk result (D.failures (device_of self.new) ≡ D.failures (device_of self.old)) }
        ensures later { D.failures (device_of self.old) ≤ D.failures (device_of self.new) }
        ensures kept { OnErr result (synced_of self.new ≡ synced_of self.old) }
        ensures around { WritesOnly D.past_of (λ n. n ≡ FLIP_SECTOR) (device_of self.old) (device_of self.new) }
        ensures left { OnErr result (IsAsBefore self.old self.new) }
        ensures turns { (n : ℕ) → result ≡ Ok (FlipReply.Flipped n) → KnowsTurned self.old self.new }
    {
        if self.writer.failed {
            return Err(Error::DeviceFailed);
        }
        let Some(image) = self.writer.image else {
            return Ok(FlipReply::Behind);
        };
        let Stage::Whole = image.stage else {
            return Ok(FlipReply::Behind);
        };
        let reached = image.base.max(self.writer.synced);
        let handed = self.writer.synced + self.writer.waiting.len() as u64;
        if handed < image.number || reached < image.number {
            return Ok(FlipReply::Behind);
        }
        if self.writer.halves.flip(&mut self.writer.device).is_err() {
            self.writer.failed = true;
            return Err(Error::DeviceFailed);
        }
        self.writer
            .waiting
            .take_first((reached - self.writer.synced) as usize);
        self.writer.log = image.log;
        self.writer.image = None;
        self.writer.copying = Copying::Idle;
        self.writer.known.turn(image.base);
        self.writer.synced = reached;
        Ok(FlipReply::Flipped(reached))
    }

    /// The number of the last synced record: what a crash leaves from now on has it.
    pub fn synced(&self) -> u64
        ensures { result ≡ synced_of self.now }
    {
        self.writer.synced
    }

    /// Whether the device has failed.
    pub fn has_failed(&self) -> bool
        ensures { result ≡ has_failed self.now }
    {
        self.writer.failed
    }

    /// How far the copying of an image has come.
    pub fn copying(&self) -> Copying
        ensures { result ≡ copying_of self.now }
    {
        self.writer.copying
    }

    /// How large the store is.
    pub fn geometry(&self) -> Geometry
        ensures { result ≡ (halves_of self.now).geometry }
    {
        self.writer.halves.geometry()
    }

    /// How many slots of the current half's log are open.
    pub fn open_slots(&self) -> u64
        ensures { result ≡ (log_of self.now).open_slots }
    {
        self.writer.log.open_slots()
    }

    /// The device as it is now.
    pub fn device(&self) -> &D
        ensures { result.now ≡ device_of self.now }
    {
        &self.writer.device
    }

    /// The device as it is now. The records that wait are lost.
    pub fn into_device(self) -> D
        ensures device { result ≡ device_of self }
        ensures images { (run : Run) (handed : ℕ) → IsWriter D.past_of run handed self → (image : CrashState)
            → IsCrashState (D.past_of result).disk image → LeftBy run (synced_of self) handed image }
    {
        self.writer.device
    }
}
