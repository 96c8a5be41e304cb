//! What the flusher owns.
ghost use Rattle.std.specs.FinMap.{len};
ghost use Rattle.std.specs.Prelude.{◌≡◌, ◌≢◌, ◌-◌, ◌≤◌, ◌++◌, ◌∷◌, ℕ, List, [], length, take, false, Ok, OnOk, OnErr};
ghost use Rattle.std.specs.Prelude.{◌↔◌, ◌+◌, IfErr, IfOk, IsFalse, IsTrue};
ghost use Rattle.sector_device.specs.Disk.{CrashState, IsCrashState};
ghost use Rattle.sector_device.specs.DevicePast.{LeavesOnly};
ghost use Rattle.records.specs.RecordValue.{RecordValue};
ghost use Rattle.model.specs.Given.{opening_cells};
ghost use Rattle.board.specs.Views.{FlusherCount};
ghost use Rattle.threads_flusher.specs.Part.{IsMarkOf, count_of};
ghost use Rattle.store_writer.specs.Image.{BecomesImage};
ghost use Rattle.store_writer.specs.Parts.{copying_of, device_of, halves_of, has_failed, image_of, synced_of};
ghost use Rattle.store_writer.specs.Parts.{waiting_of};
ghost use Rattle.flip_image.specs.Layout.{InHalf, other};
ghost use Rattle.flip_image.specs.declared.half.TheConstants.{FLIP_SECTOR};
ghost use Rattle.store_writer.specs.Writer.{CanFlip, HasFailed, InOpenedSlots, IsAsBefore, IsBeforeFlush, IsChunk};
ghost use Rattle.store_writer.specs.Writer.{HasPassed, IsAsTaken, MayPass};
ghost use Rattle.store_writer.specs.Writer.{IsFlipReply, IsFlushReply, IsLogFull, IsNotFlushed, IsStepReply, IsWriter};
ghost use Rattle.store_writer.specs.Writer.{MustStartAgain, WritesLogsAlone, WritesOnly, opened_run};

use crate::ends::FlushEnds;
use board::{Board, FlushView};
use ghost_list::GhostList;
use locked_core::{Group, Locked, Memory};
use records::{Error, Record};
use sector_device::Device;
use std::alloc::Global;
use std::marker::{Model, PhantomData};
use std::mem;
use std::sync::Wait;
use store_image_model::Chunk;
use store_writer::{FlipReply, FlushReply, StepReply, StoreWriter, longer_run};
use threads_queue::{Popper, RecordQueue};

/// The end of the queue that pops, the writer of the store, and the flusher's view of the board. To a contract it is a
/// `FlushValue`.
///
/// Its type keeps that the records that were popped are those that the writer has got and then those that are held, in
/// order, each once; that the writer stands for the ones that it got, over what was opened; that no number is published
/// above the last synced one; that all is published on the group's board; that what was published at any time is kept
/// by a crash at any moment since; and that each mark that was published is 0, or of the moment of such a publication.
#[derive(Drop)]
pub struct FlushPart<B: Group, D: Device, A: Memory = Global> {
    pub(crate) alloc: A,
    popper: Popper<A>,
    // The records that were popped, and that the writer doesn't have yet.
    pub(crate) held: Vec<Record, A>,
    pub(crate) writer: StoreWriter<D, A>,
    // The number of the last record that the writer has got.
    last: u64,
    pub(crate) view: FlushView,
    // The writer as it was each time that the view published, which takes no memory.
    publications: GhostList<StoreWriter<D, A>>,
    site: PhantomData<B>,
}

impl<B: Group, D: Device, A: Memory> Model for FlushPart<B, D, A> {
    ghost use Rattle.std.specs.Prelude.{◌≡◌, ◌++◌};
    ghost use Rattle.std.specs.Coded.{codes};
    ghost use Rattle.std.specs.FinMap as finmap;
    ghost use Rattle.std.specs.Prelude.{map};
    ghost use Rattle.threads_flusher.specs.Part.{FlushValue, IsFlusher, flush_value, last_handed, popped_by};
    ghost use Rattle.threads_flusher.specs.Part.{publication_of};

    ghost Value = { FlushValue D A };

    ghost coded = { Prim.hlevel (codes, finmap.code) };

    ghost view = { λ p. flush_value p.popper.records p.held.items p.writer p.view
        (map (publication_of D.past_of) p.publications.items) };

    ghost invariant = { λ p. (p.popper.queue ≡ B.site.queue)
        × (p.popper.records ≡ popped_by (flush_value p.popper.records p.held.items p.writer p.view
        (map (publication_of D.past_of) p.publications.items)))
        × IsFlusher D.past_of D.marks B.site.opened (flush_value p.popper.records p.held.items p.writer p.view
        (map (publication_of D.past_of) p.publications.items))
        × (p.last ≡ last_handed B.site.opened (flush_value p.popper.records p.held.items p.writer p.view
        (map (publication_of D.past_of) p.publications.items)))
        × (p.view.board ≡ B.site.board) };
}

// A number that marks the moment that it is, or 0, as where the device has no clock.
fn mark_of<D: Device, A: Memory>(writer: &StoreWriter<D, A>) -> u64
    ensures { IsMarkOf D.marks result (D.past_of (device_of writer.now)).moment }
{
    writer.device().clock().unwrap_or(0)
}

// Publishes how far the writer has synced, with this mark, and whether its device failed.
fn tell<D: Device, A: Memory>(
    board: &Board<A>,
    view: &mut FlushView,
    writer: &StoreWriter<D, A>,
    mark: u64,
)
    requires board { view.old.board ≡ board.now }
    requires horizon { view.old.horizon ≤ synced_of writer.now }
    requires failed { has_failed writer.now ≡ false → view.old.failed ≡ false }
    ensures { view.new ≡ count_of view.old writer.now mark }
{
    board.publish(view, writer.synced(), mark);
    if writer.has_failed() {
        board.fail(view);
    }
}

// Publishes it with a mark of the moment that it is, or with 0, and notes that it did.
fn publish<D: Device, A: Memory>(
    board: &Board<A>,
    view: &mut FlushView,
    publications: &mut GhostList<StoreWriter<D, A>>,
    writer: &StoreWriter<D, A>,
)
    requires board { view.old.board ≡ board.now }
    requires horizon { view.old.horizon ≤ synced_of writer.now }
    requires failed { has_failed writer.now ≡ false → view.old.failed ≡ false }
    ensures published { (mark : ℕ) × IsMarkOf D.marks mark (D.past_of (device_of writer.now)).moment
        × (view.new ≡ count_of view.old writer.now mark) }
    ensures noted { publications.new.items ≡ publications.old.items ++ writer.now ∷ [] }
{
    let mark = mark_of(writer);
    tell(board, view, writer, mark);
    *publications = publications.and(writer);
}

impl<B: Group, D: Device, A: Memory> FlushPart<B, D, A> {
    ghost use Rattle.locked_core.specs.Locked.{locked_of};
    ghost use Rattle.threads_flusher.specs.Part.{HasGot, IsFlusher, FlushLeaves, LooksForStop, Publishes, last_handed};
    ghost use Rattle.threads_flusher.specs.Part.{popped_by, publication_of, run_of};

    /// The part of a flusher that has popped nothing, with a writer over what was opened. How far that is synced is
    /// published, with a mark of the moment that it is or with 0, so that a ticket from before is known to be safe from
    /// the beginning.
    pub fn new(
        alloc: A,
        board: &Board<A>,
        ends: FlushEnds<A>,
        writer: StoreWriter<D, A>,
    ) -> FlushPart<B, D, A>
        requires site { board.now ≡ B.site.board }
        requires popper { ends.popper ≡ record { queue = B.site.queue; records = [] } }
        requires board { ends.published.board ≡ B.site.board }
        requires writer { IsWriter D.past_of (opened_run (halves_of writer) B.site.opened.given.last
            (opening_cells B.site.opened.given)) B.site.opened.given.last writer }
        requires pages { (halves_of writer).geometry.pages ≡ B.site.opened.pages }
        requires places { (halves_of writer).geometry.entries ≡ B.site.opened.places }
        requires fits { len B.site.opened.given.entries ≤ B.site.opened.places }
        requires horizon { ends.published.horizon ≤ synced_of writer }
        requires failed { ends.published.failed ≡ has_failed writer }
        ensures { (mark : ℕ) × IsMarkOf D.marks mark (D.past_of (device_of writer)).moment × (result ≡ record {
          handed = [];
          held = [];
          writer = writer;
          published = count_of ends.published writer mark;
          publications = publication_of D.past_of writer ∷ [];
        }) }
    {
        let FlushEnds { popper, view } = ends;
        let mut view = view.begin();
        let mut publications = GhostList::new();
        publish(board, &mut view, &mut publications, &writer);
        let last = writer.synced();
        FlushPart {
            alloc,
            popper,
            held: Vec::new(alloc),
            writer,
            last,
            view,
            publications,
            site: PhantomData,
        }
    }

    /// Whether all threads are asked to stop. It stays true once this part has seen it. (Who asked, no clause says.)
    pub fn stopped(&mut self, board: &Board<A>) -> bool
        requires { board.now ≡ B.site.board }
        ensures looks { LooksForStop self.old self.new }
        ensures seen { self.new.published.stopped ≡ result }
        ensures stays { IsTrue self.old.published.stopped → IsTrue result }
    {
        board.stopped_flusher(&mut self.view)
    }

    /// A law: what the type keeps.
    pub fn stands(&self)
        ensures { IsFlusher D.past_of D.marks B.site.opened self.now }
    {
        // a look at a field, so that what the type keeps is at hand
        let _ = &self.writer;
    }

    /// Pops the records that wait in the queue, as far as it finds any, and holds them. No clause says how many.
    ///
    /// The one error is `NoMemory`, where there is no room for one more. What was popped before is held, and the others
    /// wait in the queue.
    pub fn take<R: Wait>(&mut self, rt: &R, queue: &RecordQueue<A>) -> Result<(), Error>
        requires { queue.now ≡ B.site.queue }
        ensures takes { (more : List RecordValue) × (self.new ≡ record self.old { held = self.old.held ++ more }) }
        ensures no_memory { IfErr result (λ e. e ≡ Error.NoMemory) }
    {
        for _ in rt.forever() {
            self.held.reserve(1)?;
            match self.popper.pop(rt, queue) {
                Some(record) => self.held.push_reserved(record),
                None => return Ok(()),
            }
        }
        unreachable!()
    }

    // Whether the last record that was popped has this number.
    fn has_popped(&self, last: u64) -> bool
        ensures { IsTrue result ↔ (B.site.opened.given.last + length (popped_by self.now) ≡ last) }
    {
        last.checked_sub(self.last) == Some(self.held.len() as u64)
    }

    // Pops records until the last one that was popped has this number, as the last one has that was pushed.
    pub(crate) fn take_to<R: Wait>(
        &mut self,
        rt: &R,
        queue: &RecordQueue<A>,
        last: u64,
    ) -> Result<(), Error>
        requires { queue.now ≡ B.site.queue }
        ensures takes { (more : List RecordValue) × (self.new ≡ record self.old { held = self.old.held ++ more }) }
        ensures all { OnOk result (B.site.opened.given.last + length (popped_by self.new) ≡ last) }
        ensures no_memory { IfErr result (λ e. e ≡ Error.NoMemory) }
    {
        for _ in rt.forever() {
            if self.has_popped(last) {
                return Ok(());
            }
            self.take(rt, queue)?;
        }
        unreachable!()
    }

    /// Hands in the records that are held, under the lock, where it is known that they can follow the ones before them.
    ///
    /// The one error is `NoMemory`, and then they are held as before.
    pub fn hand_in<R: Wait>(
        &mut self,
        rt: &R,
        queue: &RecordQueue<A>,
        locked: &mut Locked<B, A>,
    ) -> Result<(), Error>
        requires { queue.now ≡ B.site.queue }
        ensures handed { OnOk result ((self.new.handed ≡ popped_by self.old) × (self.new.held ≡ [])) }
        ensures got { OnOk result (HasGot self.old.held self.old.writer self.new.writer) }
        ensures kept { OnErr result ((self.new.handed ≡ self.old.handed) × (self.new.held ≡ self.old.held)) }
        ensures still { OnErr result (HasGot [] self.old.writer self.new.writer) }
        ensures no_memory { IfErr result (λ e. e ≡ Error.NoMemory) }
        ensures copying { copying_of self.new.writer ≡ copying_of self.old.writer }
        ensures published { self.new.published ≡ self.old.published }
        ensures publications { self.new.publications ≡ self.old.publications }
        ensures beginning { popped_by self.old ≡ take (length (popped_by self.old)) (locked_of locked.old).pushed }
        ensures locked { locked_of locked.new ≡ locked_of locked.old }
    {
        self.writer.goes_on();
        longer_run();
        locked.compare(rt, queue, &mut self.popper);
        let held = mem::replace(&mut self.held, Vec::new(self.alloc));
        let more = held.len() as u64;
        match self.writer.hand_in(held) {
            Ok(()) => {
                self.last += more;
                Ok(())
            }
            Err(back) => {
                self.held = back;
                Err(Error::NoMemory)
            }
        }
    }

    /// Writes the next group of the records that the writer has got, and publishes how far they are synced. A crash at
    /// any moment of the call leaves what some of them make of what was opened, the first ones, with all that were
    /// synced before.
    ///
    /// The answers and refusals are those of the writer's `flush_group`; a failed device is told on the board.
    pub fn flush(&mut self, board: &Board<A>) -> Result<FlushReply, Error>
        requires { board.now ≡ B.site.board }
        ensures publishes { Publishes D.past_of D.marks self.old self.new }
        ensures images { LeavesOnly (D.past_of (device_of self.old.writer)) (D.past_of (device_of self.new.writer))
            (FlushLeaves B.site.opened self.old) }
        ensures flushed { IfOk result (λ reply. IsFlushReply reply self.old.writer self.new.writer) }
        ensures image { (n : ℕ) → result ≡ Ok (FlushReply.Flushed n)
            → BecomesImage (halves_of self.old.writer).geometry.slots (synced_of self.old.writer)
            (n - synced_of self.old.writer) (image_of self.old.writer) (image_of self.new.writer) }
        ensures copying { copying_of self.new.writer ≡ copying_of self.old.writer }
        ensures nothing { result ≡ Ok FlushReply.Nothing → synced_of self.old.writer
            ≡ last_handed B.site.opened self.old }
        ensures idle { has_failed self.old.writer ≡ false → synced_of self.old.writer
            ≡ last_handed B.site.opened self.old → result ≡ Ok FlushReply.Nothing }
        ensures full { has_failed self.old.writer ≡ false → waiting_of self.old.writer ≢ [] → IsLogFull self.old.writer
            → result ≡ Ok FlushReply.LogFull }
        ensures sound { OnOk result ((has_failed self.old.writer ≡ false) × (has_failed self.new.writer ≡ false)) }
        ensures err { IfErr result (λ e. IsNotFlushed D.failures e self.old.writer self.new.writer) }
        ensures kept { OnErr result (synced_of self.new.writer ≡ synced_of self.old.writer) }
        ensures quiet { OnOk result (D.failures (device_of self.new.writer) ≡ D.failures (device_of self.old.writer)) }
        ensures later { D.failures (device_of self.old.writer) ≤ D.failures (device_of self.new.writer) }
        ensures around { WritesLogsAlone D.past_of self.old.writer self.new.writer }
        ensures slot { WritesOnly D.past_of (InOpenedSlots self.old.writer) (device_of self.old.writer)
            (device_of self.new.writer) }
        ensures left { OnErr result (IsBeforeFlush self.old.writer self.new.writer) }
    {
        let flushed = self.writer.flush_group(self.alloc);
        publish(board, &mut self.view, &mut self.publications, &self.writer);
        flushed
    }

    /// Takes what was copied into an image, under the lock, when all records made had been handed in. A crash at any
    /// moment of the call leaves what one before could.
    ///
    /// The answers and refusals are those of the writer's `checkpoint_step`; a failed device is told on the board.
    pub fn take_piece(&mut self, board: &Board<A>, chunk: Chunk<A>) -> Result<StepReply, Error>
        requires board { board.now ≡ B.site.board }
        requires chunk { IsChunk (run_of B.site.opened self.old) self.old.writer chunk.number chunk.piece }
        ensures publishes { Publishes D.past_of D.marks self.old self.new }
        ensures images { LeavesOnly (D.past_of (device_of self.old.writer)) (D.past_of (device_of self.new.writer))
            (FlushLeaves B.site.opened self.old) }
        ensures stepped { IfOk result (λ reply.
            IsStepReply chunk.number chunk.piece reply self.old.writer self.new.writer) }
        ensures again { has_failed self.old.writer ≡ false → MustStartAgain chunk.piece self.old.writer
            → result ≡ Ok StepReply.StartAgain }
        ensures sound { OnOk result ((has_failed self.old.writer ≡ false) × (has_failed self.new.writer ≡ false)) }
        ensures err { IfErr result (λ e. HasFailed D.failures e self.old.writer self.new.writer) }
        ensures kept { synced_of self.new.writer ≡ synced_of self.old.writer }
        ensures quiet { OnOk result (D.failures (device_of self.new.writer) ≡ D.failures (device_of self.old.writer)) }
        ensures later { D.failures (device_of self.old.writer) ≤ D.failures (device_of self.new.writer) }
        ensures around { WritesOnly D.past_of (InHalf (halves_of self.old.writer).geometry
            (other (halves_of self.old.writer).current)) (device_of self.old.writer) (device_of self.new.writer) }
        ensures left { OnErr result (IsAsBefore self.old.writer self.new.writer) }
    {
        let stepped = self.writer.checkpoint_step(chunk);
        publish(board, &mut self.view, &mut self.publications, &self.writer);
        stepped
    }

    /// Passes over the next page of an image under way, if its half is known to have it as it is (`when`), and
    /// publishes. No lock is needed, and nothing is written: the image is as if the page had been copied now, and taken
    /// (`taken`).
    pub fn pass_page(&mut self, board: &Board<A>) -> bool
        requires { board.now ≡ B.site.board }
        ensures publishes { IsTrue result → Publishes D.past_of D.marks self.old self.new }
        ensures images { IsTrue result → LeavesOnly (D.past_of (device_of self.old.writer))
            (D.past_of (device_of self.new.writer)) (FlushLeaves B.site.opened self.old) }
        ensures passed { IsTrue result → HasPassed self.old.writer self.new.writer }
        ensures taken { IsTrue result → IsAsTaken (run_of B.site.opened self.old) (last_handed B.site.opened self.old)
            self.old.writer self.new.writer }
        ensures still { IsFalse result → self.new ≡ self.old }
        ensures when { IsTrue result ↔ MayPass self.old.writer }
    {
        if !self.writer.pass_page() {
            return false;
        }
        publish(board, &mut self.view, &mut self.publications, &self.writer);
        true
    }

    /// Makes the image current, and publishes how far the records are synced with it. A crash at any moment of the call
    /// leaves what some of the records that the writer has got make of what was opened, with all that were synced
    /// before.
    ///
    /// The answers and refusals are those of the writer's `checkpoint_flip`; a failed device is told on the board.
    pub fn flip(&mut self, board: &Board<A>) -> Result<FlipReply, Error>
        requires { board.now ≡ B.site.board }
        ensures publishes { Publishes D.past_of D.marks self.old self.new }
        ensures images { LeavesOnly (D.past_of (device_of self.old.writer)) (D.past_of (device_of self.new.writer))
            (FlushLeaves B.site.opened self.old) }
        ensures flipped { IfOk result (λ reply. IsFlipReply
            (last_handed B.site.opened self.old) reply self.old.writer self.new.writer) }
        ensures behind { has_failed self.old.writer ≡ false
            → ¬ CanFlip (last_handed B.site.opened self.old) self.old.writer → result ≡ Ok FlipReply.Behind }
        ensures sound { OnOk result ((has_failed self.old.writer ≡ false) × (has_failed self.new.writer ≡ false)) }
        ensures err { IfErr result (λ e. HasFailed D.failures e self.old.writer self.new.writer) }
        ensures kept { OnErr result (synced_of self.new.writer ≡ synced_of self.old.writer) }
        ensures quiet { OnOk result (D.failures (device_of self.new.writer) ≡ D.failures (device_of self.old.writer)) }
        ensures later { D.failures (device_of self.old.writer) ≤ D.failures (device_of self.new.writer) }
        ensures around { WritesOnly D.past_of (λ n. n ≡ FLIP_SECTOR) (device_of self.old.writer)
            (device_of self.new.writer) }
        ensures left { OnErr result (IsAsBefore self.old.writer self.new.writer) }
    {
        let flipped = self.writer.checkpoint_flip();
        publish(board, &mut self.view, &mut self.publications, &self.writer);
        flipped
    }

    /// The device as it is now.
    pub fn device(&self) -> &D
        ensures { result.now ≡ device_of self.now.writer }
    {
        self.writer.device()
    }

    /// The number of the last record that the writer has synced. That a crash leaves it says `IsFlusher` (`stands`).
    pub fn synced(&self) -> u64
        ensures { result ≡ synced_of self.now.writer }
    {
        self.writer.synced()
    }

    /// The number of the last record that the writer has got. Where it is that of the last record made, a copy of the
    /// core may be taken into an image.
    pub fn last_handed(&self) -> u64
        ensures { result ≡ last_handed B.site.opened self.now }
    {
        self.last
    }

    /// The device as it is now, and the end of the queue. The records that are held or wait in the writer are lost; a
    /// crash of the device leaves what some of those that the writer got make of what was opened, with all that are
    /// synced.
    pub fn into_parts(self) -> (D, Popper<A>)
        ensures device { result.0 ≡ device_of self.writer }
        ensures popper { result.1 ≡ record { queue = B.site.queue; records = popped_by self } }
        ensures images { (image : CrashState) → IsCrashState (D.past_of result.0).disk image
            → FlushLeaves B.site.opened self image }
    {
        let FlushPart {
            alloc: _,
            popper,
            held: _,
            writer,
            last: _,
            view: _,
            publications: _,
            site: _,
        } = self;
        (writer.into_device(), popper)
    }
}
