//! When an image is wanted, and its copying under the lock.
ghost use Rattle.std.specs.Prelude.{◌≡◌, ◌≢◌, ◌↔◌, [], length, take, false, IsTrue, OnErr, OnOk, IfOk, IfErr};
ghost use Rattle.record_values.specs.GeometryValue.{GeometryValue};
ghost use Rattle.store_image_model.specs.Run.{cells_at};
ghost use Rattle.locked_core.specs.Pieces.{IsPieceOf};
ghost use Rattle.locked_core.specs.Outbox.{HandsOn};
ghost use Rattle.store_writer.specs.Parts.{copying_of, halves_of, has_failed};
ghost use Rattle.store_writer.specs.Writer.{IsChunk};
ghost use Rattle.threads_flusher.specs.Images.{IsHalfFull, IsPieceDue, TakesNext};

use crate::part::FlushPart;
use locked_core::{Group, Locked, Memory};
use records::{Error, Geometry};
use sector_device::Device;
use std::sync::Wait;
use store_image_model::{Chunk, CopyPlace};
use store_writer::Copying;
use threads_queue::RecordQueue;

/// Shows that a flusher has looked under the lock for records. `FlushPart::look` alone makes one.
#[derive(Drop)]
pub struct Looked {
    _seen: (),
}

impl<B: Group, D: Device, A: Memory> FlushPart<B, D, A> {
    ghost use Rattle.locked_core.specs.Locked.{locked_of};
    ghost use Rattle.locked_core.specs.Made.{IsAllOf};
    ghost use Rattle.locked_core.specs.Made as made;
    ghost use Rattle.threads_flusher.specs.Going.{LeavesImage, TakesIn};
    ghost use Rattle.threads_flusher.specs.Part.{last_handed, run_of};

    // Where a chunk gets its memory.
    fn allocator(&self) -> A {
        self.alloc
    }

    // A law: the piece of an image that is due may be taken, as the last record handed in left its cells.
    fn next_pieces(&self)
        ensures { TakesNext B.site.opened self.now }
    {
        self.writer.next_pieces();
    }

    /// How large the store is.
    pub fn geometry(&self) -> Geometry
        ensures { result ≡ (halves_of self.now.writer).geometry }
    {
        self.writer.geometry()
    }

    /// Whether the device has failed.
    pub fn has_failed(&self) -> bool
        ensures { result ≡ has_failed self.now.writer }
    {
        self.writer.has_failed()
    }

    /// Whether records were popped that the writer doesn't have yet.
    pub fn holds_some(&self) -> bool
        ensures { IsTrue result ↔ (self.now.held ≢ []) }
    {
        !self.held.is_empty()
    }

    /// How far the copying of an image has come.
    pub fn copying(&self) -> Copying
        ensures { result ≡ copying_of self.now.writer }
    {
        self.writer.copying()
    }

    /// Gives up an image under way: a whole one is to be taken at once.
    pub fn give_up(&mut self)
        ensures { LeavesImage Copying.GivenUp self.old self.new }
    {
        self.writer.give_up();
    }

    /// Forgets an image under way: the next one is copied from its start.
    pub fn forget_image(&mut self)
        ensures { LeavesImage Copying.Idle self.old self.new }
    {
        self.writer.forget_image();
    }

    /// Whether half the slots of the current half's log are open: then an image begins, which empties it.
    pub fn wants_image(&self) -> bool
        ensures begins { IsTrue result ↔ IsHalfFull self.now.writer }
    {
        let slots = u64::from(self.writer.geometry().slots);
        self.writer.open_slots() >= slots / 2
    }

    /// Looks under the lock for records: pushes those that wait in the core to the queue, pops all that wait there, and
    /// hands them in (`all`). No clause says how many are pushed: one that the queue refuses waits on in the core.
    ///
    /// The one error is `NoMemory`. Then what was popped is held, and none was handed in.
    pub fn look<R: Wait>(
        &mut self,
        rt: &R,
        queue: &RecordQueue<A>,
        locked: &mut Locked<B, A>,
    ) -> Result<Looked, Error>
        requires { queue.now ≡ B.site.queue }
        ensures takes { TakesIn self.old self.new }
        ensures published { self.new.published ≡ self.old.published }
        ensures none_held { OnOk result (self.new.held ≡ []) }
        ensures kept { OnErr result (self.new.handed ≡ self.old.handed) }
        ensures beginning { OnOk result (self.new.handed ≡ take (length self.new.handed)
            (locked_of locked.new).pushed) }
        ensures all { OnOk result (self.new.handed ≡ (locked_of locked.new).pushed) }
        ensures no_memory { IfErr result (λ e. e ≡ Error.NoMemory) }
        ensures pushed { HandsOn (locked_of locked.old).core (locked_of locked.new).core (locked_of locked.old).pushed
            (locked_of locked.new).pushed }
        ensures book { (locked_of locked.new).book ≡ (locked_of locked.old).book }
    {
        locked.push_outbox(rt, queue);
        let last = locked.last_pushed();
        self.take_to(rt, queue, last)?;
        self.hand_in(rt, queue, locked)?;
        Ok(Looked { _seen: () })
    }

    /// Copies all cells, as the last record made left them, as a chunk that may be taken: that record was handed in
    /// first, and so were all before it.
    ///
    /// The one error is `NoMemory`, also where a record made was not handed in, as one that the queue refused.
    pub fn copy_whole<R: Wait>(
        &mut self,
        rt: &R,
        queue: &RecordQueue<A>,
        locked: &mut Locked<B, A>,
    ) -> Result<Chunk<A>, Error>
        requires { queue.now ≡ B.site.queue }
        ensures takes { TakesIn self.old self.new }
        ensures published { self.new.published ≡ self.old.published }
        ensures number { IfOk result (λ chunk. chunk.number ≡ last_handed B.site.opened self.new) }
        ensures last { IfOk result (λ chunk. chunk.number ≡ (locked_of locked.new).core.last) }
        ensures chunk { IfOk result (λ chunk.
            IsChunk (run_of B.site.opened self.new) self.new.writer chunk.number chunk.piece) }
        ensures whole { IfOk result (λ chunk. (g : GeometryValue)
            → IsAllOf (locked_of locked.new).core
            (cells_at (made.run_of g B.site.opened (locked_of locked.new)) chunk.number) chunk.piece) }
        ensures no_memory { IfErr result (λ e. e ≡ Error.NoMemory) }
        ensures pushed { HandsOn (locked_of locked.old).core (locked_of locked.new).core (locked_of locked.old).pushed
            (locked_of locked.new).pushed }
        ensures book { (locked_of locked.new).book ≡ (locked_of locked.old).book }
    {
        self.look(rt, queue, locked)?;
        self.stands();
        locked.each_hold();
        let chunk = locked.copy_whole(self.allocator())?;
        if self.last_handed() < chunk.number {
            return Err(Error::NoMemory);
        }
        Ok(chunk)
    }

    /// Copies the piece of this place, as `copy_whole` copies all cells.
    pub fn copy_step<R: Wait>(
        &mut self,
        rt: &R,
        queue: &RecordQueue<A>,
        locked: &mut Locked<B, A>,
        place: CopyPlace,
    ) -> Result<Chunk<A>, Error>
        requires queue { queue.now ≡ B.site.queue }
        requires sound { has_failed self.old.writer ≡ false }
        requires due { IsPieceDue place self.old.writer }
        ensures takes { TakesIn self.old self.new }
        ensures published { self.new.published ≡ self.old.published }
        ensures number { IfOk result (λ chunk. chunk.number ≡ last_handed B.site.opened self.new) }
        ensures last { IfOk result (λ chunk. chunk.number ≡ (locked_of locked.new).core.last) }
        ensures chunk { IfOk result (λ chunk.
            IsChunk (run_of B.site.opened self.new) self.new.writer chunk.number chunk.piece) }
        ensures piece { IfOk result (λ chunk. (g : GeometryValue)
            → IsPieceOf (locked_of locked.new).core
            (cells_at (made.run_of g B.site.opened (locked_of locked.new)) chunk.number) place chunk.piece) }
        ensures no_memory { IfErr result (λ e. e ≡ Error.NoMemory) }
        ensures pushed { HandsOn (locked_of locked.old).core (locked_of locked.new).core (locked_of locked.old).pushed
            (locked_of locked.new).pushed }
        ensures book { (locked_of locked.new).book ≡ (locked_of locked.old).book }
    {
        self.look(rt, queue, locked)?;
        self.stands();
        self.next_pieces();
        locked.each_hold();
        let chunk = locked.copy_step(self.allocator(), place)?;
        if self.last_handed() < chunk.number {
            return Err(Error::NoMemory);
        }
        Ok(chunk)
    }
}
