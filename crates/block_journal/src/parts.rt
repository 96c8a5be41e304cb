// The parts of a journal, and what it does with them.
ghost use Rattle.std.specs.Prelude.{◌≡◌, ◌≢◌, ◌⊎◌, ◌+◌, ◌-◌, ◌^◌, ◌%◌, ◌≤◌, ◌<◌, ◌++◌, ◌∷◌, [], ℕ, length, true, false};
ghost use Rattle.std.specs.Prelude.{None, OnOk, OnErr, IfErr};
ghost use Rattle.sector_device.specs.DevicePast.{CountsFailure, Rises};
ghost use Rattle.block_device.specs.Blocks.{CrashFile, block};
ghost use Rattle.block_device.specs.BlocksPast.{BlocksPast, RunsWithin};
ghost use Rattle.block_journal.specs.Layout.{IsHonest, IsInside, found, kept_start, recovered};
ghost use Rattle.block_journal.specs.Journal.{AreInAreas, InRunOrKept, IsPending, KeepsAreas, LeavesBefore, MayWrite};
ghost use Rattle.block_journal.specs.Journal.{BeginsBack, OnlyReads, StaysRecovered, WritesBackFirst, pending_in};
ghost use Rattle.block_journal.specs.Value.{content_of, next_batch, settled_of};

use crate::gathered::Gathered;
use crate::lookup::read_block;
use crate::reading::{areas_of, replay, take_areas};
use crate::writing::write_batch;
use crate::{OpenError, Shape};
use block_device::{BLOCK_SIZE, Blocks};
use ghost_list::GhostList;
use sector_device::Failed;
use std::alloc::Allocator;
use std::mem;

/// A file and what a journal knows of it.
#[derive(Drop)]
pub(crate) struct JournalParts<B, A: Allocator> {
    pub(crate) below: B,
    pub(crate) shape: Shape,
    // the number of the last batch, and its blocks, which come to their places with the next one
    pub(crate) number: u64,
    pub(crate) last: Gathered<A>,
    // the blocks that are gathered for the next one
    pub(crate) next: Gathered<A>,
    // the areas that were handed to be written, or found as the journal was opened; no bytes
    pub(crate) offered: GhostList<Vec<[u8; BLOCK_SIZE], A>>,
    pub(crate) has_failed: bool,
    // how many calls were refused without a call of the file
    pub(crate) refused: u64,
}

impl<B: Blocks, A: Allocator + Copy> JournalParts<B, A> {
    ghost use Rattle.block_journal.specs.JournalParts.{value_of, IsSound};
    ghost use Rattle.block_journal.specs.Gathered.{IsBuffer, IsEmptyBuffer};
    ghost use Rattle.block_journal.specs.Opening.{HasTakenBoth};

    /// Whether a commit may be made: none has failed, and there is a number more.
    pub(crate) fn can_commit(&self) -> bool
        ensures can { result ≡ true → (self.now.has_failed ≡ false) × (self.now.number < 2 ^ 64 - 1) }
        ensures cannot { result ≡ false → (self.now.has_failed ≡ true) ⊎ (self.now.number ≡ 2 ^ 64 - 1) }
    {
        if self.has_failed {
            false
        } else {
            self.number < u64::MAX
        }
    }

    /// Reads a kept block: as it was gathered, or else as it is settled.
    pub(crate) fn read(&mut self, place: u64, bytes: &mut [u8; BLOCK_SIZE]) -> Result<(), Failed>
        requires sound { IsSound B.past_of self.old }
        requires kept { place < self.old.shape.kept }
        ensures ok { OnOk result (bytes.new ≡ block (content_of B.past_of (value_of self.old)) place) }
        ensures err { OnErr result (bytes.new ≡ bytes.old) }
        ensures rest { value_of self.new ≡ record (value_of self.old) { below = self.new.below } }
        ensures reads { OnlyReads (B.past_of self.old.below) (B.past_of self.new.below) }
        ensures back { B.written_back self.new.below ≡ B.written_back self.old.below }
        ensures counts { CountsFailure (B.failures self.old.below) (B.failures self.new.below) result }
        ensures sound { IsSound B.past_of self.new }
    {
        read_block(
            &mut self.below,
            self.shape,
            &self.last,
            &self.next,
            place,
            bytes,
        )
    }

    /// Commits what is gathered.
    pub(crate) fn commit(&mut self) -> Result<(), Failed>
        requires sound { IsSound B.past_of self.old }
        requires good { self.old.has_failed ≡ false }
        requires low { self.old.number < 2 ^ 64 - 1 }
        ensures ok { OnOk result (value_of self.new ≡ record (value_of self.old) {
          below = self.new.below;
          last = next_batch (value_of self.old);
          next = [];
          offered = (value_of self.old).offered ++ next_batch (value_of self.old) ∷ [];
        }) }
        ensures settled { OnOk result (settled_of B.past_of (value_of self.new)
            ≡ content_of B.past_of (value_of self.old)) }
        ensures err { OnErr result (value_of self.new ≡ record (value_of self.old) {
          below = self.new.below;
          offered = (value_of self.old).offered ++ next_batch (value_of self.old) ∷ [];
          has_failed = true;
        }) }
        ensures unsettled { OnErr result (settled_of B.past_of (value_of self.new)
            ≡ settled_of B.past_of (value_of self.old)) }
        ensures within { RunsWithin (MayWrite self.old.shape ((self.old.number + 1) % 2)
            (value_of self.old).last.entries) (B.past_of self.old.below).file.content (B.past_of self.old.below)
            (B.past_of self.new.below) }
        ensures back { B.written_back self.new.below ≡ B.written_back self.old.below }
        ensures counts { CountsFailure (B.failures self.old.below) (B.failures self.new.below) result }
        ensures sound { IsSound B.past_of self.new }
    {
        let number = self.number + 1;
        self.next.seal(number);
        self.offered = self.offered.and(&self.next.area);
        if write_batch(&mut self.below, self.shape, number, &self.last, &self.next).is_err() {
            self.has_failed = true;
            return Err(Failed);
        }
        mem::swap(&mut self.last, &mut self.next);
        self.next.count = 0;
        self.number = number;
        Ok(())
    }

    /// Reads the areas of a file that isn't opened yet, into empty buffers, writes them back, and replays what is
    /// pending.
    pub(crate) fn recover(&mut self) -> Result<(), OpenError>
        requires inside { IsInside self.old.shape (B.past_of self.old.below).file.content }
        requires small { kept_start self.old.shape + self.old.shape.kept < 2 ^ 64 }
        requires synced { (n : ℕ) → ¬ IsPending self.old.shape (B.past_of self.old.below).file.content n
            → (B.past_of self.old.below).file.loose n ≡ false }
        requires last { IsEmptyBuffer self.old.shape.area self.old.last }
        requires next { IsEmptyBuffer self.old.shape.area self.old.next }
        ensures sound { OnOk result (IsSound B.past_of self.new) }
        ensures good { OnOk result (self.new.has_failed ≡ false) }
        ensures none { OnOk result (self.new.next.count ≡ 0) }
        ensures settled { OnOk result (settled_of B.past_of (value_of self.new)
            ≡ recovered self.old.shape (B.past_of self.old.below).file.content) }
        ensures honest { OnOk result (IsHonest (value_of self.new).offered self.old.shape
            (B.past_of self.old.below).file.content) }
        ensures shape { self.new.shape ≡ self.old.shape }
        ensures refused { self.new.refused ≡ self.old.refused }
        ensures found { OnOk result (AreInAreas self.old.shape (B.past_of self.old.below).file.content
            (value_of self.new).offered) }
        ensures stays { StaysRecovered self.old.shape (B.past_of self.old.below) (B.past_of self.new.below) }
        ensures before { LeavesBefore self.old.shape (B.past_of self.old.below) (B.past_of self.new.below) }
        ensures batches { KeepsAreas self.old.shape (B.past_of self.old.below) (B.past_of self.new.below) }
        ensures written_back { OnOk result (WritesBackFirst self.old.shape (B.past_of self.old.below)
            (B.past_of self.new.below) (B.written_back self.old.below) (B.written_back self.new.below)) }
        ensures back_err { OnErr result (BeginsBack self.old.shape (B.past_of self.old.below)
            (B.past_of self.new.below) (B.written_back self.old.below) (B.written_back self.new.below)
            ⊎ WritesBackFirst self.old.shape (B.past_of self.old.below) (B.past_of self.new.below)
            (B.written_back self.old.below) (B.written_back self.new.below)) }
        ensures back_none { IfErr result (λ e. e ≡ OpenError.NoBatch
            → B.written_back self.new.below ≡ B.written_back self.old.below) }
        ensures quiet { OnOk result (B.failures self.new.below ≡ B.failures self.old.below) }
        ensures no_memory { IfErr result (λ e. e ≢ OpenError.NoMemory) }
        ensures no_batch { IfErr result (λ e. e ≡ OpenError.NoBatch
            → (found self.old.shape (B.past_of self.old.below).file.content 0 ≡ None)
            × (found self.old.shape (B.past_of self.old.below).file.content 1 ≡ None)) }
        ensures failed { IfErr result (λ e. e ≡ OpenError.FileFailed
            → Rises (B.failures self.old.below) (B.failures self.new.below)) }
    {
        match take_areas(&mut self.below, self.shape, &mut self.last, &mut self.next) {
            Err(_) => Err(OpenError::FileFailed),
            Ok(None) => Err(OpenError::NoBatch),
            Ok(Some((number, before))) => self.settle(number, before),
        }
    }

    // Replays what is pending, where the buffers have what the areas have.
    fn settle(&mut self, number: u64, before: Option<u64>) -> Result<(), OpenError>
        requires inside { IsInside self.old.shape (B.past_of self.old.below).file.content }
        requires small { kept_start self.old.shape + self.old.shape.kept < 2 ^ 64 }
        requires last { IsBuffer self.old.last }
        requires last_size { length self.old.last.area.items ≡ self.old.shape.area }
        requires next { IsBuffer self.old.next }
        requires next_size { length self.old.next.area.items ≡ self.old.shape.area }
        requires taken { HasTakenBoth self.old.shape (B.past_of self.old.below).file.content number before
            self.old.last self.old.next }
        ensures within { (image : CrashFile) (start : BlocksPast) → RunsWithin (InRunOrKept self.old.shape 0 0
            (pending_in self.old.shape (B.past_of self.old.below).file.content)) image start (B.past_of self.old.below)
            → RunsWithin (InRunOrKept self.old.shape 0 0
            (pending_in self.old.shape (B.past_of self.old.below).file.content)) image start
            (B.past_of self.new.below) }
        ensures sound { OnOk result (IsSound B.past_of self.new) }
        ensures good { OnOk result (self.new.has_failed ≡ false) }
        ensures none { OnOk result (self.new.next.count ≡ 0) }
        ensures settled { OnOk result (settled_of B.past_of (value_of self.new)
            ≡ recovered self.old.shape (B.past_of self.old.below).file.content) }
        ensures honest { OnOk result (IsHonest (value_of self.new).offered self.old.shape
            (B.past_of self.old.below).file.content) }
        ensures found { OnOk result (AreInAreas self.old.shape (B.past_of self.old.below).file.content
            (value_of self.new).offered) }
        ensures shape { self.new.shape ≡ self.old.shape }
        ensures refused { self.new.refused ≡ self.old.refused }
        ensures err { IfErr result (λ e. e ≡ OpenError.FileFailed) }
        ensures back { B.written_back self.new.below ≡ B.written_back self.old.below }
        ensures counts { CountsFailure (B.failures self.old.below) (B.failures self.new.below) result }
    {
        if replay(
            &mut self.below,
            self.shape,
            number,
            before,
            &self.next,
            &self.last,
        )
        .is_err()
        {
            return Err(OpenError::FileFailed);
        }
        self.offered = areas_of(&self.last, before, &self.next);
        self.number = number;
        self.next.count = 0;
        self.has_failed = false;
        Ok(())
    }
}
