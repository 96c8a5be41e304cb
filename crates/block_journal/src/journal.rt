//! A journal over a file of blocks.
ghost use Rattle.std.specs.Prelude.{◌≡◌, ◌⊎◌, ◌↔◌, ◌+◌, ◌-◌, ◌^◌, ◌%◌, ◌<◌, ◌≤◌, ℕ, [], false, true, None, Some};
ghost use Rattle.std.specs.Prelude.{OnErr, OnOk, slice_set, Contains, IfOk, IfErr};
ghost use Rattle.sector_device.specs.DevicePast.{CountsFailure, Rises};
ghost use Rattle.block_device.specs.Blocks.{CrashFile, IsCrashFile, IsSynced, block};
ghost use Rattle.block_batch.specs.Batch.{Batch, IsPlace, block_digest, replayed};
ghost use Rattle.block_journal.specs.Layout.{IsHonest, IsInside, found, kept_of, recovered};
ghost use Rattle.block_journal.specs.Journal.{AreInAreas, IsPending, KeepsAreas, KeepsBatch, LeavesBefore};
ghost use Rattle.block_journal.specs.Journal.{BeginsBack, NeedsNoArea, OnlyReads, StaysRecovered, WritesBackFirst};
ghost use Rattle.block_journal.specs.Value.{CanCommit, LeavesEither, Offers, content_of, failures_of, next_batch};
ghost use Rattle.block_journal.specs.Value.{room_of, settled_of};

use crate::gathered::buffers;
use crate::parts::JournalParts;
use crate::{OpenError, Shape};
use block_batch::block_digest;
use block_device::{BLOCK_SIZE, Blocks, few_blocks};
use ghost_list::GhostList;
use sector_device::Failed;
use std::alloc::Allocator;
use std::marker::Model;

/// A file whose journal couldn't be opened, and why.
#[derive(Drop)]
pub struct Unopened<B> {
    /// The file.
    pub file: B,
    /// Why.
    pub error: OpenError,
}

/// A journal: the blocks that it keeps, those that are gathered, and the file below them.
///
/// After a call of the file has failed in a commit, the journal has failed: each call that needs the file fails, and
/// the file is left alone. It is to be opened again.
#[derive(Drop)]
pub struct Journal<B: Blocks, A: Allocator> {
    parts: JournalParts<B, A>,
}

impl<B: Blocks, A: Allocator> Model for Journal<B, A> {
    ghost use Rattle.std.specs.Coded.{codes};
    ghost use Rattle.block_journal.specs.Value.{JournalValue};
    ghost use Rattle.block_journal.specs.JournalParts.{IsSound, value_of};

    ghost Value = { JournalValue B };

    ghost coded = { Prim.hlevel codes };

    ghost view = { λ j. value_of j.parts };

    ghost invariant = { λ j. IsSound B.past_of j.parts };
}

impl<B: Blocks, A: Allocator + Copy> Journal<B, A> {
    /// Opens the journal of a file. What was read of its areas is written back, and synced, where one has a batch: a
    /// sync that failed may have left it in the memory of the system alone. Until then nothing is written
    /// (`written_back`). One that is refused meanwhile has written back nothing, or the area alone that the last batch
    /// doesn't have (`written_back_refused`). Then what the last batches left that a crash cut off is replayed, and
    /// synced.
    ///
    /// No block is loose but those that a replay sets. Whatever it answers, a crash at any moment of it leaves what
    /// stands for the same blocks (`any_moment`, `refused`), and has the batches of both areas (`batches`,
    /// `batches_refused`).
    pub fn open(alloc: A, below: B, shape: Shape) -> Result<Self, Unopened<B>>
        requires inside { IsInside shape (B.past_of below).file.content }
        requires synced { (n : ℕ) → ¬ IsPending shape (B.past_of below).file.content n
            → (B.past_of below).file.loose n ≡ false }
        ensures settled { IfOk result (λ j. settled_of B.past_of j ≡ recovered shape (B.past_of below).file.content) }
        ensures none { IfOk result (λ j. j.next ≡ []) }
        ensures shape { IfOk result (λ j. j.shape ≡ shape) }
        ensures sound { IfOk result (λ j. j.has_failed ≡ false) }
        ensures honest { IfOk result (λ j. IsHonest j.offered shape (B.past_of below).file.content) }
        ensures found { IfOk result (λ j. AreInAreas shape (B.past_of below).file.content j.offered) }
        ensures any_moment { IfOk result (λ j. StaysRecovered shape (B.past_of below) (B.past_of j.below)) }
        ensures before { IfOk result (λ j. LeavesBefore shape (B.past_of below) (B.past_of j.below)) }
        ensures batches { IfOk result (λ j. KeepsAreas shape (B.past_of below) (B.past_of j.below)) }
        ensures written_back { IfOk result (λ j. WritesBackFirst shape (B.past_of below) (B.past_of j.below)
            (B.written_back below) (B.written_back j.below)) }
        ensures quiet { IfOk result (λ j. B.failures j.below ≡ B.failures below) }
        ensures unrefused { IfOk result (λ j. j.refused ≡ 0) }
        ensures refused { IfErr result (λ e. StaysRecovered shape (B.past_of below) (B.past_of e.file)) }
        ensures before_refused { IfErr result (λ e. LeavesBefore shape (B.past_of below) (B.past_of e.file)) }
        ensures batches_refused { IfErr result (λ e. KeepsAreas shape (B.past_of below) (B.past_of e.file)) }
        ensures written_back_refused { IfErr result (λ e. BeginsBack shape (B.past_of below) (B.past_of e.file)
            (B.written_back below) (B.written_back e.file)
            ⊎ WritesBackFirst shape (B.past_of below) (B.past_of e.file) (B.written_back below)
            (B.written_back e.file)) }
        ensures back_none { IfErr result (λ e. e.error ≡ OpenError.NoBatch
            → B.written_back e.file ≡ B.written_back below) }
        ensures no_batch { IfErr result (λ e. e.error ≡ OpenError.NoBatch
            → (found shape (B.past_of below).file.content 0 ≡ None)
            × (found shape (B.past_of below).file.content 1 ≡ None)) }
        ensures failed { IfErr result (λ e. e.error ≡ OpenError.FileFailed
            → Rises (B.failures below) (B.failures e.file)) }
        ensures no_memory { IfErr result (λ e. e.error ≡ OpenError.NoMemory → e.file ≡ below) }
    {
        few_blocks(&below);
        let Ok((last, next)) = buffers(alloc, shape) else {
            return Err(Unopened {
                file: below,
                error: OpenError::NoMemory,
            });
        };
        let mut parts = JournalParts {
            below,
            shape,
            number: 0,
            last,
            next,
            offered: GhostList::new(),
            has_failed: true,
            refused: 0,
        };
        match parts.recover() {
            Ok(()) => Ok(Journal { parts }),
            Err(error) => Err(Unopened {
                file: parts.below,
                error,
            }),
        }
    }

    /// For how many blocks more there is room in the next batch.
    pub fn room(&self) -> usize
        ensures { result ≡ room_of self.now }
    {
        self.parts.shape.area as usize - 1 - self.parts.next.count
    }

    /// Reads a kept block: as it was gathered, or else as it is settled. It fails where the file does, and once the
    /// journal has failed, when no call is made of the file (`refused`).
    pub fn read(&mut self, place: u64, bytes: &mut [u8; BLOCK_SIZE]) -> Result<(), Failed>
        requires { place < self.old.shape.kept }
        ensures ok { OnOk result (bytes.new ≡ block (content_of B.past_of self.old) place) }
        ensures err { OnErr result (bytes.new ≡ bytes.old) }
        ensures rest { self.new ≡ record self.old { below = self.new.below; refused = self.new.refused } }
        ensures good { self.old.has_failed ≡ false → self.new ≡ record self.old { below = self.new.below } }
        ensures refused { self.old.has_failed ≡ true → self.new ≡ record self.old { refused = self.new.refused } }
        ensures reads { OnlyReads (B.past_of self.old.below) (B.past_of self.new.below) }
        ensures back { B.written_back self.new.below ≡ B.written_back self.old.below }
        ensures fails { OnErr result ((self.old.has_failed ≡ true)
            ⊎ Rises (B.failures self.old.below) (B.failures self.new.below)) }
        ensures sound { OnOk result (self.old.has_failed ≡ false) }
        ensures counts { CountsFailure (failures_of B.failures self.old) (failures_of B.failures self.new) result }
    {
        if self.parts.has_failed {
            self.parts.refused = self.parts.refused.saturating_add(1);
            return Err(Failed);
        }
        self.parts.read(place, bytes)
    }

    /// Gathers a block for the next batch, beside those of other places (`places`). It takes no room where one was
    /// gathered for its place (`in_place`). Its digest.
    pub fn put(&mut self, place: u64, bytes: &[u8; BLOCK_SIZE]) -> u64
        requires inside { place < self.old.shape.kept }
        requires room { 0 < room_of self.old }
        ensures put { (image : CrashFile) → replayed self.new.next image
            ≡ slice_set (replayed self.old.next image) place bytes.now }
        ensures rest { self.new ≡ record self.old { next = self.new.next } }
        ensures room { room_of self.old ≤ room_of self.new + 1 }
        ensures in_place { IsPlace self.old.next place → room_of self.new ≡ room_of self.old }
        ensures places { (m : ℕ) → IsPlace self.new.next m ↔ ((m ≡ place) ⊎ IsPlace self.old.next m) }
        ensures digest { result ≡ block_digest place bytes.now }
    {
        self.gather(place, bytes);
        block_digest(place, bytes)
    }

    /// Gathers a block likewise, whose digest is not asked for: only the commit digests it.
    pub fn gather(&mut self, place: u64, bytes: &[u8; BLOCK_SIZE])
        requires inside { place < self.old.shape.kept }
        requires room { 0 < room_of self.old }
        ensures put { (image : CrashFile) → replayed self.new.next image
            ≡ slice_set (replayed self.old.next image) place bytes.now }
        ensures rest { self.new ≡ record self.old { next = self.new.next } }
        ensures room { room_of self.old ≤ room_of self.new + 1 }
        ensures in_place { IsPlace self.old.next place → room_of self.new ≡ room_of self.old }
        ensures places { (m : ℕ) → IsPlace self.new.next m ↔ ((m ≡ place) ⊎ IsPlace self.old.next m) }
    {
        self.parts.next.put(place, bytes);
    }

    /// Gathers the blocks of the last batch once more, in place of those that are gathered. A commit of them changes
    /// nothing, and hands them on to the area that the last batch doesn't have.
    pub fn gather_last(&mut self)
        ensures { self.new ≡ record self.old { next = self.old.last.entries } }
    {
        self.parts.next.copy_from(&self.parts.last);
    }

    /// Commits what is gathered: all of it or, where it fails, all or nothing of it, which the next opening decides. It
    /// fails where the file does, once the journal has failed, and at the last number of 64 bits. Where it can't be
    /// made (`can`), the file is left alone (`untouched`).
    ///
    /// A crash at any moment of it leaves, under the premise, the blocks as they were settled, or with those that were
    /// gathered (`any_moment`). It leaves the last batch in its area too, so that an opening finds one (`holds`). Once
    /// a call has failed, no later commit makes another one of the file (`refused`). (Within the commit that failed no
    /// clause says it.) Where nothing was gathered, it puts all blocks in their places, and then needs no area
    /// (`places`, `areas`).
    pub fn commit(&mut self) -> Result<(), Failed>
        ensures ok { OnOk result (settled_of B.past_of self.new ≡ content_of B.past_of self.old) }
        ensures none { OnOk result (self.new.next ≡ []) }
        ensures sound { OnOk result ((self.old.has_failed ≡ false) × (self.new.has_failed ≡ false)) }
        ensures synced { OnOk result (IsSynced (B.past_of self.new.below).file) }
        ensures places { self.old.next ≡ [] → OnOk result (kept_of self.old.shape
            (B.past_of self.new.below).file.content ≡ settled_of B.past_of self.old) }
        ensures areas { self.old.next ≡ [] → OnOk result (NeedsNoArea self.old.shape
            (B.past_of self.new.below).file.content (settled_of B.past_of self.old)) }
        ensures last { OnOk result (self.new.last ≡ next_batch self.old) }
        ensures quiet { OnOk result (B.failures self.new.below ≡ B.failures self.old.below) }
        ensures err { OnErr result (settled_of B.past_of self.new ≡ settled_of B.past_of self.old) }
        ensures last_stays { OnErr result (self.new.last ≡ self.old.last) }
        ensures kept { OnErr result (self.new.next ≡ self.old.next) }
        ensures failed { OnErr result (self.new.has_failed ≡ true) }
        ensures any_moment { self.old.has_failed ≡ false → LeavesEither B.past_of self.old self.new }
        ensures offered { Offers self.old self.new }
        ensures before { self.old.has_failed ≡ false
            → LeavesBefore self.old.shape (B.past_of self.old.below) (B.past_of self.new.below) }
        ensures holds { self.old.has_failed ≡ false
            → KeepsBatch self.old.shape self.old.last (B.past_of self.old.below) (B.past_of self.new.below) }
        ensures refused { self.old.has_failed ≡ true → self.new ≡ record self.old { refused = self.new.refused } }
        ensures can { OnOk result (CanCommit self.old) }
        ensures untouched { ¬ CanCommit self.old → self.new.below ≡ self.old.below }
        ensures back { B.written_back self.new.below ≡ B.written_back self.old.below }
        ensures shape { self.new.shape ≡ self.old.shape }
        ensures fails { OnErr result ((self.old.has_failed ≡ true) ⊎ (self.old.last.number ≡ 2 ^ 64 - 1)
            ⊎ Rises (B.failures self.old.below) (B.failures self.new.below)) }
        ensures counts { CountsFailure (failures_of B.failures self.old) (failures_of B.failures self.new) result }
    {
        if self.parts.can_commit() {
            self.parts.commit()
        } else {
            self.parts.has_failed = true;
            self.parts.refused = self.parts.refused.saturating_add(1);
            Err(Failed)
        }
    }

    /// Ends the use of the file: puts all blocks in their places, by an empty batch. Nothing is gathered. It fails as a
    /// commit does.
    ///
    /// Then the kept blocks are those that were settled, and whatever batch the areas lose changes nothing (`areas`).
    pub fn close(&mut self) -> Result<(), Failed>
        requires { self.old.next ≡ [] }
        ensures kept { OnOk result (kept_of self.old.shape (B.past_of self.new.below).file.content
            ≡ settled_of B.past_of self.old) }
        ensures areas { OnOk result (NeedsNoArea self.old.shape (B.past_of self.new.below).file.content
            (settled_of B.past_of self.old)) }
        ensures settled { settled_of B.past_of self.new ≡ settled_of B.past_of self.old }
        ensures none { self.new.next ≡ [] }
        ensures last { OnOk result (self.new.last ≡ next_batch self.old) }
        ensures quiet { OnOk result (B.failures self.new.below ≡ B.failures self.old.below) }
        ensures last_stays { OnErr result (self.new.last ≡ self.old.last) }
        ensures synced { OnOk result (IsSynced (B.past_of self.new.below).file) }
        ensures sound { OnOk result ((self.old.has_failed ≡ false) × (self.new.has_failed ≡ false)) }
        ensures failed { OnErr result (self.new.has_failed ≡ true) }
        ensures any_moment { self.old.has_failed ≡ false → LeavesEither B.past_of self.old self.new }
        ensures offered { Offers self.old self.new }
        ensures before { self.old.has_failed ≡ false
            → LeavesBefore self.old.shape (B.past_of self.old.below) (B.past_of self.new.below) }
        ensures holds { self.old.has_failed ≡ false
            → KeepsBatch self.old.shape self.old.last (B.past_of self.old.below) (B.past_of self.new.below) }
        ensures refused { self.old.has_failed ≡ true → self.new ≡ record self.old { refused = self.new.refused } }
        ensures can { OnOk result (CanCommit self.old) }
        ensures untouched { ¬ CanCommit self.old → self.new.below ≡ self.old.below }
        ensures back { B.written_back self.new.below ≡ B.written_back self.old.below }
        ensures shape { self.new.shape ≡ self.old.shape }
        ensures fails { OnErr result ((self.old.has_failed ≡ true) ⊎ (self.old.last.number ≡ 2 ^ 64 - 1)
            ⊎ Rises (B.failures self.old.below) (B.failures self.new.below)) }
        ensures counts { CountsFailure (failures_of B.failures self.old) (failures_of B.failures self.new) result }
    {
        self.commit()
    }

    /// A law: a journal lies within its file. One that hasn't failed has no loose block, and its last batch in its area
    /// (`here`); what a crash leaves of it now stands, under the premise, for the settled blocks. The premise holds of
    /// the file as it is (`honest`). The last batch was handed to be written, or found (`last`), and none of a higher
    /// number (`latest`).
    pub fn stands(&self)
        ensures inside { IsInside self.now.shape (B.past_of self.now.below).file.content }
        ensures synced { self.now.has_failed ≡ false → IsSynced (B.past_of self.now.below).file }
        ensures here { self.now.has_failed ≡ false → found self.now.shape (B.past_of self.now.below).file.content
            (self.now.last.number % 2) ≡ Some self.now.last }
        ensures survives { self.now.has_failed ≡ false → (c : CrashFile) → IsCrashFile (B.past_of self.now.below).file c
            → IsHonest self.now.offered self.now.shape c
            → recovered self.now.shape c ≡ settled_of B.past_of self.now }
        ensures honest { self.now.has_failed ≡ false → IsHonest self.now.offered self.now.shape
            (B.past_of self.now.below).file.content }
        ensures last { self.now.has_failed ≡ false → Contains self.now.offered self.now.last }
        ensures latest { self.now.has_failed ≡ false → (x : Batch) → Contains self.now.offered x
            → x.number ≤ self.now.last.number }
    {
        let _ = &self.parts.shape;
    }

    /// Where its parts are.
    pub fn shape(&self) -> Shape
        ensures { result ≡ self.now.shape }
    {
        self.parts.shape
    }

    /// How many calls were refused without a call of the file, since a commit has failed.
    pub fn refused(&self) -> u64
        ensures { result ≡ self.now.refused }
    {
        self.parts.refused
    }

    /// The file as it is now.
    pub fn file(&self) -> &B
        ensures { result.now ≡ self.now.below }
    {
        &self.parts.below
    }

    /// The file as it is now. What is gathered is lost.
    pub fn into_file(self) -> B
        ensures { result ≡ self.below }
    {
        self.parts.below
    }
}
