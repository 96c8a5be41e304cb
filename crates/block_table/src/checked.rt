//! Blocks of data, each with a digest.
ghost use Rattle.std.specs.Prelude.{◌≡◌, ◌≢◌, ◌⊎◌, ◌↔◌, ◌/◌, ◌%◌, ◌+◌, ◌-◌, ◌^◌, ◌≤◌, ◌<◌, ℕ, [], true, false, None};
ghost use Rattle.std.specs.Prelude.{Err, Some, slice_set, Contains, IfErr, IfNone, IfOk, IfSome, OnErr, OnOk};
ghost use Rattle.sector_device.specs.DevicePast.{CountsFailure, Rises};
ghost use Rattle.block_device.specs.Blocks.{CrashFile, IsCrashFile, IsSynced, block};
ghost use Rattle.block_journal.specs.Layout.{IsHonest, IsInside, found, kept_of, recovered};
ghost use Rattle.block_journal.specs.Journal.{AreInAreas, IsPending, KeepsAreas, KeepsBatch, LeavesBefore};
ghost use Rattle.block_journal.specs.Journal.{BeginsBack, NeedsNoArea, OnlyReads, StaysRecovered, WritesBackFirst};
ghost use Rattle.block_batch.specs.Batch.{Batch, IsPlace};
ghost use Rattle.block_journal.specs.Value.{CanCommit, LeavesEither, Offers, failures_of, next_batch, room_of};
ghost use Rattle.block_table.specs.Table.{IsFirstUnfit, IsFit, kept_count, place_of};

use crate::rows::{is_at, is_fit, kept_at, known_with, read_rows, set_digest};
use block_device::{BLOCK_SIZE, Blocks, WORDS, few_blocks};
use block_journal::{Journal, OpenError, Shape, Unopened};
use sector_device::Failed;
use std::alloc::Allocator;
use std::marker::Model;

/// Why a block of data can't be read.
#[derive(Clone, Copy, Debug, PartialEq, Eq, thiserror::Error)]
pub enum ReadError {
    /// The file failed, or a commit has failed before.
    #[error("the file failed")]
    FileFailed,
    /// The block doesn't fit its digest.
    #[error("the block is damaged")]
    Damaged,
}

/// Blocks of data, kept by a journal with a table of their digests. Each block that is read fits its digest, with which
/// it was compared as it was read first, and one that doesn't fit is told.
#[derive(Drop)]
pub struct CheckedBlocks<B: Blocks, A: Allocator> {
    journal: Journal<B, A>,
    // the numbers of each block of the table
    rows: Vec<[u64; WORDS], A>,
    // how many of the first blocks are known to fit their digests: these aren't compared again
    known: u64,
    // a block of data as it is read, which fits its digest, and its bytes: the sectors of one are asked for in turn
    seen: Option<u64>,
    bytes: [u8; BLOCK_SIZE],
    blocks: u64,
}

impl<B: Blocks, A: Allocator> Model for CheckedBlocks<B, A> {
    ghost use Rattle.std.specs.Prelude.{IfSome};
    ghost use Rattle.std.specs.Coded.{codes};
    ghost use Rattle.block_table.specs.Checked.{CheckedValue};
    ghost use Rattle.block_table.specs.Rows.{IsInStep, IsSeen};

    ghost Value = { CheckedValue B };

    ghost coded = { Prim.hlevel codes };

    ghost view = { λ c. record { journal = c.journal; blocks = c.blocks } };

    ghost invariant = { λ c. IsInStep B.past_of c.journal c.rows.items c.known c.blocks
        × IfSome c.seen (IsSeen B.past_of c.journal c.blocks c.bytes) };
}

impl<B: Blocks, A: Allocator + Copy> CheckedBlocks<B, A> {
    ghost use Rattle.block_table.specs.Checked.{CountsRead, data_now, kept_table, settled_table};

    /// Opens the journal of a file that keeps so many blocks of data behind their table, and reads the table. `check`
    /// compares the blocks. Nothing is written before both areas of the journal are written back (`written_back`,
    /// `written_back_refused`).
    pub fn open(alloc: A, below: B, shape: Shape, blocks: u64) -> Result<Self, Unopened<B>>
        requires inside { IsInside shape (B.past_of below).file.content }
        requires kept { shape.kept ≡ kept_count blocks }
        requires synced { (n : ℕ) → ¬ IsPending shape (B.past_of below).file.content n
            → (B.past_of below).file.loose n ≡ false }
        ensures settled { IfOk result (λ c. settled_table B.past_of c
            ≡ recovered shape (B.past_of below).file.content) }
        ensures none { IfOk result (λ c. c.journal.next ≡ []) }
        ensures shape { IfOk result (λ c. c.journal.shape ≡ shape) }
        ensures blocks { IfOk result (λ c. c.blocks ≡ blocks) }
        ensures sound { IfOk result (λ c. c.journal.has_failed ≡ false) }
        ensures honest { IfOk result (λ c. IsHonest c.journal.offered shape (B.past_of below).file.content) }
        ensures found { IfOk result (λ c. AreInAreas shape (B.past_of below).file.content c.journal.offered) }
        ensures any_moment { IfOk result (λ c. StaysRecovered shape (B.past_of below) (B.past_of c.journal.below)) }
        ensures before { IfOk result (λ c. LeavesBefore shape (B.past_of below) (B.past_of c.journal.below)) }
        ensures batches { IfOk result (λ c. KeepsAreas shape (B.past_of below) (B.past_of c.journal.below)) }
        ensures written_back { IfOk result (λ c. WritesBackFirst shape (B.past_of below) (B.past_of c.journal.below)
            (B.written_back below) (B.written_back c.journal.below)) }
        ensures quiet { IfOk result (λ c. B.failures c.journal.below ≡ B.failures below) }
        ensures unrefused { IfOk result (λ c. c.journal.refused ≡ 0) }
        ensures refused { IfErr result (λ e. StaysRecovered shape (B.past_of below) (B.past_of e.file)) }
        ensures before_refused { IfErr result (λ e. LeavesBefore shape (B.past_of below) (B.past_of e.file)) }
        ensures batches_refused { IfErr result (λ e. KeepsAreas shape (B.past_of below) (B.past_of e.file)) }
        ensures written_back_refused { IfErr result (λ e. BeginsBack shape (B.past_of below) (B.past_of e.file)
            (B.written_back below) (B.written_back e.file)
            ⊎ WritesBackFirst shape (B.past_of below) (B.past_of e.file) (B.written_back below)
            (B.written_back e.file)) }
        ensures back_none { IfErr result (λ e. e.error ≡ OpenError.NoBatch
            → B.written_back e.file ≡ B.written_back below) }
        ensures no_batch { IfErr result (λ e. e.error ≡ OpenError.NoBatch
            → (found shape (B.past_of below).file.content 0 ≡ None)
            × (found shape (B.past_of below).file.content 1 ≡ None)) }
        ensures failed { IfErr result (λ e. e.error ≡ OpenError.FileFailed
            → Rises (B.failures below) (B.failures e.file)) }
    {
        few_blocks(&below);
        let mut journal = Journal::open(alloc, below, shape)?;
        match read_rows(alloc, &mut journal, shape.kept - blocks) {
            Ok(rows) => Ok(CheckedBlocks {
                journal,
                rows,
                known: 0,
                seen: None,
                bytes: [0; BLOCK_SIZE],
                blocks,
            }),
            Err(error) => Err(Unopened {
                file: journal.into_file(),
                error,
            }),
        }
    }

    /// For how many blocks of data more there is room before a commit.
    pub fn room(&self) -> usize
        ensures { result ≡ room_of self.now.journal / 2 }
    {
        self.journal.room() / 2
    }

    /// Reads a block of data: as it was put, or else as it was committed. `Damaged` where it doesn't fit its digest.
    /// Once a commit has failed, it fails (`sound`).
    pub fn read(&mut self, n: u64, bytes: &mut [u8; BLOCK_SIZE]) -> Result<(), ReadError>
        requires { n < self.old.blocks }
        ensures ok { OnOk result (bytes.new ≡ block (data_now B.past_of self.old) n) }
        ensures fits { OnOk result (IsFit self.old.blocks (kept_table B.past_of self.old) n) }
        ensures damaged { result ≡ Err ReadError.Damaged → ¬ IsFit self.old.blocks (kept_table B.past_of self.old) n }
        ensures sound { result ≢ Err ReadError.FileFailed → self.old.journal.has_failed ≡ false }
        ensures err { OnErr result (bytes.new ≡ bytes.old) }
        ensures failed { result ≡ Err ReadError.FileFailed → (self.old.journal.has_failed ≡ true)
            ⊎ Rises (B.failures self.old.journal.below) (B.failures self.new.journal.below) }
        ensures rest { self.new ≡ record self.old {
          journal = record self.old.journal {
            below = self.new.journal.below;
            refused = self.new.journal.refused;
          };
        } }
        ensures good { self.old.journal.has_failed ≡ false → self.new ≡ record self.old {
          journal = record self.old.journal { below = self.new.journal.below };
        } }
        ensures refused { self.old.journal.has_failed ≡ true → self.new.journal ≡ record self.old.journal {
          refused = self.new.journal.refused;
        } }
        ensures reads { OnlyReads (B.past_of self.old.journal.below) (B.past_of self.new.journal.below) }
        ensures back { B.written_back self.new.journal.below ≡ B.written_back self.old.journal.below }
        ensures counts { CountsRead (failures_of B.failures self.old.journal)
            (failures_of B.failures self.new.journal) result }
    {
        if is_at(self.seen, n) {
            *bytes = self.bytes;
            return Ok(());
        }
        let place = self.rows.len() as u64 + n;
        let mut block = [0; BLOCK_SIZE];
        self.seen = None;
        if self.journal.read(place, &mut block).is_err() {
            return Err(ReadError::FileFailed);
        }
        if !is_fit(&self.rows, self.known, n, place, &block) {
            return Err(ReadError::Damaged);
        }
        self.known = known_with(self.known, n);
        self.seen = Some(n);
        self.bytes = block;
        *bytes = block;
        Ok(())
    }

    /// The first block of data, from a number on, that doesn't fit its digest. Once a commit has failed, it fails,
    /// unless there is no block from that number on (`unfailed`), and leaves the file alone (`alone`).
    pub fn check(&mut self, from: u64) -> Result<Option<u64>, Failed>
        ensures unfit { IfOk result (λ found. IfSome found (IsFirstUnfit self.old.blocks
            (kept_table B.past_of self.old) from)) }
        ensures sound { IfOk result (λ found. IfNone found ((n : ℕ) → from ≤ n → n < self.old.blocks
            → IsFit self.old.blocks (kept_table B.past_of self.old) n)) }
        ensures rest { self.new ≡ record self.old {
          journal = record self.old.journal {
            below = self.new.journal.below;
            refused = self.new.journal.refused;
          };
        } }
        ensures failed { OnErr result ((self.old.journal.has_failed ≡ true)
            ⊎ Rises (B.failures self.old.journal.below) (B.failures self.new.journal.below)) }
        ensures unfailed { from < self.old.blocks → OnOk result (self.old.journal.has_failed ≡ false) }
        ensures quiet { OnOk result (B.failures self.new.journal.below ≡ B.failures self.old.journal.below) }
        ensures alone { self.old.journal.has_failed ≡ true → self.new.journal.below ≡ self.old.journal.below }
        ensures reads { OnlyReads (B.past_of self.old.journal.below) (B.past_of self.new.journal.below) }
        ensures back { B.written_back self.new.journal.below ≡ B.written_back self.old.journal.below }
        ensures counts { CountsFailure (failures_of B.failures self.old.journal)
            (failures_of B.failures self.new.journal) result }
    {
        let mut block = [0; BLOCK_SIZE];
        for n in from..self.blocks {
            match self.read(n, &mut block) {
                Ok(()) => {}
                Err(ReadError::Damaged) => return Ok(Some(n)),
                Err(ReadError::FileFailed) => return Err(Failed),
            }
        }
        Ok(None)
    }

    /// Puts a block of data, with its digest, for the next commit. It takes no room where both blocks were gathered,
    /// that of the data and that of the table (`in_place`, `places`).
    pub fn put(&mut self, n: u64, bytes: &[u8; BLOCK_SIZE])
        requires inside { n < self.old.blocks }
        requires room { 1 < room_of self.old.journal }
        ensures put { data_now B.past_of self.new ≡ slice_set (data_now B.past_of self.old) n bytes.now }
        ensures fits { IsFit self.old.blocks (kept_table B.past_of self.new) n }
        ensures others { (m : ℕ) → m < self.old.blocks → m ≢ n
            → (IsFit self.old.blocks (kept_table B.past_of self.new) m
            ↔ IsFit self.old.blocks (kept_table B.past_of self.old) m) }
        ensures rest { self.new ≡ record self.old {
          journal = record self.old.journal { next = self.new.journal.next };
        } }
        ensures room { room_of self.old.journal ≤ room_of self.new.journal + 2 }
        ensures in_place { IsPlace self.old.journal.next (place_of self.old.blocks n)
            → IsPlace self.old.journal.next (n / 512) → room_of self.new.journal ≡ room_of self.old.journal }
        ensures places { (m : ℕ) → IsPlace self.new.journal.next m
            ↔ ((m ≡ place_of self.old.blocks n) ⊎ (m ≡ n / 512) ⊎ IsPlace self.old.journal.next m) }
    {
        self.journal.stands();
        let digest = self.journal.put(self.rows.len() as u64 + n, bytes);
        let row = set_digest(&mut self.rows, n, digest);
        self.journal.gather(n / 512, &row);
        self.seen = kept_at(self.seen, n);
        self.bytes = *bytes;
    }

    /// Gathers the blocks of the last batch once more, as a journal does: a commit of them changes nothing. Nothing was
    /// put since that batch.
    pub fn gather_last(&mut self)
        requires { self.old.journal.next ≡ [] }
        ensures rest { self.new ≡ record self.old {
          journal = record self.old.journal { next = self.old.journal.last.entries };
        } }
        ensures same { kept_table B.past_of self.new ≡ settled_table B.past_of self.old }
    {
        self.seen = None;
        self.journal.gather_last();
    }

    /// Commits what was put: all of it or, where it fails, all or nothing of it, as a journal does.
    pub fn commit(&mut self) -> Result<(), Failed>
        ensures ok { OnOk result (settled_table B.past_of self.new ≡ kept_table B.past_of self.old) }
        ensures none { OnOk result (self.new.journal.next ≡ []) }
        ensures sound { OnOk result ((self.old.journal.has_failed ≡ false) × (self.new.journal.has_failed ≡ false)) }
        ensures synced { OnOk result (IsSynced (B.past_of self.new.journal.below).file) }
        ensures last { OnOk result (self.new.journal.last ≡ next_batch self.old.journal) }
        ensures quiet { OnOk result (B.failures self.new.journal.below ≡ B.failures self.old.journal.below) }
        ensures err { OnErr result (settled_table B.past_of self.new ≡ settled_table B.past_of self.old) }
        ensures last_stays { OnErr result (self.new.journal.last ≡ self.old.journal.last) }
        ensures kept { OnErr result (self.new.journal.next ≡ self.old.journal.next) }
        ensures failed { OnErr result (self.new.journal.has_failed ≡ true) }
        ensures any_moment { self.old.journal.has_failed ≡ false
            → LeavesEither B.past_of self.old.journal self.new.journal }
        ensures offered { Offers self.old.journal self.new.journal }
        ensures before { self.old.journal.has_failed ≡ false → LeavesBefore self.old.journal.shape
            (B.past_of self.old.journal.below) (B.past_of self.new.journal.below) }
        ensures holds { self.old.journal.has_failed ≡ false → KeepsBatch self.old.journal.shape self.old.journal.last
            (B.past_of self.old.journal.below) (B.past_of self.new.journal.below) }
        ensures refused { self.old.journal.has_failed ≡ true → self.new.journal ≡ record self.old.journal {
          refused = self.new.journal.refused;
        } }
        ensures can { OnOk result (CanCommit self.old.journal) }
        ensures untouched { ¬ CanCommit self.old.journal → self.new.journal.below ≡ self.old.journal.below }
        ensures back { B.written_back self.new.journal.below ≡ B.written_back self.old.journal.below }
        ensures shape { self.new.journal.shape ≡ self.old.journal.shape }
        ensures blocks { self.new.blocks ≡ self.old.blocks }
        ensures fails { OnErr result ((self.old.journal.has_failed ≡ true) ⊎ (self.old.journal.last.number ≡ 2 ^ 64 - 1)
            ⊎ Rises (B.failures self.old.journal.below) (B.failures self.new.journal.below)) }
        ensures counts { CountsFailure (failures_of B.failures self.old.journal)
            (failures_of B.failures self.new.journal) result }
    {
        self.seen = None;
        self.journal.commit()
    }

    /// Ends the use of the file, as a journal does: all blocks are in their places, and need no area. Nothing was put
    /// since the last commit.
    pub fn close(&mut self) -> Result<(), Failed>
        requires { self.old.journal.next ≡ [] }
        ensures places { OnOk result (kept_of self.old.journal.shape (B.past_of self.new.journal.below).file.content
            ≡ settled_table B.past_of self.old) }
        ensures areas { OnOk result (NeedsNoArea self.old.journal.shape
            (B.past_of self.new.journal.below).file.content (settled_table B.past_of self.old)) }
        ensures settled { settled_table B.past_of self.new ≡ settled_table B.past_of self.old }
        ensures none { self.new.journal.next ≡ [] }
        ensures last { OnOk result (self.new.journal.last ≡ next_batch self.old.journal) }
        ensures quiet { OnOk result (B.failures self.new.journal.below ≡ B.failures self.old.journal.below) }
        ensures last_stays { OnErr result (self.new.journal.last ≡ self.old.journal.last) }
        ensures sound { OnOk result ((self.old.journal.has_failed ≡ false) × (self.new.journal.has_failed ≡ false)) }
        ensures synced { OnOk result (IsSynced (B.past_of self.new.journal.below).file) }
        ensures failed { OnErr result (self.new.journal.has_failed ≡ true) }
        ensures any_moment { self.old.journal.has_failed ≡ false
            → LeavesEither B.past_of self.old.journal self.new.journal }
        ensures offered { Offers self.old.journal self.new.journal }
        ensures before { self.old.journal.has_failed ≡ false → LeavesBefore self.old.journal.shape
            (B.past_of self.old.journal.below) (B.past_of self.new.journal.below) }
        ensures holds { self.old.journal.has_failed ≡ false → KeepsBatch self.old.journal.shape self.old.journal.last
            (B.past_of self.old.journal.below) (B.past_of self.new.journal.below) }
        ensures refused { self.old.journal.has_failed ≡ true → self.new.journal ≡ record self.old.journal {
          refused = self.new.journal.refused;
        } }
        ensures can { OnOk result (CanCommit self.old.journal) }
        ensures untouched { ¬ CanCommit self.old.journal → self.new.journal.below ≡ self.old.journal.below }
        ensures back { B.written_back self.new.journal.below ≡ B.written_back self.old.journal.below }
        ensures shape { self.new.journal.shape ≡ self.old.journal.shape }
        ensures blocks { self.new.blocks ≡ self.old.blocks }
        ensures fails { OnErr result ((self.old.journal.has_failed ≡ true) ⊎ (self.old.journal.last.number ≡ 2 ^ 64 - 1)
            ⊎ Rises (B.failures self.old.journal.below) (B.failures self.new.journal.below)) }
        ensures counts { CountsFailure (failures_of B.failures self.old.journal)
            (failures_of B.failures self.new.journal) result }
    {
        self.seen = None;
        self.journal.close()
    }

    /// A law: the journal lies within its file, and keeps the table and the blocks of data. Unless it has failed, no
    /// block is loose, and what a crash leaves of the file now stands, under the premise, for what was committed. The
    /// premise holds of the file as it is (`honest`). The journal's last batch was handed to be written, or found
    /// (`last`), and none of a higher number (`latest`).
    pub fn stands(&self)
        ensures inside { IsInside self.now.journal.shape (B.past_of self.now.journal.below).file.content }
        ensures kept { self.now.journal.shape.kept ≡ kept_count self.now.blocks }
        ensures synced { self.now.journal.has_failed ≡ false → IsSynced (B.past_of self.now.journal.below).file }
        ensures here { self.now.journal.has_failed ≡ false → found self.now.journal.shape
            (B.past_of self.now.journal.below).file.content (self.now.journal.last.number % 2)
            ≡ Some self.now.journal.last }
        ensures survives { self.now.journal.has_failed ≡ false → (c : CrashFile)
            → IsCrashFile (B.past_of self.now.journal.below).file c
            → IsHonest self.now.journal.offered self.now.journal.shape c
            → recovered self.now.journal.shape c ≡ settled_table B.past_of self.now }
        ensures honest { self.now.journal.has_failed ≡ false → IsHonest self.now.journal.offered self.now.journal.shape
            (B.past_of self.now.journal.below).file.content }
        ensures last { self.now.journal.has_failed ≡ false → Contains self.now.journal.offered self.now.journal.last }
        ensures latest { self.now.journal.has_failed ≡ false → (x : Batch) → Contains self.now.journal.offered x
            → x.number ≤ self.now.journal.last.number }
    {
        self.journal.stands();
    }

    /// How many blocks of data there are.
    pub fn blocks(&self) -> u64
        ensures { result ≡ self.now.blocks }
    {
        self.blocks
    }

    /// The file as it is now.
    pub fn file(&self) -> &B
        ensures { result.now ≡ self.now.journal.below }
    {
        self.journal.file()
    }

    /// The file as it is now. What was put since the last commit is lost.
    pub fn into_file(self) -> B
        ensures { result ≡ self.journal.below }
    {
        self.journal.into_file()
    }
}
