//! A file of blocks over what is below: it answers from a mirror in memory, and writes go through.
ghost use Rattle.std.specs.Prelude.{◌≡◌, ◌+◌, ◌≤◌, [], length, replicate, false, true, IfOk, IsOk, OnErr, OnOk};
ghost use Rattle.sector_device.specs.DevicePast.{CountsFailure, Rises};
ghost use Rattle.block_device.specs.Blocks.{IsFailedWrite, IsSynced, after_sync, after_write, run_of, zero_block};
ghost use Rattle.block_device.specs.BlocksPast.{Elapses, and_back};
ghost use Rattle.block_host.specs.FileBlocks.{file_of};

use crate::held::Held;
use crate::passing::{get_blocks, put_blocks};
use block_device::{BLOCK_SIZE, BackRuns, Blocks};
use ghost_list::GhostList;
use sector_device::Failed;
use std::alloc::{AllocError, Allocator};
use std::io;
use store_file::{Backing, OpenError, Stored, Trouble, Troubled};

// How many blocks are read in one call where a file is opened.
const RUN: usize = 16;

/// A file of blocks over what is below. Once a write, a sync or a `keep` has failed, nothing is written any more, and
/// each of them fails (`has_failed_of`): what is below is not known then, until it is read again. (Where that is a
/// handle, the clauses say that the handle stays, and not that nothing reaches the file.)
#[derive(Drop)]
pub struct FileBlocks<F, A: Allocator> {
    below: F,
    held: Held<A>,
    // what it held before each write and sync, which takes no memory
    past: GhostList<Held<A>>,
    // which runs of blocks were written back, which takes none either
    back: BackRuns<Held<A>>,
    failures: u64,
    has_failed: bool,
}

// Reads all that is below, once that is synced.
fn load<F: Stored, A: Allocator>(below: &mut F, held: &mut Held<A>) -> io::Result<()>
    ensures { length (file_of held.new).content ≡ length (file_of held.old).content }
{
    below.sync()?;
    let blocks = held.content.len();
    let mut buffer = [[0; BLOCK_SIZE]; RUN];
    for k in 0..blocks {
        let first = k.saturating_mul(RUN);
        if first >= blocks {
            break;
        }
        let run = &mut buffer[..RUN.min(blocks - first)];
        get_blocks(below, first as u64, run)?;
        held.put(first, run);
    }
    Ok(())
}

// Why what is below refused a call.
fn refused_by<F: Backing>(below: &F, error: io::Error) -> OpenError {
    match below.trouble() {
        Some(trouble) => OpenError::Io(trouble),
        None => OpenError::from(error),
    }
}

impl<F: Drop, A: Allocator> FileBlocks<F, A> {
    ghost use Rattle.block_host.specs.FileBlocks.{past_of, failures_of, has_failed_of, below_of, written_back_of};

    // Over what is below, which is to hold this, with no loose block.
    fn holding(below: F, held: Held<A>) -> Self
        ensures file { (past_of result).file ≡ file_of held }
        ensures moment { (past_of result).moment ≡ 0 }
        ensures failures { failures_of result ≡ 0 }
        ensures back { written_back_of result ≡ [] }
        ensures sound { has_failed_of result ≡ false }
        ensures below { below_of result ≡ below }
    {
        FileBlocks {
            below,
            held,
            past: GhostList::new(),
            back: BackRuns::new(),
            failures: 0,
            has_failed: false,
        }
    }

    /// A file of zeros over what is below, which is to hold zeros, all of them safe. The error is that memory was
    /// refused.
    pub fn new(alloc: A, below: F, blocks: usize) -> Result<Self, AllocError>
        ensures zeros { IfOk result (λ b. (past_of b).file.content ≡ replicate blocks zero_block) }
        ensures synced { IfOk result (λ b. IsSynced (past_of b).file) }
        ensures moment { IfOk result (λ b. (past_of b).moment ≡ 0) }
        ensures failures { IfOk result (λ b. failures_of b ≡ 0) }
        ensures back { IfOk result (λ b. written_back_of b ≡ []) }
        ensures sound { IfOk result (λ b. has_failed_of b ≡ false) }
        ensures below { IfOk result (λ b. below_of b ≡ below) }
    {
        let held = Held::new(alloc, blocks)?;
        Ok(FileBlocks::holding(below, held))
    }

    /// The blocks as they are now.
    pub(crate) fn content(&self) -> &[[u8; BLOCK_SIZE]]
        ensures { result.now ≡ (past_of self.now).file.content }
    {
        &self.held.content
    }

    /// What is below.
    pub fn into_below(self) -> F
        ensures { result ≡ below_of self }
    {
        self.below
    }

    /// The same file over this in place of what is below.
    pub fn with_below<G: Drop>(self, below: G) -> FileBlocks<G, A>
        ensures past { past_of result ≡ past_of self }
        ensures failures { failures_of result ≡ failures_of self }
        ensures back { written_back_of result ≡ written_back_of self }
        ensures failed { has_failed_of result ≡ has_failed_of self }
        ensures below { below_of result ≡ below }
    {
        FileBlocks {
            below,
            held: self.held,
            past: self.past,
            back: self.back,
            failures: self.failures,
            has_failed: self.has_failed,
        }
    }

    // Counts a failure, behind which nothing is written any more.
    fn refuse(&mut self)
        ensures held { self.new.held ≡ self.old.held }
        ensures past { self.new.past ≡ self.old.past }
        ensures back { self.new.back ≡ self.old.back }
        ensures later { failures_of self.old ≤ failures_of self.new }
        ensures rises { Rises (failures_of self.old) (failures_of self.new) }
        ensures failed { has_failed_of self.new ≡ true }
        ensures below { below_of self.new ≡ below_of self.old }
    {
        self.has_failed = true;
        self.failures = self.failures.saturating_add(1);
    }
}

impl<F: Stored + Drop, A: Allocator> FileBlocks<F, A> {
    ghost use Rattle.block_host.specs.FileBlocks.{past_of, failures_of, has_failed_of, below_of, written_back_of};

    /// A file of blocks over what is below, which holds so many blocks, as that does, all of them to be safe. That is
    /// synced before it is read, as a process that was killed may have written to it. Nothing is written. (That it
    /// holds what is below, no clause says.)
    pub fn over(alloc: A, below: F, blocks: usize) -> Result<Self, OpenError>
        ensures blocks { IfOk result (λ b. length (past_of b).file.content ≡ blocks) }
        ensures synced { IfOk result (λ b. IsSynced (past_of b).file) }
        ensures moment { IfOk result (λ b. (past_of b).moment ≡ 0) }
        ensures failures { IfOk result (λ b. failures_of b ≡ 0) }
        ensures back { IfOk result (λ b. written_back_of b ≡ []) }
        ensures sound { IfOk result (λ b. has_failed_of b ≡ false) }
    {
        let mut below = below;
        let mut held = Held::new(alloc, blocks)?;
        if let Err(error) = load(&mut below, &mut held) {
            return Err(refused_by(&below, error));
        }
        held.settle();
        Ok(FileBlocks::holding(below, held))
    }

    // Whether what is below took the blocks.
    fn put_below(&mut self, first: u64, run: &[[u8; BLOCK_SIZE]]) -> bool
        ensures held { self.new.held ≡ self.old.held }
        ensures past { self.new.past ≡ self.old.past }
        ensures back { self.new.back ≡ self.old.back }
        ensures failures { self.new.failures ≡ self.old.failures }
        ensures failed { self.new.has_failed ≡ self.old.has_failed }
        ensures sound { result ≡ true → self.old.has_failed ≡ false }
        ensures alone { self.old.has_failed ≡ true → self.new.below ≡ self.old.below }
    {
        !self.has_failed && put_blocks(&mut self.below, first, run).is_ok()
    }

    // Whether what is below synced.
    fn sync_below(&mut self) -> bool
        ensures held { self.new.held ≡ self.old.held }
        ensures past { self.new.past ≡ self.old.past }
        ensures back { self.new.back ≡ self.old.back }
        ensures failures { self.new.failures ≡ self.old.failures }
        ensures failed { self.new.has_failed ≡ self.old.has_failed }
        ensures sound { result ≡ true → self.old.has_failed ≡ false }
        ensures alone { self.old.has_failed ≡ true → self.new.below ≡ self.old.below }
    {
        !self.has_failed && self.below.sync().is_ok()
    }

    // Whether what is below took these blocks once more, and synced them.
    fn keep_below(&mut self, first: u64, count: u64) -> bool
        requires { first + count ≤ length (past_of self.old).file.content }
        ensures held { self.new.held ≡ self.old.held }
        ensures past { self.new.past ≡ self.old.past }
        ensures back { self.new.back ≡ self.old.back }
        ensures failures { self.new.failures ≡ self.old.failures }
        ensures failed { self.new.has_failed ≡ self.old.has_failed }
        ensures sound { result ≡ true → self.old.has_failed ≡ false }
        ensures alone { self.old.has_failed ≡ true → self.new.below ≡ self.old.below }
    {
        if self.has_failed {
            return false;
        }
        let held = &self.held;
        let at = first as usize;
        let end = at + count as usize;
        let run = &held.content[at..end];
        put_blocks(&mut self.below, first, run).is_ok() && self.below.sync().is_ok()
    }
}

impl<F: Backing + Drop, A: Allocator> Troubled for FileBlocks<F, A> {
    fn trouble(&self) -> Option<Trouble> {
        self.below.trouble()
    }
}

impl<F: Stored + Drop, A: Allocator> Blocks for FileBlocks<F, A> {
    ghost use Rattle.block_host.specs.FileBlocks.{past_of, failures_of, has_failed_of, below_of, written_back_of};

    ghost past_of = { past_of };

    ghost failures = { failures_of };

    ghost written_back = { written_back_of };

    fn blocks(&self) -> u64 {
        self.held.content.len() as u64
    }

    /// It never fails.
    fn read(&mut self, first: u64, run: &mut [[u8; BLOCK_SIZE]]) -> Result<(), Failed>
        requires { first + length run.old ≤ length (past_of self.old).file.content }
        ensures ok { OnOk result (run.new ≡ run_of (past_of self.old).file.content first (length run.old)) }
        ensures size { length run.new ≡ length run.old }
        ensures file { (past_of self.new).file ≡ (past_of self.old).file }
        ensures time { Elapses (past_of self.old) (past_of self.new) }
        ensures back { written_back_of self.new ≡ written_back_of self.old }
        ensures counts { CountsFailure (failures_of self.old) (failures_of self.new) result }
        ensures succeeds { IsOk result }
        ensures failed { has_failed_of self.new ≡ has_failed_of self.old }
        ensures below { below_of self.new ≡ below_of self.old }
    {
        let at = first as usize;
        let end = at + run.len();
        run.copy_from_slice(&self.held.content[at..end]);
        Ok(())
    }

    /// Where it fails, the mirror has the new bytes, loose (`written`), and what is below any. One that has failed
    /// fails from then on (`sound`, `failed`), and leaves what is below as it is (`alone`).
    fn write(&mut self, first: u64, run: &[[u8; BLOCK_SIZE]]) -> Result<(), Failed>
        requires { first + length run.now ≤ length (past_of self.old).file.content }
        ensures ok { OnOk result ((past_of self.new).file ≡ after_write (past_of self.old).file first run.now) }
        ensures err { OnErr result (IsFailedWrite (past_of self.old).file first (length run.now)
            (past_of self.new).file) }
        ensures time { Elapses (past_of self.old) (past_of self.new) }
        ensures back { written_back_of self.new ≡ written_back_of self.old }
        ensures counts { CountsFailure (failures_of self.old) (failures_of self.new) result }
        ensures written { (past_of self.new).file ≡ after_write (past_of self.old).file first run.now }
        ensures sound { OnOk result ((has_failed_of self.old ≡ false) × (has_failed_of self.new ≡ false)) }
        ensures failed { OnErr result (has_failed_of self.new ≡ true) }
        ensures alone { has_failed_of self.old ≡ true → below_of self.new ≡ below_of self.old }
    {
        self.past = self.past.and(&self.held);
        self.held.put(first as usize, run);
        if !self.put_below(first, run) {
            self.refuse();
            return Err(Failed);
        }
        Ok(())
    }

    /// One that has failed fails from then on (`sound`, `failed`), and leaves what is below as it is (`alone`).
    fn sync(&mut self) -> Result<(), Failed>
        ensures ok { OnOk result ((past_of self.new).file ≡ after_sync (past_of self.old).file) }
        ensures err { OnErr result ((past_of self.new).file ≡ (past_of self.old).file) }
        ensures time { Elapses (past_of self.old) (past_of self.new) }
        ensures back { written_back_of self.new ≡ written_back_of self.old }
        ensures counts { CountsFailure (failures_of self.old) (failures_of self.new) result }
        ensures sound { OnOk result ((has_failed_of self.old ≡ false) × (has_failed_of self.new ≡ false)) }
        ensures failed { OnErr result (has_failed_of self.new ≡ true) }
        ensures alone { has_failed_of self.old ≡ true → below_of self.new ≡ below_of self.old }
    {
        if !self.sync_below() {
            self.refuse();
            return Err(Failed);
        }
        self.past = self.past.and(&self.held);
        self.held.settle();
        Ok(())
    }

    /// Writes the mirror's bytes to what is below, and syncs that (no clause says so). One that has failed fails from
    /// then on (`sound`, `failed`), and leaves what is below as it is (`alone`).
    fn keep(&mut self, first: u64, count: u64) -> Result<(), Failed>
        requires { first + count ≤ length (past_of self.old).file.content }
        ensures past { past_of self.new ≡ past_of self.old }
        ensures back { OnOk result (written_back_of self.new
            ≡ and_back (written_back_of self.old) first count (past_of self.old).moment) }
        ensures back_err { OnErr result (written_back_of self.new ≡ written_back_of self.old) }
        ensures counts { CountsFailure (failures_of self.old) (failures_of self.new) result }
        ensures sound { OnOk result ((has_failed_of self.old ≡ false) × (has_failed_of self.new ≡ false)) }
        ensures failed { OnErr result (has_failed_of self.new ≡ true) }
        ensures alone { has_failed_of self.old ≡ true → below_of self.new ≡ below_of self.old }
    {
        if !self.keep_below(first, count) {
            self.refuse();
            return Err(Failed);
        }
        self.back = self.back.and(first, count, &self.past, &self.held);
        Ok(())
    }
}
