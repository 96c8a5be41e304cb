// A file of blocks in memory, whose power may go at a call that is chosen.
ghost use Rattle.std.specs.Prelude.{◌≡◌, ◌+◌, ◌-◌, ◌≤◌, ◌<◌, ◌^◌, [], length, replicate, IfOk, IsOk, IsErr};
ghost use Rattle.std.specs.Prelude.{OnOk, OnErr};
ghost use Rattle.sector_device.specs.DevicePast.{CountsFailure};
ghost use Rattle.block_device.specs.Blocks.{run_of, after_write, after_sync, IsFailedWrite, IsSynced, IsCrashFile};
ghost use Rattle.block_device.specs.Blocks.{zero_block};
ghost use Rattle.block_device.specs.BlocksPast.{Elapses, and_back};

use crate::back::BackRuns;
use crate::held::Held;
use crate::{BLOCK_SIZE, Blocks, Fate};
use ghost_list::GhostList;
use sector_device::Failed;
use std::alloc::{AllocError, Allocator};

/// A file of blocks in memory. After a number of writes and syncs each later one fails, as once the power is gone.
#[derive(Drop)]
pub struct MemBlocks<A: Allocator> {
    held: Held<A>,
    // what it held before each write and sync, which takes no memory
    past: GhostList<Held<A>>,
    // which runs of blocks were written back, which takes none either
    back: BackRuns<Held<A>>,
    calls_left: u64,
    failures: u64,
}

impl<A: Allocator + Copy> MemBlocks<A> {
    ghost use Rattle.block_device.specs.Crash.{IsCrashed};
    ghost use Rattle.block_device.specs.MemBlocks.{past_of, state_of, failures_of, last_synced_of, calls_left};
    ghost use Rattle.block_device.specs.MemBlocks.{written_back_of};

    /// A file of zeros, of whose writes and syncs so many succeed.
    pub fn new(alloc: A, blocks: u64, calls: u64) -> Result<Self, AllocError>
        ensures zeros { IfOk result (λ m. (past_of m).file.content ≡ replicate blocks zero_block) }
        ensures synced { IfOk result (λ m. IsSynced (past_of m).file) }
        ensures moment { IfOk result (λ m. (past_of m).moment ≡ 0) }
        ensures failures { IfOk result (λ m. failures_of m ≡ 0) }
        ensures back { IfOk result (λ m. written_back_of m ≡ []) }
        ensures last_synced { IfOk result (λ m. last_synced_of m ≡ (past_of m).file.content) }
        ensures left { IfOk result (λ m. calls_left m ≡ calls) }
    {
        Ok(MemBlocks {
            held: Held::new(alloc, blocks as usize)?,
            past: GhostList::new(),
            back: BackRuns::new(),
            calls_left: calls,
            failures: 0,
        })
    }

    /// Stops the file as a loss of power would. The loose blocks, ascending, get the fates in turn, beginning the list
    /// again at its end; an empty list is `Old`. Afterwards no block is loose, its moments begin anew, with nothing
    /// written back, and so many writes and syncs succeed.
    pub fn crash(&mut self, fates: &[Fate], calls: u64)
        ensures crash { IsCrashFile (past_of self.old).file (past_of self.new).file.content }
        ensures fates { IsCrashed fates.now (state_of self.old) (past_of self.new).file.content }
        ensures synced { IsSynced (past_of self.new).file }
        ensures moment { (past_of self.new).moment ≡ 0 }
        ensures failures { failures_of self.new ≡ failures_of self.old }
        ensures back { written_back_of self.new ≡ [] }
        ensures last_synced { last_synced_of self.new ≡ (past_of self.new).file.content }
        ensures left { calls_left self.new ≡ calls }
    {
        self.held.crash(fates);
        self.past = GhostList::new();
        self.back = BackRuns::new();
        self.calls_left = calls;
    }

    // Counts a write or a sync, or where none is left, a failure.
    fn count(&mut self) -> Result<(), Failed>
        ensures held { self.new.held ≡ self.old.held }
        ensures past { self.new.past ≡ self.old.past }
        ensures back { self.new.back ≡ self.old.back }
        ensures counts { CountsFailure (failures_of self.old) (failures_of self.new) result }
        ensures succeeds { 0 < calls_left self.old → IsOk result }
        ensures stops { calls_left self.old ≡ 0 → IsErr result }
        ensures left { calls_left self.new ≡ calls_left self.old - 1 }
    {
        if self.calls_left == 0 {
            self.failures = self.failures.saturating_add(1);
            return Err(Failed);
        }
        self.calls_left -= 1;
        Ok(())
    }
}

impl<A: Allocator + Copy> Blocks for MemBlocks<A> {
    ghost use Rattle.block_device.specs.MemBlocks.{past_of, state_of, failures_of, last_synced_of, calls_left};
    ghost use Rattle.block_device.specs.MemBlocks.{written_back_of};

    ghost past_of = { past_of };

    ghost failures = { failures_of };

    ghost written_back = { written_back_of };

    fn blocks(&self) -> u64 {
        self.held.content.len() as u64
    }

    /// It never fails.
    fn read(&mut self, first: u64, run: &mut [[u8; BLOCK_SIZE]]) -> Result<(), Failed>
        requires { first + length run.old ≤ length (past_of self.old).file.content }
        ensures ok { OnOk result (run.new ≡ run_of (past_of self.old).file.content first (length run.old)) }
        ensures size { length run.new ≡ length run.old }
        ensures file { (past_of self.new).file ≡ (past_of self.old).file }
        ensures time { Elapses (past_of self.old) (past_of self.new) }
        ensures back { written_back_of self.new ≡ written_back_of self.old }
        ensures counts { CountsFailure (failures_of self.old) (failures_of self.new) result }
        ensures succeeds { IsOk result }
        ensures last_synced { last_synced_of self.new ≡ last_synced_of self.old }
        ensures left { calls_left self.new ≡ calls_left self.old }
    {
        let at = first as usize;
        let end = at + run.len();
        run.copy_from_slice(&self.held.content[at..end]);
        Ok(())
    }

    /// Where it fails, the new bytes are in the blocks, loose.
    fn write(&mut self, first: u64, run: &[[u8; BLOCK_SIZE]]) -> Result<(), Failed>
        requires { first + length run.now ≤ length (past_of self.old).file.content }
        ensures ok { OnOk result ((past_of self.new).file ≡ after_write (past_of self.old).file first run.now) }
        ensures err { OnErr result (IsFailedWrite (past_of self.old).file first (length run.now)
            (past_of self.new).file) }
        ensures time { Elapses (past_of self.old) (past_of self.new) }
        ensures back { written_back_of self.new ≡ written_back_of self.old }
        ensures counts { CountsFailure (failures_of self.old) (failures_of self.new) result }
        ensures written { (past_of self.new).file ≡ after_write (past_of self.old).file first run.now }
        ensures succeeds { 0 < calls_left self.old → IsOk result }
        ensures stops { calls_left self.old ≡ 0 → IsErr result }
        ensures last_synced { last_synced_of self.new ≡ last_synced_of self.old }
        ensures left { calls_left self.new ≡ calls_left self.old - 1 }
    {
        self.past = self.past.and(&self.held);
        self.held.put(first as usize, run);
        self.count()
    }

    fn sync(&mut self) -> Result<(), Failed>
        ensures ok { OnOk result ((past_of self.new).file ≡ after_sync (past_of self.old).file) }
        ensures err { OnErr result ((past_of self.new).file ≡ (past_of self.old).file) }
        ensures time { Elapses (past_of self.old) (past_of self.new) }
        ensures back { written_back_of self.new ≡ written_back_of self.old }
        ensures counts { CountsFailure (failures_of self.old) (failures_of self.new) result }
        ensures succeeds { 0 < calls_left self.old → IsOk result }
        ensures stops { calls_left self.old ≡ 0 → IsErr result }
        ensures last_synced { OnOk result (last_synced_of self.new ≡ (past_of self.old).file.content) }
        ensures last_synced_err { OnErr result (last_synced_of self.new ≡ last_synced_of self.old) }
        ensures left { calls_left self.new ≡ calls_left self.old - 1 }
    {
        self.count()?;
        self.past = self.past.and(&self.held);
        self.held.settle();
        Ok(())
    }

    /// It only notes it: what it holds is its own, and no sync leaves any of it behind. It never fails.
    fn keep(&mut self, first: u64, count: u64) -> Result<(), Failed>
        requires { first + count ≤ length (past_of self.old).file.content }
        ensures past { past_of self.new ≡ past_of self.old }
        ensures back { OnOk result (written_back_of self.new
            ≡ and_back (written_back_of self.old) first count (past_of self.old).moment) }
        ensures back_err { OnErr result (written_back_of self.new ≡ written_back_of self.old) }
        ensures counts { CountsFailure (failures_of self.old) (failures_of self.new) result }
        ensures succeeds { IsOk result }
        ensures state { state_of self.new ≡ state_of self.old }
        ensures failures { failures_of self.new ≡ failures_of self.old }
        ensures left { calls_left self.new ≡ calls_left self.old }
    {
        self.back = self.back.and(first, count, &self.past, &self.held);
        Ok(())
    }
}
