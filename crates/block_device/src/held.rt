// What a file in memory holds.
ghost use Rattle.std.specs.Prelude.{◌≡◌, ◌+◌, ◌≤◌, length, replicate, IfOk};
ghost use Rattle.block_device.specs.Blocks.{IsWhole, IsSynced, IsCrashFile, after_write, after_sync, zero_block};

use crate::crash::tear;
use crate::runs::{mark_run, put_run, zero_blocks};
use crate::{BLOCK_SIZE, Fate};
use std::alloc::{AllocError, Allocator};

/// What a file holds, what it held at the last sync, and which blocks are loose.
#[derive(Drop)]
pub(crate) struct Held<A: Allocator> {
    pub(crate) content: Vec<[u8; BLOCK_SIZE], A>,
    synced: Vec<[u8; BLOCK_SIZE], A>,
    loose: Vec<bool, A>,
    ghost whole: { IsWhole content.items },
    ghost synced_whole: { IsWhole synced.items },
    ghost synced_size: { length synced.items ≡ length content.items },
    ghost loose_size: { length loose.items ≡ length content.items },
}

impl<A: Allocator + Copy> Held<A> {
    ghost use Rattle.block_device.specs.Crash.{IsCrashed};
    ghost use Rattle.block_device.specs.MemBlocks.{file_of, torn_of};

    /// So many blocks of zeros, none of them loose.
    pub(crate) fn new(alloc: A, blocks: usize) -> Result<Self, AllocError>
        ensures zeros { IfOk result (λ h. (file_of h).content ≡ replicate blocks zero_block) }
        ensures synced { IfOk result (λ h. IsSynced (file_of h)) }
        ensures last_synced { IfOk result (λ h. (torn_of h).synced ≡ (file_of h).content) }
    {
        Ok(Held {
            content: zero_blocks(alloc, blocks)?,
            synced: zero_blocks(alloc, blocks)?,
            loose: vec![in alloc; false; blocks]?,
        })
    }

    /// Writes a run.
    pub(crate) fn put(&mut self, first: usize, run: &[[u8; BLOCK_SIZE]])
        requires { first + length run.now ≤ length (file_of self.old).content }
        ensures written { file_of self.new ≡ after_write (file_of self.old) first run.now }
        ensures run { IsWhole run.now }
        ensures last_synced { (torn_of self.new).synced ≡ (torn_of self.old).synced }
    {
        put_run(&mut self.content, first, run);
        mark_run(&mut self.loose, first, run.len());
    }

    /// Makes all that it holds synced.
    pub(crate) fn settle(&mut self)
        ensures settled { file_of self.new ≡ after_sync (file_of self.old) }
        ensures last_synced { (torn_of self.new).synced ≡ (file_of self.old).content }
    {
        self.synced.copy_from_slice(&self.content);
        self.loose.fill(false);
    }

    /// Gives the loose blocks the fates in turn. Then none is loose.
    pub(crate) fn crash(&mut self, fates: &[Fate])
        ensures crash { IsCrashFile (file_of self.old) (file_of self.new).content }
        ensures fates { IsCrashed fates.now (torn_of self.old) (file_of self.new).content }
        ensures synced { IsSynced (file_of self.new) }
        ensures last_synced { (torn_of self.new).synced ≡ (file_of self.new).content }
    {
        tear(&mut self.content, &self.synced, &self.loose, fates);
        self.settle();
    }
}
