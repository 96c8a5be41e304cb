// What a file of blocks holds.
ghost use Rattle.std.specs.Prelude.{◌≡◌, ◌+◌, ◌≤◌, length, replicate, IfOk};
ghost use Rattle.block_device.specs.Blocks.{IsSynced, IsWhole, after_sync, after_write, zero_block};

use block_device::{BLOCK_SIZE, put_run, zero_blocks};
use ghost_list::GhostList;
use std::alloc::{AllocError, Allocator};

/// So many blocks that were written, from the first one's number on.
#[derive(Clone, Copy)]
pub(crate) struct Run {
    first: u64,
    count: u64,
}

/// The blocks, and, for clauses alone, which runs of them were written since the last sync.
#[derive(Drop)]
pub(crate) struct Held<A: Allocator> {
    pub(crate) content: Vec<[u8; BLOCK_SIZE], A>,
    written: GhostList<Run>,
    ghost whole: { IsWhole content.items },
}

impl<A: Allocator> Held<A> {
    ghost use Rattle.block_host.specs.FileBlocks.{file_of};

    /// So many blocks of zeros, none of them loose.
    pub(crate) fn new(alloc: A, blocks: usize) -> Result<Self, AllocError>
        ensures zeros { IfOk result (λ h. (file_of h).content ≡ replicate blocks zero_block) }
        ensures synced { IfOk result (λ h. IsSynced (file_of h)) }
    {
        let content = zero_blocks(alloc, blocks)?;
        Ok(Held {
            content,
            written: GhostList::new(),
        })
    }

    /// Writes a run.
    pub(crate) fn put(&mut self, first: usize, run: &[[u8; BLOCK_SIZE]])
        requires { first + length run.now ≤ length (file_of self.old).content }
        ensures written { file_of self.new ≡ after_write (file_of self.old) first run.now }
        ensures size { length (file_of self.new).content ≡ length (file_of self.old).content }
        ensures run { IsWhole run.now }
    {
        put_run(&mut self.content, first, run);
        let now = Run {
            first: first as u64,
            count: run.len() as u64,
        };
        self.written = self.written.and(&now);
    }

    /// Makes all that it holds synced.
    pub(crate) fn settle(&mut self)
        ensures { file_of self.new ≡ after_sync (file_of self.old) }
    {
        self.written = GhostList::new();
    }
}
