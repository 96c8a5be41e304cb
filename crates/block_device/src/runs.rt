// Runs of blocks.
ghost use Rattle.std.specs.Prelude.{◌≡◌, ◌+◌, ◌≤◌, ℕ, true, false, ◌||◌, length, replicate, slice_index_or};
ghost use Rattle.std.specs.Prelude.{IfOk};
ghost use Rattle.block_device.specs.Blocks.{IsBlock, IsWhole, with_run, is_in_run, zero_block};

use crate::BLOCK_SIZE;
use std::alloc::{AllocError, Allocator};

/// A block of zeros.
pub fn zero_block() -> [u8; BLOCK_SIZE]
    ensures { result ≡ zero_block }
{
    [0; BLOCK_SIZE]
}

/// So many blocks of zeros. The error is that memory was refused.
pub fn zero_blocks<A: Allocator>(
    alloc: A,
    blocks: usize,
) -> Result<Vec<[u8; BLOCK_SIZE], A>, AllocError>
    ensures { IfOk result (λ image. image.items ≡ replicate blocks zero_block) }
{
    let mut image = Vec::with_capacity(alloc, blocks)?;
    for _ in 0..blocks {
        image.push(zero_block())?;
    }
    Ok(image)
}

// A block of these bytes.
fn block_of(bytes: &[u8; BLOCK_SIZE]) -> [u8; BLOCK_SIZE]
    ensures value { result ≡ bytes.now }
    ensures whole { IsBlock result }
{
    let mut block = [0; BLOCK_SIZE];
    block.copy_from_slice(bytes);
    block
}

/// Puts blocks over those from the first on.
pub fn put_run(content: &mut [[u8; BLOCK_SIZE]], first: usize, run: &[[u8; BLOCK_SIZE]])
    requires { first + length run.now ≤ length content.old }
    ensures content { content.new ≡ with_run content.old first run.now }
    ensures whole { IsWhole content.old → IsWhole content.new }
    ensures run { IsWhole run.now }
    ensures size { length content.new ≡ length content.old }
{
    for i in 0..run.len() {
        content[first + i] = block_of(&run[i]);
    }
}

/// Marks so many blocks from the first on.
pub(crate) fn mark_run(marks: &mut [bool], first: usize, count: usize)
    requires { first + count ≤ length marks.old }
    ensures marks { (n : ℕ) → slice_index_or marks.new n false
        ≡ (is_in_run first count n || slice_index_or marks.old n false) }
    ensures size { length marks.new ≡ length marks.old }
{
    for i in 0..count {
        marks[first + i] = true;
    }
}
