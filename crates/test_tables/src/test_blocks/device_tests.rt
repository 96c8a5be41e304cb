//! A test of the crate `block_device`: with memory at hand there is a file in it.
use block_device::MemBlocks;
use std::alloc::Allocator;
use std::mem::forget;

/// Whether there is a file in memory.
pub(crate) fn is_made<A: Allocator + Copy>(alloc: A) -> bool {
    match MemBlocks::new(alloc, 4, 3) {
        Ok(blocks) => {
            forget(blocks);
            true
        }
        Err(_) => false,
    }
}
