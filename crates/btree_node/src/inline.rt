//! An allocator that has no memory. A small vector over it can only stay in its inline places.
ghost use Rattle.std.specs.Borrow.{ffalse};

use std::alloc::{AllocError, Allocator};

/// Refuses every allocation.
#[derive(Clone, Copy)]
pub struct Inline;

unsafe impl Allocator for Inline {
    ghost dealloc_token = { λ _ _ _. ffalse };

    fn allocate(&self, _size: usize, _align: usize) -> Result<*mut u8, AllocError> {
        Err(AllocError)
    }

    unsafe fn deallocate(&self, _ptr: *mut u8, _size: usize, _align: usize) {}
}
