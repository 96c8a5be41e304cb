//! Memory for tests, which refuses one allocation, and counts what it refused.
//!
//! For tests alone. The proof of its `unsafe impl` is written by hand.
#![tactic(auto)]

ghost use Rattle.std.specs.Prelude.{◌≡◌, ⊤, MatchOption};

use std::alloc::{AllocError, Allocator};
use std::cell::Cell;

/// An allocator that passes each call on, but for one allocation, which it refuses.
#[derive(Drop)]
pub struct Refusing<A> {
    inner: A,
    // how many allocations come before the one that is refused
    before: Cell<u64>,
    // how many were refused
    refused: Cell<u64>,
}

impl<A> Refusing<A> {
    /// Refuses the allocation that so many come before.
    pub fn new(inner: A, before: u64) -> Refusing<A> {
        Refusing {
            inner,
            before: Cell::new(before),
            refused: Cell::new(0),
        }
    }

    /// Refuses the allocation that so many come before, once more.
    pub fn refuse_after(&self, before: u64) {
        self.before.set(before);
    }

    /// How many allocations were refused.
    pub fn refused(&self) -> u64 {
        self.refused.get()
    }

    // What serves the next allocation, if it is not the one to be refused.
    fn served(&self) -> Option<&A>
        ensures { MatchOption result ⊤ (λ h. h.now ≡ self.now.inner) }
    {
        let before = self.before.get();
        self.before.set(before.wrapping_sub(1));
        if before == 0 {
            self.refused.set(self.refused.get().wrapping_add(1));
            return None;
        }
        Some(&self.inner)
    }
}

unsafe impl<A: Allocator> Allocator for Refusing<A> {
    ghost dealloc_token = { λ memory ty ptr. A.dealloc_token memory.inner ty ptr };

    fn allocate(&self, size: usize, align: usize) -> Result<*mut u8, AllocError> {
        match self.served() {
            Some(alloc) => alloc.allocate(size, align),
            None => Err(AllocError),
        }
    }

    unsafe fn deallocate(&self, ptr: *mut u8, size: usize, align: usize) {
        self.inner.deallocate(ptr, size, align);
    }
}
