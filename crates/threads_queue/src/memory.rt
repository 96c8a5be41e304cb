//! Where the queue gets its memory.
use std::alloc::Allocator;

/// An allocator, with how the logic stores it, so that a name tells it from any other. Each allocator that is `Copy` is
/// one.
pub trait Memory: Allocator + Copy {
    ghost use base.Stored.{Coded};

    ghost stored: { Coded Self };
}

impl<A: Allocator + Copy> Memory for A {
    ghost stored = { A.row.coded };
}
