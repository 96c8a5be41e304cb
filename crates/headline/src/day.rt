//! A day of a store.
use restart::Event;
use std::alloc::Allocator;

/// What is asked of a store on one day, and how that ends: `within`, where the store stops at any moment of the last
/// request, or of the opening where there is none; else it stops behind its last reply.
#[derive(Drop)]
pub struct Day<A: Allocator> {
    pub requests: Vec<Event, A>,
    pub within: bool,
}
