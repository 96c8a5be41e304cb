//! The queue of records to the flusher. One thread pushes, another pops, and neither waits for the other's work.
//!
//! Each end steps with a token that it owns and that takes no bytes: the [`Pusher`] and the [`Popper`]. The rule of the
//! queue holds at every moment, whatever the threads do: the records that were pushed are those that were popped and
//! then those that the queue holds, in order. A step is one push, by the pusher, or one pop, by the popper.
//!
//! What names the queue leaves out the type of its allocator ([`Memory`]).
//!
//! Proved: a push adds its record, or gives it back and has pushed nothing (`ok`, `back`). Who looks at both ends is
//! told that what was popped is the first of what was pushed (`RecordQueue::compare`). Neither: that a push succeeds
//! where there is memory, or that a pop finds a record that waits while others push.
#![tactic(auto)]

mod knowledge;
mod memory;
mod queue;
mod rule;

pub use memory::Memory;
pub use queue::{Popper, Pusher, RecordQueue};
