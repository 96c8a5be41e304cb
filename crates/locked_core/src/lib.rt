//! The steps that are made under the lock: on the core that many seats share, with the sessions of the seats.
//!
//! Each step is a method of [`Locked`] on a `&mut`, so that a lock adds nothing to believe. It makes a step of the
//! core, changes the session of the seat in both of its halves, and leaves the record that the step made, if any, in
//! the core's outbox, from which [`Locked::push_outbox`] hands it to the queue to the flusher. A record that the queue
//! refuses stays, and is the first one to be pushed next time.
//!
//! Proved: whoever takes the lock finds that core, queue and sessions agree (`IsShared`, which the type keeps): the law
//! `each_hold`. A step of a seat is served by the core (`served`), changes the seat's session as it tells (`ok`), and
//! no other (`book`). `pass_live` moves the cleaner's place over live entries, as the core's does (`passed`).
//! `push_outbox` pushes the first records that wait, in order (`pushed`). `compare` tells that what was popped is the
//! first of what was pushed (`beginning`). Neither: that a record is pushed where the queue would take it.
#![tactic(auto)]

mod group;
mod locked;
mod outbox;
mod seat;

pub use group::Group;
pub use locked::Locked;
pub use seat::SeatPart;
pub use threads_queue::Memory;
