//! The theorem of the store as the contract of one call: it formats a device, serves days of requests over it, each
//! until the store stops at any moment or after its last reply, and says what is found in the end.
//!
//! Proved: `live_through` (`holds`, `unbuilt`, `refused`, `too_small`, `unchanged`, `room`); and of a store that is
//! moved from version 1 `live_on` (`holds`, `kept`, `refused`, `room`, `too_small`, `told`, `quiet`). They are composed
//! of public contracts alone. A day ends after its last reply, or within its last request, at any moment of it; each
//! record that a reply had acknowledged before the stop is kept. What is found is, entry by entry, what the records of
//! the day's replies make, up to the last one that is kept (`records` of `IsServed`). The requests of each day are
//! answered lawfully, record numbers go on from day to day, and the device's failures are counted. Only tested
//! (`test_nsf`): days over a disk in memory, and one that is stopped at each of its moments, compared with a plain
//! program. Neither: that memory is granted, or the device succeeds.
//!
//! The same of a store that clients use at last beside one another, until it stops at any moment.
//!
//! Proved: `live_beside` (`holds`, `unbuilt`, `refused`, `many`, `too_small`, `unchanged`, `room`). After a whole day,
//! and on one that stops while the rest is written out, nothing is lost that a seat has read to be safe. On one that
//! stops at any moment since a client had read a mark, nothing that its seat had seen to be safe as it read the mark.
//! Only tested (`test_nsf`): two clients over a disk in memory, and that they read marks. Neither: how many commits are
//! kept of a day that ends `Opening`; that one that ends `Closing`, `Since` or `Opening` stops before all is written.
//!
//! What many threads leave, as the contract of one call: every seat is taken back, the power fails after that, and the
//! store is opened again.
//!
//! Proved: `finish_and_open` (`holds`, `whole`, `unwritten`, `refused`). The store has the rows that the threads began
//! with and the first commits of all seats by number. Each that was synced, or whose acknowledgement is handed in, is
//! among them; and where all was written out, each. The index fits the rows. Neither: that it is ever called.
#![tactic(auto)]

mod beside;
mod closed;
mod daily;
mod day;
mod lives;
mod mortal;
mod moved;
mod shared_day;

pub use beside::{LivedBeside, NotLivedBeside, live_beside};
pub use closed::{Reopened, finish_and_open};
pub use day::Day;
pub use lives::{Answer, Lived, NotLived, live_through};
pub use mortal::Mortal;
pub use moved::live_on;
pub use shared_day::{End, SharedAnswer, SharedDay};
