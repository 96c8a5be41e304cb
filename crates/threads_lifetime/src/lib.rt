//! A store that many threads have open.
//!
//! One call opens the store that a device holds, and gives what its threads need: what they share, a seat for each, and
//! the parts of those that write to the device, build the index and clean it.
//!
//! Proved: `open_store` opens a store as a restart does (`opened`), tells one that no core may begin with (`Unsound`),
//! or refuses (`refused`). It has 16 seats at most. `open_engine` shares an engine that served: the store opens with
//! what the engine holds, and no record up to its horizon is lost (`opened`); or the engine is given back (`refused`).
//! Which answer comes when, the laws `told_of_a_store` and `told_of_an_engine` say. What threads, or a crash within the
//! opening, leave may be opened again (the laws `left_by_threads`, `left_by_an_opening`). `OpenStore::start` hands out
//! new seats and a flusher's part with nothing popped (`seats`, `flush`). Neither: that `open_engine` doesn't read the
//! device, and writes each sector once at most.
//!
//! The end of what many seats share: everything is taken back into one hand, and every record is written out. The
//! commits of all seats are given by number, where they are kept.
//!
//! Proved: after an `Ok` of `finish` the commits of all seats are numbered 1 to n, each once, each seat's in order, and
//! each crash state gives the opened table with all of them set over it (`closed`). Where a group keeps its commits in
//! memory, `finish` gives just these (`closed`, `given`). Whatever the answer, at each moment a crash leaves what the
//! first records made, with all that were synced as it began (`images`, `left`); each acknowledgement handed in is of
//! such a record (`acked`). Neither: that `finish` returns. Two of its loops have no bound.
//!
//! Lemmas about its public words that crates above may cite, in `proofs`: `Orders`.
#![tactic(auto)]

mod closing;
mod from_engine;
mod gather;
mod laws;
mod openable;
mod opening;
mod refusal;
mod store;
mod writing;

pub use closing::{Closed, finish, let_go};
pub use from_engine::open_engine;
pub use laws::{told_of_a_store, told_of_an_engine};
pub use openable::{
    format_store, left_by_a_run, left_by_an_opening, left_by_threads, sound_or_not,
};
pub use opening::open_store;
pub use refusal::OpenError;
pub use shared::Parts;
pub use store::OpenStore;
