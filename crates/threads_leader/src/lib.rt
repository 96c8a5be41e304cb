//! Seats that write what they wait for themselves.
//!
//! The flusher's part of a run lies on a [`Desk`], under a lock of its own. A seat that waits for its commit and finds
//! that nobody writes makes a round of the flusher with it: it writes what waits, some steps of an image too,
//! publishes, and so wakes the others. The flusher's thread makes rounds beside them, which nobody waits for.
//!
//! Proved: `run_led` says of the flusher's part what `run_beside` says, clause for clause, whoever made the rounds:
//! over all of them no record is lost and no horizon falls (`goes_on`), and a crash within a call of the writer leaves
//! all that was synced before (`through`). It ended with `Ok` only where the device has not failed, and with
//! `DeviceFailed` where it has (`sound`, `failed`). `Desk::await_ack` answers as `Shared::await_ack` does (`acked`,
//! `refused`). Neither: that a seat or a thread makes a round, that what nobody waits for is written in some time, and
//! that a call returns.
//!
//! Lemmas that crates above may cite, in `proofs`: `BuilderEnds` and `Crosses`, both of `threads_loops`. What they need
//! of that crate comes with this one.
#![tactic(auto)]

mod course;
mod desk;
mod rest;
mod run;
mod turn;

pub use course::Course;
pub use desk::Desk;
pub use run::run_led;
pub use threads_loops::{
    BuilderEnd, Ended, Gate, NoGate, NoThread, NotRun, Point, Told, build_loop, clean_loop,
    flush_loop, run_beside,
};
