//! The loops that threads run beside the seats: one writes the records and takes images, one builds the index, and one
//! cleans it.
//!
//! Each goes round under `Wait` until something that it names ends it: the stop flag of the board, a device that
//! failed, the end of the build. What a round does is a step of the layers below; a loop adds the order, and at each of
//! its points calls a gate, with no lock held, so that a test can hold it there. [`run_beside`] runs all three beside
//! what the seats do, each in a thread of its own. [`run_with`] does so where others share the flusher's part, by its
//! rounds ([`flush_round`]): what its thread does is a [`Flushing`] then.
//!
//! Proved: `flush_loop` ends with `Ok` only where the stop flag was read and the device has not failed, and with
//! `DeviceFailed` where the device failed (`stopped`, `failed`); over all its rounds no record is lost and no horizon
//! falls (`goes_on`); a crash within a call of its writer leaves all that was synced before that call, and no image is
//! begun before half the log's slots are full (`through`). A round of it goes through such states (`flush_round`).
//! `build_loop` ends with a ticket only where some core that may lie under the lock answers that it completed the index
//! (`done`). `run_with` and `run_beside` keep what the clients promise (`clients`), and give all back as it was where a
//! thread is wanting (`not_run`), with a `NoThread`; the reason that `BuilderEnd::reason` tells is the one that the run
//! ends with (`told`, `reason`, `one_reason`), and a refusal that some such core gives. Neither: that a thread is
//! started or a call returns, that `threads` makes a `NoThread` where a start was refused alone (no other module can
//! make one), that the builder or the cleaner makes a step, that the builder waits for the flusher, or how long,
//! that the flusher looks, writes or takes an image, that progress is told before the end of a build, that a refusal
//! ends the builder or is told in time, that a run lasts as long as its clients, and that a gate is called.
//!
//! Lemmas about its public words that crates above may cite, in `proofs`: `Crosses`, `Rounds`, `Running`, `Taking` (of
//! `threads_flusher`) and `Through`. With this crate comes what `threads_leader` needs of the two below it.
#![tactic(auto)]

mod build;
mod builder_end;
mod clean;
mod flush;
mod flushing;
mod gate;
mod reason;
mod rest;
mod run;
mod start;
mod threads;

pub use build::build_loop;
pub use builder_end::BuilderEnd;
pub use clean::clean_loop;
pub use flush::{RoundsMade, flush_loop, flush_round, take_up};
pub use flushing::{Flushed, Flushing};
pub use gate::{Gate, NoGate, Point};
pub use reason::Told;
pub use rest::Found;
pub use run::{Ended, NotRun, run_beside, run_with};
pub use shared::{Ack, BuildPart, CleanPart, Group, Keeping, Memory, Seat, Shared};
pub use threads::NoThread;
pub use threads_flusher::FlushPart;
