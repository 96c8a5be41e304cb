//! What a core consists of, as a plain record, and the steps that change it. This is no surface for clients: a step
//! asks for what `nsf_core` keeps, and its `Core` is what callers hold.
//!
//! Proved of each step: what it leaves of the record (`parts_of`), and where it answers an event of the machine, that
//! the record then stands for the machine's state after it (`Serves`). A step that fails leaves all as before. Neither:
//! speed.
//!
//! Lemmas about its public words that crates above may cite, in `proofs`: `Building`, `Changing`, `Checking`,
//! `Cleaning`, `Due`, `Finding`, `Inserting`, `KeptLive`, `Leaving`, `Moved`, `Next`, `Pairs`, `Undoing` and `Walked`.
#![tactic(auto)]

mod build;
mod change_steps;
mod clean;
mod find;
mod index;
mod opening;
mod owed;
mod parts;
mod passing;
mod reply;
mod step;
mod undo;

pub use heap_pages::Heap;
pub use marked_index::MarkedIndex;
pub use parts::{CoreParts, Detached, Ticket};
pub use reply::{BuildReply, CleanReply, Owed, Undone};
