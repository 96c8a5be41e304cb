//! A device of sectors over a file: it answers from a mirror in memory, and writes through to the file.
//!
//! Proved: the clauses of `Device` over the mirror, for whatever is below; and that once a write or a sync of a disk
//! has failed, each later one fails (`sound`, `failed`). Trusted: that a file holds what was written and synced, and
//! that writing one sector of 512 bytes harms no other, nor itself where it had these bytes. No clause says that a
//! write or a sync is passed on to what is below, nor that an opening writes back what it read. Nor does one say what
//! taking a file reads, writes or locks, nor that it has so many sectors. Only tested (`test_files`): that, on a cache
//! of pages, after syncs that failed; the order of writes, syncs and names; locks; which drafts give way; refusals of
//! the system. By hand: `Past::new`, `Past::note`, and that a disk may go to another thread.
#![tactic(auto)]

mod backing;
mod draft;
mod error;
mod host;
mod mirror;
mod names;
mod opening;
mod past;
mod trouble;

pub use backing::{Backing, Detached, Stored};
pub use draft::{SECTORS_MAX, create, discard, publish};
pub use error::OpenError;
pub use host::{Held, HostFile, StoreFile};
pub use mirror::FileDisk;
pub use names::{FileNumber, number_at};
pub use opening::{Taken, hold, open, read, share, share_whole, take};
pub use past::Past;
pub use trouble::{Trouble, Troubled};
