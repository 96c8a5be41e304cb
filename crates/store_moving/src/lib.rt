//! A store of version 1 on a disk is moved to another disk, as a program does it whose disks are files: it looks how
//! large the old store is, makes a disk of that size, and moves the store there.
//!
//! Proved: the new disk holds, all of it safe, what the old one holds in version 1 (`moved`), which is only read
//! (`kept`), and nothing behind the store is written (`around`); each refusal comes for its reason (`refused`,
//! `memory`), and a new disk that is too small is told (`room`, `too_small`); a failure of the old disk is told
//! (`told`), and after an `Ok` neither disk has failed (`quiet`). Which answer a disk has, `one_old_store` says.
//! Neither: that it succeeds where there is memory.
#![tactic(auto)]

mod laws;
mod old;

pub use laws::one_old_store;
pub use old::{NotVersionOne, move_disk, old_geometry};
