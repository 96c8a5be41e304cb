//! A store is opened in two calls. It is read; and what it gives is written back into the half that isn't current, with
//! an empty log, and that half is made current. Between the two the caller may still refuse it: nothing was written.
//!
//! Proved: `sync_and_read` answers what the device gives (`gives`), and writes nothing (`kept`, `images`). On a device
//! that gives something it refuses only for want of memory, or where the device failed (`accepted`). `write_back`
//! writes what was read into the other half, and makes that current (`halves`, `opened`). At each moment of it a crash
//! leaves what gives the same (`images`, `written`; the law `written_back`). It never writes the half that was read.
//! `write_over` writes what another store gave in the same way (`gives`). Only tested, under `restart`: restarts that
//! are cut short at each write and sync.
#![tactic(auto)]

mod laws;
mod opening;

pub use laws::written_back;
pub use opening::{Reopened, sync_and_read, write_back, write_over};
