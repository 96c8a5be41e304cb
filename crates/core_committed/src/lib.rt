//! What is committed of a core: the row of a place, the places of a key, and the index in order, as if no transaction
//! were active.
//!
//! It stands on the public calls of `nsf_core` and `core_scan` alone, and changes nothing. A transaction's uncommitted
//! changes are put back in what is read, be it the caller's own or another's.
//!
//! Proved: `get_committed` answers the row of the committed table (`committed_rows`). Of `committed_index` just the
//! pairs of committed rows are live. `scan_committed` answers a page of it, as `scan` of `core_scan` does of the index
//! (`page`); so the laws of pages hold of it. `find_committed` answers the places of a key in it (`found`). Without a
//! complete index both are refused, and else for want of memory alone.
//!
//! A law, `each_committed`, of a core that was opened soundly: the committed rows are the table of the history. Where
//! its index is complete, all of them are read (`all`): each has an entry, live or marked. No pair is read that isn't
//! one of a committed row (`never`).
//!
//! Neither: that a list is answered where there is memory, and time. Each entry that is looked at costs a look at every
//! change of the active transactions.
#![tactic(auto)]

mod laws;
mod reading;
mod rows;
mod walk;

pub use laws::each_committed;
pub use reading::{find_committed, scan_committed};
pub use rows::get_committed;
