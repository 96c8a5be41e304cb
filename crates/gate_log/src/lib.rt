//! The log of a store: an area of slots, each for one group of records. A group counts, whole, from the moment its
//! slot's gate is open and synced. A crash before that leaves all of it or none.
//!
//! Proved: an append that answers `Done` has added just the new group, synced (`done`, `synced`). At any moment of it a
//! crash leaves the old groups, or them with the whole new one (`any_moment`). `Full` comes just where each slot is
//! open (`full`). Reading gives just the records that are there (`read`), or names the first damaged gate (`refused`).
//! Records of groups are told group by group (the law `records_of_groups`). Only tested, through a store: a group byte
//! by byte, and how many calls the device gets. Neither: time.
//!
//! Lemmas about its public words that crates above may cite, in `proofs`: `Readings`.
#![tactic(auto)]

mod area;
mod group;
mod laws;
mod slot;

pub use area::{Appended, LogArea};
pub use group::{GROUP_MAX, fits, group_len, spell};
pub use laws::{one_reading, records_of_groups, told_by_its_sectors};
