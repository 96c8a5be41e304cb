//! An index of a table that another program keeps: the host. The host keeps its rows, its locks, its transactions and
//! its log as it likes; the index is built while the host goes on changing rows.
//!
//! What the index keeps in memory depends on the two type parameters. `Entries` says where the entries are, and `Walk`
//! where the pairs wait that were read for the builder. With `MarkedIndex` and `PageScan` both are in memory: 72 bytes
//! an entry, and up to twice that where leaves of the tree are half full, and 68 bytes a pair that waits.
//!
//! Proved, of every call but `redo`, for every world of `online_model` that the index stands for (`StandsFor`): the
//! call makes one step of that machine (`prepare` two, `build_many` a run of the builder's), which is enabled where the
//! index alone decides it, or nothing changes. `redo` sets what its note says. So what `online_model` says of every
//! order of steps, it says of this index (`every_index`). After a stop the notes of the host's log give
//! the index again, alone or over a checkpoint that was saved in pieces (`every_redo`), and reopened it goes on
//! (`every_reopening`).
#![tactic(auto)]

mod build;
mod entries;
mod index;
mod laws;
mod pieces;
mod reading;
mod walk;

pub use build::{BuildStep, Stop};
pub use entries::Entries;
pub use entry_scan::{KeyRange, OrderedEntries, Page};
pub use index::{Counts, OnlineIndex};
pub use laws::{every_index, every_range, every_redo, every_reopening};
pub use pieces::{NextMarked, Saved};
pub use walk::{PageScan, Walk, is_page};
