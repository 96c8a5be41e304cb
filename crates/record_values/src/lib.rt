//! The values that records are made of: keys, bodies, places of rows, pairs, rows, the numbers of records and of
//! transactions, the geometry of a store and its versions, and the refusals.
//!
//! Proved: a value is within the format's limits, which its type keeps; what is longer or larger is refused, and only
//! that (`ok`, `too_long`, `bad`). The orders of places and pairs are total, and only equal ones tie. `records` has all
//! of them under the same names, and who stands above takes them from there.
//!
//! Lemmas about its public words that crates above may cite, in `proofs`: `Bytes`.
#![tactic(auto)]

mod error;
mod geometry;
mod key;
mod key_action;
mod limits;
mod number;
mod pair;
mod rid;
mod row;
mod short_bytes;
mod txn;
mod version;

pub use error::Error;
pub use geometry::{
    ENTRIES_MAX, ENTRIES_MIN, ENTRIES_PER_SECTOR, FRONT_SECTORS, Geometry, HEADER_SECTORS,
    HEADS_SECTORS, LARGE_ENTRIES_MAX, LARGE_LOG_SLOTS_MAX, LARGE_PAGES_MAX, LOG_SLOTS_MAX,
    LOG_SLOTS_MIN, PAGE_SECTORS, PAGES_MAX, SLOT_SECTORS, UNDO_SECTORS,
};
pub use key::{BODY_MAX, Body, KEY_MAX, Key};
pub use key_action::KeyAction;
pub use limits::{ATTEMPTS_PER_CHECKPOINT, PLACES_PER_CHANGE};
pub use number::{LAST_NUMBER, RecordNumber};
pub use pair::{Mark, Pair, compare_pairs};
pub use rid::{Rid, SLOTS_PER_PAGE};
pub use row::Row;
pub use txn::{TXNS_MAX, Txn};
pub use version::{
    OLD_BODY_MAX, OLD_ENTRIES_PER_SECTOR, OLD_KEY_MAX, OLD_PAGE_SECTORS, OLD_UNDO_SECTORS, Version,
};
