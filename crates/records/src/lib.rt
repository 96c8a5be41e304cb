//! The records of the log, and how they are spelled in bytes; and, under the same names, the values of `record_values`
//! that they are made of.
//!
//! Proved: `encode_into` appends a record's spelling (`ok`), `decode` reads just what is one (`found`, `none`). No
//! spelling begins another (the law `one_spelling`); each record within its limits has one (`each_has_a_spelling`).
//! Two, four or eight bytes spell one number (`one_number`). `front` takes single fields off some bytes. Only tested
//! (`test_tables`): the text of refusals, and the vectors of the format document.
//!
//! Lemmas about its public words that crates above may cite, in `proofs`: `Fields`, `Numbers`, `Spellings`, `Steps` and
//! `Wide`.
#![tactic(auto)]

mod change;
mod decode;
mod encode;
pub mod front;
mod laws;
mod record;
mod sink;
mod size;
mod within;

pub use change::{CHANGES_MAX, Change, Rows};
pub use laws::one_number;
pub use record::{
    Action, IndexAction, Part, RECORD_MAX, RECORD_MIN, Record, TxnAction, each_has_a_spelling,
    one_spelling,
};
pub use record_values::{
    ATTEMPTS_PER_CHECKPOINT, BODY_MAX, Body, ENTRIES_MAX, ENTRIES_MIN, ENTRIES_PER_SECTOR, Error,
    FRONT_SECTORS, Geometry, HEADER_SECTORS, HEADS_SECTORS, KEY_MAX, Key, LARGE_ENTRIES_MAX,
    LARGE_LOG_SLOTS_MAX, LARGE_PAGES_MAX, LAST_NUMBER, LOG_SLOTS_MAX, LOG_SLOTS_MIN, Mark,
    OLD_BODY_MAX, OLD_ENTRIES_PER_SECTOR, OLD_KEY_MAX, OLD_PAGE_SECTORS, OLD_UNDO_SECTORS,
    PAGE_SECTORS, PAGES_MAX, PLACES_PER_CHANGE, Pair, RecordNumber, Rid, Row, SLOT_SECTORS,
    SLOTS_PER_PAGE, TXNS_MAX, Txn, UNDO_SECTORS, Version, compare_pairs,
};
pub use sink::Sink;
