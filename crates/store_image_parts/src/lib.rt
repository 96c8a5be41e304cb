//! How the parts of a store's image are spelled: header, transaction heads, undo items, rows and entries. Each value
//! has one spelling, and what is not read as a value is the spelling of none.
//!
//! Proved: each `spell_` function gives the spelling (`spelled`). Each `read_` function gives a value just where the
//! bytes are its spelling, zeros included, within its limits (`found`, `fits`, `again`). Only tested (`test_tables`):
//! how one of each is spelled, byte by byte.
//!
//! Lemmas about its public words that crates above may cite, in `proofs`: `OneReading`.
#![tactic(auto)]

mod buffer;
mod entry;
mod fields;
mod head;
mod header;
mod item;
mod row;
mod take;

pub use entry::{ENTRY_SIZE, entry_size, read_entry, read_entry_in, spell_entry};
pub use head::{HEAD_SIZE, Head, read_head, spell_head};
pub use header::{Header, read_header, read_header_in, spell_header};
pub use item::{ITEM_SIZE, UndoItem, item_size, read_item, read_item_in, spell_item};
pub use row::{ROW_SIZE, read_row, read_row_in, row_size, spell_row};
