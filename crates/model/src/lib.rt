//! The definitions that several crates speak of, with a plain program over maps that computes them: a restart runs on
//! it, and its maps give images their cells.
//!
//! Proved: each function of the plain program has the definition as its exact contract (`CellMaps::redo`, `recover`,
//! `RowMap::redo_all`); want of memory leaves a lent map as it was (`err`), but in `extend`. Laws: `beginnings` (the
//! opening begins each history, and a beginning stays one), `copied_image`, `following_records`, `inside_pages`; of
//! histories and lists `one_more_item`, `commit_order`, `set_is_there` and `listed_changes`.
//!
//! Lemmas about its public words that crates above may cite, in `proofs`: `CellsLaws`, `ExtendedLaws`, `FollowingLaws`,
//! `GivenLaws`, `HistoryLaws`, `ImageLaws`, `InsideLaws`, `MapLaws`, `PairLaws`, `PlacedLaws`, `RecoveryLaws` and
//! `TableLaws`.
#![tactic(auto)]

mod cell_maps;
mod entry_map;
mod laws;
mod life;
mod list_map;
mod pairs;
mod row_map;
mod write;

pub use cell_maps::{CellMaps, Recovered};
pub use entry_map::EntryMap;
pub use laws::{
    beginnings, commit_order, copied_image, following_records, inside_pages, listed_changes,
    one_more_item, set_is_there,
};
pub use life::Life;
pub use list_map::ListMap;
pub use record_values::KeyAction;
pub use row_map::{ROWS_PER_PAGE, RowMap};
pub use write::Write;
