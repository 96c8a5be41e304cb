//! The entries of the index, each live or marked, with the places that are reserved for changes under way.
//!
//! Proved: each action changes one entry, by the one table of key actions (`ok`, `entries`). `IndexFull` comes just
//! where an absent pair, or a pledge, finds no room (`full`). Entries and reserved places fit the room that the index
//! was made with (`new`, `with_room`), which the type keeps. `shown_of` answers the places of a key's live entries,
//! ascending (`ascending`, `each`). `run_above` answers entries that follow one another (`run`), and none only where
//! none is above (`none`). `below` answers the greatest entry below a pair, or of all. `clear` answers every entry
//! (`taken`) and leaves none (`cleared`). `len` and `marked` answer how many entries there are, and how many of them
//! are marked. `last_live_above` answers the last of some live entries that come next (`passed`), and none only where
//! the next one isn't live (`none`). Only tested (`test_tables`): that calls succeed where there is memory.
//!
//! Lemmas about its public words that crates above may cite, in `proofs`: `LivePlaces`.
#![tactic(auto)]

mod entries;
mod index;
mod passing;

pub use btree_node::{Cleared, ENTRIES_MAX};
pub use index::{Built, MarkedIndex, Stepped};
