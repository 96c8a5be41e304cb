//! Images of a store that are copied in steps while records are made: what each step copies, and what the records give
//! that are redone over such an image.
//!
//! Laws, and `Chunk::place_behind`, which is exact. An image that was copied in steps, with the records above its base
//! redone over it, gives the cells that they were made in (`copied_in_steps`, `redone_image`). Entries copied above
//! others stand behind these (`joined_in_order`).
//!
//! Lemmas about its public words that crates above may cite, in `proofs`: `Ordered`, `Runs` and `Steps`.
#![tactic(auto)]

mod chunk;
mod laws;
mod page_rows;

pub use chunk::{CHUNK_ENTRIES, Chunk, CopyPlace, Piece};
pub use laws::{copied_in_steps, joined_in_order, redone_image};
pub use page_rows::PageRows;
