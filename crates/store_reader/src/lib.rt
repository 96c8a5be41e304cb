//! What a store on a device gives: what the records of its current half's log make of the cells of that half's image,
//! with every unfinished transaction taken back.
//!
//! Proved: `read_store_in` answers what the image gives by a version of the format, with its log (`found`, `GivesIn`),
//! or names the first thing that is wrong (`refused`). It writes nothing (`reads`). An image gives one thing at most,
//! and is refused in one way at most (the law `one_answer`). Over a fresh half records leave what they leave of nothing
//! (`over_no_cells`). Only tested: that it succeeds where there is memory.
//!
//! Of the cells of a store alone: `redo` sets what a record says (`ok`), and refuses just those that can't follow, else
//! for want of memory (`unfit`, `err`). `restore` takes every unfinished transaction back (`given`).
//!
//! Lemmas about its public words that crates above may cite, in `proofs`: `Readings`.
#![tactic(auto)]

mod image_cells;
mod laws;
mod reader;
mod refusal;
mod restored;
mod store_cells;

pub use image_cells::ImageCells;
pub use laws::{
    format_gives_nothing, image_inside, one_answer, one_old_answer, over_no_cells, room_for_given,
};
pub use reader::{Found, read_store, read_store_in};
pub use refusal::{Refusal, Stopped};
pub use restored::Restored;
pub use store_cells::StoreCells;
