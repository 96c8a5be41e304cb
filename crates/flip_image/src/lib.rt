//! The two halves of a store on a device: where their parts lie, how a device is
//! formatted and opened, and how the half that is not current is written and made current.
//!
//! Proved: what `Halves::format`, `open`, `flip`, `read_image` and the writes of an image leave, and which sectors they
//! change (`outside`). Of a flip and of the writes, what a crash leaves at any moment (`any_moment`, `within`). A value
//! that was kept from before a flip writes nothing (`current`). Four laws say how these words go together: `one_store`,
//! `store_beside_log`, `halves_apart` and `fresh_image`. Only tested: the superblock byte by byte. Neither: a crash
//! within `format`, after which the device must be formatted again.
//!
//! Lemmas about its public words that crates above may cite, in `proofs`: `Sides` and `Stores`.
#![tactic(auto)]

mod flip;
mod half;
mod halves;
mod idle;
mod laws;
mod superblock;

pub use half::{FLIP_SECTOR, Half};
pub use halves::Halves;
pub use laws::{fresh_image, halves_apart, one_store, store_beside_log};
pub use superblock::{SUPERBLOCK_SECTOR, VERSION};
