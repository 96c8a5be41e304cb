//! A core over what was restored of a store, and copies of a core for images of its store, whole and in steps.
//!
//! Proved: `load` makes a core of just what was restored, with no transaction (`made`, `opened`). It refuses
//! `IndexFull` just where there are more entries than places (`full`), else for want of memory alone (`refused`).
//! `copy_whole` answers all cells of the core, as its log has them (`whole`). `copy_step` answers the piece
//! that belongs at a place (`piece`), with the number of the last record (`number`). The one error of a copy is
//! `NoMemory`. The laws `one_copy`, `each_list` and `made_cells` say why these are the cells that the records leave.
//! Only tested: that `load` succeeds where there is memory. Neither: what a copy costs, and that it succeeds.
//!
//! Lemmas about its public words that crates above may cite, in `proofs`: `Cited`, `LoadedLaws` and `Offered`
//! (of `nsf_core`).
#![tactic(auto)]

mod copy;
mod laws;
mod loaded_core;
mod parts;

pub use copy::Copies;
pub use laws::{each_list, made_cells, one_copy};
pub use loaded_core::load;
