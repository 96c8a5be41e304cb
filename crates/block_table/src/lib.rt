//! Blocks of data with a table of their digests, kept by a journal: what is read is compared with its digest, and what
//! doesn't fit is told.
//!
//! Proved of a `CheckedBlocks`, over any `Blocks`: what it reads is what was put, or else committed, and fits its
//! digest (`read`). A block that doesn't fit is told, and only such a one (`damaged`, `check`). A put sets a block and
//! its digest, and whether another one fits stays (`put`). A commit, an opening and an end do what those of a journal
//! do (`commit`, `open`, `close`), and so does what hands the last batch on (`gather_last`). So an opening that
//! succeeds has written both areas of the journal back first (`written_back`). One that is refused wrote back none, one
//! or both (`written_back_refused`). Neither: the premise `IsHonest` of the journal.
//!
//! Lemmas about its public words that crates above may cite, in `proofs`: `Contents`.
#![tactic(auto)]

mod checked;
mod rows;

pub use checked::{CheckedBlocks, ReadError};
pub use rows::table_count;
