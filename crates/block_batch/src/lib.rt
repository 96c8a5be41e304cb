//! A batch of blocks, as it stands in an area of a journal: a head, which names it, and the place and the digest of
//! each of its blocks, and behind it the blocks.
//!
//! Proved: what `seal` makes of an area, `read` reads from it as it was (`batch`, `found`), and refuses where a digest
//! or a number doesn't fit (`none`). Laws: a batch that is replayed again changes nothing, and what a replay has left
//! that was cut off is replayed to the same (`replayed_again`). While one batch more is written, a crash leaves what is
//! replayed to the blocks before it or after it (`one_batch_more`). What is behind a batch doesn't matter
//! (`in_a_larger_area`).
//!
//! Lemmas about its public words that crates above may cite, in `proofs`: `Larger`, `Replay` and `Torn`.
#![tactic(auto)]

mod head;
mod laws;
mod reading;

pub use head::{Head, PLACES_MAX, block_digest, seal};
pub use laws::{in_a_larger_area, one_batch_more, replayed_again};
pub use reading::read;
