//! A journal: blocks that are committed many at once or not at all, over a file of blocks.
//!
//! The file has two areas for batches, and the kept blocks. A batch is written to the area that the last one doesn't
//! have, and synced; then it is committed. Its blocks come to their places with the next batch, before its area is used
//! again.
//!
//! Proved of a `Journal`, over any `Blocks`: what it reads is what was settled, with what is gathered (`read`, `put`,
//! `gather`). A commit that succeeds settles what is gathered, and at any moment of one a crash leaves, under the
//! premise `IsHonest`, the blocks as before it or as after it (`commit`). An opening settles what the file stands for,
//! and a crash within it changes nothing of that (`open`). Before it writes anything else, it writes both areas back as
//! they are, and no other block (`written_back`, `written_back_refused`); no other call writes any back (`back`).
//! Whatever a crash leaves has a batch for the next opening (`holds`, `batches`). The last batch can be handed on to
//! the other area (`gather_last`). After an empty batch no area is needed (`close`). Once a commit has failed, no later
//! call makes one of the file. Neither: the premise, which no hash is known to keep.
//!
//! Laws: what a crash leaves while a batch is committed is recovered as before it, or as after it (`crash_of_commit`,
//! `at_any_moment`). Once it is committed, it is the last one (`next_is_last`). A crash may leave any bytes where a run
//! of blocks was written and not synced (`rotten_or_torn`).
//!
//! Lemmas about its public words that crates above may cite, in `proofs`: `Before`, `Crash`, `Keeping`, `OnlyReading`,
//! `Parting`, `Placing`, `Results` and `WritingBack`.
#![tactic(auto)]

mod gathered;
mod journal;
mod laws;
mod lookup;
mod parts;
mod reading;
mod refusal;
mod shape;
mod writing;

pub use journal::{Journal, Unopened};
pub use laws::{at_any_moment, crash_of_commit, next_is_last, rotten_or_torn};
pub use refusal::OpenError;
pub use shape::Shape;
