//! The flusher's part: what one thread owns that writes the records which others make.
//!
//! It pops records from the queue, hands them in to the writer of the store, which owns the device, and publishes on
//! the board how far they are safe. Each step is a method on a `&mut`, with no lock and no thread, so that a loop above
//! adds nothing to believe. That a popped record can follow the ones before it is known under the lock alone: there the
//! queue's two ends are compared, and what was popped is handed in; and there an image is copied, behind all records
//! made.
//!
//! Proved: no record that was popped is lost (`takes`, `handed`). A look under the lock hands in all that was pushed
//! (`all` of `look`). At each moment of `flush`, `take_piece`, `pass_page` and `flip` a crash leaves what the first
//! records handed in make of what was opened, with all that were synced before (`images`). After each of them the board
//! has what is synced, and no more (`publishes`). A crash at any moment since a horizon was published leaves all up to
//! it (`IsFlusher.kept`, which the type keeps). With a horizon a mark of that moment is published, or 0. So who has
//! read a horizon, and then a mark that isn't 0, knows of a moment since which that horizon is kept (`noted` of
//! `settle`).
//! Neither proved nor tested here: that the queue takes a record, that it gives one without the lock, and that calls
//! succeed where there is memory.
//!
//! Lemmas about its public words that crates above may cite, in `proofs`: `Going`, `Keeping`, `Openings`,
//! `Publications` and `Taking`.
#![tactic(auto)]

mod copying;
mod ends;
mod part;
mod settling;

pub use copying::Looked;
pub use ends::FlushEnds;
pub use part::FlushPart;
