//! The writer of a store: it takes records in order, and its device always gives what a prefix of them makes of the
//! store that was opened. It knows records as bytes of a log and as what they set, and no more of what they mean.
//!
//! Proved: `flush_group` writes as many waiting records as fill a group, and tells the last synced one (`flushed`); it
//! writes in one slot of each log alone (`slot`). `checkpoint_step` takes an image piece by piece (`stepped`).
//! `pass_page` passes over a page just where the image's half is known to have it (`when`), as if it was taken
//! (`taken`). `checkpoint_flip` makes an image current just where its log has all it needs (`flipped`, `behind`). No
//! record is lost for want of memory (`back`). Only tested, through a store: that calls succeed where there is memory,
//! and that an image passes over pages.
//! It keeps how far the copying of an image has come (`Copying`): its own calls alone move it on. `opened_by_reader`:
//! what a reader found is a premise of `StoreWriter::new`.
//!
//! Lemmas about its public words that crates above may cite, in `proofs`: `Alone` and `Around`.
#![tactic(auto)]

mod copying;
mod image;
mod known;
mod laws;
mod page;
mod store;
mod waiting;
mod writer;

pub use copying::Copying;
pub use image::write_whole;
pub use laws::{longer_run, opened_by_reader};
pub use store::StoreWriter;
pub use writer::{FlipReply, FlushReply, StepReply};
