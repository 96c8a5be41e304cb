//! Notes of an index as bytes, for the log of the host.
//!
//! Proved: a note has one spelling, of at most 63 bytes (`encode`). Bytes are decoded exactly where they are the
//! spelling of a note, and then as a note with that spelling (`decode`). Two notes with one spelling are one
//! (`one_note`). So every note that was written is read again as it was.
#![tactic(auto)]

mod laws;
mod reading;
mod writing;

pub use laws::one_note;
pub use reading::decode;
pub use writing::{NOTE_MAX, encode};
