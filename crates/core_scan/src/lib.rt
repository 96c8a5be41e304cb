//! Reading the index in order: the visible pairs of a range of keys, a page at a time, and how many there are.
//!
//! It stands on the public calls of `nsf_core` alone, and changes nothing.
//!
//! Proved: `scan` answers exactly the first pairs of what is left of a range, in order (`pairs`). It also answers the
//! pair behind which the next page begins, as long as the limit is above 0 and any is left (`next`). `count` answers
//! how many visible pairs a range has (`count`). `scan_back` answers the last pairs of what is left before a pair, the
//! last one first, and from where to go on (`pairs`, `next`). Without a complete index all are refused, and else `scan`
//! and `scan_back` alone, for want of memory (`no_index`, `not_built`, `no_memory`, `complete`). The keys with a prefix
//! are a range (`prefix`).
//!
//! Laws: the visible pairs of a range come in order, each once (`each_visible`). A page and what is left behind it are
//! what was left before it (`each_page`). Pages are read one behind another, and the index may change between them: no
//! pair comes twice, and each that was visible throughout has come (`each_reading`). The same of pages backward
//! (`each_page_back`, `each_reading_back`).
//!
//! `IsPageOf`, `IsPageBackOf` and `IsCountOf` say of an answer what the three calls do, for whoever hands it on.
//!
//! Neither: that a page is answered where there is memory, how many entries are looked at, and time. Backward each
//! entry is looked up by itself, down from the root of the tree.
//!
//! Lemmas about its public words that crates above may cite, in `proofs`: `Filtered`, `Stepped`, `Paged` and
//! `Unread`.
#![tactic(auto)]

mod backward;
mod laws;
mod range;
mod reading;
mod walk;

pub use backward::scan_back;
pub use laws::{each_page, each_page_back, each_reading, each_reading_back, each_visible};
pub use range::KeyRange;
pub use reading::{Page, count, scan};
pub use walk::start_of;
