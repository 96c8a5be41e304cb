//! Reading entries in order: the visible pairs of a range of keys, a page at a time, and how many there are.
//!
//! It reads whatever keeps the entries of an index in order (`OrderedEntries`), and changes nothing. The entries in
//! memory are so (`MarkedIndex`).
//!
//! Proved: `page_of` returns exactly the first pairs of what is left of a range, in order (`pairs`). It also returns
//! the pair after which the next page begins, as long as the limit is above 0 and any is left (`next`). `count` returns
//! how many visible pairs a range has. `page_back_of` returns the last pairs of what is left before a pair, the last
//! one first, and from where to go on (`pairs`, `next`). Pages are refused for want of memory alone (`no_memory`). The
//! keys with a prefix are a range (`prefix`), and so is a key alone (`only`).
//!
//! Laws: the visible pairs of a range come in order, each once (`each_visible`). A page and what is left after it are
//! what was left before it (`each_page`). Pages are read one after another, and the index may change between them: no
//! pair comes twice, and each that was visible throughout has come (`each_reading`). The same of pages backward
//! (`each_page_back`, `each_reading_back`).
//!
//! Neither: that a page is returned where there is memory, how many entries are looked at, and time. Backward each
//! entry is looked up by itself.
#![tactic(auto)]

mod backward;
mod laws;
mod ordered;
mod range;
mod reading;
mod walk;

pub use backward::page_back_of;
pub use laws::{each_page, each_page_back, each_reading, each_reading_back, each_visible};
pub use ordered::OrderedEntries;
pub use range::KeyRange;
pub use reading::{Page, count, page_of};
pub use walk::start_of;
