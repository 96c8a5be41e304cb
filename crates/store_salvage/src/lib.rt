//! What can still be read of a damaged store, page by page.
//!
//! Proved: `salvage` leaves a content that gives something (`salvaged`). It is the old one without the entries of its
//! index, and with some parts of its current half blank: pages, which have no row then, or the log from a slot on.
//! Each was blanked as a reader refused what was left, and named it (`AreBlanked`): by a sector of the page, or by the
//! gate of that slot. The other sectors stay. So each row that is given is one that a whole page has, set over by the
//! records that the log still has, with every unfinished transaction taken back: the reader's own words say so
//! (`Gives`). Each refusal has its state; `Damaged` comes where a reader names no such part (`refused`).
//! `copy_readable` copies what can be read of a disk. It tells the other sectors, in order, and fills them with bytes
//! that say nothing (`copied`). Each was told as the disk ends before it, or for a failed call of its own (`unread`).
//!
//! Neither: that as little is lost as can be, that nothing is synced, or of which sector a call was that failed.
#![tactic(auto)]

mod blank;
mod copying;
mod entries;
mod part;
mod salvaging;

pub use copying::copy_readable;
pub use part::Part;
pub use salvaging::{Salvaged, salvage};
