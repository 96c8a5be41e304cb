//! The engine as C calls it: a store stands behind a handle, which C keeps.
//!
//! Proved: each call meets the contract of the engine's call that `docs/C.md` names, over a disk whose reads are
//! answered from memory; and what C asks for is one event, or none for one reason (the law `one_event`). `nsf_next`
//! tells the first visible pair of a range, now or as is committed, `nsf_previous` the last one, and
//! `nsf_get_committed` a committed row, or why not (`IsShown`, `IsNotShown`, `IsShownBack`, `IsNotShownBack`,
//! `IsCommittedTold`); a scan is refused for its first fault alone (the law `one_scan`). Within `nsf_create`, `make`
//! and `formatted` give back a disk that failed, which counts that (`HasFailed`), or that a restart refused.
//!
//! Trusted: what `include/nsf.h` asks of who calls, and that the other end of a line does what it is asked before it
//! says so. One thread at a time is in a call of a handle, and all calls of a handle are of one thread. By hand: five
//! functions of `handle.rt` and `loose.rt`, between a box and the pointer that C keeps. Not proved: that memory was
//! refused where a call answers 1, since no contract below says when it is; nor of `nsf_create` itself that the disk
//! which failed, where it answers 2, is its own: C gets a number and no disk, so its clause says only that there is one
//! (`FailedAsMade`). `examples/c/refusals.c` plays both. Neither proved nor built by `rt ci`: what is C.
#![tactic(auto)]

mod asked;
mod below;
mod bounds;
mod handle;
mod held;
mod kind;
mod laws;
mod loose;
mod opening;
mod saving;
mod scanning;
mod serving_calls;
mod spot;
mod told;
mod unopened;

pub use asked::Asked;
pub use below::Below;
pub use bounds::Bounds;
pub use handle::Handle;
pub use held::Held;
pub use laws::one_event;
pub use opening::{nsf_close, nsf_create, nsf_open, nsf_sectors};
pub use saving::nsf_save;
pub use scanning::{nsf_get_committed, nsf_next, nsf_previous};
pub use serving_calls::{nsf_can_open, nsf_flush, nsf_image, nsf_serve, nsf_stat};
pub use spot::Spot;
pub use told::{Stat, Told};
