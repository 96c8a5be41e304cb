//! A core that many threads share, one seat each.
//!
//! Each call of a seat makes its steps of the core one at a time, each under the lock anew, and pushes the records that
//! wait to the queue of the flusher, once a hold. `put`, `remove` and `replace` make a whole transaction of one change
//! in one hold. What a seat knows of its own transactions is in its session, which the calls keep in step with the
//! core. A seat learns from the board, without the lock, which records are safe on the device. It holds the lock only
//! within a call. Flusher, builder and cleaner are lent the guard by `hold_to_..`.
//!
//! Proved: what an `Ok` makes of the seat's session (`ok`, `changed`). Each reply is one that some core which may lie
//! under the lock gives (`served`). What is made in one hold is served with nothing between (`made`), and adds one
//! commit to the seat's session (`committed`). Where it is refused, the session stays (`nothing_stays`), or the
//! transaction is left in it (`left`), and a core may refuse a step of taking it back (`why_left`). `get` of a place
//! that the seat holds answers its own row (`own`).
//! `scan`, `scan_back` and `count` read the index of such a core in order (`page`, `count`). `get_committed`,
//! `find_committed` and `scan_committed` read what is committed of it (`row`, `found`, `page`), so no row that a
//! transaction may take back. `counts` tells how many rows and entries it has (`counts`).
//! An acknowledgement is of a ticket that a horizon reached (`acked`), no horizon falls (`rises`), what the seat has
//! seen leaves a wait one answer (the law `one_wait`), and the horizon that it had seen with its mark was published by
//! the moment that this marks, if it isn't 0 (`noted`).
//!
//! Neither: that a call which takes the lock or waits returns; fairness; that `find`, `scan`, `count`, `counts`, `life`
//! or `get` of another's place is of now; that taking back was tried where a transaction is left (want of memory may
//! refuse each step of it); that a dropped seat gives its transactions back (they stay active until the store is opened
//! again).
#![tactic(auto)]

mod abort;
mod acks;
mod at_once;
mod builder;
mod calls;
mod changes;
mod cleaner;
mod committed;
mod counts;
mod laws;
mod one_change;
mod opening;
mod parts;
mod quiet;
mod scans;
mod seat;
mod shared;
mod taken_back;
mod tested;
mod views;

pub use builder::BuildPart;
pub use changes::Change;
pub use cleaner::CleanPart;
pub use laws::{each_refusal, one_wait};
pub use locked_core::{Group, Memory};
pub use one_change::{Placed, Refusal};
pub use opening::{FirstParts, Opening, open};
pub use parts::{LoopParts, Parts};
pub use seat::{Ack, Seat};
pub use shared::Shared;
pub use threads_sessions::{Keeping, Kept, Told};
pub use views::GroupView;
