//! Writers, a builder, a cleaner and a flusher side by side on the store on a device: the threads of `nsf-threads`.
//!
//! Proved of `work_on`: where it answers `Ok`, a crash leaves the opened table with the commits of some seats set over
//! it. The commit of each row that is told as acknowledged is among them (`kept`). Else it tells why nothing was
//! opened, and how the device is then, as `open_store` does (`refused`). Only tested (`test_threads`, and the run of
//! `nsf_threads`): which rows are put, and which refusals are told. Neither: that these commits are the writers' own,
//! that a listener hears of each, or that a thread was started.
#![tactic(auto)]

mod beginning;
mod listener;
mod progress;
mod refusal;
mod rows;
mod team;
mod waiting;
mod writer;

pub use beginning::Beginning;
pub use listener::{Listener, Turn};
pub use progress::Progress;
pub use refusal::NotOpened;
pub use rows::key_of;
pub use team::{Refusals, Team, Worked, work_on};
pub use writer::Acknowledged;
