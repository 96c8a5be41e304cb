//! The core with its index: transactions, the index's builder and its cleaner, in memory. Each
//! accepted step makes at most one record of the log.
//!
//! Proved of each call: its reply is one that `core_model` allows, its step the abstract core's, and its record waits
//! behind the others (`Serves`). So it stands for the state after the step, whichever it stood for (`each_answer`). A
//! refusal leaves the value as it was (`refused_calls`); `skipped_events` says what is to be skipped. `take_outbox`
//! hands records on in order (`handed`, `most`). `can_open` is true just where a core may begin with what this one
//! holds (`opened_of`). `detach_index` drops the index and answers its entries (`taken`). `page_slots`, `run_above` and
//! `below` read a page's rows, some entries at once, and the last one before a pair. `counts` answers how many rows,
//! entries and marked entries there are, by a look at numbers. `pass_live` moves the cleaner's place over live entries,
//! as steps that keep them would (`PassesLive`). Only tested (`test_stores`, `test_replay_rows`): that calls succeed
//! where there is memory, and worked examples. Neither: when memory is freed.
//!
//! Lemmas about its public words that crates above may cite, in `proofs`: `Offered`.
#![tactic(auto)]

mod counts;
mod laws;
mod opening;
mod store;

pub use btree_node::Cleared;
pub use core_parts::{BuildReply, CleanReply, Detached, Owed, Ticket, Undone};
pub use counts::Counts;
pub use laws::{each_answer, each_change, refused_calls, skipped_events};
pub use store::Core;
