//! A session: what one seat knows of its own transactions, kept as the steps of the core are made for it; and its two
//! halves, one with the seat, one with what many seats share under a lock.
//!
//! A seat is one of the parties that work on a core in turn. Its session has the commits that it made, what it did
//! to the index, and its active transactions, each with the places that it holds, the row that is there now, a change
//! that isn't finished, and whether it is rolling back. Each call makes a step of the core and the session's change
//! together, or neither. A transaction that the seat did not begin is unknown to it.
//!
//! Contracts alone tell of what a seat has done: of its commits, with their rows, and of what it did to the index
//! ([`Told`]). That wants no room, and the history refuses none for want of it (`reserve`). That `commit` doesn't, and
//! that it takes no bytes, no public clause says. Where a type says so ([`Kept`]), its commits are kept in memory, and
//! `into_commits` gives them.
//!
//! Proved: each call serves the core the event of its name, with the reply that it answers (`served`), and makes of the
//! session what the step tells (`ok`). A refusal leaves the session as it was (`unchanged`); a transaction of another
//! seat is refused and the core not asked (`foreign`). Not here, but in `threads_register`: that a session agrees with
//! the core whatever other seats do.
//!
//! A half is a token without bytes. It can't be copied, and what it shows changes only where both halves of the session
//! come together, as they do in a step under the lock: they are joined, the session is changed, and they are split.
//! Each of these reads a word that never changes, and none makes an exchange. Proved: `Registry::open` makes so many
//! empty sessions, with both halves of each (`book`, `seats`). Where two halves come together they showed the same
//! (`agree`). After `change` they show the given session, after `compare` the same as before (`mine`, `theirs`). Not
//! that `open` succeeds where there is memory.
//!
//! Lemmas about its public words that crates above may cite, in `proofs`: `Offered` (of `nsf_core`).
#![tactic(auto)]

mod active;
mod commit;
mod half;
mod history;
mod keeping;
mod knowledge;
mod rule;
mod session;
mod steps;
mod table;
mod turn;

pub use commit::Commit;
pub use half::Half;
pub use keeping::{Keeping, Kept, Told};
pub use session::Session;
pub use table::Registry;
pub use turn::Turn;
