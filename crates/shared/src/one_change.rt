//! A transaction of one change: what is asked, and what is answered.

use nsf_core::Ticket;
use records::{Body, Error, Key, Rid, Txn};

/// The change that is asked of a transaction.
#[derive(Clone, Copy, Drop)]
pub(crate) enum OneChange {
    Put { key: Key, body: Body },
    Remove { rid: Rid },
    Replace { rid: Rid, key: Key, body: Body },
}

/// A row that was put: its place, and the ticket of its transaction's commit.
#[derive(Clone, Copy, Debug, Drop)]
pub struct Placed {
    pub rid: Rid,
    pub ticket: Ticket,
}

/// Why a transaction of one change was refused. All that it had made is taken back, and it has ended. Or it is left,
/// for `abort` to take back, where a step of that, or its end, is refused too. (That it is left there alone, no clause
/// says: want of memory may refuse each of them.)
#[derive(Clone, Copy, Debug, Drop)]
pub struct Refusal {
    pub error: Error,
    pub left: Option<Txn>,
}
