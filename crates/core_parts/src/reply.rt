//! What calls answer.

use crate::parts::Ticket;
use records::Pair;

/// The step that a transaction owes.
#[derive(Clone, Copy, Debug, PartialEq, Eq)]
pub enum Owed {
    /// The row is to be set.
    RowSet,
    /// The entry of the new row is to be put.
    KeyPut,
}

/// What a step of an undo did.
#[derive(Clone, Copy, Debug, PartialEq, Eq)]
pub enum Undone {
    /// It took back a part of the newest change, or the last of it.
    Step,
    /// No change was left to take back.
    Empty,
}

/// What a step of the builder did.
#[derive(Clone, Copy, Debug, PartialEq, Eq)]
pub enum BuildReply {
    /// It took the pairs of this page's rows.
    Scanned(u32),
    /// The pair had no entry, and has a live one now.
    Placed(Pair),
    /// The pair had an entry, live or marked, which stays as it was.
    Rejected(Pair),
    /// It made a checkpoint of the pair attempted last.
    Marked(Pair, Ticket),
    /// It completed the index.
    Done(Ticket),
    /// The index was complete before.
    Idle,
}

/// What a step of the cleaner did.
#[derive(Clone, Copy, Debug, PartialEq, Eq)]
pub enum CleanReply {
    /// It took the marked entry of this pair out.
    Cleaned(Pair),
    /// It left the entry of this pair.
    Kept(Pair),
    /// It was at the end, and begins anew.
    Wrapped,
}
