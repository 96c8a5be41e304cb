//! What is asked of the store, and what it answers.
use model::Life;
use nsf_core::{BuildReply, CleanReply, Ticket};
use records::{Body, Error, Key, Rid, Row, Txn};
use std::alloc::Allocator;

/// A request.
#[derive(Clone, Copy, Debug, PartialEq, Eq)]
pub enum Event {
    /// Begins a transaction.
    Begin,
    /// Inserts a row.
    Insert {
        txn: Txn,
        key: Key,
        body: Body,
    },
    /// Deletes the row at a place.
    Delete {
        txn: Txn,
        rid: Rid,
    },
    /// Puts another row in place of the row at a place.
    Update {
        txn: Txn,
        rid: Rid,
        key: Key,
        body: Body,
    },
    /// Makes the next step that a transaction owes of its newest change. Without an index a change is one step, and
    /// none is owed.
    Step {
        txn: Txn,
    },
    /// Makes a step of taking a transaction's newest change back. From the first such request on the transaction is
    /// rolling back.
    Undo {
        txn: Txn,
    },
    /// Ends a transaction that has no change left.
    End {
        txn: Txn,
    },
    /// Commits a transaction.
    Commit {
        txn: Txn,
    },
    /// Creates the index, which is then to be built.
    Create,
    /// Drops the index, be it complete or not.
    Drop,
    /// Makes a step of the builder.
    Build,
    /// Makes a step of the cleaner.
    Clean,
    /// Hands the records made to the writer, which writes one group of them.
    Flush,
    /// Hands the records made to the writer, and takes one step of an image of the store: its start, the rows of a
    /// page, some entries, or the flip that makes it current. Or it gives the image up, and at the next request takes a
    /// whole one and makes it current.
    Copy,
    /// Asks for the row at a place.
    Get {
        rid: Rid,
    },
    /// Asks for the places of the rows with a key, by the complete index.
    Find {
        key: Key,
    },
    /// Asks how far the index is.
    Life,
}

/// The answer to a request.
#[derive(Debug, Drop, PartialEq, Eq)]
pub enum Reply<A: Allocator> {
    /// The number of the new transaction.
    Txn(Txn),
    /// Where the row is put.
    Rid(Rid),
    /// A step of a change was made.
    Stepped,
    /// A step of taking a change back was made.
    Undone,
    /// No change was left to take back.
    Empty,
    /// The transaction is over, and nothing of it was committed.
    Ended,
    /// The record of the commit, of the creation, or of the dropping.
    Ticket(Ticket),
    /// What the builder did.
    Built(BuildReply),
    /// What the cleaner did.
    Cleaned(CleanReply),
    /// All records up to this number are synced.
    Horizon(u64),
    /// Every slot of the log is open, and a record waits.
    LogFull,
    /// A piece of an image was taken.
    Copied,
    /// The image is current, and all records up to this number are synced.
    Flipped(u64),
    /// The image was given up. The next copy takes a whole one and makes it current.
    Again,
    /// The row there, if any.
    Row(Option<Row>),
    /// The places of the rows with the key, ascending.
    Found(Vec<Rid, A>),
    /// How far the index is.
    Life(Life),
    /// What the request asks for isn't met: the transaction owes a step, or owes none, or is rolling back, or has a
    /// change left. Nothing was done.
    Skipped,
    /// Nothing was done; but a flush or a copy may have handed records on, a copy may have written groups, and where
    /// either meets `DeviceFailed`, what it was writing may be there or not.
    Refused(Error),
}
