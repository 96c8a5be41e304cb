//! The calls of a seat.
use model::Life;
use nsf_core::Ticket;
use records::{Body, Error, Key, Rid, Row, Txn};
use shared::{Change, Placed};

/// The calls of a seat of a store that many threads have open. They promise nothing.
///
/// What plays is generic over them, so that its proofs read nothing of what a store is made of.
pub(crate) trait Calls {
    /// Begins a transaction.
    fn begin(&mut self) -> Result<Txn, Error>;

    /// Inserts a row.
    fn insert(&mut self, txn: Txn, key: Key, body: Body) -> Result<Change, Error>;

    /// Puts another row in the place of one.
    fn update(&mut self, txn: Txn, rid: Rid, key: Key, body: Body) -> Result<Change, Error>;

    /// Deletes a row.
    fn delete(&mut self, txn: Txn, rid: Rid) -> Result<Change, Error>;

    /// Makes the steps that a change still owes.
    fn carry_on(&mut self, txn: Txn) -> Result<(), Error>;

    /// Takes a transaction back.
    fn abort(&mut self, txn: Txn) -> Result<(), Error>;

    /// Commits a transaction.
    fn commit(&mut self, txn: Txn) -> Result<Ticket, Error>;

    /// Inserts a row in a transaction of its own, in one hold of the lock.
    fn put_at_once(&mut self, key: Key, body: Body) -> Result<Placed, Error>;

    /// Puts another row in the place of one, in a transaction of its own, in one hold of the lock.
    fn replace_at_once(&mut self, rid: Rid, key: Key, body: Body) -> Result<Ticket, Error>;

    /// Deletes a row in a transaction of its own, in one hold of the lock.
    fn remove_at_once(&mut self, rid: Rid) -> Result<Ticket, Error>;

    /// Waits until the record of a ticket is safe.
    fn await_ack(&mut self, ticket: Ticket) -> Result<(), Error>;

    /// Creates the index.
    fn create_index(&mut self) -> Result<Ticket, Error>;

    /// Drops the index.
    fn drop_index(&mut self) -> Result<Ticket, Error>;

    /// The row at a place.
    fn get(&mut self, rid: Rid) -> Option<Row>;

    /// The place of the row with this key, by the index; none where there is not just one.
    fn find_one(&mut self, key: Key) -> Result<Option<Rid>, Error>;

    /// How far the index is.
    fn life(&mut self) -> Life;

    /// How many entries are marked.
    fn marked(&mut self) -> usize;

    /// Whether the device has failed.
    fn has_failed(&mut self) -> bool;

    /// Whether the record of a ticket is safe.
    fn is_acked(&mut self, ticket: Ticket) -> bool;

    /// How many attempts the builder has told of.
    fn progress(&mut self) -> u64;

    /// Looks for a mark of the moment of a publication, and asks all threads to stop. Whether the transaction may begin
    /// a change or commit.
    fn ask_to_stop(&mut self, txn: Txn) -> bool;
}

// The place of a change, all of whose steps were made, or why one wasn't.
fn whole(change: Change) -> Result<Rid, Error> {
    match change.rest {
        None => Ok(change.rid),
        Some(error) => Err(error),
    }
}

/// Inserts a row with all the steps of the change.
pub(crate) fn put<C: Calls>(seat: &mut C, txn: Txn, key: Key, body: Body) -> Result<Rid, Error> {
    whole(seat.insert(txn, key, body)?)
}

/// Deletes a row with all the steps of the change.
pub(crate) fn remove<C: Calls>(seat: &mut C, txn: Txn, rid: Rid) -> Result<Rid, Error> {
    whole(seat.delete(txn, rid)?)
}
