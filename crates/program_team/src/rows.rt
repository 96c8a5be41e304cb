//! The rows that are there before the writers begin, and a seat's calls with a test before them.
ghost use Rattle.std.specs.Prelude.{◌≡◌, IfOk, OnErr};
ghost use Rattle.program_team.specs.Private.{Commits, KeepsCommits};

use nsf_core::Ticket;
use records::{Body, Error, Key, Rid, Txn};
use shared::{Group, Kept, Seat, Shared};
use std::alloc::Global;
use std::sync::Wait;

// The rows of each of the two commits.
const ROWS_OF_COMMIT: u16 = 50;

// The first half of their keys, which no writer's key has.
const ROWS_FIRST: u16 = 0xffff;

/// The key of these two numbers, of two bytes each, the higher byte first.
pub fn key_of(first: u16, second: u16) -> Result<Key, Error> {
    let [a, b] = first.to_be_bytes();
    let [c, d] = second.to_be_bytes();
    Key::new(&[a, b, c, d])
}

/// Begins a transaction.
pub(crate) fn begin<B: Group, R: Wait>(
    rt: &R,
    shared: &Shared<B>,
    seat: &mut Seat<B, Global, Kept>,
) -> Result<Txn, Error>
    ensures { KeepsCommits seat.old seat.new }
{
    shared.begin(rt, seat)
}

/// Inserts a row with the key of these two numbers, and an empty body. After a refusal of a later step the change is
/// left to finish.
pub(crate) fn insert<B: Group, R: Wait>(
    rt: &R,
    shared: &Shared<B>,
    seat: &mut Seat<B, Global, Kept>,
    txn: Txn,
    first: u16,
    second: u16,
) -> Result<Rid, Error>
    ensures { KeepsCommits seat.old seat.new }
{
    if !seat.ready(txn) {
        return Err(Error::NoSuchTxn);
    }
    let change = shared.insert(rt, seat, txn, key_of(first, second)?, Body::new(b"")?)?;
    match change.rest {
        Some(error) => Err(error),
        None => Ok(change.rid),
    }
}

/// Deletes a row, as `insert` inserts one.
pub(crate) fn delete<B: Group, R: Wait>(
    rt: &R,
    shared: &Shared<B>,
    seat: &mut Seat<B, Global, Kept>,
    txn: Txn,
    rid: Rid,
) -> Result<(), Error>
    ensures { KeepsCommits seat.old seat.new }
{
    if !seat.ready(txn) {
        return Err(Error::NoSuchTxn);
    }
    match shared.delete(rt, seat, txn, rid)?.rest {
        Some(error) => Err(error),
        None => Ok(()),
    }
}

/// Takes a transaction back.
pub(crate) fn abort<B: Group, R: Wait>(
    rt: &R,
    shared: &Shared<B>,
    seat: &mut Seat<B, Global, Kept>,
    txn: Txn,
) -> Result<(), Error>
    ensures { KeepsCommits seat.old seat.new }
{
    shared.abort(rt, seat, txn)
}

/// Commits a transaction.
pub(crate) fn commit<B: Group, R: Wait>(
    rt: &R,
    shared: &Shared<B>,
    seat: &mut Seat<B, Global, Kept>,
    txn: Txn,
) -> Result<Ticket, Error>
    ensures ok { IfOk result (Commits seat.old seat.new) }
    ensures refused { OnErr result (KeepsCommits seat.old seat.new) }
{
    if !seat.ready(txn) {
        return Err(Error::NoSuchTxn);
    }
    shared.commit(rt, seat, txn)
}

// Inserts so many rows, from this number on, in one transaction.
fn put_rows<B: Group, R: Wait>(
    rt: &R,
    shared: &Shared<B>,
    seat: &mut Seat<B, Global, Kept>,
    from: u16,
) -> Result<(), Error>
    ensures { seat.new.number ≡ seat.old.number }
{
    let txn = begin(rt, shared, seat)?;
    for row in 0..ROWS_OF_COMMIT {
        insert(rt, shared, seat, txn, ROWS_FIRST, from.saturating_add(row))?;
    }
    commit(rt, shared, seat, txn)?;
    Ok(())
}

/// Inserts a hundred rows in two commits, and then creates the index. The rows are those of the keys of 65,535 and each
/// number below 100, with empty bodies.
pub(crate) fn set_up<B: Group, R: Wait>(
    rt: &R,
    shared: &Shared<B>,
    seat: &mut Seat<B, Global, Kept>,
) -> Result<(), Error>
    ensures { seat.new.number ≡ seat.old.number }
{
    put_rows(rt, shared, seat, 0)?;
    put_rows(rt, shared, seat, ROWS_OF_COMMIT)?;
    shared.create_index(rt, seat)?;
    Ok(())
}
