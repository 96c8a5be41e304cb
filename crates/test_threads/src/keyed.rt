//! The calls of a seat, with keys of two numbers.
use crate::calls::{Calls, put};
use nsf_core::Ticket;
use program_demonstration::key_of;
use records::{Body, Error, Rid, Txn};

// The rows of each of the two commits that are made at first.
const ROWS_OF_COMMIT: u16 = 50;

/// The first half of their keys, which no writer's key has.
pub const ROWS: u16 = 0xffff;

/// Inserts a row with the key of these two numbers, and an empty body.
pub fn insert<C: Calls>(seat: &mut C, txn: Txn, first: u16, second: u16) -> Result<Rid, Error> {
    put(seat, txn, key_of(first, second)?, Body::new(b"")?)
}

/// Whether the row at the place has the key of these two numbers.
pub fn reads<C: Calls>(seat: &mut C, rid: Rid, first: u16, second: u16) -> Result<bool, Error> {
    let key = key_of(first, second)?;
    match seat.get(rid) {
        Some(row) => Ok(row.key == key),
        None => Ok(false),
    }
}

// Inserts so many rows, from this number on, in one transaction.
fn put_rows<C: Calls>(seat: &mut C, from: u16) -> Result<(), Error> {
    let txn = seat.begin()?;
    for row in 0..ROWS_OF_COMMIT {
        insert(seat, txn, ROWS, from.saturating_add(row))?;
    }
    seat.commit(txn)?;
    Ok(())
}

/// Inserts a hundred rows in two commits, and then creates the index.
pub fn set_up<C: Calls>(seat: &mut C) -> Result<Ticket, Error> {
    put_rows(seat, 0)?;
    put_rows(seat, ROWS_OF_COMMIT)?;
    seat.create_index()
}

/// Drops the index, and creates another one.
pub fn make_anew<C: Calls>(seat: &mut C) -> Result<(), Error> {
    seat.drop_index()?;
    seat.create_index()?;
    Ok(())
}
