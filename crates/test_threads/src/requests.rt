// What a seat is asked, and what it answers.
use crate::calls::Calls;
use nsf_core::Ticket;
use records::{Body, Error, Key, Rid, Txn};
use shared::Change;
use std::alloc::Global;
use test_memory::Refusing;

/// A change of the row that was inserted last, or the insertion of one.
#[derive(Clone, Copy)]
pub(crate) enum Kind {
    Insert(&'static [u8]),
    Update(&'static [u8]),
    Delete,
}

/// A request: a change of the transaction that began last, or one that is a transaction of its own.
#[derive(Clone, Copy)]
pub(crate) enum Request {
    Create,
    Drop,
    Begin,
    Change(Kind),
    Abort,
    Commit,
    AtOnce(Kind),
}

/// What a seat answers: the number of a record and that of a commit, the number of a transaction, or the slot of a row
/// on the first page.
#[derive(Clone, Copy, PartialEq)]
pub(crate) enum Answer {
    Written(u64, Option<u64>),
    Begun(u64),
    Changed(u16),
    Ended,
}

/// The transaction that began last, and the place of the row that was inserted last.
#[derive(Clone, Copy)]
pub(crate) struct Last {
    txn: Option<Txn>,
    rid: Option<Rid>,
}

impl Last {
    /// None yet.
    pub(crate) fn none() -> Last {
        Last {
            txn: None,
            rid: None,
        }
    }

    // The transaction, if there is one.
    fn begun(&self) -> Result<Txn, Error> {
        self.txn.ok_or(Error::NoSuchTxn)
    }

    // The place, if there is one.
    fn inserted(&self) -> Result<Rid, Error> {
        self.rid.ok_or(Error::NoSuchRow)
    }
}

// A record that was made, as an answer.
fn written(made: Result<Ticket, Error>) -> Result<Answer, Error> {
    match made {
        Ok(ticket) => Ok(Answer::Written(ticket.record.get(), ticket.commit)),
        Err(error) => Err(error),
    }
}

// The place of a row, as an answer, which is to be on the first page.
fn changed(rid: Rid) -> Result<Answer, Error> {
    if rid.page == 0 {
        Ok(Answer::Changed(rid.slot))
    } else {
        Err(Error::NoSuchRow)
    }
}

// Begins a transaction.
fn begin<C: Calls>(seat: &mut C, last: &mut Last) -> Result<Answer, Error> {
    let txn = seat.begin()?;
    last.txn = Some(txn);
    Ok(Answer::Begun(txn.number()))
}

// Takes the transaction back that began last.
fn abort<C: Calls>(seat: &mut C, last: &Last) -> Result<Answer, Error> {
    let txn = last.begun()?;
    seat.abort(txn)?;
    Ok(Answer::Ended)
}

// Commits it.
fn commit<C: Calls>(seat: &mut C, last: &Last) -> Result<Answer, Error> {
    let txn = last.begun()?;
    written(seat.commit(txn))
}

// The place of a change that was begun. One that found no memory for a later step is carried on, where an allocation
// was refused since so many were. A want where none was refused is told as another refusal.
fn carried<C: Calls>(
    seat: &mut C,
    is_refused: bool,
    txn: Txn,
    change: Change,
) -> Result<Answer, Error> {
    match change.rest {
        None => changed(change.rid),
        Some(Error::NoMemory) if is_refused => {
            seat.carry_on(txn)?;
            changed(change.rid)
        }
        Some(Error::NoMemory) => Err(Error::Stopped),
        Some(error) => Err(error),
    }
}

// A change in a transaction.
fn make_change<C: Calls>(
    seat: &mut C,
    txn: Txn,
    rid: Result<Rid, Error>,
    kind: Kind,
) -> Result<Change, Error> {
    let body = Body::new(b"body")?;
    match kind {
        Kind::Insert(key) => seat.insert(txn, Key::new(key)?, body),
        Kind::Update(key) => seat.update(txn, rid?, Key::new(key)?, body),
        Kind::Delete => seat.delete(txn, rid?),
    }
}

// A change in the transaction that began last, with all its steps.
fn change<C: Calls>(
    seat: &mut C,
    memory: &Refusing<Global>,
    last: &mut Last,
    kind: Kind,
) -> Result<Answer, Error> {
    let refused = memory.refused();
    let txn = last.begun()?;
    let change = make_change(seat, txn, last.inserted(), kind)?;
    last.rid = Some(change.rid);
    carried(seat, memory.refused() != refused, txn, change)
}

// A change that is a transaction of its own, in one hold of the lock. How many records it makes depends on what was
// refused.
fn change_at_once<C: Calls>(seat: &mut C, last: &mut Last, kind: Kind) -> Result<Answer, Error> {
    let body = Body::new(b"body")?;
    match kind {
        Kind::Insert(key) => {
            let rid = seat.put_at_once(Key::new(key)?, body)?.rid;
            last.rid = Some(rid);
            changed(rid)
        }
        Kind::Update(key) => {
            seat.replace_at_once(last.inserted()?, Key::new(key)?, body)?;
            Ok(Answer::Ended)
        }
        Kind::Delete => {
            seat.remove_at_once(last.inserted()?)?;
            Ok(Answer::Ended)
        }
    }
}

// One request, once.
fn ask<C: Calls>(
    seat: &mut C,
    memory: &Refusing<Global>,
    last: &mut Last,
    request: Request,
) -> Result<Answer, Error> {
    match request {
        Request::Create => written(seat.create_index()),
        Request::Drop => written(seat.drop_index()),
        Request::Begin => begin(seat, last),
        Request::Change(kind) => change(seat, memory, last, kind),
        Request::Abort => abort(seat, last),
        Request::Commit => commit(seat, last),
        Request::AtOnce(kind) => change_at_once(seat, last, kind),
    }
}

/// What a seat answers to a request, which is made once more where it wants memory and an allocation was refused.
pub(crate) fn ask_again<C: Calls>(
    seat: &mut C,
    memory: &Refusing<Global>,
    last: &mut Last,
    request: Request,
) -> Result<Answer, Error> {
    let refused = memory.refused();
    match ask(seat, memory, last, request) {
        Err(Error::NoMemory) if memory.refused() != refused => { ask(seat, memory, last, request) }
        answered => answered,
    }
}
