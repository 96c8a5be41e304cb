//! A thread that writes.
ghost use Rattle.std.specs.Prelude.{◌≡◌, IfOk, IfSome, OnErr};
ghost use Rattle.program_team.specs.Private.{Adds, Commits, GoesOn, HasMade, KeepsCommits, Tells};

use crate::listener::{Listener, Turn};
use crate::rows::{abort, begin, commit, delete, insert};
use crate::waiting::Waiting;
use nsf_core::Ticket;
use records::{Error, RecordNumber, Rid, Txn};
use shared::{Ack, Group, Kept, Seat, Shared};
use std::alloc::Global;
use std::sync::Wait;

/// A row that a writer put, by the writer's number and that of its transaction, and the commit, which was acknowledged:
/// its record, and its number, as its ticket has them.
#[derive(Clone, Copy)]
pub struct Acknowledged {
    pub writer: u16,
    pub change: u16,
    pub record: RecordNumber,
    pub commit: Option<u64>,
}

/// A writer: its seat and its number, what it was told to be safe, and why it ended early, if so.
#[derive(Drop)]
pub(crate) struct Writer<B: Group> {
    pub(crate) seat: Seat<B, Global, Kept>,
    pub(crate) number: u16,
    pub(crate) acks: Vec<Ack<B>>,
    pub(crate) acknowledged: Vec<Acknowledged>,
    pub(crate) refused: Option<Error>,
}

// Deletes the row at a place, if there is a place.
fn delete_row<B: Group, R: Wait>(
    rt: &R,
    shared: &Shared<B>,
    seat: &mut Seat<B, Global, Kept>,
    txn: Txn,
    place: Option<Rid>,
) -> Result<(), Error>
    ensures { KeepsCommits seat.old seat.new }
{
    match place {
        Some(rid) => delete(rt, shared, seat, txn, rid),
        None => Ok(()),
    }
}

// Commits a transaction, and waits until that is safe.
fn commit_safely<B: Group, R: Wait, W: Waiting<B>>(
    rt: &R,
    shared: &Shared<B>,
    desk: &W,
    seat: &mut Seat<B, Global, Kept>,
    txn: Txn,
) -> Result<(Ticket, Ack<B>), Error>
    ensures ok { IfOk result (λ r. Commits seat.old seat.new r.0 × (r.1.ticket ≡ r.0)) }
    ensures err { OnErr result (Adds seat.old seat.new) }
{
    let ticket = commit(rt, shared, seat, txn)?;
    let waited = &ticket;
    let ack = desk.await_ack(rt, shared, seat, *waited)?;
    Ok((ticket, ack))
}

// Begins a transaction, and deletes the row before its own, if that is to be deleted.
fn begin_without<B: Group, R: Wait>(
    rt: &R,
    shared: &Shared<B>,
    seat: &mut Seat<B, Global, Kept>,
    place: Option<Rid>,
) -> Result<Txn, Error>
    ensures { KeepsCommits seat.old seat.new }
{
    let txn = begin(rt, shared, seat)?;
    delete_row(rt, shared, seat, txn, place)?;
    Ok(txn)
}

// What a transaction leaves: the place of its row, and its ticket and acknowledgement, if it was committed.
type Changed<B> = (Rid, Option<(Ticket, Ack<B>)>);

// The place of the row that the transaction of this number deletes: in each third of four, that of the row before.
fn deleted_by(number: u16, before: Option<Rid>) -> Option<Rid> {
    if number % 4 == 2 { before } else { None }
}

// One transaction: the deletion of the row at the place, if there is one, and an insertion. Each fourth is taken back,
// and the others are committed.
fn change<B: Group, R: Wait, W: Waiting<B>>(
    rt: &R,
    shared: &Shared<B>,
    desk: &W,
    seat: &mut Seat<B, Global, Kept>,
    writer: u16,
    number: u16,
    place: Option<Rid>,
) -> Result<Changed<B>, Error>
    ensures adds { Adds seat.old seat.new }
    ensures made { IfOk result (λ r. IfSome r.1 (λ a. HasMade seat.new a.0 × (a.1.ticket ≡ a.0))) }
{
    let txn = begin_without(rt, shared, seat, place)?;
    let rid = insert(rt, shared, seat, txn, writer, number)?;
    if number % 4 == 3 {
        abort(rt, shared, seat, txn)?;
        return Ok((rid, None));
    }
    let told = commit_safely(rt, shared, desk, seat, txn)?;
    Ok((rid, Some(told)))
}

// Notes an acknowledgement, if there is one, and what it is of, and tells the listener.
fn note<B: Group, L: Listener>(
    writer: &mut Writer<B>,
    listener: &L,
    turn: Turn,
    told: Option<(Ticket, Ack<B>)>,
) -> Result<(), Error>
    requires { IfSome told (λ a. HasMade writer.old.seat a.0 × (a.1.ticket ≡ a.0)) }
    ensures seat { writer.new.seat ≡ writer.old.seat }
    ensures tells { Tells writer.old.seat writer.old.acks.items writer.old.acknowledged.items
        → Tells writer.new.seat writer.new.acks.items writer.new.acknowledged.items }
{
    let Some((ticket, ack)) = told else {
        return Ok(());
    };
    listener.hear(ticket.record.get(), &turn);
    let made = Acknowledged {
        writer: writer.number,
        change: turn.change,
        record: ticket.record,
        commit: ticket.commit,
    };
    writer.acks.push(ack)?;
    writer.acknowledged.push(made)?;
    Ok(())
}

// What a transaction did.
fn turn_of(writer: u16, change: u16, rid: &Rid, deleted: &Option<Rid>) -> Turn {
    Turn {
        writer,
        change,
        rid: *rid,
        deleted: *deleted,
    }
}

// The transactions of a writer, in order.
fn change_all<B: Group, R: Wait, W: Waiting<B>, L: Listener>(
    rt: &R,
    shared: &Shared<B>,
    desk: &W,
    writer: &mut Writer<B>,
    changes: u16,
    listener: &L,
) -> Result<(), Error>
    ensures number { writer.new.seat.number ≡ writer.old.seat.number }
    ensures tells { Tells writer.old.seat writer.old.acks.items writer.old.acknowledged.items
        → Tells writer.new.seat writer.new.acks.items writer.new.acknowledged.items }
{
    let mut before = None;
    for number in 0..changes {
        let deleted = deleted_by(number, before);
        let (rid, told) = change(
            rt,
            shared,
            desk,
            &mut writer.seat,
            writer.number,
            number,
            deleted,
        )?;
        let turn = turn_of(writer.number, number, &rid, &deleted);
        before = Some(rid);
        note(writer, listener, turn, told)?;
    }
    Ok(())
}

/// Makes so many transactions, each with a key of this writer and of its own number, waits until each commit is safe,
/// and tells the listener of it.
pub(crate) fn write<B: Group, R: Wait, W: Waiting<B>, L: Listener>(
    rt: &R,
    shared: &Shared<B>,
    desk: &W,
    writer: &mut Writer<B>,
    changes: u16,
    listener: &L,
)
    ensures { GoesOn writer.old.seat writer.old.acks.items writer.old.acknowledged.items writer.new.seat
        writer.new.acks.items writer.new.acknowledged.items }
{
    writer.refused = change_all(rt, shared, desk, writer, changes, listener).err();
}
