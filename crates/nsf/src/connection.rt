//! What a client works with beside its seat, and how it waits for its commits.
//!
//! Proved: `wait` answers as `Shared::await_ack` does, and `commit` and `put` tell apart what was refused and what is
//! committed but not known to be safe (`refused`). What they make of the seat's session is what the calls of `Shared`
//! make of it. Neither: that a call returns, and that a seat writes what it waits for.
ghost use Rattle.std.specs.Prelude.{◌≡◌, ◌≤◌, Err, IfErr, IfOk, IfSome, None, false, true};
ghost use Rattle.record_values.specs.declared.error.Error.TheVariants.{NoSuchTxn};
ghost use Rattle.core_model.specs.Events.{Event};
ghost use Rattle.core_parts.specs.Replies.{reply_by, reply_of_ticket};
ghost use Rattle.threads_sessions.specs.Values.{is_ready};
ghost use Rattle.shared.specs.AtOnce.{IsLeft, WasLeft, WasRefused};
ghost use Rattle.shared.specs.Served.{WasServedTo};
ghost use Rattle.shared.specs.Waits.{IsAcked, IsNotAcked};
ghost use Rattle.nsf.specs.Connected.{IfNotPut, IfNotSafe, IsNotCommitted, IsSafelyPut, IsUnsafelyPut, ticket_of};
ghost use Rattle.nsf.specs.Connected.{with_commit_of};
ghost use Rattle.nsf.specs.declared.connection.CommitError.TheVariants.{NotCommitted};

use nsf_core::Ticket;
use records::{Body, Error, Key, Rid, Txn};
use sector_device::Device;
use shared::{Ack, Group, Placed, Refusal, Seat, Shared};
use std::alloc::Global;
use std::sync::Wait;
use threads_leader::{BuilderEnd, Course, Desk};

/// How a seat waits until its commit is safe, and what it does meanwhile.
pub trait Waiting<B: Group> {
    /// Waits until the record of the ticket is safe on the device, as `Shared::await_ack` does, with the same answers.
    fn await_ack<R: Wait>(
        &self,
        rt: &R,
        shared: &Shared<B>,
        seat: &mut Seat<B>,
        ticket: Ticket,
    ) -> Result<Ack<B>, Error>
        ensures acked { IfOk result (λ ack. IsAcked ticket seat.old seat.new ack) }
        ensures refused { IfErr result (λ e. IsNotAcked ticket seat.old seat.new e) }
        ensures seat { seat.new ≡ record seat.old { sight = seat.new.sight } }
        ensures rises { seat.old.sight.horizon ≤ seat.new.sight.horizon };
}

/// The seat writes what it waits for, where nobody else does.
impl<K: Course<D, Global>, B: Group, D: Device> Waiting<B> for Desk<K, B, D> {
    fn await_ack<R: Wait>(
        &self,
        rt: &R,
        shared: &Shared<B>,
        seat: &mut Seat<B>,
        ticket: Ticket,
    ) -> Result<Ack<B>, Error>
        ensures acked { IfOk result (λ ack. IsAcked ticket seat.old seat.new ack) }
        ensures refused { IfErr result (λ e. IsNotAcked ticket seat.old seat.new e) }
        ensures seat { seat.new ≡ record seat.old { sight = seat.new.sight } }
        ensures rises { seat.old.sight.horizon ≤ seat.new.sight.horizon }
    {
        Desk::await_ack(self, rt, shared, seat, ticket)
    }
}

/// Why a transaction isn't known to be safe on the device.
#[derive(Clone, Copy, Debug, Drop)]
pub enum CommitError {
    /// Its commit was refused, and it is as before.
    NotCommitted(Error),
    /// It is committed, with this ticket. The wait ended before its record was safe; it may be lost.
    NotSafe { ticket: Ticket, error: Error },
}

impl From<CommitError> for Error {
    ghost use Rattle.nsf.specs.Connected.{commit_reason};

    ghost from_gives = { λ refused error. error ≡ commit_reason refused };

    fn from(refused: CommitError) -> Error {
        match refused {
            CommitError::NotCommitted(error) => error,
            CommitError::NotSafe { ticket: _, error } => error,
        }
    }
}

/// Why a row isn't known to be safe on the device.
#[derive(Clone, Copy, Debug, Drop)]
pub enum PutError {
    /// Its transaction was refused.
    NotPut(Refusal),
    /// It was put, in a transaction that is committed. The wait ended before its record was safe; it may be lost.
    RowNotSafe { placed: Placed, error: Error },
}

impl From<PutError> for Error {
    ghost use Rattle.nsf.specs.Connected.{put_reason};

    ghost from_gives = { λ refused error. error ≡ put_reason refused };

    fn from(refused: PutError) -> Error {
        match refused {
            PutError::NotPut(refusal) => refusal.error,
            PutError::RowNotSafe { placed: _, error } => error,
        }
    }
}

/// What a client works with beside its seat: the runtime, what is shared, where a seat waits for its commits, and the
/// builder's end. All calls of a seat but those below are those of `shared`, with `rt`. (That `serve_led` lends where
/// the seat waits, and the builder's end, of its own run, no clause says.)
#[derive(Drop)]
pub struct Connection<'a, B: Group, R, W> {
    pub rt: &'a R,
    pub shared: &'a Shared<B>,
    pub desk: &'a W,
    pub builder: &'a BuilderEnd<B>,
}

impl<B: Group, R: Wait, W: Waiting<B>> Connection<'_, B, R, W> {
    /// Waits until the record of the ticket is safe on the device, as `Shared::await_ack` does, with the same answers.
    pub fn wait(&self, seat: &mut Seat<B>, ticket: Ticket) -> Result<Ack<B>, Error>
        ensures acked { IfOk result (λ ack. IsAcked ticket seat.old seat.new ack) }
        ensures refused { IfErr result (λ e. IsNotAcked ticket seat.old seat.new e) }
        ensures seat { seat.new ≡ record seat.old { sight = seat.new.sight } }
        ensures rises { seat.old.sight.horizon ≤ seat.new.sight.horizon }
    {
        self.desk.await_ack(self.rt, self.shared, seat, ticket)
    }

    /// Commits a transaction of the seat, as `Shared::commit_if_ready` does, and waits until it is safe on the device.
    pub fn commit(&self, seat: &mut Seat<B>, txn: Txn) -> Result<Ack<B>, CommitError>
        ensures unready { is_ready seat.old.session txn ≡ false → result ≡ Err (NotCommitted NoSuchTxn) }
        ensures served { is_ready seat.old.session txn ≡ true
            → ∥ WasServedTo B.site.opened seat.old.number seat.old.session (Event.Commit txn)
            (reply_by reply_of_ticket (ticket_of result)) ∥₁ }
        ensures acked { IfOk result (λ ack. IsAcked ack.ticket (with_commit_of seat.old txn ack.ticket) seat.new ack) }
        ensures refused { IfErr result (IsNotCommitted seat.old txn seat.new) }
        ensures seat { seat.new ≡ record seat.old { session = seat.new.session; sight = seat.new.sight } }
        ensures rises { seat.old.sight.horizon ≤ seat.new.sight.horizon }
    {
        match self.shared.commit_if_ready(self.rt, seat, txn) {
            Ok(ticket) => {
                let waited = &ticket;
                match self.wait(seat, *waited) {
                    Ok(ack) => Ok(ack),
                    Err(error) => Err(CommitError::NotSafe { ticket, error }),
                }
            }
            Err(error) => Err(CommitError::NotCommitted(error)),
        }
    }

    /// Inserts a row in a transaction of its own, as `Shared::put` does, and waits until it is safe on the device.
    /// Answers its place.
    pub fn put(&self, seat: &mut Seat<B>, key: Key, body: Body) -> Result<Rid, PutError>
        ensures put { IfOk result (λ rid. IsSafelyPut B.site.opened seat.old (record { key = key; body = body }) rid
            seat.new) }
        ensures refused { IfErr result (IfNotPut (λ r. ∥ WasRefused B.site.opened seat.old.number seat.old.session
            (λ txn. Event.Insert txn (record { key = key; body = body })) r.error ∥₁)) }
        ensures nothing_stays { IfErr result (IfNotPut (λ r. r.left ≡ None → seat.new ≡ seat.old)) }
        ensures left { IfErr result (IfNotPut (λ r. IfSome r.left (λ txn.
            IsLeft seat.old.session txn seat.new.session))) }
        ensures why_left { IfErr result (IfNotPut (λ r. IfSome r.left (λ txn. ∥ WasLeft B.site.opened seat.old.number
            seat.old.session (λ txn. Event.Insert txn (record { key = key; body = body })) r.error txn ∥₁))) }
        ensures not_safe { IfErr result (IfNotSafe (IsUnsafelyPut B.site.opened seat.old
            (record { key = key; body = body }) seat.new)) }
        ensures seat { seat.new ≡ record seat.old { session = seat.new.session; sight = seat.new.sight } }
        ensures rises { seat.old.sight.horizon ≤ seat.new.sight.horizon }
    {
        match self.shared.put(self.rt, seat, key, body) {
            Ok(placed) => {
                let made = &placed;
                match self.wait(seat, made.ticket) {
                    Ok(_) => Ok(made.rid),
                    Err(error) => Err(PutError::RowNotSafe { placed, error }),
                }
            }
            Err(refusal) => Err(PutError::NotPut(refusal)),
        }
    }
}
