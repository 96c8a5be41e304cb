//! The calls of a seat that want a transaction which is ready, each with that test before it.
ghost use Rattle.std.specs.Prelude.{◌≡◌, Err, IfOk, IfSome, None, OnErr, OnOk, Some, false, true};
ghost use Rattle.record_values.specs.declared.error.Error.TheVariants.{NoSuchTxn};
ghost use Rattle.core_model.specs.Events.{Event, Refused, Reply};
ghost use Rattle.core_parts.specs.Replies.{reply_by, reply_of_ticket};
ghost use Rattle.threads_sessions.specs.Steps.{committed};
ghost use Rattle.threads_sessions.specs.Values.{is_ready};
ghost use Rattle.shared.specs.Changed.{HasChanged, row_of};
ghost use Rattle.shared.specs.Served.{WasChanged, WasServedTo};

use crate::changes::Change;
use crate::seat::Seat;
use crate::shared::Shared;
use locked_core::{Group, Memory};
use nsf_core::Ticket;
use records::{Body, Error, Key, Rid, Txn};
use std::sync::Wait;
use threads_sessions::Keeping;

#[tactic(auto, using(crate::proofs::Ready::ready_active))]
impl<B: Group, A: Memory> Shared<B, A> {
    /// Inserts a row in a transaction of the seat, as `insert` does, if the transaction is ready.
    ///
    /// `NoSuchTxn` where it isn't: where it is none of the seat's, has a change to finish, or is rolling back. Nothing
    /// is done then. Else the refusals of the core's `start_insert`.
    pub fn insert_if_ready<R: Wait, K: Keeping>(
        &self,
        rt: &R,
        seat: &mut Seat<B, A, K>,
        txn: Txn,
        key: Key,
        body: Body,
    ) -> Result<Change, Error>
        ensures unready { is_ready seat.old.session txn ≡ false → result ≡ Err NoSuchTxn }
        ensures served { is_ready seat.old.session txn ≡ true
            → ∥ WasServedTo B.site.opened seat.old.number seat.old.session
            (Event.Insert txn (record { key = key; body = body }))
            (reply_by (λ change. Reply.Rid change.rid) result) ∥₁ }
        ensures changed { IfOk result (λ change. HasChanged seat.old.session txn
            (record { rid = change.rid; row = Some (record { key = key; body = body }) }) change.rest
            seat.new.session) }
        ensures row { IfOk result (λ change. row_of seat.new.session txn change.rid
            ≡ Some (Some (record { key = key; body = body }))) }
        ensures rest { IfOk result (λ change. IfSome change.rest (λ e.
            ∥ WasServedTo B.site.opened seat.new.number seat.new.session (Event.Step txn) (Refused e) ∥₁)) }
        ensures refused { OnErr result (seat.new ≡ seat.old) }
        ensures seat { seat.new ≡ record seat.old { session = seat.new.session } }
    {
        if !seat.ready(txn) {
            return Err(Error::NoSuchTxn);
        }
        self.insert(rt, seat, txn, key, body)
    }

    /// Deletes a row in a transaction of the seat, as `delete` does, if the transaction is ready.
    ///
    /// `NoSuchTxn` where it isn't, as in `insert_if_ready`, and else the refusals of the core's `start_delete`.
    pub fn delete_if_ready<R: Wait, K: Keeping>(
        &self,
        rt: &R,
        seat: &mut Seat<B, A, K>,
        txn: Txn,
        rid: Rid,
    ) -> Result<Change, Error>
        ensures unready { is_ready seat.old.session txn ≡ false → result ≡ Err NoSuchTxn }
        ensures served { is_ready seat.old.session txn ≡ true
            → ∥ WasServedTo B.site.opened seat.old.number seat.old.session (Event.Delete txn rid)
            (reply_by (λ _. Reply.Stepped) result) ∥₁ }
        ensures place { IfOk result (λ change. change.rid ≡ rid) }
        ensures changed { IfOk result (λ change. HasChanged seat.old.session txn
            (record { rid = rid; row = None }) change.rest seat.new.session) }
        ensures row { OnOk result ∥ WasChanged B.site.opened seat.old.number seat.old.session (Event.Delete txn rid) txn
            (record { rid = rid; row = None }) seat.new.session ∥₁ }
        ensures rest { IfOk result (λ change. IfSome change.rest (λ e.
            ∥ WasServedTo B.site.opened seat.new.number seat.new.session (Event.Step txn) (Refused e) ∥₁)) }
        ensures refused { OnErr result (seat.new ≡ seat.old) }
        ensures seat { seat.new ≡ record seat.old { session = seat.new.session } }
    {
        if !seat.ready(txn) {
            return Err(Error::NoSuchTxn);
        }
        self.delete(rt, seat, txn, rid)
    }

    /// Puts another row in place of a row, in a transaction of the seat, as `update` does, if the transaction is ready.
    ///
    /// `NoSuchTxn` where it isn't, as in `insert_if_ready`, and else the refusals of the core's `start_update`.
    pub fn update_if_ready<R: Wait, K: Keeping>(
        &self,
        rt: &R,
        seat: &mut Seat<B, A, K>,
        txn: Txn,
        rid: Rid,
        key: Key,
        body: Body,
    ) -> Result<Change, Error>
        ensures unready { is_ready seat.old.session txn ≡ false → result ≡ Err NoSuchTxn }
        ensures served { is_ready seat.old.session txn ≡ true
            → ∥ WasServedTo B.site.opened seat.old.number seat.old.session
            (Event.Update txn rid (record { key = key; body = body })) (reply_by (λ _. Reply.Stepped) result) ∥₁ }
        ensures place { IfOk result (λ change. change.rid ≡ rid) }
        ensures changed { IfOk result (λ change. HasChanged seat.old.session txn
            (record { rid = rid; row = Some (record { key = key; body = body }) }) change.rest seat.new.session) }
        ensures row { OnOk result ∥ WasChanged B.site.opened seat.old.number seat.old.session
            (Event.Update txn rid (record { key = key; body = body })) txn
            (record { rid = rid; row = Some (record { key = key; body = body }) }) seat.new.session ∥₁ }
        ensures rest { IfOk result (λ change. IfSome change.rest (λ e.
            ∥ WasServedTo B.site.opened seat.new.number seat.new.session (Event.Step txn) (Refused e) ∥₁)) }
        ensures refused { OnErr result (seat.new ≡ seat.old) }
        ensures seat { seat.new ≡ record seat.old { session = seat.new.session } }
    {
        if !seat.ready(txn) {
            return Err(Error::NoSuchTxn);
        }
        self.update(rt, seat, txn, rid, key, body)
    }

    /// Commits a transaction of the seat, as `commit` does, if the transaction is ready.
    ///
    /// `NoSuchTxn` where it isn't, as in `insert_if_ready`, and else the refusals of the core's `commit`. After a
    /// refusal the seat is as before.
    pub fn commit_if_ready<R: Wait, K: Keeping>(
        &self,
        rt: &R,
        seat: &mut Seat<B, A, K>,
        txn: Txn,
    ) -> Result<Ticket, Error>
        ensures unready { is_ready seat.old.session txn ≡ false → result ≡ Err NoSuchTxn }
        ensures served { is_ready seat.old.session txn ≡ true
            → ∥ WasServedTo B.site.opened seat.old.number seat.old.session (Event.Commit txn)
            (reply_by reply_of_ticket result) ∥₁ }
        ensures ok { IfOk result (λ ticket. seat.new ≡ record seat.old
            { session = committed seat.old.session txn ticket }) }
        ensures refused { OnErr result (seat.new ≡ seat.old) }
        ensures seat { seat.new ≡ record seat.old { session = seat.new.session } }
    {
        if !seat.ready(txn) {
            return Err(Error::NoSuchTxn);
        }
        self.commit(rt, seat, txn)
    }
}
