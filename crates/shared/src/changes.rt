//! The calls of a seat that change a row: all steps of the change, each under the lock anew.
ghost use Rattle.std.specs.Prelude.{◌≡◌, Err, IfErr, IfOk, IfSome, None, OnErr, OnOk, Some, false, true};
ghost use Rattle.record_values.specs.declared.error.Error.TheVariants.{NoSuchTxn};
ghost use Rattle.core_model.specs.Events.{Event, Refused, Reply};
ghost use Rattle.model.specs.declared.write.Write.{Write};
ghost use Rattle.core_parts.specs.Replies.{reply_by};
ghost use Rattle.threads_sessions.specs.Values.{is_active, is_ready, is_unfinished};
ghost use Rattle.shared.specs.Changed.{HasChanged, IsUnderWay, row_of, unfinished_of};
ghost use Rattle.shared.specs.Served.{WasChanged, WasServedTo};

use crate::seat::Seat;
use crate::shared::Shared;
use locked_core::{Group, Memory};
use records::{Body, Error, Key, Rid, Txn};
use std::sync::{MutexGuard, Wait};
use threads_sessions::Keeping;

/// A change of a row that was begun: the place of the row, and where a later step was refused, why. The change is then
/// to be finished, by `carry_on`, or its transaction to be taken back, by `abort`.
#[derive(Clone, Copy, Debug, Drop)]
pub struct Change {
    pub rid: Rid,
    pub rest: Option<Error>,
}

impl<B: Group, A: Memory> Shared<B, A> {
    /// Inserts a row in a transaction of the seat.
    ///
    /// `NoSuchTxn` where the transaction isn't one of the seat's, and else the refusals of the core's `start_insert`.
    /// After one of them the seat is as before. With a change comes the refusal of a later step, if one was refused.
    /// The seat has the row then, and holds its place.
    pub fn insert<R: Wait, K: Keeping>(
        &self,
        rt: &R,
        seat: &mut Seat<B, A, K>,
        txn: Txn,
        key: Key,
        body: Body,
    ) -> Result<Change, Error>
        requires { is_active seat.old.session txn ≡ true → is_ready seat.old.session txn ≡ true }
        ensures foreign { is_active seat.old.session txn ≡ false → result ≡ Err NoSuchTxn }
        ensures served { is_active seat.old.session txn ≡ true
            → ∥ WasServedTo B.site.opened seat.old.number seat.old.session
            (Event.Insert txn (record { key = key; body = body }))
            (reply_by (λ change. Reply.Rid change.rid) result) ∥₁ }
        ensures changed { IfOk result (λ change. HasChanged seat.old.session txn
            (record { rid = change.rid; row = Some (record { key = key; body = body }) }) change.rest
            seat.new.session) }
        ensures row { IfOk result (λ change. row_of seat.new.session txn change.rid
            ≡ Some (Some (record { key = key; body = body }))) }
        ensures rest { IfOk result (λ change. IfSome change.rest (λ e.
            ∥ WasServedTo B.site.opened seat.new.number seat.new.session (Event.Step txn) (Refused e) ∥₁)) }
        ensures refused { OnErr result (seat.new ≡ seat.old) }
        ensures seat { seat.new ≡ record seat.old { session = seat.new.session } }
    {
        let rid = self.start_insert(rt, seat, txn, key, body)?;
        let rest = self.finish_change(rt, seat, txn);
        Ok(Change { rid, rest })
    }

    /// Deletes a row in a transaction of the seat.
    ///
    /// The refusals are those of `insert`, with the core's `start_delete` in place of `start_insert`. Where a later
    /// step was refused, the seat holds the place with no row, or with the one that was there (`row`).
    pub fn delete<R: Wait, K: Keeping>(
        &self,
        rt: &R,
        seat: &mut Seat<B, A, K>,
        txn: Txn,
        rid: Rid,
    ) -> Result<Change, Error>
        requires { is_active seat.old.session txn ≡ true → is_ready seat.old.session txn ≡ true }
        ensures foreign { is_active seat.old.session txn ≡ false → result ≡ Err NoSuchTxn }
        ensures served { is_active seat.old.session txn ≡ true
            → ∥ WasServedTo B.site.opened seat.old.number seat.old.session (Event.Delete txn rid)
            (reply_by (λ _. Reply.Stepped) result) ∥₁ }
        ensures place { IfOk result (λ change. change.rid ≡ rid) }
        ensures changed { IfOk result (λ change. HasChanged seat.old.session txn
            (record { rid = rid; row = None }) change.rest seat.new.session) }
        ensures row { OnOk result ∥ WasChanged B.site.opened seat.old.number seat.old.session (Event.Delete txn rid) txn
            (record { rid = rid; row = None }) seat.new.session ∥₁ }
        ensures rest { IfOk result (λ change. IfSome change.rest (λ e.
            ∥ WasServedTo B.site.opened seat.new.number seat.new.session (Event.Step txn) (Refused e) ∥₁)) }
        ensures refused { OnErr result (seat.new ≡ seat.old) }
        ensures seat { seat.new ≡ record seat.old { session = seat.new.session } }
    {
        self.start_delete(rt, seat, txn, rid)?;
        let rest = self.finish_change(rt, seat, txn);
        Ok(Change { rid, rest })
    }

    /// Puts another row in place of a row, in a transaction of the seat.
    ///
    /// The refusals are those of `insert`, with the core's `start_update` in place of `start_insert`. Where a later
    /// step was refused, the seat holds the place with the new row, or with the one that was there (`row`).
    pub fn update<R: Wait, K: Keeping>(
        &self,
        rt: &R,
        seat: &mut Seat<B, A, K>,
        txn: Txn,
        rid: Rid,
        key: Key,
        body: Body,
    ) -> Result<Change, Error>
        requires { is_active seat.old.session txn ≡ true → is_ready seat.old.session txn ≡ true }
        ensures foreign { is_active seat.old.session txn ≡ false → result ≡ Err NoSuchTxn }
        ensures served { is_active seat.old.session txn ≡ true
            → ∥ WasServedTo B.site.opened seat.old.number seat.old.session
            (Event.Update txn rid (record { key = key; body = body })) (reply_by (λ _. Reply.Stepped) result) ∥₁ }
        ensures place { IfOk result (λ change. change.rid ≡ rid) }
        ensures changed { IfOk result (λ change. HasChanged seat.old.session txn
            (record { rid = rid; row = Some (record { key = key; body = body }) }) change.rest seat.new.session) }
        ensures row { OnOk result ∥ WasChanged B.site.opened seat.old.number seat.old.session
            (Event.Update txn rid (record { key = key; body = body })) txn
            (record { rid = rid; row = Some (record { key = key; body = body }) }) seat.new.session ∥₁ }
        ensures rest { IfOk result (λ change. IfSome change.rest (λ e.
            ∥ WasServedTo B.site.opened seat.new.number seat.new.session (Event.Step txn) (Refused e) ∥₁)) }
        ensures refused { OnErr result (seat.new ≡ seat.old) }
        ensures seat { seat.new ≡ record seat.old { session = seat.new.session } }
    {
        self.start_update(rt, seat, txn, rid, key, body)?;
        let rest = self.finish_change(rt, seat, txn);
        Ok(Change { rid, rest })
    }

    /// Makes the steps that are left of the change that a transaction of the seat has not finished. Where there is
    /// none, as in one that is rolling back, nothing is done.
    ///
    /// `NoSuchTxn` where the transaction isn't one of the seat's, and else the refusals of the core's `next_step`.
    /// After one of them the change is still to be finished.
    pub fn carry_on<R: Wait, K: Keeping>(
        &self,
        rt: &R,
        seat: &mut Seat<B, A, K>,
        txn: Txn,
    ) -> Result<(), Error>
        ensures foreign { is_active seat.old.session txn ≡ false → (result ≡ Err NoSuchTxn) × (seat.new ≡ seat.old) }
        ensures none { is_active seat.old.session txn ≡ true → unfinished_of seat.old.session txn ≡ None
            → (OnErr result ⊥) × (seat.new ≡ seat.old) }
        ensures ok { OnOk result ((change : Write) → unfinished_of seat.old.session txn ≡ Some change
            → HasChanged seat.old.session txn change None seat.new.session) }
        ensures err { IfErr result (λ e. (change : Write) → unfinished_of seat.old.session txn ≡ Some change
            → HasChanged seat.old.session txn change (Some e) seat.new.session) }
        ensures served { IfErr result (λ e. is_active seat.old.session txn ≡ true
            → ∥ WasServedTo B.site.opened seat.new.number seat.new.session (Event.Step txn) (Refused e) ∥₁) }
        ensures seat { seat.new ≡ record seat.old { session = seat.new.session } }
    {
        if !seat.part.is_active(txn) {
            return Err(Error::NoSuchTxn);
        }
        match self.finish_change(rt, seat, txn) {
            Some(error) => Err(error),
            None => Ok(()),
        }
    }

    // The first step of an insertion.
    fn start_insert<R: Wait, K: Keeping>(
        &self,
        rt: &R,
        seat: &mut Seat<B, A, K>,
        txn: Txn,
        key: Key,
        body: Body,
    ) -> Result<Rid, Error>
        requires { is_active seat.old.session txn ≡ true → is_ready seat.old.session txn ≡ true }
        ensures foreign { is_active seat.old.session txn ≡ false → result ≡ Err NoSuchTxn }
        ensures served { is_active seat.old.session txn ≡ true
            → ∥ WasServedTo B.site.opened seat.old.number seat.old.session
            (Event.Insert txn (record { key = key; body = body })) (reply_by Reply.Rid result) ∥₁ }
        ensures ok { IfOk result (λ rid. IsUnderWay seat.old.session txn
            (record { rid = rid; row = Some (record { key = key; body = body }) }) seat.new.session) }
        ensures row { IfOk result (λ rid. row_of seat.new.session txn rid
            ≡ Some (Some (record { key = key; body = body }))) }
        ensures refused { OnErr result (seat.new ≡ seat.old) }
        ensures seat { seat.new ≡ record seat.old { session = seat.new.session } }
    {
        let mut locked = self.hold(rt);
        let started = locked.insert(&self.registry, &mut seat.part, txn, key, body);
        locked.push_outbox(rt, &self.queue);
        MutexGuard::unlock(locked);
        started
    }

    // The first step of a deletion.
    fn start_delete<R: Wait, K: Keeping>(
        &self,
        rt: &R,
        seat: &mut Seat<B, A, K>,
        txn: Txn,
        rid: Rid,
    ) -> Result<(), Error>
        requires { is_active seat.old.session txn ≡ true → is_ready seat.old.session txn ≡ true }
        ensures foreign { is_active seat.old.session txn ≡ false → result ≡ Err NoSuchTxn }
        ensures served { is_active seat.old.session txn ≡ true
            → ∥ WasServedTo B.site.opened seat.old.number seat.old.session (Event.Delete txn rid)
            (reply_by (λ _. Reply.Stepped) result) ∥₁ }
        ensures ok { OnOk result (IsUnderWay seat.old.session txn (record { rid = rid; row = None }) seat.new.session) }
        ensures row { OnOk result ∥ WasChanged B.site.opened seat.old.number seat.old.session (Event.Delete txn rid) txn
            (record { rid = rid; row = None }) seat.new.session ∥₁ }
        ensures refused { OnErr result (seat.new ≡ seat.old) }
        ensures seat { seat.new ≡ record seat.old { session = seat.new.session } }
    {
        let mut locked = self.hold(rt);
        let started = locked.delete(&self.registry, &mut seat.part, txn, rid);
        locked.push_outbox(rt, &self.queue);
        MutexGuard::unlock(locked);
        started
    }

    // The first step of an update.
    fn start_update<R: Wait, K: Keeping>(
        &self,
        rt: &R,
        seat: &mut Seat<B, A, K>,
        txn: Txn,
        rid: Rid,
        key: Key,
        body: Body,
    ) -> Result<(), Error>
        requires { is_active seat.old.session txn ≡ true → is_ready seat.old.session txn ≡ true }
        ensures foreign { is_active seat.old.session txn ≡ false → result ≡ Err NoSuchTxn }
        ensures served { is_active seat.old.session txn ≡ true
            → ∥ WasServedTo B.site.opened seat.old.number seat.old.session
            (Event.Update txn rid (record { key = key; body = body })) (reply_by (λ _. Reply.Stepped) result) ∥₁ }
        ensures ok { OnOk result (IsUnderWay seat.old.session txn
            (record { rid = rid; row = Some (record { key = key; body = body }) }) seat.new.session) }
        ensures row { OnOk result ∥ WasChanged B.site.opened seat.old.number seat.old.session
            (Event.Update txn rid (record { key = key; body = body })) txn
            (record { rid = rid; row = Some (record { key = key; body = body }) }) seat.new.session ∥₁ }
        ensures refused { OnErr result (seat.new ≡ seat.old) }
        ensures seat { seat.new ≡ record seat.old { session = seat.new.session } }
    {
        let mut locked = self.hold(rt);
        let started = locked.update(&self.registry, &mut seat.part, txn, rid, key, body);
        locked.push_outbox(rt, &self.queue);
        MutexGuard::unlock(locked);
        started
    }

    // One step more of a change that is to be finished.
    fn step_change<R: Wait, K: Keeping>(
        &self,
        rt: &R,
        seat: &mut Seat<B, A, K>,
        txn: Txn,
    ) -> Result<(), Error>
        requires { is_unfinished seat.old.session txn ≡ true }
        ensures served { ∥ WasServedTo B.site.opened seat.old.number seat.old.session (Event.Step txn)
            (reply_by (λ _. Reply.Stepped) result) ∥₁ }
        ensures ok { OnOk result ((change : Write) → unfinished_of seat.old.session txn ≡ Some change
            → IsUnderWay seat.old.session txn change seat.new.session) }
        ensures refused { OnErr result (seat.new ≡ seat.old) }
        ensures seat { seat.new ≡ record seat.old { session = seat.new.session } }
    {
        let mut locked = self.hold(rt);
        let stepped = locked.next_step(&self.registry, &mut seat.part, txn);
        locked.push_outbox(rt, &self.queue);
        MutexGuard::unlock(locked);
        stepped
    }

    // The steps that are left of a change, each under the lock anew, and the refusal of one, if it was refused.
    fn finish_change<R: Wait, K: Keeping>(
        &self,
        rt: &R,
        seat: &mut Seat<B, A, K>,
        txn: Txn,
    ) -> Option<Error>
        ensures none { unfinished_of seat.old.session txn ≡ None → (result ≡ None)
            × (seat.new.session ≡ seat.old.session) }
        ensures changed { (change : Write) → unfinished_of seat.old.session txn ≡ Some change
            → HasChanged seat.old.session txn change result seat.new.session }
        ensures served { IfSome result (λ e. ∥ WasServedTo B.site.opened seat.new.number seat.new.session
            (Event.Step txn) (Refused e) ∥₁) }
        ensures seat { seat.new ≡ record seat.old { session = seat.new.session } }
    {
        for _ in rt.forever() {
            if !seat.part.unfinished(txn) {
                return None;
            }
            if let Err(error) = self.step_change(rt, seat, txn) {
                return Some(error);
            }
        }
        unreachable!()
    }
}
