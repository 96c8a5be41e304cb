//! The call of a seat that takes a transaction back.
ghost use Rattle.std.specs.Prelude.{◌≡◌, ◌⊎◌, Err, IfErr, IfOk, OnErr, OnOk, false, true};
ghost use Rattle.record_values.specs.declared.error.Error.TheVariants.{NoSuchTxn};
ghost use Rattle.core_model.specs.Events.{Event, Refused};
ghost use Rattle.threads_sessions.specs.Steps.{ended};
ghost use Rattle.threads_sessions.specs.Values.{is_active};
ghost use Rattle.shared.specs.Changed.{IsGoingBack};
ghost use Rattle.shared.specs.Served.{HasUndone, WasAborted, WasServedTo, WasTakenBack, WasUndone};

use crate::seat::Seat;
use crate::shared::Shared;
use locked_core::{Group, Memory};
use records::{Error, Txn};
use std::sync::{MutexGuard, Wait};
use threads_sessions::Keeping;

impl<B: Group, A: Memory> Shared<B, A> {
    /// Takes all changes of a transaction of the seat back, each step under the lock anew, and then ends it: it is none
    /// of the seat's from then on. At its end each place that it held has its committed row.
    ///
    /// `NoSuchTxn` where the transaction isn't one of the seat's, and else the refusals of the core's `undo_step` and
    /// `end`. After one of them the transaction is as before or rolling back. The undo steps that were made stay made
    /// (`undone`), and `abort`, called again, goes on from there (law `each_refusal`).
    pub fn abort<R: Wait, K: Keeping>(
        &self,
        rt: &R,
        seat: &mut Seat<B, A, K>,
        txn: Txn,
    ) -> Result<(), Error>
        ensures foreign { is_active seat.old.session txn ≡ false → (result ≡ Err NoSuchTxn) × (seat.new ≡ seat.old) }
        ensures ok { OnOk result (seat.new.session ≡ ended seat.old.session txn) }
        ensures aborted { OnOk result ∥ WasAborted B.site.opened seat.old.number seat.old.session txn ∥₁ }
        ensures err { OnErr result ((seat.new.session ≡ seat.old.session)
            ⊎ IsGoingBack seat.old.session txn seat.new.session) }
        ensures undone { OnErr result ∥ HasUndone B.site.opened seat.old.number seat.old.session txn seat.new.session
            ∥₁ }
        ensures served { IfErr result (λ e. is_active seat.old.session txn ≡ true
            → ∥ WasServedTo B.site.opened seat.new.number seat.new.session (Event.End txn) (Refused e) ∥₁
            ⊎ ∥ WasServedTo B.site.opened seat.new.number seat.new.session (Event.Undo txn) (Refused e) ∥₁) }
        ensures seat { seat.new ≡ record seat.old { session = seat.new.session } }
    {
        if !seat.part.is_active(txn) {
            return Err(Error::NoSuchTxn);
        }
        for _ in rt.forever() {
            let last = self.take_back(rt, seat, txn)?;
            self.wake_flusher();
            if last {
                return Ok(());
            }
        }
        unreachable!()
    }

    // The end of a transaction that has no change left, or else a step that takes a change back; answers whether it was
    // the end.
    fn take_back<R: Wait, K: Keeping>(
        &self,
        rt: &R,
        seat: &mut Seat<B, A, K>,
        txn: Txn,
    ) -> Result<bool, Error>
        requires { is_active seat.old.session txn ≡ true }
        ensures last { IfOk result (λ last. last ≡ true → seat.new.session ≡ ended seat.old.session txn) }
        ensures taken { IfOk result (λ last. last ≡ true
            → ∥ WasTakenBack B.site.opened seat.old.number seat.old.session txn ∥₁) }
        ensures back { IfOk result (λ last. last ≡ false → IsGoingBack seat.old.session txn seat.new.session) }
        ensures undone { IfOk result (λ last. last ≡ false
            → ∥ WasUndone B.site.opened seat.old.number seat.old.session txn seat.new.session ∥₁) }
        ensures refused { OnErr result (seat.new ≡ seat.old) }
        ensures served { IfErr result (λ e. ∥ WasServedTo B.site.opened seat.old.number seat.old.session (Event.End txn)
            (Refused e) ∥₁ ⊎ ∥ WasServedTo B.site.opened seat.old.number seat.old.session (Event.Undo txn)
            (Refused e) ∥₁) }
        ensures seat { seat.new ≡ record seat.old { session = seat.new.session } }
    {
        let mut guard = self.hold(rt);
        let locked = &mut *guard;
        if locked.may_end(txn) {
            let ended = locked.end(&self.registry, &mut seat.part, txn);
            locked.push_outbox(rt, &self.queue);
            MutexGuard::unlock(guard);
            ended?;
            Ok(true)
        } else {
            let undone = locked.undo_step(&self.registry, &mut seat.part, txn);
            locked.push_outbox(rt, &self.queue);
            MutexGuard::unlock(guard);
            undone?;
            Ok(false)
        }
    }
}
