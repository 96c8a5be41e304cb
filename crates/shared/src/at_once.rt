//! The calls of a seat that make a transaction of one change in one hold of the lock.
ghost use Rattle.std.specs.Prelude.{◌≡◌, ◌∷◌, [], IfErr, IfNone, IfOk, IfSome, List, None, OnErr, OnOk, Some, true, ℕ};
ghost use Rattle.model.specs.declared.write.Write.{Write};
ghost use Rattle.core_model.specs.Events.{Event, Refused, Reply};
ghost use Rattle.core_parts.specs.Replies.{reply_by, reply_of_ticket};
ghost use Rattle.core_parts.specs.View.{Serves};
ghost use Rattle.locked_core.specs.Locked.{locked_of};
ghost use Rattle.threads_sessions.specs.Steps.{ended};
ghost use Rattle.threads_sessions.specs.Values.{is_active, is_ready, rows_of};
ghost use Rattle.shared.specs.Changed.{unfinished_of};
ghost use Rattle.shared.specs.AtOnce.{AreRefused, AreServed, HasStarted, IsChanging, IsLeft, TakesBack, WasLeft};
ghost use Rattle.shared.specs.AtOnce.{WasMade, WasRefused, answer_of, change_of, event_of, last_calls, step_calls};
ghost use Rattle.shared.specs.AtOnce.{undo_calls, with_commit};

use crate::one_change::{OneChange, Placed, Refusal};
use crate::seat::Seat;
use crate::shared::Shared;
use locked_core::{Group, Locked, Memory, SeatPart};
use nsf_core::Ticket;
use records::{Body, Error, Key, Rid, Txn};
use std::sync::{MutexGuard, Wait};
use threads_sessions::Keeping;

impl<B: Group, A: Memory> Shared<B, A> {
    /// Inserts a row, in a transaction of its own. It begins, makes all steps of the insertion and commits, in one hold
    /// of the lock. Nobody comes between.
    ///
    /// The refusals are those of `begin`, of the steps of `insert`, and of `commit`. Then the seat is as before, or the
    /// transaction is left (`Refusal`).
    pub fn put<R: Wait, K: Keeping>(
        &self,
        rt: &R,
        seat: &mut Seat<B, A, K>,
        key: Key,
        body: Body,
    ) -> Result<Placed, Refusal>
        ensures committed { IfOk result (λ put. seat.new ≡ record seat.old {
          session = with_commit seat.old.session
              put.ticket (record { rid = put.rid; row = Some (record { key = key; body = body }) });
        }) }
        ensures made { IfOk result (λ put. ∥ WasMade B.site.opened seat.old.number seat.old.session
            (λ txn. Event.Insert txn (record { key = key; body = body })) (Reply.Rid put.rid) put.ticket ∥₁) }
        ensures refused { IfErr result (λ r. ∥ WasRefused B.site.opened seat.old.number seat.old.session
            (λ txn. Event.Insert txn (record { key = key; body = body })) r.error ∥₁) }
        ensures nothing_stays { IfErr result (λ r. r.left ≡ None → seat.new ≡ seat.old) }
        ensures left { IfErr result (λ r. IfSome r.left (λ txn.
            IsLeft seat.old.session txn seat.new.session)) }
        ensures why_left { IfErr result (λ r. IfSome r.left (λ txn. ∥ WasLeft B.site.opened seat.old.number
            seat.old.session (λ txn. Event.Insert txn (record { key = key; body = body })) r.error txn ∥₁)) }
        ensures seat { seat.new ≡ record seat.old { session = seat.new.session } }
    {
        self.make(rt, seat, OneChange::Put { key, body })
    }

    /// Deletes a row, in a transaction of its own, as `put` inserts one.
    ///
    /// The refusals are those of `put`, with the steps of `delete` in place of those of `insert`.
    pub fn remove<R: Wait, K: Keeping>(
        &self,
        rt: &R,
        seat: &mut Seat<B, A, K>,
        rid: Rid,
    ) -> Result<Ticket, Refusal>
        ensures committed { IfOk result (λ ticket. seat.new ≡ record seat.old {
          session = with_commit seat.old.session
              ticket (record { rid = rid; row = None });
        }) }
        ensures made { IfOk result (λ ticket. ∥ WasMade B.site.opened seat.old.number seat.old.session
            (λ txn. Event.Delete txn rid) Reply.Stepped ticket ∥₁) }
        ensures refused { IfErr result (λ r. ∥ WasRefused B.site.opened seat.old.number seat.old.session
            (λ txn. Event.Delete txn rid) r.error ∥₁) }
        ensures nothing_stays { IfErr result (λ r. r.left ≡ None → seat.new ≡ seat.old) }
        ensures left { IfErr result (λ r. IfSome r.left (λ txn.
            IsLeft seat.old.session txn seat.new.session)) }
        ensures why_left { IfErr result (λ r. IfSome r.left (λ txn. ∥ WasLeft B.site.opened seat.old.number
            seat.old.session (λ txn. Event.Delete txn rid) r.error txn ∥₁)) }
        ensures seat { seat.new ≡ record seat.old { session = seat.new.session } }
    {
        let removed = self.make(rt, seat, OneChange::Remove { rid })?;
        Ok(removed.ticket)
    }

    /// Puts another row in place of a row, in a transaction of its own, as `put` inserts one.
    ///
    /// The refusals are those of `put`, with the steps of `update` in place of those of `insert`.
    pub fn replace<R: Wait, K: Keeping>(
        &self,
        rt: &R,
        seat: &mut Seat<B, A, K>,
        rid: Rid,
        key: Key,
        body: Body,
    ) -> Result<Ticket, Refusal>
        ensures committed { IfOk result (λ ticket. seat.new ≡ record seat.old {
          session = with_commit seat.old.session
              ticket (record { rid = rid; row = Some (record { key = key; body = body }) });
        }) }
        ensures made { IfOk result (λ ticket. ∥ WasMade B.site.opened seat.old.number seat.old.session
            (λ txn. Event.Update txn rid (record { key = key; body = body })) Reply.Stepped ticket ∥₁) }
        ensures refused { IfErr result (λ r. ∥ WasRefused B.site.opened seat.old.number seat.old.session
            (λ txn. Event.Update txn rid (record { key = key; body = body })) r.error ∥₁) }
        ensures nothing_stays { IfErr result (λ r. r.left ≡ None → seat.new ≡ seat.old) }
        ensures left { IfErr result (λ r. IfSome r.left (λ txn.
            IsLeft seat.old.session txn seat.new.session)) }
        ensures why_left { IfErr result (λ r. IfSome r.left (λ txn. ∥ WasLeft B.site.opened seat.old.number
            seat.old.session (λ txn. Event.Update txn rid (record { key = key; body = body })) r.error txn ∥₁)) }
        ensures seat { seat.new ≡ record seat.old { session = seat.new.session } }
    {
        let replaced = self.make(rt, seat, OneChange::Replace { rid, key, body })?;
        Ok(replaced.ticket)
    }

    // A transaction of this change, in one hold of the lock.
    fn make<R: Wait, K: Keeping>(
        &self,
        rt: &R,
        seat: &mut Seat<B, A, K>,
        asked: OneChange,
    ) -> Result<Placed, Refusal>
        ensures committed { IfOk result (λ made. seat.new ≡ record seat.old {
          session = with_commit seat.old.session
              made.ticket (change_of asked made.rid);
        }) }
        ensures made { IfOk result (λ made. ∥ WasMade B.site.opened seat.old.number seat.old.session (event_of asked)
            (answer_of asked made.rid) made.ticket ∥₁) }
        ensures refused { IfErr result (λ r. ∥ WasRefused B.site.opened seat.old.number seat.old.session
            (event_of asked) r.error ∥₁) }
        ensures nothing_stays { IfErr result (λ r. r.left ≡ None → seat.new ≡ seat.old) }
        ensures left { IfErr result (λ r. IfSome r.left (λ txn.
            IsLeft seat.old.session txn seat.new.session)) }
        ensures why_left { IfErr result (λ r. IfSome r.left (λ txn. ∥ WasLeft B.site.opened seat.old.number
            seat.old.session (event_of asked) r.error txn ∥₁)) }
        ensures seat { seat.new ≡ record seat.old { session = seat.new.session } }
    {
        let mut locked = self.hold(rt);
        let made = self.make_held(rt, &mut *locked, &mut seat.part, asked);
        locked.push_outbox(rt, &self.queue);
        MutexGuard::unlock(locked);
        self.wake_flusher();
        made
    }

    // A transaction of this change, under the lock. Where a call of it is refused, it is taken back.
    fn make_held<R: Wait, K: Keeping>(
        &self,
        rt: &R,
        locked: &mut Locked<B, A>,
        part: &mut SeatPart<B, A, K>,
        asked: OneChange,
    ) -> Result<Placed, Refusal>
        ensures committed { IfOk result (λ made. part.new.session
            ≡ with_commit part.old.session made.ticket (change_of asked made.rid)) }
        ensures made { IfOk result (λ made. ∥ WasMade B.site.opened part.old.number part.old.session (event_of asked)
            (answer_of asked made.rid) made.ticket ∥₁) }
        ensures refused { IfErr result (λ r. ∥ WasRefused B.site.opened part.old.number part.old.session
            (event_of asked) r.error ∥₁) }
        ensures nothing_stays { IfErr result (λ r. r.left ≡ None → part.new.session ≡ part.old.session) }
        ensures left { IfErr result (λ r. IfSome r.left (λ txn.
            IsLeft part.old.session txn part.new.session)) }
        ensures why_left { IfErr result (λ r. IfSome r.left (λ txn. ∥ WasLeft B.site.opened part.old.number
            part.old.session (event_of asked) r.error txn ∥₁)) }
        ensures number { part.new.number ≡ part.old.number }
    {
        let txn = match locked.begin(&self.registry, part) {
            Ok(txn) => txn,
            Err(error) => return Err(Refusal { error, left: None }),
        };
        let error = match self.change_held(rt, locked, part, txn, asked) {
            Ok(made) => return Ok(made),
            Err(error) => error,
        };
        match self.clear_held(rt, locked, part, txn) {
            Ok(()) => Err(Refusal { error, left: None }),
            Err(_) => Err(Refusal {
                error,
                left: Some(txn),
            }),
        }
    }

    // The change of a transaction that has just begun, all steps of it, and the commit.
    fn change_held<R: Wait, K: Keeping>(
        &self,
        rt: &R,
        locked: &mut Locked<B, A>,
        part: &mut SeatPart<B, A, K>,
        txn: Txn,
        asked: OneChange,
    ) -> Result<Placed, Error>
        requires ready { is_ready part.old.session txn ≡ true }
        requires empty { rows_of txn part.old.session.active ≡ [] }
        ensures committed { IfOk result (λ made. part.new.session
            ≡ with_commit (ended part.old.session txn) made.ticket (change_of asked made.rid)) }
        ensures served { IfOk result (λ made. ∥ ((steps : ℕ) × AreServed (locked_of locked.old).core
            ((event_of asked txn, answer_of asked made.rid)
            ∷ last_calls txn steps (Event.Commit txn) (reply_of_ticket made.ticket)) (locked_of locked.new).core) ∥₁) }
        ensures refused { IfErr result (λ e. ∥ ((calls : List (Event × Reply))
            × AreRefused txn (event_of asked txn) e calls
            × AreServed (locked_of locked.old).core calls (locked_of locked.new).core) ∥₁) }
        ensures left { OnErr result (IsLeft (ended part.old.session txn) txn part.new.session) }
        ensures number { part.new.number ≡ part.old.number }
    {
        let rid = self.start_held(locked, part, txn, asked)?;
        let ticket = self.commit_held(rt, locked, part, txn)?;
        Ok(Placed { rid, ticket })
    }

    // The first step of a change.
    fn start_held<K: Keeping>(
        &self,
        locked: &mut Locked<B, A>,
        part: &mut SeatPart<B, A, K>,
        txn: Txn,
        asked: OneChange,
    ) -> Result<Rid, Error>
        requires ready { is_ready part.old.session txn ≡ true }
        requires empty { rows_of txn part.old.session.active ≡ [] }
        ensures served { Serves (locked_of locked.old).core (event_of asked txn) (reply_by (answer_of asked) result)
            (locked_of locked.new).core }
        ensures changing { IfOk result (λ rid. IsChanging part.new.session txn (change_of asked rid)) }
        ensures left { IsLeft (ended part.old.session txn) txn part.new.session }
        ensures number { part.new.number ≡ part.old.number }
    {
        match asked {
            OneChange::Put { key, body } => locked.insert(&self.registry, part, txn, key, body),
            OneChange::Remove { rid } => {
                locked.delete(&self.registry, part, txn, rid)?;
                Ok(rid)
            }
            OneChange::Replace { rid, key, body } => {
                locked.update(&self.registry, part, txn, rid, key, body)?;
                Ok(rid)
            }
        }
    }

    // The further steps of a transaction's one change, and its commit.
    fn commit_held<R: Wait, K: Keeping>(
        &self,
        rt: &R,
        locked: &mut Locked<B, A>,
        part: &mut SeatPart<B, A, K>,
        txn: Txn,
    ) -> Result<Ticket, Error>
        requires { (change : Write) × IsChanging part.old.session txn change }
        ensures committed { IfOk result (λ ticket. (change : Write) → IsChanging part.old.session txn change
            → part.new.session ≡ with_commit (ended part.old.session txn) ticket change) }
        ensures served { IfOk result (λ ticket. ∥ ((steps : ℕ) × AreServed (locked_of locked.old).core
            (last_calls txn steps (Event.Commit txn) (reply_of_ticket ticket)) (locked_of locked.new).core) ∥₁) }
        ensures refused { IfErr result (λ e. (first : Event) (reply : Reply) → HasStarted first reply
            → ∥ ((calls : List (Event × Reply)) × AreRefused txn first e ((first, reply) ∷ calls)
            × AreServed (locked_of locked.old).core calls (locked_of locked.new).core) ∥₁) }
        ensures left { OnErr result (IsLeft (ended part.old.session txn) txn part.new.session) }
        ensures number { part.new.number ≡ part.old.number }
    {
        if let Some(error) = self.finish_held(rt, locked, part, txn) {
            return Err(error);
        }
        locked.commit(&self.registry, part, txn)
    }

    // The further steps of a transaction's one change, and the refusal of one, if it was refused.
    fn finish_held<R: Wait, K: Keeping>(
        &self,
        rt: &R,
        locked: &mut Locked<B, A>,
        part: &mut SeatPart<B, A, K>,
        txn: Txn,
    ) -> Option<Error>
        ensures served { ∥ ((steps : ℕ) × AreServed (locked_of locked.old).core (step_calls txn steps result)
            (locked_of locked.new).core) ∥₁ }
        ensures changing { (change : Write) → IsChanging part.old.session txn change
            → IsChanging part.new.session txn change }
        ensures finished { IfNone result (unfinished_of part.new.session txn ≡ None) }
        ensures others { ended part.new.session txn ≡ ended part.old.session txn }
        ensures number { part.new.number ≡ part.old.number }
    {
        for _ in rt.forever() {
            if !part.unfinished(txn) {
                return None;
            }
            if let Err(error) = locked.next_step(&self.registry, part, txn) {
                return Some(error);
            }
        }
        unreachable!()
    }

    // Takes all changes of a transaction back and ends it. After a refusal it is left, with what is taken back so far.
    fn clear_held<R: Wait, K: Keeping>(
        &self,
        rt: &R,
        locked: &mut Locked<B, A>,
        part: &mut SeatPart<B, A, K>,
        txn: Txn,
    ) -> Result<(), Error>
        requires { is_active part.old.session txn ≡ true }
        ensures cleared { OnOk result (part.new.session ≡ ended part.old.session txn) }
        ensures served { IfErr result (λ e. ∥ ((undone : ℕ) × (last : Event) × TakesBack txn last
            × AreServed (locked_of locked.old).core (undo_calls txn undone last (Refused e))
            (locked_of locked.new).core) ∥₁) }
        ensures left { OnErr result (IsLeft (ended part.old.session txn) txn part.new.session) }
        ensures number { part.new.number ≡ part.old.number }
    {
        for _ in rt.forever() {
            if locked.may_end(txn) {
                return locked.end(&self.registry, part, txn);
            }
            locked.undo_step(&self.registry, part, txn)?;
        }
        unreachable!()
    }
}
