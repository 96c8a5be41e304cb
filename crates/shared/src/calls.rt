//! The calls of a seat that make one step of the core, or read it. Each pushes what waits once, the records that the
//! queue had refused first; the queue may refuse them again, so no clause says so.
ghost use Rattle.std.specs.Prelude.{◌≡◌, Err, IfOk, OnErr, Option, Some, false, true, ℕ};
ghost use Rattle.record_values.specs.declared.error.Error.TheVariants.{NoSuchTxn};
ghost use Rattle.record_values.specs.declared.row.Row.{Row as RowValue};
ghost use Rattle.core_model.specs.Events.{Event, Reply};
ghost use Rattle.core_parts.specs.Replies.{reply_by, reply_of_ticket};
ghost use Rattle.threads_sessions.specs.Steps.{begun, committed, with_turn};
ghost use Rattle.threads_sessions.specs.declared.turn.Turn.TheVariants.{Created, Dropped};
ghost use Rattle.threads_sessions.specs.Values.{is_active, is_ready};
ghost use Rattle.shared.specs.Changed.{row_of};
ghost use Rattle.shared.specs.Served.{WasServed, WasServedTo};

use crate::seat::Seat;
use crate::shared::Shared;
use locked_core::{Group, Memory};
use model::Life;
use nsf_core::Ticket;
use records::{Error, Key, Rid, Row, Txn};
use std::sync::{MutexGuard, Wait};
use threads_sessions::Keeping;

impl<B: Group, A: Memory> Shared<B, A> {
    /// Begins a transaction of the seat. Where another seat waits until none is active (`create_index_when_quiet`), it
    /// waits before that one, unless this seat has a transaction (no clause says so).
    ///
    /// The refusals are those of the core's `begin`. After a refusal the seat is as before.
    pub fn begin<R: Wait, K: Keeping>(&self, rt: &R, seat: &mut Seat<B, A, K>) -> Result<Txn, Error>
        ensures served { ∥ WasServedTo B.site.opened seat.old.number seat.old.session Event.Begin
            (reply_by Reply.Txn result) ∥₁ }
        ensures ok { IfOk result (λ txn. seat.new ≡ record seat.old { session = begun seat.old.session txn }) }
        ensures refused { OnErr result (seat.new ≡ seat.old) }
    {
        self.give_way(rt, seat);
        let mut locked = self.hold(rt);
        locked.push_outbox(rt, &self.queue);
        let begun = locked.begin(&self.registry, &mut seat.part);
        MutexGuard::unlock(locked);
        begun
    }

    /// Commits a transaction of the seat: it is none of the seat's active ones from then on, and the commit is the last
    /// one of the seat's session.
    ///
    /// `NoSuchTxn` where the transaction isn't one of the seat's, and else the refusals of the core's `commit`. After a
    /// refusal the seat is as before.
    pub fn commit<R: Wait, K: Keeping>(
        &self,
        rt: &R,
        seat: &mut Seat<B, A, K>,
        txn: Txn,
    ) -> Result<Ticket, Error>
        requires { is_active seat.old.session txn ≡ true → is_ready seat.old.session txn ≡ true }
        ensures foreign { is_active seat.old.session txn ≡ false → result ≡ Err NoSuchTxn }
        ensures served { is_active seat.old.session txn ≡ true
            → ∥ WasServedTo B.site.opened seat.old.number seat.old.session (Event.Commit txn)
            (reply_by reply_of_ticket result) ∥₁ }
        ensures ok { IfOk result (λ ticket. seat.new ≡ record seat.old
            { session = committed seat.old.session txn ticket }) }
        ensures refused { OnErr result (seat.new ≡ seat.old) }
    {
        let mut locked = self.hold(rt);
        let committed = locked.commit(&self.registry, &mut seat.part, txn);
        locked.push_outbox(rt, &self.queue);
        MutexGuard::unlock(locked);
        self.wake_flusher();
        committed
    }

    /// Creates the index. The seat's session tells of it, with the number of its record.
    ///
    /// The refusals are those of the core's `create_index`. After a refusal the seat is as before.
    pub fn create_index<R: Wait, K: Keeping>(
        &self,
        rt: &R,
        seat: &mut Seat<B, A, K>,
    ) -> Result<Ticket, Error>
        ensures served { ∥ WasServedTo B.site.opened seat.old.number seat.old.session Event.Create
            (reply_by reply_of_ticket result) ∥₁ }
        ensures ok { IfOk result (λ ticket. seat.new ≡ record seat.old
            { session = with_turn seat.old.session (Created ticket.«record») }) }
        ensures refused { OnErr result (seat.new ≡ seat.old) }
    {
        let mut locked = self.hold(rt);
        let created = locked.create_index(&self.registry, &mut seat.part);
        locked.push_outbox(rt, &self.queue);
        MutexGuard::unlock(locked);
        self.ring_flusher();
        self.board.waits().resting.ring();
        created
    }

    /// Drops the index, be it complete or not. The seat's session tells of it, with the number of its record. Its
    /// entries are freed behind the lock (no clause says so).
    ///
    /// The refusals are those of the core's `drop_index`. After a refusal the seat is as before.
    pub fn drop_index<R: Wait, K: Keeping>(
        &self,
        rt: &R,
        seat: &mut Seat<B, A, K>,
    ) -> Result<Ticket, Error>
        ensures served { ∥ WasServedTo B.site.opened seat.old.number seat.old.session Event.Drop
            (reply_by reply_of_ticket result) ∥₁ }
        ensures ok { IfOk result (λ ticket. seat.new ≡ record seat.old
            { session = with_turn seat.old.session (Dropped ticket.«record») }) }
        ensures refused { OnErr result (seat.new ≡ seat.old) }
    {
        let mut locked = self.hold(rt);
        let dropped = locked.drop_index(&self.registry, &mut seat.part);
        locked.push_outbox(rt, &self.queue);
        MutexGuard::unlock(locked);
        self.ring_flusher();
        self.board.waits().resting.ring();
        Ok(dropped?.ticket)
    }

    /// The row at the place, also before its transaction's commit, as a core has it that may lie under the lock. If a
    /// transaction of the seat holds the place, that is the row which the seat's session has for it.
    ///
    /// What the queue had refused is pushed first (no clause says so).
    pub fn get<R: Wait, K: Keeping>(
        &self,
        rt: &R,
        seat: &mut Seat<B, A, K>,
        rid: Rid,
    ) -> Option<Row>
        ensures served { ∥ WasServedTo B.site.opened seat.old.number seat.old.session (Event.Get rid)
            (Reply.RowIs result) ∥₁ }
        ensures own { (txn : ℕ) (row : Option RowValue) → row_of seat.old.session txn rid ≡ Some row → result ≡ row }
        ensures seat { seat.new ≡ seat.old }
    {
        let mut guard = self.hold(rt);
        let locked = &mut *guard;
        locked.push_outbox(rt, &self.queue);
        locked.compare_seat(&self.registry, &mut seat.part);
        let row = locked.get(rid);
        MutexGuard::unlock(guard);
        row
    }

    /// The places of the rows with this key, by the index, as a core has it that may lie under the lock. That core has
    /// all that the seat's session tells: each commit, creation and dropping, and each row of an active transaction.
    ///
    /// The refusals are those of the core's `find`. What the queue had refused is pushed first (no clause says so).
    pub fn find<R: Wait, K: Keeping>(
        &self,
        rt: &R,
        seat: &mut Seat<B, A, K>,
        key: Key,
    ) -> Result<Vec<Rid, A>, Error>
        ensures served { ∥ WasServedTo B.site.opened seat.old.number seat.old.session (Event.Find key)
            (reply_by (λ rids. Reply.Found rids.items) result) ∥₁ }
        ensures seat { seat.new ≡ seat.old }
    {
        let mut guard = self.hold(rt);
        let locked = &mut *guard;
        locked.push_outbox(rt, &self.queue);
        locked.compare_seat(&self.registry, &mut seat.part);
        let found = locked.find(key);
        MutexGuard::unlock(guard);
        found
    }

    /// How far the index is, in a core that may lie under the lock. That core has all that the seat's session tells.
    ///
    /// What the queue had refused is pushed first (no clause says so).
    pub fn life<R: Wait, K: Keeping>(&self, rt: &R, seat: &mut Seat<B, A, K>) -> Life
        ensures served { ∥ WasServedTo B.site.opened seat.old.number seat.old.session Event.Life
            (Reply.LifeIs result) ∥₁ }
        ensures seat { seat.new ≡ seat.old }
    {
        let mut guard = self.hold(rt);
        let locked = &mut *guard;
        locked.push_outbox(rt, &self.queue);
        locked.compare_seat(&self.registry, &mut seat.part);
        let life = locked.life();
        MutexGuard::unlock(guard);
        life
    }

    /// How far the index is, for a thread that has no seat, in a core that may lie under the lock.
    ///
    /// What the queue had refused is pushed first (no clause says so).
    pub fn life_without_seat<R: Wait>(&self, rt: &R) -> Life
        ensures { ∥ WasServed B.site.opened Event.Life (Reply.LifeIs result) ∥₁ }
    {
        let mut locked = self.hold(rt);
        locked.push_outbox(rt, &self.queue);
        let life = locked.life();
        MutexGuard::unlock(locked);
        life
    }
}
