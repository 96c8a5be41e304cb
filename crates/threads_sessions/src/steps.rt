//! The steps of the core as a seat makes them.
ghost use Rattle.std.specs.Prelude.{◌≡◌, true, false, None, Some, Err, OnOk, OnErr, IfOk};
ghost use Rattle.record_values.specs.declared.error.Error.TheVariants.{NoSuchTxn};
ghost use Rattle.core_model.specs.Events.{Event, Reply};
ghost use Rattle.nsf_core.specs.Value.{value_of};
ghost use Rattle.core_parts.specs.View.{Serves};
ghost use Rattle.core_parts.specs.Moves.{HasNoChange, IsReadyOrNone, OwesOrNone, txn_shown};
ghost use Rattle.core_parts.specs.Replies.{reply_by, reply_of_detached, reply_of_ticket};
ghost use Rattle.core_parts.specs.Detached.{entries_of};
ghost use Rattle.core_parts.specs.Undoing.{undone_reply};
ghost use Rattle.threads_sessions.specs.Values.{is_active};
ghost use Rattle.threads_sessions.specs.Steps.{begun, changed, committed, with_turn, ended, stepped, rolling_back};
ghost use Rattle.threads_sessions.specs.declared.turn.Turn.TheVariants.{Created, Dropped};

use crate::active::{
    ActiveTxn, no_rows, note_change, note_step, note_undo, place_of, reserve_row, reserve_txn,
    take_out,
};
use crate::commit::Commit;
use crate::keeping::Keeping;
use crate::session::Session;
use crate::turn::Turn;
use model::Write;
use nsf_core::{Core, Detached, Ticket, Undone};
use records::{Body, Error, Key, Rid, Row, Txn};
use std::alloc::Allocator;

impl<A: Allocator + Copy, K: Keeping> Session<A, K> {
    /// Begins a transaction of the seat.
    ///
    /// The refusals are those of the core's `begin`, `NoMemory` the last of them; it comes also where there is none for
    /// the session's part. After a refusal both are as before.
    pub fn begin(&mut self, core: &mut Core<A>) -> Result<Txn, Error>
        ensures served { Serves (value_of core.old) Event.Begin (reply_by Reply.Txn result) (value_of core.new) }
        ensures ok { IfOk result (λ txn. self.new ≡ begun self.old txn) }
        ensures unchanged { OnErr result (self.new ≡ self.old) }
    {
        // Room is made first, so that the core is asked once. Where there is none, the core's refusal comes before.
        if let Err(no_memory) = reserve_txn(&mut self.active) {
            core.check_begin()?;
            return Err(no_memory);
        }
        let txn = core.begin()?;
        self.active.push_reserved(ActiveTxn {
            txn,
            rows: no_rows(self.alloc, &mut self.spare),
            unfinished: None,
            rolling: false,
        });
        Ok(txn)
    }

    /// Inserts a row in a transaction of the seat: the first step, and all of the insertion where there is no index.
    ///
    /// `NoSuchTxn` where the transaction isn't one of the seat's, and else the refusals of the core's `start_insert`,
    /// `NoMemory` the last of them; it comes also where there is none for the session's part. After a refusal both are
    /// as before.
    pub fn insert(
        &mut self,
        core: &mut Core<A>,
        txn: Txn,
        key: Key,
        body: Body,
    ) -> Result<Rid, Error>
        requires { is_active self.old txn ≡ true → IsReadyOrNone (txn_shown (value_of core.old) txn) }
        ensures foreign { is_active self.old txn ≡ false → (result ≡ Err NoSuchTxn)
            × (value_of core.new ≡ value_of core.old) }
        ensures served { is_active self.old txn ≡ true
            → Serves (value_of core.old) (Event.Insert txn (record { key = key; body = body }))
            (reply_by Reply.Rid result) (value_of core.new) }
        ensures ok { IfOk result (λ rid. self.new ≡ changed self.old (value_of core.new) txn
            (record { rid = rid; row = Some (record { key = key; body = body }) })) }
        ensures unchanged { OnErr result (self.new ≡ self.old) }
    {
        let Some(i) = place_of(&self.active, txn) else {
            return Err(Error::NoSuchTxn);
        };
        // Room is made first, so that the core looks for the place once. Where there is none, the core's refusal comes
        // before.
        if let Err(no_memory) = reserve_row(&mut self.active, i) {
            core.check_insert(txn)?;
            return Err(no_memory);
        }
        let rid = core.start_insert(txn, key, body)?;
        let row = Some(Row { key, body });
        note_change(&mut self.active, i, core, Write { rid, row });
        Ok(rid)
    }

    /// Deletes a row in a transaction of the seat: the first step, and all of the deletion where there is no index.
    ///
    /// The refusals are those of `insert`, with the core's `start_delete` in place of `start_insert`.
    pub fn delete(&mut self, core: &mut Core<A>, txn: Txn, rid: Rid) -> Result<(), Error>
        requires { is_active self.old txn ≡ true → IsReadyOrNone (txn_shown (value_of core.old) txn) }
        ensures foreign { is_active self.old txn ≡ false → (result ≡ Err NoSuchTxn)
            × (value_of core.new ≡ value_of core.old) }
        ensures served { is_active self.old txn ≡ true
            → Serves (value_of core.old) (Event.Delete txn rid) (reply_by (λ _. Reply.Stepped) result)
            (value_of core.new) }
        ensures ok { OnOk result (self.new ≡ changed self.old (value_of core.new) txn
            (record { rid = rid; row = None })) }
        ensures unchanged { OnErr result (self.new ≡ self.old) }
    {
        let Some(i) = place_of(&self.active, txn) else {
            return Err(Error::NoSuchTxn);
        };
        if let Err(no_memory) = reserve_row(&mut self.active, i) {
            core.check_change(txn, rid)?;
            return Err(no_memory);
        }
        core.start_delete(txn, rid)?;
        note_change(&mut self.active, i, core, Write { rid, row: None });
        Ok(())
    }

    /// Puts another row in place of a row, in a transaction of the seat: the first step, and all of it where there is
    /// no index, or the key stays.
    ///
    /// The refusals are those of `delete`.
    pub fn update(
        &mut self,
        core: &mut Core<A>,
        txn: Txn,
        rid: Rid,
        key: Key,
        body: Body,
    ) -> Result<(), Error>
        requires { is_active self.old txn ≡ true → IsReadyOrNone (txn_shown (value_of core.old) txn) }
        ensures foreign { is_active self.old txn ≡ false → (result ≡ Err NoSuchTxn)
            × (value_of core.new ≡ value_of core.old) }
        ensures served { is_active self.old txn ≡ true
            → Serves (value_of core.old) (Event.Update txn rid (record { key = key; body = body }))
            (reply_by (λ _. Reply.Stepped) result) (value_of core.new) }
        ensures ok { OnOk result (self.new ≡ changed self.old (value_of core.new) txn
            (record { rid = rid; row = Some (record { key = key; body = body }) })) }
        ensures unchanged { OnErr result (self.new ≡ self.old) }
    {
        let Some(i) = place_of(&self.active, txn) else {
            return Err(Error::NoSuchTxn);
        };
        if let Err(no_memory) = reserve_row(&mut self.active, i) {
            core.check_change(txn, rid)?;
            return Err(no_memory);
        }
        core.start_update(txn, rid, key, body)?;
        let row = Some(Row { key, body });
        note_change(&mut self.active, i, core, Write { rid, row });
        Ok(())
    }

    /// Makes the step that a transaction of the seat owes.
    ///
    /// `NoSuchTxn` where the transaction isn't one of the seat's, and else the refusals of the core's `next_step`.
    /// After a refusal both are as before.
    pub fn next_step(&mut self, core: &mut Core<A>, txn: Txn) -> Result<(), Error>
        requires { is_active self.old txn ≡ true → OwesOrNone (txn_shown (value_of core.old) txn) }
        ensures foreign { is_active self.old txn ≡ false → (result ≡ Err NoSuchTxn)
            × (value_of core.new ≡ value_of core.old) }
        ensures served { is_active self.old txn ≡ true
            → Serves (value_of core.old) (Event.Step txn) (reply_by (λ _. Reply.Stepped) result) (value_of core.new) }
        ensures ok { OnOk result (self.new ≡ stepped self.old (value_of core.new) txn) }
        ensures unchanged { OnErr result (self.new ≡ self.old) }
    {
        let Some(i) = place_of(&self.active, txn) else {
            return Err(Error::NoSuchTxn);
        };
        core.next_step(txn)?;
        note_step(&mut self.active, i, core);
        Ok(())
    }

    /// Makes the next step that takes a change of a transaction of the seat back, or answers that none is left. From
    /// the first call on the transaction is rolling back.
    ///
    /// `NoSuchTxn` where the transaction isn't one of the seat's, and else the refusals of the core's `undo_step`.
    /// After a refusal both are as before.
    pub fn undo_step(&mut self, core: &mut Core<A>, txn: Txn) -> Result<Undone, Error>
        ensures foreign { is_active self.old txn ≡ false → (result ≡ Err NoSuchTxn)
            × (value_of core.new ≡ value_of core.old) }
        ensures served { is_active self.old txn ≡ true
            → Serves (value_of core.old) (Event.Undo txn) (reply_by undone_reply result) (value_of core.new) }
        ensures ok { OnOk result (self.new ≡ rolling_back self.old (value_of core.new) txn) }
        ensures unchanged { OnErr result (self.new ≡ self.old) }
    {
        let Some(i) = place_of(&self.active, txn) else {
            return Err(Error::NoSuchTxn);
        };
        let step = core.undo_step(txn)?;
        note_undo(&mut self.active, i, core);
        Ok(step)
    }

    /// Ends a transaction of the seat that has no change left. It is none of the seat's from then on.
    ///
    /// `NoSuchTxn` where the transaction isn't one of the seat's, and else the refusals of the core's `end`. After a
    /// refusal both are as before.
    pub fn end(&mut self, core: &mut Core<A>, txn: Txn) -> Result<(), Error>
        requires { is_active self.old txn ≡ true → HasNoChange (txn_shown (value_of core.old) txn) }
        ensures foreign { is_active self.old txn ≡ false → (result ≡ Err NoSuchTxn)
            × (value_of core.new ≡ value_of core.old) }
        ensures served { is_active self.old txn ≡ true
            → Serves (value_of core.old) (Event.End txn) (reply_by (λ _. Reply.Ended) result) (value_of core.new) }
        ensures ok { OnOk result (self.new ≡ ended self.old txn) }
        ensures unchanged { OnErr result (self.new ≡ self.old) }
    {
        let Some(i) = place_of(&self.active, txn) else {
            return Err(Error::NoSuchTxn);
        };
        core.end(txn)?;
        self.spare = Some(take_out(&mut self.active, i, txn));
        Ok(())
    }

    /// Commits a transaction of the seat: it is none of the active ones from then on, and a commit with its ticket and
    /// the rows at the places that it held is the last one.
    ///
    /// `NoSuchTxn` where the transaction isn't one of the seat's, and else the refusals of the core's `commit`,
    /// `NoMemory` the last of them. Where commits are kept, it comes also for want of room for one more. After a
    /// refusal both are as before.
    pub fn commit(&mut self, core: &mut Core<A>, txn: Txn) -> Result<Ticket, Error>
        requires { is_active self.old txn ≡ true → IsReadyOrNone (txn_shown (value_of core.old) txn) }
        ensures foreign { is_active self.old txn ≡ false → (result ≡ Err NoSuchTxn)
            × (value_of core.new ≡ value_of core.old) }
        ensures served { is_active self.old txn ≡ true
            → Serves (value_of core.old) (Event.Commit txn) (reply_by reply_of_ticket result) (value_of core.new) }
        ensures ok { IfOk result (λ ticket. self.new ≡ committed self.old txn ticket) }
        ensures unchanged { OnErr result (self.new ≡ self.old) }
    {
        let Some(i) = place_of(&self.active, txn) else {
            return Err(Error::NoSuchTxn);
        };
        if let Err(no_memory) = self.history.reserve() {
            core.check_commit(txn)?;
            return Err(no_memory);
        }
        let ticket = core.commit(txn)?;
        let writes = take_out(&mut self.active, i, txn);
        self.spare = self.history.push(Commit {
            record: ticket.record,
            number: ticket.commit,
            writes,
        });
        Ok(ticket)
    }

    /// Creates the index. The session tells of it, with the number of its record.
    ///
    /// The refusals are those of the core's `create_index`. After a refusal both are as before.
    pub fn create_index(&mut self, core: &mut Core<A>) -> Result<Ticket, Error>
        ensures served { Serves (value_of core.old) Event.Create (reply_by reply_of_ticket result) (value_of core.new) }
        ensures ok { IfOk result (λ ticket. self.new ≡ with_turn self.old (Created ticket.«record»)) }
        ensures unchanged { OnErr result (self.new ≡ self.old) }
    {
        let ticket = core.create_index()?;
        self.history.note(Turn::Created(ticket.record));
        Ok(ticket)
    }

    /// Drops the index, be it complete or not. The session tells of it, with the number of its record. The entries that
    /// the index had are answered, for the caller to let go.
    ///
    /// The refusals are those of the core's `drop_index`. After a refusal both are as before.
    pub fn drop_index(&mut self, core: &mut Core<A>) -> Result<Detached<A>, Error>
        ensures served { Serves (value_of core.old) Event.Drop (reply_by reply_of_detached result) (value_of core.new) }
        ensures taken { IfOk result (λ d. entries_of d ≡ (value_of core.old).index.entries) }
        ensures ok { IfOk result (λ d. self.new ≡ with_turn self.old (Dropped d.ticket.«record»)) }
        ensures unchanged { OnErr result (self.new ≡ self.old) }
    {
        let Detached { ticket, entries } = core.detach_index()?;
        self.history.note(Turn::Dropped(ticket.record));
        Ok(Detached { ticket, entries })
    }
}
