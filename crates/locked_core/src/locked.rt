//! What lies under the lock, and the steps on it.
ghost use Rattle.std.specs.FinMap as table;
ghost use Rattle.std.specs.Prelude.{◌≡◌, ◌↔◌, ◌++◌, ◌∷◌, [], IsTrue, false, true, Err, None, Option, Some, IfErr, IfOk};
ghost use Rattle.std.specs.Prelude.{◌+◌, List, OnErr, OnOk, length, map, slice_get, slice_set, take, ℕ};
ghost use Rattle.record_values.specs.GeometryValue.{GeometryValue};
ghost use Rattle.core_model.specs.Events.{Event, Reply};
ghost use Rattle.record_values.specs.declared.error.Error.TheVariants.{NoMemory, NoSuchTxn};
ghost use Rattle.records.specs.declared.record.Action.TheVariants.{OfIndex, OfTxn};
ghost use Rattle.records.specs.declared.record.IndexAction.{IndexAction};
ghost use Rattle.records.specs.declared.record.TxnAction.{TxnAction};
ghost use Rattle.store_image_model.specs.Run.{IsRun, cells_at, end_of};
ghost use Rattle.core_copies.specs.Pieces.{IsPieceOf};
ghost use Rattle.core_copies.specs.Shown.{IsCellsOf, IsOfGeometry};
ghost use Rattle.threads_register.specs.Holds.{HoldsHistory};
ghost use Rattle.threads_register.specs.Calls.{BeginsWith, HasReplied};
ghost use Rattle.core_model.specs.Histories.{CanOpen, no_writes};
ghost use Rattle.core_model.specs.Served.{items_of};
ghost use Rattle.core_parts.specs.Builds.{built};
ghost use Rattle.core_parts.specs.Cleaning.{cleaner};
ghost use Rattle.nsf_core.specs.Loading.{IsQuiet};
ghost use Rattle.core_parts.specs.Moves.{HasNoChange, txn_shown};
ghost use Rattle.nsf_core.specs.Outbox.{HandsOn};
ghost use Rattle.core_parts.specs.Replies.{reply_by, reply_of_detached, reply_of_ticket};
ghost use Rattle.core_parts.specs.Detached.{entries_of};
ghost use Rattle.core_parts.specs.Passing.{PassesLive};
ghost use Rattle.core_parts.specs.Undoing.{undone_reply};
ghost use Rattle.core_parts.specs.View.{Serves};
ghost use Rattle.nsf_core.specs.Value.{value_of};
ghost use Rattle.record_values.specs.declared.row.Row.{Row as RowValue};
ghost use Rattle.model.specs.declared.write.Write.{Write};
ghost use Rattle.threads_register.specs.Reading.{ReadsBack, ShowsRow, unfinished_of};
ghost use Rattle.threads_register.specs.Register.{AreEmpty};
ghost use Rattle.threads_sessions.specs.Steps.{begun, changed, committed, ended, rolling_back, stepped, with_turn};
ghost use Rattle.threads_sessions.specs.declared.turn.Turn.TheVariants.{Created, Dropped};
ghost use Rattle.threads_sessions.specs.Values.{SessionValue, is_active, is_ready, is_unfinished};
ghost use Rattle.locked_core.specs.Following.{FitPlaces, FollowOpening};
ghost use Rattle.locked_core.specs.Names.{IsShared};
ghost use Rattle.threads_sessions.specs.Halves.{IsBook, IsNew, shown};
ghost use Rattle.threads_queue.specs.Ends.{name_prop};

use crate::group::Group;
use crate::outbox::QueueSink;
use crate::seat::SeatPart;
use core_copies::Copies;
use model::Life;
use nsf_core::{BuildReply, CleanReply, Core, Detached, Ticket, Undone};
use records::{Body, Error, Key, Rid, Row, Txn};
use std::alloc::Global;
use std::marker::PhantomData;
use std::sync::Wait;
use store_image_model::{Chunk, CopyPlace};
use threads_queue::{Memory, Popper, Pusher, RecordQueue};
use threads_sessions::{Half, Keeping, Registry};

/// What lies under the lock: the core, the end of the queue that its records go to, and a half of each seat's session.
/// To a contract it is a `LockedValue`.
#[derive(Drop)]
pub struct Locked<B: Group, A: Memory = Global> {
    core: Core<A>,
    pusher: Pusher<A>,
    book: Vec<Half<A>, A>,
    site: PhantomData<B>,
    ghost queue: { pusher.queue ≡ B.site.queue } by { name_prop pusher.queue B.site.queue },
    ghost seats: { length book.items ≡ B.site.seats },
    ghost halves: { IsBook B.site.table book.items },
    ghost shared: { ∥ IsShared B.site.opened (value_of core) pusher.records (map shown book.items) ∥₁ },
}

impl<B: Group, A: Memory> Locked<B, A> {
    ghost use Rattle.locked_core.specs.Locked.{locked_of};
    ghost use Rattle.locked_core.specs.Made.{IsAllOf, run_of};

    /// A core that was just opened, under the lock, with new sessions of all seats.
    pub fn new(core: Core<A>, pusher: Pusher<A>, book: Vec<Half<A>, A>) -> Locked<B, A>
        requires opens { CanOpen B.site.opened }
        requires core { BeginsWith B.site.opened (value_of core) }
        requires pusher { pusher ≡ record { queue = B.site.queue; records = [] } }
        requires seats { length book.items ≡ B.site.seats }
        requires book { IsNew B.site.table book.items }
        ensures core { (locked_of result).core ≡ value_of core }
        ensures pushed { (locked_of result).pushed ≡ [] }
        ensures book { AreEmpty (locked_of result).book }
        ensures seats { length (locked_of result).book ≡ B.site.seats }
    {
        Locked {
            core,
            pusher,
            book,
            site: PhantomData,
        }
    }

    /// The core, the end of the queue that its records went to, and the halves of the sessions.
    pub fn into_parts(self) -> (Core<A>, Pusher<A>, Vec<Half<A>, A>)
        ensures core { value_of result.0 ≡ (locked_of self).core }
        ensures pusher { result.1 ≡ record { queue = B.site.queue; records = (locked_of self).pushed } }
        ensures seats { length result.2.items ≡ B.site.seats }
        ensures halves { IsBook B.site.table result.2.items }
        ensures book { map shown result.2.items ≡ (locked_of self).book }
        ensures shared { ∥ IsShared B.site.opened (locked_of self).core (locked_of self).pushed
            (locked_of self).book ∥₁ }
    {
        let Locked {
            core,
            pusher,
            book,
            site: _,
        } = self;
        (core, pusher, book)
    }

    /// Pushes the records that wait to the queue, in the order of their making, and answers whether none waits any
    /// more. One that the queue refuses stays, and so do those behind it.
    ///
    /// No clause says that a record is pushed where the queue would take it, since the queue promises room for none: it
    /// may refuse any push for want of memory. A caller learns from the answer how it is.
    pub fn push_outbox<R: Wait>(&mut self, rt: &R, queue: &RecordQueue<A>) -> bool
        requires { queue.now ≡ B.site.queue }
        ensures none_waits { IsTrue result ↔ ((locked_of self.new).core.outbox ≡ []) }
        ensures pushed { HandsOn (locked_of self.old).core (locked_of self.new).core (locked_of self.old).pushed
            (locked_of self.new).pushed }
        ensures book { (locked_of self.new).book ≡ (locked_of self.old).book }
    {
        let mut sink = QueueSink {
            rt,
            queue,
            pusher: &mut self.pusher,
            site: PhantomData::<B>,
        };
        self.core.take_outbox(&mut sink);
        self.core.waiting() == 0
    }

    /// The number of the last record that was pushed to the queue, or of the last one before the opening.
    pub fn last_pushed(&self) -> u64
        ensures { result ≡ B.site.opened.given.last + length (locked_of self.now).pushed }
    {
        self.each_hold();
        self.core.last() - self.core.waiting() as u64
    }

    /// Compares what was popped of the queue with what was pushed to it: it is the first of that, in order, its records
    /// can follow what was opened, and after each of them there are places for the entries. Nothing changes.
    pub fn compare<R: Wait>(&mut self, rt: &R, queue: &RecordQueue<A>, popper: &mut Popper<A>)
        requires queue { queue.now ≡ B.site.queue }
        requires popper { popper.old.queue ≡ B.site.queue }
        ensures beginning { popper.old.records ≡ take (length popper.old.records) (locked_of self.old).pushed }
        ensures following { FollowOpening B.site.opened popper.old.records }
        ensures fits { FitPlaces B.site.opened popper.old.records }
        ensures same { locked_of self.new ≡ locked_of self.old }
        ensures popper { popper.new ≡ popper.old }
    {
        queue.compare(rt, &mut self.pusher, popper);
    }

    /// Brings both halves of the seat's session together, which tells that they show the same. Nothing changes.
    pub fn compare_seat<K: Keeping>(&mut self, registry: &Registry<A>, seat: &mut SeatPart<B, A, K>)
        requires { registry.now ≡ B.site.table }
        ensures before { slice_get (locked_of self.old).book seat.old.number ≡ Some seat.old.session }
        ensures seat { seat.new ≡ seat.old }
        ensures same { locked_of self.new ≡ locked_of self.old }
    {
        registry.compare(&mut seat.half, &mut self.book[seat.number]);
    }

    /// Begins a transaction of the seat.
    ///
    /// The refusals are those of the core's `begin`. After a refusal all is as before.
    pub fn begin<K: Keeping>(
        &mut self,
        registry: &Registry<A>,
        seat: &mut SeatPart<B, A, K>,
    ) -> Result<Txn, Error>
        requires { registry.now ≡ B.site.table }
        ensures before { slice_get (locked_of self.old).book seat.old.number ≡ Some seat.old.session }
        ensures served { Serves (locked_of self.old).core Event.Begin (reply_by Reply.Txn result)
            (locked_of self.new).core }
        ensures number { seat.new.number ≡ seat.old.number }
        ensures ok { IfOk result (λ txn. seat.new.session ≡ begun seat.old.session txn) }
        ensures refused { OnErr result (seat.new.session ≡ seat.old.session) }
        ensures book { (locked_of self.new).book ≡ slice_set
            (locked_of self.old).book seat.old.number seat.new.session }
        ensures pushed { (locked_of self.new).pushed ≡ (locked_of self.old).pushed }
    {
        let begun = seat.session.begin(&mut self.core);
        registry.change(&mut seat.half, &mut self.book[seat.number], &seat.session);
        begun
    }

    /// Inserts a row in a transaction of the seat: the first step.
    ///
    /// The refusals are those of the session's `insert`. After a refusal all is as before.
    pub fn insert<K: Keeping>(
        &mut self,
        registry: &Registry<A>,
        seat: &mut SeatPart<B, A, K>,
        txn: Txn,
        key: Key,
        body: Body,
    ) -> Result<Rid, Error>
        requires registry { registry.now ≡ B.site.table }
        requires ready { is_active seat.old.session txn ≡ true → is_ready seat.old.session txn ≡ true }
        ensures before { slice_get (locked_of self.old).book seat.old.number ≡ Some seat.old.session }
        ensures foreign { is_active seat.old.session txn ≡ false → (result ≡ Err NoSuchTxn)
            × ((locked_of self.new).core ≡ (locked_of self.old).core) }
        ensures served { is_active seat.old.session txn ≡ true
            → Serves (locked_of self.old).core (Event.Insert txn (record { key = key; body = body }))
            (reply_by Reply.Rid result) (locked_of self.new).core }
        ensures ok { IfOk result (λ rid. seat.new.session ≡ changed seat.old.session (locked_of self.new).core txn
            (record { rid = rid; row = Some (record { key = key; body = body }) })) }
        ensures row { IfOk result (λ rid.
            ShowsRow txn (record { rid = rid; row = Some (record { key = key; body = body }) }) seat.new.session) }
        ensures refused { OnErr result (seat.new.session ≡ seat.old.session) }
        ensures number { seat.new.number ≡ seat.old.number }
        ensures book { (locked_of self.new).book ≡ slice_set
            (locked_of self.old).book seat.old.number seat.new.session }
        ensures pushed { (locked_of self.new).pushed ≡ (locked_of self.old).pushed }
    {
        let theirs = &mut self.book[seat.number];
        registry.compare(&mut seat.half, theirs);
        let inserted = seat.session.insert(&mut self.core, txn, key, body);
        registry.change(&mut seat.half, theirs, &seat.session);
        inserted
    }

    /// Deletes a row in a transaction of the seat: the first step.
    ///
    /// The refusals are those of the session's `delete`. After a refusal all is as before.
    pub fn delete<K: Keeping>(
        &mut self,
        registry: &Registry<A>,
        seat: &mut SeatPart<B, A, K>,
        txn: Txn,
        rid: Rid,
    ) -> Result<(), Error>
        requires registry { registry.now ≡ B.site.table }
        requires ready { is_active seat.old.session txn ≡ true → is_ready seat.old.session txn ≡ true }
        ensures before { slice_get (locked_of self.old).book seat.old.number ≡ Some seat.old.session }
        ensures foreign { is_active seat.old.session txn ≡ false → (result ≡ Err NoSuchTxn)
            × ((locked_of self.new).core ≡ (locked_of self.old).core) }
        ensures served { is_active seat.old.session txn ≡ true
            → Serves (locked_of self.old).core (Event.Delete txn rid) (reply_by (λ _. Reply.Stepped) result)
            (locked_of self.new).core }
        ensures ok { OnOk result (seat.new.session ≡ changed seat.old.session (locked_of self.new).core txn
            (record { rid = rid; row = None })) }
        ensures row { OnOk result ∥ ReadsBack (table.get (locked_of self.old).core.heap.rows rid) txn
            (record { rid = rid; row = None }) seat.new.session ∥₁ }
        ensures refused { OnErr result (seat.new.session ≡ seat.old.session) }
        ensures number { seat.new.number ≡ seat.old.number }
        ensures book { (locked_of self.new).book ≡ slice_set
            (locked_of self.old).book seat.old.number seat.new.session }
        ensures pushed { (locked_of self.new).pushed ≡ (locked_of self.old).pushed }
    {
        let theirs = &mut self.book[seat.number];
        registry.compare(&mut seat.half, theirs);
        let deleted = seat.session.delete(&mut self.core, txn, rid);
        registry.change(&mut seat.half, theirs, &seat.session);
        deleted
    }

    /// Puts another row in place of a row, in a transaction of the seat: the first step.
    ///
    /// The refusals are those of the session's `update`. After a refusal all is as before.
    pub fn update<K: Keeping>(
        &mut self,
        registry: &Registry<A>,
        seat: &mut SeatPart<B, A, K>,
        txn: Txn,
        rid: Rid,
        key: Key,
        body: Body,
    ) -> Result<(), Error>
        requires registry { registry.now ≡ B.site.table }
        requires ready { is_active seat.old.session txn ≡ true → is_ready seat.old.session txn ≡ true }
        ensures before { slice_get (locked_of self.old).book seat.old.number ≡ Some seat.old.session }
        ensures foreign { is_active seat.old.session txn ≡ false → (result ≡ Err NoSuchTxn)
            × ((locked_of self.new).core ≡ (locked_of self.old).core) }
        ensures served { is_active seat.old.session txn ≡ true
            → Serves (locked_of self.old).core (Event.Update txn rid (record { key = key; body = body }))
            (reply_by (λ _. Reply.Stepped) result) (locked_of self.new).core }
        ensures ok { OnOk result (seat.new.session ≡ changed seat.old.session (locked_of self.new).core txn
            (record { rid = rid; row = Some (record { key = key; body = body }) })) }
        ensures row { OnOk result ∥ ReadsBack (table.get (locked_of self.old).core.heap.rows rid) txn
            (record { rid = rid; row = Some (record { key = key; body = body }) }) seat.new.session ∥₁ }
        ensures refused { OnErr result (seat.new.session ≡ seat.old.session) }
        ensures number { seat.new.number ≡ seat.old.number }
        ensures book { (locked_of self.new).book ≡ slice_set
            (locked_of self.old).book seat.old.number seat.new.session }
        ensures pushed { (locked_of self.new).pushed ≡ (locked_of self.old).pushed }
    {
        let theirs = &mut self.book[seat.number];
        registry.compare(&mut seat.half, theirs);
        let updated = seat.session.update(&mut self.core, txn, rid, key, body);
        registry.change(&mut seat.half, theirs, &seat.session);
        updated
    }

    /// Makes the next step that takes a change of a transaction of the seat back, or answers that none is left.
    ///
    /// The refusals are those of the session's `undo_step`. After a refusal all is as before.
    pub fn undo_step<K: Keeping>(
        &mut self,
        registry: &Registry<A>,
        seat: &mut SeatPart<B, A, K>,
        txn: Txn,
    ) -> Result<Undone, Error>
        requires { registry.now ≡ B.site.table }
        ensures before { slice_get (locked_of self.old).book seat.old.number ≡ Some seat.old.session }
        ensures foreign { is_active seat.old.session txn ≡ false → (result ≡ Err NoSuchTxn)
            × ((locked_of self.new).core ≡ (locked_of self.old).core) }
        ensures served { is_active seat.old.session txn ≡ true
            → Serves (locked_of self.old).core (Event.Undo txn) (reply_by undone_reply result)
            (locked_of self.new).core }
        ensures ok { OnOk result (seat.new.session ≡ rolling_back seat.old.session (locked_of self.new).core txn) }
        ensures refused { OnErr result (seat.new.session ≡ seat.old.session) }
        ensures number { seat.new.number ≡ seat.old.number }
        ensures book { (locked_of self.new).book ≡ slice_set
            (locked_of self.old).book seat.old.number seat.new.session }
        ensures pushed { (locked_of self.new).pushed ≡ (locked_of self.old).pushed }
    {
        let undone = seat.session.undo_step(&mut self.core, txn);
        registry.change(&mut seat.half, &mut self.book[seat.number], &seat.session);
        undone
    }

    /// Creates the index. The seat's session tells of it, with the number of its record. The record that is made is the
    /// creation, with the ticket's number.
    ///
    /// The refusals are those of the core's `create_index`. After a refusal all is as before.
    pub fn create_index<K: Keeping>(
        &mut self,
        registry: &Registry<A>,
        seat: &mut SeatPart<B, A, K>,
    ) -> Result<Ticket, Error>
        requires { registry.now ≡ B.site.table }
        ensures before { slice_get (locked_of self.old).book seat.old.number ≡ Some seat.old.session }
        ensures served { Serves (locked_of self.old).core Event.Create (reply_by reply_of_ticket result)
            (locked_of self.new).core }
        ensures ok { IfOk result (λ ticket. seat.new.session ≡ with_turn seat.old.session (Created ticket.«record»)) }
        ensures recorded { IfOk result (λ ticket. (locked_of self.new).core.outbox ≡ (locked_of self.old).core.outbox
            ++ record { number = ticket.«record»; action = OfIndex IndexAction.Create } ∷ []) }
        ensures refused { OnErr result (seat.new.session ≡ seat.old.session) }
        ensures number { seat.new.number ≡ seat.old.number }
        ensures book { (locked_of self.new).book ≡ slice_set
            (locked_of self.old).book seat.old.number seat.new.session }
        ensures pushed { (locked_of self.new).pushed ≡ (locked_of self.old).pushed }
    {
        let created = seat.session.create_index(&mut self.core);
        registry.change(&mut seat.half, &mut self.book[seat.number], &seat.session);
        created
    }

    /// Drops the index, be it complete or not. The seat's session tells of it, with the number of its record. The
    /// record that is made is the dropping, with the ticket's number. The entries that the index had are answered, for
    /// the caller to let go, best behind the lock.
    ///
    /// The refusals are those of the core's `drop_index`. After a refusal all is as before.
    pub fn drop_index<K: Keeping>(
        &mut self,
        registry: &Registry<A>,
        seat: &mut SeatPart<B, A, K>,
    ) -> Result<Detached<A>, Error>
        requires { registry.now ≡ B.site.table }
        ensures before { slice_get (locked_of self.old).book seat.old.number ≡ Some seat.old.session }
        ensures served { Serves (locked_of self.old).core Event.Drop (reply_by reply_of_detached result)
            (locked_of self.new).core }
        ensures taken { IfOk result (λ d. entries_of d ≡ (locked_of self.old).core.index.entries) }
        ensures ok { IfOk result (λ d. seat.new.session ≡ with_turn seat.old.session (Dropped d.ticket.«record»)) }
        ensures recorded { IfOk result (λ d. (locked_of self.new).core.outbox ≡ (locked_of self.old).core.outbox
            ++ record { number = d.ticket.«record»; action = OfIndex IndexAction.Drop } ∷ []) }
        ensures refused { OnErr result (seat.new.session ≡ seat.old.session) }
        ensures number { seat.new.number ≡ seat.old.number }
        ensures book { (locked_of self.new).book ≡ slice_set
            (locked_of self.old).book seat.old.number seat.new.session }
        ensures pushed { (locked_of self.new).pushed ≡ (locked_of self.old).pushed }
    {
        let dropped = seat.session.drop_index(&mut self.core);
        registry.change(&mut seat.half, &mut self.book[seat.number], &seat.session);
        dropped
    }

    /// Makes the step that a transaction of the seat owes.
    ///
    /// The refusals are those of the session's `next_step`. After a refusal all is as before.
    pub fn next_step<K: Keeping>(
        &mut self,
        registry: &Registry<A>,
        seat: &mut SeatPart<B, A, K>,
        txn: Txn,
    ) -> Result<(), Error>
        requires registry { registry.now ≡ B.site.table }
        requires unfinished { is_active seat.old.session txn ≡ true → is_unfinished seat.old.session txn ≡ true }
        ensures before { slice_get (locked_of self.old).book seat.old.number ≡ Some seat.old.session }
        ensures foreign { is_active seat.old.session txn ≡ false → (result ≡ Err NoSuchTxn)
            × ((locked_of self.new).core ≡ (locked_of self.old).core) }
        ensures served { is_active seat.old.session txn ≡ true
            → Serves (locked_of self.old).core (Event.Step txn) (reply_by (λ _. Reply.Stepped) result)
            (locked_of self.new).core }
        ensures ok { OnOk result (seat.new.session ≡ stepped seat.old.session (locked_of self.new).core txn) }
        ensures row { OnOk result ((change : Write) → unfinished_of seat.old.session txn ≡ Some change
            → ShowsRow txn change seat.new.session) }
        ensures refused { OnErr result (seat.new.session ≡ seat.old.session) }
        ensures number { seat.new.number ≡ seat.old.number }
        ensures book { (locked_of self.new).book ≡ slice_set
            (locked_of self.old).book seat.old.number seat.new.session }
        ensures pushed { (locked_of self.new).pushed ≡ (locked_of self.old).pushed }
    {
        let theirs = &mut self.book[seat.number];
        registry.compare(&mut seat.half, theirs);
        let stepped = seat.session.next_step(&mut self.core, txn);
        registry.change(&mut seat.half, theirs, &seat.session);
        stepped
    }

    /// Ends a transaction of the seat that has no change left. It is none of the seat's from then on.
    ///
    /// The refusals are those of the session's `end`. After a refusal all is as before.
    pub fn end<K: Keeping>(
        &mut self,
        registry: &Registry<A>,
        seat: &mut SeatPart<B, A, K>,
        txn: Txn,
    ) -> Result<(), Error>
        requires registry { registry.now ≡ B.site.table }
        requires none_left { is_active seat.old.session txn ≡ true
            → HasNoChange (txn_shown (locked_of self.old).core txn) }
        ensures before { slice_get (locked_of self.old).book seat.old.number ≡ Some seat.old.session }
        ensures foreign { is_active seat.old.session txn ≡ false → (result ≡ Err NoSuchTxn)
            × ((locked_of self.new).core ≡ (locked_of self.old).core) }
        ensures served { is_active seat.old.session txn ≡ true
            → Serves (locked_of self.old).core (Event.End txn) (reply_by (λ _. Reply.Ended) result)
            (locked_of self.new).core }
        ensures ok { OnOk result (seat.new.session ≡ ended seat.old.session txn) }
        ensures refused { OnErr result (seat.new.session ≡ seat.old.session) }
        ensures number { seat.new.number ≡ seat.old.number }
        ensures book { (locked_of self.new).book ≡ slice_set
            (locked_of self.old).book seat.old.number seat.new.session }
        ensures pushed { (locked_of self.new).pushed ≡ (locked_of self.old).pushed }
    {
        let ended = seat.session.end(&mut self.core, txn);
        registry.change(&mut seat.half, &mut self.book[seat.number], &seat.session);
        ended
    }

    /// Commits a transaction of the seat: it is none of the active ones from then on, and the commit is the last one of
    /// the seat's session. The record that is made is the transaction's commit, with the ticket's number.
    ///
    /// The refusals are those of the session's `commit`. After a refusal all is as before.
    pub fn commit<K: Keeping>(
        &mut self,
        registry: &Registry<A>,
        seat: &mut SeatPart<B, A, K>,
        txn: Txn,
    ) -> Result<Ticket, Error>
        requires registry { registry.now ≡ B.site.table }
        requires ready { is_active seat.old.session txn ≡ true → is_ready seat.old.session txn ≡ true }
        ensures before { slice_get (locked_of self.old).book seat.old.number ≡ Some seat.old.session }
        ensures foreign { is_active seat.old.session txn ≡ false → (result ≡ Err NoSuchTxn)
            × ((locked_of self.new).core ≡ (locked_of self.old).core) }
        ensures served { is_active seat.old.session txn ≡ true
            → Serves (locked_of self.old).core (Event.Commit txn) (reply_by reply_of_ticket result)
            (locked_of self.new).core }
        ensures ok { IfOk result (λ ticket. seat.new.session ≡ committed seat.old.session txn ticket) }
        ensures recorded { IfOk result (λ ticket. (locked_of self.new).core.outbox ≡ (locked_of self.old).core.outbox
            ++ record { number = ticket.«record»; action = OfTxn txn TxnAction.Commit } ∷ []) }
        ensures refused { OnErr result (seat.new.session ≡ seat.old.session) }
        ensures number { seat.new.number ≡ seat.old.number }
        ensures book { (locked_of self.new).book ≡ slice_set
            (locked_of self.old).book seat.old.number seat.new.session }
        ensures pushed { (locked_of self.new).pushed ≡ (locked_of self.old).pushed }
    {
        let theirs = &mut self.book[seat.number];
        registry.compare(&mut seat.half, theirs);
        let committed = seat.session.commit(&mut self.core, txn);
        registry.change(&mut seat.half, theirs, &seat.session);
        committed
    }

    /// Makes a step of the builder.
    ///
    /// The answers and refusals are those of the core's `build_step`. After a refusal all is as before.
    pub fn build_step(&mut self) -> Result<BuildReply, Error>
        ensures served { Serves (locked_of self.old).core Event.Build (reply_by built result)
            (locked_of self.new).core }
        ensures pushed { (locked_of self.new).pushed ≡ (locked_of self.old).pushed }
        ensures book { (locked_of self.new).book ≡ (locked_of self.old).book }
    {
        self.core.build_step()
    }

    /// Makes a step of the cleaner.
    ///
    /// The answers and refusals are those of the core's `clean_step`. After a refusal all is as before.
    pub fn clean_step(&mut self) -> Result<CleanReply, Error>
        ensures served { Serves (locked_of self.old).core Event.Clean (reply_by cleaner result)
            (locked_of self.new).core }
        ensures pushed { (locked_of self.new).pushed ≡ (locked_of self.old).pushed }
        ensures book { (locked_of self.new).book ≡ (locked_of self.old).book }
    {
        self.core.clean_step()
    }

    /// Moves the cleaner's place over live entries, many at once, as the core's `pass_live` does.
    pub fn pass_live(&mut self, runs: u32)
        ensures passed { PassesLive (locked_of self.old).core runs (locked_of self.new).core }
        ensures pushed { (locked_of self.new).pushed ≡ (locked_of self.old).pushed }
        ensures book { (locked_of self.new).book ≡ (locked_of self.old).book }
    {
        self.core.pass_live(runs);
    }

    /// The row at the place, as it is now, also before its transaction's commit. If a transaction holds the place, that
    /// is the row which its seat's session has for it.
    pub fn get(&self, rid: Rid) -> Option<Row>
        ensures row { result ≡ table.get (locked_of self.now).core.heap.rows rid }
        ensures held { (seat : ℕ) (session : SessionValue) → slice_get (locked_of self.now).book seat ≡ Some session
            → (txn : ℕ) (row : Option RowValue) → ShowsRow txn (record { rid = rid; row = row }) session
            → result ≡ row }
        ensures served { Serves (locked_of self.now).core (Event.Get rid) (Reply.RowIs result)
            (locked_of self.now).core }
    {
        self.core.get(rid)
    }

    /// The places of the rows with this key, by the index.
    ///
    /// The refusals are those of the core's `find`.
    pub fn find(&self, key: Key) -> Result<Vec<Rid, A>, Error>
        ensures { Serves (locked_of self.now).core (Event.Find key) (reply_by (λ rids. Reply.Found rids.items) result)
            (locked_of self.now).core }
    {
        self.core.find(key)
    }

    /// The core, to be read.
    pub fn core(&self) -> &Core<A>
        ensures { value_of result.now ≡ (locked_of self.now).core }
    {
        &self.core
    }

    /// How far the index is.
    pub fn life(&self) -> Life
        ensures life { result ≡ (locked_of self.now).core.life }
        ensures served { Serves (locked_of self.now).core Event.Life (Reply.LifeIs result) (locked_of self.now).core }
    {
        self.core.life()
    }

    /// How many attempts the builder has made since the core was made: each that was placed or
    /// rejected, and no refused one.
    pub fn attempts(&self) -> u64
        ensures { result ≡ (locked_of self.now).core.attempts }
    {
        self.core.attempts()
    }

    /// Whether no transaction is active.
    pub fn is_quiet(&self) -> bool
        ensures { IsTrue result ↔ IsQuiet (locked_of self.now).core }
    {
        self.core.active_txns() == 0
    }

    /// Whether no change of the transaction is left to take back.
    pub fn may_end(&self, txn: Txn) -> bool
        ensures { IsTrue result ↔ HasNoChange (txn_shown (locked_of self.now).core txn) }
    {
        self.core.may_end(txn)
    }
    /// A law: what whoever gets at this finds, whatever the seats, the builder and the cleaner did before. The core and
    /// the sessions agree; the core has replied to some calls, each reply one that was allowed, and holds the history
    /// that they tell; the records pushed and then those that wait are a run, each of which can follow the one before,
    /// and they leave the core's cells over those of the opening.
    pub fn each_hold(&self)
        ensures shared { ∥ IsShared B.site.opened (locked_of self.now).core (locked_of self.now).pushed
            (locked_of self.now).book ∥₁ }
        ensures holds { ∥ ((calls : List (Event × Reply))
            × HasReplied B.site.opened calls (locked_of self.now).pushed (locked_of self.now).core
            × HoldsHistory B.site.opened (items_of no_writes calls) (locked_of self.now).core) ∥₁ }
        ensures run { (g : GeometryValue) → g.pages ≡ B.site.opened.pages
            → ∥ IsRun (run_of g B.site.opened (locked_of self.now)) ∥₁ }
        ensures last { (g : GeometryValue) → (locked_of self.now).core.last
            ≡ end_of (run_of g B.site.opened (locked_of self.now)) }
        ensures cells { (g : GeometryValue)
            → IsCellsOf (locked_of self.now).core (cells_at (run_of g B.site.opened (locked_of self.now))
            (locked_of self.now).core.last) }
        ensures store { (g : GeometryValue) → g.pages ≡ B.site.opened.pages → g.entries ≡ B.site.opened.places
            → IsOfGeometry (locked_of self.now).core g }
    {
        self.core.stands();
    }

    /// All cells, as a chunk with the number of the last record made: they are those that the records pushed and then
    /// those that wait have left.
    ///
    /// The one error is `NoMemory`.
    pub fn copy_whole(&self, alloc: A) -> Result<Chunk<A>, Error>
        ensures number { IfOk result (λ chunk. chunk.number ≡ (locked_of self.now).core.last) }
        ensures whole { IfOk result (λ chunk. (g : GeometryValue)
            → IsAllOf (locked_of self.now).core (cells_at (run_of g B.site.opened (locked_of self.now)) chunk.number)
            chunk.piece) }
        ensures no_memory { IfErr result (λ e. e ≡ NoMemory) }
    {
        self.each_hold();
        self.core.copy_whole(alloc)
    }

    /// The next chunk of an image whose copying has come to this place, with the number of the last record made: a
    /// piece of the cells that the records pushed and then those that wait have left.
    ///
    /// The one error is `NoMemory`.
    pub fn copy_step(&self, alloc: A, place: CopyPlace) -> Result<Chunk<A>, Error>
        ensures number { IfOk result (λ chunk. chunk.number ≡ (locked_of self.now).core.last) }
        ensures piece { IfOk result (λ chunk. (g : GeometryValue)
            → IsPieceOf (locked_of self.now).core (cells_at (run_of g B.site.opened (locked_of self.now)) chunk.number)
            place chunk.piece) }
        ensures no_memory { IfErr result (λ e. e ≡ NoMemory) }
    {
        self.each_hold();
        self.core.copy_step(alloc, place)
    }
}
