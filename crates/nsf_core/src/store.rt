//! The core.
ghost use Rattle.std.specs.Prelude.{◌≡◌, ◌<◌, ◌≤◌, ◌+◌, ◌-◌, ◌⊎◌, ◌↔◌, [], Err, None, Some, is_some, length};
ghost use Rattle.std.specs.Prelude.{option_and_then, option_map, slice_get, ℕ, IsSome, IsTrue, IfSome, IfOk, IfErr};
ghost use Rattle.std.specs.Prelude.{OnOk, OnErr};
ghost use Rattle.std.specs.FinMap as map;
ghost use Rattle.std.specs.Option.{option_copied};
ghost use Rattle.record_values.specs.Maps.{set_at};
ghost use Rattle.record_values.specs.declared.rid.TheConstants.{SLOTS_PER_PAGE};
ghost use Rattle.record_values.specs.declared.row.Row.{Row};
ghost use Rattle.btree_node.specs.Above.{IsLeastAbove};
ghost use Rattle.btree_node.specs.Below.{IsGreatestBelow};
ghost use Rattle.btree_node.specs.Runs.{IsRunAbove};
ghost use Rattle.core_model.specs.Events.{Event, Reply};
ghost use Rattle.core_parts.specs.View.{IsSafe, Serves};
ghost use Rattle.core_parts.specs.Moves.{OwesOrNone, HasNoChange, IsReadyOrNone, fresh, txn_shown};
ghost use Rattle.core_parts.specs.Replies.{reply_by, reply_of_detached, reply_of_ticket};
ghost use Rattle.core_parts.specs.Detached.{entries_of};
ghost use Rattle.core_parts.specs.Parts.{parts_of};
ghost use Rattle.nsf_core.specs.Loading.{IsLifeInside, IsQuiet, IsPairInside, entry_loaded, life_loaded};
ghost use Rattle.core_parts.specs.Index.{IsAbsent, IsFull};
ghost use Rattle.core_parts.specs.Asked.{IsFine, IsRefused, owed, progress_of};
ghost use Rattle.core_parts.specs.Opening.{opened_of};
ghost use Rattle.nsf_core.specs.Outbox.{HandsOn};
ghost use Rattle.core_model.specs.Histories as opening;
ghost use Rattle.core_model.specs.Histories.{CanOpen};
ghost use Rattle.core_parts.specs.Builds.{built};
ghost use Rattle.core_parts.specs.Cleaning.{cleaner};
ghost use Rattle.core_parts.specs.Passing.{PassesLive};
ghost use Rattle.core_parts.specs.Undoing.{undone_reply};
ghost use Rattle.txn_table.specs.Sound.{IsSoundTable};
ghost use Rattle.txn_table.specs.Table.{holds_rows};
ghost use Rattle.core_parts.specs.Pages.{IsPlaceInside};
ghost use Rattle.record_values.specs.Values.{Place};

use btree_node::Entry;
use core_parts::{
    BuildReply, CleanReply, CoreParts, Detached, Heap, MarkedIndex, Owed, Ticket, Undone,
};
use model::{Life, ROWS_PER_PAGE};
use records::{
    Body, Change, Error, Geometry, Key, LAST_NUMBER, Mark, Pair, Rid, Row, Rows, Sink, Txn,
    TxnAction,
};
use sorted_scan::Scan;
use std::alloc::Allocator;
use std::collections::VecDeque;
use txn_table::{Progress, TxnTable};

// The pair checkpointed last, while the index is built.
fn highest_of(life: &Life) -> Option<Pair>
    ensures { result ≡ opening.highest_of life.now }
{
    match life {
        Life::Building { highest } => *highest,
        Life::Absent | Life::Complete => None,
    }
}

/// The rows, the active transactions, the index with its builder and cleaner, and the records that
/// wait.
#[derive(Drop)]
pub struct Core<A: Allocator> {
    pub(crate) parts: CoreParts<A>,
    ghost safe: { ∥ IsSafe (parts_of parts) ∥₁ },
}

impl<A: Allocator + Copy> Core<A> {
    ghost use Rattle.nsf_core.specs.Value.{value_of};

    /// A core without row, entry, transaction or index; the next record has the number after `base`.
    ///
    /// The memory of all pages is taken here (no clause says so); the one error is `NoMemory`.
    pub fn new(alloc: A, geometry: Geometry, base: u64) -> Result<Self, Error>
        requires { base ≤ LAST_NUMBER }
        ensures made { IfOk result (λ core. value_of core ≡ fresh geometry base) }
        ensures no_memory { IfErr result (λ e. e ≡ Error.NoMemory) }
    {
        let parts = CoreParts {
            alloc,
            heap: Heap::new(alloc, geometry.pages)?,
            txns: TxnTable::new(alloc),
            index: MarkedIndex::new(alloc, geometry),
            life: Life::Absent,
            scan: Scan::new(alloc, None, geometry.pages),
            cleaned: None,
            last: base,
            tried: 0,
            attempts: 0,
            commits: 0,
            outbox: VecDeque::new(alloc),
        };
        Ok(Core { parts })
    }

    /// A law: what the type keeps. The core stands for some state of the machine, each row is at a place of its pages,
    /// and no row is held by two transactions.
    pub fn stands(&self)
        ensures safe { ∥ IsSafe (value_of self.now) ∥₁ }
        ensures rows_inside { (r : Place) → IsSome (map.get (value_of self.now).heap.rows r)
            → IsPlaceInside (value_of self.now).heap r }
        ensures sound { IsSoundTable (value_of self.now).txns }
    {
        self.parts.heap.stands();
        self.parts.txns.stands();
    }

    /// Leaves this row at the place, or none, while no transaction is active. It makes no record.
    pub fn load_row(&mut self, rid: Rid, row: Option<Row>)
        requires quiet { IsQuiet (value_of self.old) }
        requires inside { rid.page < (value_of self.old).heap.pages }
        ensures { value_of self.new ≡ record (value_of self.old) {
          heap = record (value_of self.old).heap { rows = set_at (value_of self.old).heap.rows rid row };
        } }
    {
        self.parts.heap.set(rid, row);
    }

    /// Leaves this entry of the pair, or none, while no transaction is active. It makes no record.
    ///
    /// `IndexFull` where it would add an entry and no place is left, else `NoMemory`, which too comes
    /// only where an entry is to be added. After a refusal the core is as before.
    pub fn load_entry(&mut self, pair: &Pair, mark: Option<Mark>) -> Result<(), Error>
        requires quiet { IsQuiet (value_of self.old) }
        requires inside { IsPairInside (value_of self.old) pair.now }
        ensures ok { OnOk result (value_of self.new ≡ entry_loaded (value_of self.old) pair.now mark) }
        ensures full { (result ≡ Err Error.IndexFull) ↔
            (IsSome mark × IsAbsent (value_of self.old).index.entries pair.now × IsFull (value_of self.old).index) }
        ensures refused { IfErr result (λ e. IsSome mark × IsAbsent (value_of self.old).index.entries pair.now
            × ((e ≡ Error.IndexFull) ⊎ (e ≡ Error.NoMemory))) }
        ensures unchanged { OnErr result (value_of self.new ≡ value_of self.old) }
    {
        self.parts.index.load(pair, mark)
    }

    /// Leaves the index this far while no transaction is active; a build goes on above the pair checkpointed
    /// last. It makes no record.
    pub fn load_life(&mut self, life: Life)
        requires quiet { IsQuiet (value_of self.old) }
        requires inside { IsLifeInside (value_of self.old) life }
        ensures { value_of self.new ≡ life_loaded (value_of self.old) life }
    {
        self.parts.scan = Scan::new(self.parts.alloc, highest_of(&life), self.parts.heap.pages());
        self.parts.tried = 0;
        self.parts.life = life;
    }

    /// The row at the place, as it is now, also before its transaction's commit.
    pub fn get(&self, rid: Rid) -> Option<Row>
        ensures row { result ≡ map.get (value_of self.now).heap.rows rid }
        ensures serves { Serves (value_of self.now) (Event.Get rid) (Reply.RowIs result) (value_of self.now) }
    {
        self.parts.heap.get(rid)
    }

    /// The rows of a page, by their slots: none where a slot is empty. `None` only where no slot of the page has a row.
    pub fn page_slots(&self, page: u32) -> Option<&[Option<Row>; ROWS_PER_PAGE]>
        ensures slots { IfSome result (λ rows. (slot : ℕ) → slot < SLOTS_PER_PAGE
            → slice_get rows.now slot ≡ Some (map.get (value_of self.now).heap.rows
            (record { page = page; slot = slot }))) }
        ensures none { result ≡ None → (slot : ℕ) → slot < SLOTS_PER_PAGE
            → map.get (value_of self.now).heap.rows (record { page = page; slot = slot }) ≡ None }
    {
        self.parts.heap.page_slots(page)
    }

    /// How far the index is.
    pub fn life(&self) -> Life
        ensures life { result ≡ (value_of self.now).life }
        ensures serves { Serves (value_of self.now) Event.Life (Reply.LifeIs result) (value_of self.now) }
    {
        self.parts.life
    }

    /// Whether a core may begin with the rows, the entries and the index's life that this one holds: each visible entry
    /// is the pair of a row; the pair of each row is visible, as far as the index is built, and nowhere marked; without
    /// an index there is no entry; and all of it is of the geometry.
    ///
    /// It tells of what is held now, be it of active transactions: where one is, it may be false of a sound core, since
    /// an entry is owed once a row is set, and stays marked once its row was. With none active it is what a restart
    /// would begin with.
    ///
    /// It goes over every entry and every row once. With a complete index it takes a byte for each place of a row
    /// meanwhile. Where that is refused, and with another index, it looks for each row in the index. (No clause says
    /// so.)
    pub fn can_open(&self) -> bool
        ensures { IsTrue result ↔ CanOpen (opened_of (value_of self.now)) }
    {
        if self.is_seen_to_fit() {
            return true;
        }
        self.parts.entries_may_stand() && self.parts.rows_are_shown()
    }

    /// The number of the last record made, or of the last one before the core was made.
    pub fn last(&self) -> u64
        ensures { result ≡ (value_of self.now).last }
    {
        self.parts.last
    }

    /// How many attempts the builder has made since the core was made: each that was placed or
    /// rejected, and no refused one. It never falls, and stays at 2^64 - 1.
    pub fn attempts(&self) -> u64
        ensures { result ≡ (value_of self.now).attempts }
    {
        self.parts.attempts
    }

    /// The places of the live entries of a key, ascending: those of the rows with this key, committed
    /// or not.
    ///
    /// `NoIndex`, then `NotBuilt` while the index is built, and `NoMemory`.
    pub fn find(&self, key: Key) -> Result<Vec<Rid, A>, Error>
        ensures { Serves (value_of self.now) (Event.Find key) (reply_by (λ rids. Reply.Found rids.items) result)
            (value_of self.now) }
    {
        match self.parts.life {
            Life::Absent => Err(Error::NoIndex),
            Life::Building { .. } => Err(Error::NotBuilt),
            Life::Complete => self.parts.live_of(key),
        }
    }

    /// The least entry whose pair comes after the given one, or the least of all.
    pub fn above(&self, pair: Option<&Pair>) -> Option<(Pair, Mark)>
        ensures { IsLeastAbove (value_of self.now).index.entries (option_copied pair.entry) result }
    {
        self.parts.index.above(pair)
    }

    /// The greatest entry whose pair comes before the given one, or the greatest of all.
    pub fn below(&self, pair: Option<&Pair>) -> Option<(Pair, Mark)>
        ensures { IsGreatestBelow (value_of self.now).index.entries (option_copied pair.entry) result }
    {
        self.parts.index.below(pair)
    }

    /// The next entries above the pair, or the first of all: some that stand together, in order. There is none only
    /// where none is above.
    pub fn run_above(&self, pair: Option<&Pair>) -> &[Entry]
        ensures run { IsRunAbove (value_of self.now).index.entries (option_copied pair.entry) result.now }
        ensures none { result.now ≡ []
            → IsLeastAbove (value_of self.now).index.entries (option_copied pair.entry) None }
    {
        self.parts.index.run_above(pair)
    }

    /// What is left of a run of entries above the pair, or the next run where nothing is left. There is none only where
    /// none is above.
    pub fn left_or_next<'a>(&'a self, run: &'a [Entry], above: Option<Pair>) -> &'a [Entry]
        requires run { IsRunAbove (value_of self.now).index.entries above run.now }
        ensures run { IsRunAbove (value_of self.now).index.entries above result.now }
        ensures none { result.now ≡ [] → IsLeastAbove (value_of self.now).index.entries above None }
    {
        if run.is_empty() {
            self.run_above(above.as_ref())
        } else {
            run
        }
    }

    /// Whether the transaction has begun, and neither committed nor ended.
    pub fn is_active(&self, txn: Txn) -> bool
        ensures { result ≡ is_some (txn_shown (value_of self.now) txn) }
    {
        self.parts.txns.is_active(txn)
    }

    /// Whether the transaction may begin a change or commit: it is active, owes no step, and isn't
    /// rolling back.
    pub fn ready(&self, txn: Txn) -> bool
        ensures { IsTrue result ↔ (progress_of (value_of self.now) txn ≡ Some Progress.Ready) }
    {
        self.parts.txns.progress(txn) == Some(Progress::Ready)
    }

    /// The step of its newest change that the transaction owes; none where it owes none, is rolling
    /// back, or isn't active.
    pub fn owes(&self, txn: Txn) -> Option<Owed>
        ensures { result ≡ option_and_then owed (progress_of (value_of self.now) txn) }
    {
        match self.parts.txns.progress(txn)? {
            Progress::OwesRow => Some(Owed::RowSet),
            Progress::OwesEntry => Some(Owed::KeyPut),
            Progress::Ready | Progress::Rolling | Progress::UndoesRow | Progress::UndoesEntry =>
                None,
        }
    }

    /// Whether no change of the transaction is left to take back; also of one that isn't active.
    pub fn may_end(&self, txn: Txn) -> bool
        ensures { IsTrue result ↔ HasNoChange (txn_shown (value_of self.now) txn) }
    {
        match self.parts.txns.changes(txn) {
            Some(changes) => changes.is_empty(),
            None => true,
        }
    }

    /// Why `begin` would be refused, but for want of memory: `TooManyTxns`.
    pub fn check_begin(&self) -> Result<(), Error>
        ensures refused { IfErr result (IsRefused (value_of self.now) Event.Begin) }
        ensures fine { OnOk result (IsFine (value_of self.now) Event.Begin) }
    {
        self.parts.txns.may_begin()?;
        Ok(())
    }

    /// Why `start_insert` would be refused, but for want of memory; the row doesn't matter.
    ///
    /// The errors are those of `start_insert`, in that order, but `NoMemory`.
    pub fn check_insert(&self, txn: Txn) -> Result<(), Error>
        requires { IsReadyOrNone (txn_shown (value_of self.now) txn) }
        ensures refused { IfErr result (λ e. (row : Row) → IsRefused (value_of self.now) (Event.Insert txn row) e) }
        ensures fine { OnOk result ((row : Row) → IsFine (value_of self.now) (Event.Insert txn row)) }
    {
        self.parts.place_for(txn)?;
        Ok(())
    }

    /// Why `start_delete` and `start_update` of the row at the place would be refused, but for want of
    /// memory; the new row doesn't matter.
    ///
    /// The errors are those of `start_delete`, in that order, but `NoMemory`.
    pub fn check_change(&self, txn: Txn, rid: Rid) -> Result<(), Error>
        requires { IsReadyOrNone (txn_shown (value_of self.now) txn) }
        ensures refused_delete { IfErr result (IsRefused (value_of self.now) (Event.Delete txn rid)) }
        ensures refused_update { IfErr result (λ e. (row : Row)
            → IsRefused (value_of self.now) (Event.Update txn rid row) e) }
        ensures fine_delete { OnOk result (IsFine (value_of self.now) (Event.Delete txn rid)) }
        ensures fine_update { OnOk result ((row : Row) → IsFine (value_of self.now) (Event.Update txn rid row)) }
    {
        self.parts.row_for(txn, rid)?;
        Ok(())
    }

    /// Why `commit` would be refused, but for want of memory: `NoSuchTxn`, then `Exhausted`.
    pub fn check_commit(&self, txn: Txn) -> Result<(), Error>
        requires { IsReadyOrNone (txn_shown (value_of self.now) txn) }
        ensures refused { IfErr result (IsRefused (value_of self.now) (Event.Commit txn)) }
        ensures fine { OnOk result (IsFine (value_of self.now) (Event.Commit txn)) }
    {
        self.parts.number_for(txn)?;
        Ok(())
    }

    /// How many pages there are for rows. Each row is at a place of them.
    pub fn pages(&self) -> u32
        ensures number { result ≡ (value_of self.now).heap.pages }
        ensures rows_inside { (r : Place) → IsSome (map.get (value_of self.now).heap.rows r)
            → IsPlaceInside (value_of self.now).heap r }
        ensures safe { ∥ IsSafe (value_of self.now) ∥₁ }
    {
        self.parts.heap.pages()
    }

    /// The active transaction at this place in the order of beginning, from 0.
    pub fn txn_at(&self, index: usize) -> Option<Txn>
        ensures { result ≡ option_map (λ e. e.0) (slice_get (value_of self.now).txns.active index) }
    {
        self.parts.txns.txn_at(index)
    }

    /// The changes that an active transaction may still take back, oldest first.
    pub fn changes(&self, txn: Txn) -> Option<&[Change]>
        ensures { option_map (λ changes. changes.now) result ≡
            option_map (λ x. x.changes) (txn_shown (value_of self.now) txn) }
    {
        self.parts.txns.changes(txn)
    }

    /// Whether the transaction is active and holds a row.
    pub fn holds_rows(&self, txn: Txn) -> bool
        ensures { result ≡ holds_rows (txn_shown (value_of self.now) txn) }
    {
        self.parts.txns.holds_rows(txn)
    }

    /// How many transactions are active.
    pub fn active_txns(&self) -> usize
        ensures number { result ≡ length (value_of self.now).txns.active }
        ensures sound { IsSoundTable (value_of self.now).txns }
    {
        self.parts.txns.len()
    }

    /// How many records wait to be handed on.
    pub fn waiting(&self) -> usize
        ensures { result ≡ length (value_of self.now).outbox }
    {
        self.parts.outbox.len()
    }

    /// Begins a transaction, which makes no record. Their numbers rise from 1.
    ///
    /// `TooManyTxns` where 16 are active, then `NoMemory`. After a refusal the core is as before.
    pub fn begin(&mut self) -> Result<Txn, Error>
        ensures { Serves (value_of self.old) Event.Begin (reply_by Reply.Txn result) (value_of self.new) }
    {
        self.parts.txns.begin()
    }

    /// Inserts a row at the least place that is empty and held by nobody, and answers the place: the
    /// first step, which sets the row. While there is an index, the row's entry is owed.
    ///
    /// `NoSuchTxn`, then `TooManyChanges` where 64 are on its list, `HeapFull` where there is no such
    /// place, `IndexFull` where the places of one more change can't be reserved, `Exhausted` where no
    /// number is left for a record, and `NoMemory`. After a refusal the core is as before.
    pub fn start_insert(&mut self, txn: Txn, key: Key, body: Body) -> Result<Rid, Error>
        requires { IsReadyOrNone (txn_shown (value_of self.old) txn) }
        ensures { Serves (value_of self.old) (Event.Insert txn (record { key = key; body = body }))
            (reply_by Reply.Rid result) (value_of self.new) }
    {
        let (rid, number) = self.parts.place_for(txn)?;
        let new = Row { key, body };
        let change = self.parts.next_change(txn, rid, Rows::Inserted { new });
        self.parts.set_first(number, txn, change)?;
        Ok(rid)
    }

    /// Deletes the row at the place: the first step, which marks the row's entry, and without an index
    /// takes the row out. While there is an index, the row is owed.
    ///
    /// `NoSuchTxn`, then `TooManyChanges` where 64 are on its list, `RowBusy` where another active
    /// transaction holds the row, `NoSuchRow` where there is none, `IndexFull` where the places of one
    /// more change can't be reserved, `Exhausted` where no number is left for a record, and
    /// `NoMemory`. After a refusal the core is as before.
    pub fn start_delete(&mut self, txn: Txn, rid: Rid) -> Result<(), Error>
        requires { IsReadyOrNone (txn_shown (value_of self.old) txn) }
        ensures { Serves (value_of self.old) (Event.Delete txn rid) (reply_by (λ _. Reply.Stepped) result)
            (value_of self.new) }
    {
        let (old, number) = self.parts.row_for(txn, rid)?;
        let change = self.parts.next_change(txn, rid, Rows::Deleted { old });
        self.parts.start(number, txn, change)?;
        Ok(())
    }

    /// Puts another row in place of the row at the place: the first step. With an index and another
    /// key it marks the old row's entry, and the row is owed, and then the new row's entry; else it
    /// sets the row.
    ///
    /// The refusals are those of `start_delete`.
    pub fn start_update(&mut self, txn: Txn, rid: Rid, key: Key, body: Body) -> Result<(), Error>
        requires { IsReadyOrNone (txn_shown (value_of self.old) txn) }
        ensures { Serves (value_of self.old) (Event.Update txn rid (record { key = key; body = body }))
            (reply_by (λ _. Reply.Stepped) result) (value_of self.new) }
    {
        let (old, number) = self.parts.row_for(txn, rid)?;
        let new = Row { key, body };
        let change = self.parts.next_change(txn, rid, Rows::Updated { old, new });
        self.parts.start(number, txn, change)?;
        Ok(())
    }

    /// Makes the step that the transaction owes: it sets the row, or puts the new row's entry.
    ///
    /// The refusals are those of `end`.
    pub fn next_step(&mut self, txn: Txn) -> Result<(), Error>
        requires { OwesOrNone (txn_shown (value_of self.old) txn) }
        ensures { Serves (value_of self.old) (Event.Step txn) (reply_by (λ _. Reply.Stepped) result)
            (value_of self.new) }
    {
        let number = self.parts.number_for(txn)?;
        let change = self.parts.owed_change(txn);
        self.parts.carry_on(number, txn, change)
    }

    /// Makes the next step that takes the transaction's newest change back, or answers that no change
    /// is left. With an index such a step marks the entry of the new row, sets the row as it was
    /// before, and makes the entry of the old row live again, as far as the change has them; with the
    /// last step the change is off the list. The row stays held, and the places stay reserved. From the
    /// first call on the transaction is rolling back: it makes no other step and doesn't commit.
    ///
    /// `NoSuchTxn`, and where a change is left `Exhausted`, where no number is left for a record, and
    /// `NoMemory`; never for want of room. After a refusal the core is as before.
    pub fn undo_step(&mut self, txn: Txn) -> Result<Undone, Error>
        ensures { Serves (value_of self.old) (Event.Undo txn) (reply_by undone_reply result) (value_of self.new) }
    {
        let Some(change) = self.parts.txns.newest(txn) else {
            return self.parts.undo_nothing(txn);
        };
        let number = self.parts.number_for(txn)?;
        self.parts.take_back(number, txn, change)?;
        Ok(Undone::Step)
    }

    /// Ends a transaction that has no change left, which is then no longer active, and holds no row.
    ///
    /// `NoSuchTxn`, then `Exhausted` where no number is left for a record, and `NoMemory`. After a
    /// refusal the core is as before.
    pub fn end(&mut self, txn: Txn) -> Result<(), Error>
        requires { HasNoChange (txn_shown (value_of self.old) txn) }
        ensures { Serves (value_of self.old) (Event.End txn) (reply_by (λ _. Reply.Ended) result) (value_of self.new) }
    {
        let number = self.parts.number_for(txn)?;
        self.parts.leave(number, txn, TxnAction::End)?;
        Ok(())
    }

    /// Commits the transaction, which is then no longer active, and holds no row. The ticket has the
    /// number of the record, and the commit's since the core was made, from 1.
    ///
    /// The refusals are those of `end`.
    pub fn commit(&mut self, txn: Txn) -> Result<Ticket, Error>
        requires { IsReadyOrNone (txn_shown (value_of self.old) txn) }
        ensures serves { Serves (value_of self.old) (Event.Commit txn) (reply_by reply_of_ticket result)
            (value_of self.new) }
        ensures record_number { IfOk result (λ t. t.record ≡ (value_of self.old).last + 1) }
        ensures commit_number { IfOk result (λ t. t.commit ≡ Some ((value_of self.old).commits + 1)) }
    {
        let record = self.parts.number_for(txn)?;
        let commit = self.parts.next_commit();
        self.parts.leave(record, txn, TxnAction::Commit)?;
        self.parts.commits = commit;
        Ok(Ticket {
            record,
            commit: Some(commit),
        })
    }

    /// Creates the index, of which nothing is there yet: it is to be built.
    ///
    /// `IndexExists`, then `TxnsActive` where a transaction is active, `Exhausted` where no number is
    /// left for a record, and `NoMemory`. After a refusal the core is as before.
    pub fn create_index(&mut self) -> Result<Ticket, Error>
        ensures { Serves (value_of self.old) Event.Create (reply_by reply_of_ticket result) (value_of self.new) }
    {
        self.parts.may_create()?;
        self.parts.create()
    }

    /// Drops the index, be it complete or not: no entry is left, and nothing of its builder and its cleaner. It may be
    /// created again.
    ///
    /// `NoIndex`, then `TxnsActive` where a transaction is active, `Exhausted` where no number is left for a record,
    /// and `NoMemory`. After a refusal the core is as before.
    pub fn drop_index(&mut self) -> Result<Ticket, Error>
        ensures { Serves (value_of self.old) Event.Drop (reply_by reply_of_ticket result) (value_of self.new) }
    {
        Ok(self.detach_index()?.ticket)
    }

    /// Drops the index as `drop_index` does, and answers the entries that it had, in the memory that they have (no
    /// clause says so): the caller lets them go where it has the time.
    pub fn detach_index(&mut self) -> Result<Detached<A>, Error>
        ensures serves { Serves (value_of self.old) Event.Drop (reply_by reply_of_detached result) (value_of self.new) }
        ensures taken { IfOk result (λ d. entries_of d ≡ (value_of self.old).index.entries) }
    {
        self.parts.may_drop()?;
        self.parts.take_away()
    }

    /// Makes a step of the builder, the first of these that applies. Where the index is complete:
    /// `Idle`. Where 64 attempts were made since the last checkpoint, the creation or the start: a
    /// checkpoint of the pair attempted last, `Marked`. Where the scan has a page to take: the next one,
    /// `Scanned`. Where it has a pair: an attempt of the least, which is placed where it has no entry,
    /// and else rejected. Else the index is complete, `Done`.
    ///
    /// `NoIndex`, then `IndexFull` where a pair that has no entry meets no free place, `Exhausted` where
    /// a record is to be made and no number is left, and `NoMemory`. After a refusal the core is as
    /// before, and the pair comes again.
    pub fn build_step(&mut self) -> Result<BuildReply, Error>
        ensures { Serves (value_of self.old) Event.Build (reply_by built result) (value_of self.new) }
    {
        match self.parts.life {
            Life::Absent => Err(Error::NoIndex),
            Life::Complete => Ok(BuildReply::Idle),
            Life::Building { .. } => self.parts.build_on(),
        }
    }

    /// Makes a step of the cleaner, which looks at the least entry above its place. Where there is none,
    /// it begins anew, `Wrapped`. Else its place becomes that pair. An entry that is marked, whose row
    /// nobody holds and which, while the index is built, lies up to the last checkpoint's pair, is taken
    /// out, `Cleaned`; any other is left, `Kept`.
    ///
    /// `NoIndex`, then `Exhausted` where an entry is to be taken out and no number is left for its
    /// record, and `NoMemory`. After a refusal the core is as before.
    pub fn clean_step(&mut self) -> Result<CleanReply, Error>
        ensures { Serves (value_of self.old) Event.Clean (reply_by cleaner result) (value_of self.new) }
    {
        if !self.parts.indexed() {
            return Err(Error::NoIndex);
        }
        let Some(entry) = self.parts.next_entry() else {
            self.parts.cleaned = None;
            return Ok(CleanReply::Wrapped);
        };
        self.parts.clean_at(entry)
    }

    /// Moves the cleaner's place over live entries, as steps of it that keep them would: over so many at least, or over
    /// all up to the first that isn't live. Without an index it does nothing.
    ///
    /// It goes over so many leaves of the tree at most, a leaf at a time, and takes no memory (no clause says so).
    pub fn pass_live(&mut self, runs: u32)
        ensures { PassesLive (value_of self.old) runs (value_of self.new) }
    {
        if !self.parts.indexed() {
            return;
        }
        self.parts.pass_live(runs);
    }

    /// Hands the records that wait on to the sink, in the order of their making. One that the sink
    /// refuses stays, and so do those behind it. Nothing else changes.
    ///
    /// `most`: no more stay than those for which the sink had no room.
    pub fn take_outbox<S: Sink>(&mut self, sink: &mut S)
        ensures handed { HandsOn (value_of self.old) (value_of self.new) (S.taken sink.old) (S.taken sink.new) }
        ensures most { length (value_of self.new).outbox ≤ length (value_of self.old).outbox - S.room sink.old }
        ensures place { S.place sink.new ≡ S.place sink.old }
    {
        while let Some(&next) = self.parts.outbox.front() {
            if sink.take(next).is_err() {
                return;
            }
            self.parts.outbox.pop_front();
        }
    }
}
