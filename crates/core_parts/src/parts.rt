//! What a core consists of, and what its steps do to it.
ghost use Rattle.std.specs.Prelude.{◌≡◌, ◌≢◌, ◌≤◌, ◌<◌, ◌+◌, ◌-◌, ◌++◌, ◌∷◌, [], None, Some, true, false, IfOk, IfErr};
ghost use Rattle.std.specs.Prelude.{IfSome, IfNone, IsErr, OnOk, OnErr, IsTrue};
ghost use Rattle.std.specs.FinMap as map;
ghost use Rattle.record_values.specs.Maps.{set_at};
ghost use Rattle.marked_index.specs.Index.{pledges_used};
ghost use Rattle.record_values.specs.Values.{Place};
ghost use Rattle.records.specs.Spelling.{new_row};
ghost use Rattle.record_values.specs.declared.row.Row.{Row};
ghost use Rattle.records.specs.RecordValue.{txn_has_rows};
ghost use Rattle.model.specs.Pairs as pairs;
ghost use Rattle.core_model.specs.Steps.{places_of};
ghost use Rattle.core_model.specs.Events.{Event, Reply};
ghost use Rattle.txn_table.specs.Table as table;
ghost use Rattle.core_parts.specs.View.{IsSafe, Serves};
ghost use Rattle.core_parts.specs.Moves.{IsReadyOrNone, txn_shown};
ghost use Rattle.core_parts.specs.Private.{IsUnchangeable, first_made, mark_first, HasPlacesLeft, HasNoRecord};
ghost use Rattle.core_parts.specs.Private.{HasRecord, ended, IsAble, IsFreePlace, IsPlaceFor, IsUnroomy, MayStart};
ghost use Rattle.core_parts.specs.Private.{next_change, reserved_of, row_first, row_progress};
ghost use Rattle.core_parts.specs.Private.{HasNextNumber};
ghost use Rattle.txn_table.specs.Sound.{IsSoundTable};
ghost use Rattle.core_parts.specs.Parts.{parts_of};

use crate::change_steps::{marks_old, sets_new};
use core_steps::has_new_entry;
use heap_pages::Heap;
use marked_index::{Cleared, MarkedIndex, Stepped};
use model::Life;
use records::{
    Action, Change, Error, LAST_NUMBER, Mark, PLACES_PER_CHANGE, Pair, Part, Record, RecordNumber,
    Rid, Row, Rows, Txn, TxnAction,
};
use sorted_scan::Scan;
use std::alloc::Allocator;
use std::collections::VecDeque;
use txn_table::{Progress, TxnTable};

/// What a caller waits for: the record that tells of its step, and the number of a commit.
#[derive(Clone, Copy, Debug, PartialEq, Eq)]
pub struct Ticket {
    /// The number of that record.
    pub record: RecordNumber,
    /// The number of the commit since the core was made, from 1; none for a step that is no commit.
    pub commit: Option<u64>,
}

/// An index that was dropped: the record that tells of it, and the entries, in the memory that they have. It is freed
/// where this is let go, in a time that grows with their number.
#[derive(Drop)]
pub struct Detached<A: Allocator> {
    /// The record of the dropping.
    pub ticket: Ticket,
    /// The entries that the index had, live and marked.
    pub entries: Cleared<A>,
}

/// The rows, the active transactions, the index with its builder and cleaner, and the records that wait. What they keep
/// together is told by the core that has them.
#[derive(Drop)]
pub struct CoreParts<A: Allocator> {
    pub alloc: A,
    pub heap: Heap<A>,
    pub txns: TxnTable<A>,
    pub index: MarkedIndex<A>,
    pub life: Life,
    pub scan: Scan<A>,
    // the cleaner's place
    pub cleaned: Option<Pair>,
    // the number of the last record made
    pub last: u64,
    // the builder's attempts since its last checkpoint, the creation or the start
    pub tried: u64,
    // the builder's attempts since the start, as far as they can be counted
    pub attempts: u64,
    // the commits since the start
    pub commits: u64,
    pub outbox: VecDeque<Record, A>,
}

// The number of the record after this one; none where no number is left.
fn number_after(last: u64) -> Option<RecordNumber>
    ensures some { IfSome result (λ n. (n ≡ last + 1) × (last < LAST_NUMBER)) }
    ensures none { IfNone result (LAST_NUMBER ≤ last) }
{
    if last >= LAST_NUMBER {
        return None;
    }
    RecordNumber::new(last + 1)
}

// Whether the places of one more change may be reserved; without an index it needs none.
fn may_reserve<A: Allocator + Clone>(index: &MarkedIndex<A>, indexed: bool) -> bool
    ensures yes { IsTrue result → indexed ≡ true
        → map.len index.now.entries + index.now.pledged + PLACES_PER_CHANGE ≤ index.now.capacity }
    ensures no { result ≡ false → (indexed ≡ true)
        × (index.now.capacity < map.len index.now.entries + index.now.pledged + PLACES_PER_CHANGE) }
{
    if indexed { index.can_pledge() } else { true }
}

// How far a transaction is once the row of this change is set.
pub(crate) fn progress_after_row(change: &Change, indexed: bool) -> Progress
    ensures { result ≡ row_progress (pairs.new_pair indexed change.now) }
{
    if has_new_entry(change, indexed) {
        Progress::OwesEntry
    } else {
        Progress::Ready
    }
}

pub(crate) fn record_of(number: RecordNumber, txn: Txn, action: TxnAction) -> Record
    requires { IsTrue (txn_has_rows action) }
    ensures { result ≡ record { number = number; action = Action.OfTxn txn action } }
{
    let action = Action::OfTxn { txn, action };
    Record { number, action }
}

// Puts the change on its transaction's list, and its record into the outbox; `NoMemory` leaves both
// as before.
fn note<A: Allocator + Copy>(
    txns: &mut TxnTable<A>,
    outbox: &mut VecDeque<Record, A>,
    made: Record,
    txn: Txn,
    change: Change,
) -> Result<(), Error>
    requires { table.touch_refusal txn change.rid txns.old.active ≡ None }
    ensures txns { OnOk result (txns.new ≡ record txns.old
        { active = table.with_state (table.change_noted change) txn txns.old.active }) }
    ensures held { OnOk result (table.holder_of change.rid txns.new.active ≡ Some txn) }
    ensures outbox { OnOk result (outbox.new.items ≡ outbox.old.items ++ made ∷ []) }
    ensures unchanged { OnErr result ((txns.new ≡ txns.old) × (outbox.new.items ≡ outbox.old.items)) }
    ensures no_memory { IfErr result (λ e. e ≡ Error.NoMemory) }
{
    outbox.push_back(made)?;
    if let Err(error) = txns.note(txn, change) {
        outbox.pop_back();
        return Err(error);
    }
    Ok(())
}

// Reserves the places of one more change where there is an index, and notes how far the transaction is.
fn reserve<A: Allocator + Copy>(
    index: &mut MarkedIndex<A>,
    txns: &mut TxnTable<A>,
    indexed: bool,
    txn: Txn,
    progress: Progress,
    reserved: usize,
)
    requires room { indexed ≡ true
        → map.len index.old.entries + index.old.pledged + PLACES_PER_CHANGE ≤ index.old.capacity }
    requires few { reserved ≤ 268435456 }
    ensures index { index.new ≡ record index.old { pledged = index.old.pledged + places_of indexed } }
    ensures txns { txns.new ≡ record txns.old {
      active = table.with_state
          (table.put_at progress (reserved + places_of indexed)) txn txns.old.active;
    } }
    ensures holders { (r : Place) → table.holder_of r txns.new.active ≡ table.holder_of r txns.old.active }
{
    if !indexed {
        txns.put(txn, progress, reserved);
        return;
    }
    let Ok(()) = index.pledge() else {
        unreachable!()
    };
    txns.put(txn, progress, reserved + PLACES_PER_CHANGE as usize);
}

// Reserves the places of one more change and marks the entry of its old row, in one of them where
// there is none; answers how many places are left. `NoMemory` leaves the index as before.
fn mark_in_new_places<A: Allocator + Clone>(
    index: &mut MarkedIndex<A>,
    pair: &Pair,
) -> Result<usize, Error>
    requires { map.len index.old.entries + index.old.pledged + PLACES_PER_CHANGE ≤ index.old.capacity }
    ensures left { IfOk result (λ left. left ≡ PLACES_PER_CHANGE - pledges_used (map.get index.old.entries pair.now)) }
    ensures ok { IfOk result (λ left. index.new ≡ record index.old {
      entries = set_at index.old.entries pair.now (Some Mark.Marked);
      pledged = index.old.pledged + (PLACES_PER_CHANGE - pledges_used (map.get index.old.entries pair.now));
    }) }
    ensures no_memory { IfErr result (λ e. e ≡ Error.NoMemory) }
    ensures unchanged { OnErr result (index.new ≡ index.old) }
{
    let Ok(()) = index.pledge() else {
        unreachable!()
    };
    match index.txn_mark(pair) {
        Ok(Stepped::Added) => Ok(PLACES_PER_CHANGE as usize - 1),
        Ok(Stepped::Found) => Ok(PLACES_PER_CHANGE as usize),
        Err(error) => {
            index.release(PLACES_PER_CHANGE as usize);
            Err(error)
        }
    }
}

// Gives the entry of a pair that has one the mark that it had before, or takes it out, and gives so
// many places back.
fn unmark<A: Allocator + Clone>(
    index: &mut MarkedIndex<A>,
    pair: &Pair,
    before: Option<Mark>,
    left: usize,
)
    requires there { map.get index.old.entries pair.now ≢ None }
    requires left { left ≤ index.old.pledged }
    ensures { index.new ≡ record index.old {
      entries = set_at index.old.entries pair.now before;
      pledged = index.old.pledged - left;
    } }
{
    let Ok(()) = index.load(pair, before) else {
        unreachable!()
    };
    index.release(left);
}

impl<A: Allocator + Copy> CoreParts<A> {
    /// Whether there is an index, be it still being built.
    pub fn indexed(&self) -> bool
        ensures { result ≡ pairs.is_indexed (parts_of self.now).life }
    {
        self.life.is_indexed()
    }

    // How many entry places the transaction has reserved and not used.
    pub(crate) fn reserved(&self, txn: Txn) -> usize
        requires { ∥ IsSafe (parts_of self.now) ∥₁ }
        ensures number { result ≡ reserved_of (txn_shown (parts_of self.now) txn) }
        ensures few { result ≤ 268435456 }
        ensures within { result ≤ (parts_of self.now).index.pledged }
    {
        self.index.stands();
        self.txns.reserved(txn).unwrap_or(0)
    }

    /// The number of the next record. The error is `Exhausted`.
    pub fn next_number(&self) -> Result<RecordNumber, Error>
        ensures number { IfOk result (λ n. n ≡ (parts_of self.now).last + 1) }
        ensures left { OnOk result (HasNextNumber (parts_of self.now)) }
        ensures exhausted { IfErr result (λ e. (e ≡ Error.Exhausted) × (LAST_NUMBER ≤ (parts_of self.now).last)) }
    {
        number_after(self.last).ok_or(Error::Exhausted)
    }

    // The number of the next record, where the places of one more change may be reserved: the errors
    // are `IndexFull`, and then `Exhausted`.
    fn may_add(&self) -> Result<RecordNumber, Error>
        ensures fits { OnOk result (HasPlacesLeft (parts_of self.now)) }
        ensures numbered { IfOk result (λ n. ((parts_of self.now).last < LAST_NUMBER)
            × (n ≡ (parts_of self.now).last + 1)) }
        ensures err { IfErr result (λ e. IsUnroomy (parts_of self.now) e) }
    {
        let has_room = may_reserve(&self.index, self.indexed());
        if !has_room {
            return Err(Error::IndexFull);
        }
        self.next_number()
    }

    /// Where an insertion goes, and the number of its record; or why there is none, but for want of
    /// memory.
    pub fn place_for(&self, txn: Txn) -> Result<(Rid, RecordNumber), Error>
        requires { IsReadyOrNone (txn_shown (parts_of self.now) txn) }
        ensures refused { IfErr result (λ e. (row : Row)
            → Serves (parts_of self.now) (Event.Insert txn row) (Reply.Refused e) (parts_of self.now)) }
        ensures by_state { IfErr result (λ e. e ≢ Error.NoMemory) }
        ensures place { IfOk result (λ p. IsPlaceFor (parts_of self.now) p.0) }
        ensures may { IfOk result (λ p. MayStart (parts_of self.now) txn p.0) }
        ensures number { IfOk result (λ p. p.1 ≡ (parts_of self.now).last + 1) }
    {
        self.txns.check_change(txn)?;
        let rid = self.free_place()?;
        let number = self.may_add()?;
        Ok((rid, number))
    }

    // The least place that is empty and held by nobody. Where nobody holds the least empty one, nor one
    // behind it, the list of the held ones isn't looked through.
    fn free_place(&self) -> Result<Rid, Error>
        ensures place { IfOk result (IsPlaceFor (parts_of self.now)) }
        ensures none { IsErr result → (q : Place) → ¬ IsFreePlace (parts_of self.now) q }
        ensures heap_full { IfErr result (λ e. e ≡ Error.HeapFull) }
    {
        let least_empty = self.heap.least_free(&[])?;
        if self.txns.are_held_before(least_empty) {
            return Ok(least_empty);
        }
        self.heap.least_free(self.txns.held_rows())
    }

    /// The change that the transaction makes next.
    pub fn next_change(&self, txn: Txn, rid: Rid, rows: Rows) -> Change
        requires { IsAble (parts_of self.now) txn }
        ensures { result ≡ next_change (parts_of self.now) txn rid rows }
    {
        let position = match self.txns.changes(txn) {
            Some(changes) => changes.len() as u8,
            None => 0,
        };
        Change {
            position,
            rid,
            rows,
        }
    }

    /// The first step of a change that marks no entry: it sets the row. `NoMemory` leaves all as before.
    pub fn set_first(&mut self, number: RecordNumber, txn: Txn, change: Change) -> Result<(), Error>
        requires safe { ∥ IsSafe (parts_of self.old) ∥₁ }
        requires may { MayStart (parts_of self.old) txn change.rid }
        requires number { number ≡ (parts_of self.old).last + 1 }
        ensures ok { OnOk result (parts_of self.new ≡ row_first (parts_of self.old) txn change) }
        ensures held { OnOk result (table.holder_of change.rid (row_first (parts_of self.old) txn change).txns.active
            ≡ Some txn) }
        ensures unchanged { OnErr result (parts_of self.new ≡ parts_of self.old) }
        ensures no_memory { IfErr result (λ e. e ≡ Error.NoMemory) }
    {
        let indexed = self.indexed();
        let reserved = self.reserved(txn);
        let progress = progress_after_row(&change, indexed);
        let made = record_of(number, txn, sets_new(&change));
        note(&mut self.txns, &mut self.outbox, made, txn, change)?;
        reserve(
            &mut self.index,
            &mut self.txns,
            indexed,
            txn,
            progress,
            reserved,
        );
        self.heap.set(change.rid, change.rows.new());
        self.last += 1;
        Ok(())
    }

    // The first step of a change that marks an entry. `NoMemory` leaves all as before.
    fn mark_first(
        &mut self,
        number: RecordNumber,
        txn: Txn,
        change: Change,
        marked: (Pair, TxnAction),
    ) -> Result<(), Error>
        requires safe { ∥ IsSafe (parts_of self.old) ∥₁ }
        requires may { MayStart (parts_of self.old) txn change.rid }
        requires indexed { pairs.is_indexed (parts_of self.old).life ≡ true }
        requires number { number ≡ (parts_of self.old).last + 1 }
        requires action { marked.1 ≡ TxnAction.Forward Part.OldEntry change }
        requires whole { IsTrue (txn_has_rows marked.1) }
        ensures ok { OnOk result (parts_of self.new ≡ mark_first (parts_of self.old) txn change marked.0) }
        ensures held { OnOk result (table.holder_of change.rid
            (mark_first (parts_of self.old) txn change marked.0).txns.active ≡ Some txn) }
        ensures unchanged { OnErr result (parts_of self.new ≡ parts_of self.old) }
        ensures no_memory { IfErr result (λ e. e ≡ Error.NoMemory) }
    {
        let (pair, action) = marked;
        let reserved = self.reserved(txn);
        let before = self.index.get(&pair);
        let left = mark_in_new_places(&mut self.index, &pair)?;
        let made = record_of(number, txn, action);
        if let Err(error) = note(&mut self.txns, &mut self.outbox, made, txn, change) {
            unmark(&mut self.index, &pair, before, left);
            return Err(error);
        }
        self.txns.put(txn, Progress::OwesRow, reserved + left);
        self.last += 1;
        Ok(())
    }

    /// The first step of a change. `NoMemory` leaves all as before.
    pub fn start(&mut self, number: RecordNumber, txn: Txn, change: Change) -> Result<(), Error>
        requires safe { ∥ IsSafe (parts_of self.old) ∥₁ }
        requires may { MayStart (parts_of self.old) txn change.rid }
        requires number { number ≡ (parts_of self.old).last + 1 }
        ensures ok { OnOk result (parts_of self.new ≡ first_made (parts_of self.old) txn change
            (pairs.old_pair (pairs.is_indexed (parts_of self.old).life) change)) }
        ensures held { OnOk result (table.holder_of change.rid
            (first_made (parts_of self.old) txn change (pairs.old_pair
            (pairs.is_indexed (parts_of self.old).life) change)).txns.active ≡ Some txn) }
        ensures unchanged { OnErr result (parts_of self.new ≡ parts_of self.old) }
        ensures no_memory { IfErr result (λ e. e ≡ Error.NoMemory) }
    {
        match marks_old(&change, self.indexed()) {
            None => self.set_first(number, txn, change),
            Some(marked) => self.mark_first(number, txn, change, marked),
        }
    }

    /// The row that a change finds, and the number of its record; or why it can't be changed, but for
    /// want of memory.
    pub fn row_for(&self, txn: Txn, rid: Rid) -> Result<(Row, RecordNumber), Error>
        requires { IsReadyOrNone (txn_shown (parts_of self.now) txn) }
        ensures found { IfOk result (λ p. map.get (parts_of self.now).heap.rows rid ≡ Some p.0) }
        ensures may { OnOk result (MayStart (parts_of self.now) txn rid) }
        ensures number { IfOk result (λ p. p.1 ≡ (parts_of self.now).last + 1) }
        ensures err { IfErr result (λ e. IsUnchangeable (parts_of self.now) txn rid e) }
    {
        self.txns.check_touch(txn, rid)?;
        let old = self.heap.get(rid).ok_or(Error::NoSuchRow)?;
        let number = self.may_add()?;
        Ok((old, number))
    }

    /// The number of the transaction's next record: the errors are `NoSuchTxn`, and then `Exhausted`.
    pub fn number_for(&self, txn: Txn) -> Result<RecordNumber, Error>
        ensures has { OnOk result (HasRecord (parts_of self.now) txn) }
        ensures number { IfOk result (λ n. n ≡ (parts_of self.now).last + 1) }
        ensures err { IfErr result (λ e. HasNoRecord (parts_of self.now) txn e) }
    {
        if !self.txns.is_active(txn) {
            return Err(Error::NoSuchTxn);
        }
        self.next_number()
    }

    /// Ends the transaction with this record. `NoMemory` leaves all as before.
    pub fn leave(&mut self, number: RecordNumber, txn: Txn, action: TxnAction) -> Result<(), Error>
        requires safe { ∥ IsSafe (parts_of self.old) ∥₁ }
        requires has { HasRecord (parts_of self.old) txn }
        requires number { number ≡ (parts_of self.old).last + 1 }
        requires whole { IsTrue (txn_has_rows action) }
        ensures ok { OnOk result (parts_of self.new ≡ ended (parts_of self.old) txn action) }
        ensures sound { IsSoundTable (parts_of self.old).txns }
        ensures unchanged { OnErr result (parts_of self.new ≡ parts_of self.old) }
        ensures no_memory { IfErr result (λ e. e ≡ Error.NoMemory) }
    {
        self.txns.stands();
        let reserved = self.reserved(txn);
        self.outbox.push_back(record_of(number, txn, action))?;
        let Ok(()) = self.txns.end(txn) else {
            unreachable!()
        };
        self.index.release(reserved);
        self.last += 1;
        Ok(())
    }

    /// The number of the next commit since the start.
    pub fn next_commit(&self) -> u64
        requires safe { ∥ IsSafe (parts_of self.now) ∥₁ }
        requires numbered { (parts_of self.now).last < LAST_NUMBER }
        ensures { result ≡ (parts_of self.now).commits + 1 }
    {
        self.commits + 1
    }
}
