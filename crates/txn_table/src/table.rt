//! The table of the active transactions.
ghost use Rattle.std.specs.Prelude.{◌≡◌, ◌≢◌, ◌+◌, ◌<◌, ◌≤◌, ◌↔◌, ◌⊎◌, ℕ, [], length, Contains, Some};
ghost use Rattle.std.specs.Prelude.{None, is_some, slice_get, option_map, option_and_then, IsTrue, IsErr, IsSome, IfOk};
ghost use Rattle.std.specs.Prelude.{IfErr, OnOk, OnErr, IsOkUnless};
ghost use Rattle.std.specs.Option.{option_copied};
ghost use Rattle.std.specs.Result.{result_err};
ghost use Rattle.record_values.specs.Values.{Place};
ghost use Rattle.txn_table.specs.Table.{TxnState, holds_rows, holder_of, state_of, with_state, with_next, without};
ghost use Rattle.txn_table.specs.Table.{fresh_txn, change_noted, without_last, put_at, last_change};
ghost use Rattle.txn_table.specs.Places.{place_of};
ghost use Rattle.txn_table.specs.Held.{AreHeldBefore};
ghost use Rattle.txn_table.specs.Table.{change_refusal, touch_refusal};
ghost use Rattle.txn_table.specs.Sound.{IsSoundTable};

use crate::active::ActiveTxn;
use crate::held::HeldRows;
use crate::progress::Progress;
use indexmap::IndexMap;
use records::{Change, Error, Rid, TXNS_MAX, Txn};
use std::alloc::Allocator;
use std::hash::{BuildHasherDefault, FoldHasher};
use std::marker::Model;

/// The active transactions in the order in which they began, each with the changes that it may
/// still take back and the rows that it holds.
///
/// A transaction holds each row that it touched, from the change that touched it first to the
/// transaction's end, also after its changes were taken back. No row is held by two. A transaction
/// is rolling back from the first time that a change of it is to be taken back.
#[derive(Drop)]
pub struct TxnTable<A: Allocator> {
    alloc: A,
    active: IndexMap<Txn, ActiveTxn<A>, BuildHasherDefault<FoldHasher>, A>,
    held: HeldRows<A>,
    // the one that ended last, whose memory is used again
    spare: Option<ActiveTxn<A>>,
    begun: u64,
}

impl<A: Allocator> Model for TxnTable<A> {
    ghost use Rattle.txn_table.specs.Table.{TableValue};
    ghost use Rattle.txn_table.specs.Sound.{IsTableKept};

    ghost Value = { TableValue };

    ghost view = { λ t. record { active = t.active.entries; begun = t.begun } };

    ghost invariant = { λ t. IsTableKept (record { active = t.active.entries; begun = t.begun }) t.held };
}

// The place of a transaction; where it isn't active, the one behind all. They are so few that each is looked at.
fn place_of<A: Allocator>(
    active: &IndexMap<Txn, ActiveTxn<A>, BuildHasherDefault<FoldHasher>, A>,
    txn: Txn,
) -> usize
    ensures { result ≡ place_of txn active.now.entries }
{
    for i in 0..active.len() {
        let Some((number, _)) = active.get_index(i) else {
            unreachable!()
        };
        if txn == *number {
            return i;
        }
    }
    active.len()
}

// A transaction that has done nothing, in the memory of the one that ended last, if it is still there.
fn fresh<A: Allocator + Copy>(alloc: A, spare: &mut Option<ActiveTxn<A>>) -> ActiveTxn<A>
    ensures { result ≡ fresh_txn }
{
    match spare.take() {
        Some(ended) => ended.emptied(),
        None => ActiveTxn::new(alloc),
    }
}

impl<A: Allocator + Copy> TxnTable<A> {
    /// A table without transactions. The first to begin has number 1.
    pub fn new(alloc: A) -> Self
        ensures { result ≡ record { active = []; begun = 0 } }
    {
        TxnTable {
            alloc,
            active: IndexMap::new(alloc),
            held: HeldRows::new(alloc),
            spare: None,
            begun: 0,
        }
    }

    /// A law: of what the type keeps, that no row is held by two transactions, and the numbers rise.
    pub fn stands(&self)
        ensures { IsSoundTable self.now }
    {
        // a look at a field, so that what the type keeps is at hand
        let _ = &self.active;
    }

    /// How many transactions are active.
    pub fn len(&self) -> usize
        ensures number { result ≡ length self.now.active }
        ensures sound { IsSoundTable self.now }
    {
        self.active.len()
    }

    /// Whether no transaction is active.
    pub fn is_empty(&self) -> bool
        ensures { IsTrue result ↔ (self.now.active ≡ []) }
    {
        self.active.is_empty()
    }

    // The active transaction with this number. They are so few that it is found by looking at each.
    fn state(&self, txn: Txn) -> Option<&ActiveTxn<A>>
        ensures { option_copied result ≡ state_of txn self.now.active }
    {
        for i in 0..self.len() {
            let Some((number, active)) = self.active.get_index(i) else {
                unreachable!()
            };
            if txn == *number {
                return Some(active);
            }
        }
        None
    }

    /// Whether the transaction is active.
    pub fn is_active(&self, txn: Txn) -> bool
        ensures { result ≡ is_some (state_of txn self.now.active) }
    {
        self.state(txn).is_some()
    }

    /// The active transaction at this place in the order of beginning, from 0.
    pub fn txn_at(&self, index: usize) -> Option<Txn>
        ensures { result ≡ option_map (λ e. e.0) (slice_get self.now.active index) }
    {
        match self.active.get_index(index) {
            Some((txn, _)) => Some(*txn),
            None => None,
        }
    }

    /// Whether the transaction is active and holds a row.
    pub fn holds_rows(&self, txn: Txn) -> bool
        ensures { result ≡ holds_rows (state_of txn self.now.active) }
    {
        match self.state(txn) {
            Some(active) => active.holds_rows(),
            None => false,
        }
    }

    /// The changes that an active transaction may still take back, oldest first.
    pub fn changes(&self, txn: Txn) -> Option<&[Change]>
        ensures { option_map (λ cs. cs.now) result ≡
            option_map (λ s. s.changes) (state_of txn self.now.active) }
    {
        match self.state(txn) {
            Some(active) => Some(active.changes()),
            None => None,
        }
    }

    /// The change that an active transaction takes back first: its last one.
    pub fn newest(&self, txn: Txn) -> Option<Change>
        ensures { result ≡ option_and_then last_change (state_of txn self.now.active) }
    {
        self.state(txn)?.newest()
    }

    /// How far an active transaction is.
    pub fn progress(&self, txn: Txn) -> Option<Progress>
        ensures { result ≡ option_map (λ s. s.progress) (state_of txn self.now.active) }
    {
        match self.state(txn) {
            Some(active) => Some(active.progress()),
            None => None,
        }
    }

    /// How many entry places an active transaction has reserved and not used.
    pub fn reserved(&self, txn: Txn) -> Option<usize>
        ensures { result ≡ option_map (λ s. s.reserved) (state_of txn self.now.active) }
    {
        match self.state(txn) {
            Some(active) => Some(active.reserved()),
            None => None,
        }
    }

    /// The transaction is so far from now on, and has so many places. One that is not active stays so.
    pub fn put(&mut self, txn: Txn, progress: Progress, reserved: usize)
        ensures rest { self.new ≡ record self.old {
          active = with_state
              (put_at progress reserved) txn self.old.active;
        } }
        ensures holders { (r : Place) → holder_of r self.new.active ≡ holder_of r self.old.active }
    {
        let i = place_of(&self.active, txn);
        let Some(active) = self.active.get_index_mut(i) else {
            return;
        };
        active.put(progress, reserved);
    }

    /// The transaction that holds the row. There is at most one.
    pub fn holder(&self, rid: Rid) -> Option<Txn>
        ensures holder { result ≡ holder_of rid self.now.active }
        ensures only { (txn : ℕ) (s : TxnState) →
            state_of txn self.now.active ≡ Some s → Contains s.rows rid → result ≡ Some txn }
    {
        for i in 0..self.len() {
            let Some((txn, active)) = self.active.get_index(i) else {
                unreachable!()
            };
            if active.holds(rid) {
                return Some(*txn);
            }
        }
        None
    }

    /// Whether the row comes behind each that somebody holds: then nobody holds it. It looks through no list.
    pub fn are_held_before(&self, rid: Rid) -> bool
        ensures before { IsTrue result ↔ AreHeldBefore rid self.now.active }
        ensures unheld { IsTrue result → holder_of rid self.now.active ≡ None }
    {
        self.held.are_before(rid)
    }

    /// The rows that somebody holds: a place for a new row is none of these. It takes no memory.
    pub fn held_rows(&self) -> &[Rid]
        ensures { (r : Place) → Contains result.now r ↔ IsSome (holder_of r self.now.active) }
    {
        self.held.as_slice()
    }

    /// The number of the transaction that begins next, or why none does, but for want of memory.
    ///
    /// `TooManyTxns` comes where `TXNS_MAX` are active, and where the last number, 2^64 - 1, was
    /// given.
    pub fn may_begin(&self) -> Result<Txn, Error>
        ensures number { IfOk result (λ txn. txn ≡ self.now.begun + 1) }
        ensures room { OnOk result (length self.now.active < TXNS_MAX) }
        ensures left { OnOk result (self.now.begun < u64.MAX) }
        ensures refused { IfErr result (λ e. (e ≡ Error.TooManyTxns)
            × ((TXNS_MAX ≤ length self.now.active) ⊎ (u64.MAX ≤ self.now.begun))) }
    {
        if self.len() >= TXNS_MAX {
            return Err(Error::TooManyTxns);
        }
        let Some(number) = self.begun.checked_add(1) else {
            return Err(Error::TooManyTxns);
        };
        let Some(txn) = Txn::new(number) else {
            unreachable!()
        };
        Ok(txn)
    }

    /// Begins the next transaction. The numbers rise from 1, and none comes again.
    ///
    /// The errors are those of `may_begin`, and then `NoMemory`. After an error the table is as
    /// before, and no number is used up.
    pub fn begin(&mut self) -> Result<Txn, Error>
        ensures full { TXNS_MAX ≤ length self.old.active → result ≡ Err Error.TooManyTxns }
        ensures spent { u64.MAX ≤ self.old.begun → result ≡ Err Error.TooManyTxns }
        ensures room { length self.old.active < TXNS_MAX → self.old.begun < u64.MAX →
            IsOkUnless result Error.NoMemory }
        ensures number { IfOk result (λ txn. txn ≡ self.old.begun + 1) }
        ensures ok { OnOk result (self.new ≡ with_next self.old) }
        ensures err { OnErr result (self.new ≡ self.old) }
        ensures holders { (r : Place) → holder_of r self.new.active ≡ holder_of r self.old.active }
    {
        let txn = self.may_begin()?;
        let fresh = fresh(self.alloc, &mut self.spare);
        self.active.insert(txn, fresh)?;
        self.begun = txn.number();
        Ok(txn)
    }

    /// Whether the transaction may make a further change, of a row that nobody else holds.
    ///
    /// The errors are `NoSuchTxn` and then `TooManyChanges`, where `CHANGES_MAX` are on its list.
    pub fn check_change(&self, txn: Txn) -> Result<(), Error>
        ensures { result_err result ≡ change_refusal txn self.now.active }
    {
        let Some(active) = self.state(txn) else {
            return Err(Error::NoSuchTxn);
        };
        if active.is_full() {
            return Err(Error::TooManyChanges);
        }
        Ok(())
    }

    /// Whether the transaction may change the row.
    ///
    /// The errors are those of `check_change`, and then `RowBusy`, where another holds the row.
    pub fn check_touch(&self, txn: Txn, rid: Rid) -> Result<(), Error>
        ensures { result_err result ≡ touch_refusal txn rid self.now.active }
    {
        self.touch(txn, rid)?;
        Ok(())
    }

    // Whether somebody holds the row, which is the transaction itself, where it may change it.
    fn touch(&self, txn: Txn, rid: Rid) -> Result<bool, Error>
        ensures refusal { result_err result ≡ touch_refusal txn rid self.now.active }
        ensures held { IfOk result (λ held. held ≡ is_some (holder_of rid self.now.active)) }
    {
        self.check_change(txn)?;
        if self.are_held_before(rid) {
            return Ok(false);
        }
        match self.holder(rid) {
            Some(holder) if holder != txn => Err(Error::RowBusy),
            holder => Ok(holder.is_some()),
        }
    }

    /// Puts the change at the end of the transaction's list. From now on the transaction holds
    /// its row.
    ///
    /// The errors are those of `check_touch`, and then `NoMemory`. After an error the table is as
    /// before.
    pub fn note(&mut self, txn: Txn, change: Change) -> Result<(), Error>
        ensures refused { (e : Error) → touch_refusal txn change.rid self.old.active ≡ Some e →
            result ≡ Err e }
        ensures accepted { touch_refusal txn change.rid self.old.active ≡ None →
            IsOkUnless result Error.NoMemory }
        ensures ok { OnOk result (self.new ≡
            record self.old { active = with_state (change_noted change) txn self.old.active }) }
        ensures err { OnErr result (self.new ≡ self.old) }

        ensures held { OnOk result (holder_of change.rid self.new.active ≡ Some txn) }
        ensures sound { IsSoundTable self.old }
        ensures others { OnOk result ((r : Place) → r ≢ change.rid →
            holder_of r self.new.active ≡ holder_of r self.old.active) }
    {
        let is_held = self.touch(txn, change.rid)?;
        let rows = self.held.len();
        self.held.hold(change.rid, is_held)?;
        let i = place_of(&self.active, txn);
        let Some(active) = self.active.get_index_mut(i) else {
            unreachable!()
        };
        if let Err(error) = active.note(change, is_held) {
            self.held.cut(rows);
            return Err(error);
        }
        Ok(())
    }

    /// Takes the transaction's last change off its list, and answers it. Its row stays held, and
    /// the transaction is rolling back from now on, also where there was no change.
    ///
    /// It answers none where the list is empty, and where the transaction is not active.
    pub fn pop_undo(&mut self, txn: Txn) -> Option<Change>
        ensures last { result ≡ option_and_then last_change (state_of txn self.old.active) }
        ensures rest { self.new ≡ record self.old { active = with_state without_last txn self.old.active } }
        ensures holders { (r : Place) → holder_of r self.new.active ≡ holder_of r self.old.active }
    {
        let i = place_of(&self.active, txn);
        let active = self.active.get_index_mut(i)?;
        active.pop()
    }

    /// Ends the transaction: it is no longer active, and none of its rows is held any more.
    ///
    /// The one error is `NoSuchTxn`, where it is not active.
    pub fn end(&mut self, txn: Txn) -> Result<(), Error>
        ensures unknown { IsErr result ↔ (state_of txn self.old.active ≡ None) }
        ensures no_such_txn { IfErr result (λ e. e ≡ Error.NoSuchTxn) }
        ensures ok { OnOk result (self.new ≡ record self.old { active = without txn self.old.active }) }
        ensures gone { OnOk result (state_of txn self.new.active ≡ None) }
        ensures err { OnErr result (self.new ≡ self.old) }

        ensures released { OnOk result ((r : Place) → holder_of r self.old.active ≡ Some txn →
            holder_of r self.new.active ≡ None) }
        ensures others { OnOk result ((r : Place) → holder_of r self.old.active ≢ Some txn →
            holder_of r self.new.active ≡ holder_of r self.old.active) }
    {
        let Some(ended) = self.active.shift_remove(&txn) else {
            return Err(Error::NoSuchTxn);
        };
        self.held.release(&ended, self.active.is_empty());
        self.spare = Some(ended);
        Ok(())
    }
}
