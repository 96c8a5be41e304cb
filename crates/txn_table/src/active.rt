//! One active transaction.
ghost use Rattle.std.specs.Prelude.{◌≡◌, ◌↔◌, ◌≤◌, [], IsTrue, IfErr, OnOk, OnErr, length};
ghost use Rattle.txn_table.specs.Table.{has_any, fresh_txn, change_noted, without_last, last_change, put_at};
ghost use Rattle.record_values.specs.Values.{is_among};

use crate::progress::Progress;
use records::{CHANGES_MAX, Change, Error, Rid};
use std::alloc::Allocator;
use std::marker::Model;

/// The changes that a transaction may still take back, the rows that it holds, and whether it is
/// rolling back.
#[derive(Drop)]
pub(crate) struct ActiveTxn<A: Allocator> {
    changes: Vec<Change, A>,
    rows: Vec<Rid, A>,
    progress: Progress,
    // the entry places that are reserved and not used
    reserved: usize,
}

impl<A: Allocator> Model for ActiveTxn<A> {
    ghost use Rattle.txn_table.specs.Table.{TxnState};

    ghost Value = { TxnState };

    ghost view = { λ t. record {
      changes = t.changes.items;
      rows = t.rows.items;
      progress = t.progress;
      reserved = t.reserved;
    } };
}

impl<A: Allocator + Copy> ActiveTxn<A> {
    /// No change and no row.
    pub(crate) fn new(alloc: A) -> Self
        ensures { result ≡ fresh_txn }
    {
        ActiveTxn {
            changes: Vec::new(alloc),
            rows: Vec::new(alloc),
            progress: Progress::Ready,
            reserved: 0,
        }
    }

    /// No change and no row, in the memory of this one.
    pub(crate) fn emptied(mut self) -> Self
        ensures { result ≡ fresh_txn }
    {
        self.changes.clear();
        self.rows.clear();
        self.progress = Progress::Ready;
        self.reserved = 0;
        self
    }

    /// The changes, oldest first.
    pub(crate) fn changes(&self) -> &[Change]
        ensures { result.now ≡ self.now.changes }
    {
        self.changes.as_slice()
    }

    /// The last change.
    pub(crate) fn newest(&self) -> Option<Change>
        ensures { result ≡ last_change self.now }
    {
        self.changes.last().copied()
    }

    /// Whether there is no place for another change.
    pub(crate) fn is_full(&self) -> bool
        ensures { IsTrue result ↔ (CHANGES_MAX ≤ length self.now.changes) }
    {
        self.changes.len() >= CHANGES_MAX as usize
    }

    /// Whether the row is held.
    pub(crate) fn holds(&self, rid: Rid) -> bool
        ensures { result ≡ is_among rid self.now.rows }
    {
        self.rows.contains(&rid)
    }

    /// Whether a row is held.
    pub(crate) fn holds_rows(&self) -> bool
        ensures { result ≡ has_any self.now.rows }
    {
        !self.rows.is_empty()
    }

    /// Puts the change at the end of the list, and holds its row, which may be held already.
    pub(crate) fn note(&mut self, change: Change, is_held: bool) -> Result<(), Error>
        requires { is_held ≡ is_among change.rid self.old.rows }
        ensures ok { OnOk result (self.new ≡ change_noted change self.old) }
        ensures err { OnErr result (self.new ≡ self.old) }
        ensures no_memory { IfErr result (λ e. e ≡ Error.NoMemory) }
    {
        self.changes.push(change)?;
        if !is_held && self.rows.push(change.rid).is_err() {
            self.changes.pop();
            return Err(Error::NoMemory);
        }
        Ok(())
    }

    /// How far the transaction is.
    pub(crate) fn progress(&self) -> Progress
        ensures { result ≡ self.now.progress }
    {
        self.progress
    }

    /// How many entry places are reserved and not used.
    pub(crate) fn reserved(&self) -> usize
        ensures { result ≡ self.now.reserved }
    {
        self.reserved
    }

    /// The transaction is so far, and has so many places.
    pub(crate) fn put(&mut self, progress: Progress, reserved: usize)
        ensures { self.new ≡ put_at progress reserved self.old }
    {
        self.progress = progress;
        self.reserved = reserved;
    }

    /// Takes the last change off. Its row stays held, and the transaction is rolling back.
    pub(crate) fn pop(&mut self) -> Option<Change>
        ensures last { result ≡ last_change self.old }
        ensures rest { self.new ≡ without_last self.old }
    {
        self.progress = Progress::Rolling;
        self.changes.pop()
    }
}
