//! Taking changes back.
ghost use Rattle.std.specs.Prelude.{◌≡◌, ◌≢◌, ◌+◌, None, Some, option_and_then, IfErr, OnOk, OnErr};
ghost use Rattle.record_values.specs.declared.pair.Pair.{Pair};
ghost use Rattle.model.specs.Pairs as pairs;
ghost use Rattle.core_model.specs.Events.{Event, Reply};
ghost use Rattle.txn_table.specs.Table as table;
ghost use Rattle.core_parts.specs.View.{IsSafe, Serves};
ghost use Rattle.core_parts.specs.Moves.{txn_shown};
ghost use Rattle.core_parts.specs.Private.{HasRecord, entry_restored, part_to_undo, row_restored, undo_begun};
ghost use Rattle.core_parts.specs.Replies.{reply_by};
ghost use Rattle.core_parts.specs.Undoing.{undone_reply};
ghost use Rattle.core_parts.specs.Parts.{parts_of};

use crate::change_steps::{marks_new, puts_old, sets_old};
use crate::parts::CoreParts;
use crate::reply::Undone;
use core_steps::has_old_entry;
use records::{Change, Error, Mark, Part, RecordNumber, Txn};
use std::alloc::Allocator;
use txn_table::Progress;

// The part of its newest change that a transaction so far takes back next. Where the change has no new
// entry, it is the row.
fn part_to_undo(progress: Progress) -> Part
    ensures { result ≡ part_to_undo progress }
{
    match progress {
        Progress::Ready | Progress::OwesRow | Progress::OwesEntry | Progress::Rolling =>
            Part::NewEntry,
        Progress::UndoesRow => Part::Slot,
        Progress::UndoesEntry => Part::OldEntry,
    }
}

impl<A: Allocator + Copy> CoreParts<A> {
    // Sets the row as it was before the newest change. `NoMemory` leaves all as before.
    fn restore_row(&mut self, number: RecordNumber, txn: Txn, change: Change) -> Result<(), Error>
        requires safe { ∥ IsSafe (parts_of self.old) ∥₁ }
        requires newest { option_and_then table.last_change (txn_shown (parts_of self.old) txn) ≡ Some change }
        requires number { number ≡ (parts_of self.old).last + 1 }
        ensures ok { OnOk result (parts_of self.new ≡ row_restored (parts_of self.old) txn change
            (pairs.old_pair (pairs.is_indexed (parts_of self.old).life) change)) }
        ensures unchanged { OnErr result (parts_of self.new ≡ parts_of self.old) }
        ensures no_memory { IfErr result (λ e. e ≡ Error.NoMemory) }
    {
        let indexed = self.indexed();
        let row = change.rows.old();
        let action = sets_old(&change, indexed);
        if has_old_entry(&change, indexed) {
            return self.set_row(number, txn, Progress::UndoesEntry, change.rid, row, action);
        }
        self.set_row(number, txn, Progress::Rolling, change.rid, row, action)?;
        self.txns.pop_undo(txn);
        Ok(())
    }

    // Makes the entry of the newest change's old row live again. `NoMemory` leaves all as before.
    fn restore_entry(&mut self, number: RecordNumber, txn: Txn, change: Change) -> Result<(), Error>
        requires safe { ∥ IsSafe (parts_of self.old) ∥₁ }
        requires newest { option_and_then table.last_change (txn_shown (parts_of self.old) txn) ≡ Some change }
        requires number { number ≡ (parts_of self.old).last + 1 }
        requires moved { pairs.old_pair (pairs.is_indexed (parts_of self.old).life) change ≢ None }
        ensures ok { OnOk result ((p : Pair) → pairs.old_pair (pairs.is_indexed (parts_of self.old).life) change
            ≡ Some p → parts_of self.new ≡ entry_restored (parts_of self.old) txn change p) }
        ensures unchanged { OnErr result (parts_of self.new ≡ parts_of self.old) }
        ensures no_memory { IfErr result (λ e. e ≡ Error.NoMemory) }
    {
        let Some(put) = puts_old(&change, self.indexed()) else {
            unreachable!()
        };
        self.set_entry(number, txn, Progress::Rolling, Mark::Live, put)?;
        self.txns.pop_undo(txn);
        Ok(())
    }

    // The first step of the undo of the newest change. `NoMemory` leaves all as before.
    fn begin_undo(&mut self, number: RecordNumber, txn: Txn, change: Change) -> Result<(), Error>
        requires safe { ∥ IsSafe (parts_of self.old) ∥₁ }
        requires newest { option_and_then table.last_change (txn_shown (parts_of self.old) txn) ≡ Some change }
        requires number { number ≡ (parts_of self.old).last + 1 }
        ensures ok { OnOk result (parts_of self.new ≡ undo_begun (parts_of self.old) txn change
            (pairs.old_pair (pairs.is_indexed (parts_of self.old).life) change)
            (pairs.new_pair (pairs.is_indexed (parts_of self.old).life) change)) }
        ensures unchanged { OnErr result (parts_of self.new ≡ parts_of self.old) }
        ensures no_memory { IfErr result (λ e. e ≡ Error.NoMemory) }
    {
        match marks_new(&change, self.indexed()) {
            Some(marked) => {
                self.set_entry(number, txn, Progress::UndoesRow, Mark::Marked, marked)
            }
            None => self.restore_row(number, txn, change),
        }
    }

    /// The next step of the undo of the newest change. `NoMemory` leaves all as before.
    pub fn take_back(&mut self, number: RecordNumber, txn: Txn, change: Change) -> Result<(), Error>
        requires safe { ∥ IsSafe (parts_of self.old) ∥₁ }
        requires newest { option_and_then table.last_change (txn_shown (parts_of self.old) txn) ≡ Some change }
        requires has { HasRecord (parts_of self.old) txn }
        requires number { number ≡ (parts_of self.old).last + 1 }
        ensures { Serves (parts_of self.old) (Event.Undo txn) (reply_by (λ _. Reply.Undone) result)
            (parts_of self.new) }
    {
        let Some(progress) = self.txns.progress(txn) else {
            unreachable!()
        };
        match part_to_undo(progress) {
            Part::NewEntry => self.begin_undo(number, txn, change)?,
            Part::Slot => self.restore_row(number, txn, change)?,
            Part::OldEntry => self.restore_entry(number, txn, change)?,
        }
        Ok(())
    }

    /// Begins the rollback of a transaction that has no change.
    pub fn undo_nothing(&mut self, txn: Txn) -> Result<Undone, Error>
        requires { option_and_then table.last_change (txn_shown (parts_of self.old) txn) ≡ None }
        ensures { Serves (parts_of self.old) (Event.Undo txn) (reply_by undone_reply result) (parts_of self.new) }
    {
        if !self.txns.is_active(txn) {
            return Err(Error::NoSuchTxn);
        }
        self.txns.pop_undo(txn);
        Ok(Undone::Empty)
    }
}
