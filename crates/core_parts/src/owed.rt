//! The steps of a change after its first, which its transaction owes.
ghost use Rattle.std.specs.Prelude.{◌≡◌, ◌≢◌, ◌+◌, None, Some, option_and_then};
ghost use Rattle.core_model.specs.Events.{Event, Reply};
ghost use Rattle.txn_table.specs.Table as table;
ghost use Rattle.core_parts.specs.View.{IsSafe, Serves};
ghost use Rattle.core_parts.specs.Moves.{OwesOrNone, txn_shown};
ghost use Rattle.core_parts.specs.Private.{HasRecord};
ghost use Rattle.core_parts.specs.Replies.{reply_by};
ghost use Rattle.core_parts.specs.Parts.{parts_of};

use crate::change_steps::{puts_new, sets_new};
use crate::parts::{CoreParts, progress_after_row};
use records::{Change, Error, Mark, RecordNumber, Txn};
use std::alloc::Allocator;
use txn_table::Progress;

impl<A: Allocator + Copy> CoreParts<A> {
    /// The newest change of a transaction that owes a step of it.
    pub fn owed_change(&self, txn: Txn) -> Change
        requires safe { ∥ IsSafe (parts_of self.now) ∥₁ }
        requires asked { OwesOrNone (txn_shown (parts_of self.now) txn) }
        requires active { txn_shown (parts_of self.now) txn ≢ None }
        ensures { option_and_then table.last_change (txn_shown (parts_of self.now) txn) ≡ Some result }
    {
        let Some(change) = self.txns.newest(txn) else {
            unreachable!()
        };
        change
    }

    /// The owed step of this change. `NoMemory` leaves all as before.
    pub fn carry_on(&mut self, number: RecordNumber, txn: Txn, change: Change) -> Result<(), Error>
        requires safe { ∥ IsSafe (parts_of self.old) ∥₁ }
        requires asked { OwesOrNone (txn_shown (parts_of self.old) txn) }
        requires has { HasRecord (parts_of self.old) txn }
        requires newest { option_and_then table.last_change (txn_shown (parts_of self.old) txn) ≡ Some change }
        requires number { number ≡ (parts_of self.old).last + 1 }
        ensures { Serves (parts_of self.old) (Event.Step txn) (reply_by (λ _. Reply.Stepped) result)
            (parts_of self.new) }
    {
        let indexed = self.indexed();
        match self.txns.progress(txn) {
            Some(Progress::OwesRow) => {
                let progress = progress_after_row(&change, indexed);
                let action = sets_new(&change);
                self.set_row(number, txn, progress, change.rid, change.rows.new(), action)?
            }
            Some(Progress::OwesEntry) => {
                let Some(put) = puts_new(&change, indexed) else {
                    unreachable!()
                };
                self.set_entry(number, txn, Progress::Ready, Mark::Live, put)?
            }
            _ => unreachable!(),
        }
        Ok(())
    }
}
