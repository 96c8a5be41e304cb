//! A step of a transaction: it sets one cell, and its record waits.
ghost use Rattle.std.specs.Prelude.{◌≡◌, ◌<◌, ◌≤◌, ◌+◌, ◌-◌, ◌++◌, ◌∷◌, [], Some, IfOk, IfErr, OnOk, OnErr, IsTrue};
ghost use Rattle.std.specs.FinMap as map;
ghost use Rattle.record_values.specs.Maps.{set_at};
ghost use Rattle.records.specs.RecordValue.{txn_has_rows};
ghost use Rattle.marked_index.specs.Index.{pledges_used};
ghost use Rattle.core_parts.specs.View.{IsSafe};
ghost use Rattle.core_parts.specs.Moves.{txn_shown};
ghost use Rattle.core_parts.specs.Private.{entry_stepped, reserved_of, row_stepped};
ghost use Rattle.core_parts.specs.Parts.{parts_of};

use crate::parts::{CoreParts, record_of};
use marked_index::{MarkedIndex, Stepped};
use records::{Error, Mark, Pair, Record, RecordNumber, Rid, Row, Txn, TxnAction};
use std::alloc::Allocator;
use std::collections::VecDeque;
use txn_table::Progress;

// Puts the record into the outbox, and gives the entry of a pair this mark, in a reserved place where
// there is none; answers how many places that used. `NoMemory` leaves both as before.
fn mark_in_reserved_place<A: Allocator + Copy>(
    index: &mut MarkedIndex<A>,
    outbox: &mut VecDeque<Record, A>,
    made: Record,
    pair: &Pair,
    mark: Mark,
) -> Result<usize, Error>
    requires { pledges_used (map.get index.old.entries pair.now) ≤ index.old.pledged }
    ensures used { IfOk result (λ used. used ≡ pledges_used (map.get index.old.entries pair.now)) }
    ensures index { OnOk result (index.new ≡ record index.old {
      entries = set_at index.old.entries pair.now (Some mark);
      pledged = index.old.pledged - pledges_used (map.get index.old.entries pair.now);
    }) }
    ensures outbox { OnOk result (outbox.new.items ≡ outbox.old.items ++ made ∷ []) }
    ensures unchanged { OnErr result ((index.new ≡ index.old) × (outbox.new.items ≡ outbox.old.items)) }
    ensures no_memory { IfErr result (λ e. e ≡ Error.NoMemory) }
{
    outbox.push_back(made)?;
    let stepped = match mark {
        Mark::Live => index.txn_put(pair),
        Mark::Marked => index.txn_mark(pair),
    };
    match stepped {
        Ok(Stepped::Added) => Ok(1),
        Ok(Stepped::Found) => Ok(0),
        Err(error) => {
            outbox.pop_back();
            Err(error)
        }
    }
}

impl<A: Allocator + Copy> CoreParts<A> {
    /// A step of a transaction that sets a row; the transaction is so far then. `NoMemory` leaves all
    /// as before.
    pub(crate) fn set_row(
        &mut self,
        number: RecordNumber,
        txn: Txn,
        progress: Progress,
        rid: Rid,
        row: Option<Row>,
        action: TxnAction,
    ) -> Result<(), Error>
        requires safe { ∥ IsSafe (parts_of self.old) ∥₁ }
        requires inside { rid.page < (parts_of self.old).heap.pages }
        requires number { number ≡ (parts_of self.old).last + 1 }
        requires whole { IsTrue (txn_has_rows action) }
        ensures ok { OnOk result (parts_of self.new ≡ row_stepped (parts_of self.old) txn progress rid row action) }
        ensures unchanged { OnErr result (parts_of self.new ≡ parts_of self.old) }
        ensures no_memory { IfErr result (λ e. e ≡ Error.NoMemory) }
    {
        let reserved = self.reserved(txn);
        self.outbox.push_back(record_of(number, txn, action))?;
        self.txns.put(txn, progress, reserved);
        self.heap.set(rid, row);
        self.last += 1;
        Ok(())
    }

    /// A step of a transaction that gives an entry this mark, in a reserved place where there was
    /// none; the transaction is so far then. `NoMemory` leaves all as before.
    pub(crate) fn set_entry(
        &mut self,
        number: RecordNumber,
        txn: Txn,
        progress: Progress,
        mark: Mark,
        entry: (Pair, TxnAction),
    ) -> Result<(), Error>
        requires safe { ∥ IsSafe (parts_of self.old) ∥₁ }
        requires places { pledges_used (map.get (parts_of self.old).index.entries entry.0) ≤ reserved_of
            (txn_shown (parts_of self.old) txn) }
        requires number { number ≡ (parts_of self.old).last + 1 }
        requires whole { IsTrue (txn_has_rows entry.1) }
        ensures ok { OnOk result (parts_of self.new ≡ entry_stepped
            (parts_of self.old) txn progress entry.0 mark entry.1) }
        ensures unchanged { OnErr result (parts_of self.new ≡ parts_of self.old) }
        ensures no_memory { IfErr result (λ e. e ≡ Error.NoMemory) }
    {
        let (pair, action) = entry;
        let reserved = self.reserved(txn);
        let made = record_of(number, txn, action);
        let used = mark_in_reserved_place(&mut self.index, &mut self.outbox, made, &pair, mark)?;
        self.txns.put(txn, progress, reserved - used);
        self.last += 1;
        Ok(())
    }
}
