//! What takes the cells of an image.
ghost use Rattle.std.specs.Prelude.{◌≡◌, Some, OnOk};
ghost use Rattle.model.specs.Cells.{Cells, with_list};
ghost use Rattle.model.specs.Extended.{extended};

use model::Life;
use records::{Change, Mark, Pair, Rid, Row, Txn};
use std::alloc::AllocError;

/// A place for the cells of an image as it is read. After an `Err` it may hold anything.
pub trait CellSink {
    /// The cells that it holds.
    ghost cells: { Self → Cells };

    /// Sets the index's life.
    fn set_life(&mut self, life: Life)
        ensures { cells self.new ≡ record (cells self.old) { life = life } };

    /// Sets a transaction's list of changes, the first of them first.
    fn set_list(&mut self, txn: Txn, changes: &[Change]) -> Result<(), AllocError>
        ensures { OnOk result (cells self.new ≡ record (cells self.old)
            { pending = with_list (cells self.old).pending txn (Some changes.now) }) };

    /// Sets the rows at these places, one after another. Those of an image come in the order of their places, all at
    /// once.
    fn set_rows(&mut self, rows: &[(Rid, Row)]) -> Result<(), AllocError>
        ensures { OnOk result (cells self.new ≡ record (cells self.old)
            { rows = extended (cells self.old).rows rows.now }) };

    /// Sets the entries of these pairs, one after another. Those of an image come in the order of pairs, all at once.
    fn set_entries(&mut self, entries: &[(Pair, Mark)]) -> Result<(), AllocError>
        ensures { OnOk result (cells self.new ≡ record (cells self.old)
            { entries = extended (cells self.old).entries entries.now }) };
}
