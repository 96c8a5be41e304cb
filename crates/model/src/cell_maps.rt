//! Redo, the plain slow way.
ghost use Rattle.std.specs.Prelude.{◌≡◌, ◌≢◌, ◌↔◌, List, None, IsTrue, OnOk, OnErr, IfOk};
ghost use Rattle.std.specs.FinMap as map;
ghost use Rattle.records.specs.ChangeValue.{ChangeValue};
ghost use Rattle.records.specs.declared.record.Action.TheVariants.{OfTxn};
ghost use Rattle.model.specs.Redo.{cells_of, given_of, with_part};
ghost use Rattle.model.specs.Cells.{list_by, set_by, cells_after};
ghost use Rattle.model.specs.Following.{CanFollow, CanFollowBy, CanFollowTxn};
ghost use Rattle.model.specs.Given.{recovered};

use crate::entry_map::EntryMap;
use crate::life::Life;
use crate::list_map::ListMap;
use crate::row_map::RowMap;
use records::{Action, Part, Record, Txn, TxnAction};
use std::alloc::{AllocError, Allocator};

/// All cells.
#[derive(Drop)]
pub struct CellMaps<A: Allocator> {
    pub rows: RowMap<A>,
    pub entries: EntryMap<A>,
    pub lists: ListMap<A>,
    pub life: Life,
}

/// What is recovered of cells: what they hold with every unfinished transaction taken back.
#[derive(Drop)]
pub struct Recovered<A: Allocator> {
    pub rows: RowMap<A>,
    pub entries: EntryMap<A>,
    pub life: Life,
    /// The number of the last record that set the cells.
    pub last: u64,
}

impl<A: Allocator + Copy> CellMaps<A> {
    /// No row, no entry, no transaction and no index.
    pub fn new(alloc: A) -> Self
        ensures { cells_of result ≡ record {
          rows = map.empty;
          entries = map.empty;
          pending = map.empty;
          life = Life.Absent;
        } }
    {
        CellMaps {
            rows: RowMap::new(alloc),
            entries: EntryMap::new(alloc),
            lists: ListMap::new(alloc),
            life: Life::Absent,
        }
    }

    // Sets the row or the entry of which a transaction's record of this action speaks.
    fn set_part(&mut self, action: &TxnAction) -> Result<(), AllocError>
        ensures ok { OnOk result (cells_of self.new ≡ with_part (cells_of self.old) action.now) }
        ensures err { OnErr result (cells_of self.new ≡ cells_of self.old) }
        ensures step { OnErr result ((changes : List ChangeValue) → list_by changes action.now ≢ None) }
    {
        match action {
            TxnAction::Forward { part, .. } | TxnAction::Undo { part, .. } => match part {
                Part::Slot => self.rows.redo_txn(action),
                Part::OldEntry | Part::NewEntry => self.entries.redo_txn(action),
            },
            TxnAction::Commit | TxnAction::End => Ok(()),
        }
    }

    fn redo_txn(&mut self, alloc: A, txn: Txn, action: &TxnAction) -> Result<(), AllocError>
        ensures ok { OnOk result (cells_of self.new ≡ set_by (cells_of self.old) (OfTxn txn action.now)) }
        ensures err { OnErr result (cells_of self.new ≡ cells_of self.old) }
    {
        let was = self.lists.redo_txn(alloc, txn, action)?;
        if let Err(error) = self.set_part(action) {
            self.lists.put_back(txn, was);
            return Err(error);
        }
        Ok(())
    }

    /// Sets the cells of which a record of this action speaks. Where there is no memory they are as before.
    pub fn redo_one(&mut self, alloc: A, action: &Action) -> Result<(), AllocError>
        ensures ok { OnOk result (cells_of self.new ≡ set_by (cells_of self.old) action.now) }
        ensures err { OnErr result (cells_of self.new ≡ cells_of self.old) }
    {
        match action {
            Action::OfTxn { txn, action } => self.redo_txn(alloc, *txn, action),
            Action::OfIndex { .. } => {
                self.entries.redo(action)?;
                self.life = self.life.redo(action);
                Ok(())
            }
        }
    }

    /// The cells after these records, the first of them first.
    pub fn redo(mut self, alloc: A, records: &[Record]) -> Result<Self, AllocError>
        ensures { IfOk result (λ cells. cells_of cells ≡ cells_after (cells_of self) records.now) }
    {
        for record in records {
            self.redo_one(alloc, &record.action)?;
        }
        Ok(self)
    }

    fn allows_txn(&self, pages: u32, txn: Txn, action: &TxnAction) -> bool
        ensures { IsTrue result ↔ CanFollowTxn pages (cells_of self.now) txn action.now }
    {
        match action {
            TxnAction::Forward { part, change } => {
                change.rid.page < pages
                    && self.life.allows_part(*part)
                    && self.lists.allows(txn, change)
                    && self.lists.has_room(txn)
            }
            TxnAction::Undo { part, change, .. } => {
                change.rid.page < pages
                    && self.life.allows_part(*part)
                    && self.lists.ends_with(txn, change)
            }
            TxnAction::Commit | TxnAction::End => true,
        }
    }

    fn allows(&self, pages: u32, action: &Action) -> bool
        ensures { IsTrue result ↔ CanFollowBy pages (cells_of self.now) action.now }
    {
        match action {
            Action::OfTxn { txn, action } => self.allows_txn(pages, *txn, action),
            Action::OfIndex { action } => self.life.allows(pages, action),
        }
    }

    /// Whether, in a store of so many pages, this record can follow the record `last`, which left these cells.
    pub fn can_follow(&self, pages: u32, last: u64, next: &Record) -> bool
        ensures { IsTrue result ↔ CanFollow pages last (cells_of self.now) next.now }
    {
        next.number.get() - 1 == last && self.allows(pages, &next.action)
    }

    /// What is recovered of the cells, which records up to the number `last` left: every unfinished transaction is
    /// taken back, in the order of their numbers.
    pub fn recover(self, last: u64) -> Result<Recovered<A>, AllocError>
        ensures { IfOk result (λ found. given_of found ≡ recovered (cells_of self) last) }
    {
        let CellMaps {
            rows,
            entries,
            lists,
            life,
        } = self;
        Ok(Recovered {
            rows: lists.take_back_rows(rows)?,
            entries: lists.take_back_entries(life.is_indexed(), entries)?,
            life,
            last,
        })
    }
}
