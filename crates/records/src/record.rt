//! Records of the log.
ghost use Rattle.std.specs.Prelude.{◌≡◌, ◌≤◌, ◌++◌, List, ℕ, length};
ghost use Rattle.records.specs.RecordValue.{RecordValue, has_part};
ghost use Rattle.records.specs.Spelling.{spelling, Fits, forward_kind, undo_kind};

use crate::change::{Change, Rows};
use record_values::{BODY_MAX, KEY_MAX, Pair, RecordNumber, Txn};
use std::marker::Model;

/// The fewest bytes of a record: its number, its transaction, its kind.
pub const RECORD_MIN: usize = 17;

/// The most bytes of a record: one that has two rows with keys and bodies of
/// full length.
pub const RECORD_MAX: usize = 25 + 2 * (3 + KEY_MAX + BODY_MAX);

/// What a step of a change sets: the row's slot, the entry of the old row, or
/// that of the new one.
#[derive(Clone, Copy, Debug, PartialEq, Eq)]
pub enum Part {
    Slot,
    OldEntry,
    NewEntry,
}

impl Part {
    /// Whether a change of these rows has the part.
    pub fn is_in(self, rows: &Rows) -> bool
        ensures { result ≡ has_part self rows.now }
    {
        match self {
            Part::Slot => true,
            Part::OldEntry => rows.has_old(),
            Part::NewEntry => rows.has_new(),
        }
    }

    /// The kind of the record of a forward step.
    pub fn forward_kind(self) -> u8
        ensures { result ≡ forward_kind self }
    {
        match self {
            Part::Slot => 1,
            Part::OldEntry => 2,
            Part::NewEntry => 3,
        }
    }

    /// The kind of the record of an undo step.
    pub fn undo_kind(self) -> u8
        ensures { result ≡ undo_kind self }
    {
        match self {
            Part::NewEntry => 4,
            Part::Slot => 5,
            Part::OldEntry => 6,
        }
    }
}

/// What a transaction did. `last` says that the undo step takes its change off
/// the transaction's list.
#[derive(Clone, Copy, Debug, PartialEq, Eq)]
pub enum TxnAction {
    Forward {
        part: Part,
        change: Change,
    },
    Undo {
        part: Part,
        change: Change,
        last: bool,
    },
    Commit,
    End,
}

/// What the builder or the cleaner did, or the creation or the dropping of the index.
#[derive(Clone, Copy, Debug, PartialEq, Eq)]
pub enum IndexAction {
    Create,
    BuildPlace { pair: Pair },
    BuildCheckpoint { pair: Pair },
    BuildDone,
    Clean { pair: Pair },
    Drop,
}

/// What a record says was done.
#[derive(Clone, Copy, Debug, PartialEq, Eq)]
pub enum Action {
    OfTxn { txn: Txn, action: TxnAction },
    OfIndex { action: IndexAction },
}

/// A record of the log.
#[derive(Clone, Copy, Debug, PartialEq, Eq)]
pub struct Record {
    pub number: RecordNumber,
    pub action: Action,
}

impl Model for Record {
    ghost use Rattle.std.specs.Prelude.{IsTrue};
    ghost use Rattle.records.specs.RecordValue.{RecordValue, has_rows};

    ghost Value = { RecordValue };

    ghost view = { λ r. record { number = r.number; action = r.action } };

    ghost invariant = { λ r. IsTrue (has_rows r.action) };

    ghost inverse = { λ r. record { number = r.number; action = r.action } };
}

/// A law: no spelling begins another, and a spelling is of one record.
pub fn one_spelling()
    ensures { (a b : RecordValue) (x y : List ℕ) → Fits a → Fits b → spelling a ++ x ≡ spelling b ++ y → (a ≡ b)
        × (x ≡ y) }
{}

/// A law: each record within the limits has a spelling, of 17 to 281 bytes.
pub fn each_has_a_spelling()
    ensures least { (r : RecordValue) → RECORD_MIN ≤ length (spelling r) }
    ensures most { (r : RecordValue) → Fits r → length (spelling r) ≤ RECORD_MAX }
{}
