//! Whether a record is within the limits of a version of the format.
ghost use Rattle.std.specs.Prelude.{◌≡◌, ◌≤◌, ◌++◌, ◌↔◌, ℕ, List, length, take, IsTrue, IfSome, IfNone};
ghost use Rattle.record_values.specs.declared.number.TheConstants.{LAST_NUMBER};
ghost use Rattle.records.specs.RecordValue.{RecordValue};
ghost use Rattle.records.specs.Spelling.{spelling, RowFitsIn, RowsFitIn, ChangeFitsIn, PairFitsIn, TxnActionFitsIn};
ghost use Rattle.records.specs.Spelling.{IndexActionFitsIn, ActionFitsIn, FitsIn, RidFits, IsTxn};

use crate::change::{Change, Rows};
use crate::record::{Action, IndexAction, Record, TxnAction};
use record_values::{Pair, RecordNumber, Rid, Row, Txn, Version};

// A law: the place is within the limits of its type. The fields are read, so that these are at hand.
pub(crate) fn rid_fits(rid: &Rid)
    ensures { RidFits rid.now }
{
    let _page = rid.page;
    let _slot = rid.slot;
}

// A law: so is the number of a transaction.
pub(crate) fn txn_fits(txn: Txn)
    ensures { IsTxn txn }
{
    let _number = txn.number();
}

// A law: so is the number of a record.
pub(crate) fn number_fits(number: RecordNumber)
    ensures first { 1 ≤ number }
    ensures last { number ≤ LAST_NUMBER }
{
    let _number = number.get();
}

fn row_fits(version: Version, row: &Row) -> bool
    ensures { IsTrue result ↔ RowFitsIn version row.now }
{
    row.key.as_slice().len() <= version.key_max() && row.body.as_slice().len() <= version.body_max()
}

fn rows_fit(version: Version, rows: &Rows) -> bool
    ensures { IsTrue result ↔ RowsFitIn version rows.now }
{
    match rows {
        Rows::Inserted { new } => row_fits(version, new),
        Rows::Deleted { old } => row_fits(version, old),
        Rows::Updated { old, new } => row_fits(version, old) && row_fits(version, new),
    }
}

fn change_fits(version: Version, change: &Change) -> bool
    ensures { IsTrue result ↔ ChangeFitsIn version change.now }
{
    rid_fits(&change.rid);
    rows_fit(version, &change.rows)
}

fn pair_fits(version: Version, pair: &Pair) -> bool
    ensures { IsTrue result ↔ PairFitsIn version pair.now }
{
    rid_fits(&pair.rid);
    pair.key.as_slice().len() <= version.key_max()
}

fn txn_action_fits(version: Version, action: &TxnAction) -> bool
    ensures { IsTrue result ↔ TxnActionFitsIn version action.now }
{
    match action {
        TxnAction::Forward { change, .. } | TxnAction::Undo { change, .. } => {
            change_fits(version, change)
        }
        TxnAction::Commit | TxnAction::End => true,
    }
}

fn index_action_fits(version: Version, action: &IndexAction) -> bool
    ensures { IsTrue result ↔ IndexActionFitsIn version action.now }
{
    match action {
        IndexAction::Create | IndexAction::BuildDone => true,
        IndexAction::Drop => version.has_drop(),
        IndexAction::BuildPlace { pair }
        | IndexAction::BuildCheckpoint { pair }
        | IndexAction::Clean { pair } => pair_fits(version, pair),
    }
}

fn action_fits(version: Version, action: &Action) -> bool
    ensures { IsTrue result ↔ ActionFitsIn version action.now }
{
    match action {
        Action::OfTxn { txn, action } => {
            txn_fits(*txn);
            txn_action_fits(version, action)
        }
        Action::OfIndex { action } => index_action_fits(version, action),
    }
}

impl Record {
    /// Whether the record is within the limits of the version.
    pub fn fits_in(&self, version: Version) -> bool
        ensures { IsTrue result ↔ FitsIn version self.now }
    {
        number_fits(self.number);
        action_fits(version, &self.action)
    }

    /// The record of the version at the front of the bytes, and its length.
    pub fn decode_in(version: Version, bytes: &[u8]) -> Option<(Self, usize)>
        ensures inside { IfSome result (λ found. found.1 ≤ length bytes.now) }
        ensures found { IfSome result (λ found. take found.1 bytes.now ≡ spelling found.0) }
        ensures fits { IfSome result (λ found. FitsIn version found.0) }
        ensures none { IfNone result ((r : RecordValue) (rest : List ℕ) → FitsIn version r
            → bytes.now ≡ spelling r ++ rest → ⊥) }
    {
        let found = Record::decode(bytes)?;
        if found.0.fits_in(version) {
            Some(found)
        } else {
            None
        }
    }
}
