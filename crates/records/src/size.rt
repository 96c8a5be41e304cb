//! How many bytes a record's spelling has.
ghost use Rattle.std.specs.Prelude.{◌≡◌, ◌≤◌, ◌+◌, ◌*◌, ◌++◌, Some, length};
ghost use Rattle.records.specs.Spelling as as_bytes;
ghost use Rattle.records.specs.Spelling.{spelling, old_row, new_row, RidFits, RowFits, RowsFit, ChangeFits, PairFits};
ghost use Rattle.records.specs.Spelling.{TxnActionFits, IndexActionFits, ActionFits, Fits};

use crate::change::{Change, Rows};
use crate::record::{Action, IndexAction, RECORD_MAX, Record, TxnAction};
use crate::within::{number_fits, rid_fits, txn_fits};
use record_values::{BODY_MAX, KEY_MAX, Pair, Rid, Row};

fn row_size(row: &Row) -> usize
    ensures size { result ≡ length (as_bytes.row (Some row.now)) }
    ensures fits { RowFits row.now }
{
    3 + row.key.as_slice().len() + row.body.as_slice().len()
}

fn rows_size(rows: &Rows) -> usize
    ensures size { result ≡ length (as_bytes.row (old_row rows.now) ++ as_bytes.row (new_row rows.now)) }
    ensures most { result ≤ 2 * (3 + KEY_MAX + BODY_MAX) }
    ensures fits { RowsFit rows.now }
{
    match rows {
        Rows::Inserted { new } => 1 + row_size(new),
        Rows::Deleted { old } => row_size(old) + 1,
        Rows::Updated { old, new } => row_size(old) + row_size(new),
    }
}

#[tactic(auto, using(crate::proofs::Sizes::sizes))]
fn rid_size(rid: &Rid) -> usize
    ensures size { result ≡ length (as_bytes.rid rid.now) }
    ensures most { result ≡ 6 }
    ensures fits { RidFits rid.now }
{
    rid_fits(rid);
    6
}

#[tactic(auto, using(crate::proofs::Sizes::sizes))]
fn change_size(change: &Change) -> usize
    ensures size { result ≡ length (as_bytes.change change.now) }
    ensures most { result ≤ 7 + 2 * (3 + KEY_MAX + BODY_MAX) }
    ensures fits { ChangeFits change.now }
{
    1 + rid_size(&change.rid) + rows_size(&change.rows)
}

#[tactic(auto, using(crate::proofs::Sizes::sizes))]
fn pair_size(pair: &Pair) -> usize
    ensures size { result ≡ length (as_bytes.pair pair.now) }
    ensures most { result ≤ 7 + KEY_MAX }
    ensures fits { PairFits pair.now }
{
    1 + pair.key.as_slice().len() + rid_size(&pair.rid)
}

#[tactic(auto, using(crate::proofs::Sizes::sizes))]
fn txn_action_size(action: &TxnAction) -> usize
    ensures size { result ≡ length (as_bytes.txn_fields action.now) }
    ensures most { result ≤ 9 + 2 * (3 + KEY_MAX + BODY_MAX) }
    ensures fits { TxnActionFits action.now }
{
    match action {
        TxnAction::Forward { change, .. } => 1 + change_size(change),
        TxnAction::Undo { change, .. } => 2 + change_size(change),
        TxnAction::Commit | TxnAction::End => 1,
    }
}

fn index_action_size(action: &IndexAction) -> usize
    ensures size { result ≡ length (as_bytes.index_fields action.now) }
    ensures most { result ≤ 8 + KEY_MAX }
    ensures fits { IndexActionFits action.now }
{
    match action {
        IndexAction::Create | IndexAction::BuildDone | IndexAction::Drop => 1,
        IndexAction::BuildPlace { pair }
        | IndexAction::BuildCheckpoint { pair }
        | IndexAction::Clean { pair } => 1 + pair_size(pair),
    }
}

fn action_size(action: &Action) -> usize
    ensures size { result ≡ length (as_bytes.fields_of action.now) }
    ensures most { result ≤ 9 + 2 * (3 + KEY_MAX + BODY_MAX) }
    ensures fits { ActionFits action.now }
{
    match action {
        Action::OfTxn { txn, action } => {
            txn_fits(*txn);
            txn_action_size(action)
        }
        Action::OfIndex { action } => index_action_size(action),
    }
}

impl Record {
    /// How many bytes the record's spelling has.
    #[tactic(auto, using(crate::proofs::Sizes::sizes))]
    pub fn size(&self) -> usize
        ensures size { result ≡ length (spelling self.now) }
        ensures most { result ≤ RECORD_MAX }
        ensures fits { Fits self.now }
    {
        number_fits(self.number);
        16 + action_size(&self.action)
    }
}
