//! Reading records. Each function takes one field off the front of the bytes, and gives what is behind it.
ghost use Rattle.std.specs.Prelude.{◌≡◌, ◌≤◌, ◌-◌, ◌++◌, List, ℕ, length, take, IfSome, IfNone, IsTrue};
ghost use Rattle.records.specs.RecordValue.{RecordValue, has_part, txn_has_rows, has_rows};
ghost use Rattle.records.specs.Spelling.{spelling, Fits};
ghost use Rattle.std.specs.Option.{option_map};
ghost use Rattle.records.specs.Reading.{short_at, present_row_at, row_at, change_at, pair_at, flag_at, part_at};
ghost use Rattle.records.specs.Reading.{forward_at, undo_at, txn_action_at, index_action_at, action_at, record_at};

use crate::change::{CHANGES_MAX, Change, Rows};
use crate::front::{byte_of, rid_of, u64_of};
use crate::record::{Action, IndexAction, Part, Record, TxnAction};
use record_values::{BODY_MAX, Body, KEY_MAX, Key, Pair, RecordNumber, Row, Txn};

// A field of so many bytes at most, which has its length in front.
#[tactic(auto, unfolding(crate::specs::Reading::short_at))]
fn short_of(max: usize, bytes: &[u8]) -> Option<(&[u8], &[u8])>
    ensures read { option_map (λ x. (x.0.now, x.1.now)) result ≡ short_at max bytes.now }
    ensures within { IfSome result (λ x. length x.0.now ≤ max) }
{
    let (len, rest) = byte_of(bytes)?;
    let len = usize::from(len);
    if rest.len() < len {
        return None;
    }
    if max < len {
        return None;
    }
    let (field, rest) = rest.split_at(len);
    Some((field, rest))
}

fn key_of(bytes: &[u8]) -> Option<(Key, &[u8])>
    ensures { option_map (λ x. (x.0, x.1.now)) result ≡ short_at KEY_MAX bytes.now }
{
    let (key, rest) = short_of(KEY_MAX, bytes)?;
    Some((Key::new(key).ok()?, rest))
}

fn body_of(bytes: &[u8]) -> Option<(Body, &[u8])>
    ensures { option_map (λ x. (x.0, x.1.now)) result ≡ short_at BODY_MAX bytes.now }
{
    let (body, rest) = short_of(BODY_MAX, bytes)?;
    Some((Body::new(body).ok()?, rest))
}

#[tactic(auto, unfolding(crate::specs::Reading::present_row_at))]
fn present_row_of(bytes: &[u8]) -> Option<(Row, &[u8])>
    ensures { option_map (λ x. (x.0, x.1.now)) result ≡ present_row_at bytes.now }
{
    let Some((key, rest)) = key_of(bytes) else {
        return None;
    };
    let Some((body, rest)) = body_of(rest) else {
        return None;
    };
    Some((Row { key, body }, rest))
}

#[tactic(auto, unfolding(crate::specs::Reading::row_at))]
fn row_of(bytes: &[u8]) -> Option<(Option<Row>, &[u8])>
    ensures { option_map (λ x. (x.0, x.1.now)) result ≡ row_at bytes.now }
{
    match bytes {
        [0, rest @ ..] => Some((None, rest)),
        [1, rest @ ..] => {
            let Some((row, rest)) = present_row_of(rest) else {
                return None;
            };
            Some((Some(row), rest))
        }
        _ => None,
    }
}

#[tactic(auto, unfolding(crate::specs::Reading::change_at))]
fn change_of(bytes: &[u8]) -> Option<(Change, &[u8])>
    ensures { option_map (λ x. (x.0, x.1.now)) result ≡ change_at bytes.now }
{
    let (position, rest) = byte_of(bytes)?;
    let Some((rid, rest)) = rid_of(rest) else {
        return None;
    };
    let Some((old, rest)) = row_of(rest) else {
        return None;
    };
    let Some((new, rest)) = row_of(rest) else {
        return None;
    };
    let rows = Rows::from_both(old, new)?;
    if position < CHANGES_MAX {
        Some((
            Change {
                position,
                rid,
                rows,
            },
            rest,
        ))
    } else {
        None
    }
}

#[tactic(auto, unfolding(crate::specs::Reading::pair_at))]
fn pair_of(bytes: &[u8]) -> Option<(Pair, &[u8])>
    ensures { option_map (λ x. (x.0, x.1.now)) result ≡ pair_at bytes.now }
{
    let Some((key, rest)) = key_of(bytes) else {
        return None;
    };
    let Some((rid, rest)) = rid_of(rest) else {
        return None;
    };
    Some((Pair { key, rid }, rest))
}

#[tactic(auto, unfolding(crate::specs::Reading::flag_at))]
fn flag_of(bytes: &[u8]) -> Option<(bool, &[u8])>
    ensures { option_map (λ x. (x.0, x.1.now)) result ≡ flag_at bytes.now }
{
    match bytes {
        [0, rest @ ..] => Some((false, rest)),
        [1, rest @ ..] => Some((true, rest)),
        _ => None,
    }
}

#[tactic(auto, unfolding(crate::specs::Reading::part_at))]
fn part_of(part: Part, bytes: &[u8]) -> Option<(Change, &[u8])>
    ensures read { option_map (λ x. (x.0, x.1.now)) result ≡ part_at part bytes.now }
    ensures rows { IfSome result (λ x. IsTrue (has_part part x.0.rows)) }
{
    let Some((change, rest)) = change_of(bytes) else {
        return None;
    };
    if part.is_in(&change.rows) {
        Some((change, rest))
    } else {
        None
    }
}

#[tactic(auto, unfolding(crate::specs::Reading::forward_at))]
fn forward_of(part: Part, bytes: &[u8]) -> Option<(TxnAction, &[u8])>
    ensures read { option_map (λ x. (x.0, x.1.now)) result ≡ forward_at part bytes.now }
    ensures rows { IfSome result (λ x. IsTrue (txn_has_rows x.0)) }
{
    let Some((change, rest)) = part_of(part, bytes) else {
        return None;
    };
    Some((TxnAction::Forward { part, change }, rest))
}

#[tactic(auto, unfolding(crate::specs::Reading::undo_at))]
fn undo_of(part: Part, bytes: &[u8]) -> Option<(TxnAction, &[u8])>
    ensures read { option_map (λ x. (x.0, x.1.now)) result ≡ undo_at part bytes.now }
    ensures rows { IfSome result (λ x. IsTrue (txn_has_rows x.0)) }
{
    let Some((change, rest)) = part_of(part, bytes) else {
        return None;
    };
    let (last, rest) = flag_of(rest)?;
    Some((TxnAction::Undo { part, change, last }, rest))
}

#[tactic(auto, unfolding(crate::specs::Reading::txn_action_at))]
fn txn_action_of(kind: u8, bytes: &[u8]) -> Option<(TxnAction, &[u8])>
    ensures read { option_map (λ x. (x.0, x.1.now)) result ≡ txn_action_at kind bytes.now }
    ensures rows { IfSome result (λ x. IsTrue (txn_has_rows x.0)) }
{
    match kind {
        1 => forward_of(Part::Slot, bytes),
        2 => forward_of(Part::OldEntry, bytes),
        3 => forward_of(Part::NewEntry, bytes),
        4 => undo_of(Part::NewEntry, bytes),
        5 => undo_of(Part::Slot, bytes),
        6 => undo_of(Part::OldEntry, bytes),
        7 => Some((TxnAction::Commit, bytes)),
        8 => Some((TxnAction::End, bytes)),
        _ => None,
    }
}

#[tactic(auto, unfolding(crate::specs::Reading::index_action_at))]
fn index_action_of(kind: u8, bytes: &[u8]) -> Option<(IndexAction, &[u8])>
    ensures { option_map (λ x. (x.0, x.1.now)) result ≡ index_action_at kind bytes.now }
{
    match kind {
        9 => Some((IndexAction::Create, bytes)),
        10 => {
            let Some((pair, rest)) = pair_of(bytes) else {
                return None;
            };
            Some((IndexAction::BuildPlace { pair }, rest))
        }
        11 => {
            let Some((pair, rest)) = pair_of(bytes) else {
                return None;
            };
            Some((IndexAction::BuildCheckpoint { pair }, rest))
        }
        12 => Some((IndexAction::BuildDone, bytes)),
        13 => {
            let Some((pair, rest)) = pair_of(bytes) else {
                return None;
            };
            Some((IndexAction::Clean { pair }, rest))
        }
        14 => Some((IndexAction::Drop, bytes)),
        _ => None,
    }
}

#[tactic(auto, unfolding(crate::specs::Reading::action_at))]
fn action_of(txn: u64, bytes: &[u8]) -> Option<(Action, &[u8])>
    ensures read { option_map (λ x. (x.0, x.1.now)) result ≡ action_at txn bytes.now }
    ensures rows { IfSome result (λ x. IsTrue (has_rows x.0)) }
{
    let (kind, rest) = byte_of(bytes)?;
    match Txn::new(txn) {
        None => {
            let Some((action, rest)) = index_action_of(kind, rest) else {
                return None;
            };
            Some((Action::OfIndex { action }, rest))
        }
        Some(txn) => {
            let Some((action, rest)) = txn_action_of(kind, rest) else {
                return None;
            };
            Some((Action::OfTxn { txn, action }, rest))
        }
    }
}

#[tactic(auto, unfolding(crate::specs::Reading::record_at))]
fn record_of(bytes: &[u8]) -> Option<(Record, &[u8])>
    ensures { option_map (λ x. (x.0, x.1.now)) result ≡ record_at bytes.now }
{
    let (number, rest) = u64_of(bytes)?;
    let (txn, rest) = u64_of(rest)?;
    let Some((action, rest)) = action_of(txn, rest) else {
        return None;
    };
    let number = RecordNumber::new(number)?;
    Some((Record { number, action }, rest))
}

fn record_and_len(bytes: &[u8]) -> Option<(Record, usize)>
    ensures { result ≡ option_map (λ x. (x.0, length bytes.now - length x.1)) (record_at bytes.now) }
{
    let Some(found) = record_of(bytes) else {
        return None;
    };
    let len = bytes.len() - found.1.len();
    Some((found.0, len))
}

impl Record {
    /// The record at the front of the bytes, and its length.
    pub fn decode(bytes: &[u8]) -> Option<(Self, usize)>
        ensures inside { IfSome result (λ found. found.1 ≤ length bytes.now) }
        ensures found { IfSome result (λ found. take found.1 bytes.now ≡ spelling found.0) }
        ensures fits { IfSome result (λ found. Fits found.0) }
        ensures none { IfNone result ((r : RecordValue) (rest : List ℕ) → Fits r → bytes.now ≡ spelling r ++ rest → ⊥) }
    {
        record_and_len(bytes)
    }
}
