//! Writing records.
ghost use Rattle.std.specs.Prelude.{◌≡◌, ◌<◌, ◌++◌, ◌∷◌, [], ℕ, List, Some, None, length, take, OnOk, OnErr, IfErr};
ghost use Rattle.records.specs.Spelling as as_bytes;
ghost use Rattle.records.specs.Spelling.{spelling, Fits};

use crate::change::{Change, Rows};
use crate::record::{Action, IndexAction, Record, TxnAction};
use byteorder::{BigEndian, ByteOrder};
use record_values::{Error, Pair, Rid, Row};
use std::alloc::{AllocError, Allocator};

#[tactic(auto, unfolding(crate::specs::Spelling::u16))]
fn put_u16<A: Allocator>(out: &mut Vec<u8, A>, n: u16) -> Result<(), AllocError>
    ensures ok { OnOk result (out.new.items ≡ out.old.items ++ as_bytes.u16 n) }
    ensures kept { take (length out.old.items) out.new.items ≡ out.old.items }
{
    let mut bytes = [0; 2];
    BigEndian::write_u16(&mut bytes, n);
    out.extend_from_slice(&bytes)
}

#[tactic(auto, unfolding(crate::specs::Spelling::u32))]
fn put_u32<A: Allocator>(out: &mut Vec<u8, A>, n: u32) -> Result<(), AllocError>
    ensures ok { OnOk result (out.new.items ≡ out.old.items ++ as_bytes.u32 n) }
    ensures kept { take (length out.old.items) out.new.items ≡ out.old.items }
{
    let mut bytes = [0; 4];
    BigEndian::write_u32(&mut bytes, n);
    out.extend_from_slice(&bytes)
}

#[tactic(auto, unfolding(crate::specs::Spelling::u64))]
fn put_u64<A: Allocator>(out: &mut Vec<u8, A>, n: u64) -> Result<(), AllocError>
    ensures ok { OnOk result (out.new.items ≡ out.old.items ++ as_bytes.u64 n) }
    ensures kept { take (length out.old.items) out.new.items ≡ out.old.items }
{
    let mut bytes = [0; 8];
    BigEndian::write_u64(&mut bytes, n);
    out.extend_from_slice(&bytes)
}

fn put_byte<A: Allocator>(out: &mut Vec<u8, A>, byte: u8) -> Result<(), AllocError>
    ensures ok { OnOk result (out.new.items ≡ out.old.items ++ byte ∷ []) }
    ensures kept { take (length out.old.items) out.new.items ≡ out.old.items }
{
    Ok(out.push(byte)?)
}

fn put_short<A: Allocator>(out: &mut Vec<u8, A>, bytes: &[u8]) -> Result<(), AllocError>
    requires { length bytes.now < 256 }
    ensures ok { OnOk result (out.new.items ≡ out.old.items ++ as_bytes.short bytes.now) }
    ensures kept { take (length out.old.items) out.new.items ≡ out.old.items }
{
    put_byte(out, bytes.len() as u8)?;
    out.extend_from_slice(bytes)
}

fn put_rid<A: Allocator>(out: &mut Vec<u8, A>, rid: &Rid) -> Result<(), AllocError>
    ensures ok { OnOk result (out.new.items ≡ out.old.items ++ as_bytes.rid rid.now) }
    ensures kept { take (length out.old.items) out.new.items ≡ out.old.items }
{
    put_u32(out, rid.page)?;
    put_u16(out, rid.slot)
}

fn put_row<A: Allocator>(out: &mut Vec<u8, A>, row: &Row) -> Result<(), AllocError>
    ensures ok { OnOk result (out.new.items ≡ out.old.items ++ as_bytes.row (Some row.now)) }
    ensures kept { take (length out.old.items) out.new.items ≡ out.old.items }
{
    put_byte(out, 1)?;
    put_short(out, row.key.as_slice())?;
    put_short(out, row.body.as_slice())
}

fn put_no_row<A: Allocator>(out: &mut Vec<u8, A>) -> Result<(), AllocError>
    ensures ok { OnOk result (out.new.items ≡ out.old.items ++ as_bytes.row None) }
    ensures kept { take (length out.old.items) out.new.items ≡ out.old.items }
{
    put_byte(out, 0)
}

fn put_rows<A: Allocator>(out: &mut Vec<u8, A>, rows: &Rows) -> Result<(), AllocError>
    ensures ok { OnOk result (out.new.items ≡ out.old.items
        ++ (as_bytes.row (as_bytes.old_row rows.now) ++ as_bytes.row (as_bytes.new_row rows.now))) }
    ensures kept { take (length out.old.items) out.new.items ≡ out.old.items }
{
    match rows {
        Rows::Inserted { new } => {
            put_no_row(out)?;
            put_row(out, new)
        }
        Rows::Deleted { old } => {
            put_row(out, old)?;
            put_no_row(out)
        }
        Rows::Updated { old, new } => {
            put_row(out, old)?;
            put_row(out, new)
        }
    }
}

fn put_change<A: Allocator>(out: &mut Vec<u8, A>, change: &Change) -> Result<(), AllocError>
    ensures ok { OnOk result (out.new.items ≡ out.old.items ++ as_bytes.change change.now) }
    ensures kept { take (length out.old.items) out.new.items ≡ out.old.items }
{
    put_byte(out, change.position)?;
    put_rid(out, &change.rid)?;
    put_rows(out, &change.rows)
}

fn put_pair<A: Allocator>(out: &mut Vec<u8, A>, pair: &Pair) -> Result<(), AllocError>
    ensures ok { OnOk result (out.new.items ≡ out.old.items ++ as_bytes.pair pair.now) }
    ensures kept { take (length out.old.items) out.new.items ≡ out.old.items }
{
    put_short(out, pair.key.as_slice())?;
    put_rid(out, &pair.rid)
}

fn put_flag<A: Allocator>(out: &mut Vec<u8, A>, flag: bool) -> Result<(), AllocError>
    ensures ok { OnOk result (out.new.items ≡ out.old.items ++ as_bytes.flag flag) }
    ensures kept { take (length out.old.items) out.new.items ≡ out.old.items }
{
    put_byte(out, u8::from(flag))
}

fn put_change_of_kind<A: Allocator>(
    out: &mut Vec<u8, A>,
    kind: u8,
    change: &Change,
) -> Result<(), AllocError>
    ensures ok { OnOk result (out.new.items ≡ out.old.items ++ kind ∷ as_bytes.change change.now) }
    ensures kept { take (length out.old.items) out.new.items ≡ out.old.items }
{
    put_byte(out, kind)?;
    put_change(out, change)
}

fn put_txn_action<A: Allocator>(out: &mut Vec<u8, A>, action: &TxnAction) -> Result<(), AllocError>
    ensures ok { OnOk result (out.new.items ≡ out.old.items ++ as_bytes.txn_fields action.now) }
    ensures kept { take (length out.old.items) out.new.items ≡ out.old.items }
{
    match action {
        TxnAction::Forward { part, change } => put_change_of_kind(out, part.forward_kind(), change),
        TxnAction::Undo { part, change, last } => {
            put_change_of_kind(out, part.undo_kind(), change)?;
            put_flag(out, *last)
        }
        TxnAction::Commit => put_byte(out, 7),
        TxnAction::End => put_byte(out, 8),
    }
}

fn put_pair_of_kind<A: Allocator>(
    out: &mut Vec<u8, A>,
    kind: u8,
    pair: &Pair,
) -> Result<(), AllocError>
    ensures ok { OnOk result (out.new.items ≡ out.old.items ++ kind ∷ as_bytes.pair pair.now) }
    ensures kept { take (length out.old.items) out.new.items ≡ out.old.items }
{
    put_byte(out, kind)?;
    put_pair(out, pair)
}

fn put_index_action<A: Allocator>(
    out: &mut Vec<u8, A>,
    action: &IndexAction,
) -> Result<(), AllocError>
    ensures ok { OnOk result (out.new.items ≡ out.old.items ++ as_bytes.index_fields action.now) }
    ensures kept { take (length out.old.items) out.new.items ≡ out.old.items }
{
    match action {
        IndexAction::Create => put_byte(out, 9),
        IndexAction::BuildPlace { pair } => put_pair_of_kind(out, 10, pair),
        IndexAction::BuildCheckpoint { pair } => put_pair_of_kind(out, 11, pair),
        IndexAction::BuildDone => put_byte(out, 12),
        IndexAction::Clean { pair } => put_pair_of_kind(out, 13, pair),
        IndexAction::Drop => put_byte(out, 14),
    }
}

fn put_fields<A: Allocator>(out: &mut Vec<u8, A>, action: &Action) -> Result<(), AllocError>
    ensures ok { OnOk result (out.new.items ≡ out.old.items ++ as_bytes.fields_of action.now) }
    ensures kept { take (length out.old.items) out.new.items ≡ out.old.items }
{
    match action {
        Action::OfTxn { action, .. } => put_txn_action(out, action),
        Action::OfIndex { action } => put_index_action(out, action),
    }
}

impl Action {
    // The number of the transaction, or 0.
    fn txn_number(&self) -> u64
        ensures { result ≡ as_bytes.txn_of self.now }
    {
        match self {
            Action::OfTxn { txn, .. } => txn.number(),
            Action::OfIndex { .. } => 0,
        }
    }
}

fn put_record<A: Allocator>(out: &mut Vec<u8, A>, logged: &Record) -> Result<(), AllocError>
    ensures ok { OnOk result (out.new.items ≡ out.old.items ++ spelling logged.now) }
    ensures kept { take (length out.old.items) out.new.items ≡ out.old.items }
{
    put_u64(out, logged.number.get())?;
    put_u64(out, logged.action.txn_number())?;
    put_fields(out, &logged.action)
}

impl Record {
    /// Appends the record's spelling.
    pub fn encode_into<A: Allocator>(&self, out: &mut Vec<u8, A>) -> Result<(), Error>
        ensures ok { OnOk result (out.new.items ≡ out.old.items ++ spelling self.now) }
        ensures fits { Fits self.now }
        ensures err { OnErr result (out.new.items ≡ out.old.items) }
        ensures no_memory { IfErr result (λ e. e ≡ Error.NoMemory) }
    {
        let start = out.len();
        out.reserve(self.size())?;
        let put = put_record(out, self);
        if put.is_err() {
            out.truncate(start);
        }
        Ok(put?)
    }
}
