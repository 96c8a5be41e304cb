//! What C is told.
ghost use Rattle.std.specs.Prelude.{◌≡◌, ◌≤◌, length};
ghost use Rattle.nsf_c.specs.Told.{padded, plain, placed, paired, rowed, built_told, cleaned_told, life_told, row_told};
ghost use Rattle.nsf_c.specs.Scans.{shown};
ghost use Rattle.nsf_c.specs.Told.{sector_of, told_of, status_of};

use crate::kind;
use model::Life;
use nsf_core::{BuildReply, CleanReply};
use records::{BODY_MAX, Error, KEY_MAX, Pair, Rid, Row};
use restart::Reply;
use std::alloc::Global;

/// What is told for a reply: what kind of reply it is, and what that kind has.
#[repr(C)]
#[derive(Clone, Copy)]
pub struct Told {
    pub kind: u32,
    pub page: u32,
    pub number: u64,
    pub slot: u16,
    pub key_length: u8,
    pub body_length: u8,
    pub key: [u8; KEY_MAX],
    pub body: [u8; BODY_MAX],
}

/// What a store is, and how far it has come.
#[repr(C)]
#[derive(Clone, Copy)]
pub struct Stat {
    /// The number of the last record made.
    pub last: u64,
    /// Every record up to this number is synced.
    pub horizon: u64,
    /// The attempts of the builder since the store was opened.
    pub attempts: u64,
    /// The rows, committed or not.
    pub rows: u64,
    /// The entries of the index.
    pub entries: u64,
    /// Those of them that are marked.
    pub marked: u64,
    /// The pages of rows.
    pub pages: u32,
    /// How far the index is, as the kind of a reply.
    pub life: u32,
}

// The bytes, and zeros behind them.
fn padded<const MAX: usize>(bytes: &[u8]) -> [u8; MAX]
    requires { length bytes.now ≤ MAX }
    ensures { result ≡ padded MAX bytes.now }
{
    let mut held = [0; MAX];
    held[..bytes.len()].copy_from_slice(bytes);
    held
}

fn plain(kind: u32, number: u64) -> Told
    ensures { result ≡ plain kind number }
{
    Told {
        kind,
        page: 0,
        number,
        slot: 0,
        key_length: 0,
        body_length: 0,
        key: [0; KEY_MAX],
        body: [0; BODY_MAX],
    }
}

fn placed(kind: u32, number: u64, rid: Rid) -> Told
    ensures { result ≡ placed kind number rid }
{
    Told {
        page: rid.page,
        slot: rid.slot,
        ..plain(kind, number)
    }
}

fn paired(kind: u32, number: u64, pair: &Pair) -> Told
    ensures { result ≡ paired kind number pair.now }
{
    let key = pair.key.as_slice();
    Told {
        key_length: key.len() as u8,
        key: padded(key),
        ..placed(kind, number, pair.rid)
    }
}

fn rowed(kind: u32, row: &Row) -> Told
    ensures { result ≡ rowed kind row.now }
{
    let (key, body) = (row.key.as_slice(), row.body.as_slice());
    Told {
        key_length: key.len() as u8,
        body_length: body.len() as u8,
        key: padded(key),
        body: padded(body),
        ..plain(kind, 0)
    }
}

fn built_told(built: &BuildReply) -> Told
    ensures { result ≡ built_told built.now }
{
    match built {
        BuildReply::Scanned(page) => Told {
            page: *page,
            ..plain(kind::SCANNED, 0)
        },
        BuildReply::Placed(pair) => paired(kind::PLACED, 0, pair),
        BuildReply::Rejected(pair) => paired(kind::REJECTED, 0, pair),
        BuildReply::Marked(pair, ticket) => paired(kind::MARKED, ticket.record.get(), pair),
        BuildReply::Done(ticket) => plain(kind::DONE, ticket.record.get()),
        BuildReply::Idle => plain(kind::IDLE, 0),
    }
}

fn cleaned_told(cleaned: &CleanReply) -> Told
    ensures { result ≡ cleaned_told cleaned.now }
{
    match cleaned {
        CleanReply::Cleaned(pair) => paired(kind::CLEANED, 0, pair),
        CleanReply::Kept(pair) => paired(kind::KEPT, 0, pair),
        CleanReply::Wrapped => plain(kind::WRAPPED, 0),
    }
}

/// What is told of how far the index is.
pub(crate) fn life_told(life: &Life) -> Told
    ensures { result ≡ life_told life.now }
{
    match life {
        Life::Absent => plain(kind::ABSENT, 0),
        Life::Building { highest: None } => plain(kind::BUILDING, 0),
        Life::Building {
            highest: Some(pair),
        } => paired(kind::BUILDING_AT, 0, pair),
        Life::Complete => plain(kind::COMPLETE, 0),
    }
}

/// What is told of a row that was looked for.
pub(crate) fn row_told(row: &Option<Row>) -> Told
    ensures { result ≡ row_told row.now }
{
    match row {
        Some(row) => rowed(kind::ROW, row),
        None => plain(kind::NO_ROW, 0),
    }
}

/// What is told of the first of these pairs.
pub(crate) fn shown(pairs: &[Pair]) -> Told
    ensures { result ≡ shown pairs.now }
{
    match pairs.first() {
        Some(pair) => paired(kind::PAIR, 0, pair),
        None => plain(kind::AT_END, 0),
    }
}

// The sector that is damaged, and 0 for any other refusal.
fn sector_of(error: &Error) -> u64
    ensures { result ≡ sector_of error.now }
{
    match error {
        Error::Damaged { sector } => *sector,
        _ => 0,
    }
}

/// What is told for the reply.
pub(crate) fn told_of(reply: &Reply<Global>) -> Told
    ensures { result ≡ told_of reply.now }
{
    match reply {
        Reply::Txn(txn) => plain(kind::TXN, txn.number()),
        Reply::Rid(rid) => placed(kind::RID, 0, *rid),
        Reply::Stepped => plain(kind::STEPPED, 0),
        Reply::Undone => plain(kind::UNDONE, 0),
        Reply::Empty => plain(kind::EMPTY, 0),
        Reply::Ended => plain(kind::ENDED, 0),
        Reply::Ticket(ticket) => plain(kind::TICKET, ticket.record.get()),
        Reply::Built(built) => built_told(built),
        Reply::Cleaned(cleaned) => cleaned_told(cleaned),
        Reply::Horizon(number) => plain(kind::HORIZON, *number),
        Reply::LogFull => plain(kind::LOG_FULL, 0),
        Reply::Copied => plain(kind::COPIED, 0),
        Reply::Flipped(number) => plain(kind::FLIPPED, *number),
        Reply::Again => plain(kind::AGAIN, 0),
        Reply::Row(row) => row_told(row),
        Reply::Found(rids) => plain(kind::FOUND, rids.len() as u64),
        Reply::Life(life) => life_told(life),
        Reply::Skipped => plain(kind::SKIPPED, 0),
        Reply::Refused(error) => plain(kind::REFUSED, sector_of(error)),
    }
}

/// What a call with this reply answers: the number of the refusal, or 0.
pub(crate) fn status_of(reply: &Reply<Global>) -> u32
    ensures { result ≡ status_of reply.now }
{
    match reply {
        Reply::Refused(error) => u32::from(error.number()),
        _ => 0,
    }
}

/// What is told where what was asked for is no event.
pub(crate) fn refused() -> Told
    ensures { result ≡ plain 0 0 }
{
    plain(kind::REFUSED, 0)
}
