//! What one seat sees of what another does: each change at once, by each call that reads.
ghost use Rattle.std.specs.Prelude.{◌≡◌};

use crate::one_thread::formatted;
use nsf::{
    Body, Error, Geometry, Group, Key, KeyRange, Life, MemDisk, NoGate, Rid, Seat, Shared, Txn,
    build_loop,
};
use shared::{BuildPart, Told};
use std::alloc::Global;
use std::marker::Brand;
use std::mem::forget;
use std::sync::Wait;
use threads_lifetime::{OpenStore, Parts, open_store};

// What is seen: whether a row is at the first place, and a committed one; how many places one key has, and committed
// ones; how many pairs there are forward, backward and committed; how many are counted, and how many rows; and how far
// the index is, without a seat too. 99 where that is refused.
#[derive(Clone, Copy, PartialEq)]
struct Seen {
    row: (bool, bool),
    places: (usize, usize),
    pairs: (usize, usize, usize),
    counts: (u64, usize),
    life: u8,
}

const REFUSED: usize = 99;

// What the first seat does.
#[derive(Clone, Copy)]
enum Act {
    Begin,
    Put(&'static [u8]),
    DeleteFirst,
    Commit,
    Create,
    Build,
    Drop,
}

const FIRST: Rid = Rid { page: 0, slot: 0 };

const KEY: &[u8] = b"ant";

// What is to be seen: without a complete index the row at the first place, how many rows there are, and how far the
// index is; with one the row, and how many places the key has, of which all pairs are.
#[derive(Clone, Copy)]
enum Wanted {
    Unindexed((bool, bool), usize, u8),
    Indexed((bool, bool), (usize, usize)),
}

impl Wanted {
    fn seen(self) -> Seen {
        match self {
            Wanted::Unindexed(row, rows, life) => Seen {
                row,
                places: (REFUSED, REFUSED),
                pairs: (REFUSED, REFUSED, REFUSED),
                counts: (REFUSED as u64, rows),
                life,
            },
            Wanted::Indexed(row, (all, committed)) => Seen {
                row,
                places: (all, committed),
                pairs: (all, all, committed),
                counts: (all as u64, all),
                life: 2,
            },
        }
    }
}

// A row is put and committed; the index is created, and built; another row with the same key is put, and the first one
// deleted; that is committed, and the index is dropped.
static STEPS: [(Act, Wanted); 10] = [
    (Act::Begin, Wanted::Unindexed((false, false), 0, 0)),
    (Act::Put(KEY), Wanted::Unindexed((true, false), 1, 0)),
    (Act::Commit, Wanted::Unindexed((true, true), 1, 0)),
    (Act::Create, Wanted::Unindexed((true, true), 1, 1)),
    (Act::Build, Wanted::Indexed((true, true), (1, 1))),
    (Act::Begin, Wanted::Indexed((true, true), (1, 1))),
    (Act::Put(KEY), Wanted::Indexed((true, true), (2, 1))),
    (Act::DeleteFirst, Wanted::Indexed((false, true), (1, 1))),
    (Act::Commit, Wanted::Indexed((false, false), (1, 1))),
    (Act::Drop, Wanted::Unindexed((false, false), 1, 0)),
];

// ---- what is seen

fn rows_at_first<B: Group, R: Wait>(
    rt: &R,
    shared: &Shared<B>,
    seat: &mut Seat<B>,
) -> (bool, bool) {
    let row = shared.get(rt, seat, FIRST);
    let committed = shared.get_committed(rt, seat, FIRST);
    (row.is_some(), committed.is_some())
}

// How many there are, or that they are refused.
fn length_of<T: Drop>(found: Result<Vec<T>, Error>) -> usize {
    match found {
        Ok(found) => {
            let length = found.len();
            forget(found);
            length
        }
        Err(_) => REFUSED,
    }
}

fn places<B: Group, R: Wait>(
    rt: &R,
    alloc: Global,
    shared: &Shared<B>,
    seat: &mut Seat<B>,
    key: Key,
) -> (usize, usize) {
    let found = shared.find(rt, seat, key);
    let committed = shared.find_committed(rt, alloc, seat, key);
    (length_of(found), length_of(committed))
}

fn pairs<B: Group, R: Wait>(
    rt: &R,
    alloc: Global,
    shared: &Shared<B>,
    seat: &mut Seat<B>,
    range: &KeyRange,
) -> (usize, usize) {
    let forward = shared.scan(rt, alloc, seat, range, None, 9);
    let backward = shared.scan_back(rt, alloc, seat, range, None, 9);
    (
        length_of(forward.map(|page| page.pairs)),
        length_of(backward.map(|page| page.pairs)),
    )
}

fn committed_pairs<B: Group, R: Wait>(
    rt: &R,
    alloc: Global,
    shared: &Shared<B>,
    seat: &mut Seat<B>,
    range: &KeyRange,
) -> usize {
    let page = shared.scan_committed(rt, alloc, seat, range, None, 9);
    length_of(page.map(|page| page.pairs))
}

fn counted<B: Group, R: Wait>(
    rt: &R,
    shared: &Shared<B>,
    seat: &mut Seat<B>,
    range: &KeyRange,
) -> (u64, usize) {
    let pairs = shared.count(rt, seat, range).unwrap_or(REFUSED as u64);
    (pairs, shared.counts(rt, seat).rows)
}

fn number_of(life: Life) -> u8 {
    match life {
        Life::Absent => 0,
        Life::Building { .. } => 1,
        Life::Complete => 2,
    }
}

// How far the index is, if it is told to be as far without a seat.
fn life<B: Group, R: Wait>(rt: &R, shared: &Shared<B>, seat: &mut Seat<B>) -> u8 {
    let with_seat = number_of(shared.life(rt, seat));
    if with_seat == number_of(shared.life_without_seat(rt)) {
        with_seat
    } else {
        u8::MAX
    }
}

fn look<B: Group, R: Wait>(
    rt: &R,
    alloc: Global,
    shared: &Shared<B>,
    seat: &mut Seat<B>,
    key: Key,
) -> Seen {
    let range = KeyRange::all();
    let (forward, backward) = pairs(rt, alloc, shared, seat, &range);
    Seen {
        row: rows_at_first(rt, shared, seat),
        places: places(rt, alloc, shared, seat, key),
        pairs: (
            forward,
            backward,
            committed_pairs(rt, alloc, shared, seat, &range),
        ),
        counts: counted(rt, shared, seat, &range),
        life: life(rt, shared, seat),
    }
}

// ---- what is done

fn change<B: Group, R: Wait>(
    rt: &R,
    shared: &Shared<B>,
    seat: &mut Seat<B>,
    txn: Txn,
    act: Act,
) -> Result<(), Error> {
    let change = match act {
        Act::Put(key) => {
            let body = Body::new(b"")?;
            shared.insert_if_ready(rt, seat, txn, Key::new(key)?, body)?
        }
        _ => shared.delete_if_ready(rt, seat, txn, FIRST)?,
    };
    match change.rest {
        None => Ok(()),
        Some(error) => Err(error),
    }
}

// Does it, in the transaction that began last, if there is one. That transaction.
fn make_step<B: Group, R: Wait>(
    rt: &R,
    shared: &Shared<B>,
    (seat, build): (&mut Seat<B>, &mut BuildPart<B>),
    begun: Option<Txn>,
    act: Act,
) -> Result<Option<Txn>, Error> {
    match act {
        Act::Begin => return Ok(Some(shared.begin(rt, seat)?)),
        Act::Put(_) | Act::DeleteFirst => {
            change(rt, shared, seat, begun.ok_or(Error::NoSuchTxn)?, act)?;
        }
        Act::Commit => {
            shared.commit_if_ready(rt, seat, begun.ok_or(Error::NoSuchTxn)?)?;
        }
        Act::Create => {
            shared.create_index(rt, seat)?;
        }
        Act::Build => {
            build_loop(rt, shared, build, &NoGate)?;
        }
        Act::Drop => {
            shared.drop_index(rt, seat)?;
        }
    }
    Ok(begun)
}

// Does each step by one seat, and looks by the other. Whether each is seen.
fn do_all<B: Group, R: Wait>(
    rt: &R,
    alloc: Global,
    shared: &Shared<B>,
    parts: &mut Parts<B, MemDisk<Global>>,
) -> Result<bool, Error> {
    let key = Key::new(KEY)?;
    let (Some(mut other), Some(mut seat)) = (parts.seats.pop(), parts.seats.pop()) else {
        return Ok(false);
    };
    let mut begun = None;
    let mut all = true;
    for (step, wanted) in &STEPS {
        begun = make_step(rt, shared, (&mut seat, &mut parts.build), begun, *step)?;
        all = all && look(rt, alloc, shared, &mut other, key) == wanted.seen();
    }
    Ok(all)
}

// The same in the store.
fn do_in<B: Group, R: Wait>(
    rt: &R,
    alloc: Global,
    store: OpenStore<MemDisk<Global>>,
) -> Result<bool, Error>
    requires { store.site ≡ B.site }
{
    match store.start::<B, Told>() {
        Ok((shared, mut parts)) => {
            let seen = do_all(rt, alloc, &shared, &mut parts);
            forget(parts);
            forget(shared);
            seen
        }
        Err((error, device)) => {
            forget(device);
            Err(error)
        }
    }
}

/// Whether a seat sees at once, by each call that reads, what another seat did.
pub(crate) fn is_seen_at_once<R: Wait>(rt: &R, alloc: Global) -> Result<bool, Error> {
    let disk = formatted(alloc, Geometry::new(1, 64, 4)?)?;
    match open_store(alloc, disk, 2) {
        Ok(store) => do_in::<Brand, R>(rt, alloc, store),
        Err((_, device)) => {
            forget(device);
            Err(Error::NotFormatted)
        }
    }
}
