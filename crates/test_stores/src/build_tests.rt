// An index is built over as many rows as a store holds.
use crate::answer::Answer;
use crate::claims::claim_at;
use crate::disk::Disk;
use crate::jobs::{Job, Task, do_all};
use crate::opened::open;
use crate::store::{OpenStore, StoreMemory};
use nsf_core::BuildReply;
use records::{Body, Error, Key, Pair, Txn, compare_pairs};
use restart::Event;
use std::alloc::Global;
use std::process::Abort;

const PAGES: u32 = 256;

const ROWS: u32 = 16_128;

// The transaction that puts the row of this number: each puts 64.
fn txn_of(n: u32) -> Result<Txn, Error> {
    Txn::new(u64::from(n / 64) + 1).ok_or(Error::NoSuchTxn)
}

// The insertion of the row of this number. Keys that lie beside each other lie far apart.
fn insertion(txn: Txn, n: u32) -> Result<Event, Error> {
    let body = Body::new(b"")?;
    let key = Key::new(&(n % ROWS * 9_677 % ROWS).to_be_bytes())?;
    Ok(Event::Insert { txn, key, body })
}

// Puts the row of this number. Whether it has a place then. A transaction ends behind its last row.
fn put(store: &mut impl OpenStore, n: u32) -> Result<bool, Error> {
    let txn = txn_of(n)?;
    if n % 64 == 0 {
        store.ask(&Event::Begin);
    }
    let insertion = insertion(txn, n)?;
    let is_put = matches!(store.ask(&insertion), Answer::Rid(_));
    if n % 64 == 63 {
        store.ask(&Event::Commit { txn });
    }
    Ok(is_put)
}

// Puts a row in each place. How many rows have one then.
fn fill(store: &mut impl OpenStore) -> Result<u32, Error> {
    let mut rows: u32 = 0;
    for n in 0..ROWS {
        rows = rows.saturating_add(u32::from(put(store, n)?));
    }
    Ok(rows)
}

// The pair that a step of the builder puts in, if it does.
fn build_step(store: &mut impl OpenStore) -> Option<Pair> {
    match store.ask(&Event::Build) {
        Answer::Built(BuildReply::Placed(pair)) => Some(pair),
        _ => None,
    }
}

fn is_above(last: &Option<Pair>, pair: &Pair) -> bool {
    match last {
        Some(last) => compare_pairs(last, pair).is_lt(),
        None => true,
    }
}

// Each page is taken, each pair is put in, and there is a checkpoint after each 64. How many pairs were put in, each
// above the one before.
fn build(store: &mut impl OpenStore) -> u32 {
    let mut last = None;
    let mut placed: u32 = 0;
    for _ in 0..PAGES + ROWS + ROWS / 64 {
        if let Some(pair) = build_step(store) {
            placed = placed.saturating_add(u32::from(is_above(&last, &pair)));
            last = Some(pair);
        }
    }
    placed
}

// How many rows were put, and pairs of them in order; and whether the build comes to its end then.
fn fill_and_build(store: &mut impl OpenStore) -> Result<(u32, u32, bool), Error> {
    let rows = fill(store)?;
    store.ask(&Event::Create);
    let placed = build(store);
    let end = store.ask(&Event::Build);
    Ok((
        rows,
        placed,
        matches!(end, Answer::Built(BuildReply::Done(_))),
    ))
}

pub(crate) fn fill_and_build_over<M: StoreMemory>(
    rt: &impl Abort,
    memory: M,
    alloc: Global,
) -> Result<(), Error> {
    let mut store = open(rt, memory, Disk::formatted(alloc, PAGES, 4)?)?;
    let built = fill_and_build(&mut store);
    drop(store.close());
    let (rows, placed, is_done) = built?;
    claim_at(rt, rows == ROWS, "rows:", u64::from(rows));
    claim_at(
        rt,
        placed == ROWS && is_done,
        "pairs in order:",
        u64::from(placed),
    );
    Ok(())
}

static TASKS: [Task; 1] = [(&[], Job::BuildIndex)];

#[test]
fn an_index_over_every_place(rt: HostRuntime) {
    do_all(&rt, rt.alloc(), &TASKS);
}
