// More calls that take no memory: a scan hands out the pairs of two runs, and a core is read, and gives its index away.
use crate::memory_tests::{fill_page, take_page};
use crate::quiet_tests::{hand_out, insert, new_core};
use crate::values::{Memory, claim, claim_at, row_of};
use core_committed::get_committed;
use core_scan::{KeyRange, count};
use heap_pages::Heap;
use model::Life;
use nsf_core::{Core, Counts};
use records::{Error, Mark, Pair, Rid, Row, SLOTS_PER_PAGE, Txn, compare_pairs};
use sorted_scan::Scan;
use std::alloc::Allocator;
use std::mem::forget;
use std::process::Abort;

// ---- a scan of two runs

// So many full pages have more pairs than a run.
const PAGES: u32 = 66;

const PAIRS: u32 = PAGES * SLOTS_PER_PAGE as u32;

// A scan takes each page, full of rows whose keys lie far apart.
fn scan_pages<A: Allocator + Copy>(
    rt: &impl Abort,
    heap: &mut Heap<A>,
    scan: &mut Scan<A>,
) -> Result<(), Error> {
    for page in 0..PAGES {
        fill_page(rt, heap, page, PAIRS)?;
        take_page(rt, heap, scan, page)?;
    }
    Ok(())
}

fn is_above(last: &Option<Pair>, pair: &Pair) -> bool {
    match last {
        Some(last) => compare_pairs(last, pair).is_lt(),
        None => true,
    }
}

// How many pairs the scan hands out, each above the one before.
fn handed_in_order<A: Allocator + Copy>(scan: &mut Scan<A>) -> u32 {
    let mut last = None;
    for handed in 0..=PAIRS {
        let Some(pair) = hand_out(scan) else {
            return handed;
        };
        if !is_above(&last, &pair) {
            return u32::MAX;
        }
        last = Some(pair);
    }
    u32::MAX
}

/// The pairs of two runs are handed out in order.
pub(crate) fn use_runs<A: Allocator + Copy>(
    rt: &impl Abort,
    memory: &Memory,
    within: A,
) -> Result<(), Error> {
    let mut heap = Heap::new(within, PAGES)?;
    let mut scan = Scan::new(within, None, PAGES);
    let scanned = scan_pages(rt, &mut heap, &mut scan);
    forget(heap);
    memory.refuse_after(0);
    let handed = handed_in_order(&mut scan);
    forget(scan);
    claim_at(
        rt,
        scanned.is_err() || handed == PAIRS,
        "pairs in order:",
        handed,
    );
    scanned
}

// ---- a core

fn commit<A: Allocator + Copy>(rt: &impl Abort, core: &mut Core<A>, txn: Txn) -> Result<(), Error> {
    assert!(rt; core.ready(txn));
    core.commit(txn).and(Ok(()))
}

fn delete<A: Allocator + Copy>(
    rt: &impl Abort,
    core: &mut Core<A>,
    txn: Txn,
    rid: Rid,
) -> Result<(), Error> {
    assert!(rt; core.ready(txn));
    core.start_delete(txn, rid)
}

fn make_step<A: Allocator + Copy>(
    rt: &impl Abort,
    core: &mut Core<A>,
    txn: Txn,
) -> Result<(), Error> {
    assert!(rt; core.owes(txn).is_some());
    core.next_step(txn)
}

// The places of the rows that are put.
const FIRST: Rid = Rid { page: 0, slot: 0 };

const SECOND: Rid = Rid { page: 0, slot: 1 };

// Two rows are put and committed.
fn put_two<A: Allocator + Copy>(
    rt: &impl Abort,
    core: &mut Core<A>,
    first: &Row,
    second: &Row,
) -> Result<(), Error> {
    let txn = core.begin()?;
    insert(rt, core, txn, *first)?;
    insert(rt, core, txn, *second)?;
    commit(rt, core, txn)
}

// The index is built to its end: a page is scanned, and two pairs are placed.
fn build<A: Allocator + Copy>(core: &mut Core<A>) -> Result<(), Error> {
    core.create_index()?;
    for _ in 0..4u8 {
        core.build_step()?;
    }
    Ok(())
}

// A transaction deletes the first row, and is not committed yet.
fn delete_first<A: Allocator + Copy>(rt: &impl Abort, core: &mut Core<A>) -> Result<Txn, Error> {
    let txn = core.begin()?;
    delete(rt, core, txn, FIRST)?;
    make_step(rt, core, txn)?;
    Ok(txn)
}

// A row that waits to be gone is no longer read, but it is committed.
fn is_still_committed<A: Allocator + Copy>(core: &Core<A>, row: &Row) -> bool {
    core.get(FIRST).is_none() && get_committed(core, FIRST) == Some(*row)
}

fn counts<A: Allocator + Copy>(core: &Core<A>) -> Counts {
    core.counts()
}

// Both entries stand together, and the last of them is the second row's.
fn are_entries<A: Allocator + Copy>(core: &Core<A>, second: &Row) -> bool {
    let last = Pair {
        key: second.key,
        rid: SECOND,
    };
    core.run_above(None).len() == 2 && core.below(None) == Some((last, Mark::Live))
}

fn count_visible<A: Allocator + Copy>(core: &Core<A>) -> Result<u64, Error> {
    count(core, &KeyRange::all())
}

// What is read of a core with two entries, of which one is marked. The cleaner's place is moved too.
fn read_core<A: Allocator + Copy>(rt: &impl Abort, core: &mut Core<A>, first: &Row, second: &Row) {
    let wanted = Counts {
        rows: 1,
        entries: 2,
        marked: 1,
    };
    claim(rt, counts(core) == wanted, "rows and entries");
    claim(rt, are_entries(core, second), "a run of entries");
    claim(rt, count_visible(core) == Ok(1), "a visible entry");
    claim(rt, is_still_committed(core, first), "a committed row");
    core.pass_live(2);
}

// The index is given away, where the outbox has room for the record of that.
fn give_index_away<A: Allocator + Copy>(rt: &impl Abort, core: &mut Core<A>) {
    let detached = core.detach_index();
    let is_gone = core.life() == Life::Absent && core.above(None).is_none();
    claim(rt, detached.is_ok() && is_gone, "an index that is gone");
    forget(detached);
}

fn read_and_detach<A: Allocator + Copy>(
    rt: &impl Abort,
    memory: &Memory,
    core: &mut Core<A>,
    first: &Row,
    second: &Row,
) -> Result<(), Error> {
    put_two(rt, core, first, second)?;
    build(core)?;
    let txn = delete_first(rt, core)?;
    memory.refuse_after(0);
    read_core(rt, core, first, second);
    memory.refuse_after(u64::MAX);
    commit(rt, core, txn)?;
    memory.refuse_after(0);
    give_index_away(rt, core);
    Ok(())
}

/// A core is read, and gives its index away.
pub(crate) fn use_reads<A: Allocator + Copy>(
    rt: &impl Abort,
    memory: &Memory,
    within: A,
) -> Result<(), Error> {
    let first = row_of(7)?;
    let second = row_of(8)?;
    let mut core = new_core(within)?;
    let used = read_and_detach(rt, memory, &mut core, &first, &second);
    forget(core);
    used
}
