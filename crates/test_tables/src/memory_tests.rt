// Each part is used with each of its allocations refused in turn: it wants memory just where one was refused.
use crate::jobs::{Job, do_job};
use crate::quiet_tests::{hand_out, set_row};
use crate::values::{claim, claim_at, pair_of, row_of};
use heap_pages::Heap;
use marked_index::MarkedIndex;
use records::{Change, Error, Geometry, Mark, Pair, Record, Rid, Rows, SLOTS_PER_PAGE};
use sorted_scan::Scan;
use std::alloc::{Allocator, Global};
use std::mem::forget;
use std::process::Abort;
use txn_table::TxnTable;

// How often a part is used at most.
const PLAYS: u64 = 2_000;

// A scan takes the pairs of this page.
pub(crate) fn take_page<A: Allocator + Copy>(
    rt: &impl Abort,
    heap: &Heap<A>,
    scan: &mut Scan<A>,
    page: u32,
) -> Result<(), Error> {
    assert!(rt; page < heap.pages() && scan.wants_page() == Some(page));
    let pairs = heap.page_pairs(page)?;
    let taken = scan.take_page(page, &pairs);
    forget(pairs);
    taken
}

// The number in the key of the row at a place, of so many. Those that stand beside each other lie far apart.
fn number_at(rid: Rid, of: u32) -> u32 {
    let n = rid.page.wrapping_mul(u32::from(SLOTS_PER_PAGE));
    let n = n.wrapping_add(u32::from(rid.slot));
    n.wrapping_mul(2_741).checked_rem(of).unwrap_or(0)
}

/// Puts a row in each place of the page, of so many rows.
pub(crate) fn fill_page<A: Allocator + Copy>(
    rt: &impl Abort,
    heap: &mut Heap<A>,
    page: u32,
    of: u32,
) -> Result<(), Error> {
    for slot in 0..SLOTS_PER_PAGE {
        let rid = Rid { page, slot };
        let row = row_of(number_at(rid, of))?;
        set_row(rt, heap, rid, Some(row));
    }
    Ok(())
}

// How many pairs the scan hands out, up to those of a page and one more.
fn handed_out<A: Allocator + Copy>(scan: &mut Scan<A>) -> u16 {
    for pairs in 0..=SLOTS_PER_PAGE {
        if hand_out(scan).is_none() {
            return pairs;
        }
    }
    u16::MAX
}

fn scan_all<A: Allocator + Copy>(rt: &impl Abort, memory: A, heap: &Heap<A>) -> Result<(), Error> {
    let mut scan = Scan::new(memory, None, 1);
    let taken = take_page(rt, heap, &mut scan, 0);
    let pairs = handed_out(&mut scan);
    forget(scan);
    claim(
        rt,
        taken.is_err() || pairs == SLOTS_PER_PAGE,
        "a pair of each slot",
    );
    taken
}

fn fill_and_scan<A: Allocator + Copy>(
    rt: &impl Abort,
    memory: A,
    heap: &mut Heap<A>,
) -> Result<(), Error> {
    fill_page(rt, heap, 0, u32::from(SLOTS_PER_PAGE))?;
    scan_all(rt, memory, heap)
}

// Fills a page, whose pairs come from a scan then.
fn scan_page<A: Allocator + Copy>(rt: &impl Abort, memory: A) -> Result<(), Error> {
    let mut heap = Heap::new(memory, 1)?;
    let scanned = fill_and_scan(rt, memory, &mut heap);
    forget(heap);
    scanned
}

fn change_in<A: Allocator + Copy>(table: &mut TxnTable<A>, rows: &Rows) -> Result<(), Error> {
    for page in 0..4u32 {
        let txn = table.begin()?;
        for position in 0..9u8 {
            let slot = u16::from(position);
            let rid = Rid { page, slot };
            let change = Change {
                position,
                rid,
                rows: *rows,
            };
            table.note(txn, change)?;
        }
    }
    Ok(())
}

// Four transactions make nine changes each.
fn change_rows<A: Allocator + Copy>(memory: A) -> Result<(), Error> {
    let new = row_of(0)?;
    let mut table = TxnTable::new(memory);
    let changed = change_in(&mut table, &Rows::Inserted { new });
    forget(table);
    changed
}

fn add_entry<A: Allocator + Copy>(
    rt: &impl Abort,
    index: &mut MarkedIndex<A>,
    number: u32,
    pair: &Pair,
) -> Result<(), Error> {
    assert!(rt; 0 < index.pledged());
    match number % 4 {
        0 => index.txn_put(pair).and(Ok(())),
        1 => index.txn_mark(pair).and(Ok(())),
        2 => index.build_put(pair).and(Ok(())),
        _ => index.load(pair, Some(Mark::Live)),
    }
}

fn has<A: Allocator + Copy>(index: &MarkedIndex<A>, pair: &Pair) -> bool {
    index.get(pair).is_some()
}

fn pledge_and_add<A: Allocator + Copy>(
    rt: &impl Abort,
    index: &mut MarkedIndex<A>,
    number: u32,
    pair: &Pair,
) -> Result<(), Error> {
    index.pledge()?;
    add_entry(rt, index, number, pair)?;
    claim(rt, has(index, pair), "an entry that was added");
    Ok(())
}

// How many places are shown of a key.
fn shown_of<A: Allocator + Copy>(
    memory: A,
    index: &MarkedIndex<A>,
    pair: &Pair,
) -> Result<usize, Error> {
    let shown = index.shown_of(memory, pair.key)?;
    let places = shown.len();
    forget(shown);
    Ok(places)
}

fn add_to<A: Allocator + Copy>(
    rt: &impl Abort,
    memory: A,
    index: &mut MarkedIndex<A>,
) -> Result<(), Error> {
    for number in 0..34u32 {
        let pair = pair_of(number)?;
        pledge_and_add(rt, index, number, &pair)?;
    }
    let pair = pair_of(0)?;
    claim(
        rt,
        shown_of(memory, index, &pair)? == 1,
        "one place of a key",
    );
    Ok(())
}

// Each way to add an entry, by turns; then the shown ones of a key are listed.
fn add_entries<A: Allocator + Copy>(rt: &impl Abort, memory: A) -> Result<(), Error> {
    let geometry = Geometry::new(1, 256, 4)?;
    let mut index = MarkedIndex::new(memory, geometry);
    let added = add_to(rt, memory, &mut index);
    forget(index);
    added
}

// The spelling of the record of the longest row.
const LONGEST: &[u8] = b"\0\0\0\0\0\0\0\x01\0\0\0\0\0\0\0\x01\x01\0\0\0\0\0\0\0\0\x01\
    \x38kkkkkkkkkkkkkkkkkkkkkkkkkkkkkkkkkkkkkkkkkkkkkkkkkkkkkkkk\
    \x45bbbbbbbbbbbbbbbbbbbbbbbbbbbbbbbbbbbbbbbbbbbbbbbbbbbbbbbbbbbbbbbbbbbbb";

fn encode_in<A: Allocator>(memory: A, record: &Record) -> Result<usize, Error> {
    let mut bytes = Vec::new(memory);
    let encoded = record.encode_into(&mut bytes);
    let length = bytes.len();
    forget(bytes);
    encoded.and(Ok(length))
}

// A record is spelled in bytes that grow from none.
fn encode<A: Allocator + Copy>(rt: &impl Abort, memory: A) -> Result<(), Error> {
    match Record::decode(LONGEST) {
        Some((record, _)) => {
            let length = encode_in(memory, &record)?;
            claim(rt, length == LONGEST.len(), "the longest record");
        }
        None => claim(rt, false, "a record"),
    }
    Ok(())
}

/// Uses the part of this number.
pub(crate) fn use_part<A: Allocator + Copy>(
    rt: &impl Abort,
    memory: A,
    part: u8,
) -> Result<(), Error> {
    match part {
        0 => scan_page(rt, memory),
        1 => change_rows(memory),
        2 => encode(rt, memory),
        _ => add_entries(rt, memory),
    }
}

// Uses a part with this allocation refused. Whether it was.
fn is_refused(rt: &impl Abort, alloc: Global, part: u8, before: u64) -> bool {
    let (used, refused) = do_job(rt, alloc, before, Job::Use(part));
    let is_refused = refused > 0;
    let wanted = if is_refused {
        Err(Error::NoMemory)
    } else {
        Ok(())
    };
    claim_at(
        rt,
        used == wanted,
        "a want of memory just where it is refused, of part",
        u32::from(part),
    );
    is_refused
}

// How many allocations of a part are refused in turn, until none is.
fn refusals_of(rt: &impl Abort, alloc: Global, part: u8) -> u64 {
    for before in 0..PLAYS {
        if !is_refused(rt, alloc, part, before) {
            return before;
        }
    }
    0
}

// The parts by their numbers, and how many allocations each makes at least.
static PARTS: [(u8, u64); 4] = [(0, 4), (1, 4), (2, 1), (3, 4)];

#[test]
fn each_allocation_is_refused(rt: HostRuntime) {
    for (part, least) in &PARTS {
        let refusals = refusals_of(&rt, rt.alloc(), *part);
        claim_at(
            &rt,
            refusals >= *least,
            "allocations of part",
            u32::from(*part),
        );
    }
}
