// The calls that take no memory. Each is made where the next allocation would be refused, and counted. A page, a heap
// and a board are let go of there too.
ghost use Rattle.std.specs.Prelude.{◌≡◌};

use crate::jobs::{Job, do_job};
use crate::memory_tests::take_page;
use crate::quiet_reads::{use_reads, use_runs};
use crate::tree_tests::{found, put, put_in_leaf, put_quietly, take};
use crate::values::{Memory, RID, claim, claim_at, pair_of, row_of};
use board::{Board, BuildView, FlushView, View};
use btree_node::{BTree, InLeaf};
use heap_pages::{Heap, HeapPage};
use marked_index::MarkedIndex;
use nsf_core::{Core, Owed};
use records::{Change, Error, Geometry, Mark, Pair, Rid, Row, Rows, Txn};
use sector_device::{Device, MemDisk, SECTOR_SIZE};
use sorted_scan::Scan;
use std::alloc::{Allocator, Global};
use std::mem::forget;
use std::process::Abort;
use txn_table::TxnTable;

// Most of these make few calls of the part, and promise nothing, so that who makes several has no more to read than it
// needs.

fn set_slot(page: &mut HeapPage, row: Option<Row>) {
    page.set(5, row);
}

fn row_in_slot(page: &HeapPage) -> Option<Row> {
    page.get(5)
}

fn use_page(rt: &impl Abort, row: Option<Row>) {
    let mut page = HeapPage::new();
    set_slot(&mut page, row);
    claim(rt, row_in_slot(&page) == row, "a row of a page");
    drop(page);
}

pub(crate) fn set_row<A: Allocator + Copy>(
    rt: &impl Abort,
    heap: &mut Heap<A>,
    rid: Rid,
    row: Option<Row>,
) {
    assert!(rt; rid.page < heap.pages());
    heap.set(rid, row);
}

fn row_in<A: Allocator + Copy>(heap: &Heap<A>) -> Option<Row> {
    heap.get(RID)
}

// Puts it in place, or takes it away.
fn set_and_get<A: Allocator + Copy>(rt: &impl Abort, heap: &mut Heap<A>, row: Option<Row>) {
    set_row(rt, heap, RID, row);
    claim(rt, row_in(heap) == row, "a row of a heap");
}

fn use_heap<A: Allocator + Copy>(
    rt: &impl Abort,
    memory: &Memory,
    within: A,
    row: &Row,
) -> Result<(), Error> {
    let mut heap = Heap::new(within, 1)?;
    memory.refuse_after(0);
    use_page(rt, Some(*row));
    set_and_get(rt, &mut heap, Some(*row));
    set_and_get(rt, &mut heap, None);
    drop(heap);
    Ok(())
}

fn mark<A: Allocator + Copy>(rt: &impl Abort, tree: &mut BTree<A>, pair: &Pair) {
    assert!(rt; tree.get(pair).0.is_some());
    tree.set_mark(pair, Mark::Marked);
}

fn above<A: Allocator + Copy>(tree: &BTree<A>, pair: &Pair) -> Option<(Pair, Mark)> {
    tree.above(Some(pair))
}

// The last pair of a tree of two levels, and the one before: it is found, marked and taken out.
fn join<A: Allocator + Copy>(rt: &impl Abort, tree: &mut BTree<A>, pair: &Pair, before: &Pair) {
    claim(
        rt,
        found(tree, pair) == (Some(Mark::Live), 2),
        "a pair on the second level",
    );
    mark(rt, tree, pair);
    let next = above(tree, before);
    claim(
        rt,
        next == Some((*pair, Mark::Marked)),
        "a pair that is marked",
    );
    take(rt, tree, pair);
    claim(rt, above(tree, before).is_none(), "a pair that is gone");
    claim(rt, tree.len() == 32, "32 pairs");
}

fn fill_leaf<A: Allocator + Copy>(rt: &impl Abort, tree: &mut BTree<A>) -> Result<(), Error> {
    for number in 0..32u32 {
        put(rt, tree, number)?;
    }
    Ok(())
}

// A full leaf has no room for a pair. Where another one was taken out it is put in, and is found there then. In the
// end the leaf has what it had.
fn fill_again<A: Allocator + Copy>(
    rt: &impl Abort,
    tree: &mut BTree<A>,
    pair: &Pair,
    other: &Pair,
) {
    let full = put_in_leaf(rt, tree, pair, Mark::Live);
    claim(rt, full == InLeaf::NoRoom, "a full leaf");
    take(rt, tree, other);
    let with_room = put_in_leaf(rt, tree, pair, Mark::Live);
    claim(rt, with_room == InLeaf::Added, "a leaf with room");
    let held = put_in_leaf(rt, tree, pair, Mark::Marked);
    claim(
        rt,
        held == InLeaf::Found(Mark::Live),
        "a pair that is there",
    );
    take(rt, tree, pair);
    let again = put_in_leaf(rt, tree, other, Mark::Live);
    claim(rt, again == InLeaf::Added, "what was taken out");
    claim(rt, tree.len() == 32, "32 pairs again");
}

// The pair that is put last splits a full leaf, and with it the tree gets a root.
fn split_and_join<A: Allocator + Copy>(
    rt: &impl Abort,
    memory: &Memory,
    tree: &mut BTree<A>,
) -> Result<(), Error> {
    let (pair, before) = (pair_of(32)?, pair_of(31)?);
    fill_leaf(rt, tree)?;
    fill_again(rt, tree, &pair, &before);
    put_quietly(rt, tree, &pair, memory)?;
    join(rt, tree, &pair, &before);
    Ok(())
}

fn use_tree<A: Allocator + Copy>(rt: &impl Abort, memory: &Memory, within: A) -> Result<(), Error> {
    let mut tree = BTree::new(within);
    let used = split_and_join(rt, memory, &mut tree);
    forget(tree);
    used
}

fn make_room<A: Allocator + Copy>(tree: &mut BTree<A>, pair: &Pair) -> bool {
    tree.make_room(pair)
}

// A full leaf behind a half full one hands it entries, and then has room.
fn hand_over<A: Allocator + Copy>(rt: &impl Abort, tree: &mut BTree<A>, pair: &Pair) {
    let full = put_in_leaf(rt, tree, pair, Mark::Live);
    claim(rt, full == InLeaf::NoRoom, "a full leaf behind another");
    claim(rt, make_room(tree, pair), "a half full leaf before it");
    let with_room = put_in_leaf(rt, tree, pair, Mark::Live);
    claim(rt, with_room == InLeaf::Added, "a leaf that has room now");
    claim(rt, !make_room(tree, pair), "a leaf that isn't full");
    claim(rt, tree.len() == 49, "49 pairs");
}

// Two leaves: the first one is half full, the second one is full.
fn fill_and_hand<A: Allocator + Copy>(
    rt: &impl Abort,
    memory: &Memory,
    tree: &mut BTree<A>,
) -> Result<(), Error> {
    let pair = pair_of(48)?;
    for number in 0..48u32 {
        put(rt, tree, number)?;
    }
    memory.refuse_after(0);
    hand_over(rt, tree, &pair);
    Ok(())
}

fn use_leaves<A: Allocator + Copy>(
    rt: &impl Abort,
    memory: &Memory,
    within: A,
) -> Result<(), Error> {
    let mut tree = BTree::new(within);
    let used = fill_and_hand(rt, memory, &mut tree);
    forget(tree);
    used
}

fn pledge<A: Allocator + Copy>(rt: &impl Abort, index: &mut MarkedIndex<A>) -> Result<(), Error> {
    index.pledge()?;
    assert!(rt; 0 < index.pledged());
    Ok(())
}

fn release<A: Allocator + Copy>(rt: &impl Abort, index: &mut MarkedIndex<A>) {
    assert!(rt; 0 < index.pledged());
    index.release(1);
}

fn mark_new<A: Allocator + Copy>(
    rt: &impl Abort,
    index: &mut MarkedIndex<A>,
    pair: &Pair,
) -> Result<(), Error> {
    assert!(rt; 0 < index.pledged());
    index.txn_mark(pair).and(Ok(()))
}

fn is_marked<A: Allocator + Copy>(index: &MarkedIndex<A>, pair: &Pair) -> bool {
    index.get(pair) == Some(Mark::Marked) && index.above(None).is_some()
}

fn clean<A: Allocator + Copy>(index: &mut MarkedIndex<A>, pair: &Pair) -> bool {
    index.clean(pair, true)
}

fn pledge_and_mark<A: Allocator + Copy>(
    rt: &impl Abort,
    index: &mut MarkedIndex<A>,
    pair: &Pair,
) -> Result<(), Error> {
    pledge(rt, index)?;
    mark_new(rt, index, pair)
}

fn mark_quietly<A: Allocator + Copy>(
    rt: &impl Abort,
    memory: &Memory,
    index: &mut MarkedIndex<A>,
    pair: &Pair,
) -> Result<(), Error> {
    pledge_and_mark(rt, index, pair)?;
    memory.refuse_after(0);
    pledge(rt, index)?;
    release(rt, index);
    claim(rt, is_marked(index, pair), "a marked entry");
    claim(rt, clean(index, pair), "an entry that is taken out");
    claim(rt, index.is_empty(), "an empty index");
    Ok(())
}

fn use_index<A: Allocator + Copy>(
    rt: &impl Abort,
    memory: &Memory,
    within: A,
    pair: &Pair,
) -> Result<(), Error> {
    let geometry = Geometry::new(1, 64, 4)?;
    let mut index = MarkedIndex::new(within, geometry);
    let used = mark_quietly(rt, memory, &mut index, pair);
    forget(index);
    used
}

// A transaction that has made this change.
fn changing<A: Allocator + Copy>(table: &mut TxnTable<A>, change: Change) -> Result<Txn, Error> {
    let txn = table.begin()?;
    table.note(txn, change)?;
    Ok(txn)
}

fn holds<A: Allocator + Copy>(table: &TxnTable<A>, txn: Txn) -> bool {
    table.holder(RID) == Some(txn) && table.held_rows().len() == 1
}

fn undone<A: Allocator + Copy>(table: &mut TxnTable<A>, txn: Txn) -> Option<Change> {
    table.pop_undo(txn)
}

fn end<A: Allocator + Copy>(table: &mut TxnTable<A>, txn: Txn) -> Result<(), Error> {
    table.end(txn)
}

fn undo<A: Allocator + Copy>(rt: &impl Abort, table: &mut TxnTable<A>, txn: Txn, change: Change) {
    claim(rt, holds(table, txn), "a row that is held");
    claim(rt, undone(table, txn) == Some(change), "the change");
    claim(rt, end(table, txn) == Ok(()), "an end");
    claim(rt, table.is_empty(), "an empty table");
}

fn change_and_undo<A: Allocator + Copy>(
    rt: &impl Abort,
    memory: &Memory,
    table: &mut TxnTable<A>,
    change: Change,
) -> Result<(), Error> {
    let txn = changing(table, change)?;
    memory.refuse_after(0);
    undo(rt, table, txn, change);
    Ok(())
}

fn use_table<A: Allocator + Copy>(
    rt: &impl Abort,
    memory: &Memory,
    within: A,
    new: Row,
) -> Result<(), Error> {
    let change = Change {
        position: 0,
        rid: RID,
        rows: Rows::Inserted { new },
    };
    let mut table = TxnTable::new(within);
    let used = change_and_undo(rt, memory, &mut table, change);
    forget(table);
    used
}

fn next<A: Allocator + Copy>(scan: &Scan<A>) -> Option<Pair> {
    scan.next()
}

pub(crate) fn hand_out<A: Allocator + Copy>(scan: &mut Scan<A>) -> Option<Pair> {
    scan.hand_out()
}

// Whether the scan hands out this pair alone.
fn hands_out<A: Allocator + Copy>(scan: &mut Scan<A>, pair: Pair) -> bool {
    let first = next(scan);
    let handed = hand_out(scan);
    first == Some(pair) && handed == first && next(scan).is_none() && scan.remaining() == 0
}

// A scan of a page on which this row stands alone.
fn scan_row<A: Allocator + Copy>(
    rt: &impl Abort,
    within: A,
    scan: &mut Scan<A>,
    row: Row,
) -> Result<(), Error> {
    let mut heap = Heap::new(within, 1)?;
    set_row(rt, &mut heap, RID, Some(row));
    let taken = take_page(rt, &heap, scan, 0);
    forget(heap);
    taken
}

fn use_scan<A: Allocator + Copy>(
    rt: &impl Abort,
    memory: &Memory,
    within: A,
    row: Row,
    pair: Pair,
) -> Result<(), Error> {
    let mut scan = Scan::new(within, None, 1);
    let scanned = scan_row(rt, within, &mut scan, row);
    memory.refuse_after(0);
    let is_handed = hands_out(&mut scan, pair);
    forget(scan);
    claim(rt, scanned.is_err() || is_handed, "the pair");
    scanned
}

fn begun<A: Allocator + Copy>(core: &mut Core<A>) -> Result<Txn, Error> {
    core.create_index()?;
    core.begin()
}

pub(crate) fn insert<A: Allocator + Copy>(
    rt: &impl Abort,
    core: &mut Core<A>,
    txn: Txn,
    row: Row,
) -> Result<Rid, Error> {
    assert!(rt; core.ready(txn));
    core.start_insert(txn, row.key, row.body)
}

fn owes_key<A: Allocator + Copy>(core: &Core<A>, txn: Txn) -> bool {
    core.owes(txn) == Some(Owed::KeyPut) && !core.ready(txn)
}

fn has_row_alone<A: Allocator + Copy>(core: &Core<A>, rid: Rid, row: Row) -> bool {
    core.get(rid) == Some(row) && core.above(None).is_none()
}

fn is_indexed<A: Allocator + Copy>(core: &Core<A>) -> bool {
    core.life().is_indexed() && core.attempts() == 0
}

pub(crate) fn new_core<A: Allocator + Copy>(within: A) -> Result<Core<A>, Error> {
    let geometry = Geometry::new(1, 64, 4)?;
    Core::new(within, geometry, 0)
}

// In a core with an index a transaction inserts this row.
fn insert_quietly<A: Allocator + Copy>(
    rt: &impl Abort,
    memory: &Memory,
    core: &mut Core<A>,
    row: &Row,
) -> Result<(), Error> {
    let txn = begun(core)?;
    let rid = insert(rt, core, txn, *row)?;
    memory.refuse_after(0);
    claim(rt, has_row_alone(core, rid, *row), "a row, and no entry");
    claim(rt, owes_key(core, txn), "an entry that is owed");
    claim(rt, is_indexed(core), "an index");
    Ok(())
}

fn use_core<A: Allocator + Copy>(
    rt: &impl Abort,
    memory: &Memory,
    within: A,
    row: &Row,
) -> Result<(), Error> {
    let mut core = new_core(within)?;
    let used = insert_quietly(rt, memory, &mut core, row);
    forget(core);
    used
}

static SECTOR: [u8; SECTOR_SIZE] = [7; SECTOR_SIZE];

fn writes<D: Device>(rt: &impl Abort, disk: &mut D) -> bool {
    assert!(rt; 1 < disk.sectors());
    disk.write(1, &SECTOR).is_ok()
}

fn reads<D: Device>(rt: &impl Abort, disk: &mut D) -> bool {
    assert!(rt; 1 < disk.sectors());
    let mut sector = [0; SECTOR_SIZE];
    disk.read(1, &mut sector).is_ok() && sector == SECTOR
}

fn syncs<D: Device>(disk: &mut D) -> bool {
    disk.sync().is_ok()
}

fn use_sectors<D: Device>(rt: &impl Abort, disk: &mut D) {
    claim(rt, writes(rt, disk), "a sector that is written");
    claim(rt, reads(rt, disk), "a sector that is read");
    claim(rt, syncs(disk), "a sync");
}

// A disk in memory that has room for these calls.
fn use_disk<A: Allocator + Copy>(rt: &impl Abort, memory: &Memory, within: A) -> Result<(), Error> {
    let mut disk = MemDisk::new(within, 3, 8)?;
    memory.refuse_after(0);
    use_sectors(rt, &mut disk);
    forget(disk);
    Ok(())
}

// Flusher and builder read the stop flag, and another view learns what both have told.
fn settle_views<A: Allocator>(
    rt: &impl Abort,
    board: &Board<A>,
    flush: &mut FlushView,
    build: &mut BuildView,
    view: &mut View,
)
    requires flush { flush.old.board ≡ board.now }
    requires build { build.old.board ≡ board.now }
    requires view { view.old.board ≡ board.now }
{
    let mut other = board.another(view);
    let are_stopped = board.stopped_flusher(flush) && board.stopped_builder(build);
    board.settle(flush, &mut other);
    board.settle_progress(build, &mut other);
    let is_known = board.horizon(&mut other) == 7 && board.progress(&mut other) == 3;
    claim(rt, are_stopped, "a stop flag of the loops");
    claim(rt, is_known, "what another view has learned");
    drop(other);
}

fn use_views<A: Allocator>(
    rt: &impl Abort,
    board: &Board<A>,
    flush: &mut FlushView,
    build: &mut BuildView,
    view: &mut View,
)
    requires flush { flush.old.board ≡ board.now }
    requires build { build.old.board ≡ board.now }
    requires view { view.old.board ≡ board.now }
{
    board.publish(flush, 7, 1);
    let is_published = board.horizon(view) == 7 && board.mark(view) == 1;
    board.raise_progress(build, 3);
    let is_raised = board.progress(view) == 3;
    board.fail(flush);
    let has_failed = board.failed(view);
    board.stop(view);
    claim(rt, is_published, "a horizon and its mark");
    claim(rt, is_raised, "the builder's progress");
    claim(rt, has_failed, "a failed flag");
    claim(rt, board.stopped(view), "a stop flag");
    settle_views(rt, board, flush, build, view);
}

// What threads tell one another on a board.
fn use_board<A: Allocator>(rt: &impl Abort, memory: &Memory, within: A) -> Result<(), Error> {
    let (board, flush, mut build, mut view) = Board::new(within)?;
    memory.refuse_after(0);
    let mut flush = flush.begin();
    use_views(rt, &board, &mut flush, &mut build, &mut view);
    drop(board);
    Ok(())
}

fn use_part<A: Allocator + Copy>(
    rt: &impl Abort,
    memory: &Memory,
    within: A,
    part: u8,
    (row, pair): (Row, Pair),
) -> Result<(), Error> {
    match part {
        0 => use_heap(rt, memory, within, &row),
        1 => use_tree(rt, memory, within),
        2 => use_index(rt, memory, within, &pair),
        3 => use_table(rt, memory, within, row),
        4 => use_scan(rt, memory, within, row, pair),
        5 => use_core(rt, memory, within, &row),
        6 => use_disk(rt, memory, within),
        8 => use_leaves(rt, memory, within),
        9 => use_runs(rt, memory, within),
        10 => use_reads(rt, memory, within),
        _ => use_board(rt, memory, within),
    }
}

/// Makes the calls of the part of this number that take no memory.
pub(crate) fn use_quietly<A: Allocator + Copy>(
    rt: &impl Abort,
    memory: &Memory,
    within: A,
    part: u8,
) -> Result<(), Error> {
    let values = (row_of(7)?, pair_of(7)?);
    use_part(rt, memory, within, part, values)
}

// Does so, and looks at the count of refusals.
fn look_at_part(rt: &impl Abort, alloc: Global, part: u8) {
    let (used, refused) = do_job(rt, alloc, u64::MAX, Job::UseQuietly(part));
    claim_at(
        rt,
        used.is_ok() && refused == 0,
        "no call of the allocator by part",
        u32::from(part),
    );
}

/// Begins a transaction where no memory is left.
pub(crate) fn begin_without<A: Allocator + Copy>(memory: &Memory, within: A) -> Result<(), Error> {
    let mut table = TxnTable::new(within);
    memory.refuse_after(0);
    let begun = table.begin();
    forget(table);
    begun.and(Ok(()))
}

// The count is not blind: a call that wants memory is refused, and counted.
#[test]
fn these_calls_make_no_call_of_the_allocator(rt: HostRuntime) {
    for part in 0..11 {
        look_at_part(&rt, rt.alloc(), part);
    }
    let (begun, refused) = do_job(&rt, rt.alloc(), u64::MAX, Job::BeginWithout);
    let is_counted = begun == Err(Error::NoMemory) && refused == 1;
    claim(&rt, is_counted, "one refusal");
}
