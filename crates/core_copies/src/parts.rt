//! The parts of a copy: lists, rows and entries.
ghost use Rattle.std.specs.Prelude.{◌≡◌, ◌≤◌, ℕ, length, None, IsSome, OnOk, IfOk, IfErr};
ghost use Rattle.std.specs.FinMap as map;
ghost use Rattle.record_values.specs.Maps.{set_at};
ghost use Rattle.record_values.specs.Values.{Place};
ghost use Rattle.heap_pages.specs.Pages.{IsPlaceInside};
ghost use Rattle.core_parts.specs.Moves.{txn_shown};
ghost use Rattle.nsf_core.specs.Value.{value_of};
ghost use Rattle.core_copies.specs.Pieces.{AreEntriesOf, IsPageOf};
ghost use Rattle.core_copies.specs.Private.{HasListPut, HasPagePut, unlisted};
ghost use Rattle.model.specs.Extended.{table_of};
ghost use Rattle.core_copies.specs.Shown.{list_shown};

use btree_node::Entry;
use model::{EntryMap, ListMap, RowMap};
use nsf_core::Core;
use records::{Error, Mark, Pair, Rid, Row, SLOTS_PER_PAGE, Txn};
use std::alloc::Allocator;
use store_image_model::{CHUNK_ENTRIES, PageRows};

// Adds the list that the log has of the transaction, if it has one.
fn put_list<A: Allocator + Copy>(
    alloc: A,
    core: &Core<A>,
    txn: Txn,
    lists: &mut ListMap<A>,
) -> Result<(), Error>
    ensures put { OnOk result (HasListPut (list_shown (txn_shown (value_of core.now) txn)) txn lists.old lists.new) }
    ensures no_memory { IfErr result (λ e. e ≡ Error.NoMemory) }
{
    let holds = core.holds_rows(txn);
    if !holds {
        return Ok(());
    }
    let Some(changes) = core.changes(txn) else {
        return Ok(());
    };
    let mut list = Vec::new(alloc);
    list.extend_from_slice(changes)?;
    lists.set(txn, list)?;
    Ok(())
}

/// The lists that the log has of the active transactions.
pub(crate) fn all_lists<A: Allocator + Copy>(alloc: A, core: &Core<A>) -> Result<ListMap<A>, Error>
    ensures each { IfOk result (λ lists. (t : ℕ) → map.get lists t ≡ list_shown (txn_shown (value_of core.now) t)) }
    ensures few { IfOk result (λ lists. map.len lists ≤ length (value_of core.now).txns.active) }
    ensures no_memory { IfErr result (λ e. e ≡ Error.NoMemory) }
{
    let mut lists = ListMap::new(alloc);
    for index in 0..core.active_txns() {
        let Some(txn) = core.txn_at(index) else {
            unreachable!()
        };
        put_list(alloc, core, txn, &mut lists)?;
    }
    Ok(lists)
}

// Puts the row of a place where none is yet to others, if there is one.
fn put_row<A: Allocator>(
    rows: &mut Vec<(Rid, Row), A>,
    rid: Rid,
    found: Option<Row>,
) -> Result<(), Error>
    requires { map.get (table_of rows.old.items) rid ≡ None }
    ensures put { OnOk result (table_of rows.new.items ≡ set_at (table_of rows.old.items) rid found) }
    ensures no_memory { IfErr result (λ e. e ≡ Error.NoMemory) }
{
    match found {
        None => Ok(()),
        Some(row) => {
            rows.push((rid, row))?;
            Ok(())
        }
    }
}

// Puts the rows of the page to others.
fn put_page<A: Allocator + Copy>(
    core: &Core<A>,
    page: u32,
    rows: &mut Vec<(Rid, Row), A>,
) -> Result<(), Error>
    requires inside { (r : Place) → IsSome (map.get (value_of core.now).heap.rows r)
        → IsPlaceInside (value_of core.now).heap r }
    requires none { (q : Place) → q.page ≡ page → map.get (table_of rows.old.items) q ≡ None }
    ensures put { OnOk result (HasPagePut (value_of core.now).heap.rows page (table_of rows.old.items)
        (table_of rows.new.items)) }
    ensures no_memory { IfErr result (λ e. e ≡ Error.NoMemory) }
{
    for slot in 0..SLOTS_PER_PAGE {
        let rid = Rid { page, slot };
        put_row(rows, rid, core.get(rid))?;
    }
    Ok(())
}

/// The rows of the page.
pub(crate) fn page_rows<A: Allocator + Copy>(
    alloc: A,
    core: &Core<A>,
    page: u32,
) -> Result<PageRows<A>, Error>
    ensures rows { IfOk result (λ rows. IsPageOf (unlisted (value_of core.now)) page rows) }
    ensures no_memory { IfErr result (λ e. e ≡ Error.NoMemory) }
{
    core.stands();
    match core.page_slots(page) {
        Some(slots) => Ok(PageRows::new(alloc, page, slots)?),
        None => Ok(PageRows::empty(alloc)),
    }
}

/// All rows.
pub(crate) fn all_rows<A: Allocator + Copy>(alloc: A, core: &Core<A>) -> Result<RowMap<A>, Error>
    ensures rows { IfOk result (λ rows. rows ≡ (value_of core.now).heap.rows) }
    ensures no_memory { IfErr result (λ e. e ≡ Error.NoMemory) }
{
    let mut listed = Vec::new(alloc);
    for page in 0..core.pages() {
        put_page(core, page, &mut listed)?;
    }
    let mut rows = RowMap::new(alloc);
    rows.extend(alloc, &listed)?;
    Ok(rows)
}

/// All entries.
pub(crate) fn all_entries<A: Allocator + Copy>(
    alloc: A,
    core: &Core<A>,
) -> Result<EntryMap<A>, Error>
    ensures entries { IfOk result (λ entries. entries ≡ (value_of core.now).index.entries) }
    ensures no_memory { IfErr result (λ e. e ≡ Error.NoMemory) }
{
    let mut listed = Vec::new(alloc);
    let mut last = None;
    let mut run: &[Entry] = &[];
    while let Some((entry, rest)) = core.left_or_next(run, last).split_first() {
        last = Some(entry.pair);
        run = rest;
        listed.push((entry.pair, entry.mark))?;
    }
    let mut entries = EntryMap::new(alloc);
    entries.extend(alloc, &listed)?;
    Ok(entries)
}

/// The next entries above the pair: `CHUNK_ENTRIES` at most, fewer where no more are left.
pub(crate) fn next_entries<A: Allocator + Copy>(
    alloc: A,
    core: &Core<A>,
    above: Option<Pair>,
) -> Result<Vec<(Pair, Mark), A>, Error>
    ensures entries { IfOk result (λ entries. AreEntriesOf (value_of core.now)
        (unlisted (value_of core.now)) above entries.items) }
    ensures no_memory { IfErr result (λ e. e ≡ Error.NoMemory) }
{
    core.stands();
    let mut entries = Vec::with_capacity(alloc, CHUNK_ENTRIES)?;
    let mut last = above;
    let mut run: &[Entry] = &[];
    while entries.len() < CHUNK_ENTRIES {
        let Some((entry, rest)) = core.left_or_next(run, last).split_first() else {
            return Ok(entries);
        };
        last = Some(entry.pair);
        run = rest;
        entries.push((entry.pair, entry.mark))?;
    }
    Ok(entries)
}
