//! The pages of the heap.
ghost use Rattle.std.specs.Prelude.{◌≡◌, ◌≢◌, ◌+◌, ◌*◌, ◌/◌, ◌^◌, ◌<◌, ◌≤◌, ◌↔◌, ℕ, map, length, slice_get, Some, None};
ghost use Rattle.std.specs.Prelude.{if◌then◌else◌, true};
ghost use Rattle.std.specs.Prelude.{All, Contains, IfSome, IfNone, IfOk, IfErr, IsErr, IsSome};
ghost use Rattle.std.specs.List.Sorted.{IsStrictlyIncreasing};
ghost use Rattle.std.specs.declared.cmp.Ordering.{Ordering};
ghost use Rattle.std.specs.FinMap.{get, empty, len};
ghost use Rattle.record_values.specs.Values.{Place};
ghost use Rattle.record_values.specs.Orders.{rid_cmp};
ghost use Rattle.record_values.specs.Maps.{set_at};
ghost use Rattle.record_values.specs.declared.pair.Pair.{Pair};
ghost use Rattle.record_values.specs.declared.rid.TheConstants.{SLOTS_PER_PAGE};
ghost use Rattle.heap_pages.specs.Pages.{IsPlaceInside, IsEmptyAndUnheld, IsPairOnPage, page_rows, pairs_of};
ghost use Rattle.heap_pages.specs.Pages.{AreAllOpen, IsNoneFree};

use crate::page::{HeapPage, SLOTS, held_slots};
use crate::slot_set::SlotSet;
use records::{Error, Pair, Rid, Row, SLOTS_PER_PAGE};
use std::alloc::Allocator;
use std::marker::Model;

// Of how many pages a set of open pages tells.
const RUN: u32 = SLOTS_PER_PAGE as u32;

/// The rows of the table, each at its place.
///
/// Whether a row may be touched is no matter of the heap: it keeps what is put where.
#[derive(Drop)]
pub struct Heap<A: Allocator> {
    alloc: A,
    pages: Vec<HeapPage, A>,
    // of each run of as many pages as a page has slots, those that aren't full
    open_pages: Vec<SlotSet, A>,
    // how many rows there are
    count: usize,
}

impl<A: Allocator> Model for Heap<A> {
    ghost use Rattle.std.specs.Prelude.{◌≡◌, ◌<◌, ◌+◌, ◌/◌, ◌^◌, map, length};
    ghost use Rattle.std.specs.FinMap.{len};
    ghost use Rattle.record_values.specs.declared.rid.TheConstants.{SLOTS_PER_PAGE};
    ghost use Rattle.heap_pages.specs.Slots.{slots_of};
    ghost use Rattle.heap_pages.specs.Pages.{HeapValue, coded_heap, rows_of, OthersAreFull};

    ghost Value = { HeapValue };

    ghost coded = { coded_heap };

    ghost view = { λ h. record {
      pages = length h.pages.items;
      rows = rows_of (map slots_of h.pages.items);
    } };

    ghost invariant = { λ h. (length h.pages.items < 2 ^ 32)
        × (length h.open_pages.items ≡ length h.pages.items / SLOTS_PER_PAGE + 1)
        × OthersAreFull h.open_pages.items h.pages.items
        × (h.count ≡ len (rows_of (map slots_of h.pages.items))) };
}

// So many runs of pages, none of which is full.
fn all_open<A: Allocator>(alloc: A, runs: u32) -> Result<Vec<SlotSet, A>, Error>
    ensures number { IfOk result (λ sets. length sets.items ≡ runs) }
    ensures each { IfOk result (λ sets. AreAllOpen sets.items) }
    ensures no_memory { IfErr result (λ e. e ≡ Error.NoMemory) }
{
    let mut sets = Vec::with_capacity(alloc, runs as usize)?;
    for _ in 0..runs {
        sets.push(SlotSet::all())?;
    }
    Ok(sets)
}

// How many rows there are, once a place that had one, or none, has one, or none.
fn recount(count: usize, had_row: bool, has_row: bool) -> usize
    requires had { had_row ≡ true → 0 < count }
    requires few { count < 2 ^ 63 }
    ensures { result + (if had_row then 1 else 0) ≡ count + (if has_row then 1 else 0) }
{
    if had_row {
        return if has_row { count } else { count - 1 };
    }
    if has_row { count + 1 } else { count }
}

impl<A: Allocator + Copy> Heap<A> {
    /// A heap of so many empty pages.
    ///
    /// The memory of all pages is taken here: to put a row or to look for one takes none.
    /// The one error is `NoMemory`.
    pub fn new(alloc: A, pages: u32) -> Result<Self, Error>
        ensures made { IfOk result (λ heap. heap ≡ record { pages = pages; rows = empty }) }
        ensures no_memory { IfErr result (λ e. e ≡ Error.NoMemory) }
    {
        let mut made = Vec::with_capacity(alloc, pages as usize)?;
        for _ in 0..pages {
            made.push(HeapPage::new())?;
        }
        Ok(Heap {
            alloc,
            pages: made,
            open_pages: all_open(alloc, pages / RUN + 1)?,
            count: 0,
        })
    }

    /// A law: what the type keeps. Each row is at a place of the heap.
    pub fn stands(&self)
        ensures { (r : Place) → IsSome (get self.now.rows r) → IsPlaceInside self.now r }
    {
        // a look at a field, so that what the type keeps is at hand
        let _ = &self.pages;
    }

    /// How many pages there are.
    pub fn pages(&self) -> u32
        ensures number { result ≡ self.now.pages }
        ensures rows_inside { (r : Place) → IsSome (get self.now.rows r) → IsPlaceInside self.now r }
    {
        self.pages.len() as u32
    }

    /// How many rows there are.
    pub fn len(&self) -> usize
        ensures { result ≡ len self.now.rows }
    {
        self.count
    }

    /// The row at the place: none where it is empty, or on a page that the heap does not have.
    pub fn get(&self, rid: Rid) -> Option<Row>
        ensures row { result ≡ get self.now.rows rid }
        ensures inside { IsSome result → IsPlaceInside self.now rid }
    {
        match self.pages.get(rid.page as usize) {
            Some(page) => page.get(rid.slot),
            None => None,
        }
    }

    /// The rows of the page, by their slots: none where a slot is empty. `None` only where no slot of the page has a
    /// row.
    pub fn page_slots(&self, page: u32) -> Option<&[Option<Row>; SLOTS]>
        ensures slots { IfSome result (λ rows. (slot : ℕ) → slot < SLOTS_PER_PAGE
            → slice_get rows.now slot ≡ Some (get self.now.rows (record { page = page; slot = slot }))) }
        ensures none { result ≡ None → (slot : ℕ) → slot < SLOTS_PER_PAGE
            → get self.now.rows (record { page = page; slot = slot }) ≡ None }
    {
        match self.pages.get(page as usize) {
            Some(found) => found.slots(),
            None => None,
        }
    }

    /// Puts the row at the place, or empties it. Every other place stays as it was.
    ///
    /// It takes no memory.
    pub fn set(&mut self, rid: Rid, row: Option<Row>)
        requires { rid.page < self.old.pages }
        ensures { self.new ≡ record self.old { rows = set_at self.old.rows rid row } }
    {
        let page = &mut self.pages[rid.page as usize];
        let had_row = page.has_row(rid.slot);
        let has_row = row.is_some();
        page.set(rid.slot, row);
        let is_open = !page.is_full();
        let run = &mut self.open_pages[(rid.page / RUN) as usize];
        run.put((rid.page % RUN) as u16, is_open);
        self.count = recount(self.count, had_row, has_row);
    }

    /// The least place that is empty and not among the held ones: first by its page, then by its
    /// slot.
    ///
    /// It takes no memory. The one error is `HeapFull`, where there is no such place.
    pub fn least_free(&self, held: &[Rid]) -> Result<Rid, Error>
        ensures free { IfOk result (IsEmptyAndUnheld self.now held.now) }
        ensures least { IfOk result (λ r.
            (q : Place) → IsEmptyAndUnheld self.now held.now q → rid_cmp q r ≢ Ordering.Less) }
        ensures full { IsErr result → (q : Place) → ¬ IsEmptyAndUnheld self.now held.now q }
        ensures heap_full { IfErr result (λ e. e ≡ Error.HeapFull) }
    {
        let runs = self.pages() / RUN + 1;
        for run in 0..runs {
            if let Some(rid) = self.least_free_in(run, held) {
                return Ok(rid);
            }
        }
        Err(Error::HeapFull)
    }

    // The least such place on the pages of a run, where there is none on those before it.
    fn least_free_in(&self, run: u32, held: &[Rid]) -> Option<Rid>
        requires inside { run ≤ self.now.pages / SLOTS_PER_PAGE }
        requires before { IsNoneFree self.now held.now (run * SLOTS_PER_PAGE) }
        ensures free { IfSome result (IsEmptyAndUnheld self.now held.now) }
        ensures least { IfSome result (λ r.
            (q : Place) → IsEmptyAndUnheld self.now held.now q → rid_cmp q r ≢ Ordering.Less) }
        ensures none { IfNone result (IsNoneFree self.now held.now ((run + 1) * SLOTS_PER_PAGE)) }
    {
        let set = &self.open_pages[run as usize];
        if set.is_empty() {
            return None;
        }
        let first = run * RUN;
        let end = first.saturating_add(RUN).min(self.pages());
        for page in first..end {
            if !set.has((page - first) as u16) {
                continue;
            }
            let slots = &self.pages[page as usize];
            if let Some(slot) = slots.first_free(&held_slots(page, held)) {
                return Some(Rid { page, slot });
            }
        }
        None
    }

    /// The pair of each row of the page, once, in the order of the slots.
    ///
    /// The one error is `NoMemory`.
    pub fn page_pairs(&self, page: u32) -> Result<Vec<Pair, A>, Error>
        requires { page < self.now.pages }
        ensures pairs { IfOk result (λ pairs. pairs.items ≡ pairs_of (page_rows self.now.rows page)) }
        ensures each { IfOk result (λ pairs.
            (p : Pair) → Contains pairs.items p ↔ IsPairOnPage self.now.rows page p) }
        ensures own { IfOk result (λ pairs. All (λ p. p.rid.page ≡ page) pairs.items) }
        ensures in_slot_order { IfOk result (λ pairs.
            IsStrictlyIncreasing (map (λ p. p.rid.slot) pairs.items)) }
        ensures few { IfOk result (λ pairs. length pairs.items ≤ SLOTS_PER_PAGE) }
        ensures no_memory { IfErr result (λ e. e ≡ Error.NoMemory) }
    {
        let slots = &self.pages[page as usize];
        let mut pairs = Vec::new(self.alloc);
        for slot in 0..SLOTS_PER_PAGE {
            if let Some(row) = slots.get(slot) {
                pairs.push(Pair {
                    key: row.key,
                    rid: Rid { page, slot },
                })?;
            }
        }
        Ok(pairs)
    }
}
