//! A page of the heap.
ghost use Rattle.std.specs.Prelude.{◌≡◌, ◌<◌, ◌↔◌, ℕ, Some, None, IsTrue, IsSome, IfSome, MatchOption, is_some};
ghost use Rattle.std.specs.Prelude.{slice_get};
ghost use Rattle.std.specs.FinMap.{get, empty};
ghost use Rattle.record_values.specs.Maps.{set_at};
ghost use Rattle.heap_pages.specs.Slots.{IsFirstFree, NoneFree};
ghost use Rattle.record_values.specs.Values.{is_among};

use crate::slot_set::SlotSet;
use records::{Rid, Row, SLOTS_PER_PAGE};
use std::marker::Model;

/// How many slots a page has.
pub(crate) const SLOTS: usize = SLOTS_PER_PAGE as usize;

/// A page of `SLOTS_PER_PAGE` slots, each with a row or none.
#[derive(Drop)]
pub struct HeapPage {
    slots: [Option<Row>; SLOTS],
    // the slots without a row
    open: SlotSet,
}

impl Model for HeapPage {
    ghost use Rattle.std.specs.Prelude.{◌≡◌, length, map, is_none};
    ghost use Rattle.record_values.specs.declared.rid.TheConstants.{SLOTS_PER_PAGE};
    ghost use Rattle.heap_pages.specs.Slots.{Slots, coded_slots, page_of};

    ghost Value = { Slots };

    ghost coded = { coded_slots };

    ghost view = { λ p. page_of p.slots };

    ghost invariant = { λ p. (length p.slots ≡ SLOTS_PER_PAGE) × (p.open ≡ map is_none p.slots) };
}

/// Which slots of the page are among the held places.
pub(crate) fn held_slots(page: u32, held: &[Rid]) -> SlotSet
    ensures { (s : ℕ) → s < SLOTS_PER_PAGE →
        slice_get result s ≡ Some (is_among (record { page = page; slot = s }) held.now) }
{
    let mut slots = SlotSet::none();
    for rid in held {
        if rid.page == page {
            slots.put(rid.slot, true);
        }
    }
    slots
}

impl HeapPage {
    /// A page without rows.
    pub fn new() -> Self
        ensures { result ≡ empty }
    {
        HeapPage {
            slots: [None; SLOTS],
            open: SlotSet::all(),
        }
    }

    /// The row in the slot: none where it is empty, or beyond the last slot.
    pub fn get(&self, slot: u16) -> Option<Row>
        ensures { result ≡ get self.now slot }
    {
        match self.slots.get(slot as usize) {
            Some(row) => *row,
            None => None,
        }
    }

    /// The row in each slot. `None` only where no slot has one.
    pub(crate) fn slots(&self) -> Option<&[Option<Row>; SLOTS]>
        ensures slots { IfSome result (λ rows. (s : ℕ) → s < SLOTS_PER_PAGE
            → slice_get rows.now s ≡ Some (get self.now s)) }
        ensures none { result ≡ None → (s : ℕ) → get self.now s ≡ None }
    {
        if self.open.is_all() {
            return None;
        }
        Some(&self.slots)
    }

    /// Puts the row into the slot, or empties it. Every other slot stays as it was.
    pub fn set(&mut self, slot: u16, row: Option<Row>)
        requires { slot < SLOTS_PER_PAGE }
        ensures { self.new ≡ set_at self.old slot row }
    {
        self.open.put(slot, row.is_none());
        self.slots[slot as usize] = row;
    }

    /// Whether the slot has a row.
    pub(crate) fn has_row(&self, slot: u16) -> bool
        requires { slot < SLOTS_PER_PAGE }
        ensures { result ≡ is_some (get self.now slot) }
    {
        !self.open.has(slot)
    }

    /// Whether each slot has a row.
    pub(crate) fn is_full(&self) -> bool
        ensures { IsTrue result ↔ ((s : ℕ) → s < SLOTS_PER_PAGE → IsSome (get self.now s)) }
    {
        self.open.is_empty()
    }

    /// The first slot that is empty and not held.
    pub(crate) fn first_free(&self, held: &SlotSet) -> Option<u16>
        ensures { MatchOption result (NoneFree SLOTS_PER_PAGE self.now held.now) (IsFirstFree self.now held.now) }
    {
        self.open.first_beside(held)
    }
}
