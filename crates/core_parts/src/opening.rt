//! Whether a core may begin with what another one holds.
ghost use Rattle.std.specs.Prelude.{◌<◌, ◌↔◌, ℕ, IsTrue};
ghost use Rattle.model.specs.Table.{IsPairOf};
ghost use Rattle.record_values.specs.declared.rid.TheConstants.{SLOTS_PER_PAGE};
ghost use Rattle.marked_index.specs.Above.{IsLeastAbove};
ghost use Rattle.core_parts.specs.Parts.{parts_of};
ghost use Rattle.core_parts.specs.Opening.{EachIsShown, EachMayStand, IsRowShown, IsShown, MayStand};

use crate::clean::is_passed;
use crate::parts::CoreParts;
use records::{Mark, Pair, Rid, SLOTS_PER_PAGE};
use std::alloc::Allocator;

impl<A: Allocator + Copy> CoreParts<A> {
    // Whether there is a row at the pair's place, with its key.
    fn is_of_row(&self, pair: &Pair) -> bool
        ensures { IsTrue result ↔ IsPairOf (parts_of self.now).heap.rows pair.now }
    {
        match self.heap.get(pair.rid) {
            Some(row) => row.key == pair.key,
            None => false,
        }
    }

    // Whether there may be this entry.
    fn may_stand(&self, pair: &Pair, mark: Mark) -> bool
        ensures { IsTrue result ↔ MayStand (parts_of self.now) pair.now mark }
    {
        match mark {
            Mark::Live => self.indexed() && self.is_of_row(pair),
            Mark::Marked => self.indexed(),
        }
    }

    // The least entry above the pair, or the least of all.
    fn entry_above(&self, pair: Option<Pair>) -> Option<(Pair, Mark)>
        ensures { IsLeastAbove (parts_of self.now).index.entries pair result }
    {
        self.index.above(pair.as_ref())
    }

    /// Whether there may be each of the entries.
    pub fn entries_may_stand(&self) -> bool
        ensures { IsTrue result ↔ EachMayStand (parts_of self.now) }
    {
        let mut last: Option<Pair> = None;
        while let Some(entry) = self.entry_above(last) {
            if !self.may_stand(&entry.0, entry.1) {
                return false;
            }
            last = Some(entry.0);
        }
        true
    }

    // Whether the pair of a row is where the index must have it.
    fn is_shown(&self, pair: &Pair) -> bool
        ensures { IsTrue result ↔ IsShown (parts_of self.now) pair.now }
    {
        match self.index.get(pair) {
            Some(Mark::Live) => true,
            Some(Mark::Marked) => false,
            None => !is_passed(&self.life, pair),
        }
    }

    // Whether the row at the place, if there is one, is shown by the index.
    fn is_row_shown(&self, rid: Rid) -> bool
        ensures { IsTrue result ↔ IsRowShown (parts_of self.now) rid }
    {
        match self.heap.get(rid) {
            Some(row) => self.is_shown(&Pair { key: row.key, rid }),
            None => true,
        }
    }

    // Whether each row of the page is.
    fn is_page_shown(&self, page: u32) -> bool
        ensures { IsTrue result ↔ ((slot : ℕ) → slot < SLOTS_PER_PAGE
            → IsRowShown (parts_of self.now) (record { page = page; slot = slot })) }
    {
        for slot in 0..SLOTS_PER_PAGE {
            if !self.is_row_shown(Rid { page, slot }) {
                return false;
            }
        }
        true
    }

    /// Whether each row is.
    pub fn rows_are_shown(&self) -> bool
        ensures { IsTrue result ↔ EachIsShown (parts_of self.now) }
    {
        for page in 0..self.heap.pages() {
            if !self.is_page_shown(page) {
                return false;
            }
        }
        true
    }
}
