//! Whether another core may begin with what a core holds, told by one look at each entry and each place.
ghost use Rattle.std.specs.Prelude.{◌≡◌, ◌<◌, ℕ, Some, false, slice_index_or, IsTrue, IfOk};
ghost use Rattle.std.specs.FinMap as map;
ghost use Rattle.record_values.specs.declared.pair.Mark.TheVariants.{Live};
ghost use Rattle.record_values.specs.declared.rid.TheConstants.{SLOTS_PER_PAGE};
ghost use Rattle.model.specs.Table.{IsPairOf};
ghost use Rattle.model.specs.declared.life.Life.TheVariants.{Complete};
ghost use Rattle.core_parts.specs.Opening.{EachIsShown, EachMayStand, IsRowShown, MayStand};
ghost use Rattle.nsf_core.specs.Opening.{AreNoted, number_of};
ghost use Rattle.nsf_core.specs.Value.{value_of};

use crate::store::Core;
use btree_node::Entry;
use model::Life;
use records::{Mark, Pair, Rid, SLOTS_PER_PAGE};
use std::alloc::{AllocError, Allocator};

// The number of a place among those of all pages.
fn number_of(rid: Rid) -> usize
    ensures { result ≡ number_of rid }
{
    rid.page as usize * 64 + rid.slot as usize
}

// No place of so many pages is noted.
fn nothing_noted<A: Allocator>(alloc: A, pages: u32) -> Result<Vec<bool, A>, AllocError>
    ensures { IfOk result (λ noted. (n : ℕ) → slice_index_or noted.items n false ≡ false) }
{
    let noted = vec![in alloc; false; pages as usize * 64]?;
    Ok(noted)
}

impl<A: Allocator + Copy> Core<A> {
    // Whether there is a row at the pair's place, with its key.
    fn is_of_row(&self, pair: &Pair) -> bool
        ensures { IsTrue result → IsPairOf (value_of self.now).heap.rows pair.now }
    {
        match self.parts.heap.get(pair.rid) {
            Some(row) => row.key == pair.key,
            None => false,
        }
    }

    // Notes the place of the row whose visible pair this is: whether there is one.
    fn note(&self, pair: &Pair, noted: &mut [bool]) -> bool
        requires live { map.get (value_of self.now).index.entries pair.now ≡ Some Live }
        requires noted { AreNoted (value_of self.now) noted.old }
        ensures noted { AreNoted (value_of self.now) noted.new }
        ensures sound { IsTrue result → IsPairOf (value_of self.now).heap.rows pair.now }
    {
        if !self.is_of_row(pair) {
            return false;
        }
        if pair.rid.slot >= SLOTS_PER_PAGE {
            return false;
        }
        let at = number_of(pair.rid);
        if at >= noted.len() {
            return false;
        }
        noted[at] = true;
        true
    }

    // Notes the place of an entry's row, if it is visible: whether there may be the entry.
    fn note_entry(&self, entry: &Entry, noted: &mut [bool]) -> bool
        requires complete { (value_of self.now).life ≡ Complete }
        requires entry { map.get (value_of self.now).index.entries entry.now.pair ≡ Some entry.now.mark }
        requires noted { AreNoted (value_of self.now) noted.old }
        ensures noted { AreNoted (value_of self.now) noted.new }
        ensures stands { IsTrue result → MayStand (value_of self.now) entry.now.pair entry.now.mark }
    {
        match entry.mark {
            Mark::Live => self.note(&entry.pair, noted),
            Mark::Marked => true,
        }
    }

    // Notes the places of all visible entries' rows: whether there may be each of the entries.
    fn note_entries(&self, noted: &mut [bool]) -> bool
        requires complete { (value_of self.now).life ≡ Complete }
        requires noted { AreNoted (value_of self.now) noted.old }
        ensures noted { AreNoted (value_of self.now) noted.new }
        ensures stand { IsTrue result → EachMayStand (value_of self.now) }
    {
        let mut last = None;
        let mut run: &[Entry] = &[];
        while let Some((entry, rest)) = self.left_or_next(run, last).split_first() {
            if !self.note_entry(entry, noted) {
                return false;
            }
            last = Some(entry.pair);
            run = rest;
        }
        true
    }

    // Whether the place is noted, or has no row.
    fn is_noted(&self, rid: Rid, noted: &[bool]) -> bool
        requires slot { rid.slot < SLOTS_PER_PAGE }
        requires noted { AreNoted (value_of self.now) noted.now }
        ensures { IsTrue result → IsRowShown (value_of self.now) rid }
    {
        let at = number_of(rid);
        if at < noted.len() && noted[at] {
            return true;
        }
        self.parts.heap.get(rid).is_none()
    }

    // Whether each place of the page is so.
    fn is_page_noted(&self, page: u32, noted: &[bool]) -> bool
        requires { AreNoted (value_of self.now) noted.now }
        ensures { IsTrue result → (slot : ℕ) → slot < SLOTS_PER_PAGE
            → IsRowShown (value_of self.now) (record { page = page; slot = slot }) }
    {
        for slot in 0..SLOTS_PER_PAGE {
            if !self.is_noted(Rid { page, slot }, noted) {
                return false;
            }
        }
        true
    }

    // Whether each place is so.
    fn are_all_noted(&self, noted: &[bool]) -> bool
        requires { AreNoted (value_of self.now) noted.now }
        ensures { IsTrue result → EachIsShown (value_of self.now) }
    {
        for page in 0..self.parts.heap.pages() {
            if !self.is_page_noted(page, noted) {
                return false;
            }
        }
        true
    }

    /// Whether it is seen at once, with a complete index, that each entry may stand there and each row is shown. It is
    /// not where memory is wanting to look.
    pub(crate) fn is_seen_to_fit(&self) -> bool
        ensures { IsTrue result → EachMayStand (value_of self.now) × EachIsShown (value_of self.now) }
    {
        let Life::Complete = self.parts.life else {
            return false;
        };
        let Ok(mut noted) = nothing_noted(self.parts.alloc, self.parts.heap.pages()) else {
            return false;
        };
        if !self.note_entries(&mut noted) {
            return false;
        }
        self.are_all_noted(&noted)
    }
}
