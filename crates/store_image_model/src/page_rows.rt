//! The rows of one page.
ghost use Rattle.std.specs.Prelude.{◌≡◌, ◌≢◌, ◌<◌, ℕ, length, slice_get, Some, None, IfOk, IfSome};
ghost use Rattle.std.specs.FinMap as map;
ghost use Rattle.record_values.specs.Values.{Place};
ghost use Rattle.record_values.specs.declared.rid.TheConstants.{SLOTS_PER_PAGE};
ghost use Rattle.record_values.specs.declared.row.Row.{Row as RowValue};

use model::ROWS_PER_PAGE;
use records::Row;
use std::alloc::{AllocError, Allocator};
use std::marker::Model;

/// The rows of one page, as a table that has no others.
///
/// They lie by their slots, so that to copy or to read them searches for none.
#[derive(Drop)]
pub struct PageRows<A: Allocator> {
    page: u32,
    slots: Vec<Option<Row>, A>,
}

impl<A: Allocator> Model for PageRows<A> {
    ghost use Rattle.std.specs.Prelude.{◌≡◌, ◌⊎◌, length};
    ghost use Rattle.std.specs.FinMap as map;
    ghost use Rattle.record_values.specs.Orders.{rid_cmp};
    ghost use Rattle.record_values.specs.Codes.{coded_rid, coded_row};
    ghost use Rattle.record_values.specs.declared.rid.TheConstants.{SLOTS_PER_PAGE};
    ghost use Rattle.record_values.specs.declared.row.Row.{Row};
    ghost use Rattle.store_image_model.specs.Slots.{rows_from};

    ghost Value = { map.FinMap rid_cmp Row };

    ghost coded = { map.code coded_rid coded_row };

    ghost view = { λ p. rows_from p.page 0 p.slots.items };

    ghost invariant = { λ p. (length p.slots.items ≡ 0) ⊎ (length p.slots.items ≡ SLOTS_PER_PAGE) };
}

impl<A: Allocator> PageRows<A> {
    /// The table of the rows in the slots of this page.
    pub fn new(
        alloc: A,
        page: u32,
        slots: &[Option<Row>; ROWS_PER_PAGE],
    ) -> Result<Self, AllocError>
        ensures there { IfOk result (λ rows. (slot : ℕ) → slot < SLOTS_PER_PAGE
            → slice_get slots.now slot ≡ Some (map.get rows (record { page = page; slot = slot }))) }
        ensures elsewhere { IfOk result (λ rows. (q : Place) → q.page ≢ page → map.get rows q ≡ None) }
        ensures slots { IfOk result (λ rows. (q : Place) (r : RowValue) → map.get rows q ≡ Some r
            → q.slot < SLOTS_PER_PAGE) }
    {
        let mut kept = Vec::with_capacity(alloc, ROWS_PER_PAGE)?;
        kept.extend_from_slice(slots)?;
        Ok(PageRows { page, slots: kept })
    }

    /// The table without rows. It takes no memory.
    pub fn empty(alloc: A) -> Self
        ensures { result ≡ map.empty }
    {
        PageRows {
            page: 0,
            slots: Vec::new(alloc),
        }
    }

    /// The rows of a page, by their slots. `None` only where the table has none of it.
    pub fn page(&self, page: u32) -> Option<&[Option<Row>]>
        ensures slots { IfSome result (λ rows. (slot : ℕ) → slot < SLOTS_PER_PAGE
            → slice_get rows.now slot ≡ Some (map.get self.now (record { page = page; slot = slot }))) }
        ensures count { IfSome result (λ rows. length rows.now ≡ SLOTS_PER_PAGE) }
        ensures none { result ≡ None → (slot : ℕ) → map.get self.now (record { page = page; slot = slot }) ≡ None }
    {
        if page != self.page {
            return None;
        }
        if self.slots.is_empty() {
            return None;
        }
        Some(self.slots.as_slice())
    }
}
