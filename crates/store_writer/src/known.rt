//! Which pages the halves of a store have as they are.
ghost use Rattle.std.specs.Prelude.{◌≡◌, ◌≤◌, ◌⊎◌, ◌↔◌, [], IfSome, IsTrue, None, Some, replicate, ℕ};
ghost use Rattle.store_writer.specs.Known.{IsKnown, place_set, with_change, with_changes};

use records::{Action, Part, Record, Rid, TxnAction};
use std::alloc::Allocator;

/// Which pages of its image each half of a store has as they are after the last record that was handed in.
///
/// For each page a number is kept above which no record sets a row of it; for none, until there is memory for all.
#[derive(Drop)]
pub(crate) struct KnownPages<A: Allocator> {
    pub(crate) changed: Vec<u64, A>,
    // The current half has each page that no record above this number sets a row of.
    pub(crate) current: Option<u64>,
    // And so for the other half.
    pub(crate) other: Option<u64>,
}

// The place whose row an action sets.
fn place_set(action: &Action) -> Option<Rid>
    ensures { result ≡ place_set action.now }
{
    let Action::OfTxn { action, .. } = action else {
        return None;
    };
    match action {
        TxnAction::Forward {
            part: Part::Slot,
            change,
        } => Some(change.rid),
        TxnAction::Undo {
            part: Part::Slot,
            change,
            ..
        } => Some(change.rid),
        _ => None,
    }
}

impl<A: Allocator + Copy> KnownPages<A> {
    /// Nothing is known.
    pub(crate) fn new(alloc: A) -> Self
        ensures changed { result.changed.items ≡ [] }
        ensures current { result.current ≡ None }
        ensures other { result.other ≡ None }
    {
        KnownPages {
            changed: Vec::new(alloc),
            current: None,
            other: None,
        }
    }

    /// Keeps a number for each of so many pages, this one, if none is kept yet. Without memory none is.
    pub(crate) fn begin_at(&mut self, pages: u32, number: u64)
        ensures begun { (self.new ≡ self.old) ⊎ ((self.old.changed.items ≡ [])
            × (self.new.changed.items ≡ replicate pages number)
            × (self.new.current ≡ None) × (self.new.other ≡ None)) }
    {
        if !self.changed.is_empty() {
            return;
        }
        let alloc = *self.changed.allocator();
        if let Ok(changed) = vec![in alloc; number; pages as usize] {
            self.changed = changed;
            self.current = None;
            self.other = None;
        }
    }

    // Notes what a record sets.
    fn note_one(&mut self, record: &Record)
        ensures changed { self.new.changed.items ≡ with_change self.old.changed.items record.now }
        ensures current { self.new.current ≡ self.old.current }
        ensures other { self.new.other ≡ self.old.other }
    {
        let Some(rid) = place_set(&record.action) else {
            return;
        };
        let page = rid.page as usize;
        if page < self.changed.len() {
            self.changed[page] = record.number.get();
        }
    }

    /// Notes what these records set.
    pub(crate) fn note(&mut self, records: &[Record])
        ensures changed { self.new.changed.items ≡ with_changes self.old.changed.items records.now }
        ensures current { self.new.current ≡ self.old.current }
        ensures other { self.new.other ≡ self.old.other }
    {
        for record in records {
            self.note_one(record);
        }
    }

    /// Whether the other half has this page as it is.
    pub(crate) fn has(&self, page: u32) -> bool
        ensures { IsTrue result ↔ IsKnown self.now.changed.items self.now.other page }
    {
        let Some(low) = self.other else {
            return false;
        };
        let page = page as usize;
        page < self.changed.len() && self.changed[page] <= low
    }

    /// A page as it was after the record `number` is written into the other half. What is known of that half stays, if
    /// the record isn't above the last one handed in, nor below what is known.
    pub(crate) fn page_written(&mut self, number: u64, handed: u64)
        ensures changed { self.new.changed ≡ self.old.changed }
        ensures current { self.new.current ≡ self.old.current }
        ensures other { (self.new.other ≡ self.old.other) ⊎ (self.new.other ≡ None) }
        ensures between { IfSome self.new.other (λ low. (low ≤ number) × (number ≤ handed)) }
        ensures stays { (low : ℕ) → self.old.other ≡ Some low → low ≤ number → number ≤ handed
            → self.new.other ≡ self.old.other }
    {
        let stays = match self.other {
            Some(low) => low <= number && number <= handed,
            None => false,
        };
        if !stays {
            self.other = None;
        }
    }

    /// The other half is current now, with an image that was begun at this record.
    pub(crate) fn turn(&mut self, base: u64)
        ensures changed { self.new.changed ≡ self.old.changed }
        ensures current { self.new.current ≡ Some base }
        ensures other { self.new.other ≡ self.old.current }
    {
        self.other = self.current;
        self.current = Some(base);
    }
}
