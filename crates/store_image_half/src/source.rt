//! What the cells of an image are taken from.
ghost use Rattle.std.specs.Prelude.{◌≡◌, ◌+◌, ◌<◌, ℕ, Some, length, slice_get};
ghost use Rattle.std.specs.Option.{option_map};
ghost use Rattle.std.specs.FinMap as finite;
ghost use Rattle.record_values.specs.declared.rid.TheConstants.{SLOTS_PER_PAGE};
ghost use Rattle.model.specs.Cells.{Cells};
ghost use Rattle.model.specs.Redo.{cells_of};
ghost use Rattle.store_image_half.specs.Source.{IsNextBehind, IsPassed};

use model::{CellMaps, Life, ROWS_PER_PAGE};
use records::{Change, ENTRIES_PER_SECTOR, Mark, Pair, Row, Txn};
use std::alloc::Allocator;

/// How many entries lie in a sector.
pub const SECTOR_ENTRIES: usize = ENTRIES_PER_SECTOR as usize;

// The entry that is lent, where there is one.
fn copied(entry: Option<(&Pair, &Mark)>) -> Option<(Pair, Mark)>
    ensures { result ≡ option_map (λ e. (e.0.now, e.1.now)) entry.entry }
{
    match entry {
        Some((pair, mark)) => Some((*pair, *mark)),
        None => None,
    }
}

/// Cells that an image is written of.
pub trait CellSource {
    /// The cells.
    ghost cells: { Self → Cells };

    /// How far the index is.
    fn life(&self) -> Life
        ensures { result ≡ (cells self.now).life };

    /// The rows of a page, by their slots.
    fn page(&self, page: u32) -> [Option<Row>; ROWS_PER_PAGE]
        ensures { (slot : ℕ) → slot < SLOTS_PER_PAGE → slice_get result slot
            ≡ Some (finite.get (cells self.now).rows (record { page = page; slot = slot })) };

    /// How many entries there are.
    fn entry_count(&self) -> usize
        ensures { result ≡ length (finite.entries (cells self.now).entries) };

    /// The entries of a sector, of which the first one comes behind that of this pair, or is the first of all where no
    /// pair is given. Where there are too few the other places have none.
    fn entries_behind(&self, pair: Option<Pair>) -> [Option<(Pair, Mark)>; SECTOR_ENTRIES]
        ensures { (n j : ℕ) → IsPassed (finite.entries (cells self.now).entries) n pair → j < SECTOR_ENTRIES
            → slice_get result j ≡ Some (slice_get (finite.entries (cells self.now).entries) (n + j)) };

    /// The transaction that comes behind this one, in the order of their numbers, or the first one where none is given,
    /// with its list of changes.
    fn list_behind(&self, txn: Option<Txn>) -> Option<(Txn, &[Change])>
        ensures { IsNextBehind (finite.entries (cells self.now).pending) txn
            (option_map (λ l. (l.0, l.1.now)) result) };
}

impl<A: Allocator + Copy> CellSource for CellMaps<A> {
    ghost cells = { λ maps. cells_of maps };

    fn life(&self) -> Life {
        self.life
    }

    fn page(&self, page: u32) -> [Option<Row>; ROWS_PER_PAGE] {
        self.rows.page(page)
    }

    fn entry_count(&self) -> usize {
        self.entries.len()
    }

    fn entries_behind(&self, pair: Option<Pair>) -> [Option<(Pair, Mark)>; SECTOR_ENTRIES] {
        let mut found = [None; SECTOR_ENTRIES];
        let mut rest = self.entries.all_above(pair);
        for place in 0..SECTOR_ENTRIES {
            found[place] = copied(rest.next());
        }
        found
    }

    fn list_behind(&self, txn: Option<Txn>) -> Option<(Txn, &[Change])> {
        self.lists.above(txn)
    }
}
