//! What is restored of a store.
ghost use Rattle.std.specs.Prelude.{◌≤◌};
ghost use Rattle.record_values.specs.declared.number.TheConstants.{LAST_NUMBER};
ghost use Rattle.model.specs.Inside.{IsGivenInside};

use model::{EntryMap, Life, RowMap};
use records::Geometry;
use std::alloc::Allocator;

/// What is restored of a store: its cells with every unfinished transaction taken back. All of it is in the store's
/// pages, but there may be more entries than its geometry has room for: a store that no crash left so is damaged.
#[derive(Drop)]
pub struct Restored<A: Allocator> {
    /// How large the store is.
    pub geometry: Geometry,
    /// Its rows.
    pub rows: RowMap<A>,
    /// The entries of its index.
    pub entries: EntryMap<A>,
    /// How far the index is.
    pub life: Life,
    /// The number of the last record.
    pub last: u64,
    ghost inside: { IsGivenInside geometry.pages (record {
      table = rows;
      entries = entries;
      life = life;
      last = last;
    }) },
    ghost numbered: { last ≤ LAST_NUMBER },
}
