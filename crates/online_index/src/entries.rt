//! Where the entries of an index are.
ghost use Rattle.std.specs.Prelude.{◌≡◌, ◌≤◌, ◌-◌, ◌⊎◌, ◌↔◌, None, IfErr, IsSome, IsTrue, OnErr, OnOk};
ghost use Rattle.std.specs.FinMap as map;
ghost use Rattle.record_values.specs.Maps.{set_at};
ghost use Rattle.marked_index.specs.Counts.{marked_in};

use entry_scan::OrderedEntries;
use marked_index::MarkedIndex;
use record_values::{Error, Mark, Pair};
use std::alloc::Allocator;

/// The entries of an index, wherever they are kept. They can be read in order too (`OrderedEntries`).
pub trait Entries: OrderedEntries {
    ghost use Rattle.std.specs.Prelude.{ℕ};

    /// How many entries there may be.
    ghost capacity: { Self → ℕ };

    /// The mark of a pair, if it has an entry.
    fn get(&self, pair: &Pair) -> Option<Mark>
        ensures { result ≡ map.get (Self.entries self.now) pair.now };

    /// Sets the entry of a pair, or takes it out. It is refused only where an entry is to be added, as `IndexFull` only
    /// where there are as many as there may be.
    fn set(&mut self, pair: &Pair, mark: Option<Mark>) -> Result<(), Error>
        ensures ok { OnOk result (Self.entries self.new ≡ set_at (Self.entries self.old) pair.now mark) }
        ensures refused { IfErr result (λ e. IsSome mark × (map.get (Self.entries self.old) pair.now ≡ None)
            × ((e ≡ Error.IndexFull) × (capacity self.old ≤ map.len (Self.entries self.old)) ⊎ (e ≡ Error.NoMemory))) }
        ensures same_capacity { capacity self.new ≡ capacity self.old }
        ensures unchanged { OnErr result (Self.entries self.new ≡ Self.entries self.old) };

    /// How many there may be.
    fn capacity(&self) -> usize
        ensures { result ≡ capacity self.now };

    /// Whether there is none.
    fn is_empty(&self) -> bool
        ensures { IsTrue result ↔ (Self.entries self.now ≡ map.empty) };

    /// How many there are.
    fn len(&self) -> usize
        ensures { result ≡ map.len (Self.entries self.now) };

    /// How many are marked.
    fn marked(&self) -> usize
        ensures { result ≡ marked_in (Self.entries self.now) };
}

impl<A: Allocator + Clone> Entries for MarkedIndex<A> {
    ghost capacity = { λ index. index.capacity - index.pledged };

    fn get(&self, pair: &Pair) -> Option<Mark> {
        self.get(pair)
    }

    fn set(&mut self, pair: &Pair, mark: Option<Mark>) -> Result<(), Error> {
        self.load(pair, mark)
    }

    fn capacity(&self) -> usize {
        self.capacity() - self.pledged()
    }

    fn is_empty(&self) -> bool {
        self.is_empty()
    }

    fn len(&self) -> usize {
        self.len()
    }

    fn marked(&self) -> usize {
        self.marked()
    }
}
