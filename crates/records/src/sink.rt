//! What takes records.
ghost use Rattle.std.specs.Prelude.{◌≡◌, ◌<◌, ◌≤◌, ◌+◌, ◌-◌, ◌++◌, [], ◌∷◌, List, ℕ, IsOk, OnOk, MatchResult, vec_len};
ghost use Rattle.std.specs.Prelude.{vec_capacity};
ghost use Rattle.records.specs.RecordValue.{RecordValue};

use crate::record::Record;
use std::alloc::Allocator;

/// A place for records in the order of their making, such as a list or the
/// queue to the log's writer.
pub trait Sink {
    /// The records that it has taken, the first of them first.
    ghost taken: { Self → List RecordValue };

    /// How many more it is sure to take.
    ghost room: { Self → ℕ };

    /// Where it puts them, for a sink that stands for another thing, such as a queue; taking keeps it.
    ghost place: { Self → ℕ };

    /// Takes the record as the last one, or gives it back and has then taken
    /// nothing.
    fn take(&mut self, item: Record) -> Result<(), Record>
        ensures taken { MatchResult result (λ _. taken self.new ≡ taken self.old ++ item ∷ []) (λ back. (back ≡ item)
            × (taken self.new ≡ taken self.old)) }
        ensures sure { 0 < room self.old → IsOk result }
        ensures left { OnOk result (room self.old ≤ room self.new + 1) }
        ensures place { place self.new ≡ place self.old };
}

/// A vector takes records at its end, and refuses one where it can't grow.
impl<A: Allocator> Sink for Vec<Record, A> {
    ghost taken = { λ records. records.items };

    ghost room = { λ records. vec_capacity records - vec_len records };

    ghost place = { λ records. 0 };

    fn take(&mut self, item: Record) -> Result<(), Record> {
        self.push(item).map_err(|refused| refused.value)
    }
}
