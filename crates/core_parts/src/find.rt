//! The rows of a key.
ghost use Rattle.std.specs.Prelude.{◌≡◌, ◌↔◌, Contains, Some, IfOk, IfErr};
ghost use Rattle.std.specs.List.Sorted.{IsStrictlySortedBy};
ghost use Rattle.record_values.specs.Orders.{rid_cmp};
ghost use Rattle.record_values.specs.Values.{Place};
ghost use Rattle.record_values.specs.declared.pair.Mark.{Mark};
ghost use Rattle.marked_index.specs.Shown.{mark_at};
ghost use Rattle.core_parts.specs.Parts.{parts_of};

use crate::parts::CoreParts;
use records::{Error, Key, Rid};
use std::alloc::Allocator;

impl<A: Allocator + Copy> CoreParts<A> {
    /// The places of the live entries of a key, ascending.
    pub fn live_of(&self, key: Key) -> Result<Vec<Rid, A>, Error>
        ensures in_order { IfOk result (λ rids. IsStrictlySortedBy rid_cmp rids.items) }
        ensures each { IfOk result (λ rids. (r : Place) →
            Contains rids.items r ↔ (mark_at (parts_of self.now).index.entries key r ≡ Some Mark.Live)) }
        ensures no_memory { IfErr result (λ e. e ≡ Error.NoMemory) }
    {
        self.index.shown_of(self.alloc, key)
    }
}
