//! How many rows and entries a core holds.
ghost use Rattle.std.specs.Prelude.{◌≡◌, ◌-◌};
ghost use Rattle.std.specs.FinMap as map;
ghost use Rattle.core_parts.specs.Counts.{live_in, marked_in};
ghost use Rattle.nsf_core.specs.Value.{value_of};

use crate::store::Core;
use std::alloc::Allocator;

/// How many rows and entries there are.
#[derive(Clone, Copy, Debug, PartialEq, Eq)]
pub struct Counts {
    /// The rows, committed or not.
    pub rows: usize,
    /// The entries of the index.
    pub entries: usize,
    /// Those of them that are marked.
    pub marked: usize,
}

impl Counts {
    /// The visible entries: those that aren't marked.
    pub fn visible(&self) -> usize
        ensures { result ≡ self.now.entries - self.now.marked }
    {
        self.entries.saturating_sub(self.marked)
    }
}

impl<A: Allocator + Copy> Core<A> {
    /// How many rows and entries there are, told by numbers that each change keeps (no clause says so).
    pub fn counts(&self) -> Counts
        ensures rows { result.rows ≡ map.len (value_of self.now).heap.rows }
        ensures entries { result.entries ≡ map.len (value_of self.now).index.entries }
        ensures marked { result.marked ≡ marked_in (value_of self.now).index.entries }
        ensures visible { result.entries - result.marked ≡ live_in (value_of self.now).index.entries }
    {
        Counts {
            rows: self.parts.heap.len(),
            entries: self.parts.index.len(),
            marked: self.parts.index.marked(),
        }
    }
}
