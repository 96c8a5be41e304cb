//! Live entries, a run of them at a time.
ghost use Rattle.std.specs.Prelude.{◌≡◌, ◌≤◌, IfNone, IfSome, length};
ghost use Rattle.std.specs.Option.{option_copied};
ghost use Rattle.marked_index.specs.Passing.{IsBehindLive, IsLiveNext, live_front};

use crate::index::MarkedIndex;
use btree_node::Entry;
use record_values::{Mark, Pair};
use std::alloc::Allocator;

// How many live entries these begin with.
fn live_front(run: &[Entry]) -> usize
    ensures number { result ≡ live_front run.now }
    ensures within { result ≤ length run.now }
{
    for (i, entry) in run.iter().enumerate() {
        match entry.mark {
            Mark::Live => {}
            Mark::Marked => return i,
        }
    }
    run.len()
}

impl<A: Allocator + Clone> MarkedIndex<A> {
    /// The last of some live entries that follow one another, the first of them next above the pair, or the least of
    /// all. There is none only where the next entry isn't live.
    ///
    /// It goes over what is left of one leaf (no clause says so).
    pub fn last_live_above(&self, pair: Option<&Pair>) -> Option<Pair>
        ensures passed { IfSome result (IsBehindLive self.now.entries (option_copied pair.entry)) }
        ensures none { IfNone result (IsLiveNext self.now.entries (option_copied pair.entry) → ⊥) }
    {
        let run = self.run_above(pair);
        let live = live_front(run);
        if live == 0 {
            return None;
        }
        Some(run[live - 1].pair)
    }
}
